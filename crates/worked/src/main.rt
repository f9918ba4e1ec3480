// The worked examples of IOGP 373-7-2, run through the steps and printed beside the published
// figures.
//
// Lengths are printed to the millimetre, angles in degrees, minutes and seconds to a thousandth.
// The inputs are the document's own; the last digits of a published figure are its rounding, up to
// 6 mm where it was worked with rounded parameters.
#![tactic(auto)]

use badekas::Badekas;
use ellipsoid::Ellipsoid;
use helmert::Helmert;
use molodensky::{Molodensky, Moped};
use rotation::Vec3;
use std::io;
use tuple::Tuple;

// seconds of arc in a radian, thousandths of them, and π/648000
const SECONDS: f64 = 206264.80624709636;

// |x| in units of 1/1000, as a whole number: the sum with 2^52 rounds to one
fn thousandths(x: f64) -> u64 {
    floats::to_bits(floats::abs(x) * 1000.0 + 4503599627370496.0) % 4503599627370496
}

fn print_digit(out: &impl Print, n: u64) -> io::Result<()> {
    print!(out; "{}", n % 10)
}

// 0 to 999, three digits
fn print_part(out: &impl Print, n: u64) -> io::Result<()> {
    print_digit(out, n / 100)?;
    print_digit(out, n / 10)?;
    print_digit(out, n)
}

fn print_length(out: &impl Print, x: f64) -> io::Result<()> {
    let n = thousandths(x);
    if floats::negative(x) {
        print!(out; "-")?;
    }
    print!(out; "{}.", n / 1000)?;
    print_part(out, n)
}

fn print_angle(out: &impl Print, x: f64) -> io::Result<()> {
    let n = thousandths(x * SECONDS);
    if floats::negative(x) {
        print!(out; "-")?;
    }
    print!(out; "{} {} {}.", n / 3600000, n / 60000 % 60, n / 1000 % 60)?;
    print_part(out, n)
}

fn print_cartesian(out: &impl Print, v: Tuple) -> io::Result<()> {
    print_length(out, v.x)?;
    print!(out; "  ")?;
    print_length(out, v.y)?;
    print!(out; "  ")?;
    print_length(out, v.z)?;
    println!(out;)
}

// latitude first, as the document has it
fn print_geographic(out: &impl Print, v: Tuple) -> io::Result<()> {
    print_angle(out, v.y)?;
    print!(out; " N  ")?;
    print_angle(out, v.x)?;
    print!(out; " E  ")?;
    print_length(out, v.z)?;
    println!(out;)
}

fn radians(degrees: f64, minutes: f64, seconds: f64) -> f64 {
    (degrees * 3600.0 + minutes * 60.0 + seconds) / SECONDS
}

// 53 48 33.820 N, 2 7 46.380 E, 73.0 m on WGS 84
fn north_sea() -> Tuple {
    Tuple {
        x: radians(2.0, 7.0, 46.38),
        y: radians(53.0, 48.0, 33.82),
        z: 73.0,
        t: 0.0,
    }
}

fn geocentric(out: &impl Print) -> io::Result<()> {
    let wgs84 = Ellipsoid::named(2);
    let there = cart::cart_fwd(wgs84, north_sea());
    print!(out; "geographic to geocentric, WGS 84\n  ours       ")?;
    print_cartesian(out, there.tuple)?;
    println!(out; "  published  3771793.968  140253.342  5124304.349")?;
    let back = cart::cart_inv(cart::Inverse::new(wgs84), there.tuple);
    print!(out; "and back\n  ours       ")?;
    print_geographic(out, back.tuple)?;
    println!(out; "  published  53 48 33.820 N  2 7 46.380 E  73.000")
}

// WGS 72 to WGS 84: 4.5 m along Z, rz of an arc second's part, 0.219 ppm
fn wgs72(convention: u32, rz: f64) -> Tuple {
    let mut h = Helmert::blank();
    let t = Vec3 {
        x: 0.0,
        y: 0.0,
        z: 4.5,
    };
    let r = Vec3 {
        x: 0.0,
        y: 0.0,
        z: rz,
    };
    h.convention = convention;
    h.translation = t;
    h.rotation = r;
    h.scale = 0.219;
    let v = Tuple {
        x: 3657660.66,
        y: 255768.55,
        z: 5201382.11,
        t: 0.0,
    };
    helmert::fixed_step(helmert::prepare(h), false, v)
}

fn helmert_shifts(out: &impl Print) -> io::Result<()> {
    print!(out; "position vector, WGS 72 to WGS 84\n  ours       ")?;
    print_cartesian(out, wgs72(1, 0.554))?;
    println!(out; "  published  3657660.78  255778.43  5201387.75")?;
    print!(out; "coordinate frame, the same\n  ours       ")?;
    print_cartesian(out, wgs72(2, -0.554))?;
    println!(out; "  published  3657660.78  255778.43  5201387.75")
}

// La Canoa to REGVEN by the coordinate frame about a pivot in Venezuela, EPSG method 1034
fn regven(inverse: bool, v: Tuple) -> Tuple {
    let mut b = Badekas::blank();
    let t = Vec3 {
        x: -270.933,
        y: 115.599,
        z: -360.226,
    };
    let r = Vec3 {
        x: -5.266,
        y: -1.238,
        z: 2.381,
    };
    let p = Vec3 {
        x: 2464351.59,
        y: -5783466.61,
        z: 974809.81,
    };
    b.convention = 2;
    b.translation = t;
    b.rotation = r;
    b.scale = -5.109;
    b.pivot = p;
    helmert::fixed_step(badekas::prepare(b), inverse, v)
}

fn badekas_shift(out: &impl Print) -> io::Result<()> {
    let la_canoa = Tuple {
        x: 2550408.96,
        y: -5749912.26,
        z: 1054891.11,
        t: 0.0,
    };
    let there = regven(false, la_canoa);
    print!(out; "Molodensky-Badekas, La Canoa to REGVEN\n  ours       ")?;
    print_cartesian(out, there)?;
    println!(out; "  published  2550138.45  -5749799.87  1054530.82")?;
    print!(out; "and back\n  ours       ")?;
    print_cartesian(out, regven(true, there))?;
    println!(out; "  published  2550408.96  -5749912.26  1054891.11")
}

// WGS 84 to ED50
fn ed50(flags: u32) -> Tuple {
    let mut m = Molodensky::blank();
    m.flags = flags;
    m.first = 2;
    m.second = 3;
    m.dx = 84.87;
    m.dy = 96.49;
    m.dz = 116.95;
    molodensky::common(Moped::new(m), false, north_sea())
}

fn molodensky_shifts(out: &impl Print) -> io::Result<()> {
    print!(out; "abridged Molodensky, WGS 84 to ED50\n  ours       ")?;
    print_geographic(out, ed50(3))?;
    println!(out; "  published  53 48 36.563 N  2 7 51.477 E  28.091")?;
    print!(out; "full Molodensky, the same\n  ours       ")?;
    print_geographic(out, ed50(2))?;
    println!(out; "  by PROJ    53 48 36.565 N  2 7 51.477 E  28.021")
}

fn main(rt: HostRuntime) -> io::Result<()> {
    geocentric(&rt)?;
    helmert_shifts(&rt)?;
    badekas_shift(&rt)?;
    molodensky_shifts(&rt)
}
