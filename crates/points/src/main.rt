// Document 01's marked points that are run and not proved, printed beside what is expected.
//
// 2,048 tuples through a sheet of 16 steps, within the default stack; 2,049 tuples; 16 and 17
// steps; p = 1e-11 by both inverses, which differ there; and deformation up 1000. Numbers are
// printed by their bits.
#![tactic(auto)]

ghost use Rattle.std.specs.Prelude.{◌≡◌, ◌<◌, ◌≤◌, length};

use cart::Inverse;
use ellipsoid::Ellipsoid;
use std::io;
use tuple::Tuple;

// ----- printing --------------------------------------------------------------------------------

fn print_number(out: &impl Print, x: f64) -> io::Result<()> {
    print!(out; " {:016x}", floats::to_bits(x))
}

fn print_tuple(out: &impl Print, v: Tuple) -> io::Result<()> {
    print_number(out, v.x)?;
    print_number(out, v.y)?;
    print_number(out, v.z)?;
    print_number(out, v.t)?;
    println!(out;)
}

fn print_refusal(out: &impl Print, number: u32, step: u32) -> io::Result<()> {
    println!(out; "  refused {number} step {step}")
}

fn print_each(out: &impl Print, counts: [usize; 16]) -> io::Result<()> {
    for &n in &counts {
        print!(out; " {n}")?;
    }
    Ok(())
}

fn print_counts(out: &impl Print, counts: [usize; 16]) -> io::Result<()> {
    print!(out; "  counts")?;
    print_each(out, counts)?;
    println!(out;)
}

// ----- sheets -----------------------------------------------------------------------------------

fn narrow(x: usize) -> u32
    requires { x < 1000 }
    ensures { result ≡ x }
{
    x as u32
}

// Entry i of a sheet of n cart steps on GRS80, every second one inverted.
fn put_step(s: &mut [u8], n: usize, i: usize)
    requires { (n ≤ 17) × (i < 17) }
{
    let at = sheet::entry_offset(narrow(i));
    let body = sheet::directory_end(narrow(n)) + 8 * i;
    words::put32(s, at, 2);
    words::put32(s, at + 4, narrow(i % 2));
    words::put32(s, at + 8, narrow(body));
    words::put32(s, at + 12, 8);
    words::put32(s, body, 1);
}

fn put_header(s: &mut [u8], n: u32, total: u32) {
    words::put32(s, 0, 1);
    words::put32(s, 4, total);
    words::put32(s, 8, n);
    words::put32(s, 12, 16);
}

// How long a sheet of n cart steps is.
fn length_of(n: usize) -> usize
    requires { n ≤ 17 }
    ensures { result ≤ 424 }
{
    sheet::directory_end(narrow(n)) + 8 * n
}

fn put_sheet(s: &mut [u8], n: usize)
    requires { n ≤ 17 }
{
    put_header(s, narrow(n), narrow(length_of(n)));
    for i in 0..n {
        put_step(s, n, i);
    }
}

// ----- the points --------------------------------------------------------------------------------

fn room() -> [f64; 8196]
    ensures { 8196 ≡ length result }
{
    [0.0; 8196]
}

// Numbers a step apart, so that no two fixes are the same.
fn spread(list: &mut [f64]) {
    let mut x = -1.5;
    for v in list.iter_mut() {
        *v = x;
        x += 0.0003;
    }
}

// A sheet over a list: the refusal, the counts, the first and the last tuple. With no refusal its
// numbers are printed as 0, and with one the counts.
fn run(
    out: &impl Print,
    s: &[u8],
    list: &mut [f64],
    velocities: &[f64],
    marks: &[u8],
) -> io::Result<()> {
    match chain::shift(false, s, list, velocities, marks) {
        Ok(tallies) => {
            print_refusal(out, 0, 0)?;
            print_counts(out, tally::counts(tallies))?;
        }
        Err(refusal) => {
            print_refusal(out, refusal.number, refusal.step)?;
            print_counts(out, [0; 16])?;
        }
    }
    print!(out; "  first")?;
    print_tuple(out, lists::read4(list, 0))?;
    print!(out; "  last ")?;
    if 4 <= list.len() {
        print_tuple(out, lists::read4(list, list.len() - 4))?;
    }
    Ok(())
}

// A sheet without deformation, over fixes a step apart.
fn run_spread(out: &impl Print, s: &[u8], list: &mut [f64]) -> io::Result<()> {
    spread(list);
    let none = [0.0f64; 3];
    let unmarked = [0u8; 1];
    run(out, s, list, &none[..0], &unmarked[..0])
}

fn sheet_room() -> [u8; 424]
    ensures { 424 ≡ length result }
{
    [0; 424]
}

// n cart steps over some tuples, of which there are at most 2,049.
fn carts(out: &impl Print, n: usize, tuples: usize) -> io::Result<()>
    requires { (n ≤ 17) × (tuples ≤ 2049) }
{
    let mut s = sheet_room();
    put_sheet(&mut s, n);
    let mut list = room();
    let total = length_of(n);
    let numbers = 4 * tuples;
    run_spread(out, &s[..total], &mut list[..numbers])
}

// (1e-11, 0, z, 0): on the axis for cart's inverse, which then counts nothing; off it for
// geographic.
fn near_the_axis(z: f64) -> Tuple {
    Tuple {
        x: 0.00000000001,
        y: 0.0,
        z: z,
        t: 0.0,
    }
}

fn print_counted(out: &impl Print, counted: bool) -> io::Result<()> {
    if counted {
        print!(out; "  cart, counted    ")
    } else {
        print!(out; "  cart, not counted")
    }
}

fn inverses(out: &impl Print, z: f64) -> io::Result<()> {
    let grs80 = Ellipsoid::named(1);
    let by_cart = cart::cart_inv(Inverse::new(grs80), near_the_axis(z));
    print_counted(out, by_cart.counted)?;
    print_tuple(out, by_cart.tuple)?;
    print!(out; "  geographic       ")?;
    print_tuple(out, geocart::geographic(grs80, near_the_axis(z)))
}

// Up 1000 mm/year from the epoch 2000, at (6378137, 0, 0, 2010).
fn risen(out: &impl Print) -> io::Result<()> {
    let mut s = [0u8; 56];
    put_header(&mut s, 1, 56);
    words::put32(&mut s, 16, 5);
    words::put32(&mut s, 24, 32);
    words::put32(&mut s, 28, 24);
    words::put32(&mut s, 36, 1);
    words::put64(&mut s, 40, 0x7ff8_0000_0000_0000);
    words::put_number(&mut s, 48, 2000.0);
    let mut list = [6378137.0, 0.0, 0.0, 2010.0];
    let up = [0.0, 0.0, 1000.0];
    let present = [1u8; 1];
    run(out, &s, &mut list, &up, &present)
}

fn main(rt: HostRuntime) -> io::Result<()> {
    println!(rt; "2048 tuples, 16 steps")?;
    carts(&rt, 16, 2048)?;
    println!(rt; "2049 tuples, 16 steps: 9")?;
    carts(&rt, 16, 2049)?;
    println!(rt; "1 tuple, 17 steps: 3")?;
    carts(&rt, 17, 1)?;
    println!(rt; "p = 1e-11 by both inverses, Z = 6400000")?;
    inverses(&rt, 6400000.0)?;
    println!(rt; "p = 1e-11 by both inverses, Z = 0")?;
    inverses(&rt, 0.0)?;
    println!(rt; "deformation up 1000 for ten years: X = 6378147, 415854a8c0000000")?;
    risen(&rt)
}
