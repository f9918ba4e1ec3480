// Geographic to cartesian coordinates and back as a step of a sheet: cart.rs of the crate geodesy
// 0.15.0.
//
// Forward is `geocart::cartesian`. Inverse is cart.rs's own method, Fukushima's (2006) in
// Claessens' (2019) form, with the Rust's letters and sequence of roundings; it is not
// `geocart::geographic`, from which it parts in the last bits and near the axis (cutoff a·1e-16
// against 1e-12). On the axis the tuple is written and not counted; a NaN Z gives a NaN latitude
// there, a listed difference. Elsewhere a tuple counts where no number of the result is NaN.
// Sixteen tuples at a time: the crate cart_block.
#![tactic(auto)]

ghost use Rattle.std.specs.Prelude.{◌≡◌};
ghost use Rattle.cart.specs.Record.{blank_of, in_rule_of};
ghost use Rattle.cart.specs.Step.{counted_of, cart_fwd_of, inverse_figures_of, latitude_legs_of, height_with, height_of, off_axis_of, on_axis_of, cart_inv_of};

use ellipsoid::Ellipsoid;
use tuple::{Shifted, Tuple};

// The record that a sheet carries.
#[derive(Clone, Copy)]
pub struct Cart {
    pub ellipsoid: u32,
}

impl Cart {
    // The crate's default: GRS80.
    pub fn blank() -> Self
        ensures { result ≡ blank_of }
    {
        Cart { ellipsoid: 1 }
    }

    // Rule 5: the table has the ellipsoid.
    pub fn in_rule(self) -> bool
        ensures { result ≡ in_rule_of self }
    {
        Ellipsoid::exists(self.ellipsoid)
    }
}

// What the inverse needs of an ellipsoid, worked out once for a list.
#[derive(Clone, Copy)]
pub struct Inverse {
    pub ellps: Ellipsoid,
    pub ra: f64,
    pub ar: f64,
    pub ce4: f64,
    pub cutoff: f64,
}

#[derive(Clone, Copy)]
pub struct Legs {
    pub s1: f64,
    pub cc: f64,
}

fn counted(coord: Tuple) -> Shifted
    ensures { result ≡ counted_of coord }
{
    Shifted {
        tuple: coord,
        counted: !coord.any_nan(),
    }
}

// ----- F O R W A R D --------------------------------------------------------------

pub fn cart_fwd(ellps: Ellipsoid, coord: Tuple) -> Shifted
    ensures { result ≡ cart_fwd_of ellps coord }
{
    counted(geocart::cartesian(ellps, coord))
}

// ----- I N V E R S E --------------------------------------------------------------

impl Inverse {
    pub fn new(ellps: Ellipsoid) -> Self
        ensures { result ≡ inverse_figures_of ellps }
    {
        let ra = 1.0 / ellps.a;
        Inverse {
            ellps,
            ra,
            // b/a: Fukushima's ec, Claessens' c4
            ar: ellps.b * ra,
            // 1.5 times the fourth power of the eccentricity
            ce4: 1.5 * ellps.es * ellps.es,
            // if we're closer than this to the Z axis, we force latitude to one of the poles
            cutoff: ellps.a * 1e-16,
        }
    }
}

// S1 and CC, the legs of the latitude's angle, of a point of the meridian plane: p, s0 and c0
// reduced by the semimajor axis, a the hypotenuse of s0 and c0.
pub fn meridian(k: Inverse, p: f64, s0: f64, c0: f64, a: f64) -> Legs
    ensures { result ≡ latitude_legs_of k p s0 c0 a }
{
    let es = k.ellps.es;
    let f = p * a * a * a - es * c0 * c0 * c0;
    let b = k.ce4 * s0 * s0 * c0 * c0 * p * (a - k.ar);
    let s1 = (k.ar * s0 * a * a * a + es * s0 * s0 * s0) * f - b * s0;
    let c1 = f * f - b * c0;
    Legs { s1, cc: k.ar * c1 }
}

// The height, with two hypotenuses at hand: inner that of CC and ar·S1, outer that of CC and S1.
pub fn height_with(k: Inverse, p: f64, z: f64, m: Legs, inner: f64, outer: f64) -> f64
    ensures { result ≡ height_with k p z m inner outer }
{
    let along = p * floats::abs(m.cc) + floats::abs(z) * floats::abs(m.s1);
    (along - k.ellps.a * inner) / outer
}

fn height(k: Inverse, p: f64, z: f64, m: Legs) -> f64
    ensures { result ≡ height_of k p z m }
{
    let s1 = m.s1;
    let cc = m.cc;
    height_with(
        k,
        p,
        z,
        m,
        hypot::hypot(cc, k.ar * s1),
        hypot::hypot(cc, s1),
    )
}

fn off_axis(k: Inverse, lam: f64, p: f64, coord: Tuple) -> Tuple
    ensures { result ≡ off_axis_of k lam p coord }
{
    let z = coord.z;
    let reduced = k.ra * p;
    let s0 = k.ra * z;
    let c0 = k.ar * reduced;
    let m = meridian(k, reduced, s0, c0, hypot::hypot(s0, c0));
    Tuple {
        x: lam,
        y: arctan::atan2(m.s1, m.cc),
        z: height(k, p, z, m),
        t: coord.t,
    }
}

fn on_axis(k: Inverse, lam: f64, coord: Tuple) -> Shifted
    ensures { result ≡ on_axis_of k lam coord }
{
    let pole = Tuple {
        x: lam,
        y: geocart::pole(coord.z),
        z: geocart::pole_height(k.ellps, coord.z),
        t: coord.t,
    };
    Shifted {
        tuple: pole,
        counted: false,
    }
}

pub fn cart_inv(k: Inverse, coord: Tuple) -> Shifted
    ensures { result ≡ cart_inv_of k coord }
{
    // The longitude is straightforward
    let lam = arctan::atan2(coord.y, coord.x);
    // The perpendicular distance from the point to the Z axis
    let p = hypot::hypot(coord.x, coord.y);
    if p < k.cutoff {
        return on_axis(k, lam, coord);
    }
    counted(off_axis(k, lam, p, coord))
}
