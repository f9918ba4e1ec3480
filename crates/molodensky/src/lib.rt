// The full and abridged Molodensky transformations: molodensky.rs of the crate geodesy 0.15.0,
// after IOGP 373-7-2 and Deakin (2004).
//
// The Rust's letters and sequence of roundings, over our sine, cosine and square root: the
// sine-cosine pair of the latitude and the root that N and M share are worked out once where the
// Rust does so twice, with equal bits. Where a divisor is zero there are no offsets, and the first
// three coordinates become NaN, as the Rust's sums with a NaN do. The time stays, and every tuple
// counts. Sixteen tuples at a time: the crate molodensky_block.
#![tactic(auto)]

ghost use Rattle.std.specs.Prelude.{◌≡◌};
ghost use Rattle.molodensky.specs.Record.{blank_of, abridged_of, two_ellipsoids_of, second_in_rule_of, figure_in_rule_of, finite_of, in_rule_of};
ghost use Rattle.molodensky.specs.Step.{figure_of, moped_of, place_with, figures_at_of, abridged_with, full_offsets_of, offsets_of, common_of};

use ellipsoid::{Ellipsoid, Radii};
use tuple::Tuple;

// The record that a sheet carries. Flags: 1 abridged, 2 two ellipsoids.
#[derive(Clone, Copy)]
pub struct Molodensky {
    pub flags: u32,
    pub first: u32,
    pub second: u32,
    pub dx: f64,
    pub dy: f64,
    pub dz: f64,
    pub da: f64,
    pub df: f64,
}

// What a list needs of a record, worked out once.
#[derive(Clone, Copy)]
pub struct Moped {
    pub ellps: Ellipsoid,
    pub dx: f64,
    pub dy: f64,
    pub dz: f64,
    pub da: f64,
    pub df: f64,
    pub adffda: f64,
    pub abridged: bool,
}

// What the offsets need of a place.
#[derive(Clone, Copy)]
pub struct Place {
    pub slam: f64,
    pub clam: f64,
    pub sphi: f64,
    pub cphi: f64,
    pub n: f64,
    pub m: f64,
    pub fac: f64,
}

// The offsets in the ellipsoidal space.
#[derive(Clone, Copy)]
pub struct Offsets {
    pub dlam: f64,
    pub dphi: f64,
    pub dh: f64,
}

impl Molodensky {
    // The crate's defaults.
    pub fn blank() -> Self
        ensures { result ≡ blank_of }
    {
        Molodensky {
            flags: 0,
            first: 1,
            second: 0,
            dx: 0.0,
            dy: 0.0,
            dz: 0.0,
            da: 0.0,
            df: 0.0,
        }
    }

    pub fn abridged(self) -> bool
        ensures { result ≡ abridged_of self }
    {
        self.flags % 2 == 1
    }

    pub fn two_ellipsoids(self) -> bool
        ensures { result ≡ two_ellipsoids_of self }
    {
        self.flags / 2 % 2 == 1
    }

    fn second_in_rule(self) -> bool
        ensures { result ≡ second_in_rule_of self }
    {
        if self.two_ellipsoids() {
            Ellipsoid::exists(self.second)
        } else {
            self.second == 0
        }
    }

    // da and df of their own are +0 where the ellipsoids give them.
    fn figure_in_rule(self) -> bool
        ensures { result ≡ figure_in_rule_of self }
    {
        !self.two_ellipsoids() || floats::same(self.da, 0.0) && floats::same(self.df, 0.0)
    }

    fn finite(self) -> bool
        ensures { result ≡ finite_of self }
    {
        floats::is_finite(self.dx)
            && floats::is_finite(self.dy)
            && floats::is_finite(self.dz)
            && floats::is_finite(self.da)
            && floats::is_finite(self.df)
    }

    // Rule 5.
    pub fn in_rule(self) -> bool
        ensures { result ≡ in_rule_of self }
    {
        self.flags < 4
            && Ellipsoid::exists(self.first)
            && self.second_in_rule()
            && self.finite()
            && self.figure_in_rule()
    }
}

impl Moped {
    fn with(step: Molodensky, ellps: Ellipsoid, da: f64, df: f64) -> Self
        ensures { result ≡ figure_of step ellps da df }
    {
        Moped {
            ellps,
            dx: step.dx,
            dy: step.dy,
            dz: step.dz,
            da,
            df,
            adffda: ellps.a * df + ellps.f * da,
            abridged: step.abridged(),
        }
    }

    // With two ellipsoids da and df are second minus first.
    pub fn new(step: Molodensky) -> Self
        ensures { result ≡ moped_of step }
    {
        let ellps_0 = Ellipsoid::named(step.first);
        if step.two_ellipsoids() {
            let ellps_1 = Ellipsoid::named(step.second);
            return Moped::with(step, ellps_0, ellps_1.a - ellps_0.a, ellps_1.f - ellps_0.f);
        }
        Moped::with(step, ellps_0, step.da, step.df)
    }
}

impl Place {
    // Given the sines and cosines of longitude and latitude, and the radii.
    pub fn with(op: Moped, slam: f64, clam: f64, sphi: f64, cphi: f64, radii: Radii) -> Self
        ensures { result ≡ place_with op slam clam sphi cphi radii }
    {
        Place {
            slam,
            clam,
            sphi,
            cphi,
            n: radii.n,
            m: radii.m,
            fac: op.dx * clam + op.dy * slam,
        }
    }

    fn at(op: Moped, lam: f64, phi: f64) -> Self
        ensures { result ≡ figures_at_of op lam phi }
    {
        let l = trig::numbers(trig::sin_cos(lam));
        let p = trig::numbers(trig::sin_cos(phi));
        Place::with(op, l.s, l.c, p.s, p.c, op.ellps.radii_of_curvature(p.s))
    }
}

// The abridged offsets, given the sine of 2φ; none where a divisor is zero. All three are worked
// out before the test: a loop over a block then has no branch.
pub fn abridged_offsets(op: Moped, q: Place, sin2phi: f64) -> Option<Offsets>
    ensures { result ≡ abridged_with op q sin2phi }
{
    // delta phi
    let dphi = (-q.fac * q.sphi + op.dz * q.cphi + op.adffda * sin2phi) / q.m;
    // delta lambda
    let dlam_denom = q.n * q.cphi;
    let dlam = (op.dy * q.clam - op.dx * q.slam) / dlam_denom;
    // delta h
    let dh = q.fac * q.cphi + (op.dz + op.adffda * q.sphi) * q.sphi - op.da;
    if dlam_denom == 0.0 {
        return None;
    }
    Some(Offsets { dlam, dphi, dh })
}

// The full offsets at a height; none where a divisor is zero. All three are worked out before the
// tests, as the abridged ones are.
pub fn full_offsets(op: Moped, q: Place, h: f64) -> Option<Offsets>
    ensures { result ≡ full_offsets_of op q h }
{
    let n = q.n;
    let m = q.m;
    let a = op.ellps.a;
    let f = op.ellps.f;
    // delta phi
    let dphi = (op.dz + n * op.ellps.es * q.sphi * op.da / a) * q.cphi - q.fac * q.sphi
        + (m / (1.0 - f) + n * (1.0 - f)) * op.df * q.sphi * q.cphi;
    let dphi_denom = m + h;
    // delta lambda
    let dlam_denom = (n + h) * q.cphi;
    let dlam = (op.dy * q.clam - op.dx * q.slam) / dlam_denom;
    // delta h
    let dh = q.fac * q.cphi + op.dz * q.sphi - a / n * op.da
        + n * (1.0 - f) * op.df * q.sphi * q.sphi;
    if dphi_denom == 0.0 || dlam_denom == 0.0 {
        return None;
    }
    Some(Offsets {
        dlam,
        dphi: dphi / dphi_denom,
        dh,
    })
}

// The offsets of a tuple; none where a divisor is zero.
pub fn calc_molodensky_params(op: Moped, coord: Tuple) -> Option<Offsets>
    ensures { result ≡ offsets_of op coord }
{
    let q = Place::at(op, coord.x, coord.y);
    if op.abridged {
        let twice = trig::numbers(trig::sin_cos(2.0 * coord.y));
        return abridged_offsets(op, q, twice.s);
    }
    full_offsets(op, q, coord.z)
}

// ----- C O M M O N -------------------------------------------------------------------

pub fn common(op: Moped, inverse: bool, coord: Tuple) -> Tuple
    ensures { result ≡ common_of op inverse coord }
{
    let Some(Offsets { dlam, dphi, dh }) = calc_molodensky_params(op, coord) else {
        let none = 0.0 / 0.0;
        return Tuple {
            x: none,
            y: none,
            z: none,
            t: coord.t,
        };
    };
    if inverse {
        return Tuple {
            x: coord.x - dlam,
            y: coord.y - dphi,
            z: coord.z - dh,
            t: coord.t,
        };
    }
    Tuple {
        x: coord.x + dlam,
        y: coord.y + dphi,
        z: coord.z + dh,
        t: coord.t,
    }
}
