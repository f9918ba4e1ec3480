// Geographic to cartesian coordinates and back, on any ellipsoid: geocart.rs of the crate geodesy
// 0.15.0.
//
// The method is Bowring's (1976, 1985) with Fukushima's (1999) square root for a hypotenuse, in the
// Rust's own sequence of roundings and with its letters. One difference, listed: a point on the
// axis whose Z is NaN has a NaN latitude, where the Rust takes the pole that the NaN's sign bit
// happens to name. `cartesian` is cart's forward step; `place`, `geographic` without the height, is
// what deformation asks for a place by. cart's own inverse is another method, in the crate cart.
// `geocart_block` is the same for sixteen tuples at once.
#![tactic(auto)]

ghost use Rattle.std.specs.Prelude.{◌≡◌};
ghost use Rattle.geocart.specs.Geocart.{point_of, cartesian_of, pole_of, pole_height_of, tangent_of, legs_of, bowring_of, bowring_height_of, geographic_of, place_of};

use ellipsoid::Ellipsoid;
use tuple::Tuple;

const FRAC_PI_2: f64 = 1.5707963267948966;

// For p < 1 picometre, we simplify things to avoid numerical havoc.
pub const CUTOFF: f64 = 1.0e-12;

// A point in cartesian coordinates, without its time.
#[derive(Clone, Copy)]
pub struct Point {
    pub x: f64,
    pub y: f64,
    pub z: f64,
}

// The legs of the latitude's angle: phi_num and phi_denom of the Rust.
#[derive(Clone, Copy)]
pub struct Legs {
    pub num: f64,
    pub denom: f64,
}

// Longitude and latitude.
#[derive(Clone, Copy)]
pub struct Position {
    pub lam: f64,
    pub phi: f64,
}

// The point at a height h, from N and the sines and cosines of latitude and longitude.
pub fn point_at(
    ellps: Ellipsoid,
    n: f64,
    h: f64,
    sinphi: f64,
    cosphi: f64,
    sinlam: f64,
    coslam: f64,
) -> Point
    ensures { result ≡ point_of ellps n h sinphi cosphi sinlam coslam }
{
    Point {
        x: (n + h) * cosphi * coslam,
        y: (n + h) * cosphi * sinlam,
        z: (n * (1.0 - ellps.es) + h) * sinphi,
    }
}

pub fn cartesian(ellps: Ellipsoid, geographic: Tuple) -> Tuple
    ensures { result ≡ cartesian_of ellps geographic }
{
    let phi = trig::numbers(trig::sin_cos(geographic.y));
    let lam = trig::numbers(trig::sin_cos(geographic.x));
    let n = ellps.prime_vertical_radius_of_curvature(phi.s);
    let v = point_at(ellps, n, geographic.z, phi.s, phi.c, lam.s, lam.c);
    Tuple {
        x: v.x,
        y: v.y,
        z: v.z,
        t: geographic.t,
    }
}

// The latitude of a point on the axis. The sign of Z determines the hemisphere.
pub fn pole(z: f64) -> f64
    ensures { result ≡ pole_of z }
{
    if floats::is_nan(z) {
        0.0 / 0.0
    } else {
        floats::copysign(FRAC_PI_2, z)
    }
}

// The height of a point on the axis: at a pole it is |Z| - b.
pub fn pole_height(ellps: Ellipsoid, z: f64) -> f64
    ensures { result ≡ pole_height_of ellps z }
{
    floats::abs(z) - ellps.b
}

// T, which Bowring's method starts from.
pub fn tangent(ellps: Ellipsoid, p: f64, z: f64) -> f64
    ensures { result ≡ tangent_of ellps p z }
{
    z * ellps.a / (p * ellps.b)
}

// The legs, from T and the root of 1 + T².
pub fn legs_at(ellps: Ellipsoid, p: f64, z: f64, t: f64, root: f64) -> Legs
    ensures { result ≡ legs_of ellps p z t root }
{
    let c = 1.0 / root;
    let s = c * t;
    Legs {
        num: z + ellps.eps * ellps.b * floats::cube(s),
        denom: p - ellps.es * ellps.a * floats::cube(c),
    }
}

fn bowring(ellps: Ellipsoid, p: f64, z: f64) -> Legs
    ensures { result ≡ bowring_of ellps p z }
{
    let t = tangent(ellps, p, z);
    legs_at(ellps, p, z, t, root::sqrt(1.0 + t * t))
}

// Bowring (1985), as quoted by Burtch (2006): more accurate than h = p / cosphi - N.
fn bowring_height(ellps: Ellipsoid, p: f64, z: f64, m: Legs) -> f64
    ensures { result ≡ bowring_height_of ellps p z m }
{
    let lenphi = hypot::hypot(m.num, m.denom);
    let sinphi = m.num / lenphi;
    let cosphi = m.denom / lenphi;
    let n = ellps.prime_vertical_radius_of_curvature(sinphi);
    p * cosphi + z * sinphi - ellps.a * ellps.a / n
}

pub fn geographic(ellps: Ellipsoid, cartesian: Tuple) -> Tuple
    ensures { result ≡ geographic_of ellps cartesian }
{
    let z = cartesian.z;
    // The longitude is straightforward: plain geometry in the equatorial plane.
    let lam = arctan::atan2(cartesian.y, cartesian.x);
    // The perpendicular distance from the point to the Z axis.
    let p = hypot::hypot(cartesian.x, cartesian.y);
    if p < CUTOFF {
        return Tuple {
            x: lam,
            y: pole(z),
            z: pole_height(ellps, z),
            t: cartesian.t,
        };
    }
    let m = bowring(ellps, p, z);
    Tuple {
        x: lam,
        y: arctan::atan2(m.num, m.denom),
        z: bowring_height(ellps, p, z, m),
        t: cartesian.t,
    }
}

// Longitude and latitude as `geographic` gives them, for those who leave the height unread: it
// costs a third of the work.
pub fn place(ellps: Ellipsoid, cartesian: Tuple) -> Position
    ensures { result ≡ place_of ellps cartesian }
{
    let z = cartesian.z;
    let lam = arctan::atan2(cartesian.y, cartesian.x);
    let p = hypot::hypot(cartesian.x, cartesian.y);
    if p < CUTOFF {
        return Position { lam, phi: pole(z) };
    }
    let m = bowring(ellps, p, z);
    Position {
        lam,
        phi: arctan::atan2(m.num, m.denom),
    }
}
