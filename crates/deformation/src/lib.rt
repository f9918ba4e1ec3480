// Kinematic datum shift by velocities of the ground: deformation.rs of the crate geodesy 0.15.0,
// after Häkli et al. (2023).
//
// The Rust looks a velocity up in grid files; here the caller lends it, east, north and up in mm a
// year, with a mark that says whether there is one. Letters and sequence of roundings are the
// Rust's, over our kernels. Forward adds (t - t_epoch) times the velocity, while comment (3) of the
// Rust's file subtracts it: the code decides, and the difference is listed. With flag 2 the comment
// decides. The sum works on all four coordinates, the fourth addend 0.0, so a time of -0 becomes
// +0. Sixteen tuples at a time: `deformation_block`.
#![tactic(auto)]

ghost use Rattle.std.specs.Prelude.{◌≡◌};
ghost use Rattle.deformation.specs.Record.{blank_of, raw_of, by_comment_of, directed_of, finite_or_not, in_rule_of, neither_of};
ghost use Rattle.deformation.specs.Step.{motion_of, lasting_of, duration_of, scale_of, metre_of, metres_of, east_north_up_of, integrated_of, with_length_of, deformed_of, common_of};

use ellipsoid::Ellipsoid;
use std::ops::Mul;
use trig::SinCos;
use tuple::{Shifted, Tuple};

// The record that a sheet carries. Flags: 1 raw, 2 the comment's sign. dt and epoch are NaN where not
// given.
#[derive(Clone, Copy)]
pub struct Deformation {
    pub flags: u32,
    pub ellipsoid: u32,
    pub dt: f64,
    pub epoch: f64,
}

// What a list needs of a record, worked out once.
#[derive(Clone, Copy)]
pub struct Motion {
    pub ellps: Ellipsoid,
    pub dt: f64,
    pub epoch: f64,
    pub raw: bool,
}

#[derive(Clone, Copy)]
pub struct Velocity {
    pub east: f64,
    pub north: f64,
    pub up: f64,
}

fn finite_or_not(x: f64) -> bool
    ensures { result ≡ finite_or_not x }
{
    floats::is_finite(x) || floats::is_nan(x)
}

impl Deformation {
    // The crate's defaults.
    pub fn blank() -> Self
        ensures { result ≡ blank_of }
    {
        Deformation {
            flags: 0,
            ellipsoid: 1,
            dt: 0.0 / 0.0,
            epoch: 0.0 / 0.0,
        }
    }

    pub fn raw(self) -> bool
        ensures { result ≡ raw_of self }
    {
        self.flags % 2 == 1
    }

    // Whether the step has the sign of comment (3) in the Rust's file: forward removes the motion.
    pub fn by_comment(self) -> bool
        ensures { result ≡ by_comment_of self }
    {
        self.flags / 2 % 2 == 1
    }

    // Whether a run in a direction uses the inverse sign of the Rust's code. This is the one place
    // where flag 2 is asked for: the loops and the step take the direction that they are told.
    pub fn directed(self, inverse: bool) -> bool
        ensures { result ≡ directed_of self inverse }
    {
        if self.by_comment() { !inverse } else { inverse }
    }

    // Rule 5.
    pub fn in_rule(self) -> bool
        ensures { result ≡ in_rule_of self }
    {
        self.flags < 4
            && Ellipsoid::exists(self.ellipsoid)
            && finite_or_not(self.dt)
            && finite_or_not(self.epoch)
    }

    // Rule 8: neither dt nor t_epoch.
    pub fn lacks_duration(self) -> bool
        ensures { result ≡ neither_of self }
    {
        floats::is_nan(self.dt) && floats::is_nan(self.epoch)
    }
}

// How long: a fixed duration, or the difference between the frame epoch and the observation epoch.
pub fn lasting(op: Motion, given: bool, t: f64) -> f64
    ensures { result ≡ lasting_of op given t }
{
    if given { -op.dt } else { op.epoch - t }
}

// Grid values are in mm a year. We need metres a year.
pub fn metre(inverse: bool) -> f64
    ensures { result ≡ metre_of inverse }
{
    if inverse { 0.001 } else { -0.001 }
}

impl Motion {
    pub fn new(step: Deformation) -> Self
        ensures { result ≡ motion_of step }
    {
        Motion {
            ellps: Ellipsoid::named(step.ellipsoid),
            dt: step.dt,
            epoch: step.epoch,
            raw: step.raw(),
        }
    }

    fn duration(self, t: f64) -> f64
        ensures { result ≡ duration_of self t }
    {
        lasting(self, floats::is_finite(self.dt), t)
    }
}

impl Mul<f64> for Velocity {
    type Output = Velocity;

    ghost mul_gives = { λ v k product. product ≡ scale_of v k };

    fn mul(self, k: f64) -> Velocity {
        Velocity {
            east: self.east * k,
            north: self.north * k,
            up: self.up * k,
        }
    }
}

impl Velocity {
    fn metres(self, inverse: bool) -> Self
        ensures { result ≡ metres_of inverse self }
    {
        self * metre(inverse)
    }
}

// ----- A N C I L L A R Y   F U N C T I O N S -----------------------------------------

// The deformation velocity, rotated from the ENU system to the geocentric cartesian system, times
// the duration.
pub fn rotate_and_integrate_velocity(
    v: Velocity,
    longitude: f64,
    latitude: f64,
    duration: f64,
) -> Tuple
    ensures { result ≡ integrated_of v longitude latitude duration }
{
    turned(
        v,
        trig::numbers(trig::sin_cos(longitude)),
        trig::numbers(trig::sin_cos(latitude)),
        duration,
    )
}

// The same with the sines and cosines of longitude and latitude at hand.
pub fn turned(v: Velocity, lon: SinCos, lat: SinCos, duration: f64) -> Tuple
    ensures { result ≡ east_north_up_of v lon lat duration }
{
    Tuple {
        x: duration * (-lat.s * lon.c * v.north - lon.s * v.east + lat.c * lon.c * v.up),
        y: duration * (-lat.s * lon.s * v.north + lon.c * v.east + lat.c * lon.s * v.up),
        z: duration * (lat.c * v.north + lat.s * v.up),
        t: 0.0,
    }
}

fn with_length(deformation: Tuple) -> Tuple
    ensures { result ≡ with_length_of deformation }
{
    Tuple {
        t: root::sqrt(deformation.dot(deformation)),
        ..deformation
    }
}

// ----- C O M M O N -------------------------------------------------------------------

// A tuple whose place is geo, moved by a velocity, or the raw correction.
pub fn deformed(op: Motion, inverse: bool, v: Velocity, geo: Tuple, cart: Tuple) -> Tuple
    ensures { result ≡ deformed_of op inverse v geo cart }
{
    let d = op.duration(geo.t);
    let deformation = rotate_and_integrate_velocity(v.metres(inverse), geo.x, geo.y, d);
    if op.raw {
        return with_length(deformation);
    }
    cart + deformation
}

// The step on one tuple. No `Option` of a velocity: velocities and marks are lent in two arrays, in C
// too, and the definitions and their theorems take a mark of any value beside a velocity.
pub fn common(op: Motion, inverse: bool, v: Velocity, mark: u8, cart: Tuple) -> Shifted
    ensures { result ≡ common_of op inverse v mark cart }
{
    if mark == 1 {
        let place = geocart::place(op.ellps, cart);
        // the height is not read
        let geo = Tuple {
            x: place.lam,
            y: place.phi,
            z: 0.0,
            t: cart.t,
        };
        return Shifted {
            tuple: deformed(op, inverse, v, geo, cart),
            counted: true,
        };
    }
    // No velocity, so we stomp on the coordinate
    Shifted {
        tuple: Tuple::nan(),
        counted: false,
    }
}
