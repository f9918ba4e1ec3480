// Which tuples meet an angle out of reach of sine and cosine.
//
// Document 02, A5. An angle is out of reach exactly where it is not finite or beyond ±1024, and
// that is where the kernel answers so. specs/Met.antt says for each step by which angles a tuple
// meets it, and each tuple counts once; the number is `count_of` of the step's own turns with "met"
// in place of "counted". proofs/Laws.antt: the turns so told make the same list and the same
// states; proofs/Modes.antt: the angles named for Helmert are those whose matrix the step uses.
// Exact: it compares, and takes no sine. Used by the passes over columns, by deformation's loops,
// by the thin entry and by the kept run.
#![tactic(auto)]

ghost use Rattle.std.specs.Prelude.{◌≡◌};
ghost use Rattle.trig.specs.Trig.{out_of_reach};
ghost use Rattle.reach.specs.Met.{place_out, offsets_out, moved_met, rotation_out, own_out, matrix_out};
ghost use Rattle.helmert.specs.Modes.{rotation_at_of};
ghost use Rattle.deformation.specs.Step.{common_of};

use deformation::{Motion, Velocity};
use helmert::{Mode, Shift, State};
use rotation::Vec3;
use tuple::Tuple;

// Whether an angle is out of reach: not finite, or beyond ±1024.
pub fn out_of_reach(x: f64) -> bool
    ensures { result ≡ out_of_reach x }
{
    !(floats::abs(x) <= 1024.0)
}

// Whether longitude or latitude is.
pub fn place_out(lam: f64, phi: f64) -> bool
    ensures { result ≡ place_out lam phi }
{
    out_of_reach(lam) | out_of_reach(phi)
}

// Molodensky: longitude or latitude, and in the abridged form twice the latitude.
pub fn offsets_out(abridged: bool, lam: f64, phi: f64) -> bool
    ensures { result ≡ offsets_out abridged lam phi }
{
    place_out(lam, phi) | (abridged & out_of_reach(2.0 * phi))
}

// Deformation: a fix that is present, by the longitude and latitude of its place.
pub fn moved_met(op: Motion, mark: u8, v: Tuple) -> bool
    ensures { result ≡ moved_met op mark v }
{
    if mark == 1 {
        let place = geocart::place(op.ellps, v);
        return place_out(place.lam, place.phi);
    }
    false
}

// What deformation makes of a fix, as its own `common`, and whether the fix met it.
#[derive(Clone, Copy)]
pub struct Moving {
    pub tuple: Tuple,
    pub counted: bool,
    pub met: bool,
}

// The same with the step: the place is worked out once for both.
pub fn moved(op: Motion, inverse: bool, v: Velocity, mark: u8, cart: Tuple) -> Moving
    ensures { (result.tuple ≡ (common_of op inverse v mark cart).tuple) × (result.counted ≡ (common_of op inverse v mark cart).counted) × (result.met ≡ moved_met op mark cart) }
{
    if mark == 1 {
        let place = geocart::place(op.ellps, cart);
        // the height is not read
        let geo = Tuple {
            x: place.lam,
            y: place.phi,
            z: 0.0,
            t: cart.t,
        };
        return Moving {
            tuple: deformation::deformed(op, inverse, v, geo, cart),
            counted: true,
            met: place_out(place.lam, place.phi),
        };
    }
    Moving {
        tuple: Tuple::nan(),
        counted: false,
        met: false,
    }
}

// Whether one of three angles is.
pub fn rotation_out(r: Vec3) -> bool
    ensures { result ≡ rotation_out r }
{
    out_of_reach(r.x) | out_of_reach(r.y) | out_of_reach(r.z)
}

// The angles at a time that lies dt after the epoch.
pub fn rotation_at_out(shift: Shift, dt: f64) -> bool
    ensures { result ≡ rotation_out (rotation_at_of shift.parameters dt) }
{
    rotation_out(helmert::rotation_at(shift.parameters, dt))
}

// Own-epoch mode, exact and rotated: a fix without a time uses no matrix.
pub fn own_out(shift: Shift, time: f64) -> bool
    ensures { result ≡ own_out shift time }
{
    if floats::is_nan(time) {
        return false;
    }
    rotation_at_out(shift, time - shift.epoch)
}

// Helmert: an exact matrix that the fix uses, by the angles at the last time in running mode and at
// the fix's own in own-epoch mode, else by the sheet's. The state is the one before the fix.
pub fn helmert_met(shift: Shift, state: State, v: Tuple) -> bool
    ensures { result ≡ matrix_out shift state v }
{
    if shift.exact & shift.rotated {
        match shift.mode() {
            Mode::Still => rotation_out(shift.parameters.r),
            Mode::Running => {
                let now = helmert::next(shift, state, v.t);
                rotation_at_out(shift, now.last - shift.epoch)
            }
            Mode::OwnEpoch => own_out(shift, v.t),
        }
    } else {
        false
    }
}
