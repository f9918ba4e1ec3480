// The ten-parameter shift about a pivot point: Molodensky-Badekas of IOGP 373-7-2, a sheet's kind 6.
//
// Request A4. The step is static. Forward it is ((S·(M·(v - P))) + P) + T and inverse
// Mᵀ·(((v - T) - P)/S) + P, each sign one rounding, M left out where the shift is not rotated. The
// step itself is Helmert's, whose prepared shift may have a pivot; here stand the record that a
// sheet carries, its units and rules, and `prepare`. Units, angles and scale are those of the
// Helmert record with the same numbers and no rates; the pivot is always in metres.
//
// Proved: the step is the sequence above for every number and never depends on a time or a state;
// and with a pivot of three +0 it is the static Helmert step of the same numbers, under the
// request's premise and under the weakest one (proofs/Asked.antt, proofs/Records.antt). The bodies
// and the plans of a sheet use this crate.
#![tactic(auto)]

ghost use Rattle.std.specs.Prelude.{◌≡◌};
ghost use Rattle.badekas.specs.Record.{blank_badekas, helmert_of};
ghost use Rattle.badekas.specs.Rules.{fields_in_rule_of, lacks_convention_of};
ghost use Rattle.badekas.specs.Step.{about_of, shift_of};

use helmert::{Helmert, Shift};
use rotation::Vec3;

// The record as the sheet carries it.
// flags: 1 exact, 2 uas, 4 mm. convention: 0 none, 1 position vector, 2 coordinate frame. The pivot
// is in metres, with flag 4 too.
#[derive(Clone, Copy)]
pub struct Badekas {
    pub flags: u32,
    pub convention: u32,
    pub translation: Vec3,
    pub rotation: Vec3,
    pub scale: f64,
    pub pivot: Vec3,
}

impl Badekas {
    // The record that a fitter begins with: zeros, no flag, no convention.
    pub fn blank() -> Self
        ensures { result ≡ blank_badekas }
    {
        let zero = Vec3 {
            x: 0.0,
            y: 0.0,
            z: 0.0,
        };
        Badekas {
            flags: 0,
            convention: 0,
            translation: zero,
            rotation: zero,
            scale: 0.0,
            pivot: zero,
        }
    }

    // The Helmert record with the same numbers: no pivot, no rates, no times.
    pub fn helmert(self) -> Helmert
        ensures { result ≡ helmert_of self }
    {
        Helmert {
            flags: self.flags,
            convention: self.convention,
            translation: self.translation,
            rotation: self.rotation,
            scale: self.scale,
            ..Helmert::zeros()
        }
    }

    // Whether every field is within its rule: else refusal 5.
    pub fn fields_in_rule(self) -> bool
        ensures { result ≡ fields_in_rule_of self }
    {
        (self.flags < 8)
            & (self.convention < 3)
            & helmert::finite3(self.translation)
            & helmert::finite3(self.rotation)
            & floats::is_finite(self.scale)
            & helmert::finite3(self.pivot)
    }

    // Rotated with no convention: refusal 6.
    pub fn lacks_convention(self) -> bool
        ensures { result ≡ lacks_convention_of self }
    {
        self.helmert().lacks_convention()
    }
}

// A shift with a pivot.
fn about(shift: Shift, pivot: Vec3) -> Shift
    ensures { result ≡ about_of shift pivot }
{
    Shift {
        pivoted: true,
        pivot: pivot,
        ..shift
    }
}

// The record made ready to be applied to any number of tuples.
pub fn prepare(r: Badekas) -> Shift
    ensures { result ≡ shift_of r }
{
    about(helmert::prepare(r.helmert()), r.pivot)
}
