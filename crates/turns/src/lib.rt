// What each kind of step makes of one tuple of a list, and the velocity and mark that are lent for
// a fix.
//
// specs/Turns.antt says it once for cart, permtide, Molodensky and deformation, of the steps' own
// definitions; helmert/specs/Turns.antt does for Helmert. The loops over columns, the chain and the
// thin walk are all proved against these. Exact: nothing is computed here.
#![tactic(auto)]

ghost use Rattle.std.specs.Prelude.{◌≡◌};
ghost use Rattle.turns.specs.Turns.{velocity_at, mark_at};

use deformation::Velocity;

// The velocity of fix k; NaNs where none is lent.
pub fn velocity_at(velocities: &[f64], k: usize) -> Velocity
    ensures { result ≡ velocity_at velocities.now k }
{
    if k < velocities.len() / 3 {
        let at = 3 * k;
        return Velocity {
            east: velocities[at],
            north: velocities[at + 1],
            up: velocities[at + 2],
        };
    }
    let none = 0.0 / 0.0;
    Velocity {
        east: none,
        north: none,
        up: none,
    }
}

// The mark of fix k; absent where none is lent.
pub fn mark_at(marks: &[u8], k: usize) -> u8
    ensures { result ≡ mark_at marks.now k }
{
    marks.get(k).copied().unwrap_or(0)
}
