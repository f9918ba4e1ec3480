// Deformation by a velocity grid on board (document 02, A1): one tuple moved by the velocity that a
// grid's bytes give at its place, in either direction, raw or not.
//
// The place is `geographic`'s longitude and latitude of the tuple as it reaches the step, on the
// step's ellipsoid, and is worked out once for the lookup and the step. Proved equal to the
// deformation step's own definition fed by what the lookup finds (specs/Gridded.antt); a run with a
// grid is a run with lent velocities and marks that are what the lookup finds
// (`grid-run-is-lent-run`). Exact: no rounding but the lookup's and the step's own. The loops over
// columns take their last rows through `common`, and a thin list takes all of them.
#![tactic(auto)]

ghost use Rattle.std.specs.Prelude.{◌≡◌};
ghost use Rattle.deformation_grid.specs.Gridded.{gridded_in};

use deformation::{Motion, Velocity};
use grid::Axis;
use tuple::{Shifted, Tuple};

// A tuple through the step, by a grid's bytes whose axes are read already.
pub fn common(
    op: Motion,
    inverse: bool,
    g: &[u8],
    rows: Axis,
    columns: Axis,
    cart: Tuple,
) -> Shifted
    ensures { result ≡ gridded_in op inverse g.now rows columns cart }
{
    let place = geocart::place(op.ellps, cart);
    let found = grid::found_in(g, rows, columns, place.lam, place.phi);
    if found.mark == 1 {
        let v = Velocity {
            east: found.east,
            north: found.north,
            up: found.up,
        };
        // the height is not read
        let geo = Tuple {
            x: place.lam,
            y: place.phi,
            z: 0.0,
            t: cart.t,
        };
        return Shifted {
            tuple: deformation::deformed(op, inverse, v, geo, cart),
            counted: true,
        };
    }
    Shifted {
        tuple: Tuple::nan(),
        counted: false,
    }
}
