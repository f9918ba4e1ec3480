// Molodensky over columns, written where the columns stand: a step of `point_columns`, which has
// the loop over them. It stands in place of the loop in molodensky.rs's `common` over a `dyn
// CoordinateSet`, and like that serves both directions.
//
// The times are lent to be read: the step leaves them. What depends on the record alone is worked
// out by the caller, once a list. Proved equal to the step's own definition from tuple to tuple,
// over the flat list that the columns stand for; every tuple counts. Exact: no rounding but the
// step's own. Used by whatever runs a step over columns.
#![tactic(auto)]

ghost use Rattle.std.specs.Prelude.{◌≡◌, true};
ghost use Rattle.molodensky.specs.Step.{common_of};
ghost use Rattle.lists.specs.Run.{ran_of};
ghost use Rattle.helmert.specs.Turns.{no_state, all_turns};
ghost use Rattle.turns.proofs.Columns.{common_time};
ghost use Rattle.columns.specs.Columns.{flat_of};

use blocks::WIDTH;
use molodensky::Moped;
use point_columns::PointStep;
use tuple::{Shifted, Tuple};

#[derive(Clone, Copy)]
struct Directed {
    op: Moped,
    inverse: bool,
}

impl PointStep for Directed {
    ghost shifted = { λ step v. record { tuple = common_of step.op step.inverse v; counted = true } };

    fn one(self, v: Tuple) -> Shifted {
        Shifted {
            tuple: molodensky::common(self.op, self.inverse, v),
            counted: true,
        }
    }

    fn sixteen(
        self,
        x: &[f64; WIDTH],
        y: &[f64; WIDTH],
        z: &[f64; WIDTH],
        t: &[f64; WIDTH],
        ox: &mut [f64; WIDTH],
        oy: &mut [f64; WIDTH],
        oz: &mut [f64; WIDTH],
    ) -> usize {
        molodensky_block::common_block(self.op, self.inverse, x, y, z, t, ox, oy, oz);
        WIDTH
    }

    ghost time_stays = { λ step v. common_time step.op step.inverse v };
}

// Every row. Columns of unequal length are left.
pub fn molodensky(x: &mut [f64], y: &mut [f64], z: &mut [f64], t: &[f64], op: Moped, inverse: bool)
    ensures { flat_of x.new y.new z.new t.now
        ≡ ran_of (all_turns (common_of op inverse)) 0 no_state (flat_of x.old y.old z.old t.now) }
{
    let step = Directed {
        op: op,
        inverse: inverse,
    };
    point_columns::run(step, x, y, z, t);
}
