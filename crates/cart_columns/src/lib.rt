// cart over columns, written where the columns stand: the two directions as steps of
// `point_columns`, which has the one loop over them. They stand in place of the loops of cart.rs
// over a `dyn CoordinateSet`, one a direction.
//
// The times are lent to be read: cart leaves them. What depends on the ellipsoid alone is worked
// out by the caller, once a list. Each direction is proved equal, list and count, to the step's own
// definition from tuple to tuple, over the flat list that the columns stand for. Exact: no rounding
// but the step's own. Used by whatever runs a step over columns.
#![tactic(auto)]

ghost use Rattle.std.specs.Prelude.{◌≡◌};
ghost use Rattle.cart.specs.Step.{cart_fwd_of, cart_inv_of};
ghost use Rattle.lists.specs.Run.{ran_of, count_of};
ghost use Rattle.helmert.specs.Turns.{no_state};
ghost use Rattle.turns.specs.Turns.{plain_turns};
ghost use Rattle.turns.proofs.Columns.{forward_time, inverse_time};
ghost use Rattle.columns.specs.Columns.{flat_of};

use blocks::WIDTH;
use cart::Inverse;
use ellipsoid::Ellipsoid;
use point_columns::PointStep;
use tuple::{Shifted, Tuple};

// ----- F O R W A R D --------------------------------------------------------------------------

#[derive(Clone, Copy)]
struct Forward {
    ellps: Ellipsoid,
}

impl PointStep for Forward {
    ghost shifted = { λ step. cart_fwd_of step.ellps };

    fn one(self, v: Tuple) -> Shifted {
        cart::cart_fwd(self.ellps, v)
    }

    fn sixteen(
        self,
        x: &[f64; WIDTH],
        y: &[f64; WIDTH],
        z: &[f64; WIDTH],
        t: &[f64; WIDTH],
        ox: &mut [f64; WIDTH],
        oy: &mut [f64; WIDTH],
        oz: &mut [f64; WIDTH],
    ) -> usize {
        cart_block::cart_fwd_block(self.ellps, x, y, z, t, ox, oy, oz)
    }

    ghost time_stays = { λ step v. forward_time step.ellps v };
}

// Every row; how many of them count. Columns of unequal length are left, and none counts.
pub fn cart_forward(
    x: &mut [f64],
    y: &mut [f64],
    z: &mut [f64],
    t: &[f64],
    ellps: Ellipsoid,
) -> usize
    ensures { (flat_of x.new y.new z.new t.now
        ≡ ran_of (plain_turns (cart_fwd_of ellps)) 0 no_state (flat_of x.old y.old z.old t.now))
        × (result ≡ count_of (plain_turns (cart_fwd_of ellps)) 0 no_state (flat_of x.old y.old z.old t.now)) }
{
    point_columns::run(Forward { ellps: ellps }, x, y, z, t)
}

// ----- I N V E R S E --------------------------------------------------------------------------

#[derive(Clone, Copy)]
struct Backward {
    k: Inverse,
}

impl PointStep for Backward {
    ghost shifted = { λ step. cart_inv_of step.k };

    // A point on the axis does not count.
    fn one(self, v: Tuple) -> Shifted {
        cart::cart_inv(self.k, v)
    }

    fn sixteen(
        self,
        x: &[f64; WIDTH],
        y: &[f64; WIDTH],
        z: &[f64; WIDTH],
        t: &[f64; WIDTH],
        ox: &mut [f64; WIDTH],
        oy: &mut [f64; WIDTH],
        oz: &mut [f64; WIDTH],
    ) -> usize {
        cart_block::cart_inv_block(self.k, x, y, z, t, ox, oy, oz)
    }

    ghost time_stays = { λ step v. inverse_time step.k v };
}

// Every row; how many of them count. Columns of unequal length are left, and none counts.
pub fn cart_inverse(x: &mut [f64], y: &mut [f64], z: &mut [f64], t: &[f64], k: Inverse) -> usize
    ensures { (flat_of x.new y.new z.new t.now
        ≡ ran_of (plain_turns (cart_inv_of k)) 0 no_state (flat_of x.old y.old z.old t.now))
        × (result ≡ count_of (plain_turns (cart_inv_of k)) 0 no_state (flat_of x.old y.old z.old t.now)) }
{
    point_columns::run(Backward { k: k }, x, y, z, t)
}
