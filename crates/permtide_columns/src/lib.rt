// permtide over columns: heights alone are written, where they stand, sixteen rows a turn by the
// step's block form, and a loop for the fewer than sixteen that are left. It stands in place of the
// loops of permtide.rs over a `dyn CoordinateSet`, and one loop serves both directions.
//
// A turn of sixteen loads latitudes and heights, and stores heights; first coordinates and times
// are lent for the contract and are not read there. So the loop is its own, and not the one of
// `point_columns`, which takes three columns to write. The coefficient is worked out by the caller,
// once a list. Proved equal to the step's own definition from tuple to tuple, over the flat list
// that the columns stand for. Exact: no rounding but the step's own. Used by whatever runs a step
// over columns.
#![tactic(auto)]

ghost use Rattle.std.specs.Prelude.{◌≡◌, cond, ℕ, ◌+◌, ◌≤◌, ◌<◌, length};
ghost use Rattle.blocks.specs.Each.{at, Each};
ghost use Rattle.permtide.specs.Step.{fwd_of, inv_of};
ghost use Rattle.lists.specs.Run.{ran_of};
ghost use Rattle.helmert.specs.Turns.{no_state, all_turns};
ghost use Rattle.columns.specs.Columns.{Level, flat_of};
ghost use Rattle.columns.specs.Passed.{Passed};
ghost use Rattle.permtide_columns.specs.Heights.{height_of, shifted_of, part_put};

use blocks::WIDTH;
use permtide::Tide;
use tuple::Tuple;

// ----- one direction or the other -----------------------------------------------------------

fn shifted(op: Tide, inverse: bool, v: Tuple) -> Tuple
    ensures { result ≡ shifted_of op inverse v }
{
    if inverse {
        permtide::inv(op, v)
    } else {
        permtide::fwd(op, v)
    }
}

fn heights(op: Tide, inverse: bool, y: &[f64; WIDTH], z: &[f64; WIDTH], oz: &mut [f64; WIDTH])
    ensures { Each oz.new (λ (j : ℕ). height_of op inverse (at y.now j) (at z.now j)) }
{
    if inverse {
        permtide::inv_block(op, y, z, oz);
    } else {
        permtide::fwd_block(op, y, z, oz);
    }
}

// ----- sixteen numbers of one column --------------------------------------------------------

fn load_part(column: &[f64], i: usize, b: &mut [f64; WIDTH])
    requires { i + 16 ≤ length column.now }
    ensures { Each b.new (λ (j : ℕ). at column.now (i + j)) }
{
    *b = [0.0; WIDTH];
    for j in 0..WIDTH {
        b[j] = column[i + j];
    }
}

fn store_part(column: &mut [f64], i: usize, b: &[f64; WIDTH])
    requires { i + 16 ≤ length column.old }
    ensures { column.new ≡ part_put column.old i b.now 16 }
{
    for j in 0..WIDTH {
        column[i + j] = b[j];
    }
}

// ----- the columns --------------------------------------------------------------------------

// Sixteen rows from an index on.
fn permtide_sixteen(
    x: &[f64],
    y: &[f64],
    z: &mut [f64],
    t: &[f64],
    i: usize,
    op: Tide,
    inverse: bool,
)
    requires { Level x.now y.now z.old t.now × (i + 16 ≤ length x.now) }
    ensures { Passed (all_turns (shifted_of op inverse)) i no_state (flat_of x.now y.now z.old t.now)
        (i + 16) no_state (flat_of x.now y.now z.new t.now) 16 }
{
    let mut by = [0.0; WIDTH];
    let mut bz = [0.0; WIDTH];
    let mut oz = [0.0; WIDTH];
    load_part(y, i, &mut by);
    load_part(z, i, &mut bz);
    heights(op, inverse, &by, &bz, &mut oz);
    store_part(z, i, &oz);
}

// The row at an index.
fn permtide_row(x: &[f64], y: &[f64], z: &mut [f64], t: &[f64], i: usize, op: Tide, inverse: bool)
    requires { Level x.now y.now z.old t.now × (i < length x.now) }
    ensures { Passed (all_turns (shifted_of op inverse)) i no_state (flat_of x.now y.now z.old t.now)
        (i + 1) no_state (flat_of x.now y.now z.new t.now) 1 }
{
    let v = shifted(op, inverse, columns::read_row(x, y, z, t, i));
    z[i] = v.z;
}

// Every row. Columns of unequal length are left.
pub fn permtide(x: &[f64], y: &[f64], z: &mut [f64], t: &[f64], op: Tide, inverse: bool)
    ensures { flat_of x.now y.now z.new t.now
        ≡ ran_of (cond inverse (all_turns (inv_of op)) (all_turns (fwd_of op))) 0 no_state (flat_of x.now y.now z.old t.now) }
{
    if columns::level(x, y, z, t) {
        permtide_level(x, y, z, t, op, inverse);
    }
}

// Every row of columns of one length.
fn permtide_level(x: &[f64], y: &[f64], z: &mut [f64], t: &[f64], op: Tide, inverse: bool)
    requires { Level x.now y.now z.old t.now }
    ensures { flat_of x.now y.now z.new t.now
        ≡ ran_of (cond inverse (all_turns (inv_of op)) (all_turns (fwd_of op))) 0 no_state (flat_of x.now y.now z.old t.now) }
{
    for block in 0..x.len() / WIDTH {
        permtide_sixteen(x, y, z, t, WIDTH * block, op, inverse);
    }
    for i in x.len() / WIDTH * WIDTH..x.len() {
        permtide_row(x, y, z, t, i, op, inverse);
    }
}
