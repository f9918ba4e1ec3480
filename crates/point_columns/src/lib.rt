// A step that leaves the times, over columns, written where the columns stand: sixteen rows a turn
// by the step's block form, and a loop for the fewer than sixteen that are left. It stands in place
// of the Rust's loops over a `dyn CoordinateSet`; cart, either way, and Molodensky are its steps.
//
// The step is a type with a trait, `PointStep`: what it makes of one tuple and of sixteen, and the
// law that it leaves the time. So the loop is written and proved once, and compiled once for each
// step. The times are lent to be read. The four columns stay four parameters: a struct of lent
// columns needs a clause a column that it is the same one, and is no plainer. Proved equal, list
// and count, to the step's own definition from tuple to tuple, over the flat list that the columns
// stand for. Exact: no rounding but the step's own. Used by cart and Molodensky over columns.
#![tactic(auto)]

ghost use Rattle.std.specs.Prelude.{◌≡◌, ℕ, ◌+◌, ◌≤◌, ◌<◌, length};
ghost use Rattle.blocks.specs.Each.{Each, count_to};
ghost use Rattle.tuple.specs.declared.Tuple.{Tuple};
ghost use Rattle.tuple.specs.declared.Shifted.{Shifted};
ghost use Rattle.tuple.specs.Columns.{row_of};
ghost use Rattle.lists.specs.Run.{ran_of, count_of};
ghost use Rattle.helmert.specs.Turns.{no_state};
ghost use Rattle.turns.specs.Turns.{plain_turns};
ghost use Rattle.columns.specs.Columns.{Level, flat_of};
ghost use Rattle.columns.specs.Passed.{Passed};

use blocks::{WIDTH, one_if};
use tuple::{Shifted, Tuple};

// A step that sees the tuple alone, and leaves its time.
pub trait PointStep: Copy {
    // The step's own definition.
    ghost shifted: { Self → Tuple → Shifted };

    fn one(self, v: Tuple) -> Shifted
        ensures { result ≡ shifted self v };

    // Sixteen tuples as columns; how many of them count.
    fn sixteen(
        self,
        x: &[f64; WIDTH],
        y: &[f64; WIDTH],
        z: &[f64; WIDTH],
        t: &[f64; WIDTH],
        ox: &mut [f64; WIDTH],
        oy: &mut [f64; WIDTH],
        oz: &mut [f64; WIDTH],
    ) -> usize
        ensures { Each ox.new (λ (j : ℕ). (shifted self (row_of x.now y.now z.now t.now j)).tuple.x)
            × Each oy.new (λ (j : ℕ). (shifted self (row_of x.now y.now z.now t.now j)).tuple.y)
            × Each oz.new (λ (j : ℕ). (shifted self (row_of x.now y.now z.now t.now j)).tuple.z)
            × (result ≡ count_to 16 (λ (j : ℕ). (shifted self (row_of x.now y.now z.now t.now j)).counted)) };

    ghost time_stays: { (step : Self) (v : Tuple) → (shifted step v).tuple.t ≡ v.t };
}

// Sixteen rows from an index on; how many of them count.
fn sixteen<S: PointStep>(
    step: S,
    x: &mut [f64],
    y: &mut [f64],
    z: &mut [f64],
    t: &[f64],
    i: usize,
) -> usize
    requires { Level x.old y.old z.old t.now × (i + 16 ≤ length x.old) }
    ensures { Passed (plain_turns (S.shifted step)) i no_state (flat_of x.old y.old z.old t.now)
        (i + 16) no_state (flat_of x.new y.new z.new t.now) result }
{
    let mut bx = [0.0; WIDTH];
    let mut by = [0.0; WIDTH];
    let mut bz = [0.0; WIDTH];
    let mut bt = [0.0; WIDTH];
    let mut ox = [0.0; WIDTH];
    let mut oy = [0.0; WIDTH];
    let mut oz = [0.0; WIDTH];
    column_blocks::load_block(x, y, z, t, i, &mut bx, &mut by, &mut bz, &mut bt);
    let n = step.sixteen(&bx, &by, &bz, &bt, &mut ox, &mut oy, &mut oz);
    column_blocks::store_points(x, y, z, t, i, &ox, &oy, &oz, &bt);
    n
}

// The row at an index; 1 where it counts.
fn row<S: PointStep>(
    step: S,
    x: &mut [f64],
    y: &mut [f64],
    z: &mut [f64],
    t: &[f64],
    i: usize,
) -> usize
    requires { Level x.old y.old z.old t.now × (i < length x.old) }
    ensures { Passed (plain_turns (S.shifted step)) i no_state (flat_of x.old y.old z.old t.now)
        (i + 1) no_state (flat_of x.new y.new z.new t.now) result }
{
    let r = step.one(columns::read_row(x, y, z, t, i));
    columns::write_point(x, y, z, t, i, r.tuple);
    one_if(r.counted)
}

// Every row of columns of one length; how many of them count.
fn run_level<S: PointStep>(step: S, x: &mut [f64], y: &mut [f64], z: &mut [f64], t: &[f64]) -> usize
    requires { Level x.old y.old z.old t.now }
    ensures { (flat_of x.new y.new z.new t.now
        ≡ ran_of (plain_turns (S.shifted step)) 0 no_state (flat_of x.old y.old z.old t.now))
        × (result ≡ count_of (plain_turns (S.shifted step)) 0 no_state (flat_of x.old y.old z.old t.now)) }
{
    let mut n = 0;
    for block in 0..x.len() / WIDTH {
        n += sixteen(step, x, y, z, t, WIDTH * block);
    }
    for i in x.len() / WIDTH * WIDTH..x.len() {
        n += row(step, x, y, z, t, i);
    }
    n
}

// Every row; how many of them count. Columns of unequal length are left, and none counts.
pub fn run<S: PointStep>(step: S, x: &mut [f64], y: &mut [f64], z: &mut [f64], t: &[f64]) -> usize
    ensures { (flat_of x.new y.new z.new t.now
        ≡ ran_of (plain_turns (S.shifted step)) 0 no_state (flat_of x.old y.old z.old t.now))
        × (result ≡ count_of (plain_turns (S.shifted step)) 0 no_state (flat_of x.old y.old z.old t.now)) }
{
    if columns::level(x, y, z, t) {
        return run_level(step, x, y, z, t);
    }
    0
}
