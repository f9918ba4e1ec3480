// A step that sees a fix's index and writes the whole tuple, over columns, written where the columns
// stand: sixteen rows a turn by the step's block form, and a loop for the fewer than sixteen that
// are left. It stands in place of the Rust's loops over a `dyn CoordinateSet`; deformation, by lent
// velocities or by a velocity grid, is its step.
//
// The step is a type with a trait, `FixStep`: what it makes of one fix and of sixteen, and of how
// many it tells something beside the count. So the loop is written and proved once, and compiled
// once for each step. An index is counted from the columns' first row. The four columns stay four
// parameters, as in `point_columns`. Proved equal, list and both numbers, to the step's own
// definition from tuple to tuple, over the flat list that the columns stand for. Exact: no rounding
// but the step's own. Used by deformation over columns.
#![tactic(auto)]

ghost use Rattle.std.specs.Prelude.{◌≡◌, Bool, ℕ, ◌+◌, ◌≤◌, ◌<◌, length};
ghost use Rattle.blocks.specs.Each.{Each, count_to};
ghost use Rattle.tuple.specs.declared.Tuple.{Tuple};
ghost use Rattle.tuple.specs.declared.Shifted.{Shifted};
ghost use Rattle.tuple.specs.Columns.{row_of};
ghost use Rattle.lists.specs.Run.{ran_of, count_of};
ghost use Rattle.helmert.specs.Turns.{no_state};
ghost use Rattle.columns.specs.Columns.{Level, flat_of};
ghost use Rattle.columns.specs.Passed.{Passed};
ghost use Rattle.fix_columns.specs.Fixes.{fix_turns, fix_met_turns};

use blocks::{WIDTH, one_if};
use tuple::Tuple;

// What a step makes of a fix: its tuple, whether it counts, and whether it met what is told beside.
#[derive(Clone, Copy)]
pub struct Fix {
    pub tuple: Tuple,
    pub counted: bool,
    pub met: bool,
}

// How many fixes count, and how many met what is told beside.
#[derive(Clone, Copy)]
pub struct Counts {
    pub count: usize,
    pub met: usize,
}

// A step that sees a fix's index and its tuple.
pub trait FixStep: Copy {
    // The step's own definition.
    ghost shifted: { Self → ℕ → Tuple → Shifted };

    ghost met: { Self → ℕ → Tuple → Bool };

    fn one(self, i: usize, v: Tuple) -> Fix
        ensures { (result.tuple ≡ (shifted self i v).tuple)
            × (result.counted ≡ (shifted self i v).counted)
            × (result.met ≡ met self i v) };

    // The fixes of sixteen indices from one on, as columns.
    fn sixteen(
        self,
        i: usize,
        x: &[f64; WIDTH],
        y: &[f64; WIDTH],
        z: &[f64; WIDTH],
        t: &[f64; WIDTH],
        ox: &mut [f64; WIDTH],
        oy: &mut [f64; WIDTH],
        oz: &mut [f64; WIDTH],
        ot: &mut [f64; WIDTH],
    ) -> Counts
        ensures { Each ox.new (λ (j : ℕ). (shifted self (i + j) (row_of x.now y.now z.now t.now j)).tuple.x)
            × Each oy.new (λ (j : ℕ). (shifted self (i + j) (row_of x.now y.now z.now t.now j)).tuple.y)
            × Each oz.new (λ (j : ℕ). (shifted self (i + j) (row_of x.now y.now z.now t.now j)).tuple.z)
            × Each ot.new (λ (j : ℕ). (shifted self (i + j) (row_of x.now y.now z.now t.now j)).tuple.t)
            × (result.count ≡ count_to 16 (λ (j : ℕ). (shifted self (i + j) (row_of x.now y.now z.now t.now j)).counted))
            × (result.met ≡ count_to 16 (λ (j : ℕ). met self (i + j) (row_of x.now y.now z.now t.now j))) };
}

// Sixteen rows from an index on.
fn sixteen<S: FixStep>(
    step: S,
    x: &mut [f64],
    y: &mut [f64],
    z: &mut [f64],
    t: &mut [f64],
    i: usize,
) -> Counts
    requires { Level x.old y.old z.old t.old × (i + 16 ≤ length x.old) }
    ensures { Passed (fix_turns (S.shifted step)) i no_state (flat_of x.old y.old z.old t.old)
        (i + 16) no_state (flat_of x.new y.new z.new t.new) result.count
        × Passed (fix_met_turns (S.shifted step) (S.met step)) i no_state (flat_of x.old y.old z.old t.old)
        (i + 16) no_state (flat_of x.new y.new z.new t.new) result.met }
{
    let mut bx = [0.0; WIDTH];
    let mut by = [0.0; WIDTH];
    let mut bz = [0.0; WIDTH];
    let mut bt = [0.0; WIDTH];
    let mut ox = [0.0; WIDTH];
    let mut oy = [0.0; WIDTH];
    let mut oz = [0.0; WIDTH];
    let mut ot = [0.0; WIDTH];
    column_blocks::load_block(x, y, z, t, i, &mut bx, &mut by, &mut bz, &mut bt);
    let counts = step.sixteen(i, &bx, &by, &bz, &bt, &mut ox, &mut oy, &mut oz, &mut ot);
    column_blocks::store_block(x, y, z, t, i, &ox, &oy, &oz, &ot);
    counts
}

// The row at an index: 1 where it counts, 1 where it met what is told beside.
fn row<S: FixStep>(
    step: S,
    x: &mut [f64],
    y: &mut [f64],
    z: &mut [f64],
    t: &mut [f64],
    i: usize,
) -> Counts
    requires { Level x.old y.old z.old t.old × (i < length x.old) }
    ensures { Passed (fix_turns (S.shifted step)) i no_state (flat_of x.old y.old z.old t.old)
        (i + 1) no_state (flat_of x.new y.new z.new t.new) result.count
        × Passed (fix_met_turns (S.shifted step) (S.met step)) i no_state (flat_of x.old y.old z.old t.old)
        (i + 1) no_state (flat_of x.new y.new z.new t.new) result.met }
{
    let r = step.one(i, columns::read_row(x, y, z, t, i));
    columns::write_row(x, y, z, t, i, r.tuple);
    Counts {
        count: one_if(r.counted),
        met: one_if(r.met),
    }
}

// Every row of columns of one length.
fn run_level<S: FixStep>(
    step: S,
    x: &mut [f64],
    y: &mut [f64],
    z: &mut [f64],
    t: &mut [f64],
) -> Counts
    requires { Level x.old y.old z.old t.old }
    ensures { (flat_of x.new y.new z.new t.new
        ≡ ran_of (fix_turns (S.shifted step)) 0 no_state (flat_of x.old y.old z.old t.old))
        × (result.count ≡ count_of (fix_turns (S.shifted step)) 0 no_state (flat_of x.old y.old z.old t.old))
        × (result.met ≡ count_of (fix_met_turns (S.shifted step) (S.met step)) 0 no_state (flat_of x.old y.old z.old t.old)) }
{
    let mut n = 0;
    let mut met = 0;
    for block in 0..x.len() / WIDTH {
        let r = sixteen(step, x, y, z, t, WIDTH * block);
        n += r.count;
        met += r.met;
    }
    for i in x.len() / WIDTH * WIDTH..x.len() {
        let r = row(step, x, y, z, t, i);
        n += r.count;
        met += r.met;
    }
    Counts { count: n, met: met }
}

// Every row. Columns of unequal length are left, and none counts or meets anything.
pub fn run<S: FixStep>(
    step: S,
    x: &mut [f64],
    y: &mut [f64],
    z: &mut [f64],
    t: &mut [f64],
) -> Counts
    ensures { (flat_of x.new y.new z.new t.new
        ≡ ran_of (fix_turns (S.shifted step)) 0 no_state (flat_of x.old y.old z.old t.old))
        × (result.count ≡ count_of (fix_turns (S.shifted step)) 0 no_state (flat_of x.old y.old z.old t.old))
        × (result.met ≡ count_of (fix_met_turns (S.shifted step) (S.met step)) 0 no_state (flat_of x.old y.old z.old t.old)) }
{
    if columns::level(x, y, z, t) {
        return run_level(step, x, y, z, t);
    }
    Counts { count: 0, met: 0 }
}
