// Helmert over columns where one T, S and matrix serve the whole list: a static or fixed shift.
//
// One loop serves both directions and both conventions, with a pivot and without: what a row becomes
// is decided once a list. Proved equal, on the flat list that the columns stand for, to the step's
// own definition from tuple to tuple. Exact: no rounding but the step's own. Also here, because the
// loops of the other modes need them too: one row through T, S and a matrix, where a run of rows of
// one time ends, and the laws about a row and about the end of a loop. Used by
// `helmert_exact_columns`, `helmert_running_columns` and `helmert_columns`.
#![tactic(auto)]

ghost use Rattle.std.specs.Prelude.{ℕ, ◌≤◌, ◌<◌, ◌≡◌, false, length};
ghost use Rattle.std.specs.Float.Ieee.{ne};
ghost use Rattle.blocks.specs.Each.{at};
ghost use Rattle.tuple.specs.declared.Tuple.{Tuple};
ghost use Rattle.lists.specs.Flat.{four_of};
ghost use Rattle.lists.specs.Run.{ran_of};
ghost use Rattle.columns.specs.Columns.{Level, flat_of};
ghost use Rattle.helmert.specs.Apply.{apply_of};
ghost use Rattle.helmert.specs.Modes.{fixed_step_of};
ghost use Rattle.helmert.specs.Turns.{no_state, all_turns};

use helmert::Shift;
use rotation::Vec3;
use tuple::Tuple;

// Every row as `to` makes it of its tuple; the times stay.
fn rows<F: Fn(Tuple) -> Tuple>(x: &mut [f64], y: &mut [f64], z: &mut [f64], t: &[f64], to: F)
    requires level { Level x.old y.old z.old t.now }
    requires callable { F.IsAlwaysCallable to }
    ensures { (f : Tuple → Tuple) → ((v : Tuple) → (f v).t ≡ v.t) → ((v w : Tuple) → F.post to v w → w ≡ f v)
        → flat_of x.new y.new z.new t.now ≡ ran_of (all_turns f) 0 no_state (flat_of x.old y.old z.old t.now) }
{
    for i in 0..x.len() {
        let w = to(Tuple {
            x: x[i],
            y: y[i],
            z: z[i],
            t: t[i],
        });
        x[i] = w.x;
        y[i] = w.y;
        z[i] = w.z;
    }
}

// One T, S and matrix, in one direction: what a row goes through.
#[derive(Clone, Copy)]
pub struct Through {
    pub inverse: bool,
    pub t: Vec3,
    pub s: f64,
    pub rotated: bool,
    pub m: [[f64; 3]; 3],
}

impl Through {
    // The three numbers of a row, by its time, which stays. The loops of the other modes pass their
    // rows through this: it is lent the numbers and not the columns, so there is no row to test for.
    pub fn row(self, x: &mut f64, y: &mut f64, z: &mut f64, t: f64)
        ensures { four_of x.new y.new z.new t
            ≡ apply_of self.inverse self.t self.s self.rotated self.m (four_of x.old y.old z.old t) }
    {
        let v = Tuple {
            x: *x,
            y: *y,
            z: *z,
            t: t,
        };
        let w = helmert::apply(self.inverse, self.t, self.s, self.rotated, self.m, v);
        *x = w.x;
        *y = w.y;
        *z = w.z;
    }
}

// A static or fixed shift.
pub fn run_still(
    x: &mut [f64],
    y: &mut [f64],
    z: &mut [f64],
    t: &[f64],
    inverse: bool,
    shift: Shift,
)
    ensures { flat_of x.new y.new z.new t.now
        ≡ ran_of (all_turns (fixed_step_of shift inverse)) 0 no_state (flat_of x.old y.old z.old t.now) }
{
    if columns::level(x, y, z, t) {
        let p = shift.parameters;
        let m = rotation::rotation_matrix(p.r, shift.exact, shift.position_vector);
        if shift.pivoted {
            let pivot = shift.pivot;
            let about = |v| helmert::apply_about(inverse, pivot, p.t, p.s, shift.rotated, m, v);
            rows(x, y, z, t, about);
        } else {
            let plain = |v| helmert::apply(inverse, p.t, p.s, shift.rotated, m, v);
            rows(x, y, z, t, plain);
        }
    }
}

// From an index on, where the time stops being the last one.
pub fn run_end(t: &[f64], i: usize, last: f64) -> usize
    ensures { (i ≤ result) × (i ≤ length t.now → result ≤ length t.now)
        × ((k : ℕ) → i ≤ k → k < result → ne (at t.now k) last ≡ false) }
{
    for end in i..t.len() {
        if t[end] != last {
            return end;
        }
    }
    i.max(t.len())
}
