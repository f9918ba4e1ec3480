// Flat lists of binary64 numbers, four a tuple, read and written a tuple at a time or sixteen at
// once, and what it is to run a step over one.
//
// The lent list of document 01, in place of the Rust's `dyn CoordinateSet`. specs/Run.antt says
// once, for any step, what a list and a count are after it; proofs/Laws.antt has the law that every
// loop over a list is proved by: it turns what one turn reads, makes and writes into the next
// turn's invariant; proofs/Sixteen.antt has the same for turns of sixteen tuples. Exact: numbers
// are moved, never rounded. Used by every loop over a list.
#![tactic(auto)]

ghost use Rattle.std.specs.Prelude.{◌≡◌, ℕ};
ghost use Rattle.blocks.specs.Each.{Each};
ghost use Rattle.lists.specs.Flat.{tuple_at, put_at};
ghost use Rattle.lists.specs.Sixteen.{row_at, put_block};

use blocks::WIDTH;
use tuple::Tuple;

// The tuple at a place; four NaNs where no whole tuple stands there.
pub fn read4(list: &[f64], at: usize) -> Tuple
    ensures { result ≡ tuple_at list.now at }
{
    if list.len().saturating_sub(at) < 4 {
        return Tuple::nan();
    }
    Tuple {
        x: list[at],
        y: list[at + 1],
        z: list[at + 2],
        t: list[at + 3],
    }
}

// A tuple put at a place; nothing is written where no whole tuple stands there.
pub fn write4(list: &mut [f64], at: usize, v: Tuple)
    ensures { list.new ≡ put_at list.old at v }
{
    if list.len().saturating_sub(at) < 4 {
        return;
    }
    list[at] = v.x;
    list[at + 1] = v.y;
    list[at + 2] = v.z;
    list[at + 3] = v.t;
}

// Sixteen tuples from a place on, as columns; NaNs where not all sixteen stand there.
pub fn read_block(
    list: &[f64],
    at: usize,
    x: &mut [f64; WIDTH],
    y: &mut [f64; WIDTH],
    z: &mut [f64; WIDTH],
    t: &mut [f64; WIDTH],
)
    ensures { Each x.new (λ (j : ℕ). (row_at list.now at j).x)
        × Each y.new (λ (j : ℕ). (row_at list.now at j).y)
        × Each z.new (λ (j : ℕ). (row_at list.now at j).z)
        × Each t.new (λ (j : ℕ). (row_at list.now at j).t) }
{
    if list.len().saturating_sub(at) < 64 {
        let none = 0.0 / 0.0;
        *x = [none; WIDTH];
        *y = [none; WIDTH];
        *z = [none; WIDTH];
        *t = [none; WIDTH];
        return;
    }
    for i in 0..WIDTH {
        let k = at + 4 * i;
        x[i] = list[k];
        y[i] = list[k + 1];
        z[i] = list[k + 2];
        t[i] = list[k + 3];
    }
}

// Sixteen tuples, as columns, put from a place on; nothing is written where not all sixteen stand
// there.
pub fn write_block(
    list: &mut [f64],
    at: usize,
    x: &[f64; WIDTH],
    y: &[f64; WIDTH],
    z: &[f64; WIDTH],
    t: &[f64; WIDTH],
)
    ensures { list.new ≡ put_block list.old at x.now y.now z.now t.now }
{
    if list.len().saturating_sub(at) < 64 {
        return;
    }
    for i in 0..WIDTH {
        let k = at + 4 * i;
        list[k] = x[i];
        list[k + 1] = y[i];
        list[k + 2] = z[i];
        list[k + 3] = t[i];
    }
}
