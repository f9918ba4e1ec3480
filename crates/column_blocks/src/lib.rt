// Sixteen rows of columns at once: loaded into four blocks, and blocks stored.
//
// The contracts are those of `lists::read_block` and `lists::write_block` over the flat list that
// the columns stand for, at four times the index. So a block step's form over sixteen tuples is
// carried over to columns by the same laws. Exact: numbers are moved, never rounded. Used by every
// loop over columns that takes sixteen rows at a turn.
//
// The four blocks stay four parameters. A struct of four arrays is no plainer: most steps make three
// new columns and leave the time, so it would hold a time that is no result or a copy of one, and
// the kernels take and fill one column at a time.
#![tactic(auto)]

ghost use Rattle.std.specs.Prelude.{◌≡◌, ◌&&◌, ℕ, ◌+◌, ◌*◌, ◌≤◌, leb, length};
ghost use Rattle.blocks.specs.Each.{Each};
ghost use Rattle.lists.specs.Sixteen.{row_at, put_block};
ghost use Rattle.columns.specs.Columns.{Level, level_of, flat_of};

use blocks::WIDTH;

// Whether sixteen rows stand from an index on.
fn has_block(x: &[f64], y: &[f64], z: &[f64], t: &[f64], i: usize) -> bool
    ensures { result ≡ (level_of x.now y.now z.now t.now && leb (i + 16) (length x.now)) }
{
    columns::level(x, y, z, t) && WIDTH <= x.len().saturating_sub(i)
}

// ----- loaded ----------------------------------------------------------------------------------

fn load_there(
    x: &[f64],
    y: &[f64],
    z: &[f64],
    t: &[f64],
    i: usize,
    bx: &mut [f64; WIDTH],
    by: &mut [f64; WIDTH],
    bz: &mut [f64; WIDTH],
    bt: &mut [f64; WIDTH],
)
    requires { Level x.now y.now z.now t.now × (i + 16 ≤ length x.now) }
    ensures { Each bx.new (λ (j : ℕ). (row_at (flat_of x.now y.now z.now t.now) (4 * i) j).x)
        × Each by.new (λ (j : ℕ). (row_at (flat_of x.now y.now z.now t.now) (4 * i) j).y)
        × Each bz.new (λ (j : ℕ). (row_at (flat_of x.now y.now z.now t.now) (4 * i) j).z)
        × Each bt.new (λ (j : ℕ). (row_at (flat_of x.now y.now z.now t.now) (4 * i) j).t) }
{
    for j in 0..WIDTH {
        let k = i + j;
        bx[j] = x[k];
        by[j] = y[k];
        bz[j] = z[k];
        bt[j] = t[k];
    }
}

// Sixteen rows from an index on; NaNs where not all sixteen stand there.
pub fn load_block(
    x: &[f64],
    y: &[f64],
    z: &[f64],
    t: &[f64],
    i: usize,
    bx: &mut [f64; WIDTH],
    by: &mut [f64; WIDTH],
    bz: &mut [f64; WIDTH],
    bt: &mut [f64; WIDTH],
)
    ensures { Each bx.new (λ (j : ℕ). (row_at (flat_of x.now y.now z.now t.now) (4 * i) j).x)
        × Each by.new (λ (j : ℕ). (row_at (flat_of x.now y.now z.now t.now) (4 * i) j).y)
        × Each bz.new (λ (j : ℕ). (row_at (flat_of x.now y.now z.now t.now) (4 * i) j).z)
        × Each bt.new (λ (j : ℕ). (row_at (flat_of x.now y.now z.now t.now) (4 * i) j).t) }
{
    if has_block(x, y, z, t, i) {
        load_there(x, y, z, t, i, bx, by, bz, bt);
    } else {
        let none = 0.0 / 0.0;
        *bx = [none; WIDTH];
        *by = [none; WIDTH];
        *bz = [none; WIDTH];
        *bt = [none; WIDTH];
    }
}

// ----- stored ----------------------------------------------------------------------------------

fn store_there(
    x: &mut [f64],
    y: &mut [f64],
    z: &mut [f64],
    t: &mut [f64],
    i: usize,
    bx: &[f64; WIDTH],
    by: &[f64; WIDTH],
    bz: &[f64; WIDTH],
    bt: &[f64; WIDTH],
)
    requires { Level x.old y.old z.old t.old × (i + 16 ≤ length x.old) }
    ensures { flat_of x.new y.new z.new t.new
        ≡ put_block (flat_of x.old y.old z.old t.old) (4 * i) bx.now by.now bz.now bt.now }
{
    for j in 0..WIDTH {
        let k = i + j; // each at its own index
        x[k] = bx[j];
        y[k] = by[j];
        z[k] = bz[j];
        t[k] = bt[j];
    }
}

// Sixteen rows put from an index on; nothing is written where not all sixteen stand there.
pub fn store_block(
    x: &mut [f64],
    y: &mut [f64],
    z: &mut [f64],
    t: &mut [f64],
    i: usize,
    bx: &[f64; WIDTH],
    by: &[f64; WIDTH],
    bz: &[f64; WIDTH],
    bt: &[f64; WIDTH],
)
    ensures { flat_of x.new y.new z.new t.new
        ≡ put_block (flat_of x.old y.old z.old t.old) (4 * i) bx.now by.now bz.now bt.now }
{
    if has_block(x, y, z, t, i) {
        store_there(x, y, z, t, i, bx, by, bz, bt);
    }
}

fn points_there(
    x: &mut [f64],
    y: &mut [f64],
    z: &mut [f64],
    t: &[f64],
    i: usize,
    bx: &[f64; WIDTH],
    by: &[f64; WIDTH],
    bz: &[f64; WIDTH],
    bt: &[f64; WIDTH],
)
    requires { Level x.old y.old z.old t.now × (i + 16 ≤ length x.old) }
    ensures { Each bt.now (λ (j : ℕ). (row_at (flat_of x.old y.old z.old t.now) (4 * i) j).t)
        → flat_of x.new y.new z.new t.now
        ≡ put_block (flat_of x.old y.old z.old t.now) (4 * i) bx.now by.now bz.now bt.now }
{
    for j in 0..WIDTH {
        let k = i + j;
        x[k] = bx[j];
        y[k] = by[j];
        z[k] = bz[j]; // and the time stays
    }
}

// The same for a step that leaves the times, which are not written: where bt holds the sixteen that
// stand there, it is what putting all four blocks is. A function of its own: the times are lent to
// be read, so that what a caller knows of them stays known.
pub fn store_points(
    x: &mut [f64],
    y: &mut [f64],
    z: &mut [f64],
    t: &[f64],
    i: usize,
    bx: &[f64; WIDTH],
    by: &[f64; WIDTH],
    bz: &[f64; WIDTH],
    bt: &[f64; WIDTH],
)
    ensures { Each bt.now (λ (j : ℕ). (row_at (flat_of x.old y.old z.old t.now) (4 * i) j).t)
        → flat_of x.new y.new z.new t.now
        ≡ put_block (flat_of x.old y.old z.old t.now) (4 * i) bx.now by.now bz.now bt.now }
{
    if has_block(x, y, z, t, i) {
        points_there(x, y, z, t, i, bx, by, bz, bt);
    }
}
