// A list of tuples as four columns: all first numbers, all second, all third, all fourth, in four
// lent slices of one length. Columns of unequal length stand for no tuple: what reads them finds
// none, and what writes leaves them.
//
// Document 02, A7; it stands in place of the Rust's `dyn CoordinateSet`. specs/Columns.antt says
// which flat list four columns stand for, and every contract over columns is told by that list:
// what `lists` says of a step over a flat list is what a step over columns gives. The converters go
// there and back over lent room. specs/Passed.antt says what a part of a loop has done, and
// proofs/Passed.antt has the laws that every loop over columns is proved by. Exact: numbers are
// moved, never rounded. Used by every loop over a list.
//
// The four columns stay four parameters. A struct of four `&mut` slices is no plainer: each contract
// would need a clause a column that it is still the same slice, and the borrow check does not cover
// parts of a slice that is a field.
#![tactic(auto)]

ghost use Rattle.std.specs.Prelude.{◌≡◌, cond, ◌+◌, ◌*◌, ◌≤◌, ◌<◌, length};
ghost use Rattle.blocks.specs.Each.{at};
ghost use Rattle.lists.specs.Flat.{four_of, tuple_at, put_at};
ghost use Rattle.columns.specs.Columns.{Level, level_of, has_row_of, flat_of, fits_of};

use tuple::Tuple;

// Whether the columns are of one length.
pub fn level(x: &[f64], y: &[f64], z: &[f64], t: &[f64]) -> bool
    ensures { result ≡ level_of x.now y.now z.now t.now }
{
    y.len() == x.len() && z.len() == x.len() && t.len() == x.len()
}

// ----- one row -------------------------------------------------------------------------------

// Whether a row stands at an index.
fn has_row(x: &[f64], y: &[f64], z: &[f64], t: &[f64], i: usize) -> bool
    ensures { result ≡ has_row_of x.now y.now z.now t.now i }
{
    level(x, y, z, t) && i < x.len()
}

// The tuple at an index; four NaNs where no row stands there.
pub fn read_row(x: &[f64], y: &[f64], z: &[f64], t: &[f64], i: usize) -> Tuple
    ensures { result ≡ tuple_at (flat_of x.now y.now z.now t.now) (4 * i) }
{
    if has_row(x, y, z, t, i) {
        there(x, y, z, t, i)
    } else {
        Tuple::nan()
    }
}

// A tuple put at an index; nothing is written where no row stands there.
pub fn write_row(x: &mut [f64], y: &mut [f64], z: &mut [f64], t: &mut [f64], i: usize, v: Tuple)
    ensures { flat_of x.new y.new z.new t.new
        ≡ put_at (flat_of x.old y.old z.old t.old) (4 * i) v }
{
    if has_row(x, y, z, t, i) {
        put_there(x, y, z, t, i, v);
    }
}

// A tuple put at an index but for its time, which stays. The times are lent to be read: what is
// known of them stays known.
pub fn write_point(x: &mut [f64], y: &mut [f64], z: &mut [f64], t: &[f64], i: usize, v: Tuple)
    ensures { flat_of x.new y.new z.new t.now
        ≡ put_at (flat_of x.old y.old z.old t.now) (4 * i) (four_of v.x v.y v.z (at t.now i)) }
{
    if has_row(x, y, z, t, i) {
        put_point(x, y, z, t, i, v);
    }
}

// ----- there and back ------------------------------------------------------------------------

// A row and four numbers of a flat list where they are known to stand: nothing is tested, so that
// the converters' loops become vector instructions.
fn there(x: &[f64], y: &[f64], z: &[f64], t: &[f64], i: usize) -> Tuple
    requires { Level x.now y.now z.now t.now × (i < length x.now) }
    ensures { result ≡ tuple_at (flat_of x.now y.now z.now t.now) (4 * i) }
{
    Tuple {
        x: x[i],
        y: y[i],
        z: z[i],
        t: t[i],
    }
}

fn put_there(x: &mut [f64], y: &mut [f64], z: &mut [f64], t: &mut [f64], i: usize, v: Tuple)
    requires { Level x.old y.old z.old t.old × (i < length x.old) }
    ensures { flat_of x.new y.new z.new t.new
        ≡ put_at (flat_of x.old y.old z.old t.old) (4 * i) v }
{
    x[i] = v.x;
    y[i] = v.y;
    z[i] = v.z;
    t[i] = v.t; // the fourth column
}

fn put_point(x: &mut [f64], y: &mut [f64], z: &mut [f64], t: &[f64], i: usize, v: Tuple)
    requires { Level x.old y.old z.old t.now × (i < length x.old) }
    ensures { flat_of x.new y.new z.new t.now
        ≡ put_at (flat_of x.old y.old z.old t.now) (4 * i) (four_of v.x v.y v.z (at t.now i)) }
{
    x[i] = v.x;
    y[i] = v.y;
    z[i] = v.z; // and the time stays
}

fn read_four(list: &[f64], at: usize) -> Tuple
    requires { at + 4 ≤ length list.now }
    ensures { result ≡ tuple_at list.now at }
{
    Tuple {
        x: list[at],
        y: list[at + 1],
        z: list[at + 2],
        t: list[at + 3],
    }
}

fn write_four(list: &mut [f64], at: usize, v: Tuple)
    requires { at + 4 ≤ length list.old }
    ensures { list.new ≡ put_at list.old at v }
{
    list[at] = v.x;
    list[at + 1] = v.y;
    list[at + 2] = v.z;
    list[at + 3] = v.t;
}

// A flat list into columns with as many rows.
fn into_columns(list: &[f64], x: &mut [f64], y: &mut [f64], z: &mut [f64], t: &mut [f64])
    requires { Level x.old y.old z.old t.old × (length list.now ≡ 4 * length x.old) }
    ensures { flat_of x.new y.new z.new t.new ≡ list.now }
{
    for i in 0..x.len() {
        let v = read_four(list, 4 * i);
        put_there(x, y, z, t, i, v); // row by row
    }
}

// Columns into a flat list with as many tuples.
fn into_flat(x: &[f64], y: &[f64], z: &[f64], t: &[f64], list: &mut [f64])
    requires { Level x.now y.now z.now t.now × (length list.old ≡ 4 * length x.now) }
    ensures { list.new ≡ flat_of x.now y.now z.now t.now }
{
    for i in 0..x.len() {
        let v = there(x, y, z, t, i);
        write_four(list, 4 * i, v);
    }
}

// Whether a flat list has four numbers for each row.
fn fits(list: &[f64], x: &[f64], y: &[f64], z: &[f64], t: &[f64]) -> bool
    ensures { result ≡ fits_of list.now x.now y.now z.now t.now }
{
    level(x, y, z, t) && list.len() % 4 == 0 && list.len() / 4 == x.len()
}

// A flat list into columns; nothing is written where it has not four numbers for each row.
pub fn to_columns(list: &[f64], x: &mut [f64], y: &mut [f64], z: &mut [f64], t: &mut [f64])
    ensures { flat_of x.new y.new z.new t.new
        ≡ cond (fits_of list.now x.old y.old z.old t.old)
        list.now (flat_of x.old y.old z.old t.old) }
{
    if fits(list, x, y, z, t) {
        into_columns(list, x, y, z, t);
    }
}

// Columns into a flat list; nothing is written where it has not four numbers for each row.
pub fn to_flat(x: &[f64], y: &[f64], z: &[f64], t: &[f64], list: &mut [f64])
    ensures { list.new ≡ cond (fits_of list.old x.now y.now z.now t.now)
        (flat_of x.now y.now z.now t.now) list.old }
{
    if fits(list, x, y, z, t) {
        into_flat(x, y, z, t, list);
    }
}
