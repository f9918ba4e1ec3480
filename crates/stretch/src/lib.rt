// The kept run under one Helmert step, in words: a list, its results and its track, kept apart; and
// the stretch of fixes that the correction of one redoes.
//
// Document 01, "Kept run"; the Rust has none. specs/Kept.antt says what a fresh run leaves (the
// chain's own results and, after each fix, the state that the step carries on: last time, T) and
// what a correction leaves: the fix written, and the run redone from there, in running mode from
// the track before it, up to the first fix after which the carried state is the kept one, else to
// the list's end. specs/Track.antt says the track's part by the times alone, and
// specs/KeptColumns.antt the same lists as columns. Here stand the states as data, by which a
// correction compares: every NaN is every other, and zeros differ by sign.
//
// What reads a list row by row, as the state before an index is read, is generic over `Rows`, which
// flat lists and columns are.
//
// Nothing is rounded here. Proved for every shift, direction, list, index and fix
// (proofs/Laws.antt): a run in which a fix is corrected equals, in every bit, a fresh run of the
// list as it stands; the count is the stretch's length, one where the mode is not running; nothing
// outside the stretch is written, whatever the three lists held. Used by `stretch_columns`, which
// keeps and corrects over columns, and by `stretch_flat`, which does so for flat lists.
#![tactic(auto)]

ghost use Rattle.std.specs.Prelude.{◌≡◌, ◌*◌, ◌/◌, List, Float, length};
ghost use Rattle.columns.specs.Columns.{flat_of};
ghost use Rattle.lists.specs.Flat.{tuple_at};
ghost use Rattle.stretch.specs.Same.{alike_number_of, alike_of};
ghost use Rattle.stretch.specs.Kept.{tracked_of, held_of, before_of};
ghost use Rattle.stretch.specs.Track.{moved_of};
ghost use Rattle.stretch.specs.Rows.{of_rows_of};

use helmert::{Shift, State};
use rotation::Vec3;
use tuple::Tuple;

// ----- states as data --------------------------------------------------------------------

fn alike_number(x: f64, y: f64) -> bool
    ensures { result ≡ alike_number_of x y }
{
    floats::same(x, y)
}

// Not by ==, which parts NaNs and joins zeros.
pub fn alike(v: Tuple, w: Tuple) -> bool
    ensures { result ≡ alike_of v w }
{
    alike_number(v.x, w.x)
        & (alike_number(v.y, w.y) & (alike_number(v.z, w.z) & alike_number(v.t, w.t)))
}

// A state as the track holds it. Not `From`: state and tuple are other crates' types, and Rust has
// no impl of another crate's trait for them here.
pub fn tracked(state: State) -> Tuple
    ensures { result ≡ tracked_of state }
{
    let t = state.t;
    Tuple {
        x: state.last,
        y: t.x,
        z: t.y,
        t: t.z,
    }
}

pub fn held(v: Tuple) -> State
    ensures { result ≡ held_of v }
{
    let t = Vec3 {
        x: v.y,
        y: v.z,
        z: v.t,
    };
    State { last: v.x, t: t }
}

// ----- the state from fix to fix -----------------------------------------------------------

// The state after a fix of this time: it moves on in running mode alone.
pub fn moved(shift: Shift, state: State, time: f64) -> State
    ensures { result ≡ moved_of shift state time }
{
    if helmert::is_running(shift) {
        return helmert::next(shift, state, time);
    }
    state
}

// ----- rows, flat or in columns ------------------------------------------------------------

// A list of tuples to be read row by row, however its numbers lie: what is said of one holds for
// flat lists and for columns.
pub trait Rows {
    // The flat list that it is or stands for.
    ghost flat: { Self → List Float };

    // How many rows it has.
    fn len(&self) -> usize
        ensures { result ≡ length (flat self.now) / 4 };

    // The tuple at an index; four NaNs where no row stands there.
    fn row(&self, i: usize) -> Tuple
        ensures { result ≡ tuple_at (flat self.now) (4 * i) };
}

// Four numbers a tuple, in one list.
#[derive(Clone, Copy)]
pub struct FlatRows<'a> {
    pub list: &'a [f64],
}

impl<'a> Rows for FlatRows<'a> {
    ghost flat = { λ r. r.list.now };

    fn len(&self) -> usize {
        self.list.len() / 4
    }

    fn row(&self, i: usize) -> Tuple {
        if i < self.list.len() / 4 {
            lists::read4(self.list, 4 * i)
        } else {
            Tuple::nan()
        }
    }
}

// Four columns; where they are not of one length they have no row.
#[derive(Clone, Copy)]
pub struct ColumnRows<'a> {
    pub x: &'a [f64],
    pub y: &'a [f64],
    pub z: &'a [f64],
    pub t: &'a [f64],
}

impl<'a> Rows for ColumnRows<'a> {
    ghost flat = { λ r. flat_of r.x.now r.y.now r.z.now r.t.now };

    fn len(&self) -> usize {
        if columns::level(self.x, self.y, self.z, self.t) {
            self.x.len()
        } else {
            0
        }
    }

    fn row(&self, i: usize) -> Tuple {
        columns::read_row(self.x, self.y, self.z, self.t, i)
    }
}

// The state before an index of a kept list, by its track: in running mode what stands before the
// index, at index 0 and in any other mode the state that the run starts from.
pub fn before<R: Rows>(shift: Shift, track: &R, index: usize) -> State
    ensures { result ≡ before_of shift (R.flat track.now) index }
{
    if (index == 0) | !helmert::is_running(shift) {
        return helmert::start(shift);
    }
    held(track.row(index - 1))
}

// ----- what is lent -------------------------------------------------------------------------

// Whether four columns, by their lengths, are of n rows.
pub fn of_rows(n: usize, x: usize, y: usize, z: usize, t: usize) -> bool
    ensures { result ≡ of_rows_of n x y z t }
{
    (x == n) & (y == n) & (z == n) & (t == n)
}
