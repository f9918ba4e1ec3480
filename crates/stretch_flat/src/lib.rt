// The kept run of flat lists: converters around the columns.
//
// Document 01, "Kept run", over flat lists, which document 02, A7, keeps as converters around
// columns; the Rust has none. A fresh run converts the list and what it leaves, window after window,
// through a small room of columns. A correction converts the stretch that it redoes and never the
// whole list: first times and track, until the states meet (`stretch_flat_track`), then as many
// fixes and their results.
//
// No rounding but the step's own. Proved for all input: what is left is what the words define
// (`fresh_run_of`, `put_right_of`; stretch, specs/Kept.antt). Where the three lists do not fit together,
// or no fix stands at the index, nothing is written. Used by `kept`.
#![tactic(auto)]

ghost use Rattle.std.specs.Prelude.{◌≡◌, ◌+◌, ◌*◌, ◌%◌, ◌≤◌, length};
ghost use Rattle.columns.specs.Columns.{Level};
ghost use Rattle.lists.specs.Run.{ran_of, state_after_of};
ghost use Rattle.helmert.specs.Turns.{helmert_turns};
ghost use Rattle.stretch.specs.Kept.{kept_of, fresh_of, redone_of, redo_of, corrected_of, fit_of, fresh_run_of, put_right_of};

use helmert::{Shift, State};
use stretch::FlatRows;
use tuple::Tuple;

// ----- the results ----------------------------------------------------------------------------

// A window of the list into columns, the step over them from a state on, and into the results.
// Gives the state after the window.
fn shift_window(
    inverse: bool,
    shift: Shift,
    from: State,
    list: &[f64],
    results: &mut [f64],
    x: &mut [f64],
    y: &mut [f64],
    z: &mut [f64],
    t: &mut [f64],
) -> State
    requires { Level x.old y.old z.old t.old × (length list.now ≡ 4 * length x.old) × (length results.old ≡ length list.now) }
    ensures { (results.new ≡ ran_of (helmert_turns inverse shift) 0 from list.now)
        × (result ≡ state_after_of (helmert_turns inverse shift) 0 from list.now) }
{
    columns::to_columns(list, x, y, z, t);
    let went = helmert_columns::run_helmert(x, y, z, t, inverse, shift, from);
    let state = went.state;
    columns::to_flat(x, y, z, t, results);
    state // handed on to the next window
}

// A window's results through a room of N rows, of which it takes as many as the window has.
fn shift_room<const N: usize>(
    inverse: bool,
    shift: Shift,
    from: State,
    list: &[f64],
    results: &mut [f64],
) -> State
    requires { (length list.now % 4 ≡ 0) × (length list.now ≤ 4 * N) × (N ≤ 64) × (length results.old ≡ length list.now) }
    ensures { (results.new ≡ ran_of (helmert_turns inverse shift) 0 from list.now)
        × (result ≡ state_after_of (helmert_turns inverse shift) 0 from list.now) }
{
    let mut x = [0.0; N];
    let mut y = [0.0; N];
    let mut z = [0.0; N];
    let mut t = [0.0; N];
    let n = list.len() / 4; // as many rows as fixes
    shift_window(
        inverse,
        shift,
        from,
        list,
        results,
        &mut x[..n],
        &mut y[..n],
        &mut z[..n],
        &mut t[..n],
    )
}

// A room is zeroed when it is made, so a short window takes one of four rows.
fn shift_part(inverse: bool, shift: Shift, from: State, list: &[f64], results: &mut [f64]) -> State
    requires { (length list.now % 4 ≡ 0) × (length list.now ≤ 256) × (length results.old ≡ length list.now) }
    ensures { (results.new ≡ ran_of (helmert_turns inverse shift) 0 from list.now)
        × (result ≡ state_after_of (helmert_turns inverse shift) 0 from list.now) }
{
    if list.len() <= 16 {
        return shift_room::<4>(inverse, shift, from, list, results);
    }
    shift_room::<64>(inverse, shift, from, list, results)
}

// The list's results from a state on, window after window.
fn shift_list(inverse: bool, shift: Shift, from: State, list: &[f64], results: &mut [f64])
    requires { (length list.now % 4 ≡ 0) × (length results.old ≡ length list.now) }
    ensures { results.new ≡ ran_of (helmert_turns inverse shift) 0 from list.now }
{
    let count = list.len() / 4;
    let mut state = from;
    for i in (0..count).step_by(64) {
        let w = (count - i).min(64); // as many fixes as are left
        let a = 4 * i; // the window of results
        let e = a + 4 * w;
        state = shift_part(inverse, shift, state, &list[a..e], &mut results[a..e]);
    }
}

// ----- a run ----------------------------------------------------------------------------------

// A list of whole tuples, with results and track as long as it.
fn fits(list: usize, results: usize, track: usize) -> bool
    ensures { result ≡ fit_of list results track }
{
    (list % 4 == 0) & (results == list) & (track == list)
}

// Reads the list, writes results and track.
fn run(shift: Shift, inverse: bool, list: &[f64], results: &mut [f64], track: &mut [f64])
    requires { (length list.now % 4 ≡ 0) × (length results.old ≡ length list.now) × (length track.old ≡ length list.now) }
    ensures { kept_of list.now results.new track.new ≡ fresh_of shift inverse list.now }
{
    let start = helmert::start(shift);
    shift_list(inverse, shift, start, list, results);
    stretch_flat_track::track_list(shift, start, list, track);
}

// A fresh run; nothing is written where the three lists do not fit together.
pub fn fresh(shift: Shift, inverse: bool, list: &[f64], results: &mut [f64], track: &mut [f64])
    ensures { kept_of list.now results.new track.new
        ≡ fresh_run_of shift inverse (kept_of list.now results.old track.old) }
{
    if fits(list.len(), results.len(), track.len()) {
        run(shift, inverse, list, results, track);
    }
}

// ----- a correction ---------------------------------------------------------------------------

// Redoes from an index on until the states meet: first the track, which tells how far, then the
// results of as many fixes.
fn redo(
    shift: Shift,
    inverse: bool,
    list: &[f64],
    results: &mut [f64],
    track: &mut [f64],
    index: usize,
    from: State,
) -> usize
    requires { (length list.now % 4 ≡ 0) × (4 * index ≤ length list.now) × (length results.old ≡ length list.now) × (length track.old ≡ length list.now) }
    ensures { redone_of result (kept_of list.now results.new track.new)
        ≡ redo_of (helmert_turns inverse shift) from (kept_of list.now results.old track.old) index }
{
    let a = 4 * index;
    let n = stretch_flat_track::retrack_list(shift, from, &list[a..], &mut track[a..]);
    let e = a + 4 * n;
    shift_list(inverse, shift, from, &list[a..e], &mut results[a..e]);
    n
}

// Writes the fix into the list, and redoes.
fn put_and_redo(
    shift: Shift,
    inverse: bool,
    list: &mut [f64],
    results: &mut [f64],
    track: &mut [f64],
    index: usize,
    fix: Tuple,
) -> usize
    requires { (length list.old % 4 ≡ 0) × (4 * index + 4 ≤ length list.old) × (length results.old ≡ length list.old) × (length track.old ≡ length list.old) }
    ensures { redone_of result (kept_of list.new results.new track.new)
        ≡ corrected_of shift inverse (kept_of list.old results.old track.old) index fix }
{
    lists::write4(list, 4 * index, fix);
    let from = stretch::before(shift, &FlatRows { list: track }, index);
    redo(shift, inverse, list, results, track, index, from)
}

// Corrects a fix, and counts the fixes redone; 0, and nothing is written, where the three lists do
// not fit together or no fix stands at the index.
pub fn put_right(
    shift: Shift,
    inverse: bool,
    list: &mut [f64],
    results: &mut [f64],
    track: &mut [f64],
    index: usize,
    fix: Tuple,
) -> usize
    ensures { redone_of result (kept_of list.new results.new track.new)
        ≡ put_right_of shift inverse (kept_of list.old results.old track.old) index fix }
{
    if fits(list.len(), results.len(), track.len()) & (index < list.len() / 4) {
        return put_and_redo(shift, inverse, list, results, track, index, fix);
    }
    0
}
