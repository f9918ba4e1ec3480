// Running Helmert over columns, in both directions and conventions.
//
// T grows, and S, R and the matrix are taken anew, only where the time changes. A run of rows with
// one time goes through a loop like that of a static shift. Where the next row has another time,
// sixteen rows go in two phases: T and the last time row after row, then S, R, the matrix and the
// row lane by lane, which is what the compiler makes vectors of. Where the shift is not rotated, row
// goes after row. Exact rotations are handed on to `helmert_exact_columns`. Proved equal, list and
// state, on the flat list that the columns stand for, to the step's own definition from tuple to
// tuple. Exact: no rounding but the step's own. Used by `helmert_columns`.
#![tactic(auto)]

ghost use Rattle.std.specs.Prelude.{◌+◌, ◌-◌, ◌≤◌, ◌<◌, ◌≡◌, true, false, ◌&&◌, length};
ghost use Rattle.lists.specs.Run.{ran_of, state_after_of};
ghost use Rattle.columns.specs.Columns.{Level, flat_of};
ghost use Rattle.columns.specs.Passed.{Passed};
ghost use Rattle.helmert.specs.Modes.{running_of};
ghost use Rattle.helmert.specs.Turns.{stepped_turns};
ghost use Rattle.helmert_running_columns.specs.Lanes.{Lanes, states_of};

use blocks::WIDTH;
use helmert::{Shift, State};
use helmert_exact_columns::Reached;
use helmert_still_columns::Through;
use rotation::Vec3;

// ----- rows of one time ----------------------------------------------------------------------

// The run of one time from an index on. Its first row has the time that T grows for. The loop is
// that of a static shift, written out here: a call for each run costs short runs half as much
// again.
fn one_time(
    x: &mut [f64],
    y: &mut [f64],
    z: &mut [f64],
    t: &[f64],
    i: usize,
    inverse: bool,
    shift: Shift,
    from: State,
) -> Reached
    requires { Level x.old y.old z.old t.now × (i < length x.old) × ((shift.rotated && shift.exact) ≡ false) }
    ensures { (i < result.at) × (result.at ≤ length x.old)
        × Passed (stepped_turns (running_of shift inverse)) i from (flat_of x.old y.old z.old t.now)
        result.at result.state (flat_of x.new y.new z.new t.now) (result.at - i) }
{
    let p = shift.parameters;
    let now = helmert::next(shift, from, t[i]);
    let end = helmert_still_columns::run_end(t, i + 1, now.last);
    let dt = now.last - shift.epoch;
    let s = helmert::scale_at(p, dt);
    let m = rotation::rotation_matrix(helmert::rotation_at(p, dt), false, shift.position_vector);
    let through = Through {
        inverse,
        t: now.t,
        s,
        rotated: shift.rotated,
        m,
    };
    through.row(&mut x[i], &mut y[i], &mut z[i], t[i]);
    for j in i + 1..end {
        through.row(&mut x[j], &mut y[j], &mut z[j], t[j]);
    }
    Reached {
        at: end,
        state: now,
    }
}

// ----- sixteen rows in two phases ------------------------------------------------------------

// T and the last time after each of sixteen rows, one after another; the last time as its dt.
fn ahead(
    t: &[f64],
    i: usize,
    shift: Shift,
    from: State,
    tx: &mut [f64; WIDTH],
    ty: &mut [f64; WIDTH],
    tz: &mut [f64; WIDTH],
    d: &mut [f64; WIDTH],
) -> State
    requires { i + 16 ≤ length t.now }
    ensures { Lanes shift from t.now i tx.new ty.new tz.new d.new
        × (result ≡ states_of shift from t.now i 16) }
{
    *tx = [0.0; WIDTH];
    *ty = [0.0; WIDTH];
    *tz = [0.0; WIDTH];
    *d = [0.0; WIDTH];
    let mut state = from;
    for j in 0..WIDTH {
        state = helmert::next(shift, state, t[i + j]);
        let by = state.t;
        tx[j] = by.x;
        ty[j] = by.y;
        tz[j] = by.z;
        d[j] = state.last - shift.epoch;
    }
    state
}

// S, R, the matrix and the row, lane by lane.
fn lanes(
    x: &mut [f64],
    y: &mut [f64],
    z: &mut [f64],
    t: &[f64],
    i: usize,
    inverse: bool,
    shift: Shift,
    from: State,
    tx: &[f64; WIDTH],
    ty: &[f64; WIDTH],
    tz: &[f64; WIDTH],
    d: &[f64; WIDTH],
)
    requires { Level x.old y.old z.old t.now × (i + 16 ≤ length x.old)
        × Lanes shift from t.now i tx.now ty.now tz.now d.now × ((shift.rotated && shift.exact) ≡ false) }
    ensures { Passed (stepped_turns (running_of shift inverse)) i from (flat_of x.old y.old z.old t.now)
        (i + 16) (states_of shift from t.now i 16) (flat_of x.new y.new z.new t.now) 16 }
{
    let p = shift.parameters;
    for j in 0..WIDTH { // no lane waits for another
        let k = i + j;
        let by = Vec3 {
            x: tx[j],
            y: ty[j],
            z: tz[j],
        };
        let s = helmert::scale_at(p, d[j]);
        let m = rotation::rotation_matrix(
            helmert::rotation_at(p, d[j]),
            false,
            shift.position_vector,
        );
        let through = Through {
            inverse,
            t: by,
            s,
            rotated: shift.rotated,
            m,
        };
        through.row(&mut x[k], &mut y[k], &mut z[k], t[k]);
    }
}

fn sixteen(
    x: &mut [f64],
    y: &mut [f64],
    z: &mut [f64],
    t: &[f64],
    i: usize,
    inverse: bool,
    shift: Shift,
    from: State,
) -> State
    requires { Level x.old y.old z.old t.now × (i + 16 ≤ length x.old) × ((shift.rotated && shift.exact) ≡ false) }
    ensures { Passed (stepped_turns (running_of shift inverse)) i from (flat_of x.old y.old z.old t.now)
        (i + 16) result (flat_of x.new y.new z.new t.now) 16 }
{
    let mut tx = [0.0; WIDTH];
    let mut ty = [0.0; WIDTH];
    let mut tz = [0.0; WIDTH];
    let mut d = [0.0; WIDTH];
    let state = ahead(t, i, shift, from, &mut tx, &mut ty, &mut tz, &mut d);
    lanes(x, y, z, t, i, inverse, shift, from, &tx, &ty, &tz, &d);
    state // after the sixteenth row
}

// ----- the whole list ------------------------------------------------------------------------

// Whether sixteen rows are worth taking at once: as many are left, and the next row has another time.
fn worth(t: &[f64], i: usize) -> bool
    requires { i < length t.now }
    ensures { result ≡ true → i + 16 ≤ length t.now }
{
    if t.len() - i < 16 {
        return false;
    }
    t[i + 1] != t[i]
}

// Which piece takes the next rows is a matter of speed alone: each is proved to go on to the same
// list. A row whose time the next does not have goes with fifteen more. `helmert_exact_columns` has
// such a loop over its own pieces: one for both would take three functions with all that each asks
// and ensures, and is no plainer than ten lines.
fn in_pieces(
    x: &mut [f64],
    y: &mut [f64],
    z: &mut [f64],
    t: &[f64],
    inverse: bool,
    shift: Shift,
    from: State,
) -> State
    requires { Level x.old y.old z.old t.now × ((shift.rotated && shift.exact) ≡ false) }
    ensures { (flat_of x.new y.new z.new t.now
        ≡ ran_of (stepped_turns (running_of shift inverse)) 0 from (flat_of x.old y.old z.old t.now))
        × (result ≡ state_after_of (stepped_turns (running_of shift inverse)) 0 from (flat_of x.old y.old z.old t.now)) }
{
    let mut state = from;
    let mut i = 0;
    // A piece says how many rows it took, so the index has no fixed step: `for` has no such form.
    while i < x.len() {
        if worth(t, i) {
            state = sixteen(x, y, z, t, i, inverse, shift, state);
            i += 16;
        } else {
            let w = one_time(x, y, z, t, i, inverse, shift, state);
            state = w.state;
            i = w.at;
        }
    }
    state
}

// Not rotated: a row is then so little work that it is done while T grows for the next. No matrix
// is used, and any serves.
fn one_by_one(
    x: &mut [f64],
    y: &mut [f64],
    z: &mut [f64],
    t: &[f64],
    inverse: bool,
    shift: Shift,
    from: State,
) -> State
    requires { Level x.old y.old z.old t.now × (shift.rotated ≡ false) }
    ensures { (flat_of x.new y.new z.new t.now
        ≡ ran_of (stepped_turns (running_of shift inverse)) 0 from (flat_of x.old y.old z.old t.now))
        × (result ≡ state_after_of (stepped_turns (running_of shift inverse)) 0 from (flat_of x.old y.old z.old t.now)) }
{
    let p = shift.parameters;
    let m = rotation::rotation_matrix(p.r, false, false);
    let mut state = from;
    for i in 0..x.len() {
        state = helmert::next(shift, state, t[i]);
        let s = helmert::scale_at(p, state.last - shift.epoch);
        let through = Through {
            inverse,
            t: state.t,
            s,
            rotated: false,
            m,
        };
        through.row(&mut x[i], &mut y[i], &mut z[i], t[i]);
    }
    state
}

// From a state on: the state after the last row.
pub fn run_running(
    x: &mut [f64],
    y: &mut [f64],
    z: &mut [f64],
    t: &[f64],
    inverse: bool,
    shift: Shift,
    from: State,
) -> State
    ensures { (flat_of x.new y.new z.new t.now
        ≡ ran_of (stepped_turns (running_of shift inverse)) 0 from (flat_of x.old y.old z.old t.now))
        × (result ≡ state_after_of (stepped_turns (running_of shift inverse)) 0 from (flat_of x.old y.old z.old t.now)) }
{
    if shift.rotated & shift.exact { // sines and cosines
        return helmert_exact_columns::run_exact(x, y, z, t, inverse, shift, from);
    }
    if columns::level(x, y, z, t) {
        if shift.rotated {
            return in_pieces(x, y, z, t, inverse, shift, from);
        }
        return one_by_one(x, y, z, t, inverse, shift, from);
    }
    from
}
