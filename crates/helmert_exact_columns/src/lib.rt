// Helmert over columns where the rotation is exact, in running and in own-epoch mode.
//
// Three sines and three cosines a fix are what such a shift costs. Where times change from fix to
// fix, and always in own-epoch mode, they are taken for sixteen fixes at once
// (`trig_block::sin_cos_block`): R goes by the last time alone, so it does not wait for T, which is
// carried on from fix to fix. Fixes of one time in a row share one matrix. Both modes and both
// directions go through one loop; the modes differ only in the last time and T that a fix goes by
// (`met`). Proved equal, on the flat list that the columns stand for, to the step's own definition
// from tuple to tuple (helmert/specs/Turns.antt), for any shift; what is sent here is rotated and
// exact. Exact: no rounding but the step's own. Used by `helmert_running_columns` and
// `helmert_columns`.
#![tactic(auto)]

ghost use Rattle.std.specs.Prelude.{◌≡◌, true, false, ℕ, ◌+◌, ◌-◌, ◌≤◌, ◌<◌, length};
ghost use Rattle.std.specs.Float.Ieee.{ne};
ghost use Rattle.floats.specs.Binary64.{◌⊕◌, ◌⊗◌};
ghost use Rattle.blocks.specs.Each.{at, Each};
ghost use Rattle.rotation.specs.Matrix.{second_order_of, rows_of};
ghost use Rattle.lists.specs.Run.{ran_of, state_after_of};
ghost use Rattle.columns.specs.Columns.{Level, flat_of};
ghost use Rattle.columns.specs.Passed.{Passed};
ghost use Rattle.helmert.specs.Modes.{running_of, own_epoch_step_of};
ghost use Rattle.helmert.specs.Turns.{no_state, all_turns, stepped_turns};
ghost use Rattle.helmert_exact_columns.specs.Exact.{met_of, exact_turns, lapse_of, sines_at, Sined};

use blocks::WIDTH;
use helmert::{Shift, State};
use helmert_still_columns::Through;
use rotation::Sines;

// The last time and T that a fix of this time goes by.
fn met(own: bool, shift: Shift, state: State, time: f64) -> State
    ensures { result ≡ met_of own shift state time }
{
    if own {
        let p = shift.parameters;
        let t = helmert::grown(p.t, time - shift.epoch, p.dt);
        return State { last: time, t: t };
    }
    helmert::next(shift, state, time)
}

// ----- sixteen rows at once --------------------------------------------------------------------

// From t_epoch to the last time at each of sixteen rows.
fn lapses(t: &[f64], i: usize, own: bool, shift: Shift, from: State, d: &mut [f64; WIDTH])
    requires { i + 16 ≤ length t.now }
    ensures { Each d.new (lapse_of own shift from t.now i) }
{
    *d = [0.0; WIDTH];
    let mut state = from;
    for j in 0..WIDTH {
        state = met(own, shift, state, t[i + j]);
        d[j] = state.last - shift.epoch;
    }
}

// One of R's angles at each.
fn turned(r: f64, rate: f64, d: &[f64; WIDTH], a: &mut [f64; WIDTH])
    ensures { Each a.new (λ (j : ℕ). r ⊕ at d.now j ⊗ rate) }
{
    *a = [0.0; WIDTH];
    for j in 0..WIDTH {
        a[j] = r + d[j] * rate;
    }
}

// The sines and cosines of R at each.
fn fill(
    t: &[f64],
    i: usize,
    own: bool,
    shift: Shift,
    from: State,
    sx: &mut [f64; WIDTH],
    cx: &mut [f64; WIDTH],
    sy: &mut [f64; WIDTH],
    cy: &mut [f64; WIDTH],
    sz: &mut [f64; WIDTH],
    cz: &mut [f64; WIDTH],
)
    requires { i + 16 ≤ length t.now }
    ensures { Sined own shift from t.now i sx.new cx.new sy.new cy.new sz.new cz.new }
{
    let p = shift.parameters;
    let r = p.r;
    let rate = p.dr;
    let mut a = [0.0; WIDTH];
    lapses(t, i, own, shift, from, sz); // the last column to be filled holds them until then
    turned(r.x, rate.x, sz, &mut a);
    trig_block::sin_cos_block(&a, sx, cx);
    turned(r.y, rate.y, sz, &mut a);
    trig_block::sin_cos_block(&a, sy, cy);
    turned(r.z, rate.z, sz, &mut a);
    trig_block::sin_cos_block(&a, sz, cz);
}

// The matrix of one of them.
fn matrix_at(
    position_vector: bool,
    j: usize,
    sx: &[f64; WIDTH],
    cx: &[f64; WIDTH],
    sy: &[f64; WIDTH],
    cy: &[f64; WIDTH],
    sz: &[f64; WIDTH],
    cz: &[f64; WIDTH],
) -> [[f64; 3]; 3]
    requires { j < 16 }
    ensures { result ≡ rows_of position_vector (second_order_of (sines_at sx.now cx.now sy.now cy.now sz.now cz.now j)) }
{
    let a = Sines {
        sx: sx[j],
        cx: cx[j],
        sy: sy[j],
        cy: cy[j],
        sz: sz[j],
        cz: cz[j],
    };
    rotation::exact_matrix(a, position_vector)
}

// Sixteen rows, one after another, each through its T and S and the matrix that is ready for it.
fn turn_sixteen(
    x: &mut [f64],
    y: &mut [f64],
    z: &mut [f64],
    t: &[f64],
    i: usize,
    inverse: bool,
    own: bool,
    shift: Shift,
    from: State,
    sx: &[f64; WIDTH],
    cx: &[f64; WIDTH],
    sy: &[f64; WIDTH],
    cy: &[f64; WIDTH],
    sz: &[f64; WIDTH],
    cz: &[f64; WIDTH],
) -> State
    requires { Level x.old y.old z.old t.now × (i + 16 ≤ length x.old) × (shift.exact ≡ true)
        × Sined own shift from t.now i sx.now cx.now sy.now cy.now sz.now cz.now }
    ensures { Passed (exact_turns own shift inverse) i from (flat_of x.old y.old z.old t.now)
        (i + 16) result (flat_of x.new y.new z.new t.now) 16 }
{
    let p = shift.parameters;
    let mut state = from;
    for j in 0..WIDTH { // row by row, because T is carried on
        let k = i + j;
        state = met(own, shift, state, t[k]);
        let s = helmert::scale_at(p, state.last - shift.epoch);
        let m = matrix_at(shift.position_vector, j, sx, cx, sy, cy, sz, cz);
        let through = Through {
            inverse,
            t: state.t,
            s,
            rotated: shift.rotated,
            m,
        };
        through.row(&mut x[k], &mut y[k], &mut z[k], t[k]);
    }
    state
}

fn sixteen(
    x: &mut [f64],
    y: &mut [f64],
    z: &mut [f64],
    t: &[f64],
    i: usize,
    inverse: bool,
    own: bool,
    shift: Shift,
    from: State,
) -> State
    requires { Level x.old y.old z.old t.now × (i + 16 ≤ length x.old) × (shift.exact ≡ true) }
    ensures { Passed (exact_turns own shift inverse) i from (flat_of x.old y.old z.old t.now)
        (i + 16) result (flat_of x.new y.new z.new t.now) 16 }
{
    let mut sx = [0.0; WIDTH];
    let mut cx = [0.0; WIDTH];
    let mut sy = [0.0; WIDTH];
    let mut cy = [0.0; WIDTH];
    let mut sz = [0.0; WIDTH];
    let mut cz = [0.0; WIDTH];
    fill(
        t, i, own, shift, from, &mut sx, &mut cx, &mut sy, &mut cy, &mut sz, &mut cz,
    );
    turn_sixteen(
        x, y, z, t, i, inverse, own, shift, from, &sx, &cx, &sy, &cy, &sz, &cz,
    )
}

// ----- a run of one time -----------------------------------------------------------------------

// Where the rows that go by the last time end. In own-epoch mode no row does.
fn run_end(own: bool, t: &[f64], i: usize, last: f64) -> usize
    requires { i ≤ length t.now }
    ensures { (i ≤ result) × (result ≤ length t.now)
        × ((k : ℕ) → i ≤ k → k < result → (own ≡ false) × (ne (at t.now k) last ≡ false)) }
{
    if own {
        return i;
    }
    helmert_still_columns::run_end(t, i, last)
}

// How far a piece came: the index of the next row, and the state there.
#[derive(Clone, Copy)]
pub struct Reached {
    pub at: usize,
    pub state: State,
}

// The row at an index, and the rows after it that go by the same time.
fn one_time(
    x: &mut [f64],
    y: &mut [f64],
    z: &mut [f64],
    t: &[f64],
    i: usize,
    inverse: bool,
    own: bool,
    shift: Shift,
    from: State,
) -> Reached
    requires { Level x.old y.old z.old t.now × (i < length x.old) }
    ensures { (i < result.at) × (result.at ≤ length x.old)
        × Passed (exact_turns own shift inverse) i from (flat_of x.old y.old z.old t.now)
        result.at result.state (flat_of x.new y.new z.new t.now) (result.at - i) }
{
    let p = shift.parameters;
    let state = met(own, shift, from, t[i]);
    let dt = state.last - shift.epoch;
    let s = helmert::scale_at(p, dt);
    let m = rotation::rotation_matrix(
        helmert::rotation_at(p, dt),
        shift.exact,
        shift.position_vector,
    );
    let end = run_end(own, t, i + 1, state.last);
    let through = Through {
        inverse,
        t: state.t,
        s,
        rotated: shift.rotated,
        m,
    };
    through.row(&mut x[i], &mut y[i], &mut z[i], t[i]);
    for j in i + 1..end {
        through.row(&mut x[j], &mut y[j], &mut z[j], t[j]);
    }
    Reached {
        at: end,
        state: state,
    }
}

// ----- the loop --------------------------------------------------------------------------------

// Whether sixteen rows are worth taking at once: sixteen are left, and in running mode the next two
// bring another time each. Only an exact shift has sines.
fn worth(t: &[f64], i: usize, own: bool, shift: Shift) -> bool
    requires { i < length t.now }
    ensures { result ≡ true → (shift.exact ≡ true) × (i + 16 ≤ length t.now) }
{
    if t.len() - i < 16 {
        return false;
    }
    if shift.exact {
        if own {
            return true;
        }
        let next = t[i + 1];
        return (next != t[i]) & (t[i + 2] != next);
    }
    false
}

// Which piece takes the next rows is a matter of speed alone: each passes its rows through the same
// step.
fn run(
    x: &mut [f64],
    y: &mut [f64],
    z: &mut [f64],
    t: &[f64],
    inverse: bool,
    own: bool,
    shift: Shift,
    from: State,
) -> State
    ensures { (flat_of x.new y.new z.new t.now
        ≡ ran_of (exact_turns own shift inverse) 0 from (flat_of x.old y.old z.old t.now))
        × (result ≡ state_after_of (exact_turns own shift inverse) 0 from (flat_of x.old y.old z.old t.now)) }
{
    if !columns::level(x, y, z, t) {
        return from;
    }
    let mut state = from;
    let mut i = 0;
    // A piece says how many rows it took, so the index has no fixed step: `for` has no such form.
    while i < x.len() {
        if worth(t, i, own, shift) {
            state = sixteen(x, y, z, t, i, inverse, own, shift, state);
            i += 16;
        } else {
            let w = one_time(x, y, z, t, i, inverse, own, shift, state);
            state = w.state;
            i = w.at;
        }
    }
    state
}

// Running mode from a state: the state after the last row.
pub fn run_exact(
    x: &mut [f64],
    y: &mut [f64],
    z: &mut [f64],
    t: &[f64],
    inverse: bool,
    shift: Shift,
    from: State,
) -> State
    ensures { (flat_of x.new y.new z.new t.now
        ≡ ran_of (stepped_turns (running_of shift inverse)) 0 from (flat_of x.old y.old z.old t.now))
        × (result ≡ state_after_of (stepped_turns (running_of shift inverse)) 0 from (flat_of x.old y.old z.old t.now)) }
{
    run(x, y, z, t, inverse, false, shift, from)
}

// Own-epoch mode. A row whose time is missing, a NaN, needs no test: its dt is NaN, so T is, and so
// are its coordinates.
pub fn run_own_epoch_exact(
    x: &mut [f64],
    y: &mut [f64],
    z: &mut [f64],
    t: &[f64],
    inverse: bool,
    shift: Shift,
)
    ensures { flat_of x.new y.new z.new t.now
        ≡ ran_of (all_turns (own_epoch_step_of shift inverse)) 0 no_state (flat_of x.old y.old z.old t.now) }
{
    let from = helmert::start(shift);
    let last = run(x, y, z, t, inverse, true, shift, from);
}
