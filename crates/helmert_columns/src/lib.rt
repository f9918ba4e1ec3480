// Helmert over columns: the loop that a shift's mode, rotation and exactness call for, from a state
// and on to the next.
//
// Mode and exactness are decided once a list, before a loop starts; direction and convention need no
// loop of their own. Own-epoch mode with small angles stands here. The caller prepares the shift and
// keeps the state, so that a list may come in parts. Proved equal, list, state and count, on the flat
// list that the columns stand for, to the step's own definition from tuple to tuple. Exact: no
// rounding but the step's own. The loops: `helmert_still_columns`, `helmert_running_columns`,
// `helmert_exact_columns`.
#![tactic(auto)]

ghost use Rattle.std.specs.Prelude.{◌≡◌, false, ◌&&◌};
ghost use Rattle.lists.specs.Run.{ran_of, count_of, state_after_of};
ghost use Rattle.columns.specs.Columns.{Level, flat_of};
ghost use Rattle.helmert.specs.Modes.{own_epoch_step_of};
ghost use Rattle.helmert.specs.Turns.{no_state, all_turns, helmert_turns};
ghost use Rattle.helmert_columns.specs.Given.{given_of};

use helmert::{Mode, Shift, State};
use helmert_still_columns::Through;

// ----- the count of own-epoch mode -------------------------------------------------------------

// How many times are given, which is any but a NaN.
fn times_given(t: &[f64]) -> usize
    ensures { result ≡ given_of t.now }
{
    t.iter().filter(|time| !floats::is_nan(**time)).count()
}

// ----- own-epoch mode --------------------------------------------------------------------------

// With small angles, or not rotated: then no matrix is used, and any serves. A row whose time is
// missing, a NaN, needs no test: its dt is NaN, so T is, and so are its coordinates.
fn own_epoch_rows(
    x: &mut [f64],
    y: &mut [f64],
    z: &mut [f64],
    t: &[f64],
    inverse: bool,
    shift: Shift,
)
    requires { Level x.old y.old z.old t.now × ((shift.rotated && shift.exact) ≡ false) }
    ensures { flat_of x.new y.new z.new t.now
        ≡ ran_of (all_turns (own_epoch_step_of shift inverse)) 0 no_state (flat_of x.old y.old z.old t.now) }
{
    let p = shift.parameters;
    for i in 0..x.len() {
        let dt = t[i] - shift.epoch;
        let by = helmert::grown(p.t, dt, p.dt);
        let s = helmert::scale_at(p, dt);
        let m = rotation::rotation_matrix(
            helmert::rotation_at(p, dt),
            false,
            shift.position_vector,
        );
        let through = Through {
            inverse,
            t: by,
            s,
            rotated: shift.rotated,
            m,
        };
        through.row(&mut x[i], &mut y[i], &mut z[i], t[i]);
    }
}

fn run_own_epoch(
    x: &mut [f64],
    y: &mut [f64],
    z: &mut [f64],
    t: &[f64],
    inverse: bool,
    shift: Shift,
)
    requires { Level x.old y.old z.old t.now }
    ensures { flat_of x.new y.new z.new t.now
        ≡ ran_of (all_turns (own_epoch_step_of shift inverse)) 0 no_state (flat_of x.old y.old z.old t.now) }
{
    if shift.rotated & shift.exact { // sines and cosines
        helmert_exact_columns::run_own_epoch_exact(x, y, z, t, inverse, shift);
    } else {
        own_epoch_rows(x, y, z, t, inverse, shift);
    }
}

// ----- the mode --------------------------------------------------------------------------------

// What a step over a list leaves: how many tuples counted, and the state after the last.
#[derive(Clone, Copy)]
pub struct Went {
    pub count: usize,
    pub state: State,
}

// Only running mode changes the state; a row without a time counts in every mode but own-epoch.
fn in_mode(
    x: &mut [f64],
    y: &mut [f64],
    z: &mut [f64],
    t: &[f64],
    inverse: bool,
    shift: Shift,
    from: State,
) -> Went
    requires { Level x.old y.old z.old t.now }
    ensures { (flat_of x.new y.new z.new t.now
        ≡ ran_of (helmert_turns inverse shift) 0 from (flat_of x.old y.old z.old t.now))
        × (result.state ≡ state_after_of (helmert_turns inverse shift) 0 from (flat_of x.old y.old z.old t.now))
        × (result.count ≡ count_of (helmert_turns inverse shift) 0 from (flat_of x.old y.old z.old t.now)) }
{
    match shift.mode() {
        Mode::Still => {
            helmert_still_columns::run_still(x, y, z, t, inverse, shift);
            Went {
                count: t.len(),
                state: from,
            }
        }
        Mode::Running => {
            let state = helmert_running_columns::run_running(x, y, z, t, inverse, shift, from);
            Went {
                count: t.len(),
                state: state,
            }
        }
        Mode::OwnEpoch => {
            run_own_epoch(x, y, z, t, inverse, shift);
            Went {
                count: times_given(t),
                state: from,
            }
        }
    }
}

// Columns of unequal length have no row: none counts, and the state stays.
pub fn run_helmert(
    x: &mut [f64],
    y: &mut [f64],
    z: &mut [f64],
    t: &[f64],
    inverse: bool,
    shift: Shift,
    from: State,
) -> Went
    ensures { (flat_of x.new y.new z.new t.now
        ≡ ran_of (helmert_turns inverse shift) 0 from (flat_of x.old y.old z.old t.now))
        × (result.state ≡ state_after_of (helmert_turns inverse shift) 0 from (flat_of x.old y.old z.old t.now))
        × (result.count ≡ count_of (helmert_turns inverse shift) 0 from (flat_of x.old y.old z.old t.now)) }
{
    if columns::level(x, y, z, t) {
        return in_mode(x, y, z, t, inverse, shift, from);
    }
    Went {
        count: 0,
        state: from,
    }
}
