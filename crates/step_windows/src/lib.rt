// One step over a flat list of any length, a window of rows at a time.
//
// Each window is put into columns, passes through the step, and is put back; between two windows the
// step keeps its state and its tally. The columns' room is made once a call and lent to each window.
// Proved for every plan and list: the list and the tally are those of the step over the whole list
// (plans, specs/Plans.antt); a rest shorter than a tuple stays as it is. No rounding but the step's
// own. Used by the chain's flat entry for sheets of one step, and its room by `windows`.
// The columns stay four parameters: a struct of four `&mut` needs a clause for each column and can't
// lend parts of its fields, so it is no plainer (tried).
// Windows are parts of the list by their index, not `chunks_mut`: of a slice behind an iterator a proof
// knows the length alone. `windows` has a loop of its own, since there each of sixteen steps has a
// standing where here one has a state: one loop for both would keep an array for one step (tested
// stack, and the time of a sheet of one step).
#![tactic(auto)]

ghost use Rattle.std.specs.Prelude.{◌≡◌, ◌+◌, ◌*◌, ◌≤◌, ◌<◌, min, length};
ghost use Rattle.lists.specs.Run.{ran_of, count_of, state_after_of};
ghost use Rattle.columns.specs.Columns.{Level};
ghost use Rattle.plans.specs.Lent.{lent_in};
ghost use Rattle.plans.specs.Passes.{tally_of};
ghost use Rattle.plans.specs.Plans.{plan_turns_of, plan_reach_of, plan_pass_of, plan_start_of};

use helmert::State;
use plan_columns::Part;
use plans::{Loan, Plan};
use tally::Tally;

// A window's rows: enough that a call for each window costs little, and few enough that the four
// columns are 4 kB of stack.
pub const ROWS: usize = 128;

// A column's room.
pub fn room() -> [f64; ROWS]
    ensures { 128 ≡ length result }
{
    [0.0; ROWS]
}

// How many rows the next window has, of those that are left.
pub fn rows_of(left: usize) -> usize
    ensures { (result ≤ left) × (result ≤ 128) × (0 < left → 0 < result) × (result ≡ min left 128) }
{
    left.min(ROWS)
}

// A window whose first fix has index `first`, through columns that have its rows.
fn window(
    plan: Plan,
    first: usize,
    from: State,
    list: &mut [f64],
    x: &mut [f64],
    y: &mut [f64],
    z: &mut [f64],
    t: &mut [f64],
    lent: Loan<'_>,
) -> Part
    requires { Level x.old y.old z.old t.old × (length list.old ≡ 4 * length x.old) × (first + length x.old < 4611686018427387904) }
    ensures { (list.new ≡ ran_of (plan_turns_of (lent_in lent.entry) plan) first from list.old)
        × (result.state ≡ state_after_of (plan_turns_of (lent_in lent.entry) plan) first from list.old)
        × (result.count ≡ count_of (plan_turns_of (lent_in lent.entry) plan) first from list.old)
        × (result.met ≡ count_of (plan_reach_of (lent_in lent.entry) plan) first from list.old) }
{
    columns::to_columns(list, x, y, z, t);
    let part = plan_columns::run(plan, first, from, x, y, z, t, lent);
    columns::to_flat(x, y, z, t, list);
    part
}

// The whole list: how many tuples the step counts, and how many meet an angle out of reach.
pub fn over(plan: Plan, list: &mut [f64], lent: Loan<'_>) -> Tally
    ensures { (list.new ≡ ran_of (plan_turns_of (lent_in lent.entry) plan) 0 (plan_start_of plan) list.old)
        × (result ≡ tally_of (plan_pass_of (lent_in lent.entry) plan) 0 (plan_start_of plan) list.old) }
{
    let mut x = room();
    let mut y = room();
    let mut z = room();
    let mut t = room();
    let rows = list.len() / 4;
    let mut state = plans::start(plan);
    let mut count = 0;
    let mut met = 0;
    for i in (0..rows).step_by(ROWS) {
        let m = rows_of(rows - i);
        let part = window(
            plan,
            i, // the index of the window's first fix
            state,
            &mut list[4 * i..4 * (i + m)],
            &mut x[..m],
            &mut y[..m],
            &mut z[..m],
            &mut t[..m],
            lent,
        );
        state = part.state; // from there the next window goes on
        count += part.count;
        met += part.met;
    }
    Tally { count, met }
}
