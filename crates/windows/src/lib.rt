// Steps made ready over a flat list of any length, a window of rows at a time.
//
// Each window is put into columns, passes through all steps, and is put back, so that a number is
// moved twice however many steps there are. Between two windows each step keeps its standing: the
// state that it goes on from, and its tally so far. Plans are made by the caller and the columns'
// room here, once a call. Proved for every list and plans, in both directions: the list and the
// tallies are those of all steps over the whole list (plans, specs/Windows.antt); a rest shorter
// than a tuple stays as it is. No rounding but the steps' own. Plans are lent and standings changed
// where they lie: an array by value stands twice on the stack. Used by the chain's flat entry.
// The columns stay four parameters: a struct of four `&mut` needs a clause for each column and can't
// lend parts of its fields, so it is no plainer (tried).
// Plans are an array with the number of steps, not a slice: `over` promises its answer for every
// number, also over sixteen, and its tallies have sixteen places.
#![tactic(auto)]

ghost use Rattle.std.specs.Prelude.{◌≡◌, true, false, ◌+◌, ◌*◌, ◌≤◌, ◌<◌, length};
ghost use Rattle.lists.specs.Run.{ran_of};
ghost use Rattle.columns.specs.Columns.{Level, flat_of};
ghost use Rattle.plans.specs.Lent.{lent_in};
ghost use Rattle.plans.specs.Plans.{plan_in, plan_turns_of, plan_pass_of};
ghost use Rattle.plans.specs.Windows.{moved_on, gone_of};
ghost use Rattle.windows.specs.Steps.{pass_in, passes_from, at_start, no_standing, starts_of, tallies_of, FewIn, Few, gone_over};

use plans::{Loan, Plan, Standing};
use step_windows::ROWS;
use tally::Tally;

// ----- standings ------------------------------------------------------------------------------

fn no_standing() -> Standing
    ensures { result ≡ no_standing }
{
    Standing {
        state: plans::no_state(),
        tally: tally::none(),
    }
}

// Where a step stands before a list.
fn at_start(plan: Plan) -> Standing
    ensures { result ≡ at_start plan }
{
    Standing {
        state: plans::start(plan),
        tally: tally::none(),
    }
}

fn starts(plans: &[Plan; 16], n: usize) -> [Standing; 16]
    requires { n ≤ 16 }
    ensures { result ≡ starts_of (plan_in plans.now) n }
{
    let mut standings = [no_standing(); 16];
    for i in 0..n {
        standings[i] = at_start(plans[i]);
    }
    standings
}

// Each step's tally.
fn tallies_of(standings: &[Standing; 16]) -> [Tally; 16]
    ensures { result ≡ tallies_of standings.now }
{
    let mut tallies = [tally::none(); 16];
    for i in 0..16 {
        tallies[i] = standings[i].tally;
    }
    tallies
}

// ----- a window -------------------------------------------------------------------------------

// One step over a window: where it stands afterwards.
fn moved_on(
    plan: Plan,
    first: usize,
    standing: Standing,
    x: &mut [f64],
    y: &mut [f64],
    z: &mut [f64],
    t: &mut [f64],
    lent: Loan<'_>,
) -> Standing
    requires { Level x.old y.old z.old t.old × (first + length x.old < 4611686018427387904) × FewIn first standing.tally }
    ensures { (flat_of x.new y.new z.new t.new
        ≡ ran_of (plan_turns_of (lent_in lent.entry) plan) first standing.state (flat_of x.old y.old z.old t.old))
        × (result ≡ moved_on (plan_pass_of (lent_in lent.entry) plan) first standing (flat_of x.old y.old z.old t.old)) }
{
    let part = plan_columns::run(plan, first, standing.state, x, y, z, t, lent);
    Standing {
        state: part.state,
        tally: Tally {
            count: standing.tally.count + part.count,
            met: standing.tally.met + part.met,
        },
    }
}

// All steps over a window in columns, whose first fix has index `first`, from the standings before
// it, which become those after it.
fn all_steps(
    inverse: bool,
    plans: &[Plan; 16],
    n: usize,
    first: usize,
    standings: &mut [Standing; 16],
    x: &mut [f64],
    y: &mut [f64],
    z: &mut [f64],
    t: &mut [f64],
    lent: Loan<'_>,
)
    requires { (n ≤ 16) × Level x.old y.old z.old t.old × (first + length x.old < 4611686018427387904) × Few first standings.old }
    ensures { (flat_of x.new y.new z.new t.new
        ≡ (gone_of inverse first (passes_from (pass_in (lent_in lent.entry) plans.now) n 0) standings.old (flat_of x.old y.old z.old t.old)).list)
        × (standings.new ≡ (gone_of inverse first (passes_from (pass_in (lent_in lent.entry) plans.now) n 0) standings.old (flat_of x.old y.old z.old t.old)).standings) }
{
    if inverse {
        for i in (0..n).rev() {
            // the last step first
            standings[i] = moved_on(plans[i], first, standings[i], x, y, z, t, lent);
        }
    } else {
        for i in 0..n {
            let next = moved_on(plans[i], first, standings[i], x, y, z, t, lent);
            standings[i] = next; // from there the next window goes on
        }
    }
}

// A window of a flat list, through columns that have its rows.
fn window(
    inverse: bool,
    plans: &[Plan; 16],
    n: usize,
    first: usize,
    standings: &mut [Standing; 16],
    list: &mut [f64],
    x: &mut [f64],
    y: &mut [f64],
    z: &mut [f64],
    t: &mut [f64],
    lent: Loan<'_>,
)
    requires { (n ≤ 16) × Level x.old y.old z.old t.old × (length list.old ≡ 4 * length x.old) × (first + length x.old < 4611686018427387904) × Few first standings.old }
    ensures { (list.new ≡ (gone_of inverse first (passes_from (pass_in (lent_in lent.entry) plans.now) n 0) standings.old list.old).list)
        × (standings.new ≡ (gone_of inverse first (passes_from (pass_in (lent_in lent.entry) plans.now) n 0) standings.old list.old).standings) }
{
    columns::to_columns(list, x, y, z, t);
    all_steps(inverse, plans, n, first, standings, x, y, z, t, lent);
    columns::to_flat(x, y, z, t, list);
}

// ----- window after window ---------------------------------------------------------------------

// The first n plans, sixteen at most, over a flat list: the tally of each, and zeros in the other
// places.
pub fn over(
    inverse: bool,
    plans: &[Plan; 16],
    n: usize,
    list: &mut [f64],
    lent: Loan<'_>,
) -> [Tally; 16]
    ensures { (list.new ≡ (gone_over inverse (lent_in lent.entry) plans.now n list.old).list)
        × (result ≡ tallies_of (gone_over inverse (lent_in lent.entry) plans.now n list.old).standings) }
{
    let mut x = step_windows::room();
    let mut y = step_windows::room();
    let mut z = step_windows::room();
    let mut t = step_windows::room();
    let steps = plans::at_most_sixteen(n);
    let rows = list.len() / 4;
    let mut standings = starts(plans, steps);
    for i in (0..rows).step_by(ROWS) {
        let m = step_windows::rows_of(rows - i);
        window(
            inverse,
            plans,
            steps,
            i, // the index of the window's first fix
            &mut standings,
            &mut list[4 * i..4 * (i + m)],
            &mut x[..m],
            &mut y[..m],
            &mut z[..m],
            &mut t[..m],
            lent,
        );
    }
    tallies_of(&standings)
}
