// A step made ready, run over four columns: any part of a list, from the state that the part before
// it left.
//
// Here alone a step's kind is decided at run time, by a match: a boxed closure a step would need the
// heap. Each kind has its own loop, and deformation one for velocities and marks that are lent and
// one for a lent grid (document 02, A1). What the contract
// says is the step's own definition over the flat list that the columns stand for
// (plans, specs/Plans.antt): the columns afterwards, the count, how many tuples met an angle out of
// reach of sine and cosine (document 02, A5), and the state that the next part goes on from. That
// second number is taken from the columns before the step writes them. Exact: no rounding but the
// steps' own. Used by the chain and by what runs a record.
// The columns stay four parameters: a struct of four `&mut` needs a clause for each column and can't
// lend parts of its fields, so it is no plainer (tried).
#![tactic(auto)]

ghost use Rattle.std.specs.Prelude.{◌≡◌};
ghost use Rattle.lists.specs.Run.{ran_of, count_of, state_after_of};
ghost use Rattle.helmert.specs.Turns.{no_state};
ghost use Rattle.columns.specs.Columns.{Level, flat_of};
ghost use Rattle.plans.specs.Lent.{lent_in, lent_turns, lent_met_turns};
ghost use Rattle.plans.specs.Plans.{plan_turns_of, plan_reach_of};

use deformation::Motion;
use deformation_columns::Moved;
use helmert::State;
use plans::{Loan, Plan};

// What a step leaves beside the columns: how many tuples counted, how many met an angle out of
// reach, and the state after the last.
#[derive(Clone, Copy)]
pub struct Part {
    pub count: usize,
    pub met: usize,
    pub state: State,
}

// Deformation by what is lent for each fix, or by a grid where one is lent.
fn deform(
    x: &mut [f64],
    y: &mut [f64],
    z: &mut [f64],
    t: &mut [f64],
    first: usize,
    op: Motion,
    inverse: bool,
    lent: Loan<'_>,
) -> Moved
    ensures { (flat_of x.new y.new z.new t.new
        ≡ ran_of (lent_turns op inverse (lent_in lent.entry)) first no_state (flat_of x.old y.old z.old t.old))
        × (result.count ≡ count_of (lent_turns op inverse (lent_in lent.entry)) first no_state (flat_of x.old y.old z.old t.old))
        × (result.met ≡ count_of (lent_met_turns op inverse (lent_in lent.entry)) first no_state (flat_of x.old y.old z.old t.old)) }
{
    if lent.grid.len() != 0 {
        return Moved {
            count: deformation_grid_columns::deformation(x, y, z, t, op, inverse, lent.grid),
            met: 0, // a fix inside the grid has its angles within reach
        };
    }
    deformation_columns::deformation(x, y, z, t, first, op, inverse, lent.velocities, lent.marks)
}

// Columns of one length.
fn run_level(
    plan: Plan,
    first: usize,
    from: State,
    x: &mut [f64],
    y: &mut [f64],
    z: &mut [f64],
    t: &mut [f64],
    lent: Loan<'_>,
) -> Part
    requires { Level x.old y.old z.old t.old }
    ensures { (flat_of x.new y.new z.new t.new
        ≡ ran_of (plan_turns_of (lent_in lent.entry) plan) first from (flat_of x.old y.old z.old t.old))
        × (result.state ≡ state_after_of (plan_turns_of (lent_in lent.entry) plan) first from (flat_of x.old y.old z.old t.old))
        × (result.count ≡ count_of (plan_turns_of (lent_in lent.entry) plan) first from (flat_of x.old y.old z.old t.old))
        × (result.met ≡ count_of (plan_reach_of (lent_in lent.entry) plan) first from (flat_of x.old y.old z.old t.old)) }
{
    match plan {
        Plan::CartForward(ellps) => {
            let met = reach_columns::place(x, y, z, t);
            let count = cart_columns::cart_forward(x, y, z, t, ellps);
            Part {
                count,
                met,
                state: from,
            }
        }
        Plan::CartInverse(k) => {
            let count = cart_columns::cart_inverse(x, y, z, t, k);
            Part {
                count,
                met: 0, // it takes no sine
                state: from,
            }
        }
        Plan::PermtideEither(op, inverse) => {
            let met = reach_columns::latitude(x, y, z, t);
            permtide_columns::permtide(x, y, z, t, op, inverse);
            Part {
                count: x.len(), // every tuple counts
                met,
                state: from,
            }
        }
        Plan::DeformationEither(op, inverse) => {
            let tally = deform(
                x, y, z, t, first, // the part's first fix
                op, inverse, lent,
            );
            Part {
                count: tally.count,
                met: tally.met,
                state: from,
            }
        }
        Plan::MolodenskyEither(op, inverse) => {
            let met = reach_columns::offsets(x, y, z, t, op.abridged);
            molodensky_columns::molodensky(x, y, z, t, op, inverse);
            Part {
                count: x.len(),
                met,
                state: from,
            }
        }
        Plan::HelmertEither(shift, inverse) => {
            let met = reach_columns::helmert(x, y, z, t, inverse, shift, from);
            let went = helmert_columns::run_helmert(x, y, z, t, inverse, shift, from);
            Part {
                count: went.count,
                met,
                state: went.state,
            }
        }
    }
}

// A plan over columns whose first fix has index `first`, in the state `from`. Columns of unequal
// length have no row: none counts, and the state stays.
pub fn run(
    plan: Plan,
    first: usize,
    from: State,
    x: &mut [f64],
    y: &mut [f64],
    z: &mut [f64],
    t: &mut [f64],
    lent: Loan<'_>,
) -> Part
    ensures { (flat_of x.new y.new z.new t.new
        ≡ ran_of (plan_turns_of (lent_in lent.entry) plan) first from (flat_of x.old y.old z.old t.old))
        × (result.state ≡ state_after_of (plan_turns_of (lent_in lent.entry) plan) first from (flat_of x.old y.old z.old t.old))
        × (result.count ≡ count_of (plan_turns_of (lent_in lent.entry) plan) first from (flat_of x.old y.old z.old t.old))
        × (result.met ≡ count_of (plan_reach_of (lent_in lent.entry) plan) first from (flat_of x.old y.old z.old t.old)) }
{
    if columns::level(x, y, z, t) {
        run_level(plan, first, from, x, y, z, t, lent)
    } else {
        Part {
            count: 0,
            met: 0,
            state: from,
        }
    }
}
