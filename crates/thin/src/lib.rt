// The thin entries: a step of any kind, or a whole sheet, over a lent list of tuple records, where
// the list stands.
//
// Document 01: "a lent flat list; afterwards also a thin entry over a lent list of tuple records".
// The flat entries are the core. What is here walks a `&mut [Tuple]` and hands each tuple to the
// step that the core is made of: `run_step` has the one loop over tuples, for all six kinds,
// either way, Helmert in every mode with its carried state; `shift` runs a sheet's steps one after
// another by it, with `chain::shift`'s refusals in their order, 2,048 tuples at most. Proved for
// every input: the list and the tally of `run_step` are the step's own definition from tuple to
// tuple, and what `shift` answers and leaves are, number for number, what `chain::shift` answers
// and leaves on the same numbers as a flat list (proofs/Flat.antt). No rounding but the steps' own.
// Each of the two loops has one invariant (`Walked`, `Going`). The step is made ready as the chain's
// loops have it (`plans::Plan`), and a further kind of step is a case in `turn`. For callers who hold
// their fixes as records.
#![tactic(auto)]

ghost use Rattle.std.specs.Prelude.{◌≡◌, true, false, ◌<◌};
ghost use Rattle.sheet.specs.Rules.{unless};
ghost use Rattle.chain.specs.Rules.{handed_out, shift_of};
ghost use Rattle.thin.specs.Tuples.{step_tuples_of, step_tuples_tally_of, flat_of};
ghost use Rattle.thin.specs.Plans.{begin_of, tallied, turn_of};
ghost use Rattle.thin.specs.Sheets.{step_index_of, todo_of, thin_refusal_of};

use blocks::one_if;
use bodies::Step;
use helmert::State;
use plans::{Plan, Standing};
use sheet::Refusal;
use tally::Tally;
use tuple::Tuple;

// One tuple further: where the step stands after it, and what the tuple became.
#[derive(Clone, Copy)]
pub struct Turned {
    pub carried: Standing,
    pub tuple: Tuple,
}

// ----- one tuple -------------------------------------------------------------------------

// Where a plan stands at the start of a list.
fn begin(plan: Plan) -> Standing
    ensures { result ≡ begin_of plan }
{
    Standing {
        state: plans::start(plan),
        tally: tally::none(),
    }
}

fn carried_on(at: Standing, state: State, tuple: Tuple, counted: bool, met: bool) -> Turned
    requires { (at.tally.count < 18446744073709551615) × (at.tally.met < 18446744073709551615) }
    ensures { result ≡ tallied at (record { state = state; tuple = tuple; counted = counted }) met }
{
    let tally = Tally {
        count: at.tally.count + one_if(counted),
        met: at.tally.met + one_if(met),
    };
    Turned {
        carried: Standing { state, tally },
        tuple,
    }
}

fn turn(plan: Plan, at: Standing, k: usize, u: Tuple, velocities: &[f64], marks: &[u8]) -> Turned
    requires { (at.tally.count < 18446744073709551615) × (at.tally.met < 18446744073709551615) }
    ensures { result ≡ turn_of velocities.now marks.now plan k at u }
{
    let state = at.state;
    match plan {
        Plan::CartForward(ellps) => {
            let r = cart::cart_fwd(ellps, u);
            carried_on(at, state, r.tuple, r.counted, reach::place_out(u.x, u.y))
        }
        Plan::CartInverse(c) => {
            let r = cart::cart_inv(c, u);
            carried_on(at, state, r.tuple, r.counted, false) // it takes no sine
        }
        Plan::PermtideEither(op, inverse) => {
            let v = if inverse {
                permtide::inv(op, u)
            } else {
                permtide::fwd(op, u)
            };
            carried_on(at, state, v, true, reach::out_of_reach(u.y))
        }
        Plan::MolodenskyEither(op, inverse) => {
            let v = molodensky::common(op, inverse, u);
            carried_on(
                at,
                state,
                v,
                true,
                reach::offsets_out(op.abridged, u.x, u.y),
            )
        }
        Plan::DeformationEither(op, inverse) => {
            let v = turns::velocity_at(velocities, k);
            let mark = turns::mark_at(marks, k);
            let r = deformation::common(op, inverse, v, mark, u);
            carried_on(at, state, r.tuple, r.counted, reach::moved_met(op, mark, u))
        }
        Plan::HelmertEither(shift, inverse) => {
            let r = helmert::step(shift, inverse, state, u);
            let counted = helmert::counted(shift, u);
            carried_on(
                at,
                r.state,
                r.tuple,
                counted,
                reach::helmert_met(shift, state, u),
            )
        }
    }
}

// ----- a step over the list --------------------------------------------------------------

// One step over a list, either way: Helmert in every mode with its carried state, and the four that
// have none.
pub fn run_step(
    list: &mut [Tuple],
    inverse: bool,
    step: Step,
    velocities: &[f64],
    marks: &[u8],
) -> Tally
    ensures { (list.new ≡ step_tuples_of inverse velocities.now marks.now step list.old)
        × (result ≡ step_tuples_tally_of inverse velocities.now marks.now step list.old) }
{
    let plan = plans::plan_of_step(inverse, step);
    let mut at = begin(plan);
    for i in 0..list.len() {
        let r = turn(plan, at, i, list[i], velocities, marks);
        list[i] = r.tuple;
        at = r.carried;
    }
    at.tally
}

// ----- a sheet over the list -------------------------------------------------------------

// What the loop over the steps takes of a sheet: the step's place, its direction and its record.
#[derive(Clone, Copy)]
pub struct Todo {
    pub place: usize,
    pub inverse: bool,
    pub step: Step,
}

// The place of the step that comes i-th of n: the first first, inverse the last first.
fn place_of(inverse: bool, n: usize, i: usize) -> usize
    requires { i < n }
    ensures { result ≡ step_index_of inverse n i }
{
    if inverse { n - 1 - i } else { i }
}

// That step, in the chain's direction, turned round where its inverted word is 1.
fn next_step(inverse: bool, s: &[u8], n: usize, i: usize) -> Todo
    requires { i < n }
    ensures { result ≡ todo_of inverse s.now n i }
{
    let place = place_of(inverse, n, i);
    let entry = sheet::entry_at(s, place);
    Todo {
        place,
        inverse: chain::reversed(inverse, entry),
        step: entry.step,
    }
}

// The rules in document 01's order: the sheet's own, then 9, then 10.
fn judge(s: &[u8], tuples: usize, velocities: &[f64], marks: &[u8]) -> Result<(), Refusal>
    ensures { result ≡ unless (thin_refusal_of s.now tuples velocities.now marks.now) tt }
{
    sheet::check(s)?;
    if 2048 < tuples {
        return Err(Refusal::of_call(9));
    }
    if chain::lent_broken(chain::has_deformation(s), 4 * tuples, velocities, marks) {
        return Err(Refusal::of_call(10));
    }
    Ok(())
}

// A sheet's bytes over a list of tuples: each step's tally in the sheet's order, and zeros in the
// other places; or the refusal.
pub fn shift(
    inverse: bool,
    s: &[u8],
    list: &mut [Tuple],
    velocities: &[f64],
    marks: &[u8],
) -> Result<[Tally; 16], Refusal>
    ensures { (result ≡ handed_out (shift_of inverse s.now (flat_of list.old) velocities.now marks.now).answer)
        × (flat_of list.new ≡ (shift_of inverse s.now (flat_of list.old) velocities.now marks.now).list) }
{
    judge(s, list.len(), velocities, marks)?;
    let n = sheet::step_count(s);
    let mut tallies = [tally::none(); 16];
    for i in 0..n {
        let e = next_step(inverse, s, n, i);
        tallies[e.place] = run_step(list, e.inverse, e.step, velocities, marks);
    }
    Ok(tallies)
}
