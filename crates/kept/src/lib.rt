// The kept run: a list, its results and its track, kept apart, shifted under a sheet of one Helmert
// or ten-parameter step; and the correction of one fix.
//
// Document 01, "Kept run" and refusals 9, 12, 13 and 14; the Rust has none. `keep` runs the list as
// the chain does and writes, after each fix, the state that the step carries on: last time, T.
// `correct` writes a new fix into the list and redoes from there until the carried state is the
// kept one, else to the list's end. Both are `stretch`'s, over the sheet's one step; here stand the
// rules in their order, and what each entry answers and leaves.
//
// No rounding but the step's own. Proved from a sheet's bytes on (proofs/Promises.antt): the
// results are the chain's; a kept run in which fixes are corrected equals, in every bit, a fresh
// run of the list as it stands; the count is the stretch's length, one where the mode is not
// running; nothing outside the stretch is written, whatever the three lists held. Used by callers
// that correct fixes of a list they keep; the program `corrections` replays some thousands.
#![tactic(auto)]

ghost use Rattle.std.specs.Prelude.{◌≡◌, []};
ghost use Rattle.sheet.specs.Rules.{first_broken, unless};
ghost use Rattle.stretch.specs.Kept.{kept_of};
ghost use Rattle.kept.specs.Entries.{refusal12, refusal13, refusal14, order_by, kept_order, keep_refusal_of, shift_in, reversed_in, keep_of, step_shift_of, redone_in, correct_of};
ghost use Rattle.helmert.specs.Modes.{prepare_of};
ghost use Rattle.helmert.specs.Record.{zero_helmert};

use bodies::Step;
use helmert::{Helmert, Shift};
use sheet::{Entry, Refusal};
use tuple::Tuple;

// ----- the sheet's one step ------------------------------------------------------------------

// What stands for the shift of a step that has none.
fn no_shift() -> Shift
    ensures { result ≡ prepare_of zero_helmert }
{
    helmert::prepare(Helmert::zeros())
}

// The shift of a Helmert or ten-parameter step; that of zeros for any other.
fn step_shift(step: Step) -> Shift
    ensures { result ≡ step_shift_of step }
{
    match step {
        Step::Helmert(h) => helmert::prepare(h),
        Step::Badekas(r) => badekas::prepare(r),
        Step::Cart(_) | Step::Molodensky(_) | Step::Permtide(_) | Step::Deformation(_) => {
            no_shift()
        }
    }
}

// The same of a sheet's entry.
pub fn shift_of(entry: Entry) -> Shift
    ensures { result ≡ step_shift_of entry.step }
{
    let step = entry.step;
    step_shift(step)
}

// The shift of a sheet's first step, and the direction that it runs in.
#[derive(Clone, Copy)]
pub struct Ready {
    pub shift: Shift,
    pub reversed: bool,
}

pub fn step_in(inverse: bool, s: &[u8]) -> Ready
    ensures { (result.shift ≡ shift_in s.now) × (result.reversed ≡ reversed_in inverse s.now) }
{
    let entry = sheet::entry_at(s, 0);
    let reversed = chain::reversed(inverse, entry); // turned round where the step is inverted
    Ready {
        shift: shift_of(entry),
        reversed: reversed,
    }
}

// ----- the rules -----------------------------------------------------------------------------

// Rule 12: not one Helmert or ten-parameter step.
fn step_broken(s: &[u8]) -> bool
    ensures { result ≡ refusal12 s.now }
{
    let kind = sheet::kind_at(s, 0);
    (sheet::step_count(s) != 1) | !((kind == 1) | (kind == 6))
}

// Rule 13: results or track not as long as the list.
fn lengths_broken(list: usize, results: usize, track: usize) -> bool
    ensures { result ≡ refusal13 list results track }
{
    (results != list) | (track != list)
}

// Rule 14: no fix at the index.
pub fn index_broken(list: usize, index: usize) -> bool
    ensures { result ≡ refusal14 list index }
{
    !(index < list / 4)
}

// The sheet's own, then 12, 9 and 13, of which the last two are asked of lengths.
pub fn check_order(s: &[u8], nine: bool, thirteen: bool) -> Result<(), Refusal>
    ensures { result ≡ unless (first_broken (order_by s.now nine thirteen [])) tt }
{
    sheet::check(s)?;
    if step_broken(s) {
        return Err(Refusal::of_call(12));
    }
    if nine {
        return Err(Refusal::of_call(9));
    }
    if thirteen {
        return Err(Refusal::of_call(13));
    }
    Ok(())
}

// The same by the lengths of three flat lists.
fn check(s: &[u8], list: usize, results: usize, track: usize) -> Result<(), Refusal>
    ensures { result ≡ unless (first_broken (kept_order s.now list results track [])) tt }
{
    let nine = chain::list_broken(list);
    let thirteen = lengths_broken(list, results, track);
    check_order(s, nine, thirteen)
}

// ----- the entries -----------------------------------------------------------------------------

// A fresh kept run: reads the list, writes results and, after each fix, the track: last time, T.
pub fn keep(
    inverse: bool,
    s: &[u8],
    list: &[f64],
    results: &mut [f64],
    track: &mut [f64],
) -> Result<(), Refusal>
    ensures { (result ≡ unless (keep_refusal_of s.now (kept_of list.now results.old track.old)) tt)
        × (kept_of list.now results.new track.new
        ≡ keep_of inverse s.now (kept_of list.now results.old track.old)) }
{
    check(s, list.len(), results.len(), track.len())?;
    let step = step_in(inverse, s);
    stretch_flat::fresh(step.shift, step.reversed, list, results, track);
    Ok(())
}

// Corrects one fix: writes it into the list and redoes from there until the carried state equals
// the kept one, else to the end.
pub fn correct(
    inverse: bool,
    s: &[u8],
    list: &mut [f64],
    results: &mut [f64],
    track: &mut [f64],
    index: usize,
    fix: Tuple,
) -> Result<u64, Refusal>
    ensures { (result ≡ redone_in (correct_of inverse s.now (kept_of list.old results.old track.old) index fix).answer)
        × (kept_of list.new results.new track.new
        ≡ (correct_of inverse s.now (kept_of list.old results.old track.old) index fix).kept) }
{
    check(s, list.len(), results.len(), track.len())?;
    if index_broken(list.len(), index) {
        return Err(Refusal::of_call(14)); // a refused call redoes nothing
    }
    let step = step_in(inverse, s);
    let n = stretch_flat::put_right(step.shift, step.reversed, list, results, track, index, fix);
    Ok(n as u64)
}
