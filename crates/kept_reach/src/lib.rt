// The kept run and the correction of one fix, telling how many tuples met an angle out of reach.
//
// Document 02, A5: demand 3 includes the number, over the stretch. `keep_reach` and `correct_reach`
// call `kept`'s entries, which leave and answer what they did, and then count in one pass over what
// the call left: the whole list after a fresh run, which only reads it; after a correction the fixes
// that it redid, from the state before them, which the track holds and the correction does not
// write. Proved for every input: the answers and the lists are `kept`'s, the numbers those of
// specs/Reach.antt, zeros on refusal; and the number of a fresh run over a corrected list is the sum
// of what stands before, in and after the stretch (proofs/Sum.antt). No rounding but the step's own.
// Used by the entries that C and Rust call.
#![tactic(auto)]

ghost use Rattle.std.specs.Prelude.{◌≡◌};
ghost use Rattle.plans.specs.Passes.{tally_of};
ghost use Rattle.stretch.specs.Kept.{kept_of};
ghost use Rattle.sheet.specs.Rules.{unless};
ghost use Rattle.kept.specs.Entries.{keep_refusal_of, keep_of, correct_of};
ghost use Rattle.kept_reach.specs.Reach.{keep_tally_of, stretch_met_of, told_in, time_pass};

use blocks::one_if;
use helmert::{Shift, State};
use sheet::Refusal;
use stretch::{FlatRows, Rows};
use tally::Tally;
use tuple::Tuple;

// ----- a pass over a list ------------------------------------------------------------------------

// How many fixes of a list the step counts, and how many meet an angle out of reach, from the state
// that its first fix is met in. The list is read, flat or in columns, and no sine is taken.
pub fn pass<R: Rows>(shift: Shift, from: State, list: &R) -> Tally
    ensures { result ≡ tally_of (time_pass shift) 0 from (R.flat list.now) }
{
    let mut state = from;
    let mut count = 0;
    let mut met = 0;
    for i in 0..list.len() {
        let v = list.row(i);
        count += one_if(helmert::counted(shift, v));
        met += one_if(reach::helmert_met(shift, state, v));
        state = stretch::moved(shift, state, v.t);
    }
    Tally {
        count: count,
        met: met,
    }
}

// ----- the entries -------------------------------------------------------------------------------

// A fresh kept run, as `kept::keep`, and the step's tally.
pub fn keep_reach(
    inverse: bool,
    s: &[u8],
    list: &[f64],
    results: &mut [f64],
    track: &mut [f64],
) -> Result<Tally, Refusal>
    ensures { (result ≡ unless (keep_refusal_of s.now (kept_of list.now results.old track.old)) (keep_tally_of inverse s.now (kept_of list.now results.old track.old)))
        × (kept_of list.now results.new track.new
        ≡ keep_of inverse s.now (kept_of list.now results.old track.old)) }
{
    kept::keep(inverse, s, list, results, track)?;
    let shift = kept::step_in(inverse, s).shift;
    let start = helmert::start(shift);
    let tally = pass(shift, start, &FlatRows { list });
    Ok(tally)
}

// How many fixes a correction redid, and how many of them met an angle out of reach.
#[derive(Clone, Copy)]
pub struct CorrectedReach {
    pub redone: u64,
    pub met: u64,
}

// Corrects one fix, as `kept::correct`.
pub fn correct_reach(
    inverse: bool,
    s: &[u8],
    list: &mut [f64],
    results: &mut [f64],
    track: &mut [f64],
    index: usize,
    fix: Tuple,
) -> Result<CorrectedReach, Refusal>
    ensures { (result ≡ told_in (correct_of inverse s.now (kept_of list.old results.old track.old) index fix).answer (stretch_met_of inverse s.now (kept_of list.old results.old track.old) index fix))
        × (kept_of list.new results.new track.new
        ≡ (correct_of inverse s.now (kept_of list.old results.old track.old) index fix).kept) }
{
    let redone = kept::correct(inverse, s, list, results, track, index, fix)?;
    let shift = kept::step_in(inverse, s).shift;
    let from = stretch::before(shift, &FlatRows { list: track }, index);
    let a = 4 * index;
    let e = 4 * (index + redone as usize); // the stretch, and no more
    let fixes = FlatRows { list: &list[a..e] };
    let told = pass(shift, from, &fixes);
    Ok(CorrectedReach {
        redone,
        met: told.met as u64,
    })
}
