// What a step tells of a list: how many tuples it counted, and how many met an angle out of reach of
// sine and cosine.
//
// Document 02, A5: "every step that uses them reports, beside its count, how many tuples met it". A
// tally is both numbers, so that what is said of one step's count, in parts of a list or in the
// sheet's sixteen places, is said once for both. Exact: whole numbers. Proved: the two readers give
// the numbers of each place. Used by the windows, the chain and the thin entries, and by whoever
// hands the numbers on.
#![tactic(auto)]

ghost use Rattle.std.specs.Prelude.{◌≡◌};
ghost use Rattle.tally.specs.Tallies.{no_tally, counts_of, mets_of};

#[derive(Clone, Copy)]
pub struct Tally {
    pub count: usize,
    pub met: usize,
}

// No tuple.
pub fn none() -> Tally
    ensures { result ≡ no_tally }
{
    Tally { count: 0, met: 0 }
}

// The counts of sixteen steps.
pub fn counts(tallies: [Tally; 16]) -> [usize; 16]
    ensures { result ≡ counts_of tallies }
{
    tallies.map(|tally| tally.count)
}

// How many tuples met such an angle in each of sixteen steps.
pub fn mets(tallies: [Tally; 16]) -> [usize; 16]
    ensures { result ≡ mets_of tallies }
{
    tallies.map(|tally| tally.met)
}
