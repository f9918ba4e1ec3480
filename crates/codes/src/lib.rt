// How an answer is handed to C.
//
// A result of 0 is done; otherwise it is the refusal's number plus 65536 times the step. Counts go
// out as 32 bits each; none that the chain gives is over 2,048, so that none loses a bit
// (proofs/Counts.antt). Exact: nothing is rounded. Used by the crates of entries.
#![tactic(auto)]

ghost use Rattle.std.specs.Prelude.{◌≡◌};
ghost use Rattle.codes.specs.Codes.{code_of, code_in, narrow_of};

use sheet::Refusal;

// A refusal as one word.
pub fn code(r: Refusal) -> u32
    ensures { result ≡ code_of r }
{
    r.number % 65536 + r.step % 65536 * 65536
}

// What a call that hands out no value answers, as one word.
pub fn answer(done: Result<(), Refusal>) -> u32
    ensures { result ≡ code_in done }
{
    match done {
        Ok(()) => 0,
        Err(refusal) => code(refusal),
    }
}

// Counts as C gets them, the lower 32 bits of each.
pub fn narrow(counts: [usize; 16]) -> [u32; 16]
    ensures { result ≡ narrow_of counts }
{
    let mut out = [0u32; 16];
    for i in 0..16 {
        out[i] = (counts[i] % 4294967296) as u32;
    }
    out
}
