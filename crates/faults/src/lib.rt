// Where a sheet breaks rule 4: the byte at which the first word stands that is outside its rule.
//
// Rule 4 is of the sheet as a whole and answered with step 0; a fitter wants the place. The words
// are asked in the order of rule 4's own text: the directory offset, the step count of a directory
// outside the sheet, then entry by entry its kind, inverted word, body length and body offset, and
// last the total length at which the bodies do not end. Proved of every sheet that breaks rule 4
// and keeps those before it: the byte named is that of the first word outside its rule, and the
// sheet has that word (`fault_in_the_directory`). Used by `show`.
#![tactic(auto)]

ghost use Rattle.std.specs.Prelude.{◌≡◌, ◌+◌, ◌<◌, ◌≤◌, IfSome};
ghost use Rattle.sheet.specs.Layout.{step_count_of};
ghost use Rattle.sheet.specs.Rules.{end_before};
ghost use Rattle.faults.specs.Faults.{entry_fault, some_fault, first_fault, fault_of};

use sheet::HEADER;

// How far into entry i its word outside its rule stands. The body before the entry ends at `end`.
fn entry_fault(s: &[u8], i: usize, end: usize) -> Option<usize>
    requires { end ≡ end_before s.now i }
    ensures fault { result ≡ some_fault (entry_fault s.now i) }
    ensures within { IfSome result (λ k. k < 16) }
{
    let length = bodies::length_of(sheet::kind_at(s, i));
    if length == 0 {
        return Some(0);
    }
    if 1 < sheet::inverted_at(s, i) {
        return Some(4);
    }
    if sheet::length_at(s, i) != length {
        return Some(12);
    }
    if words::wide(sheet::offset_at(s, i)) != end {
        return Some(8);
    }
    None
}

fn first_fault(s: &[u8], n: usize) -> usize
    requires { (n ≤ 16) × (n ≡ step_count_of s.now) }
    ensures { (result ≡ first_fault s.now n 0) × (result < 4294967296) }
{
    let mut end = sheet::directory_end(words::read32(s, 8));
    for i in 0..n {
        if let Some(fault) = entry_fault(s, i, end) {
            return sheet::entry_offset(i as u32) + fault;
        }
        end = sheet::end_at(s, i);
    }
    4
}

// The place of the fault that rule 4 found.
pub fn fault(s: &[u8]) -> usize
    ensures { (result ≡ fault_of s.now) × (result < 4294967296) }
{
    if words::wide(words::read32(s, 12)) != HEADER {
        return 12;
    }
    let n = sheet::step_count(s);
    if 16 < n {
        return 8;
    }
    if s.len() < sheet::directory_end(words::read32(s, 8)) {
        return 8;
    }
    first_fault(s, n)
}
