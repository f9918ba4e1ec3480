// The closure report: what a chain forward and then inverse leaves of lists of fixes, in sixteen
// numbers that two boxes can compare.
//
// Document 02, A14: "It gives the tuples seen, those with a NaN at start or end (counted only
// there), those restored bit for bit, and per coordinate the largest absolute difference as bits
// among the rest, with its list and index, the earliest on ties; a coordinate equal in bits differs
// by 0; with none left, 0 at list 0, index 0." A report rolls: a list is added to a report that
// holds what was seen before, and zeros are the empty one. specs/Report.antt has what a list adds,
// for every report and every two lists (proved). proofs/Laws.antt has that a report rolled from
// zeros tells what each sentence says (specs/Sentences.antt, which has no running report), and that
// any split into calls gives the same report. One rounding a coordinate, the difference. Used by
// the closure's entry and by who prints a report.
#![tactic(auto)]

ghost use Rattle.std.specs.Prelude.{◌≡◌, ◌+◌, ◌<◌};
ghost use Rattle.closure_report.specs.Report.{one_more, closing, lost_of, restored_of, difference_of, some_left, larger_of, lost_in, restored_in, left_in, seen_of, list_done, added_of, empty_report, numbers_of, report_of, largest_at};

use tuple::Tuple;

// The largest difference of a coordinate, as the bits of its absolute value, and where it stands.
#[derive(Clone, Copy, Default)]
pub struct Largest {
    pub bits: u64,
    pub list: u64,
    pub index: u64,
}

#[derive(Clone, Copy, Default)]
pub struct Report {
    pub lists: u64,
    pub tuples: u64,
    pub nans: u64,
    pub restored: u64,
    pub x: Largest,
    pub y: Largest,
    pub z: Largest,
    pub t: Largest,
}

// ----- one fix ---------------------------------------------------------------------------------

// One more, or 2^64 - 1 where that is reached.
fn one_more(n: u64) -> u64
    ensures { result ≡ one_more n }
{
    n.saturating_add(1)
}

fn is_lost(start: Tuple, end: Tuple) -> bool
    ensures { result ≡ lost_of start end }
{
    start.any_nan() | end.any_nan()
}

fn is_restored(start: Tuple, end: Tuple) -> bool
    ensures { result ≡ restored_of start end }
{
    floats::same(start.x, end.x)
        & floats::same(start.y, end.y)
        & floats::same(start.z, end.z)
        & floats::same(start.t, end.t)
}

fn difference(start: f64, end: f64) -> u64
    ensures { result ≡ difference_of start end }
{
    if floats::same(start, end) {
        0
    } else {
        floats::to_bits(floats::abs(end - start))
    }
}

// Whether a fix that is neither lost nor restored has been seen before.
fn some_left(r: Report) -> bool
    ensures { result ≡ some_left r }
{
    r.restored < r.tuples.saturating_sub(r.nans)
}

fn larger(some: bool, before: Largest, bits: u64, list: u64, index: u64) -> Largest
    ensures { result ≡ larger_of some before bits list index }
{
    if !some | (before.bits < bits) {
        Largest { bits, list, index }
    } else {
        before
    }
}

fn lost_in(r: Report) -> Report
    ensures { result ≡ lost_in r }
{
    Report {
        tuples: one_more(r.tuples),
        nans: one_more(r.nans),
        ..r
    }
}

fn restored_in(r: Report) -> Report
    ensures { result ≡ restored_in r }
{
    Report {
        tuples: one_more(r.tuples),
        restored: one_more(r.restored),
        ..r
    }
}

fn left_in(r: Report, list: u64, index: u64, start: Tuple, end: Tuple) -> Report
    ensures { result ≡ left_in r (closing list index start end) }
{
    let some = some_left(r);
    Report {
        tuples: one_more(r.tuples),
        x: larger(some, r.x, difference(start.x, end.x), list, index),
        y: larger(some, r.y, difference(start.y, end.y), list, index),
        z: larger(some, r.z, difference(start.z, end.z), list, index),
        t: larger(some, r.t, difference(start.t, end.t), list, index),
        ..r
    }
}

// A report with one fix more.
pub fn seen(r: Report, list: u64, index: u64, start: Tuple, end: Tuple) -> Report
    ensures { result ≡ seen_of r (closing list index start end) }
{
    if is_lost(start, end) {
        lost_in(r)
    } else if is_restored(start, end) {
        restored_in(r)
    } else {
        left_in(r, list, index, start, end)
    }
}

// ----- a list ----------------------------------------------------------------------------------

fn list_done(r: Report) -> Report
    ensures { result ≡ list_done r }
{
    Report {
        lists: one_more(r.lists),
        ..r
    }
}

// A report with one list more, as it was at the start and as it came back at the end.
pub fn add(report: Report, start: &[f64], end: &[f64]) -> Report
    ensures { result ≡ added_of report start.now end.now }
{
    let list = report.lists;
    let mut r = report;
    for i in 0..start.len() / 4 {
        r = seen(
            r,
            list,
            i as u64,
            lists::read4(start, 4 * i),
            lists::read4(end, 4 * i),
        );
    }
    list_done(r)
}

// ----- as sixteen numbers ----------------------------------------------------------------------

// The report that nothing has been added to.
pub fn empty() -> Report
    ensures { result ≡ empty_report }
{
    Report::default()
}

// lists, tuples, NaNs, restored; then bits, list and index of each coordinate. A function and no
// `From`: the name says what the array's numbers are, which the type [u64; 16] would not.
pub fn numbers(r: Report) -> [u64; 16]
    ensures { result ≡ numbers_of r }
{
    [
        r.lists, r.tuples, r.nans, r.restored, r.x.bits, r.x.list, r.x.index, r.y.bits, r.y.list, r
            .y
            .index, r.z.bits, r.z.list, r.z.index, r.t.bits, r.t.list, r.t.index,
    ]
}

// The largest difference whose three numbers stand from i on.
fn largest_at(l: &[u64; 16], i: usize) -> Largest
    requires { i + 2 < 16 }
    ensures { result ≡ largest_at l.now i }
{
    Largest {
        bits: l[i],
        list: l[i + 1],
        index: l[i + 2],
    }
}

// The report that sixteen numbers stand for; any numbers do.
pub fn of_numbers(l: &[u64; 16]) -> Report
    ensures { result ≡ report_of l.now }
{
    Report {
        lists: l[0],
        tuples: l[1],
        nans: l[2],
        restored: l[3],
        x: largest_at(l, 4),
        y: largest_at(l, 7),
        z: largest_at(l, 10),
        t: largest_at(l, 13),
    }
}
