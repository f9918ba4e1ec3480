// The sheet: the bytes by which two boxes hand each other their parameters, read where they lie.
//
// The layout and the rules are document 01's, "The sheet" and "Numbers of refusal". Every refusal
// is one named definition under its number in specs/Rules.antt, and the order in which they are
// asked stands there once. Every function answers for every input exactly as its definition says
// (proved). What is proved of whole sheets read and written again stands in sheet_writer. `check`
// and `entry_at` leave the sheet where it lies and decode one body at a time: whoever runs a sheet
// uses these. `read` is for whoever makes, keeps or hands on a record; it is 4 kB, so pass it on
// once.
#![tactic(auto)]

ghost use Rattle.std.specs.Prelude.{◌≡◌, ◌+◌, ◌*◌, ◌<◌, ◌≤◌, length, take, drop};
ghost use Rattle.words.specs.Words.{word32};
ghost use Rattle.sheet.specs.Layout.{step_count_of, entry_offset, directory_end, kind_at, inverted_at, offset_at, length_at, body_at, step_at, blank_entry, blank_sheet, entry_at, record_of};
ghost use Rattle.sheet.specs.Rules.{refusal1, refusal3, refusal4, refusal5_at, end_before, place_broken, of_call, of_index, rules_of_step, five_to_eight, elevens, accepted, first_broken, refusal_of, unless};

use bodies::Step;

// ----- records ---------------------------------------------------------------------------

// A step and whether it is turned round: 0 or 1.
#[derive(Clone, Copy)]
pub struct Entry {
    pub inverted: u32,
    pub step: Step,
}

// The entries past the count read as blank cart steps and are never compared.
#[derive(Clone, Copy)]
pub struct Sheet {
    pub count: u32,
    pub entries: [Entry; 16],
}

// A refusal's number and its step, from 1; step 0 is the call as a whole. A rule keeps its number:
// documents 01 and 02, the C interface and every theorem speak of it by that number.
#[derive(Clone, Copy, PartialEq, Eq, Debug)]
pub struct Refusal {
    pub number: u32,
    pub step: u32,
}

impl Entry {
    // A blank cart step, forward.
    pub fn blank() -> Self
        ensures { result ≡ blank_entry }
    {
        let step = bodies::blank_step();
        Entry {
            inverted: 0,
            step: step,
        }
    }
}

impl Sheet {
    // No step: refused by 3 until it has one.
    pub fn blank() -> Self
        ensures { result ≡ blank_sheet }
    {
        let blank = Entry::blank();
        let entries = [blank; 16];
        Sheet {
            count: 0,
            entries: entries,
        }
    }
}

impl Refusal {
    // No refusal: number 0, as the definitions and the C interface write it. A function that may
    // refuse answers with a `Result` instead.
    pub fn none() -> Self
        ensures { result ≡ accepted }
    {
        Refusal { number: 0, step: 0 }
    }

    // Of the call as a whole.
    pub fn of_call(number: u32) -> Self
        ensures { result ≡ of_call number }
    {
        Refusal {
            number: number,
            step: 0,
        }
    }

    // Of the step at index i. No sheet has a step at an index past 15: there it is of the call.
    pub fn of_step(number: u32, i: usize) -> Self
        ensures { result ≡ of_index number i }
    {
        if i < 16 {
            return Refusal {
                number: number,
                step: (i + 1) as u32,
            };
        }
        Refusal::of_call(number)
    }
}

// ----- where a sheet has what --------------------------------------------------------------

// The bytes before the directory.
pub const HEADER: usize = 16;

// How many steps the header counts.
pub fn step_count(s: &[u8]) -> usize
    ensures { (result ≡ step_count_of s.now) × (result < 4294967296) }
{
    words::wide(words::read32(s, 8))
}

// Where the directory entry of the step at index i begins: after the header, 16 bytes an entry.
fn offset_of(i: usize) -> usize
    requires { i < 1152921504606846975 }
    ensures { result ≡ entry_offset i }
{
    HEADER + 16 * i
}

pub fn entry_offset(i: u32) -> usize
    ensures { (result ≡ entry_offset i) × (result < 68719476752) }
{
    offset_of(words::wide(i))
}

// Where the directory of n steps ends, and the first body begins.
pub fn directory_end(n: u32) -> usize
    ensures { (result ≡ directory_end n) × (result < 68719476752) }
{
    entry_offset(n)
}

// The word that stands k bytes into the directory entry of the step at index i; 0 past the sheet's
// end. Of an entry that the sheet has whole it is one load.
fn entry_word(s: &[u8], i: usize, k: usize) -> u32
    requires { k ≤ 12 }
    ensures { result ≡ word32 s.now (entry_offset i + k) }
{
    if s.len() / 16 <= i {
        return 0;
    }
    let start = offset_of(i);
    let rest = &s[start..];
    if 16 <= rest.len() {
        return words::read32(&rest[..16], k);
    }
    words::read32(rest, k)
}

pub fn kind_at(s: &[u8], i: usize) -> u32
    ensures { result ≡ kind_at s.now i }
{
    entry_word(s, i, 0)
}

pub fn inverted_at(s: &[u8], i: usize) -> u32
    ensures { result ≡ inverted_at s.now i }
{
    entry_word(s, i, 4)
}

pub fn offset_at(s: &[u8], i: usize) -> u32
    ensures { result ≡ offset_at s.now i }
{
    entry_word(s, i, 8)
}

pub fn length_at(s: &[u8], i: usize) -> u32
    ensures { result ≡ length_at s.now i }
{
    entry_word(s, i, 12)
}

// Where the body of the step at index i ends.
pub fn end_at(s: &[u8], i: usize) -> usize
    ensures { result ≡ end_before s.now (i + 1) }
{
    words::wide(offset_at(s, i)) + words::wide(length_at(s, i))
}

// The part of a sheet that starts at `offset` and is `length` long, as far as the sheet has it.
fn part(s: &[u8], offset: usize, length: usize) -> &[u8]
    ensures { result.now ≡ take length (drop offset s.now) }
{
    if s.len() <= offset {
        return &s[0..0];
    }
    if s.len() - offset <= length {
        return &s[offset..];
    }
    let end = offset + length;
    &s[offset..end]
}

// The body of the step at index i, where its directory entry says.
pub fn body_at(s: &[u8], i: usize) -> &[u8]
    ensures { result.now ≡ body_at s.now i }
{
    let offset = words::wide(offset_at(s, i));
    let length = words::wide(length_at(s, i));
    part(s, offset, length)
}

// The step at index i, decoded from its body where it lies; past the step count a blank cart step.
pub fn entry_at(s: &[u8], i: usize) -> Entry
    ensures { result ≡ entry_at s.now i }
{
    if i < step_count(s) {
        let step = bodies::read_body(kind_at(s, i), body_at(s, i));
        return Entry {
            inverted: inverted_at(s, i),
            step: step,
        };
    }
    Entry::blank()
}

// ----- the rules of a sheet ------------------------------------------------------------------

// Rule 1: the length.
fn length_broken(s: &[u8]) -> bool
    ensures { result ≡ refusal1 s.now }
{
    (s.len() < HEADER) | (4240 < s.len()) | (words::wide(words::read32(s, 4)) != s.len())
}

// Rule 3: the step count.
pub fn count_broken(n: usize) -> bool
    ensures { result ≡ refusal3 n }
{
    (n == 0) | (16 < n)
}

// A place of the directory, the body before it ending at `end`.
fn place_broken(s: &[u8], i: usize, end: usize) -> bool
    requires { end ≡ end_before s.now i }
    ensures { result ≡ place_broken s.now i }
{
    let length = bodies::length_of(kind_at(s, i));
    (length == 0)
        | (1 < inverted_at(s, i))
        | (length_at(s, i) != length)
        | (words::wide(offset_at(s, i)) != end)
}

// Rule 4: the directory.
fn directory_broken(s: &[u8], n: usize) -> bool
    requires { n ≡ step_count_of s.now }
    ensures { result ≡ refusal4 s.now }
{
    if words::wide(words::read32(s, 12)) != HEADER {
        return true;
    }
    let mut end = directory_end(words::read32(s, 8));
    if s.len() < end {
        return true;
    }
    for i in 0..n {
        if place_broken(s, i, end) {
            return true;
        }
        end = end_at(s, i);
    }
    end != words::wide(words::read32(s, 4))
}

// Rules 5 to 8 of the step at index i of a sheet.
fn check_body(s: &[u8], i: usize) -> Result<(), Refusal>
    requires { i < 16 }
    ensures { result ≡ unless (first_broken (rules_of_step i (refusal5_at s.now i) (step_at s.now i))) tt }
{
    match bodies::lowest_broken(kind_at(s, i), body_at(s, i)) {
        Some(number) => Err(Refusal::of_step(number, i)),
        None => Ok(()),
    }
}

// Step by step 5 to 8.
fn check_bodies(s: &[u8], n: usize) -> Result<(), Refusal>
    requires { n ≤ 16 }
    ensures { result ≡ unless (first_broken (five_to_eight (refusal5_at s.now) (step_at s.now) n 0)) tt }
{
    for i in 0..n {
        check_body(s, i)?;
    }
    Ok(())
}

// Rule 11: a second deformation step.
fn check_kinds(s: &[u8], n: usize) -> Result<(), Refusal>
    requires { n ≤ 16 }
    ensures { result ≡ unless (first_broken (elevens (kind_at s.now) n 0)) tt }
{
    let mut before = false;
    for i in 0..n {
        let deformation = kind_at(s, i) == 5;
        if deformation & before {
            return Err(Refusal::of_step(11, i));
        }
        before |= deformation;
    }
    Ok(())
}

// The first rule that a sheet breaks, in the document's order.
pub fn check(s: &[u8]) -> Result<(), Refusal>
    ensures { result ≡ unless (refusal_of s.now) tt }
{
    if length_broken(s) {
        return Err(Refusal::of_call(1));
    }
    if words::read32(s, 0) != 1 {
        return Err(Refusal::of_call(2));
    }
    let n = step_count(s);
    if count_broken(n) {
        return Err(Refusal::of_call(3));
    }
    if directory_broken(s, n) {
        return Err(Refusal::of_call(4));
    }
    check_bodies(s, n)?;
    check_kinds(s, n)
}

// ----- the reader ------------------------------------------------------------------------------

fn record(s: &[u8], n: usize) -> Sheet
    requires { (n ≤ 16) × (n ≡ step_count_of s.now) }
    ensures { result ≡ record_of s.now }
{
    let blank = Entry::blank();
    let mut entries = [blank; 16];
    for i in 0..n {
        entries[i] = entry_at(s, i);
    }
    Sheet {
        count: words::read32(s, 8),
        entries: entries,
    }
}

// The record, or the refusal.
pub fn read(s: &[u8]) -> Result<Sheet, Refusal>
    ensures { result ≡ unless (refusal_of s.now) (record_of s.now) }
{
    check(s)?;
    Ok(record(s, step_count(s)))
}
