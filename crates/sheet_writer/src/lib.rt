// The sheet's writer: a record's rules, and its bytes written into lent room.
//
// The layout and the rules are document 01's, "The sheet" and "Numbers of refusal"; the writer's
// order of refusals stands in specs/Rules.antt once, the bytes in specs/Bytes.antt. Every function
// answers for every input exactly as its definition says (proved). Proved besides, over whole
// sheets of any kinds: what is read and written again is the same bytes, what is written and read
// is the same record, and no two sheets read alike. Exact: no number changes. A record is 4 kB, so
// pass it on once. Used by whoever makes a sheet, and by the chain over a record that is already
// read.
#![tactic(auto)]

ghost use Rattle.std.specs.Prelude.{◌≡◌, ◌+◌, ◌<◌, ◌≤◌, length, ◌++◌};
ghost use Rattle.words.specs.Words.{le32, put};
ghost use Rattle.body_writer.specs.Write.{bytes_of};
ghost use Rattle.sheet.specs.Layout.{entry_offset, directory_end, entry_of, step_in, kind_in};
ghost use Rattle.sheet_writer.specs.Bytes.{length_in, body_start, sheet_length, place_bytes, directory_bytes, bodies_bytes, sheet_bytes_of};
ghost use Rattle.sheet.specs.Rules.{some_from, rules_of_step, five_to_eight, elevens, first_broken, unless};
ghost use Rattle.sheet_writer.specs.Rules.{record_refusal5, inverted_broken_in, writer_refusal_of, room_after_of};

use bodies::Step;
use sheet::{Entry, HEADER, Refusal, Sheet};

// ----- the rules of a record ---------------------------------------------------------------------

// Rules 5 to 8 of one step, `five` being whether it breaks 5.
fn check_step(i: usize, five: bool, step: Step) -> Result<(), Refusal>
    requires { i < 16 }
    ensures { result ≡ unless (first_broken (rules_of_step i five step)) tt }
{
    if five {
        return Err(Refusal::of_step(5, i));
    }
    if bodies::lacks_convention(step) {
        return Err(Refusal::of_step(6, i));
    }
    if bodies::lacks_epoch(step) {
        return Err(Refusal::of_step(7, i));
    }
    if bodies::lacks_duration(step) {
        return Err(Refusal::of_step(8, i));
    }
    Ok(())
}

// The entry at index i.
fn entry_in(sheet: Sheet, i: usize) -> Entry
    requires { i < 16 }
    ensures { result ≡ entry_of sheet i }
{
    sheet.entries[i]
}

// Rule 4 of a record: the inverted words.
fn inverted_broken(sheet: Sheet, n: usize) -> bool
    requires { n ≤ 16 }
    ensures { result ≡ some_from (inverted_broken_in sheet) n 0 }
{
    for i in 0..n {
        if 1 < entry_in(sheet, i).inverted {
            return true;
        }
    }
    false
}

// Rules 5 to 8 of the step at index i of a record.
fn check_entry(sheet: Sheet, i: usize) -> Result<(), Refusal>
    requires { i < 16 }
    ensures { result ≡ unless (first_broken (rules_of_step i (record_refusal5 sheet i) (step_in sheet i))) tt }
{
    let step = entry_in(sheet, i).step;
    check_step(i, !bodies::step_in_rule(step), step)
}

// Step by step 5 to 8.
fn check_entries(sheet: Sheet, n: usize) -> Result<(), Refusal>
    requires { n ≤ 16 }
    ensures { result ≡ unless (first_broken (five_to_eight (record_refusal5 sheet) (step_in sheet) n 0)) tt }
{
    for i in 0..n {
        check_entry(sheet, i)?;
    }
    Ok(())
}

fn kind_in(sheet: Sheet, i: usize) -> u32
    requires { i < 16 }
    ensures { result ≡ kind_in sheet i }
{
    bodies::kind_of(entry_in(sheet, i).step)
}

// Rule 11 of a record: a second deformation step. The same walk over bytes is `check_kinds` of
// sheet: one function for both would take the kind as a closure, and its clauses are longer than
// the loop.
fn check_steps(sheet: Sheet, n: usize) -> Result<(), Refusal>
    requires { n ≤ 16 }
    ensures { result ≡ unless (first_broken (elevens (kind_in sheet) n 0)) tt }
{
    let mut before = false;
    for i in 0..n {
        let deformation = kind_in(sheet, i) == 5;
        if deformation & before {
            return Err(Refusal::of_step(11, i));
        }
        before |= deformation;
    }
    Ok(())
}

// The length of the body of the step at index i.
fn length_in(sheet: Sheet, i: usize) -> usize
    requires { i < 16 }
    ensures { (result ≡ length_in sheet i) × (result ≤ 248) }
{
    words::wide(bodies::length_of(kind_in(sheet, i)))
}

// Where the last body ends.
fn sheet_length(sheet: Sheet, n: usize) -> usize
    requires { (n ≤ 16) × (n ≡ sheet.count) }
    ensures { (result ≡ sheet_length sheet) × (result ≤ 4240) }
{
    let mut end = sheet::directory_end(sheet.count);
    for i in 0..n {
        end += length_in(sheet, i);
    }
    end
}

// The first rule that a record breaks, in the writer's order.
pub fn check_record(sheet: Sheet, room: usize) -> Result<(), Refusal>
    ensures { result ≡ unless (writer_refusal_of sheet room) tt }
{
    let n = words::wide(sheet.count);
    if sheet::count_broken(n) {
        return Err(Refusal::of_call(3));
    }
    if inverted_broken(sheet, n) {
        return Err(Refusal::of_call(4));
    }
    check_entries(sheet, n)?;
    check_steps(sheet, n)?;
    if room < sheet_length(sheet, n) {
        return Err(Refusal::of_call(15));
    }
    Ok(())
}

// ----- the writer ------------------------------------------------------------------------------

// Four words: the header, or a place of the directory. rescue has these lines too: a public function
// asks nothing of its caller, so one for both would test again what both have proved.
fn put_words(room: &mut [u8], at: usize, a: u32, b: u32, c: u32, d: u32)
    requires { at + 16 ≤ length room.old }
    ensures { room.new ≡ put room.old at (le32 a ++ le32 b ++ le32 c ++ le32 d) }
{
    words::put32(room, at, a);
    words::put32(room, at + 4, b);
    words::put32(room, at + 8, c);
    words::put32(room, at + 12, d);
}

// The place of the step at index i, its body starting at `start`.
fn put_place(room: &mut [u8], sheet: Sheet, i: usize, start: usize)
    requires { (i < 16) × ((start ≡ body_start sheet i) × ((start ≤ 4240) × (entry_offset i + 16 ≤ length room.old))) }
    ensures { room.new ≡ put room.old (entry_offset i) (place_bytes sheet i) }
{
    let entry = entry_in(sheet, i);
    let kind = kind_in(sheet, i);
    put_words(
        room,
        sheet::entry_offset(i as u32),
        kind,
        entry.inverted,
        start as u32,
        bodies::length_of(kind),
    );
}

fn put_directory(room: &mut [u8], sheet: Sheet, n: usize)
    requires { (n ≤ 16) × ((n ≡ sheet.count) × (directory_end n ≤ length room.old)) }
    ensures { room.new ≡ put room.old 16 (directory_bytes sheet n) }
{
    let mut start = sheet::directory_end(sheet.count);
    for i in 0..n {
        put_place(room, sheet, i, start);
        start += length_in(sheet, i);
    }
}

fn put_body(room: &mut [u8], sheet: Sheet, i: usize, start: usize)
    requires { (i < 16) × (start + length_in sheet i ≤ length room.old) }
    ensures { room.new ≡ put room.old start (bytes_of (step_in sheet i)) }
{
    body_writer::write_body(room, start, entry_in(sheet, i).step);
}

fn put_bodies(room: &mut [u8], sheet: Sheet, n: usize)
    requires { (n ≤ 16) × ((n ≡ sheet.count) × (sheet_length sheet ≤ length room.old)) }
    ensures { room.new ≡ put room.old (directory_end n) (bodies_bytes sheet n) }
{
    let mut start = sheet::directory_end(sheet.count);
    for i in 0..n {
        put_body(room, sheet, i, start);
        start += length_in(sheet, i);
    }
}

fn put_sheet(room: &mut [u8], sheet: Sheet)
    requires { (sheet.count ≤ 16) × (sheet_length sheet ≤ length room.old) }
    ensures { room.new ≡ put room.old 0 (sheet_bytes_of sheet) }
{
    let n = words::wide(sheet.count);
    let total = sheet_length(sheet, n);
    put_words(room, 0, 1, total as u32, sheet.count, HEADER as u32);
    put_directory(room, sheet, n);
    put_bodies(room, sheet, n);
}

// Writes the sheet's bytes at the room's start and nothing after them. On refusal the room holds
// what it held.
pub fn write(sheet: Sheet, room: &mut [u8]) -> Result<(), Refusal>
    ensures { (result ≡ unless (writer_refusal_of sheet (length room.old)) tt) × (room.new ≡ room_after_of sheet room.old) }
{
    check_record(sheet, room.len())?;
    put_sheet(room, sheet);
    Ok(())
}
