// Making a sheet step by step, in lent room.
//
// A box-builder has bytes and no record: each call takes the sheet that stands at the room's start,
// or nothing yet, and puts one step more at its end. The record is the reader's (`sheet::read`),
// the rules are the reader's and the writer's, and the bytes are the writer's
// (`sheet_writer::write`); nothing here places a byte. What is answered and what the room holds
// afterwards is specs/Adding.antt's for every input (proved). Proved besides: an accepted result is
// a sheet that `sheet::check` accepts, and steps added one after another to nothing give the bytes
// that the writer gives for the record of those steps. No rounding:
// every bit of every number stays. A sheet's record is 4 kB, so this is for whoever makes a sheet,
// not for whoever runs one. Used by the exported library.
#![tactic(auto)]

ghost use Rattle.std.specs.Prelude.{◌≡◌, ◌≤◌, length};
ghost use Rattle.sheet.specs.Layout.{total_length_of};
ghost use Rattle.sheet.specs.Rules.{unless};
ghost use Rattle.sheet_writer.specs.Rules.{writer_refusal_of, room_after_of};
ghost use Rattle.making.specs.Adding.{standing_of, with_step_of, added_of};

use bodies::Step;
use sheet::{Entry, Refusal, Sheet};

// What stands in the room's first `len` bytes; of length 0 the record with no step.
fn standing(room: &[u8], len: usize) -> Result<Sheet, Refusal>
    ensures { let r = standing_of room.now len in result ≡ unless r.refusal r.sheet }
{
    if len == 0 {
        return Ok(Sheet::blank());
    }
    if room.len() < len {
        return Err(Refusal::of_call(1));
    }
    sheet::read(&room[..len])
}

// The record with one step more, at the end.
fn with_step(sheet: Sheet, inverted: u32, step: Step) -> Sheet
    requires { sheet.count ≤ 16 }
    ensures { result ≡ with_step_of sheet inverted step }
{
    let n = sheet.count;
    let mut entries = sheet.entries;
    if n < 16 {
        entries[n as usize] = Entry {
            inverted: inverted,
            step: step,
        };
    }
    Sheet {
        count: n + 1,
        entries: entries,
    }
}

// Writes the record, and answers with its length.
fn written(sheet: Sheet, room: &mut [u8]) -> Result<usize, Refusal>
    ensures { let after = room_after_of sheet room.old in
        (result ≡ unless (writer_refusal_of sheet (length room.old)) (total_length_of after)) × (room.new ≡ after) }
{
    sheet_writer::write(sheet, room)?;
    Ok(words::wide(words::read32(room, 4)))
}

// Adds a step at the end of the sheet that stands in the room's first `len` bytes, 0 for none yet,
// and answers with the sheet's new length. On refusal the room holds what it held.
pub fn add(room: &mut [u8], len: usize, inverted: u32, step: Step) -> Result<usize, Refusal>
    ensures { let o = added_of room.old len inverted step in
        (result ≡ unless o.answer.refusal o.answer.length) × (room.new ≡ o.room) }
{
    // A `match`, since `?` copies the record of 4 kB once more.
    match standing(room, len) {
        Ok(sheet) => written(with_step(sheet, inverted, step), room),
        Err(refusal) => Err(refusal),
    }
}
