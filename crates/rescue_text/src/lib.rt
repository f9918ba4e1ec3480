// A rescue in words, for whoever mends a sheet: each word changed by its name, with the old number
// and the new one, and the mended sheet with every field; or the refusal.
//
// The text is fixed byte by byte by specs/RescueText.antt, for every damaged sheet and rooms of any
// length (proved). Words have the names by which `show` shows them, and the mended sheet is shown
// by `show` itself. Used by the program sheet_rescue.
#![tactic(auto)]

ghost use Rattle.std.specs.Prelude.{◌≡◌, cond, eqb, ◌*◌, ◌≤◌, length};
ghost use Rattle.text.specs.Text.{text, appended};
ghost use Rattle.text.specs.Digits.{decimal_of};
ghost use Rattle.rescue.specs.Changes.{change_of};
ghost use Rattle.rescue.specs.Rules.{rescue_refusal_of, rescue_of};
ghost use Rattle.rescue_text.specs.RescueText.{header_name, entry_name, word_name, change_line, lines_from, rescued_around, refusal_words, refused_text, rescue_text};

// ----- a word by its place --------------------------------------------------------------------

fn header_name(place: u32) -> &'static [u8]
    ensures { result.now ≡ header_name place }
{
    match place {
        0 => b"form",
        4 => b"total length",
        8 => b"step count",
        _ => b"directory offset",
    }
}

fn entry_name(k: u32) -> &'static [u8]
    ensures { result.now ≡ entry_name k }
{
    match k {
        0 => b"kind",
        4 => b"inverted",
        8 => b"body offset",
        _ => b"body length",
    }
}

fn put_name(room: &mut [u8], at: usize, place: u32) -> usize
    ensures { text room.new result ≡ appended (text room.old at) (word_name place) }
{
    if place < 16 {
        return text::put_bytes(room, at, header_name(place));
    }
    let p = text::put_bytes(room, at, b"step ");
    let q = text::put_u32(room, p, place / 16);
    let r = text::put_bytes(room, q, b", ");
    text::put_bytes(room, r, entry_name(place % 16))
}

// ----- the changes ----------------------------------------------------------------------------

fn put_change(room: &mut [u8], at: usize, place: u32, old: u32, new: u32) -> usize
    ensures { text room.new result ≡ appended (text room.old at) (change_line (change_of place old new)) }
{
    let p = put_name(room, at, place);
    let q = text::put_bytes(room, p, b": ");
    let r = text::put_u32(room, q, old);
    let t = text::put_bytes(room, r, b" is ");
    let u = text::put_u32(room, t, new);
    text::put_bytes(room, u, b"\n")
}

fn put_changes(room: &mut [u8], at: usize, list: &[u32], n: usize) -> usize
    requires { 3 * n ≤ length list.now }
    ensures { text room.new result ≡ appended (text room.old at) (lines_from list.now n 0) }
{
    let mut p = text::put_bytes(room, at, b"");
    for i in 0..n {
        p = put_change(room, p, list[3 * i], list[3 * i + 1], list[3 * i + 2]);
    }
    p
}

fn put_rescued(room: &mut [u8], at: usize, list: &[u32], n: usize, sheet: &[u8]) -> usize
    requires { 3 * n ≤ length list.now }
    ensures { text room.new result ≡ appended (text room.old at) (rescued_around n (lines_from list.now n 0) sheet.now) }
{
    let p = text::put_bytes(room, at, b"words changed: ");
    let q = text::put_decimal(room, p, words::long(n));
    let r = text::put_bytes(room, q, b"\n");
    let t = put_changes(room, r, list, n);
    let u = text::put_bytes(room, t, b"the sheet\n");
    show::put_sheet(room, u, sheet)
}

// ----- a refusal ------------------------------------------------------------------------------

fn refusal_words(number: u32) -> &'static [u8]
    ensures { result.now ≡ refusal_words number }
{
    match number {
        15 => b"room or list too short\n",
        19 =>
            b"cannot be rebuilt: fewer than 16 bytes, step count 0 or over 16, a directory past the end, a kind or inverted word outside its rule, or bodies that do not fill the remaining bytes exactly\n",
        _ => show::rule_words(number),
    }
}

fn put_refused(room: &mut [u8], at: usize, number: u32, step: u32) -> usize
    ensures { text room.new result ≡ appended (text room.old at) (refused_text number step) }
{
    show::put_refusal(room, at, number, step, refusal_words(number))
}

// ----- a rescue -------------------------------------------------------------------------------

// Rescues the damaged sheet s by the rescue's room and list, and writes its text at `room`'s start.
pub fn answer(s: &[u8], sheet: &mut [u8], list: &mut [u32], room: &mut [u8]) -> usize
    ensures { text room.new result ≡ appended (text room.old 0) (rescue_text s.now (length sheet.old) (length list.old)) }
{
    match rescue::rescue(s, sheet, list) {
        Ok(changed) => {
            let n = s.len();
            put_rescued(room, 0, list, changed, &sheet[..n])
        }
        Err(refusal) => put_refused(room, 0, refusal.number, refusal.step),
    }
}

// Rescues the damaged sheet s and answers how long the mended sheet is; refused, 0.
pub fn mend(s: &[u8], sheet: &mut [u8], list: &mut [u32]) -> usize
    ensures { (result ≡ cond (eqb (rescue_refusal_of s.now (length sheet.old) (length list.old)).number 0) (length s.now) 0)
        × ((result ≤ length sheet.new) × (sheet.new ≡ (rescue_of s.now sheet.old list.old).room)) }
{
    match rescue::rescue(s, sheet, list) {
        Ok(_) => s.len(),
        Err(_) => 0,
    }
}
