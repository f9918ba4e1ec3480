// A sheet shown to whoever fits it: every field by its name and in its unit; or the refusal in
// words, with the step and the place.
//
// The text is fixed byte by byte by specs/Show.antt, for every sheet and a room of any length. A
// refused sheet's text has the rule in document 01's words. For a refusal of the sheet as a whole
// it has the byte of the word that the refusal is about, and the header, as far as the sheet has
// it. For a step's refusal it has the bytes of the directory entry and of the body, and the whole
// step as it is. Used by the program sheet_show, and its words of a rule by rescue_text.
#![tactic(auto)]

ghost use Rattle.std.specs.Prelude.{◌≡◌, ◌+◌, ◌-◌, ◌<◌, ◌≤◌, length};
ghost use Rattle.text.specs.Text.{text, appended};
ghost use Rattle.text.specs.Digits.{decimal_of};
ghost use Rattle.show.specs.Show.{line_of, head_line, head_text, entry_text, step_text, steps_text, accepted_text, rule_text, told_text, word_place, sheet_place, step_place, refused_text, show_text};

fn put_count(room: &mut [u8], at: usize, n: usize) -> usize
    ensures { text room.new result ≡ appended (text room.old at) (decimal_of n) }
{
    text::put_decimal(room, at, words::long(n))
}

fn put_line(room: &mut [u8], at: usize, name: &[u8], n: usize) -> usize
    ensures { text room.new result ≡ appended (text room.old at) (line_of name.now n) }
{
    let p = text::put_bytes(room, at, name);
    let q = put_count(room, p, n);
    text::put_bytes(room, q, b"\n")
}

fn put_word(room: &mut [u8], at: usize, name: &[u8], n: u32) -> usize
    ensures { text room.new result ≡ appended (text room.old at) (line_of name.now n) }
{
    put_line(room, at, name, words::wide(n))
}

// ----- the header -------------------------------------------------------------------------

// The word at an offset; of a sheet that is too short to have it, that it is missing.
fn put_head_word(room: &mut [u8], at: usize, name: &[u8], s: &[u8], offset: usize) -> usize
    requires { offset ≤ 12 }
    ensures { text room.new result ≡ appended (text room.old at) (head_line name.now s.now offset) }
{
    if s.len() < offset + 4 {
        let p = text::put_bytes(room, at, name);
        return text::put_bytes(room, p, b"missing\n");
    }
    put_word(room, at, name, words::read32(s, offset))
}

fn put_head(room: &mut [u8], at: usize, s: &[u8]) -> usize
    ensures { text room.new result ≡ appended (text room.old at) (head_text s.now) }
{
    let p = put_head_word(room, at, b"form: ", s, 0);
    let q = put_head_word(room, p, b"total length: ", s, 4);
    let r = put_head_word(room, q, b"step count: ", s, 8);
    put_head_word(room, r, b"directory offset: ", s, 12)
}

// ----- a step -----------------------------------------------------------------------------

fn put_entry(
    room: &mut [u8],
    at: usize,
    kind: u32,
    inverted: u32,
    offset: u32,
    length: u32,
) -> usize
    ensures { text room.new result ≡ appended (text room.old at) (entry_text kind inverted offset length) }
{
    let p = fields::put_kind(room, at, kind);
    let q = fields::put_inverted(room, p, inverted);
    let r = put_word(room, q, b"  body offset: ", offset);
    put_word(room, r, b"  body length: ", length)
}

fn put_step(room: &mut [u8], at: usize, s: &[u8], i: usize) -> usize
    requires { i < 4294967296 }
    ensures { text room.new result ≡ appended (text room.old at) (step_text s.now i) }
{
    let kind = sheet::kind_at(s, i);
    let inverted = sheet::inverted_at(s, i);
    let offset = sheet::offset_at(s, i);
    let length = sheet::length_at(s, i);
    let p = put_line(room, at, b"step ", i + 1);
    let q = put_entry(room, p, kind, inverted, offset, length);
    fields::put_fields(room, q, kind, s, offset)
}

fn put_steps(room: &mut [u8], at: usize, s: &[u8], n: usize) -> usize
    requires { n < 4294967296 }
    ensures { text room.new result ≡ appended (text room.old at) (steps_text s.now n 0) }
{
    let mut p = text::put_bytes(room, at, b"");
    for i in 0..n {
        p = put_step(room, p, s, i);
    }
    p
}

fn put_accepted(room: &mut [u8], at: usize, s: &[u8]) -> usize
    ensures { text room.new result ≡ appended (text room.old at) (accepted_text s.now) }
{
    let n = sheet::step_count(s);
    let p = put_head(room, at, s);
    put_steps(room, p, s, n)
}

// ----- a refusal --------------------------------------------------------------------------

// The rule in document 01's words.
pub fn rule_words(number: u32) -> &'static [u8]
    ensures { result.now ≡ rule_text number }
{
    match number {
        1 => b"fewer than 16 or more than 4,240 bytes, or total length differs\n",
        2 => b"form not 1\n",
        3 => b"step count 0 or over 16\n",
        4 =>
            b"directory offset not 16, a directory outside the sheet, a kind, inverted word or body length outside its rule, an offset not where the body before it ends, or bodies not ending at the total length\n",
        5 => b"a body field outside its rule\n",
        6 => b"rotated, convention none\n",
        7 => b"dynamic, t_epoch not given\n",
        8 => b"neither dt nor t_epoch\n",
        _ => b"second deformation step\n",
    }
}

pub fn put_rule(room: &mut [u8], at: usize, number: u32) -> usize
    ensures { text room.new result ≡ appended (text room.old at) (rule_text number) }
{
    text::put_bytes(room, at, rule_words(number))
}

// A refusal's number and step, and its rule in words.
pub fn put_refusal(room: &mut [u8], at: usize, number: u32, step: u32, words: &[u8]) -> usize
    ensures { text room.new result ≡ appended (text room.old at) (told_text number step words.now) }
{
    let p = text::put_bytes(room, at, b"refused ");
    let q = text::put_u32(room, p, number);
    let r = text::put_bytes(room, q, b" step ");
    let t = text::put_u32(room, r, step);
    let u = text::put_bytes(room, t, b": ");
    text::put_bytes(room, u, words)
}

// The byte of the word that a refusal of the sheet as a whole is about.
fn word_place(s: &[u8], number: u32) -> usize
    ensures { result ≡ word_place s.now number }
{
    match number {
        1 => 4,
        2 => 0,
        3 => 8,
        _ => faults::fault(s),
    }
}

fn put_sheet_place(room: &mut [u8], at: usize, s: &[u8], number: u32) -> usize
    ensures { text room.new result ≡ appended (text room.old at) (sheet_place s.now number) }
{
    let place = word_place(s, number);
    let p = put_line(room, at, b"place: byte ", place);
    let q = put_line(room, p, b"bytes: ", s.len());
    put_head(room, q, s)
}

fn put_step_place(room: &mut [u8], at: usize, s: &[u8], i: u32) -> usize
    ensures { text room.new result ≡ appended (text room.old at) (step_place s.now i) }
{
    let index = words::wide(i);
    let entry = sheet::entry_offset(i);
    let body = sheet::offset_at(s, index);
    let p = put_line(room, at, b"place: directory entry at byte ", entry);
    let q = put_word(room, p, b"place: body at byte ", body);
    put_step(room, q, s, index)
}

fn put_refused(room: &mut [u8], at: usize, s: &[u8], number: u32, step: u32) -> usize
    ensures { text room.new result ≡ appended (text room.old at) (refused_text s.now number step) }
{
    let p = put_refusal(room, at, number, step, rule_words(number));
    if step == 0 {
        return put_sheet_place(room, p, s, number);
    }
    put_step_place(room, p, s, step - 1)
}

// ----- a sheet ------------------------------------------------------------------------------

pub fn put_sheet(room: &mut [u8], at: usize, s: &[u8]) -> usize
    ensures { text room.new result ≡ appended (text room.old at) (show_text s.now) }
{
    match sheet::check(s) {
        Ok(()) => put_accepted(room, at, s),
        Err(refusal) => put_refused(room, at, s, refusal.number, refusal.step),
    }
}
