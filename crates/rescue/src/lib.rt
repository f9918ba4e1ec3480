// A damaged sheet rebuilt in lent room: document 02's sheet rescue.
//
// A laptop that cuts and rejoins sheets leaves wrong offsets. Where the step count, the kinds and
// the inverted words are in rule and the bodies fill the remaining bytes exactly, everything else
// of header and directory follows from them: form, total length, directory offset, body offsets and
// body lengths. `rescue` writes the sheet with these words anew, and lists each word that it
// changed. Bodies are never changed. Rescue is for form 1, whose places stand in specs/Rebuilt.antt
// by themselves. What is answered, and what room and list hold afterwards, is specs/Rules.antt's
// for every input (proved). Proved besides (proofs/Laws.antt): what is accepted passes the reader,
// the list has exactly the words that differ, a whole sheet comes out as it is, and of the reader's
// refusals only 5 to 8 and 11 can be left. The rebuilt sheet is judged before the room is touched,
// so a call takes 4 kB of stack for it. Used by the exported library and the program sheet_rescue.
#![tactic(auto)]

ghost use Rattle.std.specs.Prelude.{◌≡◌, ◌+◌, ◌*◌, ◌<◌, ◌≤◌, false, not, eqb, ◌++◌, length};
ghost use Rattle.words.specs.Words.{word32, le32, put};
ghost use Rattle.bodies.specs.Kinds.{length_of};
ghost use Rattle.rescue.specs.Rebuilt.{count_word, kind_word, inverted_word, head_length, start_of, entry_bytes, directory_bytes, rebuilt_of};
ghost use Rattle.rescue.specs.Changes.{changed_of, changes_in, list_of};
ghost use Rattle.sheet.specs.Rules.{unless};
ghost use Rattle.rescue.specs.Rules.{entry_broken, refusal19, rescue_of};

use sheet::Refusal;

// ----- what is taken as it stands -------------------------------------------------------------

fn kind_word(s: &[u8], i: usize) -> u32
    requires { i < 16 }
    ensures { result ≡ kind_word s.now i }
{
    words::read32(s, 16 + 16 * i)
}

fn inverted_word(s: &[u8], i: usize) -> u32
    requires { i < 16 }
    ensures { result ≡ inverted_word s.now i }
{
    words::read32(s, 16 + 16 * i + 4)
}

// The length of the body of the step at index i, by its kind.
fn body_length(s: &[u8], i: usize) -> usize
    requires { i < 16 }
    ensures { (result ≡ length_of (kind_word s.now i)) × (result ≤ 248) }
{
    words::wide(bodies::length_of(kind_word(s, i)))
}

// ----- 19 -------------------------------------------------------------------------------------

// A kind without a length, or an inverted word over 1.
fn entry_broken(s: &[u8], i: usize) -> bool
    requires { i < 16 }
    ensures { result ≡ entry_broken s.now i }
{
    (bodies::length_of(kind_word(s, i)) == 0) | (1 < inverted_word(s, i))
}

// Whether the sheet cannot be rebuilt.
fn is_lost(s: &[u8]) -> bool
    ensures { result ≡ refusal19 s.now }
{
    if s.len() < 16 {
        return true;
    }
    let n = words::wide(words::read32(s, 8));
    if (n == 0) | (16 < n) {
        return true;
    }
    let mut end = 16 + 16 * n;
    if s.len() < end {
        return true;
    }
    for i in 0..n {
        if entry_broken(s, i) {
            return true;
        }
        end += body_length(s, i);
    }
    end != s.len()
}

// ----- the rebuilt sheet ----------------------------------------------------------------------

// Four words: the header, or an entry of the directory. sheet_writer has these lines too: a public
// function asks nothing of its caller, so one for both would test again what both have proved.
fn put_words(r: &mut [u8], at: usize, a: u32, b: u32, c: u32, d: u32)
    requires { at + 16 ≤ length r.old }
    ensures { r.new ≡ put r.old at (le32 a ++ le32 b ++ le32 c ++ le32 d) }
{
    words::put32(r, at, a);
    words::put32(r, at + 4, b);
    words::put32(r, at + 8, c);
    words::put32(r, at + 12, d);
}

// The entry of the step at index i, its body starting at `start`.
fn put_entry(r: &mut [u8], s: &[u8], i: usize, start: usize)
    requires { (i < 16) × ((start ≡ start_of s.now i) × ((start ≤ 4240) × (16 + 16 * i + 16 ≤ length r.old))) }
    ensures { r.new ≡ put r.old (16 + 16 * i) (entry_bytes s.now i) }
{
    let kind = kind_word(s, i);
    put_words(
        r,
        16 + 16 * i,
        kind,
        inverted_word(s, i),
        start as u32,
        bodies::length_of(kind),
    );
}

fn put_directory(r: &mut [u8], s: &[u8], n: usize)
    requires { (n ≤ 16) × ((n ≡ count_word s.now) × (16 + 16 * n ≤ length r.old)) }
    ensures { r.new ≡ put r.old 16 (directory_bytes s.now n) }
{
    let mut start = 16 + 16 * n;
    for i in 0..n {
        put_entry(r, s, i, start);
        start += body_length(s, i);
    }
}

// The bytes from a place on.
fn copy(room: &mut [u8], at: usize, bytes: &[u8])
    requires { at + length bytes.now ≤ length room.old }
    ensures { room.new ≡ put room.old at bytes.now }
{
    let end = at + bytes.len();
    room[at..end].copy_from_slice(bytes);
}

fn rebuild(r: &mut [u8], s: &[u8])
    requires { (refusal19 s.now ≡ false) × (length s.now ≤ length r.old) }
    ensures { r.new ≡ put r.old 0 (rebuilt_of s.now) }
{
    let count = words::read32(s, 8);
    let n = words::wide(count);
    let head = 16 + 16 * n;
    put_words(r, 0, 1, s.len() as u32, count, 16);
    put_directory(r, s, n);
    copy(r, head, &s[head..]);
}

// ----- the list -------------------------------------------------------------------------------

// Whether a word differs.
fn differs(s: &[u8], r: &[u8], place: usize) -> bool
    ensures { result ≡ not (eqb (word32 s.now place) (word32 r.now place)) }
{
    words::read32(s, place) != words::read32(r, place)
}

// How many of the first n words differ.
fn count_changes(s: &[u8], r: &[u8], n: usize) -> usize
    requires { n ≤ 68 }
    ensures { (result ≡ length (changes_in s.now r.now n)) × (result ≤ n) }
{
    let mut changed = 0;
    for i in 0..n {
        if differs(s, r, 4 * i) {
            changed += 1;
        }
    }
    changed
}

// Lists a word's change where there is one, and answers where the next one goes.
fn list_change(list: &mut [u32], at: usize, place: u32, old: u32, new: u32) -> usize
    requires { at + length (list_of (changed_of place old new)) ≤ length list.old }
    ensures { (list.new ≡ put list.old at (list_of (changed_of place old new))) × (result ≡ at + length (list_of (changed_of place old new))) }
{
    if old != new {
        list[at] = place;
        list[at + 1] = old;
        list[at + 2] = new;
        return at + 3;
    }
    at
}

// Lists those of the first n words that differ.
fn list_changes(list: &mut [u32], s: &[u8], r: &[u8], n: usize)
    requires { (n ≤ 68) × (length (list_of (changes_in s.now r.now n)) ≤ length list.old) }
    ensures { list.new ≡ put list.old 0 (list_of (changes_in s.now r.now n)) }
{
    let mut at = 0;
    for i in 0..n {
        let place = 4 * i;
        at = list_change(
            list,
            at,
            place as u32,
            words::read32(s, place),
            words::read32(r, place),
        );
    }
}

// ----- the rescue -----------------------------------------------------------------------------

// Gives the rebuilt sheet r and its changes, or refuses them.
fn give(s: &[u8], r: &[u8], room: &mut [u8], list: &mut [u32]) -> Result<usize, Refusal>
    requires { (refusal19 s.now ≡ false) × (r.now ≡ rebuilt_of s.now) }
    ensures { let o = rescue_of s.now room.old list.old in
        (result ≡ unless o.answer.refusal o.answer.changed) × ((room.new ≡ o.room) × (list.new ≡ o.list)) }
{
    let n = 4 + 4 * words::wide(words::read32(s, 8));
    let changed = count_changes(s, r, n);
    if (room.len() < s.len()) | (list.len() < 3 * changed) {
        return Err(Refusal::of_call(15));
    }
    sheet::check(r)?;
    copy(room, 0, r);
    list_changes(list, s, r, n);
    Ok(changed)
}

// Rebuilds the damaged sheet s at the room's start, lists each word changed: its place, the old
// number and the new one, and answers with how many were changed. On refusal room and list hold
// what they held.
pub fn rescue(s: &[u8], room: &mut [u8], list: &mut [u32]) -> Result<usize, Refusal>
    ensures { let o = rescue_of s.now room.old list.old in
        (result ≡ unless o.answer.refusal o.answer.changed) × ((room.new ≡ o.room) × (list.new ≡ o.list)) }
{
    if is_lost(s) {
        return Err(Refusal::of_call(19));
    }
    let mut rebuilt = [0u8; 4240];
    rebuild(&mut rebuilt, s);
    let n = s.len();
    give(s, &rebuilt[..n], room, list)
}
