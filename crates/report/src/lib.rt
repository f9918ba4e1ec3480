// The lines that the program prints, written into a lent room.
//
// Document 01, "Program": how many steps and tuples, the count of each step, each tuple as four
// words of 16 hexadecimal digits; or the refusal. Document 02, A5: after a step's count how many
// tuples met an angle out of reach, only where some did, so that document 01's texts stay. Every byte is fixed by specs/Report.antt, for
// every input and a room of any length (crate text says what a room that is too short holds). A NaN
// is printed 7ff8000000000000, whichever bits it came with. Used by `answer`.
#![tactic(auto)]

ghost use Rattle.std.specs.Prelude.{◌≡◌, [], ◌∷◌, take};
ghost use Rattle.text.specs.Text.{text, appended};
ghost use Rattle.report.specs.Report.{line_of, refused_text, head_text, reach_text, count_text, counts_text, met_in, word_of, tuple_text, tuples_text, ran_text};

// ----- lines of names and numbers -----------------------------------------------------------

fn put_line(room: &mut [u8], at: usize, first: &[u8], a: u64, second: &[u8], b: u64) -> usize
    ensures { text room.new result ≡ appended (text room.old at) (line_of first.now a second.now b) }
{
    let p = text::put_bytes(room, at, first);
    let q = text::put_decimal(room, p, a);
    let r = text::put_bytes(room, q, second);
    let s = text::put_decimal(room, r, b);
    text::put_byte(room, s, b'\n')
}

pub fn refused(room: &mut [u8], at: usize, number: u32, step: u32) -> usize
    ensures { text room.new result ≡ appended (text room.old at) (refused_text number step) }
{
    put_line(
        room,
        at,
        b"refused ",
        words::wide64(number),
        b" step ",
        words::wide64(step),
    )
}

fn put_head(room: &mut [u8], at: usize, steps: usize, tuples: usize) -> usize
    ensures { text room.new result ≡ appended (text room.old at) (head_text steps tuples) }
{
    put_line(
        room,
        at,
        b"steps ",
        words::long(steps),
        b" tuples ",
        words::long(tuples),
    )
}

fn put_reach(room: &mut [u8], at: usize, step: u64, count: u64, met: u64) -> usize
    ensures { text room.new result ≡ appended (text room.old at) (reach_text step count met) }
{
    let p = text::put_bytes(room, at, b"step ");
    let q = text::put_decimal(room, p, step);
    let r = text::put_bytes(room, q, b" counted ");
    let s = text::put_decimal(room, r, count);
    let u = text::put_bytes(room, s, b" out of reach ");
    let v = text::put_decimal(room, u, met);
    text::put_byte(room, v, b'\n')
}

fn put_count(room: &mut [u8], at: usize, step: usize, count: usize, met: usize) -> usize
    ensures { text room.new result ≡ appended (text room.old at) (count_text step count met) }
{
    if met != 0 {
        return put_reach(
            room,
            at,
            words::long(step),
            words::long(count),
            words::long(met),
        );
    }
    put_line(
        room,
        at,
        b"step ",
        words::long(step),
        b" counted ",
        words::long(count),
    )
}

// The number at an index, 0 past the end.
fn met_at(mets: &[usize], i: usize) -> usize
    ensures { result ≡ met_in mets.now i }
{
    mets.get(i).copied().unwrap_or(0)
}

// A line for each step's count, no more than there are.
fn put_counts(room: &mut [u8], at: usize, steps: usize, counts: &[usize], mets: &[usize]) -> usize
    ensures { text room.new result ≡ appended (text room.old at) (counts_text (met_in mets.now) 0 (take steps counts.now)) }
{
    let mut p = text::put_bytes(room, at, b"");
    for (i, &count) in counts.iter().take(steps).enumerate() {
        p = put_count(room, p, i + 1, count, met_at(mets, i));
    }
    p
}

// ----- tuples ---------------------------------------------------------------------------------

fn put_word(room: &mut [u8], at: usize, x: f64, end: u8) -> usize
    ensures { text room.new result ≡ appended (text room.old at) (word_of x end) }
{
    let p = text::put_hex(room, at, floats::to_bits(x));
    text::put_byte(room, p, end)
}

fn put_tuple(room: &mut [u8], at: usize, x: f64, y: f64, z: f64, t: f64) -> usize
    ensures { text room.new result ≡ appended (text room.old at) (tuple_text x y z t) }
{
    let p = put_word(room, at, x, b' ');
    let q = put_word(room, p, y, b' ');
    let r = put_word(room, q, z, b' ');
    put_word(room, r, t, b'\n')
}

fn put_tuples(room: &mut [u8], at: usize, list: &[f64]) -> usize
    ensures { text room.new result ≡ appended (text room.old at) (tuples_text list.now) }
{
    let mut p = text::put_bytes(room, at, b"");
    for v in list.chunks_exact(4) {
        p = put_tuple(room, p, v[0], v[1], v[2], v[3]);
    }
    p
}

// What a run did: steps and tuples, each step's numbers, each tuple.
pub fn ran(
    room: &mut [u8],
    at: usize,
    steps: usize,
    counts: &[usize],
    mets: &[usize],
    list: &[f64],
) -> usize
    ensures { text room.new result ≡ appended (text room.old at) (ran_text steps counts.now mets.now list.now) }
{
    let p = put_head(room, at, steps, list.len() / 4);
    let q = put_counts(room, p, steps, counts, mets);
    put_tuples(room, q, list)
}
