// The lines of a sheet that is shown: a name, what stands at a place of the sheet, its unit,
// written into a lent room.
//
// A place is a body's offset, as the directory has it, and a field's place in its body. The names
// come from the caller; the words of units and ellipsoids stand here, the ellipsoids' figures being
// those of crate ellipsoid. Where a sheet has a single beside its series place, a third line says
// which of them is in force, by crate helmert's rule. Every byte is fixed by specs/Lines.antt, for
// every input and a room of any length. Used by `fields`.
#![tactic(auto)]

ghost use Rattle.std.specs.Prelude.{◌≡◌, ◌+◌, ◌<◌};
ghost use Rattle.text.specs.Text.{text, appended};
ghost use Rattle.words.specs.Words.{word32};
ghost use Rattle.lines.specs.Lines.{unit_text, end_text, word_line, flag_text, one_line, three_line, time_line, winner_text, one_in_force, three_in_force, series_lines, single_lines, ellipsoid_text, ellipsoid_line};

#[derive(Clone, Copy)]
pub enum Unit {
    Plain,
    Metre,
    Millimetre,
    Arcsecond,
    MicroArcsecond,
    Ppm,
}

// ----- places -----------------------------------------------------------------------------

// A field's place in the sheet: its body's offset and its place in the body.
fn place_of(base: u32, k: u32) -> usize
    ensures { (result ≡ base + k) × (result < 8589934592) }
{
    words::wide(base) + words::wide(k)
}

// The word in a body.
pub fn word_in(s: &[u8], base: u32, k: u32) -> u32
    ensures { result ≡ word32 s.now (base + k) }
{
    words::read32(s, place_of(base, k))
}

// ----- units ------------------------------------------------------------------------------

fn unit_words(unit: Unit) -> &'static [u8]
    ensures { result.now ≡ unit_text unit }
{
    match unit {
        Unit::Plain => b"",
        Unit::Metre => b" m",
        Unit::Millimetre => b" mm",
        Unit::Arcsecond => b" arcsec",
        Unit::MicroArcsecond => b" micro-arcsec",
        Unit::Ppm => b" ppm",
    }
}

fn put_end(room: &mut [u8], at: usize, unit: Unit, rate: bool) -> usize
    ensures { text room.new result ≡ appended (text room.old at) (end_text unit rate) }
{
    let p = text::put_bytes(room, at, unit_words(unit));
    if rate {
        return text::put_bytes(room, p, b"/year\n");
    }
    text::put_bytes(room, p, b"\n")
}

// ----- words ------------------------------------------------------------------------------

pub fn put_word(room: &mut [u8], at: usize, name: &[u8], s: &[u8], base: u32, k: u32) -> usize
    ensures { text room.new result ≡ appended (text room.old at) (word_line name.now s.now (base + k)) }
{
    let place = place_of(base, k);
    let p = text::put_bytes(room, at, name);
    let q = figures::put_word_at(room, p, s, place);
    text::put_bytes(room, q, b"\n")
}

pub fn put_flag(room: &mut [u8], at: usize, name: &[u8], on: bool) -> usize
    ensures { text room.new result ≡ appended (text room.old at) (flag_text name.now on) }
{
    let p = text::put_bytes(room, at, name);
    if on {
        return text::put_bytes(room, p, b"yes");
    }
    text::put_bytes(room, p, b"no")
}

// ----- numbers ----------------------------------------------------------------------------

pub fn put_time(room: &mut [u8], at: usize, name: &[u8], s: &[u8], base: u32, k: u32) -> usize
    ensures { text room.new result ≡ appended (text room.old at) (time_line name.now s.now (base + k)) }
{
    let place = place_of(base, k);
    let p = text::put_bytes(room, at, name);
    let q = figures::put_time_at(room, p, s, place);
    text::put_bytes(room, q, b"\n")
}

fn put_one_at(
    room: &mut [u8],
    at: usize,
    name: &[u8],
    s: &[u8],
    place: usize,
    unit: Unit,
    rate: bool,
) -> usize
    ensures { text room.new result ≡ appended (text room.old at) (one_line name.now s.now place unit rate) }
{
    let p = text::put_bytes(room, at, name);
    let q = figures::put_number_at(room, p, s, place);
    put_end(room, q, unit, rate)
}

pub fn put_one(
    room: &mut [u8],
    at: usize,
    name: &[u8],
    s: &[u8],
    base: u32,
    k: u32,
    unit: Unit,
    rate: bool,
) -> usize
    ensures { text room.new result ≡ appended (text room.old at) (one_line name.now s.now (base + k) unit rate) }
{
    put_one_at(room, at, name, s, place_of(base, k), unit, rate)
}

fn put_three_at(
    room: &mut [u8],
    at: usize,
    name: &[u8],
    s: &[u8],
    place: usize,
    unit: Unit,
    rate: bool,
) -> usize
    requires { place < 8589934592 }
    ensures { text room.new result ≡ appended (text room.old at) (three_line name.now s.now place unit rate) }
{
    let p = text::put_bytes(room, at, name);
    let q = figures::put_number_at(room, p, s, place);
    let r = text::put_bytes(room, q, b" ");
    let t = figures::put_number_at(room, r, s, place + 8);
    let u = text::put_bytes(room, t, b" ");
    let v = figures::put_number_at(room, u, s, place + 16);
    put_end(room, v, unit, rate)
}

pub fn put_three(
    room: &mut [u8],
    at: usize,
    name: &[u8],
    s: &[u8],
    base: u32,
    k: u32,
    unit: Unit,
    rate: bool,
) -> usize
    ensures { text room.new result ≡ appended (text room.old at) (three_line name.now s.now (base + k) unit rate) }
{
    put_three_at(room, at, name, s, place_of(base, k), unit, rate)
}

// ----- which of two is in force -----------------------------------------------------------

fn put_winner(room: &mut [u8], at: usize, s: &[u8], single: usize, series: usize) -> usize
    ensures { text room.new result ≡ appended (text room.old at) (winner_text s.now single series) }
{
    let a = words::number(s, single);
    let b = words::number(s, series);
    figures::put_number(room, at, floats::to_bits(helmert::winner(a, b)))
}

fn put_one_in_force(
    room: &mut [u8],
    at: usize,
    s: &[u8],
    single: usize,
    series: usize,
    unit: Unit,
    rate: bool,
) -> usize
    ensures { text room.new result ≡ appended (text room.old at) (one_in_force s.now single series unit rate) }
{
    let p = text::put_bytes(room, at, b"    in force: ");
    let q = put_winner(room, p, s, single, series);
    put_end(room, q, unit, rate)
}

fn put_three_in_force(
    room: &mut [u8],
    at: usize,
    s: &[u8],
    singles: usize,
    series: usize,
    unit: Unit,
    rate: bool,
) -> usize
    requires { (singles < 8589934592) × (series < 8589934592) }
    ensures { text room.new result ≡ appended (text room.old at) (three_in_force s.now singles series unit rate) }
{
    let p = text::put_bytes(room, at, b"    in force: ");
    let q = put_winner(room, p, s, singles, series);
    let r = text::put_bytes(room, q, b" ");
    let t = put_winner(room, r, s, singles + 8, series + 8);
    let u = text::put_bytes(room, t, b" ");
    let v = put_winner(room, u, s, singles + 16, series + 16);
    put_end(room, v, unit, rate)
}

// A series of three, its singles, and what is in force.
pub fn put_series(
    room: &mut [u8],
    at: usize,
    name: &[u8],
    singles_name: &[u8],
    s: &[u8],
    base: u32,
    series: u32,
    singles: u32,
    unit: Unit,
    rate: bool,
) -> usize
    ensures { text room.new result ≡ appended (text room.old at) (series_lines name.now singles_name.now s.now (base + series) (base + singles) unit rate) }
{
    let first = place_of(base, series);
    let second = place_of(base, singles);
    let p = put_three_at(room, at, name, s, first, unit, rate);
    let q = put_three_at(room, p, singles_name, s, second, unit, rate);
    put_three_in_force(room, q, s, second, first, unit, rate)
}

// A single, its series place, and what is in force.
pub fn put_single(
    room: &mut [u8],
    at: usize,
    name: &[u8],
    series_name: &[u8],
    s: &[u8],
    base: u32,
    single: u32,
    series: u32,
    unit: Unit,
    rate: bool,
) -> usize
    ensures { text room.new result ≡ appended (text room.old at) (single_lines name.now series_name.now s.now (base + single) (base + series) unit rate) }
{
    let first = place_of(base, single);
    let second = place_of(base, series);
    let p = put_one_at(room, at, name, s, first, unit, rate);
    let q = put_one_at(room, p, series_name, s, second, unit, rate);
    put_one_in_force(room, q, s, first, second, unit, rate)
}

// ----- ellipsoids -------------------------------------------------------------------------

fn ellipsoid_words(number: u32) -> &'static [u8]
    ensures { result.now ≡ ellipsoid_text number }
{
    match number {
        0 => b" none\n",
        1 => b" GRS80, a 6378137 m, 1/f 298.257222101\n",
        2 => b" WGS84, a 6378137 m, 1/f 298.257223563\n",
        3 => b" International 1924, a 6378388 m, 1/f 297\n",
        4 => b" Bessel 1841, a 6377397.155 m, 1/f 299.1528128\n",
        5 => b" Krassowsky 1940, a 6378245 m, 1/f 298.3\n",
        _ => b" not in the table\n",
    }
}

pub fn put_ellipsoid(room: &mut [u8], at: usize, name: &[u8], s: &[u8], base: u32, k: u32) -> usize
    ensures { text room.new result ≡ appended (text room.old at) (ellipsoid_line name.now s.now (base + k)) }
{
    let place = place_of(base, k);
    let number = words::read32(s, place);
    let p = text::put_bytes(room, at, name);
    let q = figures::put_word_at(room, p, s, place);
    text::put_bytes(room, q, ellipsoid_words(number))
}
