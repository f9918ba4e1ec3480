// A closure report in words and figures, for the mate who compares two boxes before sailing.
//
// Document 02, A14: "figures he can compare between boxes". Counts, and of each coordinate the
// largest difference as a figure of four digits with its bits beside it, the list and the index
// where it stands; last two numbers below 10,000 to say over the radio, which are the whole report
// modulo a prime. Or the refusal in words. Every byte is fixed by specs/Page.antt, for every report
// and a room of any length (proved). The figure is for the eye; the bits are what is compared. Used
// by the program closure.
#![tactic(auto)]

ghost use Rattle.std.specs.Prelude.{◌≡◌, ◌<◌, ◌≤◌};
ghost use Rattle.floats.specs.Binary64.{◌⊗◌};
ghost use Rattle.text.specs.Text.{text, appended};
ghost use Rattle.text.specs.Digits.{decimal_of};
ghost use Rattle.decimal.specs.Places.{whole_of, ten_to};
ghost use Rattle.closure_report.specs.Report.{numbers_of};
ghost use Rattle.closure_page.specs.Page.{places_from, three_text, power_text, four_text, below_text, figure_text, place_text, largest_text, heard_of, check_from, radio_text, count_text, counts_text, unit_text, coordinates_text, page_text, refusal_words, refused_text, takes_angles, profile_asked};

use closure_report::{Largest, Report};

// ----- a figure --------------------------------------------------------------------------------

// x with so many decimal places that it has four digits, at most 22.
#[derive(Clone, Copy)]
struct Four {
    digits: u64,
    places: usize,
}

fn four_of(x: f64) -> Four
    ensures { (result.places ≡ places_from 22 0 x) × (result.digits ≡ whole_of (x ⊗ ten_to (places_from 22 0 x))) × (result.places ≤ 22) }
{
    let mut ten = 1.0;
    for k in 0..22 {
        let digits = decimal::whole(x * ten);
        if 1000 <= digits {
            return Four {
                digits: digits,
                places: k,
            };
        }
        ten = ten * 10.0;
    }
    Four {
        digits: decimal::whole(x * ten),
        places: 22,
    }
}

fn put_three(room: &mut [u8], at: usize, d: u64) -> usize
    ensures { text room.new result ≡ appended (text room.old at) (three_text d) }
{
    let p = text::put_byte(room, at, 48 + (d / 100 % 10) as u8);
    let q = text::put_byte(room, p, 48 + (d / 10 % 10) as u8);
    text::put_byte(room, q, 48 + (d % 10) as u8)
}

fn put_power(room: &mut [u8], at: usize, k: usize) -> usize
    ensures { text room.new result ≡ appended (text room.old at) (power_text k) }
{
    if k <= 3 {
        let p = text::put_bytes(room, at, b"e");
        return text::put_decimal(room, p, words::long(3 - k));
    }
    let p = text::put_bytes(room, at, b"e-");
    text::put_decimal(room, p, words::long(k - 3))
}

fn put_four(room: &mut [u8], at: usize, d: u64, k: usize) -> usize
    ensures { text room.new result ≡ appended (text room.old at) (four_text d k) }
{
    let p = text::put_decimal(room, at, d / 1000);
    let q = text::put_bytes(room, p, b".");
    let r = put_three(room, q, d);
    put_power(room, r, k)
}

fn put_below(room: &mut [u8], at: usize, x: f64) -> usize
    ensures { text room.new result ≡ appended (text room.old at) (below_text x) }
{
    let four = four_of(x);
    put_four(room, at, four.digits, four.places)
}

fn put_figure(room: &mut [u8], at: usize, pattern: u64) -> usize
    ensures { text room.new result ≡ appended (text room.old at) (figure_text pattern) }
{
    if pattern == 0 {
        return text::put_bytes(room, at, b"0");
    }
    let x = floats::of_bits(pattern);
    if x < 4503599627370496.0 {
        return put_below(room, at, x);
    }
    text::put_bytes(room, at, b"4.503e15 or more")
}

// ----- a coordinate ----------------------------------------------------------------------------

fn put_place(room: &mut [u8], at: usize, w: Largest) -> usize
    ensures { text room.new result ≡ appended (text room.old at) (place_text w) }
{
    let p = text::put_bytes(room, at, b" bits ");
    let q = text::put_hex(room, p, w.bits);
    let r = text::put_bytes(room, q, b" at list ");
    let s = text::put_decimal(room, r, w.list);
    let t = text::put_bytes(room, s, b" index ");
    let u = text::put_decimal(room, t, w.index);
    text::put_bytes(room, u, b"\n")
}

fn put_largest(room: &mut [u8], at: usize, name: &[u8], unit: &[u8], w: Largest) -> usize
    ensures { text room.new result ≡ appended (text room.old at) (largest_text name.now unit.now w) }
{
    let p = text::put_bytes(room, at, name);
    let q = put_figure(room, p, w.bits);
    let r = text::put_bytes(room, q, unit);
    put_place(room, r, w)
}

// ----- the radio -------------------------------------------------------------------------------

fn heard(c: u64, word: u64) -> u64
    requires { (c < 99999989) × (word < 4294967296) }
    ensures { (result ≡ heard_of c word) × (result < 99999989) }
{
    (c * 4294967296 + word) % 99999989
}

pub fn check_word(numbers: &[u64]) -> u64
    ensures { result ≡ check_from 0 numbers.now }
{
    let mut c = 0;
    for &n in numbers {
        c = heard(heard(c, n / 4294967296), n % 4294967296);
    }
    c
}

fn put_radio(room: &mut [u8], at: usize, c: u64) -> usize
    ensures { text room.new result ≡ appended (text room.old at) (radio_text c) }
{
    let p = text::put_bytes(room, at, b"say ");
    let q = text::put_decimal(room, p, c / 10000);
    let r = text::put_bytes(room, q, b" ");
    let s = text::put_decimal(room, r, c % 10000);
    text::put_bytes(room, s, b"\n")
}

// ----- the page --------------------------------------------------------------------------------

fn put_count(room: &mut [u8], at: usize, name: &[u8], n: u64) -> usize
    ensures { text room.new result ≡ appended (text room.old at) (count_text name.now n) }
{
    let p = text::put_bytes(room, at, name);
    let q = text::put_decimal(room, p, n);
    text::put_bytes(room, q, b"\n")
}

fn put_counts(room: &mut [u8], at: usize, r: Report) -> usize
    ensures { text room.new result ≡ appended (text room.old at) (counts_text r) }
{
    let p = put_count(room, at, b"lists ", r.lists);
    let q = put_count(room, p, b"fixes ", r.tuples);
    let s = put_count(room, q, b"with a NaN at start or end ", r.nans);
    put_count(room, s, b"restored bit for bit ", r.restored)
}

fn put_angle(room: &mut [u8], at: usize, name: &[u8], angles: bool, w: Largest) -> usize
    ensures { text room.new result ≡ appended (text room.old at) (largest_text name.now (unit_text angles) w) }
{
    if angles {
        return put_largest(room, at, name, b" rad", w);
    }
    put_largest(room, at, name, b" m", w)
}

fn put_coordinates(room: &mut [u8], at: usize, angles: bool, r: Report) -> usize
    ensures { text room.new result ≡ appended (text room.old at) (coordinates_text angles r) }
{
    let p = put_angle(room, at, b"first ", angles, r.x);
    let q = put_angle(room, p, b"second ", angles, r.y);
    let s = put_largest(room, q, b"third ", b" m", r.z);
    put_largest(room, s, b"time ", b" year", r.t)
}

pub fn put_page(room: &mut [u8], at: usize, angles: bool, r: Report) -> usize
    ensures { text room.new result ≡ appended (text room.old at) (page_text angles r) }
{
    let p = put_counts(room, at, r);
    let q = text::put_bytes(room, p, b"largest difference of the others\n");
    let s = put_coordinates(room, q, angles, r);
    let numbers = closure_report::numbers(r);
    put_radio(room, s, check_word(&numbers))
}

// ----- a refusal -------------------------------------------------------------------------------

fn refusal_words(number: u32) -> &'static [u8]
    ensures { result.now ≡ refusal_words number }
{
    match number {
        9 => b"list not of whole tuples, or over 2,048\n",
        10 => b"velocities or marks of wrong length, or a mark over 1\n",
        16 => b"a bad job\n",
        25 => b"outside the profile that was asked for\n",
        _ => show::rule_words(number),
    }
}

pub fn put_refused(room: &mut [u8], at: usize, number: u32, step: u32) -> usize
    ensures { text room.new result ≡ appended (text room.old at) (refused_text number step) }
{
    show::put_refusal(room, at, number, step, refusal_words(number))
}

// ----- what a job asks for ---------------------------------------------------------------------

// Whether a list's first two coordinates are angles, by the first step's kind and inverted word.
pub fn takes_angles(kind: u32, inverted: u32) -> bool
    ensures { result ≡ takes_angles kind inverted }
{
    match kind {
        2 => inverted != 1,
        3 | 4 => true,
        _ => false,
    }
}

// The profile that a word asks for: none, the chart's, or one that nobody knows.
pub fn profile_asked(word: &[u8]) -> u32
    ensures { result ≡ profile_asked word.now }
{
    match word {
        b"" => 0,
        b"chart" => 1,
        _ => 2,
    }
}
