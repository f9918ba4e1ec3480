// A binary64 number written for people into a lent room, and the words, numbers and times of a
// sheet where they lie.
//
// A number is written as the decimal with the fewest places that reads back as the same number
// (crate decimal): a sign, the whole part, a point and exactly those places. Where there is none,
// its 16 hexadecimal digits stand, after `bits 0x`. So a number that came from a data sheet is
// written as the data sheet has it, and no two numbers are written alike. A time that is "not
// given" says so. Used by the lines of a sheet that is shown.
#![tactic(auto)]

ghost use Rattle.std.specs.Prelude.{◌≡◌, ◌/◌, ◌^◌, ◌<◌};
ghost use Rattle.text.specs.Text.{text, appended};
ghost use Rattle.text.specs.Digits.{digits_of, digit as Digits·digit};
ghost use Rattle.figures.specs.Figures.{sign_text, fraction_text, fixed_text, number_text, time_text, number_at_text, time_at_text, word_at_text};

use decimal::Decimal;

// n / 10^k
fn over(n: u64, k: usize) -> u64
    ensures { result ≡ n / 10 ^ k }
{
    let mut left = n;
    for _ in 0..k {
        left /= 10;
    }
    left
}

fn digit(d: u64) -> u8
    requires { d < 10 }
    ensures { result ≡ Digits·digit d }
{
    48 + d as u8
}

// The last k digits of n. Not `text`'s own writer of digits: k may pass 20, where ten to the k does
// not fit.
fn put_places(room: &mut [u8], at: usize, n: u64, k: usize) -> usize
    ensures { text room.new result ≡ appended (text room.old at) (digits_of 10 k n) }
{
    let mut p = text::put_bytes(room, at, b"");
    for left in (0..k).rev() {
        p = text::put_byte(room, p, digit(over(n, left) % 10));
    }
    p
}

fn put_fraction(room: &mut [u8], at: usize, digits: u64, k: usize) -> usize
    ensures { text room.new result ≡ appended (text room.old at) (fraction_text digits k) }
{
    if k == 0 {
        return text::put_bytes(room, at, b"");
    }
    let p = text::put_bytes(room, at, b".");
    put_places(room, p, digits, k)
}

fn put_sign(room: &mut [u8], at: usize, negative: bool) -> usize
    ensures { text room.new result ≡ appended (text room.old at) (sign_text negative) }
{
    if negative {
        return text::put_bytes(room, at, b"-");
    }
    text::put_bytes(room, at, b"")
}

fn put_fixed(room: &mut [u8], at: usize, shown: Decimal) -> usize
    ensures { text room.new result ≡ appended (text room.old at) (fixed_text shown.negative shown.digits shown.places) }
{
    let p = put_sign(room, at, shown.negative);
    let q = text::put_decimal(room, p, over(shown.digits, shown.places));
    put_fraction(room, q, shown.digits, shown.places)
}

pub fn put_number(room: &mut [u8], at: usize, pattern: u64) -> usize
    ensures { text room.new result ≡ appended (text room.old at) (number_text pattern) }
{
    match decimal::fewest_places(floats::of_bits(pattern)) {
        Some(shown) => put_fixed(room, at, shown),
        None => {
            let p = text::put_bytes(room, at, b"bits 0x");
            text::put_hex(room, p, pattern)
        }
    }
}

pub fn put_time(room: &mut [u8], at: usize, pattern: u64) -> usize
    ensures { text room.new result ≡ appended (text room.old at) (time_text pattern) }
{
    if pattern == 0x7ff8_0000_0000_0000 {
        return text::put_bytes(room, at, b"not given");
    }
    let p = put_number(room, at, pattern);
    text::put_bytes(room, p, b" year")
}

// ----- where they lie in a sheet --------------------------------------------------------------

pub fn put_number_at(room: &mut [u8], at: usize, s: &[u8], place: usize) -> usize
    ensures { text room.new result ≡ appended (text room.old at) (number_at_text s.now place) }
{
    put_number(room, at, words::read64(s, place))
}

pub fn put_time_at(room: &mut [u8], at: usize, s: &[u8], place: usize) -> usize
    ensures { text room.new result ≡ appended (text room.old at) (time_at_text s.now place) }
{
    put_time(room, at, words::read64(s, place))
}

pub fn put_word_at(room: &mut [u8], at: usize, s: &[u8], place: usize) -> usize
    ensures { text room.new result ≡ appended (text room.old at) (word_at_text s.now place) }
{
    text::put_decimal(room, at, words::wide64(words::read32(s, place)))
}
