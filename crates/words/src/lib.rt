// Little-endian words and binary64 numbers in lent bytes, as the sheet has them.
//
// Every function takes every place: what lies past the end reads as 0, and nothing is written where
// it does not fit. Exact: no number changes on its way but that every NaN is written
// 7ff8000000000000. Where the length is known, as in a body whose length was tested, the compiler
// drops the tests and a word is one load or store. Used by the sheet's bodies, its header and
// directory.
#![tactic(auto)]

ghost use Rattle.std.specs.Prelude.{◌≡◌, ◌+◌, ◌<◌, ◌≤◌, length, get_or};
ghost use Rattle.words.specs.Words.{word32, word64, number_at, one_nan_at, le32, le64, le_number, put_of, put};

// ----- the same number in a wider type -----------------------------------------------------

// `From` goes neither from `u32` to `usize` nor from `usize` to `u64`, and says no bound: callers'
// proofs lean on the one here.
pub fn wide(x: u32) -> usize
    ensures { (result ≡ x) × (result < 4294967296) }
{
    x as usize
}

pub fn wide64(x: u32) -> u64
    ensures { (result ≡ x) × (result < 4294967296) }
{
    u64::from(x)
}

pub fn long(x: usize) -> u64
    ensures { result ≡ x }
{
    x as u64
}

// ----- reading ---------------------------------------------------------------------------

// The byte k places after `at`.
fn byte(s: &[u8], at: usize, k: usize) -> u8
    ensures { result ≡ get_or s.now (at + k) 0 }
{
    if at < s.len() {
        if k < s.len() - at {
            return s[at + k];
        }
    }
    0
}

// The word k places after `at`.
fn word(s: &[u8], at: usize, k: usize) -> u32
    requires { k ≤ 4 }
    ensures { result ≡ word32 s.now (at + k) }
{
    u32::from_le_bytes([
        byte(s, at, k),
        byte(s, at, k + 1),
        byte(s, at, k + 2),
        byte(s, at, k + 3),
    ])
}

pub fn read32(s: &[u8], at: usize) -> u32
    ensures { result ≡ word32 s.now at }
{
    word(s, at, 0)
}

pub fn read64(s: &[u8], at: usize) -> u64
    ensures { result ≡ word64 s.now at }
{
    wide64(read32(s, at)) + 4294967296 * wide64(word(s, at, 4))
}

pub fn number(s: &[u8], at: usize) -> f64
    ensures { result ≡ number_at s.now at }
{
    floats::of_bits(read64(s, at))
}

// Whether the number at a place, if it is a NaN, is written as "not given" is.
pub fn one_nan(s: &[u8], at: usize) -> bool
    ensures { result ≡ one_nan_at s.now at }
{
    let pattern = read64(s, at);
    if floats::is_nan(floats::of_bits(pattern)) {
        return pattern == 0x7ff8_0000_0000_0000;
    }
    true
}

// ----- writing ---------------------------------------------------------------------------

pub fn put32(room: &mut [u8], at: usize, n: u32)
    ensures { room.new ≡ put_of room.old at (le32 n) }
{
    if at <= room.len() {
        if 4 <= room.len() - at {
            let end = at + 4;
            room[at..end].copy_from_slice(&n.to_le_bytes());
        }
    }
}

pub fn put64(room: &mut [u8], at: usize, n: u64)
    ensures { room.new ≡ put_of room.old at (le64 n) }
{
    if at <= room.len() {
        if 8 <= room.len() - at {
            put32(room, at, (n % 4294967296) as u32);
            put32(room, at + 4, (n / 4294967296) as u32);
        }
    }
}

pub fn put_number(room: &mut [u8], at: usize, x: f64)
    ensures { room.new ≡ put_of room.old at (le_number x) }
{
    put64(room, at, floats::to_bits(x));
}
