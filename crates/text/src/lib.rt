// Text written into a lent room: bytes, numbers in decimal and in hexadecimal, one after another.
//
// Every function takes a room and a place, writes from the place on and answers the place past what
// it wrote. Past the room's end nothing is written: the place then is the room's end, and stays
// there. So a text written in pieces is the text written at once, in a room of any length
// (`appended-twice`). Used by the program's report and by whoever writes a text for people. Room and
// place stay two parameters: a struct that holds the `&mut` needs a clause in every contract that
// it is the same room.
#![tactic(auto)]

ghost use Rattle.std.specs.Prelude.{◌≡◌, [], ◌∷◌, ◌-◌, ◌^◌, ◌<◌, ◌≤◌};
ghost use Rattle.text.specs.Text.{text, appended};
ghost use Rattle.text.specs.Digits.{digit as Digits·digit, digits_of, places_of, decimal_of, hex_of};

// ----- bytes -------------------------------------------------------------------------------

pub fn put_byte(room: &mut [u8], at: usize, b: u8) -> usize
    ensures { text room.new result ≡ appended (text room.old at) (b ∷ []) }
{
    if at < room.len() {
        room[at] = b;
        return at + 1;
    }
    room.len()
}

pub fn put_bytes(room: &mut [u8], at: usize, bytes: &[u8]) -> usize
    ensures { text room.new result ≡ appended (text room.old at) bytes.now }
{
    let mut place = at.min(room.len());
    for &b in bytes {
        place = put_byte(room, place, b);
    }
    place
}

// ----- digits ------------------------------------------------------------------------------

fn digit(d: u64) -> u8
    requires { d < 16 }
    ensures { result ≡ Digits·digit d }
{
    if d < 10 { 48 + d as u8 } else { 87 + d as u8 }
}

// The last k digits of n in a base.
fn put_digits(room: &mut [u8], at: usize, base: u64, k: u32, n: u64) -> usize
    requires { (1 < base) × (base ≤ 16) × (base ^ (k - 1) < 2 ^ 64) }
    ensures { text room.new result ≡ appended (text room.old at) (digits_of base k n) }
{
    let mut place = at.min(room.len());
    let mut worth = base.pow(k.saturating_sub(1)); // what the highest digit is worth
    for left in (0..k).rev() {
        place = put_byte(room, place, digit(n / worth % base));
        worth /= base;
    }
    place
}

pub fn put_hex(room: &mut [u8], at: usize, n: u64) -> usize
    ensures { text room.new result ≡ appended (text room.old at) (hex_of n) }
{
    put_digits(room, at, 16, 16, n)
}

// How many digits a number has; 0 has one.
fn places(n: u64) -> u32
    ensures { (result ≡ places_of 19 n) × (result ≤ 20) }
{
    match n.checked_ilog10() {
        Some(highest) => highest + 1,
        None => 1,
    }
}

pub fn put_decimal(room: &mut [u8], at: usize, n: u64) -> usize
    ensures { text room.new result ≡ appended (text room.old at) (decimal_of n) }
{
    put_digits(room, at, 10, places(n), n)
}

pub fn put_u32(room: &mut [u8], at: usize, n: u32) -> usize
    ensures { text room.new result ≡ appended (text room.old at) (decimal_of n) }
{
    put_decimal(room, at, n as u64)
}
