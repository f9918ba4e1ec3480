// A body's fields shown: document 01's names in the body's order, each with what stands at its
// place and its unit.
//
// The table of names, places and units stands in specs/Fields.antt, one definition a kind, and the
// words for flags and codes in specs/Words.antt. A body is given by its offset in the sheet;
// nothing is tested here, so that a field outside its rule is shown as it is: a word with `outside
// its rule`, a number that is no number by its bits. Every byte is fixed for every input and a room
// of any length. Used by `show`.
#![tactic(auto)]

ghost use Rattle.std.specs.Prelude.{◌≡◌, ◌++◌, map};
ghost use Rattle.text.specs.Text.{text, appended};
ghost use Rattle.text.specs.Digits.{decimal_of};
ghost use Rattle.fields.specs.Words.{flags_line, convention_text, convention_line, system_text, system_line, kind_text, kind_line, inverted_text, inverted_line};
ghost use Rattle.fields.specs.Fields.{length_unit, angle_unit, lengths_text, angles_text, scales_text, helmert_text, cart_text, figures_text, shifts_text, molodensky_text, permtide_text, deformation_text, badekas_numbers, badekas_text, fields_text};

use lines::Unit;

// ----- words ------------------------------------------------------------------------------

// The names of the flags 1, 2, 4 .. of each kind that has some.
const HELMERT_FLAGS: [&[u8]; 4] = [b"; exact ", b"; uas ", b"; mm ", b"; own-epoch "];

const MOLODENSKY_FLAGS: [&[u8]; 2] = [b"; abridged ", b"; two ellipsoids "];

const DEFORMATION_FLAGS: [&[u8]; 2] = [b"; raw ", b"; comment's sign "];

const BADEKAS_FLAGS: [&[u8]; 3] = [b"; exact ", b"; uas ", b"; mm "];

// A word of flags: its number, and of each flag that has a name whether it is set.
fn put_flags(room: &mut [u8], at: usize, names: &[&[u8]], flags: u32) -> usize
    ensures { text room.new result ≡ appended (text room.old at) (flags_line (map (λ name. name.now) names.now) flags) }
{
    let p = text::put_bytes(room, at, b"  flags: ");
    let mut q = text::put_u32(room, p, flags);
    let mut left = flags;
    for name in names {
        q = lines::put_flag(room, q, name, left % 2 == 1);
        left /= 2;
    }
    text::put_bytes(room, q, b"\n")
}

// A word of a few values: its name, its number and what the number stands for.
fn put_code(room: &mut [u8], at: usize, name: &[u8], n: u32, words: &[u8]) -> usize
    ensures { text room.new result ≡ appended (text room.old at) (name.now ++ decimal_of n ++ words.now) }
{
    let p = text::put_bytes(room, at, name);
    let q = text::put_u32(room, p, n);
    text::put_bytes(room, q, words)
}

fn convention_words(n: u32) -> &'static [u8]
    ensures { result.now ≡ convention_text n }
{
    match n {
        0 => b" none\n",
        1 => b" position vector\n",
        2 => b" coordinate frame\n",
        _ => b" outside its rule\n",
    }
}

fn put_convention(room: &mut [u8], at: usize, n: u32) -> usize
    ensures { text room.new result ≡ appended (text room.old at) (convention_line n) }
{
    put_code(room, at, b"  convention: ", n, convention_words(n))
}

fn system_words(n: u32) -> &'static [u8]
    ensures { result.now ≡ system_text n }
{
    match n {
        1 => b" mean\n",
        2 => b" zero\n",
        3 => b" free\n",
        _ => b" outside its rule\n",
    }
}

fn put_system(room: &mut [u8], at: usize, name: &[u8], n: u32) -> usize
    ensures { text room.new result ≡ appended (text room.old at) (system_line name.now n) }
{
    put_code(room, at, name, n, system_words(n))
}

fn kind_words(n: u32) -> &'static [u8]
    ensures { result.now ≡ kind_text n }
{
    match n {
        1 => b" Helmert\n",
        2 => b" cart\n",
        3 => b" Molodensky\n",
        4 => b" permtide\n",
        5 => b" deformation\n",
        6 => b" Molodensky-Badekas\n",
        _ => b" outside its rule\n",
    }
}

pub fn put_kind(room: &mut [u8], at: usize, n: u32) -> usize
    ensures { text room.new result ≡ appended (text room.old at) (kind_line n) }
{
    put_code(room, at, b"  kind: ", n, kind_words(n))
}

fn inverted_words(n: u32) -> &'static [u8]
    ensures { result.now ≡ inverted_text n }
{
    match n {
        0 => b" no\n",
        1 => b" yes\n",
        _ => b" outside its rule\n",
    }
}

pub fn put_inverted(room: &mut [u8], at: usize, n: u32) -> usize
    ensures { text room.new result ≡ appended (text room.old at) (inverted_line n) }
{
    put_code(room, at, b"  inverted: ", n, inverted_words(n))
}

// ----- kind 1, Helmert -------------------------------------------------------------------

fn length_unit(mm: bool) -> Unit
    ensures { result ≡ length_unit mm }
{
    if mm { Unit::Millimetre } else { Unit::Metre }
}

fn angle_unit(uas: bool) -> Unit
    ensures { result ≡ angle_unit uas }
{
    if uas {
        Unit::MicroArcsecond
    } else {
        Unit::Arcsecond
    }
}

fn put_lengths(room: &mut [u8], at: usize, s: &[u8], base: u32, mm: bool) -> usize
    ensures { text room.new result ≡ appended (text room.old at) (lengths_text s.now base mm) }
{
    let unit = length_unit(mm);
    let p = lines::put_series(
        room,
        at,
        b"  translation: ",
        b"  xyz: ",
        s,
        base,
        8,
        32,
        unit,
        false,
    );
    lines::put_series(
        room,
        p,
        b"  translation_rate: ",
        b"  dxyz: ",
        s,
        base,
        56,
        80,
        unit,
        true,
    )
}

fn put_angles(room: &mut [u8], at: usize, s: &[u8], base: u32, uas: bool) -> usize
    ensures { text room.new result ≡ appended (text room.old at) (angles_text s.now base uas) }
{
    let unit = angle_unit(uas);
    let p = lines::put_series(
        room,
        at,
        b"  rotation: ",
        b"  rxyz: ",
        s,
        base,
        104,
        128,
        unit,
        false,
    );
    lines::put_series(
        room,
        p,
        b"  rotation_rate: ",
        b"  drxyz: ",
        s,
        base,
        152,
        176,
        unit,
        true,
    )
}

fn put_scales(room: &mut [u8], at: usize, s: &[u8], base: u32) -> usize
    ensures { text room.new result ≡ appended (text room.old at) (scales_text s.now base) }
{
    let p = lines::put_single(
        room,
        at,
        b"  scale: ",
        b"  s: ",
        s,
        base,
        200,
        208,
        Unit::Ppm,
        false,
    );
    lines::put_single(
        room,
        p,
        b"  scale_rate: ",
        b"  ds: ",
        s,
        base,
        216,
        224,
        Unit::Ppm,
        true,
    )
}

fn put_helmert(room: &mut [u8], at: usize, s: &[u8], base: u32) -> usize
    ensures { text room.new result ≡ appended (text room.old at) (helmert_text s.now base) }
{
    let flags = lines::word_in(s, base, 0);
    let convention = lines::word_in(s, base, 4);
    let p = put_flags(room, at, &HELMERT_FLAGS, flags);
    let q = put_convention(room, p, convention);
    let r = put_lengths(room, q, s, base, flags / 4 % 2 == 1);
    let t = put_angles(room, r, s, base, flags / 2 % 2 == 1);
    let u = put_scales(room, t, s, base);
    let v = lines::put_time(room, u, b"  t_epoch: ", s, base, 232);
    lines::put_time(room, v, b"  t_obs: ", s, base, 240)
}

// ----- kind 2, cart ------------------------------------------------------------------------

fn put_cart(room: &mut [u8], at: usize, s: &[u8], base: u32) -> usize
    ensures { text room.new result ≡ appended (text room.old at) (cart_text s.now base) }
{
    let p = lines::put_ellipsoid(room, at, b"  ellipsoid: ", s, base, 0);
    lines::put_word(room, p, b"  reserved: ", s, base, 4)
}

// ----- kind 3, Molodensky --------------------------------------------------------------------

fn put_figures(room: &mut [u8], at: usize, s: &[u8], base: u32) -> usize
    ensures { text room.new result ≡ appended (text room.old at) (figures_text s.now base) }
{
    let flags = lines::word_in(s, base, 0);
    let p = put_flags(room, at, &MOLODENSKY_FLAGS, flags);
    let q = lines::put_ellipsoid(room, p, b"  first: ", s, base, 4);
    let r = lines::put_ellipsoid(room, q, b"  second: ", s, base, 8);
    lines::put_word(room, r, b"  reserved: ", s, base, 12)
}

fn put_shifts(room: &mut [u8], at: usize, s: &[u8], base: u32) -> usize
    ensures { text room.new result ≡ appended (text room.old at) (shifts_text s.now base) }
{
    let p = lines::put_one(room, at, b"  dx: ", s, base, 16, Unit::Metre, false);
    let q = lines::put_one(room, p, b"  dy: ", s, base, 24, Unit::Metre, false);
    let r = lines::put_one(room, q, b"  dz: ", s, base, 32, Unit::Metre, false);
    let t = lines::put_one(room, r, b"  da: ", s, base, 40, Unit::Metre, false);
    lines::put_one(room, t, b"  df: ", s, base, 48, Unit::Plain, false)
}

fn put_molodensky(room: &mut [u8], at: usize, s: &[u8], base: u32) -> usize
    ensures { text room.new result ≡ appended (text room.old at) (molodensky_text s.now base) }
{
    let p = put_figures(room, at, s, base);
    put_shifts(room, p, s, base)
}

// ----- kind 4, permtide ----------------------------------------------------------------------

fn put_permtide(room: &mut [u8], at: usize, s: &[u8], base: u32) -> usize
    ensures { text room.new result ≡ appended (text room.old at) (permtide_text s.now base) }
{
    let to = lines::word_in(s, base, 4);
    let from = lines::word_in(s, base, 8);
    let p = lines::put_ellipsoid(room, at, b"  ellipsoid: ", s, base, 0);
    let q = put_system(room, p, b"  to: ", to);
    let r = put_system(room, q, b"  from: ", from);
    let t = lines::put_word(room, r, b"  reserved: ", s, base, 12);
    lines::put_one(room, t, b"  k: ", s, base, 16, Unit::Plain, false)
}

// ----- kind 5, deformation -------------------------------------------------------------------

fn put_deformation(room: &mut [u8], at: usize, s: &[u8], base: u32) -> usize
    ensures { text room.new result ≡ appended (text room.old at) (deformation_text s.now base) }
{
    let flags = lines::word_in(s, base, 0);
    let p = put_flags(room, at, &DEFORMATION_FLAGS, flags);
    let q = lines::put_ellipsoid(room, p, b"  ellipsoid: ", s, base, 4);
    let r = lines::put_time(room, q, b"  dt: ", s, base, 8);
    lines::put_time(room, r, b"  t_epoch: ", s, base, 16)
}

// ----- kind 6, Molodensky-Badekas --------------------------------------------------------------

fn put_badekas_numbers(
    room: &mut [u8],
    at: usize,
    s: &[u8],
    base: u32,
    mm: bool,
    uas: bool,
) -> usize
    ensures { text room.new result ≡ appended (text room.old at) (badekas_numbers s.now base mm uas) }
{
    let length = length_unit(mm);
    let angle = angle_unit(uas);
    let p = lines::put_three(room, at, b"  translation: ", s, base, 8, length, false);
    let q = lines::put_three(room, p, b"  rotation: ", s, base, 32, angle, false);
    let r = lines::put_one(room, q, b"  scale: ", s, base, 56, Unit::Ppm, false);
    lines::put_three(room, r, b"  pivot: ", s, base, 64, Unit::Metre, false)
}

fn put_badekas(room: &mut [u8], at: usize, s: &[u8], base: u32) -> usize
    ensures { text room.new result ≡ appended (text room.old at) (badekas_text s.now base) }
{
    let flags = lines::word_in(s, base, 0);
    let convention = lines::word_in(s, base, 4);
    let p = put_flags(room, at, &BADEKAS_FLAGS, flags);
    let q = put_convention(room, p, convention);
    put_badekas_numbers(room, q, s, base, flags / 4 % 2 == 1, flags / 2 % 2 == 1)
}

// ----- by kind ---------------------------------------------------------------------------------

pub fn put_fields(room: &mut [u8], at: usize, kind: u32, s: &[u8], base: u32) -> usize
    ensures { text room.new result ≡ appended (text room.old at) (fields_text kind s.now base) }
{
    match kind {
        1 => put_helmert(room, at, s, base),
        2 => put_cart(room, at, s, base),
        3 => put_molodensky(room, at, s, base),
        4 => put_permtide(room, at, s, base),
        5 => put_deformation(room, at, s, base),
        6 => put_badekas(room, at, s, base),
        _ => text::put_bytes(room, at, b""),
    }
}
