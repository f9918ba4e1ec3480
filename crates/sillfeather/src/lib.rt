// The library as C and Rust link it: each exported function only hands over to a proved entry, and
// keeps its contract.
//
// A sheet is checked, run over a list, run and kept to be corrected later, made step by step in lent
// room, or rebuilt from a damaged one. A result of 0 is done; otherwise it is the refusal's number
// plus 65536 times the step, and nothing was written but zeros where counts are asked for.
// include/sillfeather.h says of each function what it reads, writes, refuses and leaves alone.
// The kernels, on any binary64 numbers: nothing is refused, and what each gives for a NaN, an
// infinity or a zero is its crate's law.
#![tactic(auto)]

ghost use Rattle.std.specs.Prelude.{◌≡◌, ◌≤◌};
ghost use Rattle.sheet.specs.Rules.{refusal_of};
ghost use Rattle.chain.specs.Rules.{shift_of};
ghost use Rattle.stretch.specs.Kept.{kept_of};
ghost use Rattle.kept.specs.Entries.{keep_refusal_of, keep_of, correct_of};
ghost use Rattle.making.specs.Adding.{added_of};
ghost use Rattle.rescue.specs.Rules.{rescue_of};
ghost use Rattle.codes.specs.Codes.{code_of, is_inverse};
ghost use Rattle.sillfeather.specs.Codes.{handed, handed_of, corrected, corrected_of, made, made_of, mended, mended_of};
ghost use Rattle.arrays.specs.Arrays.{tuple_of, helmert_of, molodensky_of};
ghost use Rattle.sillfeather.specs.Records.{cart_with, permtide_with, deformation_with};
ghost use Rattle.root.specs.Sqrt.{sqrt_of};
ghost use Rattle.trig.specs.Trig.{sin_of, cos_of};
ghost use Rattle.arctan.specs.Arctan.{atan2_of};
ghost use Rattle.hypot.specs.Hypot.{hypot_of};

use bodies::Step;
use cart::Cart;
use deformation::Deformation;
use permtide::Permtide;

#[unsafe(no_mangle)]
pub extern "C" fn sillfeather_sqrt(x: f64) -> f64
    ensures { result ≡ sqrt_of x }
{
    root::sqrt(x)
}

#[unsafe(no_mangle)]
pub extern "C" fn sillfeather_sin(x: f64) -> f64
    ensures { result ≡ sin_of x }
{
    trig::sin(x)
}

#[unsafe(no_mangle)]
pub extern "C" fn sillfeather_cos(x: f64) -> f64
    ensures { result ≡ cos_of x }
{
    trig::cos(x)
}

// The sine and the cosine of one angle, at the cost of little more than one of them.
#[unsafe(no_mangle)]
pub extern "C" fn sillfeather_sin_cos(x: f64, s: &mut f64, c: &mut f64)
    ensures { (s.new ≡ sin_of x) × (c.new ≡ cos_of x) }
{
    let pair = trig::sin_cos_numbers(x);
    *s = pair.s;
    *c = pair.c;
}

#[unsafe(no_mangle)]
pub extern "C" fn sillfeather_atan2(y: f64, x: f64) -> f64
    ensures { result ≡ atan2_of y x }
{
    arctan::atan2(y, x)
}

#[unsafe(no_mangle)]
pub extern "C" fn sillfeather_hypot(x: f64, y: f64) -> f64
    ensures { result ≡ hypot_of x y }
{
    hypot::hypot(x, y)
}

// The first rule that the sheet breaks.
#[unsafe(no_mangle)]
pub extern "C" fn sillfeather_check(s: &[u8]) -> u32
    ensures { result ≡ code_of (refusal_of s.now) }
{
    codes::answer(sheet::check(s))
}

// A sheet over a list, in place: forward where inverse is 0, else inverse. `counts` gets each
// step's count in the sheet's order, 0 in the other places.
#[unsafe(no_mangle)]
pub extern "C" fn sillfeather_shift(
    inverse: u32,
    s: &[u8],
    list: &mut [f64],
    velocities: &[f64],
    marks: &[u8],
    counts: &mut [u32; 16],
) -> u32
    ensures { handed result counts.new list.new ≡ handed_of (shift_of (is_inverse inverse) s.now list.old velocities.now marks.now) }
{
    match chain::shift(inverse != 0, s, list, velocities, marks) {
        Ok(tallies) => {
            *counts = codes::narrow(tally::counts(tallies));
            0
        }
        Err(refusal) => {
            *counts = [0; 16];
            codes::code(refusal)
        }
    }
}

// A fresh kept run: reads the list, writes results and, after each fix, the track.
#[unsafe(no_mangle)]
pub extern "C" fn sillfeather_keep(
    inverse: u32,
    s: &[u8],
    list: &[f64],
    results: &mut [f64],
    track: &mut [f64],
) -> u32
    ensures { (result ≡ code_of (keep_refusal_of s.now (kept_of list.now results.old track.old)))
        × (kept_of list.now results.new track.new
        ≡ keep_of (is_inverse inverse) s.now (kept_of list.now results.old track.old)) }
{
    codes::answer(kept::keep(inverse != 0, s, list, results, track))
}

// Corrects one fix of a kept run: writes it into the list and redoes from there; `redone` gets how
// many fixes were, 0 on refusal.
#[unsafe(no_mangle)]
pub extern "C" fn sillfeather_correct(
    inverse: u32,
    s: &[u8],
    list: &mut [f64],
    results: &mut [f64],
    track: &mut [f64],
    index: usize,
    fix: &[f64; 4],
    redone: &mut u64,
) -> u32
    ensures { corrected result redone.new (kept_of list.new results.new track.new)
        ≡ corrected_of (correct_of (is_inverse inverse) s.now (kept_of list.old results.old track.old) index (tuple_of fix.now)) }
{
    let fix = arrays::tuple_of(fix);
    match kept::correct(inverse != 0, s, list, results, track, index, fix) {
        Ok(fixes) => {
            *redone = fixes;
            0
        }
        Err(refusal) => {
            *redone = 0;
            codes::code(refusal)
        }
    }
}

// ----- making a sheet -------------------------------------------------------------------------

// Adds a step to the sheet in the room's first `len` bytes.
fn add(room: &mut [u8], len: &mut u64, inverted: u32, step: Step) -> u32
    ensures { made result len.new room.new ≡ made_of (added_of room.old len.old inverted step) }
{
    match making::add(room, *len as usize, inverted, step) {
        Ok(length) => {
            *len = length as u64;
            0
        }
        Err(refusal) => codes::code(refusal),
    }
}

// The 30 numbers in the order of the body.
#[unsafe(no_mangle)]
pub extern "C" fn sillfeather_add_helmert(
    room: &mut [u8],
    len: &mut u64,
    inverted: u32,
    flags: u32,
    convention: u32,
    numbers: &[f64; 30],
) -> u32
    ensures { made result len.new room.new
        ≡ made_of (added_of room.old len.old inverted (Step.Helmert (helmert_of flags convention numbers.now))) }
{
    add(
        room,
        len,
        inverted, // any other word than 0 or 1 is refused by 4
        Step::Helmert(arrays::helmert_of(flags, convention, numbers)),
    )
}

#[unsafe(no_mangle)]
pub extern "C" fn sillfeather_add_cart(
    room: &mut [u8],
    len: &mut u64,
    inverted: u32,
    ellipsoid: u32,
) -> u32
    ensures { made result len.new room.new
        ≡ made_of (added_of room.old len.old inverted (Step.Cart (cart_with ellipsoid))) }
{
    add(
        room,
        len,
        inverted,
        Step::Cart(Cart {
            ellipsoid: ellipsoid,
        }),
    )
}

// dx, dy, dz, da, df.
#[unsafe(no_mangle)]
pub extern "C" fn sillfeather_add_molodensky(
    room: &mut [u8],
    len: &mut u64,
    inverted: u32,
    flags: u32,
    first: u32,
    second: u32,
    numbers: &[f64; 5],
) -> u32
    ensures { made result len.new room.new
        ≡ made_of (added_of room.old len.old inverted (Step.Molodensky (molodensky_of flags first second numbers.now))) }
{
    add(
        room,
        len,
        inverted,
        Step::Molodensky(arrays::molodensky_of(flags, first, second, numbers)),
    )
}

#[unsafe(no_mangle)]
pub extern "C" fn sillfeather_add_permtide(
    room: &mut [u8],
    len: &mut u64,
    inverted: u32,
    ellipsoid: u32,
    to: u32,
    from: u32,
    k: f64,
) -> u32
    ensures { made result len.new room.new
        ≡ made_of (added_of room.old len.old inverted (Step.Permtide (permtide_with ellipsoid to from k))) }
{
    add(
        room,
        len,
        inverted,
        Step::Permtide(Permtide {
            ellipsoid: ellipsoid,
            to: to,
            from: from,
            k: k,
        }),
    )
}

#[unsafe(no_mangle)]
pub extern "C" fn sillfeather_add_deformation(
    room: &mut [u8],
    len: &mut u64,
    inverted: u32,
    flags: u32,
    ellipsoid: u32,
    dt: f64,
    epoch: f64,
) -> u32
    ensures { made result len.new room.new
        ≡ made_of (added_of room.old len.old inverted (Step.Deformation (deformation_with flags ellipsoid dt epoch))) }
{
    add(
        room,
        len,
        inverted,
        Step::Deformation(Deformation {
            flags: flags,
            ellipsoid: ellipsoid,
            dt: dt,
            epoch: epoch,
        }),
    )
}

// ----- a damaged sheet ------------------------------------------------------------------------

// Rebuilds a damaged sheet at the room's start, and lists each word changed: place, old, new.
// `changed` gets how many words were, 0 on refusal.
#[unsafe(no_mangle)]
pub extern "C" fn sillfeather_rescue(
    damaged: &[u8],
    room: &mut [u8],
    changes: &mut [u32],
    changed: &mut u64,
) -> u32
    ensures { mended result changed.new room.new changes.new
        ≡ mended_of (rescue_of damaged.now room.old changes.old) }
{
    match rescue::rescue(damaged, room, changes) {
        Ok(words) => {
            *changed = words::long(words);
            0
        }
        Err(refusal) => {
            *changed = 0;
            codes::code(refusal)
        }
    }
}
