// Sine and cosine of an angle in radians, as a pair and one by one.
//
// The method is Tang's: sine and cosine at the steps of a circle from a table, each in two parts,
// and short polynomials between the steps. The angle's magnitude is taken apart as k·π/32 + r with
// |r| ≤ π/64, after Cody and Waite with π/32 in three parts, so that r is right to its last place
// near every multiple of π/2. Where we depart: the table goes round the whole circle, so that there
// are no quadrants to tell apart; what rounding took from r is kept as `tail`; and one sum serves
// sine and cosine, in which only the last addition rounds a number of the result's size.
//
// Proved: the answer is the definition's for every angle; within -1 to 1; sine odd, cosine even;
// sine of a zero is that zero, cosine of a zero is 1. The answer is either the pair of numbers or
// none, "out of reach", the latter exactly for an angle not finite or beyond ±1024 (document 02,
// A5); its numbers are then NaN, and only then. Measured: within 0.59·2^-53 for |x| up to 8, and within 1.35
// units in the last place for every angle in reach. Every step of a shift that meets a latitude or
// an exact rotation uses the pair.
#![tactic(auto)]

ghost use Rattle.std.specs.Prelude.{◌≡◌, ◌%◌, cond, Some, None};
ghost use Rattle.floats.specs.Number.{abs_of};
ghost use Rattle.trig.specs.Table.{row_of, aside_of, half_of};
ghost use Rattle.trig.specs.Trig.{reduced_of, bend_of, at_most_one, clamp_of, sum_of, sine_of, cosine_of, pair_of, mirrored_of, sin_of, cos_of, sin_cos_of, out_of_reach, angle_of, numbers_of};

use floats::{abs, of_bits, to_bits};

#[derive(Clone, Copy)]
pub struct SinCos {
    pub s: f64,
    pub c: f64,
}

// The magnitude of x, or none for an angle not finite or beyond ±1024, which is out of reach. The
// test for NaN comes before the magnitude, which of a number is a single instruction.
fn in_reach(x: f64) -> Option<f64>
    ensures { result ≡ cond (out_of_reach x) None (Some (abs_of x)) }
{
    if x != x {
        return None;
    }
    let a = abs(x);
    if a <= 1024.0 { Some(a) } else { None }
}

// Sine and cosine, or none for an angle out of reach. One branch for the zeros keeps the sign of
// -0.
pub fn sin_cos(x: f64) -> Option<SinCos>
    ensures { result ≡ angle_of x }
{
    if x == 0.0 {
        return Some(SinCos { s: x, c: 1.0 });
    }
    let p = pair(in_reach(x)?);
    Some(SinCos {
        s: signed(p.s, x),
        c: p.c,
    })
}

// The answer taken apart into the numbers that a sequence of roundings goes on with: out of reach,
// two NaNs.
pub fn numbers(a: Option<SinCos>) -> SinCos
    ensures { result ≡ numbers_of a }
{
    let none = 0.0 / 0.0;
    a.unwrap_or(SinCos { s: none, c: none })
}

// The numbers at once, for C, which has no Option.
pub fn sin_cos_numbers(x: f64) -> SinCos
    ensures { result ≡ sin_cos_of x }
{
    numbers(sin_cos(x))
}

// The sine alone: as the pair, with one sum.
pub fn sin(x: f64) -> f64
    ensures { result ≡ sin_of x }
{
    if x == 0.0 {
        return x;
    }
    match in_reach(x) {
        Some(a) => signed(sine(a), x),
        None => 0.0 / 0.0,
    }
}

// The cosine alone.
pub fn cos(x: f64) -> f64
    ensures { result ≡ cos_of x }
{
    if x == 0.0 {
        return 1.0;
    }
    match in_reach(x) {
        Some(a) => cosine(a),
        None => 0.0 / 0.0,
    }
}

// s, turned where x is below zero: the sine is odd. Of a number that is not zero this is its sign,
// and costs no branch.
pub fn signed(s: f64, x: f64) -> f64
    ensures { result ≡ mirrored_of s x }
{
    if x < 0.0 { -s } else { s }
}

// Sine and cosine of a magnitude in reach. The slope of the sine is the cosine, that of the cosine
// the sine turned. It stays out of line, so that `sin_cos` is small enough to stand in its callers'
// places and the Option is never stored.
#[inline(never)]
fn pair(a: f64) -> SinCos
    ensures { result ≡ pair_of a }
{
    let g = reduce(a);
    let w = look_up(g.step);
    let b = bend(g.rest, g.tail);
    SinCos {
        s: sum(w.0, w.1, w.2, g.rest, b),
        c: sum(w.2, w.3, -w.0, g.rest, b),
    }
}

// The sine of a magnitude in reach. It is not read from the pair, which stands out of line and adds
// up the cosine too.
fn sine(a: f64) -> f64
    ensures { result ≡ sine_of a }
{
    let g = reduce(a);
    let w = look_up(g.step);
    let b = bend(g.rest, g.tail);
    sum(w.0, w.1, w.2, g.rest, b)
}

// The cosine of a magnitude in reach, likewise.
fn cosine(a: f64) -> f64
    ensures { result ≡ cosine_of a }
{
    let g = reduce(a);
    let w = look_up(g.step);
    let b = bend(g.rest, g.tail);
    sum(w.2, w.3, -w.0, g.rest, b)
}

// An angle as a step of the circle, counted in the last six bits, a small rest, and what rounding
// took from the rest.
#[derive(Clone, Copy)]
pub struct Reduced {
    pub step: u64,
    pub rest: f64,
    pub tail: f64,
}

// 32/π, the steps in a radian
const STEPS: f64 = 10.185916357881302;
// 3·2^51: a sum with it is a whole number, which stands in the sum's last bits
const WHOLE: f64 = 6755399441055744.0;
// π/32 in three parts; the product of either of the first two with a whole number up to 2^14 is
// exact
const STEP_1: f64 = 0.0981747704247482;

const STEP_2: f64 = -6.716466596861444e-14;

const STEP_3: f64 = 3.9801982271943437e-26;

pub fn reduce(a: f64) -> Reduced
    ensures { result ≡ reduced_of a }
{
    let t = a * STEPS + WHOLE;
    let n = t - WHOLE;
    let w = a - n * STEP_1;
    let v = n * STEP_2;
    let r = w - v;
    Reduced {
        step: to_bits(t),
        rest: r,
        tail: ((w - r) - v) - n * STEP_3,
    }
}

// What the sine of the small angle has beyond its rest, and its cosine beyond 1.
#[derive(Clone, Copy)]
pub struct Bends {
    pub sine: f64,
    pub cosine: f64,
}

// sin r = r + r³·(S1 + S2·r² + S3·r⁴) and cos r = 1 + r²·(C1 + C2·r² + C3·r⁴ + C4·r⁶), fitted to
// |r| ≤ π/64
const S1: f64 = -0.166666666666657;

const S2: f64 = 0.00833333331241848;

const S3: f64 = -0.00019839908198318213;

const C1: f64 = -0.5;

const C2: f64 = 0.04166666666666547;

const C3: f64 = -0.0013888888865422283;

const C4: f64 = 2.4800157947443464e-5;

pub fn bend(r: f64, tail: f64) -> Bends
    ensures { result ≡ bend_of r tail }
{
    let z = r * r;
    Bends {
        sine: tail + r * z * (S1 + z * (S2 + z * S3)),
        cosine: z * (C1 + z * (C2 + z * (C3 + z * C4))),
    }
}

fn at_most_one(r: f64) -> f64
    ensures { result ≡ at_most_one r }
{
    if r < 1.0 { r } else { 1.0 }
}

// No sum of ours has been seen to pass 1. The clamp makes that a law.
fn clamp(r: f64) -> f64
    ensures { result ≡ clamp_of r }
{
    let u = at_most_one(r);
    if -1.0 < u { u } else { -1.0 }
}

// f(A + r) = f(A)·cos r + f'(A)·sin r for sine and cosine alike, summed from the smallest part to
// the largest
pub fn sum(high: f64, low: f64, slope: f64, r: f64, b: Bends) -> f64
    ensures { result ≡ sum_of high low slope r b }
{
    clamp(high + (slope * r + (slope * b.sine + (high * b.cosine + low))))
}

// Sine and cosine of a step of the circle, each as the number nearest to it and what that leaves:
// sine, its rest, cosine, its rest.
#[derive(Clone, Copy)]
pub struct Row(pub f64, pub f64, pub f64, pub f64);

// The row of a step: that of the step as far from 0 on the first half of the circle, the sine
// turned on the second half.
pub fn look_up(k: u64) -> Row
    ensures { result ≡ row_of k }
{
    let w = half(aside(k));
    // 1, and -1 past the half
    let turn = of_bits(0x3ff0_0000_0000_0000 + (k % 64 + 31) / 64 * 0x8000_0000_0000_0000);
    Row(turn * w.0, turn * w.1, w.2, w.3)
}

// How far a step is from 0, either way round.
fn aside(k: u64) -> u64
    ensures { result ≡ aside_of (k % 64) }
{
    let i = k % 64;
    if i < 32 { i } else { 64 - i }
}

// The rows of the first half, 0 to 32. One `match` with constants becomes a table in read-only
// memory, where an array would be built anew at each call; with an arm for each of the 64 steps it
// would count as too large to be put in the place of more than one call.
pub fn half(d: u64) -> Row
    ensures { result ≡ half_of d }
{
    match d {
        0 => Row(0.0, 0.0, 1.0, 0.0),
        1 => Row(H1, L1, H15, L15),
        2 => Row(H2, L2, H14, L14),
        3 => Row(H3, L3, H13, L13),
        4 => Row(H4, L4, H12, L12),
        5 => Row(H5, L5, H11, L11),
        6 => Row(H6, L6, H10, L10),
        7 => Row(H7, L7, H9, L9),
        8 => Row(H8, L8, H8, L8),
        9 => Row(H9, L9, H7, L7),
        10 => Row(H10, L10, H6, L6),
        11 => Row(H11, L11, H5, L5),
        12 => Row(H12, L12, H4, L4),
        13 => Row(H13, L13, H3, L3),
        14 => Row(H14, L14, H2, L2),
        15 => Row(H15, L15, H1, L1),
        16 => Row(1.0, 0.0, 0.0, 0.0),
        17 => Row(H15, L15, -H1, -L1),
        18 => Row(H14, L14, -H2, -L2),
        19 => Row(H13, L13, -H3, -L3),
        20 => Row(H12, L12, -H4, -L4),
        21 => Row(H11, L11, -H5, -L5),
        22 => Row(H10, L10, -H6, -L6),
        23 => Row(H9, L9, -H7, -L7),
        24 => Row(H8, L8, -H8, -L8),
        25 => Row(H7, L7, -H9, -L9),
        26 => Row(H6, L6, -H10, -L10),
        27 => Row(H5, L5, -H11, -L11),
        28 => Row(H4, L4, -H12, -L12),
        29 => Row(H3, L3, -H13, -L13),
        30 => Row(H2, L2, -H14, -L14),
        31 => Row(H1, L1, -H15, -L15),
        _ => Row(0.0, 0.0, -1.0, -0.0),
    }
}

// sin(2πj/64) for j from 1 to 15: the number nearest to it, and what that leaves
const H1: f64 = 0.0980171403295606;

const L1: f64 = -1.634582362244256e-18;

const H2: f64 = 0.19509032201612828;

const L2: f64 = -7.991079068461731e-18;

const H3: f64 = 0.2902846772544624;

const L3: f64 = -1.892797870777425e-17;

const H4: f64 = 0.3826834323650898;

const L4: f64 = -1.0050772696461588e-17;

const H5: f64 = 0.47139673682599764;

const L5: f64 = 6.516678136069013e-18;

const H6: f64 = 0.5555702330196022;

const L6: f64 = 4.709410940561677e-17;

const H7: f64 = 0.6343932841636455;

const L7: f64 = 1.0420901929280035e-17;

const H8: f64 = 0.7071067811865476;

const L8: f64 = -4.833646656726457e-17;

const H9: f64 = 0.773010453362737;

const L9: f64 = -3.256590703364977e-17;

const H10: f64 = 0.8314696123025452;

const L10: f64 = 1.4073856984728024e-18;

const H11: f64 = 0.881921264348355;

const L11: f64 = -1.9843248405890562e-17;

const H12: f64 = 0.9238795325112867;

const L12: f64 = 1.7645047084336677e-17;

const H13: f64 = 0.9569403357322088;

const L13: f64 = 4.05538698618757e-17;

const H14: f64 = 0.9807852804032304;

const L14: f64 = 1.8546939997825006e-17;

const H15: f64 = 0.9951847266721969;

const L15: f64 = -4.248691367830441e-17;
