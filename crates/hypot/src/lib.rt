// hypot: the length √(x² + y²), where neither a square nor the sum overflows or underflows on the
// way.
//
// The root is one over a root guessed from the bits of the sum of squares, bettered by a polynomial
// and then by the exact rest of the squares, b² - (h - a)·(h + a)
// for the larger part a, which needs neither a square root nor a fused multiplication. Proved:
// infinite if either part is, even beside a NaN; NaN exactly where a part is and neither is
// infinite; symmetric, and by the magnitudes alone; never below the larger part nor above the sum
// of both.
// Measured against MPFR over 19.5 million points, subnormal and huge parts among them: within 0.978
// units in the last place (measure/atan2_hypot.c; docs/KERNELS.md).
// The distance from the axis in `cart` and `geocart` is taken by it; `hypot_block` is the same for
// sixteen points at once, by the usual case here.
#![tactic(auto)]

ghost use Rattle.std.specs.Prelude.{◌≡◌, true, false};
ghost use Rattle.std.specs.Float.Ieee.{is_nan};
ghost use Rattle.floats.specs.Number.{abs_of};
ghost use Rattle.hypot.specs.Hypot.{larger, smaller, squares_of, guess_of, reciprocal_root_of, root_of, scaled_root_of, rescaled_of, ordinary, bounded_of, hypot_of, usual_of};

// 2^-900 and 2^1000: a sum of squares between them lost nothing by overflow or underflow
const LEAST: f64 = 1.1830521861667747e-271;

const MOST: f64 = 1.0715086071862673e301;

const UP: f64 = 4.149515568880993e180;

const DOWN: f64 = 2.409919865102884e-181;

const C2: f64 = 0.3749978568724811;

const C3: f64 = 0.31249761099198886;

const C4: f64 = 0.27491143844841626;

const C5: f64 = 0.24756060687689005;

fn is_ordinary(squares: f64) -> bool
    ensures { result ≡ ordinary squares }
{
    squares > LEAST && squares < MOST
}

fn larger_of(a: f64, b: f64) -> f64
    ensures { result ≡ larger a b }
{
    if a < b { b } else { a }
}

fn smaller_of(a: f64, b: f64) -> f64
    ensures { result ≡ smaller a b }
{
    if a < b { a } else { b }
}

// 1/√s within 3.5 %
fn guess_of(s: f64) -> f64
    ensures { result ≡ guess_of s }
{
    floats::of_bits(0x5fe6_e8f0_0000_0000 - floats::to_bits(s) % 0x8000_0000_0000_0000 / 2)
}

// the same of a number that is no NaN, without a test for one
fn guess_of_number(s: f64) -> f64
    requires { is_nan s ≡ false }
    ensures { result ≡ guess_of s }
{
    f64::from_bits(0x5fe6_e8f0_0000_0000 - f64::to_bits(s) % 0x8000_0000_0000_0000 / 2)
}

// 1/√(1 - e) for small e
fn reciprocal_root(e: f64) -> f64
    ensures { result ≡ reciprocal_root_of e }
{
    let ee = e * e;
    1.0 + 0.5 * e + (C2 + C3 * e) * ee + (C4 + C5 * e) * (ee * ee)
}

// √s for s = a² + b², from the guess at it
fn root(guess: f64, s: f64, a: f64, b: f64) -> f64
    requires { guess ≡ guess_of s }
    ensures { result ≡ root_of s a b }
{
    let near = s * guess;
    let factor = reciprocal_root(1.0 - near * guess);
    let h = near * factor;
    h + 0.5 * guess * factor * (b * b - (h - a) * (h + a))
}

fn scaled_root(scale: f64, back: f64, a: f64, b: f64) -> f64
    ensures { result ≡ scaled_root_of scale back a b }
{
    let p = a * scale;
    let q = b * scale;
    let s = p * p + q * q;
    root(guess_of(s), s, p, q) * back
}

// parts whose squares would overflow or underflow
fn rescaled(a: f64, b: f64) -> f64
    ensures { result ≡ rescaled_of a b }
{
    if a > 1.0 {
        scaled_root(DOWN, UP, a, b)
    } else {
        scaled_root(UP, DOWN, a, b)
    }
}

// From the larger part to the sum of both. Asked first is what nearly always holds: the answer then
// waits for no comparison.
fn bounded(a: f64, b: f64, length: f64) -> f64
    ensures { result ≡ bounded_of a b length }
{
    let sum = a + b;
    if a < length && length < sum {
        return length;
    }
    if length < sum {
        if a < length { length } else { a }
    } else {
        sum
    }
}

// |x| of a number that is no NaN, by its bits: one instruction
fn magnitude(x: f64) -> f64
    requires { is_nan x ≡ false }
    ensures { result ≡ abs_of x }
{
    f64::from_bits(f64::to_bits(x) % 0x8000_0000_0000_0000)
}

// the usual case: parts whose sum of squares is ordinary
fn ordinary_length(squares: f64, x: f64, y: f64) -> f64
    requires { (squares ≡ squares_of x y) × (ordinary squares ≡ true) }
    ensures { result ≡ hypot_of x y }
{
    let p = magnitude(x);
    let q = magnitude(y);
    let a = larger_of(p, q);
    let b = smaller_of(p, q);
    bounded(a, b, root(guess_of_number(squares), squares, a, b))
}

pub fn hypot(x: f64, y: f64) -> f64
    ensures { result ≡ hypot_of x y }
{
    let squares = x * x + y * y;
    if is_ordinary(squares) {
        return ordinary_length(squares, x, y);
    }
    let p = floats::abs(x);
    let q = floats::abs(y);
    let infinity = 1.0 / 0.0;
    if p == infinity || q == infinity {
        return infinity;
    }
    let a = larger_of(p, q);
    let b = smaller_of(p, q);
    bounded(a, b, rescaled(a, b))
}

// The usual case alone, for loops over blocks: the length, or none where the sum of squares is not
// ordinary.
pub fn usual_length(x: f64, y: f64) -> Option<f64>
    ensures { result ≡ usual_of x y }
{
    let squares = x * x + y * y;
    if is_ordinary(squares) {
        Some(ordinary_length(squares, x, y))
    } else {
        None
    }
}
