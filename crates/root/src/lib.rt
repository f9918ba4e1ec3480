// The square root of a binary64 number, correctly rounded: the number nearest to the exact root, as
// IEEE 754 asks.
//
// By a float guess that an exact residual in whole numbers corrects. The guess: one over the root
// from the bits of the number (the start of the fast inverse square root of Quake III Arena),
// mended by one polynomial of six coefficients and one step of Newton's method. It is off by one
// unit in the last place for one number in eight, and was not off by more in 2 * 10^8 random ones;
// but nothing is proved of it and nothing rests on it. What is returned has passed a test: the
// number lies between the squares of the midpoints on either side of the root. Where the guess is
// too far off for the test to tell, and for a subnormal number, the root is worked out a digit at a
// time.
//
// Exact: proved correctly rounded for every binary64 number, subnormal ones included
// (`sqrt_is_correctly_rounded` in proofs/Laws.antt). The curvature radii of the ellipsoids, the
// inverses of cart and the length of a deformation call it.
//
// 0x10_0000_0000_0000 is 2^52, the weight of the exponent's field and of a significand's leading
// digit; 0x400_0000 is 2^26, half as many digits.
#![tactic(auto)]

ghost use Rattle.std.specs.Prelude.{◌≡◌, ℕ, ◌+◌, ◌-◌, ◌*◌, ◌^◌, ◌<◌, ◌≤◌, from_bits};
ghost use Rattle.std.specs.Float.{binary64};
ghost use Rattle.blocks.specs.Each.{at, Each};
ghost use Rattle.root.specs.Whole.{WholeRoot, NearestRoot, Significand, Digits};
ghost use Rattle.root.specs.Sqrt.{RoundedRoot, sqrt_of};

use blocks::WIDTH;

// A positive number as a whole number a of 53 or 54 digits, scaled by 2^k: as `Significand` says.
#[derive(Clone, Copy)]
struct Scaled {
    a: u64,
    k: u64,
}

// The whole part of the root of a, a binary digit at a time from the top.
fn whole(a: u64) -> u64
    requires { a < 2 ^ 54 }
    ensures { WholeRoot a result }
{
    let mut q: u64 = 0;
    let mut bit: u64 = 0x800_0000;
    while 1 < bit {
        let half = bit / 2;
        bit = bit - half;
        let t = q + half;
        if t * t <= a {
            q = t;
        }
    }
    q
}

// The root of a * 2^52, rounded to the nearest: the whole part of a's root and 26 digits more, one
// at a time.
fn by_digits(a: u64) -> u64
    requires { (2 ^ 52 ≤ a) × (a < 2 ^ 54) }
    ensures { NearestRoot (a * 2 ^ 52) result }
{
    let mut q = whole(a);
    let mut r = a - q * q;
    for _ in 0..26u64 {
        r = r * 4;
        q = q * 2;
        if 2 * q < r {
            r = r - 2 * q - 1;
            q = q + 1;
        }
    }
    if q < r { q + 1 } else { q }
}

// q * 2^k units of 2^-1074, q having 53 digits: the leading one adds one to the exponent's field.
fn put(q: u64, k: u64) -> f64
    requires { (2 ^ 52 ≤ q) × (q < 2 ^ 53) × (k < 2000) }
    ensures { result ≡ from_bits binary64 (k * 2 ^ 52 + q) }
{
    f64::from_bits(k * 0x10_0000_0000_0000 + q)
}

// The root of a * 2^52 * 4^k units of 2^-2148, a digit at a time.
fn slow(a: u64, k: u64) -> f64
    requires { (2 ^ 52 ≤ a) × (a < 2 ^ 54 - 1) × (k < 2000) }
    ensures { RoundedRoot (a * 2 ^ 52 * (2 ^ k * 2 ^ k)) result }
{
    put(by_digits(a), k)
}

// The same from any guess g at the root of a * 2^52, of which the answer is the nearest whole
// number. The square of g has 106 bits, so g is cut into h * 2^26 + l. The residual a * 2^52 - g^2
// is v - 2 g: the answer is g where it lies above -g and is at most g, and one more or one less up
// to 2 g. The differences may wrap, and the test after each sends what wrapped the slow way.
fn nearest(a: u64, g: u64, k: u64) -> f64
    requires { (2 ^ 52 ≤ a) × (a < 2 ^ 54 - 1) × Digits g × (k < 2000) }
    ensures { RoundedRoot (a * 2 ^ 52 * (2 ^ k * 2 ^ k)) result }
{
    let h = g / 0x400_0000;
    let l = g % 0x400_0000;
    let d = std::num::wrapping_sub_u64(a, h * h);
    if 0x4000_0000 < d {
        return slow(a, k);
    }
    let w = std::num::wrapping_sub_u64(d * 0x400_0000 + 0x4_0000_0000, 2 * h * l);
    if 0x8_0000_0000 < w {
        return slow(a, k);
    }
    let v = std::num::wrapping_sub_u64(w * 0x400_0000 + 2 * g, l * l + 0x1000_0000_0000_0000);
    if 4 * g <= v {
        return slow(a, k);
    }
    let up: u64 = if 3 * g < v { 1 } else { 0 };
    let down: u64 = if v <= g { 1 } else { 0 };
    put(g + up - down, k)
}

// The root of t, nearly, from y, which is within 4 parts in 100 of one over it. u = t * y^2 lies
// from 0.9218 to 1.0523, and there p is 1 / sqrt(u) within 2^-30.6.
fn approximate(t: f64, y: f64) -> f64 {
    let s0 = t * y;
    let u = s0 * y;
    let v = u * u;
    let p = 2.7275847559490614 - u * 4.613752980236236
        + v * (5.616590911856275 - u * 4.068103179103127)
        + v * v * (1.6035218163339007 - u * 0.2658413245865824);
    let s = s0 * p;
    s + (t - s * s) * (0.5 * y * p)
}

// The bits of s, or of 0.5 where s is less or NaN: a choice that a machine makes in one
// instruction.
fn half_or_more(s: f64) -> u64 {
    let z = if 0.5 < s { s } else { 0.5 };
    f64::to_bits(z)
}

// A guess at the root's 53 digits from the number's bits. What lies above the exponent's lowest bit
// scales the root and is left out: t's number is from 0.5 to below 2. Halving t halves the
// exponent: the constant less that is nearly the bits of one over the root. There is no branch, so
// that a loop over numbers becomes vector instructions.
fn guess(b: u64) -> u64
    ensures { Digits result }
{
    let t = b % 0x20_0000_0000_0000 + 0x3fe0_0000_0000_0000;
    let s = approximate(
        f64::from_bits(t),
        f64::from_bits(0x5fe6_c000_0000_0000 - t / 2),
    );
    half_or_more(s) % 0x10_0000_0000_0000 + 0x10_0000_0000_0000
}

// The bits that a guess is made from. A NaN needs none.
fn bits(x: f64) -> u64 {
    if x != x { 0 } else { f64::to_bits(x) }
}

// The normal number with the bits b. In e the exponent's field is one less, so that its lowest bit
// is 0 where the significand is not to be doubled.
fn normal(b: u64) -> Scaled
    requires { (2 ^ 52 ≤ b) × (b < 2047 * 2 ^ 52) }
    ensures { Significand b result.a result.k }
{
    let e = b - 0x10_0000_0000_0000;
    let m = e % 0x20_0000_0000_0000;
    let k = e / 0x20_0000_0000_0000 + 511;
    if m < 0x10_0000_0000_0000 {
        let a = m + 0x10_0000_0000_0000;
        return Scaled { a, k };
    }
    Scaled { a: 2 * m, k }
}

// The subnormal number with the bits b, brought up to 53 digits: m * 2^p units of 2^-2148. The loop
// goes by m and counts no index.
fn subnormal(b: u64) -> Scaled
    requires { (0 < b) × (b < 2 ^ 52) }
    ensures { Significand b result.a result.k }
{
    let mut m = b;
    let mut p: u64 = 1074;
    while m < 0x10_0000_0000_0000 {
        m = m * 2;
        p = p - 1;
    }
    let a = m * (p % 2 + 1);
    let k = (p - 52) / 2;
    Scaled { a, k }
}

// The square root of x, whatever the guess g at its digits.
fn from_guess(x: f64, g: u64) -> f64
    requires { Digits g }
    ensures { result ≡ sqrt_of x }
{
    if x != x {
        return x;
    }
    let b = f64::to_bits(x);
    if std::num::wrapping_sub_u64(b, 0x10_0000_0000_0000) < 0x7fe0_0000_0000_0000 {
        let c = normal(b);
        return nearest(c.a, g, c.k);
    }
    if 0x7ff0_0000_0000_0000 <= b {
        if b <= 0x8000_0000_0000_0000 {
            return x;
        }
        return 0.0 / 0.0;
    }
    if b == 0 {
        return x;
    }
    let c = subnormal(b);
    slow(c.a, c.k)
}

// The square root of x. -0 gives -0, +inf gives +inf, a negative number and NaN give NaN.
pub fn sqrt(x: f64) -> f64
    ensures { result ≡ sqrt_of x }
{
    from_guess(x, guess(bits(x)))
}

// The square roots of a block, each as `sqrt` gives it: first the guesses, two or more to an
// instruction, then the test of each.
pub fn sqrt_block(x: &[f64; WIDTH], r: &mut [f64; WIDTH])
    ensures { Each r.new (λ (j : ℕ). sqrt_of (at x.now j)) }
{
    *r = [0.0; WIDTH];
    let mut g: [u64; WIDTH] = [0; WIDTH];
    for i in 0..WIDTH {
        g[i] = guess(bits(x[i]));
    }
    for j in 0..WIDTH {
        r[j] = from_guess(x[j], g[j]);
    }
}
