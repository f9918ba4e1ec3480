// Signs, magnitudes, sameness, bit patterns and small powers of binary64 numbers: what every kernel
// and step above takes for granted.
//
// Every function takes every number, NaN, infinities and both zeros among them. In the logic there
// is one NaN, with no sign: it counts as positive, its magnitude is itself, and its bits are
// written 7ff8000000000000. Nothing here rounds but `square` and `cube`.
#![tactic(auto)]

ghost use Rattle.std.specs.Prelude.{◌≡◌};
ghost use Rattle.std.specs.Float.{binary64};
ghost use Rattle.std.specs.Float.Ieee.{of_bits, to_bits, is_nan};
ghost use Rattle.std.specs.Float.Ieee.Scale.{finite};
ghost use Rattle.floats.specs.Number.{sign_of, abs_of, copysign_of, same_of, square_of, cube_of};

// Whether x carries a minus sign: the highest bit, of any number but NaN.
pub fn negative(x: f64) -> bool
    ensures { result ≡ sign_of x }
{
    if x != x {
        false
    } else {
        0x8000_0000_0000_0000 <= f64::to_bits(x)
    }
}

pub fn is_nan(x: f64) -> bool
    ensures { result ≡ is_nan x }
{
    x != x
}

// Whether x is a number and no infinity: only then is x less itself zero.
pub fn is_finite(x: f64) -> bool
    ensures { result ≡ finite x }
{
    x - x == 0.0
}

// The magnitude. Zero less a zero of either sign is +0, and in this form the compiler makes one
// instruction of it.
pub fn abs(x: f64) -> f64
    ensures { result ≡ abs_of x }
{
    if x <= 0.0 { 0.0 - x } else { x }
}

// The magnitude of x with the sign of y.
pub fn copysign(x: f64, y: f64) -> f64
    ensures { result ≡ copysign_of x y }
{
    if negative(y) { -abs(x) } else { abs(x) }
}

// The number with these 64 bits. A NaN's bits, of which there are many, give the one NaN.
pub fn of_bits(b: u64) -> f64
    ensures { result ≡ of_bits binary64 b }
{
    if 0x7ff0_0000_0000_0000 < b % 0x8000_0000_0000_0000 {
        0.0 / 0.0
    } else {
        f64::from_bits(b)
    }
}

// The 64 bits of x; of a NaN 7ff8000000000000, whatever bits the machine holds.
pub fn to_bits(x: f64) -> u64
    ensures { result ≡ to_bits binary64 x }
{
    if x != x {
        0x7ff8_0000_0000_0000
    } else {
        f64::to_bits(x)
    }
}

// Whether two numbers are the same as data: NaN with NaN, zeros by their sign.
pub fn same(x: f64, y: f64) -> bool
    ensures { result ≡ same_of x y }
{
    to_bits(x) == to_bits(y)
}

// powi(2)
pub fn square(x: f64) -> f64
    ensures { result ≡ square_of x }
{
    x * x
}

// powi(3), from the left
pub fn cube(x: f64) -> f64
    ensures { result ≡ cube_of x }
{
    x * x * x
}
