// A binary64 number as the decimal with the fewest places that reads back as the same number.
//
// A decimal is D / 10^k, D whole. For k = 0, 1, .. 22 the whole number nearest to |x|·10^k is
// tried, and the first that reads back is taken. D and 10^k are binary64 numbers exactly, so D /
// 10^k, rounded once, is what a correct reader makes of the decimal (`read_is_rounded_once`). What
// is found reads back (`reads_back`), and no decimal of fewer places does, whatever its digits
// (`fewest_places`). Every decimal of up to 15 digits with no more than 22 places is found
// (`short_decimals_are_found`); NaN, infinities and numbers that need more are answered `None`.
// Used by whoever prints a number for people.
#![tactic(auto)]

ghost use Rattle.std.specs.Prelude.{◌≡◌, ◌^◌, ◌<◌};
ghost use Rattle.decimal.specs.Places.{ten_to, whole_of, passes_of, decimal_of};

// digits / 10^places, with its sign.
#[derive(Clone, Copy)]
pub struct Decimal {
    pub negative: bool,
    pub digits: u64,
    pub places: usize,
}

// The whole number nearest to p, for p from 0 to below 2^52: the sum with 2^52 rounds to one.
pub fn whole(p: f64) -> u64
    ensures { (result ≡ whole_of p) × (result < 2 ^ 52) }
{
    floats::to_bits(p + 4503599627370496.0) % 4503599627370496
}

// Whether the whole number nearest to a·ten, over ten, is a.
fn passes(a: f64, ten: f64, k: usize) -> bool
    requires { ten ≡ ten_to k }
    ensures { result ≡ passes_of a k }
{
    let p = a * ten;
    if p < 4503599627370496.0 {
        return floats::same(whole(p) as f64 / ten, a);
    }
    false
}

pub fn fewest_places(x: f64) -> Option<Decimal>
    ensures { result ≡ decimal_of x }
{
    let a = floats::abs(x);
    let mut ten = 1.0;
    for k in 0..23 {
        if passes(a, ten, k) {
            return Some(Decimal {
                negative: floats::negative(x),
                digits: whole(a * ten),
                places: k,
            });
        }
        ten = ten * 10.0;
    }
    None
}
