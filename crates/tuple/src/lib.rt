// A tuple: one fix as four binary64 numbers, two angles and a height or three lengths, then the
// time in years. Any bits are allowed.
//
// The Rust's Coor4D with what its files use of it: the sum, the product with a number, the inner
// product, the tuple of NaNs. Those files do not contain these, so their sequences are ours and
// stand in specs/Sums.antt: all four numbers take part, from the left. Every step reads and gives
// one Tuple.
#![tactic(auto)]

ghost use Rattle.std.specs.Prelude.{◌≡◌};
ghost use Rattle.tuple.specs.Sums.{nan_tuple, any_nan_of, add_of, scale_of, dot_of};

use std::ops::{Add, Mul};

#[derive(Clone, Copy)]
pub struct Tuple {
    pub x: f64,
    pub y: f64,
    pub z: f64,
    pub t: f64,
}

// What a step makes of a tuple, and whether the step's count takes it in. No `Option`: a tuple that
// does not count has numbers of its own all the same, and they are written to the list.
#[derive(Clone, Copy)]
pub struct Shifted {
    pub tuple: Tuple,
    pub counted: bool,
}

impl Tuple {
    pub fn nan() -> Self
        ensures { result ≡ nan_tuple }
    {
        let none = 0.0 / 0.0;
        Tuple {
            x: none,
            y: none,
            z: none,
            t: none,
        }
    }

    // Whether any of the four is NaN.
    pub fn any_nan(self) -> bool
        ensures { result ≡ any_nan_of self }
    {
        floats::is_nan(self.x)
            || floats::is_nan(self.y)
            || floats::is_nan(self.z)
            || floats::is_nan(self.t)
    }

    pub fn dot(self, w: Tuple) -> f64
        ensures { result ≡ dot_of self w }
    {
        self.x * w.x + self.y * w.y + self.z * w.z + self.t * w.t
    }
}

// The sum, the time too.
impl Add for Tuple {
    type Output = Tuple;

    ghost add_gives = { λ v w sum. sum ≡ add_of v w };

    fn add(self, w: Tuple) -> Tuple {
        Tuple {
            x: self.x + w.x,
            y: self.y + w.y,
            z: self.z + w.z,
            t: self.t + w.t,
        }
    }
}

// The product with a number, the time too.
impl Mul<f64> for Tuple {
    type Output = Tuple;

    ghost mul_gives = { λ v k product. product ≡ scale_of v k };

    fn mul(self, k: f64) -> Tuple {
        Tuple {
            x: self.x * k,
            y: self.y * k,
            z: self.z * k,
            t: self.t * k,
        }
    }
}
