// A tuple and a step's record from the arrays of numbers that C lends, each number at one stated
// place.
//
// specs/Arrays.antt has a line a field with its place in the array; a Helmert step's 30 numbers
// come in the order of its body. Exact: no number changes. Used by the library that C and Rust
// link.
#![tactic(auto)]

ghost use Rattle.std.specs.Prelude.{◌≡◌, ◌+◌, ◌≤◌};
ghost use Rattle.arrays.specs.Arrays.{tuple_of, three_at, helmert_of, molodensky_of, badekas_of};

use badekas::Badekas;
use helmert::Helmert;
use molodensky::Molodensky;
use rotation::Vec3;
use tuple::Tuple;

// x, y, z, t.
pub fn tuple_of(fix: &[f64; 4]) -> Tuple
    ensures { result ≡ tuple_of fix.now }
{
    Tuple {
        x: fix[0],
        y: fix[1],
        z: fix[2],
        t: fix[3],
    }
}

// Three numbers from a place on.
fn three_at<const N: usize>(numbers: &[f64; N], i: usize) -> Vec3
    requires { i + 3 ≤ N }
    ensures { result ≡ three_at numbers.now i }
{
    Vec3 {
        x: numbers[i],
        y: numbers[i + 1],
        z: numbers[i + 2],
    }
}

// The 30 numbers in the order of the body.
pub fn helmert_of(flags: u32, convention: u32, numbers: &[f64; 30]) -> Helmert
    ensures { result ≡ helmert_of flags convention numbers.now }
{
    Helmert {
        flags: flags,
        convention: convention,
        translation: three_at(numbers, 0),
        xyz: three_at(numbers, 3),
        translation_rate: three_at(numbers, 6),
        dxyz: three_at(numbers, 9),
        rotation: three_at(numbers, 12),
        rxyz: three_at(numbers, 15),
        rotation_rate: three_at(numbers, 18),
        drxyz: three_at(numbers, 21),
        scale: numbers[24],
        s: numbers[25],
        scale_rate: numbers[26],
        ds: numbers[27],
        t_epoch: numbers[28],
        t_obs: numbers[29],
    }
}

// dx, dy, dz, da, df.
pub fn molodensky_of(flags: u32, first: u32, second: u32, numbers: &[f64; 5]) -> Molodensky
    ensures { result ≡ molodensky_of flags first second numbers.now }
{
    Molodensky {
        flags: flags,
        first: first,
        second: second,
        dx: numbers[0],
        dy: numbers[1],
        dz: numbers[2],
        da: numbers[3],
        df: numbers[4],
    }
}

// The ten numbers in the order of the body: translation, rotation, scale, pivot.
pub fn badekas_of(flags: u32, convention: u32, numbers: &[f64; 10]) -> Badekas
    ensures { result ≡ badekas_of flags convention numbers.now }
{
    Badekas {
        flags: flags,
        convention: convention,
        translation: three_at(numbers, 0),
        rotation: three_at(numbers, 3),
        scale: numbers[6],
        pivot: three_at(numbers, 7),
    }
}
