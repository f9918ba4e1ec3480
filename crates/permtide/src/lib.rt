// Shifts of heights between the permanent tide systems, mean, zero and free: permtide.rs of the
// crate geodesy 0.15.0.
//
// The nine coefficients, the constants and the order of the products are the Rust's; a text
// parameter there is a code here (mean 1, zero 2, free 3). Every tuple counts. Exact as the Rust's
// sequence over our sine, cosine and atan2.
#![tactic(auto)]

ghost use Rattle.std.specs.Prelude.{◌≡◌, ℕ};
ghost use Rattle.floats.specs.Binary64.{◌⊕◌, ◌⊖◌};
ghost use Rattle.blocks.specs.Each.{at, Each};
ghost use Rattle.permtide.specs.Record.{blank_of, coefficient_of, in_rule_of};
ghost use Rattle.permtide.specs.Systems.{coded_of, picked_of};
ghost use Rattle.permtide.specs.Step.{tide_of, geocentric_sine_of, height_of, lift_of, shifted_of, fwd_of, inv_of};

use blocks::WIDTH;
use ellipsoid::Ellipsoid;
use tuple::Tuple;

// The record that a sheet carries.
#[derive(Clone, Copy)]
pub struct Permtide {
    pub ellipsoid: u32,
    pub to: u32,
    pub from: u32,
    pub k: f64,
}

// What a list needs of a record, worked out once.
#[derive(Clone, Copy)]
pub struct Tide {
    pub ellps: Ellipsoid,
    pub coefficient: f64,
}

impl Permtide {
    // The crate's defaults. The codes have none: 0 is refused by rule 5.
    pub fn blank() -> Self
        ensures { result ≡ blank_of }
    {
        Permtide {
            ellipsoid: 1,
            to: 0,
            from: 0,
            k: 0.3,
        }
    }

    // Rule 5: the ellipsoid, a finite k, and two codes that name a system. The coefficient needs no
    // test for NaN: of a record that passes here it is finite (proofs/Coefficients.antt,
    // `checked_coefficient_is_finite`), and the test would refuse just the same records
    // (`rule_is_the_rusts`).
    pub fn in_rule(self) -> bool
        ensures { result ≡ in_rule_of self }
    {
        Ellipsoid::exists(self.ellipsoid)
            && floats::is_finite(self.k)
            && System::try_from(self.to).is_ok()
            && System::try_from(self.from).is_ok()
    }
}

// One of the three permanent tide systems.
#[derive(Clone, Copy)]
enum System {
    Mean,
    Zero,
    Free,
}

// What a code is that names none of them.
#[derive(Clone, Copy)]
struct UnknownSystem;

impl TryFrom<u32> for System {
    type Error = UnknownSystem;

    ghost try_from_gives = { λ code system. system ≡ coded_of code };

    fn try_from(code: u32) -> Result<Self, UnknownSystem> {
        match code {
            1 => Ok(System::Mean),
            2 => Ok(System::Zero),
            3 => Ok(System::Free),
            _ => Err(UnknownSystem),
        }
    }
}

impl System {
    // The number that stands for this system.
    fn pick(self, mean: f64, zero: f64, free: f64) -> f64
        ensures { result ≡ picked_of self mean zero free }
    {
        match self {
            System::Mean => mean,
            System::Zero => zero,
            System::Free => free,
        }
    }
}

// The coefficient of a shift to one system from another; NaN for any other code.
pub fn coefficient(to: u32, from: u32, k: f64) -> f64
    ensures { result ≡ coefficient_of to from k }
{
    let (Ok(to), Ok(from)) = (System::try_from(to), System::try_from(from)) else {
        return 0.0 / 0.0;
    };
    match to {
        System::Mean => from.pick(0.0, 1.0, 1.0 + k),
        System::Zero => from.pick(-1.0, 0.0, k),
        System::Free => from.pick(-(1.0 + k), -k, 0.0),
    }
}

impl Tide {
    pub fn new(step: Permtide) -> Self
        ensures { result ≡ tide_of step }
    {
        Tide {
            ellps: Ellipsoid::named(step.ellipsoid),
            coefficient: coefficient(step.to, step.from, step.k),
        }
    }
}

fn height(op: Tide, s: f64) -> f64
    ensures { result ≡ height_of op s }
{
    op.coefficient * (-0.198) * (1.5 * s * s - 0.5)
}

fn lift(op: Tide, phi: f64) -> f64
    ensures { result ≡ lift_of op phi }
{
    let lat = trig::numbers(trig::sin_cos(phi));
    let phibar = op.ellps.latitude_geographic_to_geocentric(lat.s, lat.c);
    let bar = trig::numbers(trig::sin_cos(phibar));
    height(op, bar.s)
}

// The sines of a block's geocentric latitudes.
fn sines(ellps: Ellipsoid, phi: &[f64; WIDTH], r: &mut [f64; WIDTH])
    ensures { Each r.new (λ (j : ℕ). geocentric_sine_of ellps (at phi.now j)) }
{
    let mut s = [0.0; WIDTH];
    let mut c = [0.0; WIDTH];
    let mut p = [0.0; WIDTH];
    let mut phibar = [0.0; WIDTH];
    trig_block::sin_cos_block(phi, &mut s, &mut c);
    blocks::scaled(1.0 - ellps.es, &s, &mut p);
    arctan_block::atan2_block(&p, &c, &mut phibar);
    trig_block::sin_cos_block(&phibar, r, &mut c);
}

// The heights of a block with the lifts at those sines added, or subtracted in an inverse run.
fn shifted(op: Tide, inverse: bool, s: &[f64; WIDTH], z: &[f64; WIDTH], oz: &mut [f64; WIDTH])
    ensures { Each oz.new (λ (j : ℕ). shifted_of inverse (at z.now j) (height_of op (at s.now j))) }
{
    for i in 0..WIDTH {
        let h = height(op, s[i]);
        oz[i] = if inverse { z[i] - h } else { z[i] + h };
    }
}

// ----- F O R W A R D -----------------------------------------------------------------

pub fn fwd(op: Tide, coord: Tuple) -> Tuple
    ensures { result ≡ fwd_of op coord }
{
    Tuple {
        z: coord.z + lift(op, coord.y),
        ..coord
    }
}

// The heights of a block, each as `fwd` gives it: the other three coordinates stay.
pub fn fwd_block(op: Tide, y: &[f64; WIDTH], z: &[f64; WIDTH], oz: &mut [f64; WIDTH])
    ensures { Each oz.new (λ (j : ℕ). at z.now j ⊕ lift_of op (at y.now j)) }
{
    let mut s = [0.0; WIDTH];
    sines(op.ellps, y, &mut s);
    shifted(op, false, &s, z, oz);
}

// ----- I N V E R S E -----------------------------------------------------------------

pub fn inv(op: Tide, coord: Tuple) -> Tuple
    ensures { result ≡ inv_of op coord }
{
    Tuple {
        z: coord.z - lift(op, coord.y),
        ..coord
    }
}

// The heights of a block, each as `inv` gives it.
pub fn inv_block(op: Tide, y: &[f64; WIDTH], z: &[f64; WIDTH], oz: &mut [f64; WIDTH])
    ensures { Each oz.new (λ (j : ℕ). at z.now j ⊖ lift_of op (at y.now j)) }
{
    let mut s = [0.0; WIDTH];
    sines(op.ellps, y, &mut s);
    shifted(op, true, &s, z, oz);
}
