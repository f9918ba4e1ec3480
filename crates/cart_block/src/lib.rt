// Geographic to cartesian coordinates and back, sixteen tuples at a time: the step of the crate
// cart by the block.
//
// Method, letters and sequence of roundings are those of `cart`: each tuple and the count are
// proved to be what `cart_fwd` and `cart_inv` give, in every bit. The kernels are called by their
// blocks, and between them are short loops of arithmetic alone, which a compiler turns into vector
// instructions. For every point both the on-axis and the off-axis result are computed and one is
// selected, so the loops have no branch. Used by the loops over a list.
#![tactic(auto)]

ghost use Rattle.std.specs.Prelude.{◌≡◌, not, ℕ};
ghost use Rattle.blocks.specs.Each.{at, Each, count_to};
ghost use Rattle.tuple.specs.Columns.{row_of};
ghost use Rattle.tuple.specs.Sums.{any_nan_of};
ghost use Rattle.cart.specs.Step.{cart_fwd_of, s0_of, c0_of, legs_with, legs_of, height_with, height_of, cart_inv_of};
ghost use Rattle.cart_block.specs.Blocks.{level_of, counts_of};

use blocks::{WIDTH, one_if};
use cart::{Inverse, Legs};
use ellipsoid::Ellipsoid;
use tuple::Tuple;

// How many tuples of a block have no NaN.
fn count_block(x: &[f64; WIDTH], y: &[f64; WIDTH], z: &[f64; WIDTH], t: &[f64; WIDTH]) -> usize
    ensures { result ≡ count_to 16 (λ (j : ℕ). not (any_nan_of (row_of x.now y.now z.now t.now j))) }
{
    let mut n = 0;
    for i in 0..WIDTH {
        let v = Tuple {
            x: x[i],
            y: y[i],
            z: z[i],
            t: t[i],
        };
        n += one_if(!v.any_nan());
    }
    n
}

// A block of tuples, each as `cart_fwd` gives it; the time stays. How many count.
pub fn cart_fwd_block(
    ellps: Ellipsoid,
    x: &[f64; WIDTH],
    y: &[f64; WIDTH],
    z: &[f64; WIDTH],
    t: &[f64; WIDTH],
    ox: &mut [f64; WIDTH],
    oy: &mut [f64; WIDTH],
    oz: &mut [f64; WIDTH],
) -> usize
    ensures { Each ox.new (λ (j : ℕ). (cart_fwd_of ellps (row_of x.now y.now z.now t.now j)).tuple.x) × Each oy.new (λ (j : ℕ). (cart_fwd_of ellps (row_of x.now y.now z.now t.now j)).tuple.y) × Each oz.new (λ (j : ℕ). (cart_fwd_of ellps (row_of x.now y.now z.now t.now j)).tuple.z) × (result ≡ count_to 16 (λ (j : ℕ). (cart_fwd_of ellps (row_of x.now y.now z.now t.now j)).counted)) }
{
    geocart_block::cartesian_block(ellps, x, y, z, t, ox, oy, oz);
    count_block(ox, oy, oz, t)
}

// S0 and C0 of a block.
fn reduced_block(
    k: Inverse,
    p: &[f64; WIDTH],
    z: &[f64; WIDTH],
    s0: &mut [f64; WIDTH],
    c0: &mut [f64; WIDTH],
)
    ensures { Each s0.new (λ (j : ℕ). s0_of k (at z.now j)) × Each c0.new (λ (j : ℕ). c0_of k (at p.now j)) }
{
    for i in 0..WIDTH {
        s0[i] = k.ra * z[i];
        c0[i] = k.ar * (k.ra * p[i]);
    }
}

// S1 and CC of a block, a the hypotenuses. P, S0 and C0 are worked out again: three products cost
// less than three columns kept.
fn meridian_block(
    k: Inverse,
    p: &[f64; WIDTH],
    z: &[f64; WIDTH],
    a: &[f64; WIDTH],
    s1: &mut [f64; WIDTH],
    cc: &mut [f64; WIDTH],
)
    ensures { Each s1.new (λ (j : ℕ). (legs_with k (at p.now j) (at z.now j) (at a.now j)).s1) × Each cc.new (λ (j : ℕ). (legs_with k (at p.now j) (at z.now j) (at a.now j)).cc) }
{
    for i in 0..WIDTH {
        let q = k.ra * p[i];
        let m = cart::meridian(k, q, k.ra * z[i], k.ar * q, a[i]);
        s1[i] = m.s1;
        cc[i] = m.cc;
    }
}

// The same from p and Z. The hypotenuses are laid down in a, S0 and C0 where S1 and CC come.
fn legs_block(
    k: Inverse,
    p: &[f64; WIDTH],
    z: &[f64; WIDTH],
    a: &mut [f64; WIDTH],
    s1: &mut [f64; WIDTH],
    cc: &mut [f64; WIDTH],
)
    ensures { Each s1.new (λ (j : ℕ). (legs_of k (at p.now j) (at z.now j)).s1) × Each cc.new (λ (j : ℕ). (legs_of k (at p.now j) (at z.now j)).cc) }
{
    reduced_block(k, p, z, s1, cc);
    hypot_block::hypot_block(s1, cc, a);
    meridian_block(k, p, z, a, s1, cc);
}

// The height h, or a pole's where p is less than the cutoff.
fn level(k: Inverse, p: f64, z: f64, h: f64) -> f64
    ensures { result ≡ level_of k p z h }
{
    let axis = geocart::pole_height(k.ellps, z);
    if p < k.cutoff { axis } else { h }
}

// The heights of a block from the two hypotenuses.
fn level_block(
    k: Inverse,
    p: &[f64; WIDTH],
    z: &[f64; WIDTH],
    s1: &[f64; WIDTH],
    cc: &[f64; WIDTH],
    inner: &[f64; WIDTH],
    outer: &[f64; WIDTH],
    h: &mut [f64; WIDTH],
)
    ensures { Each h.new (λ (j : ℕ). level_of k (at p.now j) (at z.now j) (height_with k (at p.now j) (at z.now j) (record { s1 = at s1.now j; cc = at cc.now j }) (at inner.now j) (at outer.now j))) }
{
    for i in 0..WIDTH {
        let m = Legs {
            s1: s1[i],
            cc: cc[i],
        };
        let off = cart::height_with(k, p[i], z[i], m, inner[i], outer[i]);
        h[i] = level(k, p[i], z[i], off);
    }
}

// The heights of a block: as `height` gives them, or a pole's where p is less than the cutoff. The
// hypotenuses are laid down in inner and outer.
fn height_block(
    k: Inverse,
    p: &[f64; WIDTH],
    z: &[f64; WIDTH],
    s1: &[f64; WIDTH],
    cc: &[f64; WIDTH],
    inner: &mut [f64; WIDTH],
    outer: &mut [f64; WIDTH],
    h: &mut [f64; WIDTH],
)
    ensures { Each h.new (λ (j : ℕ). level_of k (at p.now j) (at z.now j) (height_of k (at p.now j) (at z.now j) (record { s1 = at s1.now j; cc = at cc.now j }))) }
{
    blocks::scaled(k.ar, s1, h);
    hypot_block::hypot_block(cc, h, inner);
    hypot_block::hypot_block(cc, s1, outer);
    level_block(k, p, z, s1, cc, inner, outer, h);
}

fn counts_at(k: Inverse, p: f64, v: Tuple) -> bool
    ensures { result ≡ counts_of k p v }
{
    let whole = !v.any_nan();
    if p < k.cutoff { false } else { whole }
}

// How many tuples of a block count, p from the axis. A loop beside that of `count_block`: a count by
// any test would take a closure, and its contract would be longer than the two loops.
fn count_off_axis_block(
    k: Inverse,
    p: &[f64; WIDTH],
    x: &[f64; WIDTH],
    y: &[f64; WIDTH],
    z: &[f64; WIDTH],
    t: &[f64; WIDTH],
) -> usize
    ensures { result ≡ count_to 16 (λ (j : ℕ). counts_of k (at p.now j) (row_of x.now y.now z.now t.now j)) }
{
    let mut n = 0;
    for i in 0..WIDTH {
        let v = Tuple {
            x: x[i],
            y: y[i],
            z: z[i],
            t: t[i],
        };
        n += one_if(counts_at(k, p[i], v));
    }
    n
}

// A block of tuples, each as `cart_inv` gives it; the time stays. How many count.
pub fn cart_inv_block(
    k: Inverse,
    x: &[f64; WIDTH],
    y: &[f64; WIDTH],
    z: &[f64; WIDTH],
    t: &[f64; WIDTH],
    ox: &mut [f64; WIDTH],
    oy: &mut [f64; WIDTH],
    oz: &mut [f64; WIDTH],
) -> usize
    ensures { Each ox.new (λ (j : ℕ). (cart_inv_of k (row_of x.now y.now z.now t.now j)).tuple.x) × Each oy.new (λ (j : ℕ). (cart_inv_of k (row_of x.now y.now z.now t.now j)).tuple.y) × Each oz.new (λ (j : ℕ). (cart_inv_of k (row_of x.now y.now z.now t.now j)).tuple.z) × (result ≡ count_to 16 (λ (j : ℕ). (cart_inv_of k (row_of x.now y.now z.now t.now j)).counted)) }
{
    let mut p: [f64; WIDTH] = [0.0; WIDTH];
    let mut s1: [f64; WIDTH] = [0.0; WIDTH];
    let mut cc: [f64; WIDTH] = [0.0; WIDTH];
    // the hypotenuses, then the latitudes of points off the axis
    let mut phi: [f64; WIDTH] = [0.0; WIDTH];
    arctan_block::atan2_block(y, x, ox);
    hypot_block::hypot_block(x, y, &mut p);
    legs_block(k, &p, z, &mut phi, &mut s1, &mut cc);
    height_block(k, &p, z, &s1, &cc, oy, &mut phi, oz);
    arctan_block::atan2_block(&s1, &cc, &mut phi);
    geocart_block::latitude_block(k.cutoff, &p, z, &phi, oy);
    count_off_axis_block(k, &p, ox, oy, oz, t)
}
