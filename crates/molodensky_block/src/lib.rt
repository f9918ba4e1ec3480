// The full and abridged Molodensky transformations, sixteen tuples at a time: the step of the crate
// molodensky by the block.
//
// Method, letters and sequence of roundings are those of `molodensky`: each tuple is proved to be
// what `common` gives, in every bit. Every loop is arithmetic and choices between numbers, which a
// compiler turns into vector instructions; the kernels are called between the loops, a block at a
// time. Where there are no offsets, they are three NaNs, which makes the coordinates NaN as
// `common` does. Used by the loops over a list.
#![tactic(auto)]

ghost use Rattle.std.specs.Prelude.{◌≡◌, ℕ, cond};
ghost use Rattle.floats.specs.Binary64.{◌⊕◌, ◌⊖◌, ◌⊗◌};
ghost use Rattle.trig.specs.Trig.{sin_of};
ghost use Rattle.ellipsoid.specs.Figure.{two, w_of, radii_with};
ghost use Rattle.blocks.specs.Each.{at, Each};
ghost use Rattle.tuple.specs.Columns.{row_of};
ghost use Rattle.molodensky.specs.Step.{place_with, common_of};
ghost use Rattle.molodensky_block.specs.Block.{shift_of, full_at, abridged_at, shift_at};

use blocks::WIDTH;
use molodensky::{Moped, Offsets, Place};

// The offsets as numbers: three NaNs where there are none.
fn numbers(offsets: Option<Offsets>) -> Offsets
    ensures { result ≡ shift_of offsets }
{
    let none = 0.0 / 0.0;
    offsets.unwrap_or(Offsets {
        dlam: none,
        dphi: none,
        dh: none,
    })
}

// A place, given its sines and cosines and q, the root of w = 1 - es·sin²φ. That w is worked out
// again costs less than a column of them.
fn place_with(op: Moped, slam: f64, clam: f64, sphi: f64, cphi: f64, q: f64) -> Place
    ensures { result ≡ place_with op slam clam sphi cphi (radii_with op.ellps (w_of op.ellps sphi) q) }
{
    let radii = op.ellps.radii_with(op.ellps.w(sphi), q);
    Place::with(op, slam, clam, sphi, cphi, radii)
}

// The sines of 2φ. The angles are laid down in twice, the cosines in c.
fn double_sines(
    phi: &[f64; WIDTH],
    twice: &mut [f64; WIDTH],
    c: &mut [f64; WIDTH],
    r: &mut [f64; WIDTH],
)
    ensures { Each r.new (λ (j : ℕ). sin_of (two ⊗ at phi.now j)) }
{
    blocks::scaled(2.0, phi, twice);
    trig_block::sin_cos_block(twice, r, c);
}

// The offsets of a block over the columns that hold the sines and cosines of the longitudes and the
// sines of 2φ.
fn abridged_shifts(
    op: Moped,
    sphi: &[f64; WIDTH],
    cphi: &[f64; WIDTH],
    q: &[f64; WIDTH],
    dlam: &mut [f64; WIDTH],
    dphi: &mut [f64; WIDTH],
    dh: &mut [f64; WIDTH],
)
    ensures { Each dlam.new (λ (j : ℕ). (abridged_at op dh.old dlam.old dphi.old sphi.now cphi.now q.now j).dlam)
        × Each dphi.new (λ (j : ℕ). (abridged_at op dh.old dlam.old dphi.old sphi.now cphi.now q.now j).dphi)
        × Each dh.new (λ (j : ℕ). (abridged_at op dh.old dlam.old dphi.old sphi.now cphi.now q.now j).dh) }
{
    for i in 0..WIDTH {
        let p = place_with(op, dlam[i], dphi[i], sphi[i], cphi[i], q[i]);
        let shift = numbers(molodensky::abridged_offsets(op, p, dh[i]));
        dlam[i] = shift.dlam;
        dphi[i] = shift.dphi;
        dh[i] = shift.dh;
    }
}

// The offsets of a block over the columns that hold the sines and cosines of the longitudes.
fn full_shifts(
    op: Moped,
    h: &[f64; WIDTH],
    sphi: &[f64; WIDTH],
    cphi: &[f64; WIDTH],
    q: &[f64; WIDTH],
    dlam: &mut [f64; WIDTH],
    dphi: &mut [f64; WIDTH],
    dh: &mut [f64; WIDTH],
)
    ensures { Each dlam.new (λ (j : ℕ). (full_at op h.now dlam.old dphi.old sphi.now cphi.now q.now j).dlam)
        × Each dphi.new (λ (j : ℕ). (full_at op h.now dlam.old dphi.old sphi.now cphi.now q.now j).dphi)
        × Each dh.new (λ (j : ℕ). (full_at op h.now dlam.old dphi.old sphi.now cphi.now q.now j).dh) }
{
    for i in 0..WIDTH {
        let p = place_with(op, dlam[i], dphi[i], sphi[i], cphi[i], q[i]);
        let shift = numbers(molodensky::full_offsets(op, p, h[i]));
        dlam[i] = shift.dlam;
        dphi[i] = shift.dphi;
        dh[i] = shift.dh;
    }
}

// The offsets of a block. What is needed on the way is laid down in the columns that the offsets
// come in, as far as they reach.
fn shifts(
    op: Moped,
    x: &[f64; WIDTH],
    y: &[f64; WIDTH],
    z: &[f64; WIDTH],
    dlam: &mut [f64; WIDTH],
    dphi: &mut [f64; WIDTH],
    dh: &mut [f64; WIDTH],
)
    ensures { Each dlam.new (λ (j : ℕ). (shift_at op x.now y.now z.now j).dlam)
        × Each dphi.new (λ (j : ℕ). (shift_at op x.now y.now z.now j).dphi)
        × Each dh.new (λ (j : ℕ). (shift_at op x.now y.now z.now j).dh) }
{
    let mut sphi = [0.0; WIDTH];
    let mut cphi = [0.0; WIDTH];
    let mut q = [0.0; WIDTH];
    trig_block::sin_cos_block(y, &mut sphi, &mut cphi);
    ellipsoid::w_block(op.ellps, &sphi, dlam);
    root::sqrt_block(dlam, &mut q);
    if op.abridged {
        double_sines(y, dlam, dphi, dh);
        trig_block::sin_cos_block(x, dlam, dphi);
        abridged_shifts(op, &sphi, &cphi, &q, dlam, dphi, dh);
    } else {
        trig_block::sin_cos_block(x, dlam, dphi);
        full_shifts(op, z, &sphi, &cphi, &q, dlam, dphi, dh);
    }
}

// A coordinate with the offsets added, or subtracted in an inverse run, over the offsets.
fn moved(inverse: bool, x: &[f64; WIDTH], d: &mut [f64; WIDTH])
    ensures { Each d.new (λ (j : ℕ). cond inverse (at x.now j ⊖ at d.old j) (at x.now j ⊕ at d.old j)) }
{
    for i in 0..WIDTH {
        d[i] = if inverse { x[i] - d[i] } else { x[i] + d[i] };
    }
}

// The first three coordinates of a block, each as `common` gives it: the time stays.
pub fn common_block(
    op: Moped,
    inverse: bool,
    x: &[f64; WIDTH],
    y: &[f64; WIDTH],
    z: &[f64; WIDTH],
    t: &[f64; WIDTH],
    ox: &mut [f64; WIDTH],
    oy: &mut [f64; WIDTH],
    oz: &mut [f64; WIDTH],
)
    ensures { Each ox.new (λ (j : ℕ). (common_of op inverse (row_of x.now y.now z.now t.now j)).x)
        × Each oy.new (λ (j : ℕ). (common_of op inverse (row_of x.now y.now z.now t.now j)).y)
        × Each oz.new (λ (j : ℕ). (common_of op inverse (row_of x.now y.now z.now t.now j)).z) }
{
    shifts(op, x, y, z, ox, oy, oz);
    moved(inverse, x, ox);
    moved(inverse, y, oy);
    moved(inverse, z, oz);
}
