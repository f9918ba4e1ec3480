// Geographic to cartesian coordinates and back, a block at a time: sixteen tuples, each as
// `geocart` gives it.
//
// The method is geocart's, for loops that a compiler turns into vector instructions: the kernels by
// their blocks, and between them short loops of arithmetic alone. For every point both latitudes,
// the pole's and the other, are computed and one is selected, so the loops have no branch. Proved:
// each number is geocart's. `cartesian_block` is cart's forward step, `latitude_block` ends its
// inverse, and `place_block` is what deformation asks for places by.
#![tactic(auto)]

ghost use Rattle.std.specs.Prelude.{◌≡◌, ℕ};
ghost use Rattle.blocks.specs.Each.{at, Each};
ghost use Rattle.tuple.specs.Columns.{row_of};
ghost use Rattle.ellipsoid.specs.Figure.{prime_vertical_with};
ghost use Rattle.geocart.specs.Geocart.{point_of, cartesian_of, tangent_of, radicand_of, legs_of, bowring_of, place_of};
ghost use Rattle.geocart_block.specs.Blocks.{latitude_of};

use blocks::WIDTH;
use ellipsoid::Ellipsoid;
use geocart::CUTOFF;

// The points of a block.
fn point_block(
    ellps: Ellipsoid,
    rootw: &[f64; WIDTH],
    h: &[f64; WIDTH],
    sinphi: &[f64; WIDTH],
    cosphi: &[f64; WIDTH],
    sinlam: &[f64; WIDTH],
    coslam: &[f64; WIDTH],
    x: &mut [f64; WIDTH],
    y: &mut [f64; WIDTH],
    z: &mut [f64; WIDTH],
)
    ensures { Each x.new (λ (j : ℕ). (point_of ellps (prime_vertical_with ellps (at rootw.now j)) (at h.now j) (at sinphi.now j) (at cosphi.now j) (at sinlam.now j) (at coslam.now j)).x) × Each y.new (λ (j : ℕ). (point_of ellps (prime_vertical_with ellps (at rootw.now j)) (at h.now j) (at sinphi.now j) (at cosphi.now j) (at sinlam.now j) (at coslam.now j)).y) × Each z.new (λ (j : ℕ). (point_of ellps (prime_vertical_with ellps (at rootw.now j)) (at h.now j) (at sinphi.now j) (at cosphi.now j) (at sinlam.now j) (at coslam.now j)).z) }
{
    for i in 0..WIDTH {
        let v = geocart::point_at(
            ellps,
            ellps.a / rootw[i],
            h[i],
            sinphi[i],
            cosphi[i],
            sinlam[i],
            coslam[i],
        );
        x[i] = v.x;
        y[i] = v.y;
        z[i] = v.z;
    }
}

// A block of tuples, each as `cartesian` gives it; the time stays.
pub fn cartesian_block(
    ellps: Ellipsoid,
    x: &[f64; WIDTH],
    y: &[f64; WIDTH],
    z: &[f64; WIDTH],
    t: &[f64; WIDTH],
    ox: &mut [f64; WIDTH],
    oy: &mut [f64; WIDTH],
    oz: &mut [f64; WIDTH],
)
    ensures { Each ox.new (λ (j : ℕ). (cartesian_of ellps (row_of x.now y.now z.now t.now j)).x) × Each oy.new (λ (j : ℕ). (cartesian_of ellps (row_of x.now y.now z.now t.now j)).y) × Each oz.new (λ (j : ℕ). (cartesian_of ellps (row_of x.now y.now z.now t.now j)).z) }
{
    let mut sinphi: [f64; WIDTH] = [0.0; WIDTH];
    let mut cosphi: [f64; WIDTH] = [0.0; WIDTH];
    let mut sinlam: [f64; WIDTH] = [0.0; WIDTH];
    let mut coslam: [f64; WIDTH] = [0.0; WIDTH];
    let mut w: [f64; WIDTH] = [0.0; WIDTH];
    let mut rootw: [f64; WIDTH] = [0.0; WIDTH];
    trig_block::sin_cos_block(y, &mut sinphi, &mut cosphi);
    trig_block::sin_cos_block(x, &mut sinlam, &mut coslam);
    ellipsoid::w_block(ellps, &sinphi, &mut w);
    root::sqrt_block(&w, &mut rootw);
    point_block(
        ellps, &rootw, z, &sinphi, &cosphi, &sinlam, &coslam, ox, oy, oz,
    );
}

// T of a block, and 1 + T².
fn tangent_block(
    ellps: Ellipsoid,
    p: &[f64; WIDTH],
    z: &[f64; WIDTH],
    t: &mut [f64; WIDTH],
    u: &mut [f64; WIDTH],
)
    ensures { Each t.new (λ (j : ℕ). tangent_of ellps (at p.now j) (at z.now j)) × Each u.new (λ (j : ℕ). radicand_of (tangent_of ellps (at p.now j) (at z.now j))) }
{
    for i in 0..WIDTH {
        let v = geocart::tangent(ellps, p[i], z[i]);
        t[i] = v;
        u[i] = 1.0 + v * v;
    }
}

// The legs of a block.
fn legs_block(
    ellps: Ellipsoid,
    p: &[f64; WIDTH],
    z: &[f64; WIDTH],
    t: &[f64; WIDTH],
    root: &[f64; WIDTH],
    num: &mut [f64; WIDTH],
    denom: &mut [f64; WIDTH],
)
    ensures { Each num.new (λ (j : ℕ). (legs_of ellps (at p.now j) (at z.now j) (at t.now j) (at root.now j)).num) × Each denom.new (λ (j : ℕ). (legs_of ellps (at p.now j) (at z.now j) (at t.now j) (at root.now j)).denom) }
{
    for i in 0..WIDTH {
        let m = geocart::legs_at(ellps, p[i], z[i], t[i], root[i]);
        num[i] = m.num;
        denom[i] = m.denom;
    }
}

// A block of points of the meridian plane, each as `bowring` gives it.
fn bowring_block(
    ellps: Ellipsoid,
    p: &[f64; WIDTH],
    z: &[f64; WIDTH],
    num: &mut [f64; WIDTH],
    denom: &mut [f64; WIDTH],
)
    ensures { Each num.new (λ (j : ℕ). (bowring_of ellps (at p.now j) (at z.now j)).num) × Each denom.new (λ (j : ℕ). (bowring_of ellps (at p.now j) (at z.now j)).denom) }
{
    let mut t: [f64; WIDTH] = [0.0; WIDTH];
    let mut u: [f64; WIDTH] = [0.0; WIDTH];
    let mut root: [f64; WIDTH] = [0.0; WIDTH];
    tangent_block(ellps, p, z, &mut t, &mut u);
    root::sqrt_block(&u, &mut root);
    legs_block(ellps, p, z, &t, &root, num, denom);
}

fn latitude(cutoff: f64, p: f64, z: f64, phi: f64) -> f64
    ensures { result ≡ latitude_of cutoff p z phi }
{
    let axis = geocart::pole(z);
    if p < cutoff { axis } else { phi }
}

// The latitudes of a block: phi, or a pole's where p is less than the cutoff.
pub fn latitude_block(
    cutoff: f64,
    p: &[f64; WIDTH],
    z: &[f64; WIDTH],
    phi: &[f64; WIDTH],
    r: &mut [f64; WIDTH],
)
    ensures { Each r.new (λ (j : ℕ). latitude_of cutoff (at p.now j) (at z.now j) (at phi.now j)) }
{
    for i in 0..WIDTH {
        r[i] = latitude(cutoff, p[i], z[i], phi[i]);
    }
}

// Longitudes and latitudes of a block of tuples, each as `place` gives them.
pub fn place_block(
    ellps: Ellipsoid,
    x: &[f64; WIDTH],
    y: &[f64; WIDTH],
    z: &[f64; WIDTH],
    t: &[f64; WIDTH],
    lam: &mut [f64; WIDTH],
    phi: &mut [f64; WIDTH],
)
    ensures { Each lam.new (λ (j : ℕ). (place_of ellps (row_of x.now y.now z.now t.now j)).lam) × Each phi.new (λ (j : ℕ). (place_of ellps (row_of x.now y.now z.now t.now j)).phi) }
{
    let mut p: [f64; WIDTH] = [0.0; WIDTH];
    let mut num: [f64; WIDTH] = [0.0; WIDTH];
    let mut denom: [f64; WIDTH] = [0.0; WIDTH];
    let mut angle: [f64; WIDTH] = [0.0; WIDTH];
    arctan_block::atan2_block(y, x, lam);
    hypot_block::hypot_block(x, y, &mut p);
    bowring_block(ellps, &p, z, &mut num, &mut denom);
    arctan_block::atan2_block(&num, &denom, &mut angle);
    latitude_block(CUTOFF, &p, z, &angle, phi);
}
