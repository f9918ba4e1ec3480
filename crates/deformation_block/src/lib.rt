// Kinematic datum shift by velocities of the ground, sixteen tuples at a time: the step of
// `deformation` over columns, with the tuples' longitudes and latitudes at hand.
//
// Each loop is straight arithmetic over the places, so that a compiler makes vectors of it; what
// depends on the step and not on the tuple is decided before. An absent velocity is worked on like
// the others, and NaN is written in the end. The columns that the results go to serve for the parts
// before. Every number is `deformation::common`'s in every bit: proved place by place against the
// same definition. Used by `deformation_columns`.
#![tactic(auto)]

ghost use Rattle.std.specs.Prelude.{◌≡◌, ℕ, eqb};
ghost use Rattle.floats.specs.Binary64.{◌⊕◌};
ghost use Rattle.blocks.specs.Each.{at, whole_at, Each, count_to};
ghost use Rattle.root.specs.Sqrt.{sqrt_of};
ghost use Rattle.tuple.specs.Sums.{dot_of};
ghost use Rattle.deformation.specs.Step.{correction_of};
ghost use Rattle.deformation_block.specs.Places.{velocity_of, geo_at, moved_at, turned_at, correction_at, kept_of};

use blocks::{WIDTH, one_if};
use deformation::{Motion, Velocity};
use trig::SinCos;
use tuple::Tuple;

// The velocities, turned and times their durations. k brings them to metres. dx comes with the
// sines of the latitudes, dy with their cosines, dz with the cosines of the longitudes.
fn turned_block(
    op: Motion,
    fixed: bool,
    k: f64,
    east: &[f64; WIDTH],
    north: &[f64; WIDTH],
    up: &[f64; WIDTH],
    t: &[f64; WIDTH],
    slon: &[f64; WIDTH],
    dx: &mut [f64; WIDTH],
    dy: &mut [f64; WIDTH],
    dz: &mut [f64; WIDTH],
)
    ensures { Each dx.new (λ (j : ℕ). (turned_at op fixed k east.now north.now up.now t.now slon.now dz.old dx.old dy.old j).x)
        × Each dy.new (λ (j : ℕ). (turned_at op fixed k east.now north.now up.now t.now slon.now dz.old dx.old dy.old j).y)
        × Each dz.new (λ (j : ℕ). (turned_at op fixed k east.now north.now up.now t.now slon.now dz.old dx.old dy.old j).z) }
{
    for i in 0..WIDTH {
        let v = Velocity {
            east: east[i],
            north: north[i],
            up: up[i],
        };
        let lon = SinCos {
            s: slon[i],
            c: dz[i],
        };
        let lat = SinCos { s: dx[i], c: dy[i] };
        let d = deformation::lasting(op, fixed, t[i]);
        let r = deformation::turned(v * k, lon, lat, d);
        dx[i] = r.x;
        dy[i] = r.y;
        dz[i] = r.z;
    }
}

// The velocities as corrections of the tuples. slon is room for the sines of the longitudes.
fn correction_block(
    op: Motion,
    inverse: bool,
    east: &[f64; WIDTH],
    north: &[f64; WIDTH],
    up: &[f64; WIDTH],
    lam: &[f64; WIDTH],
    phi: &[f64; WIDTH],
    t: &[f64; WIDTH],
    dx: &mut [f64; WIDTH],
    dy: &mut [f64; WIDTH],
    dz: &mut [f64; WIDTH],
    slon: &mut [f64; WIDTH],
)
    ensures { Each dx.new (λ (j : ℕ). (correction_of op inverse (velocity_of east.now north.now up.now j) (geo_at lam.now phi.now t.now j)).x)
        × Each dy.new (λ (j : ℕ). (correction_of op inverse (velocity_of east.now north.now up.now j) (geo_at lam.now phi.now t.now j)).y)
        × Each dz.new (λ (j : ℕ). (correction_of op inverse (velocity_of east.now north.now up.now j) (geo_at lam.now phi.now t.now j)).z) }
{
    trig_block::sin_cos_block(lam, slon, dz);
    trig_block::sin_cos_block(phi, dx, dy);
    let fixed = floats::is_finite(op.dt);
    turned_block(
        op,
        fixed,
        deformation::metre(inverse),
        east,
        north,
        up,
        t,
        slon,
        dx,
        dy,
        dz,
    );
}

// The squares of the corrections' lengths.
fn square_block(dx: &[f64; WIDTH], dy: &[f64; WIDTH], dz: &[f64; WIDTH], q: &mut [f64; WIDTH])
    ensures { Each q.new (λ (j : ℕ). dot_of (correction_at dx.now dy.now dz.now j) (correction_at dx.now dy.now dz.now j)) }
{
    for i in 0..WIDTH {
        let d = Tuple {
            x: dx[i],
            y: dy[i],
            z: dz[i],
            t: 0.0,
        };
        q[i] = d.dot(d);
    }
}

fn length_block(dx: &[f64; WIDTH], dy: &[f64; WIDTH], dz: &[f64; WIDTH], r: &mut [f64; WIDTH])
    ensures { Each r.new (λ (j : ℕ). sqrt_of (dot_of (correction_at dx.now dy.now dz.now j) (correction_at dx.now dy.now dz.now j))) }
{
    let mut q = [0.0; WIDTH];
    square_block(dx, dy, dz, &mut q);
    root::sqrt_block(&q, r);
}

// A number where there is a velocity, NaN where there is none.
fn kept(mark: u8, v: f64) -> f64
    ensures { result ≡ kept_of mark v }
{
    if mark == 1 { v } else { 0.0 / 0.0 }
}

// A column kept so. Not `add_block` with zeros, which would make +0 of a correction of -0.
fn keep_block(marks: &[u8; WIDTH], r: &mut [f64; WIDTH])
    ensures { Each r.new (λ (j : ℕ). kept_of (whole_at marks.now j) (at r.old j)) }
{
    for i in 0..WIDTH {
        r[i] = kept(marks[i], r[i]);
    }
}

// A column added to corrections, and kept so.
fn add_block(marks: &[u8; WIDTH], v: &[f64; WIDTH], r: &mut [f64; WIDTH])
    ensures { Each r.new (λ (j : ℕ). kept_of (whole_at marks.now j) (at v.now j ⊕ at r.old j)) }
{
    for i in 0..WIDTH {
        r[i] = kept(marks[i], v[i] + r[i]);
    }
}

fn count_block(marks: &[u8; WIDTH]) -> usize
    ensures { result ≡ count_to 16 (λ (j : ℕ). eqb (whole_at marks.now j) 1) }
{
    let mut n = 0;
    for i in 0..WIDTH {
        n += one_if(marks[i] == 1);
    }
    n
}

// Sixteen tuples as columns whose longitudes and latitudes are lam and phi, each shifted as
// `common` shifts it, and how many of them count. For those who have the places at hand.
pub fn moved_block(
    op: Motion,
    inverse: bool,
    east: &[f64; WIDTH],
    north: &[f64; WIDTH],
    up: &[f64; WIDTH],
    marks: &[u8; WIDTH],
    lam: &[f64; WIDTH],
    phi: &[f64; WIDTH],
    x: &[f64; WIDTH],
    y: &[f64; WIDTH],
    z: &[f64; WIDTH],
    t: &[f64; WIDTH],
    ox: &mut [f64; WIDTH],
    oy: &mut [f64; WIDTH],
    oz: &mut [f64; WIDTH],
    ot: &mut [f64; WIDTH],
) -> usize
    ensures { Each ox.new (λ (j : ℕ). (moved_at op inverse east.now north.now up.now marks.now lam.now phi.now x.now y.now z.now t.now j).tuple.x)
        × Each oy.new (λ (j : ℕ). (moved_at op inverse east.now north.now up.now marks.now lam.now phi.now x.now y.now z.now t.now j).tuple.y)
        × Each oz.new (λ (j : ℕ). (moved_at op inverse east.now north.now up.now marks.now lam.now phi.now x.now y.now z.now t.now j).tuple.z)
        × Each ot.new (λ (j : ℕ). (moved_at op inverse east.now north.now up.now marks.now lam.now phi.now x.now y.now z.now t.now j).tuple.t)
        × (result ≡ count_to 16 (λ (j : ℕ). (moved_at op inverse east.now north.now up.now marks.now lam.now phi.now x.now y.now z.now t.now j).counted)) }
{
    correction_block(op, inverse, east, north, up, lam, phi, t, ox, oy, oz, ot);
    if op.raw {
        length_block(ox, oy, oz, ot);
        keep_block(marks, ox);
        keep_block(marks, oy);
        keep_block(marks, oz);
        keep_block(marks, ot);
        return count_block(marks);
    }
    add_block(marks, x, ox);
    add_block(marks, y, oy);
    add_block(marks, z, oz);
    // the correction has no fourth number of its own: 0.0 is added to a time
    *ot = [0.0; WIDTH];
    add_block(marks, t, ot);
    count_block(marks)
}
