// A grid's lookup, and deformation over columns by a grid and by lent velocities, as C links them
// for the oracles and the bench.
//
// The library's own entries with a grid are others; these hand over to the proved functions that
// those will use, so that each can be compared and timed alone. Nothing is computed here.
#![tactic(auto)]

ghost use Rattle.std.specs.Prelude.{◌≡◌, Bool, not, ℕ, eqb};
ghost use Rattle.blocks.specs.Each.{at, Each, EachWhole};
ghost use Rattle.lists.specs.Run.{ran_of, count_of};
ghost use Rattle.helmert.specs.Turns.{no_state};
ghost use Rattle.turns.specs.Turns.{deformation_turns};
ghost use Rattle.columns.specs.Columns.{flat_of};
ghost use Rattle.grid.specs.Lookup.{found_of};
ghost use Rattle.grid_c.specs.Steps.{record_of, gridded_step_of};

use blocks::WIDTH;
use deformation::{Deformation, Motion};

// The mark at a place; the velocity goes to the three lent numbers.
#[unsafe(no_mangle)]
pub extern "C" fn grid_found(
    g: &[u8],
    lam: f64,
    phi: f64,
    east: &mut f64,
    north: &mut f64,
    up: &mut f64,
) -> u8
    ensures { (result ≡ (found_of g.now lam phi).mark) × (east.new ≡ (found_of g.now lam phi).east)
        × (north.new ≡ (found_of g.now lam phi).north) × (up.new ≡ (found_of g.now lam phi).up) }
{
    let v = grid::found(g, lam, phi);
    *east = v.east;
    *north = v.north;
    *up = v.up;
    v.mark
}

// The same of sixteen places.
#[unsafe(no_mangle)]
pub extern "C" fn grid_found_block(
    g: &[u8],
    lam: &[f64; WIDTH],
    phi: &[f64; WIDTH],
    m: &mut [u8; WIDTH],
    east: &mut [f64; WIDTH],
    north: &mut [f64; WIDTH],
    up: &mut [f64; WIDTH],
)
    ensures { EachWhole m.new (λ (j : ℕ). (found_of g.now (at lam.now j) (at phi.now j)).mark)
        × Each east.new (λ (j : ℕ). (found_of g.now (at lam.now j) (at phi.now j)).east)
        × Each north.new (λ (j : ℕ). (found_of g.now (at lam.now j) (at phi.now j)).north)
        × Each up.new (λ (j : ℕ). (found_of g.now (at lam.now j) (at phi.now j)).up) }
{
    grid::found_block(
        g,
        grid::rows(g),
        grid::columns(g),
        lam,
        phi,
        m,
        east,
        north,
        up,
    );
}

fn step_given(flags: u32, ellipsoid: u32, dt: f64, epoch: f64) -> Deformation
    ensures { result ≡ record_of flags ellipsoid dt epoch }
{
    Deformation {
        flags: flags,
        ellipsoid: ellipsoid,
        dt: dt,
        epoch: epoch,
    }
}

// A deformation step by a grid over four columns, in place: forward where inverse is 0. How many
// rows count.
#[unsafe(no_mangle)]
pub extern "C" fn grid_deformation(
    inverse: u32,
    flags: u32,
    ellipsoid: u32,
    dt: f64,
    epoch: f64,
    x: &mut [f64],
    y: &mut [f64],
    z: &mut [f64],
    t: &mut [f64],
    g: &[u8],
) -> usize
    ensures { (flat_of x.new y.new z.new t.new
        ≡ ran_of (gridded_step_of (not (eqb inverse 0)) (record_of flags ellipsoid dt epoch) g.now) 0 no_state (flat_of x.old y.old z.old t.old))
        × (result ≡ count_of (gridded_step_of (not (eqb inverse 0)) (record_of flags ellipsoid dt epoch) g.now) 0 no_state (flat_of x.old y.old z.old t.old)) }
{
    let step = step_given(flags, ellipsoid, dt, epoch);
    let reversed = step.directed(inverse != 0);
    deformation_grid_columns::deformation(x, y, z, t, Motion::new(step), reversed, g)
}

// The same by velocities and marks that are lent.
#[unsafe(no_mangle)]
pub extern "C" fn lent_deformation(
    inverse: u32,
    flags: u32,
    ellipsoid: u32,
    dt: f64,
    epoch: f64,
    x: &mut [f64],
    y: &mut [f64],
    z: &mut [f64],
    t: &mut [f64],
    velocities: &[f64],
    marks: &[u8],
) -> usize
    ensures { (flat_of x.new y.new z.new t.new
        ≡ ran_of (deformation_turns (not (eqb inverse 0)) (record_of flags ellipsoid dt epoch) velocities.now marks.now) 0 no_state (flat_of x.old y.old z.old t.old))
        × (result ≡ count_of (deformation_turns (not (eqb inverse 0)) (record_of flags ellipsoid dt epoch) velocities.now marks.now) 0 no_state (flat_of x.old y.old z.old t.old)) }
{
    let step = step_given(flags, ellipsoid, dt, epoch);
    let reversed = step.directed(inverse != 0);
    let moved = deformation_columns::deformation(
        x,
        y,
        z,
        t,
        0,
        Motion::new(step),
        reversed,
        velocities,
        marks,
    );
    moved.count
}
