// Deformation over columns, written where the columns stand: a step of `fix_columns`, which has the
// loop over them. It stands in place of the loop in deformation.rs's `common` over a `dyn
// CoordinateSet`, and like that serves both directions.
//
// Fix k of the whole list uses velocity k and mark k of the caller's arrays; the columns may be a
// part of the list, and `first` is the index of the part's first fix. What depends on the record
// alone is worked out by the caller, once a list. Beside the count stands how many fixes met an angle out of reach of sine and cosine
// (document 02, A5); it is counted here, where the longitudes and latitudes stand. Proved equal,
// list and both numbers, to the step's own definition from tuple to tuple, over the flat list that
// the columns stand for. Exact: no rounding but the step's own. Used by whatever runs a step over
// columns.
#![tactic(auto)]

ghost use Rattle.std.specs.Prelude.{◌≡◌, cond, ◌&&◌, ℕ, ◌+◌, ◌^◌, ◌≤◌, ◌<◌, eqb, ltb};
ghost use Rattle.blocks.specs.Each.{at, whole_at, Each, EachWhole, count_to};
ghost use Rattle.deformation.specs.Step.{common_of};
ghost use Rattle.lists.specs.Run.{ran_of, count_of};
ghost use Rattle.helmert.specs.Turns.{no_state};
ghost use Rattle.turns.specs.Turns.{velocity_at, mark_at, moved_turns};
ghost use Rattle.reach.specs.Met.{place_out, moved_met, moved_met_turns};
ghost use Rattle.columns.specs.Columns.{flat_of};

use blocks::{WIDTH, one_if};
use deformation::Motion;
use fix_columns::{Counts, Fix, FixStep};
use tuple::Tuple;

// ----- what is lent --------------------------------------------------------------------------

// Nothing is lent from this index on, 2^63: a slice takes fewer bytes than that.
const BEYOND: usize = 9223372036854775808;

// A part of the list that begins past that index is moved as if it began there: nothing is lent for
// its fixes either way, and their indices do not overflow.
fn lent_from(first: usize) -> usize
    ensures { (result ≡ cond (ltb first (2 ^ 63)) first (2 ^ 63)) × (result ≤ 2 ^ 63) }
{
    if first < BEYOND {
        return first;
    }
    BEYOND
}

// The velocities of sixteen fixes from k on, as blocks.
fn velocity_block(
    velocities: &[f64],
    k: usize,
    east: &mut [f64; WIDTH],
    north: &mut [f64; WIDTH],
    up: &mut [f64; WIDTH],
)
    requires { k + 16 < 2 ^ 64 }
    ensures { Each east.new (λ (j : ℕ). (velocity_at velocities.now (k + j)).east)
        × Each north.new (λ (j : ℕ). (velocity_at velocities.now (k + j)).north)
        × Each up.new (λ (j : ℕ). (velocity_at velocities.now (k + j)).up) }
{
    *east = [0.0; WIDTH];
    *north = [0.0; WIDTH];
    *up = [0.0; WIDTH];
    for j in 0..WIDTH {
        let v = turns::velocity_at(velocities, k + j);
        east[j] = v.east;
        north[j] = v.north;
        up[j] = v.up;
    }
}

// The marks of sixteen fixes from k on.
fn mark_block(marks: &[u8], k: usize, m: &mut [u8; WIDTH])
    requires { k + 16 < 2 ^ 64 }
    ensures { EachWhole m.new (λ (j : ℕ). mark_at marks.now (k + j)) }
{
    *m = [0; WIDTH];
    for j in 0..WIDTH {
        m[j] = turns::mark_at(marks, k + j);
    }
}

// ----- what meets an angle out of reach --------------------------------------------------------

// How many of a list's fixes count, and how many met an angle out of reach.
#[derive(Clone, Copy)]
pub struct Moved {
    pub count: usize,
    pub met: usize,
}

// Of sixteen fixes by their marks, longitudes and latitudes: how many are present and have one of
// the two out of reach.
fn met_block(m: &[u8; WIDTH], lam: &[f64; WIDTH], phi: &[f64; WIDTH]) -> usize
    ensures { result ≡ count_to 16 (λ (j : ℕ). eqb (whole_at m.now j) 1 && place_out (at lam.now j) (at phi.now j)) }
{
    let mut n = 0;
    for i in 0..WIDTH {
        n += one_if((m[i] == 1) & reach::place_out(lam[i], phi[i]));
    }
    n
}

// ----- the step ------------------------------------------------------------------------------

// A direction of the step, with what is lent: fix i of the columns is fix `first + i` of the list.
#[derive(Clone, Copy)]
struct Lent<'a> {
    first: usize,
    op: Motion,
    inverse: bool,
    velocities: &'a [f64],
    marks: &'a [u8],
    ghost near: { first ≤ 2 ^ 63 },
}

impl<'a> FixStep for Lent<'a> {
    ghost shifted = { λ step i v. common_of step.op step.inverse
        (velocity_at step.velocities.now (step.first + i)) (mark_at step.marks.now (step.first + i)) v };

    // It meets an angle out of reach.
    ghost met = { λ step i v. moved_met step.op (mark_at step.marks.now (step.first + i)) v };

    fn one(self, i: usize, v: Tuple) -> Fix {
        let k = lent_from(self.first.saturating_add(i)); // for any index, so none is asked for
        let velocity = turns::velocity_at(self.velocities, k);
        let mark = turns::mark_at(self.marks, k);
        let r = reach::moved(self.op, self.inverse, velocity, mark, v);
        Fix {
            tuple: r.tuple,
            counted: r.counted,
            met: r.met,
        }
    }

    fn sixteen(
        self,
        i: usize,
        x: &[f64; WIDTH],
        y: &[f64; WIDTH],
        z: &[f64; WIDTH],
        t: &[f64; WIDTH],
        ox: &mut [f64; WIDTH],
        oy: &mut [f64; WIDTH],
        oz: &mut [f64; WIDTH],
        ot: &mut [f64; WIDTH],
    ) -> Counts {
        let mut lam = [0.0; WIDTH];
        let mut phi = [0.0; WIDTH];
        geocart_block::place_block(self.op.ellps, x, y, z, t, &mut lam, &mut phi);
        let mut east = [0.0; WIDTH];
        let mut north = [0.0; WIDTH];
        let mut up = [0.0; WIDTH];
        let mut m = [0u8; WIDTH];
        let k = lent_from(self.first.saturating_add(i));
        velocity_block(self.velocities, k, &mut east, &mut north, &mut up);
        mark_block(self.marks, k, &mut m);
        let n = deformation_block::moved_block(
            self.op,
            self.inverse,
            &east,
            &north,
            &up,
            &m,
            &lam,
            &phi,
            x,
            y,
            z,
            t,
            ox,
            oy,
            oz,
            ot,
        );
        Counts {
            count: n,
            met: met_block(&m, &lam, &phi),
        }
    }
}

// Every row. Columns of unequal length are left, and none counts or meets anything.
pub fn deformation(
    x: &mut [f64],
    y: &mut [f64],
    z: &mut [f64],
    t: &mut [f64],
    first: usize,
    op: Motion,
    inverse: bool,
    velocities: &[f64],
    marks: &[u8],
) -> Moved
    ensures { (flat_of x.new y.new z.new t.new
        ≡ ran_of (moved_turns op inverse velocities.now marks.now) first no_state (flat_of x.old y.old z.old t.old))
        × (result.count ≡ count_of (moved_turns op inverse velocities.now marks.now) first no_state (flat_of x.old y.old z.old t.old))
        × (result.met ≡ count_of (moved_met_turns op inverse velocities.now marks.now) first no_state (flat_of x.old y.old z.old t.old)) }
{
    let step = Lent {
        first: lent_from(first),
        op: op,
        inverse: inverse,
        velocities: velocities,
        marks: marks,
    };
    let r = fix_columns::run(step, x, y, z, t);
    Moved {
        count: r.count,
        met: r.met,
    }
}
