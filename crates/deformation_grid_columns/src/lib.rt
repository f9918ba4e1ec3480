// Deformation by a velocity grid over columns, written where the columns stand: a step of
// `fix_columns`, which has the loop over them. It serves both directions.
//
// Sixteen places are worked out once and serve the lookup and the step, so that a grid costs little
// more than lent velocities. The grid's counts, corner and spacings are read once a call. Proved
// equal, list and count, to `gridded_turns` over the flat list that the columns stand for: the
// deformation step's own definition, fed by what the lookup finds at each tuple's place. Exact: no
// rounding but the lookup's and the step's own. Used by whatever runs a step over columns with a
// grid.
#![tactic(auto)]

ghost use Rattle.std.specs.Prelude.{◌≡◌, false};
ghost use Rattle.lists.specs.Run.{ran_of, count_of};
ghost use Rattle.helmert.specs.Turns.{no_state};
ghost use Rattle.columns.specs.Columns.{flat_of};
ghost use Rattle.deformation_grid.specs.Gridded.{gridded_in, gridded_turns};

use blocks::WIDTH;
use deformation::Motion;
use fix_columns::{Counts, Fix, FixStep};
use grid::Axis;
use tuple::Tuple;

// A direction of the step, with a grid whose axes are read. No fix is asked for its index.
#[derive(Clone, Copy)]
struct Gridded<'a> {
    op: Motion,
    inverse: bool,
    g: &'a [u8],
    rows: Axis,
    columns: Axis,
}

impl<'a> FixStep for Gridded<'a> {
    ghost shifted = { λ step i v. gridded_in step.op step.inverse step.g.now step.rows step.columns v };

    // Nothing is told beside the count.
    ghost met = { λ step i v. false };

    fn one(self, _i: usize, v: Tuple) -> Fix {
        let r = deformation_grid::common(self.op, self.inverse, self.g, self.rows, self.columns, v);
        Fix {
            tuple: r.tuple,
            counted: r.counted,
            met: false,
        }
    }

    fn sixteen(
        self,
        _i: usize,
        x: &[f64; WIDTH],
        y: &[f64; WIDTH],
        z: &[f64; WIDTH],
        t: &[f64; WIDTH],
        ox: &mut [f64; WIDTH],
        oy: &mut [f64; WIDTH],
        oz: &mut [f64; WIDTH],
        ot: &mut [f64; WIDTH],
    ) -> Counts {
        let mut lam = [0.0; WIDTH];
        let mut phi = [0.0; WIDTH];
        geocart_block::place_block(self.op.ellps, x, y, z, t, &mut lam, &mut phi);
        let mut east = [0.0; WIDTH];
        let mut north = [0.0; WIDTH];
        let mut up = [0.0; WIDTH];
        let mut m = [0u8; WIDTH];
        grid::found_block(
            self.g,
            self.rows,
            self.columns,
            &lam,
            &phi,
            &mut m,
            &mut east,
            &mut north,
            &mut up,
        );
        let n = deformation_block::moved_block(
            self.op,
            self.inverse,
            &east,
            &north,
            &up,
            &m,
            &lam,
            &phi,
            x,
            y,
            z,
            t,
            ox,
            oy,
            oz,
            ot,
        );
        Counts { count: n, met: 0 }
    }
}

// Every row; how many of them count. Columns of unequal length are left, and none counts.
pub fn deformation(
    x: &mut [f64],
    y: &mut [f64],
    z: &mut [f64],
    t: &mut [f64],
    op: Motion,
    inverse: bool,
    g: &[u8],
) -> usize
    ensures { (flat_of x.new y.new z.new t.new
        ≡ ran_of (gridded_turns op inverse g.now) 0 no_state (flat_of x.old y.old z.old t.old))
        × (result ≡ count_of (gridded_turns op inverse g.now) 0 no_state (flat_of x.old y.old z.old t.old)) }
{
    let step = Gridded {
        op: op,
        inverse: inverse,
        g: g,
        rows: grid::rows(g),
        columns: grid::columns(g),
    };
    fix_columns::run(step, x, y, z, t).count
}
