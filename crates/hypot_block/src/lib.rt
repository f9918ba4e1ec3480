// hypot by the block: the lengths √(x² + y²) of sixteen points, each as `hypot::hypot` gives it.
//
// The method is hypot's. Where all sums of squares are ordinary, as they nearly always are, one
// loop with neither a branch nor a test for NaN does, of which the compiler makes vector
// instructions; any other block goes one point after the other. Proved: each number is hypot's, so
// that its exactness is hypot's too. The distances from the axis in `cart` and `geocart_block` are
// taken by it.
#![tactic(auto)]

ghost use Rattle.std.specs.Prelude.{ℕ};
ghost use Rattle.blocks.specs.Each.{at, Each};
ghost use Rattle.hypot.specs.Hypot.{hypot_of};
ghost use Rattle.hypot_block.specs.Block.{UsualUpTo};

use blocks::WIDTH;

// The lengths as far as the usual case gives them, and 0 where it gives none; the answer is whether
// it gives all.
fn usual_block(x: &[f64; WIDTH], y: &[f64; WIDTH], r: &mut [f64; WIDTH]) -> bool
    ensures { UsualUpTo 16 x.now y.now r.new result }
{
    *r = [0.0; WIDTH];
    let mut all = true;
    for i in 0..WIDTH {
        let u = hypot::usual_length(x[i], y[i]);
        r[i] = u.unwrap_or(0.0);
        all &= u.is_some();
    }
    all
}

// The lengths one after the other, whatever the parts are.
fn any_block(x: &[f64; WIDTH], y: &[f64; WIDTH], r: &mut [f64; WIDTH])
    ensures { Each r.new (λ (j : ℕ). hypot_of (at x.now j) (at y.now j)) }
{
    *r = [0.0; WIDTH];
    for i in 0..WIDTH {
        r[i] = hypot::hypot(x[i], y[i]);
    }
}

// The lengths of a block of points, each as `hypot` gives it.
pub fn hypot_block(x: &[f64; WIDTH], y: &[f64; WIDTH], r: &mut [f64; WIDTH])
    ensures { Each r.new (λ (j : ℕ). hypot_of (at x.now j) (at y.now j)) }
{
    if !usual_block(x, y, r) {
        any_block(x, y, r);
    }
}
