// Numbers by the block: what it is for an array to hold a function's values place by place, and the
// laws that a loop over one is proved by.
//
// The kernels and the steps that are slow one number at a time have a second form that takes WIDTH
// numbers at once, each in short loops over arrays that a compiler turns into vector instructions.
// Such a form is proved place by place against the same definition as the first: the two give the
// same numbers.
#![tactic(auto)]

ghost use Rattle.std.specs.Prelude.{◌≡◌, cond, ℕ, ◌≤◌};
ghost use Rattle.floats.specs.Binary64.{◌⊗◌};
ghost use Rattle.blocks.specs.Each.{at, Each};

// How many numbers a block has.
pub const WIDTH: usize = 16;

// What a loop that counts adds at a turn: 1 where the tuple counts, else 0. That it is at most 1
// keeps the sum in range without a law.
pub fn one_if(counts: bool) -> usize
    ensures { (result ≡ cond counts 1 0) × (result ≤ 1) }
{
    if counts { 1 } else { 0 }
}

// k times each number of a block.
pub fn scaled(k: f64, x: &[f64; WIDTH], r: &mut [f64; WIDTH])
    ensures { Each r.new (λ (j : ℕ). k ⊗ at x.now j) }
{
    *r = [0.0; WIDTH];
    for i in 0..WIDTH {
        r[i] = k * x[i];
    }
}
