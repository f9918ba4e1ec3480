// Sine and cosine of a block of angles in radians, each as `trig::sin_cos` gives them.
//
// The method is that of `trig`, in three loops over the block: the reductions, the rows of the
// table, and the sums. The first and the last have no branch and become vector instructions; only
// the table is looked up number by number. A block in which no angle is zero, NaN or out of reach
// has sums of its own, without the choices for such angles.
//
// Proved: place by place the answers are the definitions' of `trig`, so that its laws and its error
// hold here too. Every step of a shift that meets latitudes by the block uses it.
#![tactic(auto)]

ghost use Rattle.std.specs.Prelude.{◌≡◌, ℕ};
ghost use Rattle.blocks.specs.Each.{at, whole_at, Each, EachWhole, Tells};
ghost use Rattle.trig.specs.Table.{row_of};
ghost use Rattle.trig.specs.Trig.{sin_of, cos_of};
ghost use Rattle.trig_block.specs.Block.{number_of, step_of, rest_of, tail_of, usual_of, sin_from, cos_from, pair_from, usual_from, both_from};

use blocks::WIDTH;
use floats::abs;
use trig::{Row, SinCos, bend, half, look_up, reduce, signed, sum};

// Sine and cosine of a block of angles, each as `trig::sin_cos` gives them.
pub fn sin_cos_block(x: &[f64; WIDTH], s: &mut [f64; WIDTH], c: &mut [f64; WIDTH])
    ensures { Each s.new (λ (j : ℕ). sin_of (at x.now j)) × Each c.new (λ (j : ℕ). cos_of (at x.now j)) }
{
    let mut step: [u64; WIDTH] = [0; WIDTH];
    let mut rest: [f64; WIDTH] = [0.0; WIDTH];
    let mut tail: [f64; WIDTH] = [0.0; WIDTH];
    let mut sh: [f64; WIDTH] = [0.0; WIDTH];
    let mut sl: [f64; WIDTH] = [0.0; WIDTH];
    let mut ch: [f64; WIDTH] = [0.0; WIDTH];
    let mut cl: [f64; WIDTH] = [0.0; WIDTH];
    smalls(x, &mut step, &mut rest, &mut tail);
    rows(&step, &mut sh, &mut sl, &mut ch, &mut cl);
    if all_usual(x) {
        usual_sums(x, &rest, &tail, &sh, &sl, &ch, &cl, s, c);
    } else {
        sums(x, &rest, &tail, &sh, &sl, &ch, &cl, s, c);
    }
}

// The reductions of the magnitudes of a block, 0 in the place of a NaN.
fn smalls(
    x: &[f64; WIDTH],
    step: &mut [u64; WIDTH],
    rest: &mut [f64; WIDTH],
    tail: &mut [f64; WIDTH],
)
    ensures { EachWhole step.new (λ (j : ℕ). step_of (at x.now j)) × Each rest.new (λ (j : ℕ). rest_of (at x.now j)) × Each tail.new (λ (j : ℕ). tail_of (at x.now j)) }
{
    *step = [0; WIDTH];
    *rest = [0.0; WIDTH];
    *tail = [0.0; WIDTH];
    for i in 0..WIDTH {
        let g = reduce(abs(number(x[i])));
        step[i] = g.step;
        rest[i] = g.rest;
        tail[i] = g.tail;
    }
}

// x, or 0 in the place of a NaN. The magnitude of what is no NaN is a single instruction, and so
// are the bits of what comes of it.
fn number(x: f64) -> f64
    ensures { result ≡ number_of x }
{
    if x != x { 0.0 } else { x }
}

// The table's rows for a block of steps: the loop that is not turned into vector instructions has
// nothing else to do.
fn rows(
    step: &[u64; WIDTH],
    sh: &mut [f64; WIDTH],
    sl: &mut [f64; WIDTH],
    ch: &mut [f64; WIDTH],
    cl: &mut [f64; WIDTH],
)
    ensures { Each sh.new (λ (j : ℕ). (row_of (whole_at step.now j)).0) × Each sl.new (λ (j : ℕ). (row_of (whole_at step.now j)).1) × Each ch.new (λ (j : ℕ). (row_of (whole_at step.now j)).2) × Each cl.new (λ (j : ℕ). (row_of (whole_at step.now j)).3) }
{
    *sh = [0.0; WIDTH];
    *sl = [0.0; WIDTH];
    *ch = [0.0; WIDTH];
    *cl = [0.0; WIDTH];
    for i in 0..WIDTH {
        let w = row(step[i]);
        sh[i] = w.0;
        sl[i] = w.1;
        ch[i] = w.2;
        cl[i] = w.3;
    }
}

// The row of a step. Latitudes, and longitudes from -π to π, stay on the first half of the circle,
// where the table has the row as it is.
fn row(k: u64) -> Row
    ensures { result ≡ row_of k }
{
    let i = k % 64;
    if i < 32 { half(i) } else { look_up(k) }
}

// Whether no angle of a block is zero, NaN or out of reach.
fn all_usual(x: &[f64; WIDTH]) -> bool
    ensures { Tells 16 (λ (j : ℕ). usual_of (at x.now j)) result }
{
    let mut all = true;
    for i in 0..WIDTH {
        all &= usual(x[i]);
    }
    all
}

fn usual(x: f64) -> bool
    ensures { result ≡ usual_of x }
{
    if x == 0.0 {
        return false;
    }
    abs(x) <= 1024.0
}

// The sums of a block of usual angles, from what the two loops before have laid down.
fn usual_sums(
    x: &[f64; WIDTH],
    rest: &[f64; WIDTH],
    tail: &[f64; WIDTH],
    sh: &[f64; WIDTH],
    sl: &[f64; WIDTH],
    ch: &[f64; WIDTH],
    cl: &[f64; WIDTH],
    s: &mut [f64; WIDTH],
    c: &mut [f64; WIDTH],
)
    ensures { Each s.new (λ (j : ℕ). (usual_from (at x.now j) (at rest.now j) (at tail.now j) (record { 0 = at sh.now j; 1 = at sl.now j; 2 = at ch.now j; 3 = at cl.now j })).s) × Each c.new (λ (j : ℕ). (usual_from (at x.now j) (at rest.now j) (at tail.now j) (record { 0 = at sh.now j; 1 = at sl.now j; 2 = at ch.now j; 3 = at cl.now j })).c) }
{
    *s = [0.0; WIDTH];
    *c = [0.0; WIDTH];
    for i in 0..WIDTH {
        let w = Row(sh[i], sl[i], ch[i], cl[i]);
        let q = usual_both(x[i], rest[i], tail[i], w);
        s[i] = q.s;
        c[i] = q.c;
    }
}

// The sums of a block of any angles. It stands beside `usual_sums` on purpose: one function over a
// closure would have to say each place by the closure's `post`, which is longer than this loop.
fn sums(
    x: &[f64; WIDTH],
    rest: &[f64; WIDTH],
    tail: &[f64; WIDTH],
    sh: &[f64; WIDTH],
    sl: &[f64; WIDTH],
    ch: &[f64; WIDTH],
    cl: &[f64; WIDTH],
    s: &mut [f64; WIDTH],
    c: &mut [f64; WIDTH],
)
    ensures { Each s.new (λ (j : ℕ). (both_from (at x.now j) (at rest.now j) (at tail.now j) (record { 0 = at sh.now j; 1 = at sl.now j; 2 = at ch.now j; 3 = at cl.now j })).s) × Each c.new (λ (j : ℕ). (both_from (at x.now j) (at rest.now j) (at tail.now j) (record { 0 = at sh.now j; 1 = at sl.now j; 2 = at ch.now j; 3 = at cl.now j })).c) }
{
    *s = [0.0; WIDTH];
    *c = [0.0; WIDTH];
    for i in 0..WIDTH {
        let w = Row(sh[i], sl[i], ch[i], cl[i]);
        let q = both(x[i], rest[i], tail[i], w);
        s[i] = q.s;
        c[i] = q.c;
    }
}

// Sine and cosine of a usual angle.
fn usual_both(x: f64, r: f64, tail: f64, w: Row) -> SinCos
    ensures { result ≡ usual_from x r tail w }
{
    let p = pair_from(r, tail, w);
    SinCos {
        s: signed(p.s, x),
        c: p.c,
    }
}

// Sine and cosine of any angle. Each `if` chooses between two numbers that are there already, which
// is no branch.
fn both(x: f64, r: f64, tail: f64, w: Row) -> SinCos
    ensures { result ≡ both_from x r tail w }
{
    let p = pair_from(r, tail, w);
    SinCos {
        s: sine_from(x, p.s),
        c: cosine_from(x, p.c),
    }
}

// Sine and cosine of a magnitude in reach, from its reduction and its row.
fn pair_from(r: f64, tail: f64, w: Row) -> SinCos
    ensures { result ≡ pair_from r tail w }
{
    let b = bend(r, tail);
    SinCos {
        s: sum(w.0, w.1, w.2, r, b),
        c: sum(w.2, w.3, -w.0, r, b),
    }
}

// the sine of x, where s is that of a magnitude in reach
fn sine_from(x: f64, s: f64) -> f64
    ensures { result ≡ sin_from x s }
{
    if x == 0.0 {
        return x;
    }
    if abs(x) <= 1024.0 {
        signed(s, x)
    } else {
        0.0 / 0.0
    }
}

// the cosine of x, where c is that of a magnitude in reach
fn cosine_from(x: f64, c: f64) -> f64
    ensures { result ≡ cos_from x c }
{
    if x == 0.0 {
        return 1.0;
    }
    if abs(x) <= 1024.0 { c } else { 0.0 / 0.0 }
}
