// atan2 by the block: the angles of sixteen points (x, y), each as `arctan::atan2` gives it.
//
// The method is atan2's. The points are sized first, in a loop of their own. Where together they
// are not odd, the rows of atan2's tables give the angles, two points at a time, and the points
// near 0 are mended afterwards; any other block goes one point after the other. Proved: each number
// is atan2's, so that its exactness is atan2's too. Longitude and latitude in `cart` and
// `geocart_block` and the geocentric latitude in `permtide` are taken by it.
#![tactic(auto)]

ghost use Rattle.std.specs.Prelude.{◌≡◌, ℕ, cond, length};
ghost use Rattle.blocks.specs.Each.{at, Each};
ghost use Rattle.arctan.specs.Arctan.{atan2_of};
ghost use Rattle.arctan_block.specs.Block.{at_most, at_least, SizedPoint, SizedUpTo, quick_of, quick_at, mended_of, mended_at};

use arctan::{Cell, LEAST, MOST, Octant};
use blocks::WIDTH;

// v if it is below m, else m: so a NaN gives m
fn at_most(v: f64, m: f64) -> f64
    ensures { result ≡ at_most v m }
{
    if v < m { v } else { m }
}

// v if it is above m, else m
fn at_least(v: f64, m: f64) -> f64
    ensures { result ≡ at_least v m }
{
    if m < v { v } else { m }
}

fn odd_if(usual: bool, quarters: u64) -> u64
    ensures { result ≡ cond usual quarters 8192 }
{
    if usual { quarters } else { 8192 }
}

// What a point of a block comes to before the tables: its two magnitudes, held within the moderate;
// the quarters of a halving from the one to the other; its octant; and how odd it is: the quarters,
// and 8192 if a magnitude was held. Points that are less than 256 odd together are moderate, each
// of them, and mostly away from the axes.
#[derive(Clone, Copy)]
struct Point {
    larger: f64,
    smaller: f64,
    quarters: u64,
    octant: u64,
    odd: u64,
}

fn sized(y: f64, x: f64) -> Point
    ensures { SizedPoint y x result }
{
    let a = floats::abs(x);
    let b = floats::abs(y);
    let steep = a < b;
    let larger = at_most(arctan::choose(steep, b, a), MOST);
    let smaller = at_least(arctan::choose(steep, a, b), LEAST);
    let quarters = f64::to_bits(larger).wrapping_sub(f64::to_bits(smaller)) / 0x4_0000_0000_0000;
    let octant = arctan::octant_index(x < 0.0, steep);
    let odd = odd_if(arctan::is_moderate(larger, smaller), quarters);
    Point {
        larger,
        smaller,
        quarters,
        octant,
        odd,
    }
}

// The points of a block; the answer is how odd they are together.
fn sizes(
    y: &[f64; WIDTH],
    x: &[f64; WIDTH],
    larger: &mut [f64; WIDTH],
    smaller: &mut [f64; WIDTH],
    quarters: &mut [u64; WIDTH],
    octants: &mut [u64; WIDTH],
) -> u64
    ensures { SizedUpTo 16 y.now x.now larger.new smaller.new quarters.new octants.new result }
{
    *larger = [0.0; WIDTH];
    *smaller = [0.0; WIDTH];
    *quarters = [0; WIDTH];
    *octants = [0; WIDTH];
    let mut n: u64 = 0;
    for i in 0..WIDTH {
        let p = sized(y[i], x[i]);
        larger[i] = p.larger;
        smaller[i] = p.smaller;
        quarters[i] = p.quarters;
        octants[i] = p.octant;
        n += p.odd;
    }
    n
}

// The angle by the rows of the tables. The order of the bounds is of no account, and this is two
// instructions.
fn quick(y: f64, o: Octant, c: Cell, a: f64, b: f64) -> f64
    ensures { result ≡ quick_of y o c a b }
{
    let r = at_least(at_most(arctan::cut_angle(o, c, a, b), o.high), o.low);
    if y < 0.0 { -r } else { r }
}

// The angles by the rows of the tables, two points at a time: of two the compiler makes one vector,
// rows and all.
fn pairs(
    y: &[f64; WIDTH],
    larger: &[f64; WIDTH],
    smaller: &[f64; WIDTH],
    quarters: &[u64; WIDTH],
    octants: &[u64; WIDTH],
    r: &mut [f64; WIDTH],
)
    ensures { Each r.new (λ (j : ℕ). quick_at y.now larger.now smaller.now quarters.now octants.now j) }
{
    *r = [0.0; WIDTH];
    for h in 0..WIDTH / 2 {
        let i = 2 * h;
        let j = 2 * h + 1;
        let c = arctan::cell_at(quarters[i].min(16));
        let d = arctan::cell_at(quarters[j].min(16));
        let o = arctan::octant_at(octants[i] % 4);
        let p = arctan::octant_at(octants[j] % 4);
        let v = quick(y[i], o, c, larger[i], smaller[i]);
        let w = quick(y[j], p, d, larger[j], smaller[j]);
        r[i] = v;
        r[j] = w;
    }
}

// The rows do not serve near 0, in the octant 0 below all cuts. This takes in a few points more.
fn mended(y: f64, x: f64, octant: u64, quarters: u64, angle: f64) -> f64
    ensures { result ≡ mended_of y x octant quarters angle }
{
    if octant < quarters / 16 {
        arctan::atan2(y, x)
    } else {
        angle
    }
}

fn mend(
    y: &[f64; WIDTH],
    x: &[f64; WIDTH],
    quarters: &[u64; WIDTH],
    octants: &[u64; WIDTH],
    r: &mut [f64; WIDTH],
)
    requires { length r.old ≡ 16 }
    ensures { Each r.new (λ (j : ℕ). mended_at y.now x.now quarters.now octants.now r.old j) }
{
    for i in 0..WIDTH {
        r[i] = mended(y[i], x[i], octants[i], quarters[i], r[i]);
    }
}

// The angles one after the other, whatever the points are.
fn any_block(y: &[f64; WIDTH], x: &[f64; WIDTH], r: &mut [f64; WIDTH])
    ensures { Each r.new (λ (j : ℕ). atan2_of (at y.now j) (at x.now j)) }
{
    *r = [0.0; WIDTH];
    for i in 0..WIDTH {
        r[i] = arctan::atan2(y[i], x[i]);
    }
}

// The angles of a block of points, each as `atan2` gives it. A block with an odd point, or with
// most of its points near an axis, goes one point after the other.
pub fn atan2_block(y: &[f64; WIDTH], x: &[f64; WIDTH], r: &mut [f64; WIDTH])
    ensures { Each r.new (λ (j : ℕ). atan2_of (at y.now j) (at x.now j)) }
{
    let mut larger = [0.0; WIDTH];
    let mut smaller = [0.0; WIDTH];
    let mut quarters: [u64; WIDTH] = [0; WIDTH];
    let mut octants: [u64; WIDTH] = [0; WIDTH];
    if sizes(y, x, &mut larger, &mut smaller, &mut quarters, &mut octants) < 256 {
        pairs(y, &larger, &smaller, &quarters, &octants, r);
        mend(y, x, &quarters, &octants, r);
    } else {
        any_block(y, x, r);
    }
}
