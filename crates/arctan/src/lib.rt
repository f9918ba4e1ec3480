// atan2: the angle of the point (x, y), from -π to π.
//
// Of the two magnitudes the smaller, b, is divided by the larger, a, once: 16 cells of b/a, told by
// the bits, each have a cut c whose arctangent is known in two parts, and arctan (b/a) = arctan c +
// arctan t with t = (b - c·a)/(a + c·b), which is small, so that a polynomial of five terms serves.
// The octant adds the result to 0 or π/2, or takes it away from π/2 or π. Proved: NaN exactly where
// a part is; odd in y; IEEE 754's zeros, infinities and quadrants.
// Measured against MPFR over 19.5 million points: within 0.764 units in the last place, absolute
// within 2^-51.84 (measure/atan2_hypot.c; docs/KERNELS.md).
// Longitude and latitude in `cart`, `geocart` and the geocentric latitude are taken by it;
// `arctan_block` is the same for sixteen points at once, by the tables and the cut angle here.
#![tactic(auto)]

ghost use Rattle.std.specs.Prelude.{◌≡◌, ◌-◌, cond};
ghost use Rattle.arctan.specs.Table.{cell_at, octant_at};
ghost use Rattle.arctan.specs.Arctan.{tail_of, head_of, small_angle_of, cut_angle_of, cell_index_of, small, quotient_angle_of, moderate, scale_of, extreme_angle_of, within_of, octant_index_of, inside_of, along_of, diagonal_of, angle_of, atan2_of};

const QUARTER_PI: f64 = 0.7853981633974483;

const HALF_PI: f64 = 1.5707963267948966;

const THREE_QUARTER_PI: f64 = 2.356194490192345;

const PI: f64 = 3.141592653589793;

// what π/2 and π exceed their rounded values by
const HALF_PI_REST: f64 = 6.123233995736766e-17;

const PI_REST: f64 = 1.2246467991473532e-16;

const T3: f64 = -0.33333333333329584;

const T5: f64 = 0.19999999992672887;

const T7: f64 = -0.142857096336655;

const T9: f64 = 0.11109821147869375;

const T11: f64 = -0.08928223896045735;

// 2^700 and 2^-700
pub const MOST: f64 = 5.260135901548374e210;

pub const LEAST: f64 = 1.90109156629516e-211;

// 2^-100, 2^300 and 2^-300
const NEGLIGIBLE: f64 = 7.888609052210118e-31;

const UP: f64 = 2.037035976334486e90;

const DOWN: f64 = 4.909093465297727e-91;

#[derive(Clone, Copy)]
pub struct Cell {
    pub coarse: f64,
    pub fine: f64,
    pub angle: f64,
    pub rest: f64,
}

#[derive(Clone, Copy)]
pub struct Octant {
    pub base: f64,
    pub rest: f64,
    pub side: f64,
    pub low: f64,
    pub high: f64,
}

pub fn cell_at(i: u64) -> Cell
    ensures { result ≡ cell_at i }
{
    match i {
        0 => Cell {
            coarse: 1.0,
            fine: -0.125,
            angle: 0.7188299996216241,
            rest: 4.2261082140560565e-16,
        },
        1 => Cell {
            coarse: 1.0,
            fine: -0.25,
            angle: 0.6435011087932843,
            rest: 1.2685708751395994e-16,
        },
        2 => Cell {
            coarse: 0.5,
            fine: 0.125,
            angle: 0.558599315343562,
            rest: 4.38633579301471e-16,
        },
        3 => Cell {
            coarse: 0.5,
            fine: 0.0625,
            angle: 0.5123894603107377,
            rest: -2.5462781472855804e-17,
        },
        4 => Cell {
            coarse: 0.5,
            fine: -0.0625,
            angle: 0.4124104415973875,
            rest: -1.8240997597148038e-16,
        },
        5 => Cell {
            coarse: 0.25,
            fine: 0.125,
            angle: 0.3587706702705722,
            rest: 3.088733564861919e-17,
        },
        6 => Cell {
            coarse: 0.25,
            fine: 0.0625,
            angle: 0.30288486837497164,
            rest: -2.330554328280327e-16,
        },
        7 => Cell {
            coarse: 0.25,
            fine: 0.03125,
            angle: 0.27416745111965923,
            rest: -4.3582785627489883e-16,
        },
        8 => Cell {
            coarse: 0.25,
            fine: -0.03125,
            angle: 0.215357699697738,
            rest: 5.59849672442657e-17,
        },
        9 => Cell {
            coarse: 0.25,
            fine: -0.0625,
            angle: 0.1853479499956947,
            rest: 5.969184350010091e-17,
        },
        10 => Cell {
            coarse: 0.125,
            fine: 0.03125,
            angle: 0.15499674192394064,
            rest: 3.426523229816613e-16,
        },
        11 => Cell {
            coarse: 0.125,
            fine: 0.015625,
            angle: 0.13970887428916345,
            rest: 1.9133104288467082e-16,
        },
        12 => Cell {
            coarse: 0.125,
            fine: -0.015625,
            angle: 0.10894195698986575,
            rest: 4.846007563068433e-17,
        },
        13 => Cell {
            coarse: 0.0625,
            fine: 0.03125,
            angle: 0.09347678115858926,
            rest: 2.0188234451767475e-16,
        },
        14 => Cell {
            coarse: 0.0625,
            fine: 0.015625,
            angle: 0.0779666338315419,
            rest: 4.082603982997626e-16,
        },
        15 => Cell {
            coarse: 0.0625,
            fine: 0.0078125,
            angle: 0.07019697107187017,
            rest: 3.4514650303503937e-16,
        },
        16 => Cell {
            coarse: 0.0,
            fine: 0.0,
            angle: 0.0,
            rest: 0.0,
        },
        // never asked for, and the same: so the rows are read without a test
        _ => Cell {
            coarse: 0.0,
            fine: 0.0,
            angle: 0.0,
            rest: 0.0,
        },
    }
}

pub fn octant_at(k: u64) -> Octant
    ensures { result ≡ octant_at k }
{
    match k {
        0 => Octant {
            base: 0.0,
            rest: 0.0,
            side: 1.0,
            low: 0.0,
            high: QUARTER_PI,
        },
        1 => Octant {
            base: HALF_PI,
            rest: HALF_PI_REST,
            side: -1.0,
            low: QUARTER_PI,
            high: HALF_PI,
        },
        2 => Octant {
            base: PI,
            rest: PI_REST,
            side: -1.0,
            low: THREE_QUARTER_PI,
            high: PI,
        },
        _ => Octant {
            base: HALF_PI,
            rest: HALF_PI_REST,
            side: 1.0,
            low: HALF_PI,
            high: THREE_QUARTER_PI,
        },
    }
}

// The octant, as the index of its row in the table: the blocks keep it in an array of numbers and
// read the row without a branch, which an enum would only be turned back into.
pub fn octant_index(left: bool, steep: bool) -> u64
    ensures { result ≡ octant_index_of left steep }
{
    if left {
        if steep { 3 } else { 2 }
    } else {
        if steep { 1 } else { 0 }
    }
}

// arctan t - t for small t
fn tail(t: f64) -> f64
    ensures { result ≡ tail_of t }
{
    let z = t * t;
    let zz = z * z;
    t * z * (T3 + T5 * z + (T7 + T9 * z + T11 * zz) * zz)
}

// the upper 26 binary digits
fn head(v: f64) -> f64
    ensures { result ≡ head_of v }
{
    let w = 134217729.0 * v;
    w - (w - v)
}

fn small_angle(a: f64, b: f64) -> f64
    ensures { result ≡ small_angle_of a b }
{
    let inverse = 1.0 / a;
    let t = b * inverse;
    let h = head(t);
    let g = head(a);
    let left = b - h * g - h * (a - g);
    h + (left * inverse + tail(t))
}

pub fn cut_angle(o: Octant, c: Cell, a: f64, b: f64) -> f64
    ensures { result ≡ cut_angle_of o c a b }
{
    let t = (b - c.coarse * a - c.fine * a) / (o.side * (a + (c.coarse + c.fine) * b));
    o.base + o.side * c.angle + (t + (o.rest + o.side * c.rest) + tail(t))
}

fn cell_index(a: f64, b: f64) -> u64
    ensures { result ≡ cell_index_of a b }
{
    let excess = floats::to_bits(a).saturating_sub(floats::to_bits(b));
    (excess / 0x4_0000_0000_0000).min(16)
}

fn is_small(k: u64, i: u64) -> bool
    ensures { result ≡ small k i }
{
    k == 0 && i == 16
}

fn quotient_angle(k: u64, a: f64, b: f64) -> f64
    ensures { result ≡ quotient_angle_of k a b }
{
    let i = cell_index(a, b);
    if is_small(k, i) {
        return small_angle(a, b);
    }
    cut_angle(octant_at(k), cell_at(i), a, b)
}

pub fn is_moderate(a: f64, b: f64) -> bool
    ensures { result ≡ moderate a b }
{
    a < MOST && LEAST < b
}

fn scale_of(a: f64) -> f64
    ensures { result ≡ scale_of a }
{
    if a > 1.0 { DOWN } else { UP }
}

fn extreme_angle(k: u64, a: f64, b: f64) -> f64
    ensures { result ≡ extreme_angle_of k a b }
{
    if a * NEGLIGIBLE <= b {
        let scale = scale_of(a);
        return quotient_angle(k, a * scale, b * scale);
    }
    if k == 0 {
        return b / a;
    }
    octant_at(k).base
}

fn within(o: Octant, angle: f64) -> f64
    ensures { result ≡ within_of o angle }
{
    if angle < o.high {
        if o.low < angle { angle } else { o.low }
    } else {
        o.high
    }
}

pub fn choose(first: bool, a: f64, b: f64) -> f64
    ensures { result ≡ cond first a b }
{
    if first { a } else { b }
}

// the angle of magnitudes that are neither zero nor infinite
fn inside(left: bool, a: f64, b: f64) -> f64
    ensures { result ≡ inside_of left a b }
{
    let steep = a < b;
    let k = octant_index(left, steep);
    let large = choose(steep, b, a);
    let small = choose(steep, a, b);
    if is_moderate(large, small) {
        within(octant_at(k), quotient_angle(k, large, small))
    } else {
        within(octant_at(k), extreme_angle(k, large, small))
    }
}

// along the x axis
fn along(left: bool) -> f64
    ensures { result ≡ along_of left }
{
    if left { PI } else { 0.0 }
}

// halfway between the axes
fn diagonal(left: bool) -> f64
    ensures { result ≡ diagonal_of left }
{
    if left { THREE_QUARTER_PI } else { QUARTER_PI }
}

// the angle of (x, b) for a magnitude b
fn angle(b: f64, x: f64) -> f64
    ensures { result ≡ angle_of b x }
{
    let a = floats::abs(x);
    let left = floats::negative(x);
    let infinity = 1.0 / 0.0;
    if b == 0.0 {
        return along(left);
    }
    if a == 0.0 {
        return HALF_PI;
    }
    if b == infinity {
        if a == infinity {
            return diagonal(left);
        }
        return HALF_PI;
    }
    if a == infinity {
        return along(left);
    }
    inside(left, a, b)
}

pub fn atan2(y: f64, x: f64) -> f64
    ensures { result ≡ atan2_of y x }
{
    let a = floats::abs(x);
    let b = floats::abs(y);
    let steep = a < b;
    let large = choose(steep, b, a);
    let small = choose(steep, a, b);
    // no part is NaN, zero or infinite: the usual case, at once
    if is_moderate(large, small) {
        let k = octant_index(x < 0.0, steep);
        let r = within(octant_at(k), quotient_angle(k, large, small));
        return if y < 0.0 { -r } else { r };
    }
    if floats::is_nan(y) {
        return y;
    }
    if floats::is_nan(x) {
        return x;
    }
    let r = angle(b, x);
    if floats::negative(y) { -r } else { r }
}
