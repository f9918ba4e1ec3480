// The bytes of a velocity grid: where its counts, numbers and nodes stand, and rules 17 and 18.
//
// Every function takes every byte string; what lies past its end reads as 0. Nothing rounds. The
// rules are told in specs/Rules.antt in the words of document 02. Rule 18 asks of every number
// whether it is finite: eight a turn, by the largest of their bit patterns and of the patterns with
// the sign turned, so that no turn has a branch. A grid of 64 by 64 has 12,292 numbers. The lookup
// stands in `grid`.
#![tactic(auto)]

ghost use Rattle.std.specs.Prelude.{◌≡◌, ◌≤◌, not};
ghost use Rattle.std.specs.Float.Ieee.Scale.{finite};
ghost use Rattle.words.specs.Words.{number_at};
ghost use Rattle.grid_rules.specs.Layout.{row_count_of, column_count_of, south_of, west_of, latitude_spacing_of, longitude_spacing_of, grid_length_of, numbers_of};
ghost use Rattle.grid_rules.specs.Rules.{count_in_rule, refusal17, finite_to, above_zero, refusal18, check_grid_of, unless_broken, layout_place};
ghost use Rattle.grid_rules.specs.Patterns.{larger_of, sign_turned, largest_of, worst_of, below_infinity, eight_finite};

// ----- where things stand ----------------------------------------------------------------

pub fn row_count(g: &[u8]) -> u32
    ensures { result ≡ row_count_of g.now }
{
    words::read32(g, 0)
}

pub fn column_count(g: &[u8]) -> u32
    ensures { result ≡ column_count_of g.now }
{
    words::read32(g, 4)
}

pub fn south(g: &[u8]) -> f64
    ensures { result ≡ south_of g.now }
{
    words::number(g, 8)
}

pub fn west(g: &[u8]) -> f64
    ensures { result ≡ west_of g.now }
{
    words::number(g, 16)
}

pub fn latitude_spacing(g: &[u8]) -> f64
    ensures { result ≡ latitude_spacing_of g.now }
{
    words::number(g, 24)
}

pub fn longitude_spacing(g: &[u8]) -> f64
    ensures { result ≡ longitude_spacing_of g.now }
{
    words::number(g, 32)
}

// ----- rule 17 ---------------------------------------------------------------------------

pub fn count_in_rule(n: u32) -> bool
    ensures { result ≡ count_in_rule n }
{
    2 <= n && n <= 64
}

// The length that counts in rule say, in bytes.
fn grid_length(rows: u32, columns: u32) -> usize
    requires { (rows ≤ 64) × (columns ≤ 64) }
    ensures { result ≡ grid_length_of rows columns }
{
    40 + 24 * (words::wide(rows) * words::wide(columns))
}

pub fn laid_out(g: &[u8]) -> bool
    ensures { result ≡ not (refusal17 g.now) }
{
    if g.len() < 8 {
        return false;
    }
    let rows = row_count(g);
    let columns = column_count(g);
    count_in_rule(rows) && count_in_rule(columns) && g.len() == grid_length(rows, columns)
}

// The byte that rule 17 is about.
pub fn layout_place(g: &[u8]) -> usize
    ensures { result ≡ layout_place g.now }
{
    if g.len() < 8 {
        return g.len();
    }
    let rows = row_count(g);
    let columns = column_count(g);
    if !count_in_rule(rows) {
        return 0;
    }
    if !count_in_rule(columns) {
        return 4;
    }
    g.len().min(grid_length(rows, columns))
}

// ----- rule 18 ---------------------------------------------------------------------------

fn larger(a: u64, b: u64) -> u64
    ensures { result ≡ larger_of a b }
{
    if a < b { b } else { a }
}

fn sign_turned(p: u64) -> u64
    ensures { result ≡ sign_turned p }
{
    if p < 0x8000_0000_0000_0000 {
        return p + 0x8000_0000_0000_0000;
    }
    p - 0x8000_0000_0000_0000
}

// A tree, so that no comparison waits for more than two others.
fn largest(p: u64, q: u64, r: u64, s: u64, t: u64, u: u64, v: u64, w: u64) -> u64
    ensures { result ≡ largest_of p q r s t u v w }
{
    larger(
        larger(larger(p, q), larger(r, s)),
        larger(larger(t, u), larger(v, w)),
    )
}

// Below the pattern of -infinity just where all eight are patterns of finite numbers.
fn worst(p: u64, q: u64, r: u64, s: u64, t: u64, u: u64, v: u64, w: u64) -> u64
    ensures { result ≡ worst_of p q r s t u v w }
{
    larger(
        largest(p, q, r, s, t, u, v, w),
        largest(
            sign_turned(p),
            sign_turned(q),
            sign_turned(r),
            sign_turned(s),
            sign_turned(t),
            sign_turned(u),
            sign_turned(v),
            sign_turned(w),
        ),
    )
}

// The same of the eight numbers of a part of 64 bytes. It has one caller, so the compiler knows the
// part's length here and a pattern is one load.
fn worst_of_eight(b: &[u8]) -> u64
    ensures { below_infinity result ≡ eight_finite b.now }
{
    worst(
        words::read64(b, 0),
        words::read64(b, 8),
        words::read64(b, 16),
        words::read64(b, 24),
        words::read64(b, 32),
        words::read64(b, 40),
        words::read64(b, 48),
        words::read64(b, 56),
    )
}

// The same of the number at the start of a part.
fn worst_of_one(b: &[u8]) -> u64
    ensures { below_infinity result ≡ finite (number_at b.now 0) }
{
    let p = words::read64(b, 0);
    larger(p, sign_turned(p))
}

// Whether every number after the two counts is finite.
fn all_finite(g: &[u8]) -> bool
    ensures { result ≡ finite_to g.now (numbers_of g.now) }
{
    if g.len() < 8 {
        return true;
    }
    let n = (g.len() - 8) / 8;
    let mut w: u64 = 0;
    for part in 0..n / 8 {
        let from = 8 + 64 * part;
        w = larger(w, worst_of_eight(&g[from..from + 64]));
    }
    for k in n / 8 * 8..n {
        let from = 8 + 8 * k;
        w = larger(w, worst_of_one(&g[from..from + 8]));
    }
    w < 0xfff0_0000_0000_0000
}

pub fn above_zero(x: f64) -> bool
    ensures { result ≡ above_zero x }
{
    0.0 < x
}

pub fn numbers_in_rule(g: &[u8]) -> bool
    ensures { result ≡ not (refusal18 g.now) }
{
    all_finite(g) && above_zero(latitude_spacing(g)) && above_zero(longitude_spacing(g))
}

// ----- the answer ------------------------------------------------------------------------

// The error is the number of the first rule that is broken. It stays a number: documents 01 and 02,
// the C interface and every theorem speak of a rule by its number.
pub fn check_grid(g: &[u8]) -> Result<(), u32>
    ensures { result ≡ unless_broken (check_grid_of g.now) }
{
    if !laid_out(g) {
        return Err(17);
    }
    if !numbers_in_rule(g) {
        return Err(18);
    }
    Ok(())
}
