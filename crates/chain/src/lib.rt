// The chain: a sheet's steps over a lent list, in columns or flat, where the list stands.
//
// Document 01, "The sheet" (a chain runs steps in order, inverse in reverse with each turned round)
// and "Numbers of refusal"; document 02, A7: the list is four columns, and the flat entry converts
// around them. `shift_columns` checks the sheet where it lies and makes one step ready at a time,
// steps outermost and rows innermost. `shift` puts a short list into columns of its own, and a long
// one window by window (`windows`). chain_record does the same over a record that is already read,
// and the two agree (proved there). The answer, the tallies and the list are fixed for every input by
// specs/Rules.antt and specs/Columns.antt over specs/Chain.antt, which is made of the steps' own
// definitions; nothing is written before the last test has passed. No rounding but the steps' own.
// Used by the program and by callers that keep lists. Inner functions take what is lent as one value,
// the entries slice by slice, as C hands them over.
// The columns stay four parameters: a struct of four `&mut` needs a clause for each column and can't
// lend parts of its fields, so it is no plainer (tried).
#![tactic(auto)]

ghost use Rattle.std.specs.Prelude.{◌≡◌, false, [], ◌*◌, ◌%◌, ◌≤◌, ◌<◌, ltb, length};
ghost use Rattle.std.specs.List.{list_any};
ghost use Rattle.columns.specs.Columns.{columns, Level, flat_of};
ghost use Rattle.sheet.specs.Layout.{step_count_of, kind_at, entry_at};
ghost use Rattle.sheet.specs.Rules.{has_deformation, refusal_of, unless};
ghost use Rattle.plans.specs.Lent.{lent_in};
ghost use Rattle.chain.specs.Chain.{reversed_of, step_list_of, step_tally_of, chain_of, places_of, entries_of};
ghost use Rattle.chain.specs.Rules.{refusal9, lent_for, refusal10, call_refusal_of, handed_out, shift_of};
ghost use Rattle.chain.specs.Columns.{refusal9_columns, shift_columns_of};
ghost use Rattle.chain.specs.Grid.{grid_refusal_of, shift_grid_of, shift_columns_grid_of};

use plans::Loan;
use sheet::{Entry, Refusal};
use tally::Tally;

// ----- one step over the columns ---------------------------------------------------------------

pub fn reversed(inverse: bool, entry: Entry) -> bool
    ensures { result ≡ reversed_of inverse entry }
{
    sheet_plans::reversed_by(inverse, entry.inverted)
}

// The step at index i over the whole columns, in the chain's direction. No `Step` is built: the
// enum is as large as a Helmert record and would be copied at each call.
fn step_at(
    inverse: bool,
    s: &[u8],
    i: usize,
    x: &mut [f64],
    y: &mut [f64],
    z: &mut [f64],
    t: &mut [f64],
    lent: Loan<'_>,
) -> Tally
    requires { (i < step_count_of s.now) × Level x.old y.old z.old t.old × (length x.old ≤ 2048) }
    ensures { (flat_of x.new y.new z.new t.new
        ≡ step_list_of inverse (lent_in lent.entry) (entry_at s.now i) (flat_of x.old y.old z.old t.old))
        × (result ≡ step_tally_of inverse (lent_in lent.entry) (entry_at s.now i) (flat_of x.old y.old z.old t.old)) }
{
    let plan = sheet_plans::plan_at(inverse, s, i);
    let part = plan_columns::run(plan, 0, plans::start(plan), x, y, z, t, lent);
    Tally {
        count: part.count,
        met: part.met,
    }
}

// ----- a sheet's steps, one after another ------------------------------------------------------

// The whole columns in either direction.
fn over_columns(
    inverse: bool,
    s: &[u8],
    n: usize,
    x: &mut [f64],
    y: &mut [f64],
    z: &mut [f64],
    t: &mut [f64],
    lent: Loan<'_>,
) -> [Tally; 16]
    requires { (n ≤ 16) × (n ≡ step_count_of s.now) × Level x.old y.old z.old t.old × (length x.old ≤ 2048) }
    ensures { (flat_of x.new y.new z.new t.new
        ≡ (chain_of inverse (lent_in lent.entry) (entries_of (entry_at s.now) n 0) (flat_of x.old y.old z.old t.old)).list)
        × (result ≡ places_of (chain_of inverse (lent_in lent.entry) (entries_of (entry_at s.now) n 0) (flat_of x.old y.old z.old t.old)).tallies) }
{
    let mut tallies = [tally::none(); 16];
    if inverse {
        for i in (0..n).rev() {
            let tally = step_at(true, s, i, x, y, z, t, lent); // the last step first
            tallies[i] = tally;
        }
    } else {
        for i in 0..n {
            let tally = step_at(false, s, i, x, y, z, t, lent); // the first step first
            tallies[i] = tally; // in the sheet's order
        }
    }
    tallies
}

// ----- a flat list -----------------------------------------------------------------------------

// A flat list through columns that have its rows.
fn through(
    inverse: bool,
    s: &[u8],
    n: usize,
    list: &mut [f64],
    x: &mut [f64],
    y: &mut [f64],
    z: &mut [f64],
    t: &mut [f64],
    lent: Loan<'_>,
) -> [Tally; 16]
    requires { (n ≤ 16) × (n ≡ step_count_of s.now) × Level x.old y.old z.old t.old × (length list.old ≡ 4 * length x.old) × (length x.old ≤ 16) }
    ensures { (list.new ≡ (chain_of inverse (lent_in lent.entry) (entries_of (entry_at s.now) n 0) list.old).list)
        × (result ≡ places_of (chain_of inverse (lent_in lent.entry) (entries_of (entry_at s.now) n 0) list.old).tallies) }
{
    columns::to_columns(list, x, y, z, t);
    let tallies = over_columns(inverse, s, n, x, y, z, t, lent);
    columns::to_flat(x, y, z, t, list);
    tallies
}

// A column's room.
fn zeros() -> [f64; 16]
    ensures { 16 ≡ length result }
{
    [0.0; 16]
}

// A list of at most sixteen tuples, in one go.
fn short(inverse: bool, s: &[u8], n: usize, list: &mut [f64], lent: Loan<'_>) -> [Tally; 16]
    requires { (n ≤ 16) × (n ≡ step_count_of s.now) × (length list.old % 4 ≡ 0) × (length list.old ≤ 64) }
    ensures { (list.new ≡ (chain_of inverse (lent_in lent.entry) (entries_of (entry_at s.now) n 0) list.old).list)
        × (result ≡ places_of (chain_of inverse (lent_in lent.entry) (entries_of (entry_at s.now) n 0) list.old).tallies) }
{
    let mut x = zeros();
    let mut y = zeros();
    let mut z = zeros();
    let mut t = zeros();
    let m = list.len() / 4;
    through(
        inverse,
        s,
        n,
        list,
        &mut x[..m],
        &mut y[..m],
        &mut z[..m],
        &mut t[..m],
        lent,
    )
}

// A sheet of one step over a long list: its plan alone is made.
#[inline(never)]
fn alone(inverse: bool, s: &[u8], list: &mut [f64], lent: Loan<'_>) -> [Tally; 16]
    requires { 0 < step_count_of s.now }
    ensures { (list.new ≡ (chain_of inverse (lent_in lent.entry) (entries_of (entry_at s.now) 1 0) list.old).list)
        × (result ≡ places_of (chain_of inverse (lent_in lent.entry) (entries_of (entry_at s.now) 1 0) list.old).tallies) }
{
    let plan = sheet_plans::plan_at(inverse, s, 0);
    let tally = step_windows::over(plan, list, lent);
    let mut tallies = [tally::none(); 16];
    tallies[0] = tally;
    tallies
}

// A sheet's steps over a long list: the plans of all are made first. In a function of its own that is
// not inlined, as `alone` is not: a list that needs no room for plans or windows pays for none.
#[inline(never)]
fn planned(inverse: bool, s: &[u8], n: usize, list: &mut [f64], lent: Loan<'_>) -> [Tally; 16]
    requires { (n ≤ 16) × (n ≡ step_count_of s.now) }
    ensures { (list.new ≡ (chain_of inverse (lent_in lent.entry) (entries_of (entry_at s.now) n 0) list.old).list)
        × (result ≡ places_of (chain_of inverse (lent_in lent.entry) (entries_of (entry_at s.now) n 0) list.old).tallies) }
{
    let mut plans = [sheet_plans::NO_PLAN; 16];
    sheet_plans::plans_of(inverse, s, n, &mut plans);
    windows::over(inverse, &plans, n, list, lent)
}

// A list of whole tuples of any length in rule.
fn over_list(inverse: bool, s: &[u8], n: usize, list: &mut [f64], lent: Loan<'_>) -> [Tally; 16]
    requires { (n ≤ 16) × (n ≡ step_count_of s.now) × (length list.old % 4 ≡ 0) × (length list.old ≤ 8192) }
    ensures { (list.new ≡ (chain_of inverse (lent_in lent.entry) (entries_of (entry_at s.now) n 0) list.old).list)
        × (result ≡ places_of (chain_of inverse (lent_in lent.entry) (entries_of (entry_at s.now) n 0) list.old).tallies) }
{
    if list.len() <= 64 {
        return short(inverse, s, n, list, lent);
    }
    if n == 1 {
        return alone(inverse, s, list, lent);
    }
    planned(inverse, s, n, list, lent)
}

// ----- without a grid --------------------------------------------------------------------------

// A grid of no bytes, which is none.
pub fn no_grid(s: &[u8]) -> &[u8]
    ensures { result.now ≡ [] }
{
    &s[0..0]
}

// ----- the rules of the lent lists --------------------------------------------------------------

// Rule 9: not whole tuples, or over 2,048.
pub fn list_broken(numbers: usize) -> bool
    ensures { result ≡ refusal9 numbers }
{
    (numbers % 4 != 0) | (8192 < numbers)
}

// Rule 9 of columns: of unequal length, or over 2,048 rows.
pub fn columns_broken(x: usize, y: usize, z: usize, t: usize) -> bool
    ensures { result ≡ refusal9_columns x y z t }
{
    (y != x) | (z != x) | (t != x) | (2048 < x)
}

// A mark over 1.
fn over_one(marks: &[u8]) -> bool
    ensures { result ≡ list_any (λ mark. ltb 1 mark) marks.now }
{
    marks.iter().any(|mark| 1 < *mark)
}

// How many velocities and marks a list wants.
fn lent_for(deforms: bool, numbers: usize) -> usize
    ensures { (result ≡ lent_for deforms numbers) × (result < 4611686018427387904) }
{
    if deforms { numbers / 4 } else { 0 }
}

// Rule 10.
pub fn lent_broken(deforms: bool, numbers: usize, velocities: &[f64], marks: &[u8]) -> bool
    ensures { result ≡ refusal10 deforms numbers velocities.now marks.now }
{
    let tuples = lent_for(deforms, numbers);
    let lengths = (velocities.len() != 3 * tuples) | (marks.len() != tuples);
    lengths || over_one(marks) // marks of a wrong length are not read
}

// Whether one of the first n steps is a deformation step.
fn deforms(s: &[u8], n: usize) -> bool
    ensures { result ≡ has_deformation (kind_at s.now) n }
{
    let mut found = false;
    for i in 0..n {
        found |= sheet::kind_at(s, i) == 5;
    }
    found
}

// Whether a sheet has a deformation step.
pub fn has_deformation(s: &[u8]) -> bool
    ensures { result ≡ has_deformation (kind_at s.now) (step_count_of s.now) }
{
    deforms(s, sheet::step_count(s))
}

// ----- the rules of a call ----------------------------------------------------------------------

// The rules in the document's order, from whether 9 is broken: the sheet's own, 9, and 10 for a list
// of so many tuples.
fn judge(
    s: &[u8],
    nine: bool,
    tuples: usize,
    velocities: &[f64],
    marks: &[u8],
) -> Result<(), Refusal>
    requires { nine ≡ false → tuples ≤ 2048 }
    ensures { result ≡ unless (call_refusal_of (refusal_of s.now) nine (has_deformation (kind_at s.now) (step_count_of s.now)) (4 * tuples) velocities.now marks.now) tt }
{
    sheet::check(s)?;
    if nine {
        return Err(Refusal::of_call(9));
    }
    if lent_broken(has_deformation(s), 4 * tuples, velocities, marks) {
        return Err(Refusal::of_call(10));
    }
    Ok(())
}

// The same with a velocity grid: the sheet's own, 9, 10, and the grid's 17 and 18.
fn judge_grid(
    s: &[u8],
    nine: bool,
    velocities: &[f64],
    marks: &[u8],
    grid: &[u8],
) -> Result<(), Refusal>
    ensures { result ≡ unless (grid_refusal_of (refusal_of s.now) nine velocities.now marks.now grid.now) tt }
{
    sheet::check(s)?;
    if nine {
        return Err(Refusal::of_call(9));
    }
    if lent_broken(false, 0, velocities, marks) {
        return Err(Refusal::of_call(10));
    }
    if let Err(number) = grid_rules::check_grid(grid) {
        return Err(Refusal::of_call(number));
    }
    Ok(())
}

// ----- the entries ------------------------------------------------------------------------------

// A sheet's bytes over columns: each step's tally in the sheet's order, how many tuples it counted
// and how many met an angle out of reach, and zeros in the other places; or the refusal.
pub fn shift_columns(
    inverse: bool,
    s: &[u8],
    x: &mut [f64],
    y: &mut [f64],
    z: &mut [f64],
    t: &mut [f64],
    velocities: &[f64],
    marks: &[u8],
) -> Result<[Tally; 16], Refusal>
    ensures { (result ≡ handed_out (shift_columns_of inverse s.now (columns x.old y.old z.old t.old) velocities.now marks.now).answer)
        × (columns x.new y.new z.new t.new ≡ (shift_columns_of inverse s.now (columns x.old y.old z.old t.old) velocities.now marks.now).columns) }
{
    let nine = columns_broken(x.len(), y.len(), z.len(), t.len());
    judge(s, nine, x.len(), velocities, marks)?;
    let lent = Loan {
        velocities,
        marks,
        grid: no_grid(s),
    };
    let n = sheet::step_count(s);
    Ok(over_columns(inverse, s, n, x, y, z, t, lent))
}

// A sheet's bytes over a flat list.
pub fn shift(
    inverse: bool,
    s: &[u8],
    list: &mut [f64],
    velocities: &[f64],
    marks: &[u8],
) -> Result<[Tally; 16], Refusal>
    ensures { (result ≡ handed_out (shift_of inverse s.now list.old velocities.now marks.now).answer)
        × (list.new ≡ (shift_of inverse s.now list.old velocities.now marks.now).list) }
{
    let nine = list_broken(list.len());
    judge(s, nine, list.len() / 4, velocities, marks)?;
    let lent = Loan {
        velocities,
        marks,
        grid: no_grid(s),
    };
    let n = sheet::step_count(s);
    Ok(over_list(inverse, s, n, list, lent))
}

// A sheet's bytes over columns, with a velocity grid.
pub fn shift_columns_grid(
    inverse: bool,
    s: &[u8],
    x: &mut [f64],
    y: &mut [f64],
    z: &mut [f64],
    t: &mut [f64],
    velocities: &[f64],
    marks: &[u8],
    grid: &[u8],
) -> Result<[Tally; 16], Refusal>
    ensures { (result ≡ handed_out (shift_columns_grid_of inverse s.now (columns x.old y.old z.old t.old) velocities.now marks.now grid.now).answer)
        × (columns x.new y.new z.new t.new ≡ (shift_columns_grid_of inverse s.now (columns x.old y.old z.old t.old) velocities.now marks.now grid.now).columns) }
{
    let nine = columns_broken(x.len(), y.len(), z.len(), t.len());
    judge_grid(s, nine, velocities, marks, grid)?;
    let lent = Loan {
        velocities,
        marks,
        grid,
    };
    let n = sheet::step_count(s);
    Ok(over_columns(inverse, s, n, x, y, z, t, lent))
}

// A sheet's bytes over a flat list, with a velocity grid.
pub fn shift_grid(
    inverse: bool,
    s: &[u8],
    list: &mut [f64],
    velocities: &[f64],
    marks: &[u8],
    grid: &[u8],
) -> Result<[Tally; 16], Refusal>
    ensures { (result ≡ handed_out (shift_grid_of inverse s.now list.old velocities.now marks.now grid.now).answer)
        × (list.new ≡ (shift_grid_of inverse s.now list.old velocities.now marks.now grid.now).list) }
{
    judge_grid(s, list_broken(list.len()), velocities, marks, grid)?;
    let lent = Loan {
        velocities,
        marks,
        grid,
    };
    let n = sheet::step_count(s);
    Ok(over_list(inverse, s, n, list, lent))
}
