// The kept run over columns: a list, its results and its track, four columns each, shifted under a
// sheet of one Helmert or ten-parameter step; and the correction of one fix.
//
// Document 01, "Kept run", over the columns of document 02, A7; the Rust has none. `keep` and
// `correct` are `kept`'s over columns: the same rules in the same order, where rule 9 is broken too
// by columns of unequal length, and rule 13 by a column of the results or of the track that is not
// as long as the list's. The runs are `stretch_columns`'.
//
// No rounding but the step's own. Proved for all input: what is answered and left is what
// specs/Columns.antt says, column by column; and for columns of one length it is the old answer on
// the converted lists (proofs/Columns.antt), so what is promised of `kept` holds here. The four columns
// stay four parameters: a struct of lent columns needs a clause a column that it is the same one, and
// is no plainer. Used by the display's calls.
#![tactic(auto)]

ghost use Rattle.std.specs.Prelude.{◌≡◌, ◌||◌, []};
ghost use Rattle.columns.specs.Columns.{columns};
ghost use Rattle.sheet.specs.Rules.{first_broken, unless};
ghost use Rattle.chain.specs.Columns.{refusal9_columns};
ghost use Rattle.stretch.specs.KeptColumns.{kept_columns};
ghost use Rattle.kept.specs.Entries.{order_by, redone_in};
ghost use Rattle.kept_columns.specs.Columns.{uneven, keep_columns_refusal_of, keep_columns_of, correct_columns_of};

use sheet::Refusal;
use tuple::Tuple;

// Four columns, one of them not of n rows.
fn uneven_rows(n: usize, x: usize, y: usize, z: usize, t: usize) -> bool
    ensures { result ≡ uneven n x y z t }
{
    (x != n) | (y != n) | (z != n) | (t != n)
}

// The sheet's own, then 12, 9 and 13, by the lengths of the twelve columns.
fn check_lengths(
    s: &[u8],
    x: usize,
    y: usize,
    z: usize,
    t: usize,
    rx: usize,
    ry: usize,
    rz: usize,
    rt: usize,
    kx: usize,
    ky: usize,
    kz: usize,
    kt: usize,
) -> Result<(), Refusal>
    ensures { result ≡ unless (first_broken (order_by s.now (refusal9_columns x y z t) (uneven x rx ry rz rt || uneven x kx ky kz kt) [])) tt }
{
    let nine = chain::columns_broken(x, y, z, t);
    let results = uneven_rows(x, rx, ry, rz, rt);
    let track = uneven_rows(x, kx, ky, kz, kt);
    kept::check_order(s, nine, results | track)
}

// Both entries stand beside `kept`'s: the rules and the step are `kept`'s own, and what is left here
// is to lend twelve columns, which no generic function takes more plainly.

// A fresh kept run over columns: reads the list's, writes those of the results and of the track.
pub fn keep(
    inverse: bool,
    s: &[u8],
    x: &[f64],
    y: &[f64],
    z: &[f64],
    t: &[f64],
    rx: &mut [f64],
    ry: &mut [f64],
    rz: &mut [f64],
    rt: &mut [f64],
    kx: &mut [f64],
    ky: &mut [f64],
    kz: &mut [f64],
    kt: &mut [f64],
) -> Result<(), Refusal>
    ensures { (result ≡ unless (keep_columns_refusal_of s.now (kept_columns (columns x.now y.now z.now t.now)
        (columns rx.old ry.old rz.old rt.old)
        (columns kx.old ky.old kz.old kt.old))) tt)
        × (kept_columns (columns x.now y.now z.now t.now)
        (columns rx.new ry.new rz.new rt.new)
        (columns kx.new ky.new kz.new kt.new)
        ≡ keep_columns_of inverse s.now (kept_columns (columns x.now y.now z.now t.now)
        (columns rx.old ry.old rz.old rt.old)
        (columns kx.old ky.old kz.old kt.old))) }
{
    check_lengths(
        s,
        x.len(),
        y.len(),
        z.len(),
        t.len(),
        rx.len(),
        ry.len(),
        rz.len(),
        rt.len(),
        kx.len(),
        ky.len(),
        kz.len(),
        kt.len(),
    )?;
    let step = kept::step_in(inverse, s);
    stretch_columns::fresh(
        step.reversed, // the fresh run's direction
        step.shift,
        x,
        y,
        z,
        t,
        rx,
        ry,
        rz,
        rt,
        kx,
        ky,
        kz,
        kt,
    );
    Ok(())
}

// Corrects one fix of a kept run over columns.
pub fn correct(
    inverse: bool,
    s: &[u8],
    x: &mut [f64],
    y: &mut [f64],
    z: &mut [f64],
    t: &mut [f64],
    rx: &mut [f64],
    ry: &mut [f64],
    rz: &mut [f64],
    rt: &mut [f64],
    kx: &mut [f64],
    ky: &mut [f64],
    kz: &mut [f64],
    kt: &mut [f64],
    index: usize,
    fix: Tuple,
) -> Result<u64, Refusal>
    ensures { (result ≡ redone_in (correct_columns_of inverse s.now (kept_columns (columns x.old y.old z.old t.old)
        (columns rx.old ry.old rz.old rt.old)
        (columns kx.old ky.old kz.old kt.old)) index fix).answer)
        × (kept_columns (columns x.new y.new z.new t.new)
        (columns rx.new ry.new rz.new rt.new)
        (columns kx.new ky.new kz.new kt.new)
        ≡ (correct_columns_of inverse s.now (kept_columns (columns x.old y.old z.old t.old)
        (columns rx.old ry.old rz.old rt.old)
        (columns kx.old ky.old kz.old kt.old)) index fix).kept) }
{
    check_lengths(
        s,
        x.len(),
        y.len(),
        z.len(),
        t.len(),
        rx.len(),
        ry.len(),
        rz.len(),
        rt.len(),
        kx.len(),
        ky.len(),
        kz.len(),
        kt.len(),
    )?;
    if kept::index_broken(4 * x.len(), index) {
        return Err(Refusal::of_call(14)); // a refused call redoes nothing
    }
    let step = kept::step_in(inverse, s);
    let n = stretch_columns::put_right(
        step.reversed,
        step.shift,
        x,
        y,
        z,
        t,
        rx,
        ry,
        rz,
        rt,
        kx,
        ky,
        kz,
        kt,
        index,
        fix,
    );
    Ok(n as u64)
}
