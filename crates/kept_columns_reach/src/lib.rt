// The kept run over columns and the correction of one fix, telling how many fixes met an angle out of
// reach.
//
// Document 02, A5 and A7: as kept_reach does over flat lists, over columns. The entries call
// kept_columns', which leave and answer what they did, and then count in one pass over the rows: all
// of them after a fresh run, after a correction those that it redid. Proved for every input: answers
// and columns are kept_columns', and the numbers those of the flat lists that the columns stand for
// (specs/Reach.antt), zeros on refusal. No rounding but the step's own. The four columns stay four
// parameters, as in `kept_columns`. For callers that hold columns.
#![tactic(auto)]

ghost use Rattle.std.specs.Prelude.{◌≡◌, ◌+◌, ◌≤◌, length};
ghost use Rattle.columns.specs.Columns.{columns, Level, flat_of};
ghost use Rattle.plans.specs.Passes.{tally_of};
ghost use Rattle.sheet.specs.Rules.{unless};
ghost use Rattle.stretch.specs.KeptColumns.{kept_columns};
ghost use Rattle.kept_columns.specs.Columns.{keep_columns_refusal_of, keep_columns_of, correct_columns_of};
ghost use Rattle.kept_reach.specs.Reach.{fixes_from, told_in, time_pass};
ghost use Rattle.kept_columns_reach.specs.Reach.{keep_columns_tally_of, stretch_columns_met_of};

use helmert::{Shift, State};
use kept_reach::CorrectedReach;
use sheet::Refusal;
use stretch::ColumnRows;
use tally::Tally;
use tuple::Tuple;

// A fresh kept run over columns, as `kept_columns::keep`.
pub fn keep_reach(
    inverse: bool,
    s: &[u8],
    x: &[f64],
    y: &[f64],
    z: &[f64],
    t: &[f64],
    rx: &mut [f64],
    ry: &mut [f64],
    rz: &mut [f64],
    rt: &mut [f64],
    kx: &mut [f64],
    ky: &mut [f64],
    kz: &mut [f64],
    kt: &mut [f64],
) -> Result<Tally, Refusal>
    ensures { (result ≡ unless (keep_columns_refusal_of s.now (kept_columns (columns x.now y.now z.now t.now) (columns rx.old ry.old rz.old rt.old) (columns kx.old ky.old kz.old kt.old))) (keep_columns_tally_of inverse s.now (kept_columns (columns x.now y.now z.now t.now) (columns rx.old ry.old rz.old rt.old) (columns kx.old ky.old kz.old kt.old))))
        × (kept_columns (columns x.now y.now z.now t.now) (columns rx.new ry.new rz.new rt.new) (columns kx.new ky.new kz.new kt.new)
        ≡ keep_columns_of inverse s.now (kept_columns (columns x.now y.now z.now t.now) (columns rx.old ry.old rz.old rt.old) (columns kx.old ky.old kz.old kt.old))) }
{
    kept_columns::keep(inverse, s, x, y, z, t, rx, ry, rz, rt, kx, ky, kz, kt)?;
    let shift = kept::step_in(inverse, s).shift;
    let start = helmert::start(shift);
    let rows = ColumnRows { x, y, z, t };
    let tally = kept_reach::pass(shift, start, &rows);
    Ok(tally)
}

// What `kept_reach::pass` tells of n rows from one on.
fn pass_rows(
    shift: Shift,
    from: State,
    x: &[f64],
    y: &[f64],
    z: &[f64],
    t: &[f64],
    first: usize,
    n: usize,
) -> Tally
    requires { Level x.now y.now z.now t.now × (first + n ≤ length x.now) }
    ensures { result ≡ tally_of (time_pass shift) 0 from (fixes_from (flat_of x.now y.now z.now t.now) first n) }
{
    let end = first + n;
    let rows = ColumnRows {
        x: &x[first..end],
        y: &y[first..end],
        z: &z[first..end],
        t: &t[first..end],
    };
    kept_reach::pass(shift, from, &rows)
}

// Corrects one fix of a kept run over columns, as `kept_columns::correct`.
pub fn correct_reach(
    inverse: bool,
    s: &[u8],
    x: &mut [f64],
    y: &mut [f64],
    z: &mut [f64],
    t: &mut [f64],
    rx: &mut [f64],
    ry: &mut [f64],
    rz: &mut [f64],
    rt: &mut [f64],
    kx: &mut [f64],
    ky: &mut [f64],
    kz: &mut [f64],
    kt: &mut [f64],
    index: usize,
    fix: Tuple,
) -> Result<CorrectedReach, Refusal>
    ensures { (result ≡ told_in (correct_columns_of inverse s.now (kept_columns (columns x.old y.old z.old t.old) (columns rx.old ry.old rz.old rt.old) (columns kx.old ky.old kz.old kt.old)) index fix).answer (stretch_columns_met_of inverse s.now (kept_columns (columns x.old y.old z.old t.old) (columns rx.old ry.old rz.old rt.old) (columns kx.old ky.old kz.old kt.old)) index fix))
        × (kept_columns (columns x.new y.new z.new t.new) (columns rx.new ry.new rz.new rt.new) (columns kx.new ky.new kz.new kt.new)
        ≡ (correct_columns_of inverse s.now (kept_columns (columns x.old y.old z.old t.old) (columns rx.old ry.old rz.old rt.old) (columns kx.old ky.old kz.old kt.old)) index fix).kept) }
{
    let redone = kept_columns::correct(
        inverse, s, x, y, z, t, rx, ry, rz, rt, kx, ky, kz, kt, index, fix,
    )?;
    let shift = kept::step_in(inverse, s).shift;
    let track = ColumnRows {
        x: kx,
        y: ky,
        z: kz,
        t: kt,
    };
    let from = stretch::before(shift, &track, index);
    let told = pass_rows(shift, from, x, y, z, t, index, redone as usize);
    Ok(CorrectedReach {
        redone,
        met: told.met as u64,
    })
}
