// The results of a kept run in columns: rows of a list put through one Helmert step, into the rows
// of the results.
//
// Document 01, "Kept run", over the columns of document 02, A7; the Rust has none. `shift_between`
// copies the rows of a stretch, or of the whole list, and runs the step over the copy.
//
// No rounding but the step's own. Proved equal to the step's run from tuple to tuple. Where the
// columns do not fit together, nothing is written. The four columns stay four parameters: a struct of
// lent columns needs a clause a column that it is the same one, and is no plainer. Used by
// `stretch_columns`.
#![tactic(auto)]

ghost use Rattle.std.specs.Prelude.{◌≡◌, true, false, ◌++◌, ◌-◌, ◌*◌, ◌≤◌, length, take, drop};
ghost use Rattle.columns.specs.Columns.{columns, Level, flat_of};
ghost use Rattle.lists.specs.Run.{ran_of};
ghost use Rattle.helmert.specs.Turns.{helmert_turns};
ghost use Rattle.stretch.specs.KeptColumns.{rows_beside_of};

use helmert::{Shift, State};

// A column's numbers into another as long.
fn copy(from: &[f64], to: &mut [f64])
    requires { length to.old ≡ length from.now }
    ensures { to.new ≡ from.now }
{
    for i in 0..from.len() {
        to[i] = from[i];
    }
}

// Four columns into four others.
fn copy_columns(
    x: &[f64],
    y: &[f64],
    z: &[f64],
    t: &[f64],
    rx: &mut [f64],
    ry: &mut [f64],
    rz: &mut [f64],
    rt: &mut [f64],
)
    requires { Level x.now y.now z.now t.now × Level rx.old ry.old rz.old rt.old × (length rx.old ≡ length x.now) }
    ensures { flat_of rx.new ry.new rz.new rt.new
        ≡ flat_of x.now y.now z.now t.now }
{
    copy(x, rx);
    copy(y, ry);
    copy(z, rz);
    copy(t, rt);
}

// The list's rows copied into the results, and the step run over them from a state on.
fn shift_rows(
    inverse: bool,
    shift: Shift,
    from: State,
    x: &[f64],
    y: &[f64],
    z: &[f64],
    t: &[f64],
    rx: &mut [f64],
    ry: &mut [f64],
    rz: &mut [f64],
    rt: &mut [f64],
)
    requires { Level x.now y.now z.now t.now × Level rx.old ry.old rz.old rt.old × (length rx.old ≡ length x.now) }
    ensures { flat_of rx.new ry.new rz.new rt.new
        ≡ ran_of (helmert_turns inverse shift) 0 from (flat_of x.now y.now z.now t.now) }
{
    copy_columns(x, y, z, t, rx, ry, rz, rt);
    helmert_columns::run_helmert(rx, ry, rz, rt, inverse, shift, from);
}

// The rows from one index to another put through the step from a state on, into the results' rows;
// no other row is written, and none where the columns do not fit together or have no such rows.
pub fn shift_between(
    inverse: bool,
    shift: Shift,
    from: State,
    x: &[f64],
    y: &[f64],
    z: &[f64],
    t: &[f64],
    rx: &mut [f64],
    ry: &mut [f64],
    rz: &mut [f64],
    rt: &mut [f64],
    start: usize,
    end: usize,
)
    ensures { (rows_beside_of (columns x.now y.now z.now t.now)
        (columns rx.old ry.old rz.old rt.old) start end ≡ true
        → flat_of rx.new ry.new rz.new rt.new
        ≡ take (4 * start) (flat_of rx.old ry.old rz.old rt.old)
        ++ (ran_of (helmert_turns inverse shift) 0 from (take (4 * (end - start)) (drop (4 * start) (flat_of x.now y.now z.now t.now)))
        ++ drop (4 * end) (flat_of rx.old ry.old rz.old rt.old)))
        × (rows_beside_of (columns x.now y.now z.now t.now)
        (columns rx.old ry.old rz.old rt.old) start end ≡ false
        → columns rx.new ry.new rz.new rt.new
        ≡ columns rx.old ry.old rz.old rt.old) }
{
    let n = x.len();
    if stretch::of_rows(n, n, y.len(), z.len(), t.len())
        & stretch::of_rows(n, rx.len(), ry.len(), rz.len(), rt.len())
        & (start <= end)
        & (end <= n)
    {
        rows_between(inverse, shift, from, x, y, z, t, rx, ry, rz, rt, start, end);
    }
}

fn rows_between(
    inverse: bool,
    shift: Shift,
    from: State,
    x: &[f64],
    y: &[f64],
    z: &[f64],
    t: &[f64],
    rx: &mut [f64],
    ry: &mut [f64],
    rz: &mut [f64],
    rt: &mut [f64],
    start: usize,
    end: usize,
)
    requires { Level x.now y.now z.now t.now × Level rx.old ry.old rz.old rt.old
        × (length rx.old ≡ length x.now) × (start ≤ end) × (end ≤ length x.now) }
    ensures { flat_of rx.new ry.new rz.new rt.new
        ≡ take (4 * start) (flat_of rx.old ry.old rz.old rt.old)
        ++ (ran_of (helmert_turns inverse shift) 0 from (take (4 * (end - start)) (drop (4 * start) (flat_of x.now y.now z.now t.now)))
        ++ drop (4 * end) (flat_of rx.old ry.old rz.old rt.old)) }
{
    shift_rows(
        inverse,
        shift,
        from,
        &x[start..end],
        &y[start..end],
        &z[start..end],
        &t[start..end],
        &mut rx[start..end],
        &mut ry[start..end],
        &mut rz[start..end],
        &mut rt[start..end],
    );
}
