// The kept run over columns: a list, its results and its track, four columns each, kept afresh
// under one Helmert step, and one fix of them corrected.
//
// Document 01, "Kept run", over the columns of document 02, A7; the Rust has none. The state that a
// step carries moves by the times alone. So a fresh run is the step over a copy of the list
// (`stretch_results`), and a loop over the times that writes the track (`stretch_track`). A
// correction writes the track anew from its fix on, up to the first fix after which the carried
// state is the kept one; that tells the stretch, and the step then runs over the stretch's rows
// alone.
//
// No rounding but the step's own. Proved for all input: what is left is what the words define, column
// by column (`fresh_columns_of`, `put_right_columns_of`; stretch, specs/KeptColumns.antt). Where the
// twelve columns are not of one length, or no fix stands at the index, nothing is written. The four
// columns stay four parameters: a struct of lent columns needs a clause a column that it is the same
// one, and is no plainer. Used by `kept_columns`.
#![tactic(auto)]

ghost use Rattle.std.specs.Prelude.{◌≡◌, ◌&&◌, ◌++◌, ◌+◌, ◌*◌, ◌≤◌, length, take, drop};
ghost use Rattle.columns.specs.Columns.{columns, Level, flat_of};
ghost use Rattle.stretch.specs.Kept.{before_of};
ghost use Rattle.stretch.specs.Track.{retrack_of};
ghost use Rattle.stretch.specs.Rows.{of_rows_of};
ghost use Rattle.stretch.specs.KeptColumns.{kept_columns, fresh_columns_of, redone_columns, put_right_columns_of};

use helmert::{Shift, State};
use stretch::ColumnRows;
use tuple::Tuple;

// Whether twelve columns, by their lengths, are of one length.
fn all_level(
    x: usize,
    y: usize,
    z: usize,
    t: usize,
    rx: usize,
    ry: usize,
    rz: usize,
    rt: usize,
    kx: usize,
    ky: usize,
    kz: usize,
    kt: usize,
) -> bool
    ensures { result ≡ (of_rows_of x x y z t && of_rows_of x rx ry rz rt && of_rows_of x kx ky kz kt) }
{
    stretch::of_rows(x, x, y, z, t)
        & stretch::of_rows(x, rx, ry, rz, rt)
        & stretch::of_rows(x, kx, ky, kz, kt)
}

// ----- a run ----------------------------------------------------------------------------------

// A fresh run: reads the list, writes results and track. Nothing is written where the columns are
// not of one length.
pub fn fresh(
    inverse: bool,
    shift: Shift,
    x: &[f64],
    y: &[f64],
    z: &[f64],
    t: &[f64],
    rx: &mut [f64],
    ry: &mut [f64],
    rz: &mut [f64],
    rt: &mut [f64],
    kx: &mut [f64],
    ky: &mut [f64],
    kz: &mut [f64],
    kt: &mut [f64],
)
    ensures { kept_columns (columns x.now y.now z.now t.now)
        (columns rx.new ry.new rz.new rt.new)
        (columns kx.new ky.new kz.new kt.new)
        ≡ fresh_columns_of shift inverse (kept_columns (columns x.now y.now z.now t.now)
        (columns rx.old ry.old rz.old rt.old)
        (columns kx.old ky.old kz.old kt.old)) }
{
    let level = all_level(
        x.len(),
        y.len(),
        z.len(),
        t.len(),
        rx.len(),
        ry.len(),
        rz.len(),
        rt.len(),
        kx.len(),
        ky.len(),
        kz.len(),
        kt.len(),
    );
    if level {
        let start = helmert::start(shift);
        stretch_results::shift_between(
            inverse,
            shift,
            start,
            x,
            y,
            z,
            t,
            rx,
            ry,
            rz,
            rt,
            0, // every row
            x.len(),
        );
        stretch_track::track_all(shift, start, t, kx, ky, kz, kt);
    }
}

// ----- a correction ---------------------------------------------------------------------------

// Where a stretch starts: the state before its first fix; and its length.
#[derive(Clone, Copy)]
struct Stretch {
    from: State,
    count: usize,
}

// The track written anew from an index on, which tells the stretch.
fn track_stretch(
    shift: Shift,
    t: &[f64],
    kx: &mut [f64],
    ky: &mut [f64],
    kz: &mut [f64],
    kt: &mut [f64],
    index: usize,
) -> Stretch
    requires { Level kx.old ky.old kz.old kt.old × (length kx.old ≡ length t.now) × (index ≤ length t.now) }
    ensures { (flat_of kx.new ky.new kz.new kt.new
        ≡ take (4 * index) (flat_of kx.old ky.old kz.old kt.old)
        ++ (retrack_of shift (before_of shift (flat_of kx.old ky.old kz.old kt.old) index) (drop index t.now) (drop (4 * index) (flat_of kx.old ky.old kz.old kt.old))).track)
        × (result.count ≡ (retrack_of shift (before_of shift (flat_of kx.old ky.old kz.old kt.old) index) (drop index t.now) (drop (4 * index) (flat_of kx.old ky.old kz.old kt.old))).count)
        × (index + result.count ≤ length t.now)
        × (result.from ≡ before_of shift (flat_of kx.old ky.old kz.old kt.old) index) }
{
    let kept = ColumnRows {
        x: kx,
        y: ky,
        z: kz,
        t: kt,
    };
    let from = stretch::before(shift, &kept, index);
    let again = stretch_track::track_again(
        shift,
        from,
        &t[index..],
        &mut kx[index..],
        &mut ky[index..],
        &mut kz[index..],
        &mut kt[index..],
    );
    Stretch {
        from: from,
        count: again.count,
    }
}

// Corrects a fix: writes it into the list and redoes, first the track, which tells how far, then the
// results of as many fixes. Gives how many; 0, and nothing is written, where the columns are not of
// one length or no fix stands at the index.
pub fn put_right(
    inverse: bool,
    shift: Shift,
    x: &mut [f64],
    y: &mut [f64],
    z: &mut [f64],
    t: &mut [f64],
    rx: &mut [f64],
    ry: &mut [f64],
    rz: &mut [f64],
    rt: &mut [f64],
    kx: &mut [f64],
    ky: &mut [f64],
    kz: &mut [f64],
    kt: &mut [f64],
    index: usize,
    fix: Tuple,
) -> usize
    ensures { redone_columns result (kept_columns (columns x.new y.new z.new t.new)
        (columns rx.new ry.new rz.new rt.new)
        (columns kx.new ky.new kz.new kt.new))
        ≡ put_right_columns_of shift inverse (kept_columns (columns x.old y.old z.old t.old)
        (columns rx.old ry.old rz.old rt.old)
        (columns kx.old ky.old kz.old kt.old)) index fix }
{
    let level = all_level(
        x.len(),
        y.len(),
        z.len(),
        t.len(),
        rx.len(),
        ry.len(),
        rz.len(),
        rt.len(),
        kx.len(),
        ky.len(),
        kz.len(),
        kt.len(),
    );
    if level & (index < x.len()) {
        columns::write_row(x, y, z, t, index, fix);
        let stretch = track_stretch(shift, t, kx, ky, kz, kt, index);
        let n = stretch.count;
        let end = index + n;
        stretch_results::shift_between(
            inverse,
            shift,
            stretch.from,
            x,
            y,
            z,
            t,
            rx,
            ry,
            rz,
            rt,
            index,
            end,
        );
        return n;
    }
    0
}
