// The track of a kept run in columns: the state after each fix, written from a column of times.
//
// Document 01, "Kept run"; the Rust has none. The state that a Helmert step carries moves by the
// times alone, so a track is written with no look at the coordinates. `track_all` writes a whole
// track; `track_again` writes one anew, up to the first fix after which the carried state is the
// kept one.
//
// No rounding but the step's own. Every contract is told by the flat list that the columns stand
// for (stretch, specs/Track.antt). Where the columns have not one row for each time, nothing is
// written. The four columns stay four parameters: a struct of lent columns needs a clause a column
// that it is the same one, and is no plainer. Used by `stretch_columns` and, window by window, by
// `stretch_flat_track`.
#![tactic(auto)]

ghost use Rattle.std.specs.Prelude.{◌≡◌, true, false, ◌*◌, ◌<◌, length};
ghost use Rattle.columns.specs.Columns.{columns, Level, flat_of};
ghost use Rattle.lists.specs.Flat.{tuple_at, put_at};
ghost use Rattle.stretch.specs.Same.{alike_of};
ghost use Rattle.stretch.specs.Kept.{tracked_of};
ghost use Rattle.stretch.specs.Track.{track_fits_of, moved_by_of, tracks_of, retracked, retrack_of};

use helmert::{Shift, State};
use tuple::Tuple;

// ----- one row --------------------------------------------------------------------------------

// A row where it is known to stand, read and written: nothing is tested in the loops.
fn row(kx: &[f64], ky: &[f64], kz: &[f64], kt: &[f64], i: usize) -> Tuple
    requires { Level kx.now ky.now kz.now kt.now × (i < length kx.now) }
    ensures { result ≡ tuple_at (flat_of kx.now ky.now kz.now kt.now) (4 * i) }
{
    Tuple {
        x: kx[i],
        y: ky[i],
        z: kz[i],
        t: kt[i],
    }
}

fn put_row(kx: &mut [f64], ky: &mut [f64], kz: &mut [f64], kt: &mut [f64], i: usize, v: Tuple)
    requires { Level kx.old ky.old kz.old kt.old × (i < length kx.old) }
    ensures { flat_of kx.new ky.new kz.new kt.new
        ≡ put_at (flat_of kx.old ky.old kz.old kt.old) (4 * i) v }
{
    kx[i] = v.x;
    ky[i] = v.y;
    kz[i] = v.z;
    kt[i] = v.t;
}

// ----- a run ----------------------------------------------------------------------------------

// The track of a run from a state on: after each time, the state. Gives the last state; where the
// track has not one row for each time, the state that it started from.
pub fn track_all(
    shift: Shift,
    from: State,
    t: &[f64],
    kx: &mut [f64],
    ky: &mut [f64],
    kz: &mut [f64],
    kt: &mut [f64],
) -> State
    ensures { (track_fits_of t.now kx.old ky.old kz.old kt.old ≡ true
        → (flat_of kx.new ky.new kz.new kt.new ≡ tracks_of shift from t.now)
        × (result ≡ moved_by_of shift from t.now))
        × (track_fits_of t.now kx.old ky.old kz.old kt.old ≡ false
        → (columns kx.new ky.new kz.new kt.new
        ≡ columns kx.old ky.old kz.old kt.old)
        × (result ≡ from)) }
{
    if stretch::of_rows(t.len(), kx.len(), ky.len(), kz.len(), kt.len()) {
        return track_rows(shift, from, t, kx, ky, kz, kt);
    }
    from
}

fn track_rows(
    shift: Shift,
    from: State,
    t: &[f64],
    kx: &mut [f64],
    ky: &mut [f64],
    kz: &mut [f64],
    kt: &mut [f64],
) -> State
    requires { Level kx.old ky.old kz.old kt.old × (length kx.old ≡ length t.now) }
    ensures { (flat_of kx.new ky.new kz.new kt.new ≡ tracks_of shift from t.now)
        × (result ≡ moved_by_of shift from t.now) }
{
    let mut state = from;
    for i in 0..t.len() {
        state = stretch::moved(shift, state, t[i]);
        put_row(kx, ky, kz, kt, i, stretch::tracked(state));
    }
    state
}

// ----- a correction ---------------------------------------------------------------------------

// Writes the state after a fix, and tells whether it is the one that was kept.
fn track_fix(
    kx: &mut [f64],
    ky: &mut [f64],
    kz: &mut [f64],
    kt: &mut [f64],
    i: usize,
    state: State,
) -> bool
    requires { Level kx.old ky.old kz.old kt.old × (i < length kx.old) }
    ensures { (flat_of kx.new ky.new kz.new kt.new
        ≡ put_at (flat_of kx.old ky.old kz.old kt.old) (4 * i) (tracked_of state))
        × (result ≡ alike_of (tracked_of state) (tuple_at (flat_of kx.old ky.old kz.old kt.old) (4 * i))) }
{
    let now = stretch::tracked(state);
    let met = stretch::alike(now, row(kx, ky, kz, kt, i));
    put_row(kx, ky, kz, kt, i, now);
    met
}

// How many fixes were tracked anew, whether the state after the last of them is the kept one, and
// that state. `met` is no Option's flag: the state stands either way, and `retracked` tells all three.
#[derive(Clone, Copy)]
pub struct Retrack {
    pub count: usize,
    pub met: bool,
    pub state: State,
}

// The track written anew from a state on, up to the first fix after which the carried state is the
// kept one, else to the end. None is, where the track has not one row for each time.
pub fn track_again(
    shift: Shift,
    from: State,
    t: &[f64],
    kx: &mut [f64],
    ky: &mut [f64],
    kz: &mut [f64],
    kt: &mut [f64],
) -> Retrack
    ensures { (track_fits_of t.now kx.old ky.old kz.old kt.old ≡ true
        → retracked result.count result.met result.state (flat_of kx.new ky.new kz.new kt.new)
        ≡ retrack_of shift from t.now (flat_of kx.old ky.old kz.old kt.old))
        × (track_fits_of t.now kx.old ky.old kz.old kt.old ≡ false
        → (columns kx.new ky.new kz.new kt.new
        ≡ columns kx.old ky.old kz.old kt.old)
        × (result.count ≡ 0) × (result.met ≡ false) × (result.state ≡ from)) }
{
    if stretch::of_rows(t.len(), kx.len(), ky.len(), kz.len(), kt.len()) {
        return track_until(shift, from, t, kx, ky, kz, kt);
    }
    Retrack {
        count: 0,
        met: false,
        state: from,
    }
}

fn track_until(
    shift: Shift,
    from: State,
    t: &[f64],
    kx: &mut [f64],
    ky: &mut [f64],
    kz: &mut [f64],
    kt: &mut [f64],
) -> Retrack
    requires { Level kx.old ky.old kz.old kt.old × (length kx.old ≡ length t.now) }
    ensures { retracked result.count result.met result.state (flat_of kx.new ky.new kz.new kt.new)
        ≡ retrack_of shift from t.now (flat_of kx.old ky.old kz.old kt.old) }
{
    let mut state = from;
    for i in 0..t.len() { // a fix is left
        state = stretch::moved(shift, state, t[i]);
        if track_fix(kx, ky, kz, kt, i, state) { // the states have met
            return Retrack {
                count: i + 1,
                met: true,
                state: state,
            };
        }
    }
    Retrack {
        count: t.len(),
        met: false,
        state: state,
    }
}
