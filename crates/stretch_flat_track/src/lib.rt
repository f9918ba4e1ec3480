// The track of flat lists, window after window: converters around `stretch_track`.
//
// Document 01, "Kept run", over flat lists, which document 02, A7, keeps as converters around
// columns; the Rust has none. A list's times go through a small room, window after window, where the
// track is written as columns and goes back flat; the state is handed on from window to window.
// `track_list` writes a whole track. `retrack_list` writes one anew for a correction, until the
// states meet; nothing past that window is looked at.
//
// No rounding but the step's own. Proved equal to the track from tuple to tuple, window or no window.
// Where the list is not of whole tuples, or the track not as long, nothing is written. Used by
// `stretch_flat`.
#![tactic(auto)]

ghost use Rattle.std.specs.Prelude.{◌≡◌, cond, ◌++◌, ◌*◌, ◌%◌, ◌≤◌, length, take, drop};
ghost use Rattle.tuple.specs.declared.Tuple.{Tuple};
ghost use Rattle.columns.specs.Columns.{Level, flat_of, column_of};
ghost use Rattle.stretch.specs.Kept.{as_long_of};
ghost use Rattle.stretch.specs.Track.{moved_by_of, tracks_of, retracked, retrack_of};

use helmert::{Shift, State};
use stretch_track::Retrack;

// Whether a list is of whole tuples, and its track as long.
fn as_long(list: usize, track: usize) -> bool
    ensures { result ≡ as_long_of list track }
{
    (list % 4 == 0) & (track == list)
}

// ----- the track ------------------------------------------------------------------------------

// The times of the fixes.
fn times(list: &[f64], t: &mut [f64])
    requires { length list.now ≡ 4 * length t.old }
    ensures { t.new ≡ column_of (λ (v : Tuple). v.t) list.now }
{
    for i in 0..t.len() {
        t[i] = list[4 * i + 3];
    }
}

// A window's times, the track over them from a state on, and into the flat track. Gives the state
// after the window.
fn track_window(
    shift: Shift,
    from: State,
    list: &[f64],
    track: &mut [f64],
    t: &mut [f64],
    kx: &mut [f64],
    ky: &mut [f64],
    kz: &mut [f64],
    kt: &mut [f64],
) -> State
    requires { Level kx.old ky.old kz.old kt.old × (length kx.old ≡ length t.old) × (length list.now ≡ 4 * length t.old) × (length track.old ≡ length list.now) }
    ensures { (track.new ≡ tracks_of shift from (column_of (λ (v : Tuple). v.t) list.now))
        × (result ≡ moved_by_of shift from (column_of (λ (v : Tuple). v.t) list.now)) }
{
    times(list, t);
    let state = stretch_track::track_all(shift, from, t, kx, ky, kz, kt);
    columns::to_flat(kx, ky, kz, kt, track);
    state // handed on to the next window
}

// The same through a room of 64 rows, of which it takes as many as the window has.
fn track_part(shift: Shift, from: State, list: &[f64], track: &mut [f64]) -> State
    requires { (length list.now % 4 ≡ 0) × (length list.now ≤ 256) × (length track.old ≡ length list.now) }
    ensures { (track.new ≡ tracks_of shift from (column_of (λ (v : Tuple). v.t) list.now))
        × (result ≡ moved_by_of shift from (column_of (λ (v : Tuple). v.t) list.now)) }
{
    let mut t = [0.0; 64];
    let mut kx = [0.0; 64];
    let mut ky = [0.0; 64];
    let mut kz = [0.0; 64];
    let mut kt = [0.0; 64];
    let n = list.len() / 4; // as many rows as fixes
    track_window(
        shift,
        from,
        list,
        track,
        &mut t[..n],
        &mut kx[..n],
        &mut ky[..n],
        &mut kz[..n],
        &mut kt[..n],
    )
}

// The list's track from a state on, window after window.
pub fn track_list(shift: Shift, from: State, list: &[f64], track: &mut [f64])
    ensures { track.new ≡ cond (as_long_of (length list.now) (length track.old))
        (tracks_of shift from (column_of (λ (v : Tuple). v.t) list.now)) track.old }
{
    if as_long(list.len(), track.len()) {
        track_by_windows(shift, from, list, track);
    }
}

fn track_by_windows(shift: Shift, from: State, list: &[f64], track: &mut [f64])
    requires { (length list.now % 4 ≡ 0) × (length track.old ≡ length list.now) }
    ensures { track.new ≡ tracks_of shift from (column_of (λ (v : Tuple). v.t) list.now) }
{
    let count = list.len() / 4;
    let mut state = from;
    for i in (0..count).step_by(64) {
        let w = (count - i).min(64); // as many fixes as are left
        let a = 4 * i; // the window of track
        let e = a + 4 * w;
        state = track_part(shift, state, &list[a..e], &mut track[a..e]);
    }
}

// ----- the track written anew ----------------------------------------------------------------

// A window's times and track into columns, and the track written anew there.
fn retrack_room(
    shift: Shift,
    from: State,
    list: &[f64],
    track: &[f64],
    t: &mut [f64],
    kx: &mut [f64],
    ky: &mut [f64],
    kz: &mut [f64],
    kt: &mut [f64],
) -> Retrack
    requires { Level kx.old ky.old kz.old kt.old × (length kx.old ≡ length t.old) × (length list.now ≡ 4 * length t.old) × (length track.now ≡ length list.now) }
    ensures { retracked result.count result.met result.state (flat_of kx.new ky.new kz.new kt.new)
        ≡ retrack_of shift from (column_of (λ (v : Tuple). v.t) list.now) track.now }
{
    times(list, t);
    columns::to_columns(track, kx, ky, kz, kt);
    stretch_track::track_again(shift, from, t, kx, ky, kz, kt)
}

// The first rows of columns into a flat list of more.
fn put_back(kx: &[f64], ky: &[f64], kz: &[f64], kt: &[f64], track: &mut [f64], n: usize)
    requires { Level kx.now ky.now kz.now kt.now × (n ≤ length kx.now) × (length track.old ≡ 4 * length kx.now) }
    ensures { track.new
        ≡ take (4 * n) (flat_of kx.now ky.now kz.now kt.now) ++ drop (4 * n) track.old }
{
    let e = 4 * n;
    columns::to_flat(&kx[..n], &ky[..n], &kz[..n], &kt[..n], &mut track[..e]);
}

// A window's track written anew, and no row of it that was not.
fn retrack_window(
    shift: Shift,
    from: State,
    list: &[f64],
    track: &mut [f64],
    t: &mut [f64],
    kx: &mut [f64],
    ky: &mut [f64],
    kz: &mut [f64],
    kt: &mut [f64],
) -> Retrack
    requires { Level kx.old ky.old kz.old kt.old × (length kx.old ≡ length t.old) × (length list.now ≡ 4 * length t.old) × (length track.old ≡ length list.now) }
    ensures { retracked result.count result.met result.state track.new
        ≡ retrack_of shift from (column_of (λ (v : Tuple). v.t) list.now) track.old }
{
    let again = retrack_room(shift, from, list, track, t, kx, ky, kz, kt);
    put_back(kx, ky, kz, kt, track, again.count);
    again
}

// The same through a room of four rows, of which it takes as many as the window has.
fn retrack_part(shift: Shift, from: State, list: &[f64], track: &mut [f64]) -> Retrack
    requires { (length list.now % 4 ≡ 0) × (length list.now ≤ 16) × (length track.old ≡ length list.now) }
    ensures { retracked result.count result.met result.state track.new
        ≡ retrack_of shift from (column_of (λ (v : Tuple). v.t) list.now) track.old }
{
    let mut t = [0.0; 4];
    let mut kx = [0.0; 4];
    let mut ky = [0.0; 4];
    let mut kz = [0.0; 4];
    let mut kt = [0.0; 4];
    let n = list.len() / 4;
    retrack_window(
        shift,
        from,
        list,
        track,
        &mut t[..n],
        &mut kx[..n],
        &mut ky[..n],
        &mut kz[..n],
        &mut kt[..n],
    )
}

// The list's track written anew from a state on, window after window, until the states meet. Gives
// how many fixes. The windows are small, since most corrections redo one fix.
pub fn retrack_list(shift: Shift, from: State, list: &[f64], track: &mut [f64]) -> usize
    ensures { (track.new ≡ cond (as_long_of (length list.now) (length track.old))
        (retrack_of shift from (column_of (λ (v : Tuple). v.t) list.now) track.old).track track.old)
        × (result ≡ cond (as_long_of (length list.now) (length track.old))
        (retrack_of shift from (column_of (λ (v : Tuple). v.t) list.now) track.old).count 0)
        × (4 * result ≤ length list.now) }
{
    if as_long(list.len(), track.len()) {
        return retrack_by_windows(shift, from, list, track);
    }
    0
}

fn retrack_by_windows(shift: Shift, from: State, list: &[f64], track: &mut [f64]) -> usize
    requires { (length list.now % 4 ≡ 0) × (length track.old ≡ length list.now) }
    ensures { (track.new ≡ (retrack_of shift from (column_of (λ (v : Tuple). v.t) list.now) track.old).track)
        × (result ≡ (retrack_of shift from (column_of (λ (v : Tuple). v.t) list.now) track.old).count) × (4 * result ≤ length list.now) }
{
    let count = list.len() / 4;
    let mut state = from;
    for i in (0..count).step_by(4) {
        let w = (count - i).min(4);
        let a = 4 * i;
        let e = a + 4 * w;
        let again = retrack_part(shift, state, &list[a..e], &mut track[a..e]);
        if again.met { // the states have met
            return i + again.count;
        }
        state = again.state;
    }
    count
}
