// How many tuples of columns meet an angle out of reach of sine and cosine, each tuple once: passes
// that read the columns before the step writes them.
//
// Document 02, A5. A pass compares and takes no sine, so the steps' own loops stay as they are.
// Proved equal, over the flat list that the columns stand for, to the number by the step's own
// angles (reach, specs/Met.antt). Columns of unequal length stand for no tuple. Exact: nothing is
// rounded but Helmert's angles at a time, as the step itself does, and twice the latitude.
// Deformation finds its angles from the coordinates and counts in its own loops. Used by whatever
// runs a step over columns.
#![tactic(auto)]

ghost use Rattle.std.specs.Prelude.{◌≡◌, Bool, true, false, ℕ, ◌<◌, length, IfSome};
ghost use Rattle.std.specs.Float.Ieee.{ne};
ghost use Rattle.blocks.specs.Each.{at};
ghost use Rattle.lists.specs.Run.{count_of};
ghost use Rattle.tuple.specs.declared.Tuple.{Tuple};
ghost use Rattle.helmert.specs.Modes.{is_running_of};
ghost use Rattle.helmert.specs.Turns.{number_of, helmert_turns};
ghost use Rattle.columns.specs.Columns.{Level, flat_of};
ghost use Rattle.reach.specs.Met.{meeting_of, place_met, latitude_met, offsets_met, helmert_met};

use blocks::one_if;
use helmert::{Mode, Shift, State};
use tuple::Tuple;

// ----- by the tuple alone -----------------------------------------------------------------------

// How many rows there are of which `holds` is true. Columns of unequal length have none.
fn rows_where<P: Fn(Tuple) -> bool>(x: &[f64], y: &[f64], z: &[f64], t: &[f64], holds: P) -> usize
    requires { P.IsAlwaysCallable holds }
    ensures { (p : Tuple → Bool) → ((v : Tuple) (r : Bool) → P.post holds v r → r ≡ p v)
        → result ≡ number_of p (flat_of x.now y.now z.now t.now) }
{
    if !columns::level(x, y, z, t) {
        return 0;
    }
    let mut n = 0;
    for i in 0..x.len() {
        n += one_if(holds(Tuple {
            x: x[i],
            y: y[i],
            z: z[i],
            t: t[i],
        }));
    }
    n
}

// By longitude or latitude: cart forward.
pub fn place(x: &[f64], y: &[f64], z: &[f64], t: &[f64]) -> usize
    ensures { result ≡ number_of place_met (flat_of x.now y.now z.now t.now) }
{
    rows_where(x, y, z, t, |v| reach::place_out(v.x, v.y))
}

// By latitude: permtide.
pub fn latitude(x: &[f64], y: &[f64], z: &[f64], t: &[f64]) -> usize
    ensures { result ≡ number_of latitude_met (flat_of x.now y.now z.now t.now) }
{
    rows_where(x, y, z, t, |v| reach::out_of_reach(v.y))
}

// By longitude or latitude, in the abridged form also by twice the latitude: Molodensky.
pub fn offsets(x: &[f64], y: &[f64], z: &[f64], t: &[f64], abridged: bool) -> usize
    ensures { result ≡ number_of (offsets_met abridged) (flat_of x.now y.now z.now t.now) }
{
    rows_where(x, y, z, t, |v| reach::offsets_out(abridged, v.x, v.y))
}

// ----- Helmert ----------------------------------------------------------------------------------

// Running mode: R is the sheet's at the last time, and what it says holds until the time changes. T
// is carried along for the definition's sake; nothing reads it, and the compiler leaves it out. Any
// times, one after another.
fn running_any(
    x: &[f64],
    y: &[f64],
    z: &[f64],
    t: &[f64],
    inverse: bool,
    shift: Shift,
    from: State,
) -> usize
    requires { Level x.now y.now z.now t.now × (is_running_of shift ≡ true) × (shift.rotated ≡ true) × (shift.exact ≡ true) }
    ensures { result ≡ count_of (meeting_of (helmert_met shift) (helmert_turns inverse shift)) 0 from (flat_of x.now y.now z.now t.now) }
{
    let mut state = from;
    let mut met = reach::rotation_at_out(shift, state.last - shift.epoch);
    let mut n = 0;
    for i in 0..t.len() {
        let time = t[i];
        if time != state.last {
            state = helmert::next(shift, state, time);
            met = reach::rotation_at_out(shift, time - shift.epoch);
        }
        n += one_if(met);
    }
    n
}

// Where every time differs from the one before, each row goes by its own time, and this is how many
// rows met it; else nothing. No row waits for another, so the loop is quick.
fn running_apart(
    x: &[f64],
    y: &[f64],
    z: &[f64],
    t: &[f64],
    inverse: bool,
    shift: Shift,
    from: State,
) -> Option<usize>
    requires { Level x.now y.now z.now t.now × (is_running_of shift ≡ true) × (shift.rotated ≡ true) × (shift.exact ≡ true) }
    ensures { IfSome result
        (λ n. n ≡ count_of (meeting_of (helmert_met shift) (helmert_turns inverse shift)) 0 from (flat_of x.now y.now z.now t.now)) }
{
    let mut state = from;
    let mut before = state.last;
    let mut equal = 0;
    let mut n = 0;
    for i in 0..t.len() {
        let time = t[i];
        equal += one_if(!(time != before));
        n += one_if(reach::rotation_at_out(shift, time - shift.epoch));
        state = helmert::next(shift, state, time);
        before = time;
    }
    if equal == 0 { Some(n) } else { None }
}

// Whether every time is equal to one.
fn one_time(t: &[f64], last: f64) -> bool
    ensures { (result ≡ true) → (j : ℕ) → (j < length t.now) → (ne (at t.now j) last ≡ false) }
{
    t.iter().all(|time| *time == last)
}

// All rows at one time, or each at another than the one before, or any: the first two are quick.
fn running_rows(
    x: &[f64],
    y: &[f64],
    z: &[f64],
    t: &[f64],
    inverse: bool,
    shift: Shift,
    from: State,
) -> usize
    requires { Level x.now y.now z.now t.now × (is_running_of shift ≡ true) × (shift.rotated ≡ true) × (shift.exact ≡ true) }
    ensures { result ≡ count_of (meeting_of (helmert_met shift) (helmert_turns inverse shift)) 0 from (flat_of x.now y.now z.now t.now) }
{
    if t.len() == 0 {
        return 0;
    }
    let first = helmert::next(shift, from, t[0]);
    if one_time(t, first.last) {
        if reach::rotation_at_out(shift, first.last - shift.epoch) {
            return t.len();
        }
        return 0;
    }
    match running_apart(x, y, z, t, inverse, shift, from) {
        Some(met) => met,
        None => running_any(x, y, z, t, inverse, shift, from),
    }
}

// By the mode, of an exact shift that is rotated: in own-epoch mode R is the sheet's at each fix's
// own time; in static and fixed mode one matrix is used by all fixes or by none.
fn helmert_rows(
    x: &[f64],
    y: &[f64],
    z: &[f64],
    t: &[f64],
    inverse: bool,
    shift: Shift,
    from: State,
) -> usize
    requires { Level x.now y.now z.now t.now × (shift.rotated ≡ true) × (shift.exact ≡ true) }
    ensures { result ≡ count_of (meeting_of (helmert_met shift) (helmert_turns inverse shift)) 0 from (flat_of x.now y.now z.now t.now) }
{
    match shift.mode() {
        Mode::Still => if reach::rotation_out(shift.parameters.r) {
            x.len()
        } else {
            0
        },
        Mode::Running => running_rows(x, y, z, t, inverse, shift, from),
        Mode::OwnEpoch => rows_where(x, y, z, t, |v| reach::own_out(shift, v.t)),
    }
}

// Helmert, from the state that the columns' first fix is met in. Only an exact shift that is
// rotated takes a sine that is used.
pub fn helmert(
    x: &[f64],
    y: &[f64],
    z: &[f64],
    t: &[f64],
    inverse: bool,
    shift: Shift,
    from: State,
) -> usize
    ensures { result ≡ count_of (meeting_of (helmert_met shift) (helmert_turns inverse shift)) 0 from (flat_of x.now y.now z.now t.now) }
{
    if shift.exact & shift.rotated {
        if columns::level(x, y, z, t) {
            return helmert_rows(x, y, z, t, inverse, shift, from);
        }
    }
    0
}
