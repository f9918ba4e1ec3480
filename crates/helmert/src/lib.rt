// The Helmert step: helmert.rs of the crate geodesy 0.15.0, with document 01's rules and modes.
//
// The method is IOGP 373-7-2's coordinate frame and position vector shifts, in the Rust's own
// sequence of roundings and with its letters: `scaled` and `prepare` are its `new`, and the steps
// on one tuple are one turn of the loop of its `helmert_common`; its `rotation_matrix` is in the
// crate rotation. Every function is proved equal to its definition in specs/, rounding by rounding,
// for every number.
//
// Four differences from IOGP are the Rust's and are kept (docs/DIFFERENCES.md). In running mode T
// grows from tuple to tuple. t_obs moves S three times. The inverse undoes the forward step, where
// IOGP runs the same formula with negated parameters. The exact rotation takes sines and cosines of
// the angles. The own-epoch mode is ours.
//
// A step sees one tuple and never the list: a state goes in and comes out. A loop over a list
// decides the mode once, by `Shift::mode`, and builds the matrix anew only when the time changes,
// from the pieces that are public for it.
//
// A prepared shift may have a pivot, about which a static or fixed step rotates and scales: request
// A4's ten-parameter shift, whose record stands in the crate badekas. A Helmert record's shift has
// none.
#![tactic(auto)]

ghost use Rattle.std.specs.Prelude.{◌≡◌};
ghost use Rattle.helmert.specs.Record.{exact_of, uas_of, mm_of, own_epoch_of, zeros_with, blank_helmert, zero_helmert};
ghost use Rattle.helmert.specs.Units.{linear_scale_of, angular_scale_of, winner_of, lengths_of, angles_of, parameters_of};
ghost use Rattle.helmert.specs.Rules.{some_of, rotated_of, dynamic_of, finite3_of, time_of, vectors_finite_of, scales_finite_of, fields_in_rule_of, lacks_convention_of, lacks_epoch_of};
ghost use Rattle.helmert.specs.Apply.{position_of, tuple_of, offset_of, deoffset_of, forward_of, inverse_of, apply_of, less_of, more_of, forward_about_of, inverse_about_of, apply_about_of};
ghost use Rattle.helmert.specs.Modes.{advanced_of, observed_of, prepare_of, grown_of, rotation_at_of, scale_at_of, shifted_of, fixed_step_of, start_of, next_of, running_of, own_epoch_step_of, is_own_epoch_of, is_running_of, mode_of, step_of, counted_of};

use rotation::Vec3;
use tuple::Tuple;

const PI: f64 = 3.141592653589793;

// ----- the record ----------------------------------------------------------------------

// The record as the sheet carries it. The singles x, y, z are xyz, and so on; t_epoch and t_obs are
// NaN where they are not given.
// flags: 1 exact, 2 uas, 4 mm, 8 own-epoch. convention: 0 none, 1 position vector, 2 coordinate
// frame. It stays a number, asked three times and each time by one comparison: an enum would need a
// case for the numbers out of rule, which `prepare` takes as the Rust does.
#[derive(Clone, Copy)]
pub struct Helmert {
    pub flags: u32,
    pub convention: u32,
    pub translation: Vec3,
    pub xyz: Vec3,
    pub translation_rate: Vec3,
    pub dxyz: Vec3,
    pub rotation: Vec3,
    pub rxyz: Vec3,
    pub rotation_rate: Vec3,
    pub drxyz: Vec3,
    pub scale: f64,
    pub s: f64,
    pub scale_rate: f64,
    pub ds: f64,
    pub t_epoch: f64,
    pub t_obs: f64,
}

// Translation, rotation, scale, and their time evolution, in metres, radians and years.
#[derive(Clone, Copy)]
pub struct Parameters {
    pub t: Vec3,
    pub r: Vec3,
    pub s: f64,
    pub dt: Vec3,
    pub dr: Vec3,
    pub ds: f64,
}

fn zeros_with(flags: u32) -> Helmert
    ensures { result ≡ zeros_with flags }
{
    let none = 0.0 / 0.0;
    let zero = Vec3 {
        x: 0.0,
        y: 0.0,
        z: 0.0,
    };
    Helmert {
        flags: flags,
        convention: 0,
        translation: zero,
        xyz: zero,
        translation_rate: zero,
        dxyz: zero,
        rotation: zero,
        rxyz: zero,
        rotation_rate: zero,
        drxyz: zero,
        scale: 0.0,
        s: 0.0,
        scale_rate: 0.0,
        ds: 0.0,
        t_epoch: none,
        t_obs: none,
    }
}

impl Helmert {
    // The record that a fitter begins with: the crate's defaults, in own-epoch mode, where no fix's
    // result depends on the fixes before it. Without flag 8 the sheet shifts as the crate does.
    pub fn blank() -> Self
        ensures { result ≡ blank_helmert }
    {
        zeros_with(8)
    }

    // The record of zeros, without a flag: what bytes that are no Helmert body read as.
    pub fn zeros() -> Self
        ensures { result ≡ zero_helmert }
    {
        zeros_with(0)
    }

    // One method a flag, and the only place that reads its bit.
    pub fn exact(self) -> bool
        ensures { result ≡ exact_of self }
    {
        self.flags % 2 == 1
    }

    pub fn uas(self) -> bool
        ensures { result ≡ uas_of self }
    {
        self.flags / 2 % 2 == 1
    }

    pub fn mm(self) -> bool
        ensures { result ≡ mm_of self }
    {
        self.flags / 4 % 2 == 1
    }

    pub fn own_epoch(self) -> bool
        ensures { result ≡ own_epoch_of self }
    {
        self.flags / 8 % 2 == 1
    }

    // The record's numbers in metres and radians.
    pub fn scaled(self) -> Parameters
        ensures { result ≡ parameters_of self }
    {
        let linear = linear_scale(self.mm());
        let angular = angular_scale(self.uas());
        let t = lengths(linear, self.xyz, self.translation);
        let dt = lengths(linear, self.dxyz, self.translation_rate);
        let r = angles(angular, self.rxyz, self.rotation);
        let dr = angles(angular, self.drxyz, self.rotation_rate);
        Parameters {
            t: t,
            r: r,
            s: 1.0 + winner(self.scale, self.s) * 1e-6,
            dt: dt,
            dr: dr,
            ds: winner(self.scale_rate, self.ds) * 1e-6,
        }
    }

    fn vectors_finite(self) -> bool
        ensures { result ≡ vectors_finite_of self }
    {
        finite3(self.translation)
            & finite3(self.xyz)
            & finite3(self.translation_rate)
            & finite3(self.dxyz)
            & finite3(self.rotation)
            & finite3(self.rxyz)
            & finite3(self.rotation_rate)
            & finite3(self.drxyz)
    }

    fn scales_finite(self) -> bool
        ensures { result ≡ scales_finite_of self }
    {
        floats::is_finite(self.scale)
            & floats::is_finite(self.s)
            & floats::is_finite(self.scale_rate)
            & floats::is_finite(self.ds)
    }

    // Whether every field is within its rule: else refusal 5.
    pub fn fields_in_rule(self) -> bool
        ensures { result ≡ fields_in_rule_of self }
    {
        (self.flags < 16)
            & (self.convention < 3)
            & self.vectors_finite()
            & self.scales_finite()
            & time(self.t_epoch)
            & time(self.t_obs)
    }

    // Rotated with no convention: refusal 6.
    pub fn lacks_convention(self) -> bool
        ensures { result ≡ lacks_convention_of self }
    {
        rotated(self.scaled()) & (self.convention == 0)
    }

    // Dynamic with no t_epoch: refusal 7.
    pub fn lacks_epoch(self) -> bool
        ensures { result ≡ lacks_epoch_of self }
    {
        dynamic(self.scaled()) & floats::is_nan(self.t_epoch)
    }
}

// ----- units, singles and series ---------------------------------------------------------

// Linear units in either m or mm.
pub fn linear_scale(mm: bool) -> f64
    ensures { result ≡ linear_scale_of mm }
{
    if mm { 0.001 } else { 1.0 }
}

// Angular units in either arcsec or micro arcsec.
pub fn angular_scale(uas: bool) -> f64
    ensures { result ≡ angular_scale_of uas }
{
    if uas {
        PI / (3.6e9 * 180.0)
    } else {
        PI / (3.6e3 * 180.0)
    }
}

// A single that is not zero wins over its series place.
pub fn winner(single: f64, series: f64) -> f64
    ensures { result ≡ winner_of single series }
{
    if single != 0.0 { single } else { series }
}

pub fn lengths(linear: f64, singles: Vec3, series: Vec3) -> Vec3
    ensures { result ≡ lengths_of linear singles series }
{
    Vec3 {
        x: linear * winner(singles.x, series.x),
        y: linear * winner(singles.y, series.y),
        z: linear * winner(singles.z, series.z),
    }
}

pub fn angles(angular: f64, singles: Vec3, series: Vec3) -> Vec3
    ensures { result ≡ angles_of angular singles series }
{
    Vec3 {
        x: winner(singles.x, series.x) * angular,
        y: winner(singles.y, series.y) * angular,
        z: winner(singles.z, series.z) * angular,
    }
}

// ----- rotated, dynamic, and fields in rule -----------------------------------------------

fn some(v: Vec3) -> bool
    ensures { result ≡ some_of v }
{
    (v.x != 0.0) | (v.y != 0.0) | (v.z != 0.0)
}

pub fn rotated(p: Parameters) -> bool
    ensures { result ≡ rotated_of p }
{
    some(p.r) | some(p.dr)
}

pub fn dynamic(p: Parameters) -> bool
    ensures { result ≡ dynamic_of p }
{
    some(p.dt) | some(p.dr) | (p.ds != 0.0)
}

pub fn finite3(v: Vec3) -> bool
    ensures { result ≡ finite3_of v }
{
    floats::is_finite(v.x) & floats::is_finite(v.y) & floats::is_finite(v.z)
}

// A time is finite or not given.
fn time(x: f64) -> bool
    ensures { result ≡ time_of x }
{
    floats::is_finite(x) | floats::is_nan(x)
}

// ----- the prepared shift ------------------------------------------------------------------

// A record made ready to be applied to any number of tuples. The pivot, in metres, counts only where
// `pivoted` says so. Its flags are independent of one another, but for three that make the mode:
// `Shift::mode` is these as an enum.
#[derive(Clone, Copy)]
pub struct Shift {
    pub parameters: Parameters,
    pub epoch: f64,
    pub rotated: bool,
    pub dynamic: bool,
    pub fixed: bool,
    pub exact: bool,
    pub position_vector: bool,
    pub own_epoch: bool,
    pub pivoted: bool,
    pub pivot: Vec3,
}

// A parameter moved once by rate·d. Sums of vectors are functions and no operators: five impls would
// serve four bodies, and the order of the factors, which is the Rust's, would stand elsewhere.
fn moved(v: Vec3, rate: Vec3, d: f64) -> Vec3
    ensures { result ≡ advanced_of v rate d }
{
    Vec3 {
        x: v.x + rate.x * d,
        y: v.y + rate.y * d,
        z: v.z + rate.z * d,
    }
}

// The parameters at a fixed observation time, d years after t_epoch. S moves three times, because
// the Rust adds to it inside its loop over the axes.
fn observed(p: Parameters, d: f64) -> Parameters
    ensures { result ≡ observed_of p d }
{
    let t = moved(p.t, p.dt, d);
    let r = moved(p.r, p.dr, d);
    let ds = p.ds;
    let s = p.s + ds * d + ds * d + ds * d;
    let dt = p.dt;
    let dr = p.dr;
    Parameters {
        t: t,
        r: r,
        s: s,
        dt: dt,
        dr: dr,
        ds: ds,
    }
}

pub fn prepare(h: Helmert) -> Shift
    ensures { result ≡ prepare_of h }
{
    let p = h.scaled();
    let dynamic = dynamic(p);
    let fixed = dynamic & !floats::is_nan(h.t_obs);
    let at = if fixed {
        observed(p, h.t_obs - h.t_epoch)
    } else {
        p
    };
    let none = Vec3 {
        x: 0.0,
        y: 0.0,
        z: 0.0,
    };
    Shift {
        parameters: at,
        epoch: h.t_epoch,
        rotated: rotated(p),
        dynamic: dynamic,
        fixed: fixed,
        exact: h.exact(),
        position_vector: h.convention != 2,
        own_epoch: h.own_epoch(),
        pivoted: false,
        pivot: none,
    }
}

// ----- forward and inverse ---------------------------------------------------------------------

// Scale and offset.
pub fn offset(t: Vec3, s: f64, v: Vec3) -> Vec3
    ensures { result ≡ offset_of t s v }
{
    Vec3 {
        x: s * v.x + t.x,
        y: s * v.y + t.y,
        z: s * v.z + t.z,
    }
}

// Deoffset and unscale.
pub fn deoffset(t: Vec3, s: f64, v: Vec3) -> Vec3
    ensures { result ≡ deoffset_of t s v }
{
    Vec3 {
        x: (v.x - t.x) / s,
        y: (v.y - t.y) / s,
        z: (v.z - t.z) / s,
    }
}

// The coordinates of a tuple, and a tuple of coordinates and a time. Functions, because `From` would
// be of another crate's types on both sides.
fn position(v: Tuple) -> Vec3
    ensures { result ≡ position_of v }
{
    Vec3 {
        x: v.x,
        y: v.y,
        z: v.z,
    }
}

fn at_time(v: Vec3, t: f64) -> Tuple
    ensures { result ≡ tuple_of v t }
{
    Tuple {
        x: v.x,
        y: v.y,
        z: v.z,
        t: t,
    }
}

pub fn forward(t: Vec3, s: f64, rotated: bool, m: [[f64; 3]; 3], v: Tuple) -> Tuple
    ensures { result ≡ forward_of t s rotated m v }
{
    if rotated {
        return at_time(offset(t, s, rotation::rotate(m, position(v))), v.t);
    }
    at_time(offset(t, s, position(v)), v.t)
}

pub fn inverse(t: Vec3, s: f64, rotated: bool, m: [[f64; 3]; 3], v: Tuple) -> Tuple
    ensures { result ≡ inverse_of t s rotated m v }
{
    let u = deoffset(t, s, position(v));
    if rotated {
        return at_time(rotation::rotate_back(m, u), v.t);
    }
    at_time(u, v.t)
}

// Forward, or inverse where `inv` says so.
pub fn apply(inv: bool, t: Vec3, s: f64, rotated: bool, m: [[f64; 3]; 3], v: Tuple) -> Tuple
    ensures { result ≡ apply_of inv t s rotated m v }
{
    if inv {
        return inverse(t, s, rotated, m, v);
    }
    forward(t, s, rotated, m, v)
}

// ----- the same about a pivot -----------------------------------------------------------------

fn less(v: Tuple, p: Vec3) -> Tuple
    ensures { result ≡ less_of v p }
{
    Tuple {
        x: v.x - p.x,
        y: v.y - p.y,
        z: v.z - p.z,
        t: v.t,
    }
}

fn more(v: Tuple, p: Vec3) -> Tuple
    ensures { result ≡ more_of v p }
{
    Tuple {
        x: v.x + p.x,
        y: v.y + p.y,
        z: v.z + p.z,
        t: v.t,
    }
}

// ((S·(M·(v - P))) + P) + T: the step with the pivot for its translation, between one difference
// and one sum.
pub fn forward_about(p: Vec3, t: Vec3, s: f64, rotated: bool, m: [[f64; 3]; 3], v: Tuple) -> Tuple
    ensures { result ≡ forward_about_of p t s rotated m v }
{
    more(forward(p, s, rotated, m, less(v, p)), t)
}

// Mᵀ·(((v - T) - P)/S) + P.
pub fn inverse_about(p: Vec3, t: Vec3, s: f64, rotated: bool, m: [[f64; 3]; 3], v: Tuple) -> Tuple
    ensures { result ≡ inverse_about_of p t s rotated m v }
{
    more(inverse(p, s, rotated, m, less(v, t)), p)
}

// Forward, or inverse where `inv` says so.
pub fn apply_about(
    inv: bool,
    p: Vec3,
    t: Vec3,
    s: f64,
    rotated: bool,
    m: [[f64; 3]; 3],
    v: Tuple,
) -> Tuple
    ensures { result ≡ apply_about_of inv p t s rotated m v }
{
    if inv {
        return inverse_about(p, t, s, rotated, m, v);
    }
    forward_about(p, t, s, rotated, m, v)
}

// ----- modes -------------------------------------------------------------------------------------

// What a run carries from one tuple to the next: the last time, NaN at first, and T.
#[derive(Clone, Copy)]
pub struct State {
    pub last: f64,
    pub t: Vec3,
}

#[derive(Clone, Copy)]
pub struct Stepped {
    pub state: State,
    pub tuple: Tuple,
}

// A parameter dt years on.
pub fn grown(v: Vec3, dt: f64, rate: Vec3) -> Vec3
    ensures { result ≡ grown_of v dt rate }
{
    Vec3 {
        x: v.x + dt * rate.x,
        y: v.y + dt * rate.y,
        z: v.z + dt * rate.z,
    }
}

pub fn rotation_at(p: Parameters, dt: f64) -> Vec3
    ensures { result ≡ rotation_at_of p dt }
{
    grown(p.r, dt, p.dr)
}

pub fn scale_at(p: Parameters, dt: f64) -> f64
    ensures { result ≡ scale_at_of p dt }
{
    p.s + dt * p.ds
}

// One tuple through T, R and S.
fn shifted(shift: Shift, inv: bool, t: Vec3, r: Vec3, s: f64, v: Tuple) -> Tuple
    ensures { result ≡ shifted_of shift inv t r s v }
{
    apply(
        inv,
        t,
        s,
        shift.rotated,
        rotation::rotation_matrix(r, shift.exact, shift.position_vector),
        v,
    )
}

// A static or fixed sheet, about its pivot where it has one.
pub fn fixed_step(shift: Shift, inv: bool, v: Tuple) -> Tuple
    ensures { result ≡ fixed_step_of shift inv v }
{
    let p = shift.parameters;
    let m = rotation::rotation_matrix(p.r, shift.exact, shift.position_vector);
    if shift.pivoted {
        return apply_about(inv, shift.pivot, p.t, p.s, shift.rotated, m, v);
    }
    apply(inv, p.t, p.s, shift.rotated, m, v)
}

pub fn start(shift: Shift) -> State
    ensures { result ≡ start_of shift }
{
    let p = shift.parameters;
    let t = p.t;
    State {
        last: 0.0 / 0.0,
        t: t,
    }
}

// The state at a tuple's time. T grows from where it is: it is not taken anew.
pub fn next(shift: Shift, state: State, time: f64) -> State
    ensures { result ≡ next_of shift state time }
{
    if time != state.last {
        let p = shift.parameters;
        let t = grown(state.t, time - shift.epoch, p.dt);
        return State { last: time, t: t };
    }
    state
}

// The Rust's mode, dynamic and not fixed.
pub fn running(shift: Shift, inv: bool, state: State, v: Tuple) -> Stepped
    ensures { result ≡ running_of shift inv state v }
{
    let now = next(shift, state, v.t);
    let dt = now.last - shift.epoch;
    let p = shift.parameters;
    let w = shifted(shift, inv, now.t, rotation_at(p, dt), scale_at(p, dt), v);
    Stepped {
        state: now,
        tuple: w,
    }
}

// The mode in running's place that has no order effect. A fix whose time is missing, a NaN, becomes
// three NaNs with its time kept, and no test is needed for it: its dt is NaN, so T is, and so are
// its three coordinates.
pub fn own_epoch_step(shift: Shift, inv: bool, v: Tuple) -> Tuple
    ensures { result ≡ own_epoch_step_of shift inv v }
{
    let dt = v.t - shift.epoch;
    let p = shift.parameters;
    let t = grown(p.t, dt, p.dt);
    shifted(shift, inv, t, rotation_at(p, dt), scale_at(p, dt), v)
}

// Dynamic and not fixed, with the own-epoch flag.
pub fn is_own_epoch(shift: Shift) -> bool
    ensures { result ≡ is_own_epoch_of shift }
{
    shift.dynamic & !shift.fixed & shift.own_epoch
}

// Dynamic and not fixed, without it.
pub fn is_running(shift: Shift) -> bool
    ensures { result ≡ is_running_of shift }
{
    shift.dynamic & !shift.fixed & !shift.own_epoch
}

// What a shift does with a fix's time: nothing, as one that is static or fixed; T grown from fix to
// fix; or T, R and S each at the fix's own time.
#[derive(Clone, Copy)]
pub enum Mode {
    Still,
    Running,
    OwnEpoch,
}

impl Shift {
    pub fn mode(self) -> Mode
        ensures { result ≡ mode_of self }
    {
        if is_running(self) {
            Mode::Running
        } else if is_own_epoch(self) {
            Mode::OwnEpoch
        } else {
            Mode::Still
        }
    }
}

// One tuple by the mode that the shift calls for.
pub fn step(shift: Shift, inv: bool, state: State, v: Tuple) -> Stepped
    ensures { result ≡ step_of shift inv state v }
{
    match shift.mode() {
        Mode::Still => Stepped {
            state: state,
            tuple: fixed_step(shift, inv, v),
        },
        Mode::Running => running(shift, inv, state, v),
        Mode::OwnEpoch => Stepped {
            state: state,
            tuple: own_epoch_step(shift, inv, v),
        },
    }
}

// Whether a tuple counts: every one, save in own-epoch mode one whose time is missing.
pub fn counted(shift: Shift, v: Tuple) -> bool
    ensures { result ≡ counted_of shift v }
{
    !(is_own_epoch(shift) & floats::is_nan(v.t))
}
