// A step made ready for a list: what depends on its record alone is worked out once, and the
// direction is in the plan.
//
// It stands in place of the Rust's `Op`, which holds a step's prepared values and its direction. A
// ten-parameter step has Helmert's plan, whose shift then has a pivot.
// `plan_of` reads the record from a sheet's bytes where they lie, `plan_of_step` takes one that is
// already read. specs/Plans.antt says what a plan makes of one tuple and the state that it starts a
// list in; specs/Windows.antt says what plans make of a part of a list, each going on from where it
// stands, and proofs/Windows.antt that a list in parts is the whole list. Exact: no rounding but the
// records' own. Used by the chain, by what runs a record, and by the windows.
#![tactic(auto)]

ghost use Rattle.std.specs.Prelude.{◌≡◌, cond, eqb};
ghost use Rattle.cart.specs.Record.{blank_of};
ghost use Rattle.helmert.specs.Turns.{no_state};
ghost use Rattle.bodies.specs.Read.{cart_in, step_of};
ghost use Rattle.plans.specs.Plans.{held_kind_of, cart_plan_of, plan_of, at_most_sixteen, plan_start_of};

use bodies::Step;
use cart::{Cart, Inverse};
use deformation::Motion;
use ellipsoid::Ellipsoid;
use helmert::{Shift, State};
use molodensky::Moped;
use permtide::Tide;
use rotation::Vec3;
use tally::Tally;

#[derive(Clone, Copy)]
pub enum Plan {
    CartForward(Ellipsoid),
    CartInverse(Inverse),
    PermtideEither(Tide, bool),
    DeformationEither(Motion, bool),
    MolodenskyEither(Moped, bool),
    HelmertEither(Shift, bool),
}

// What a caller lends beside a list: velocities and marks, one for each fix, or a velocity grid
// (document 02, A1), which is none where it has no bytes.
#[derive(Clone, Copy)]
pub struct Loan<'a> {
    pub velocities: &'a [f64],
    pub marks: &'a [u8],
    pub grid: &'a [u8],
}

// Where a step stands between two parts of a list: its state, and how many tuples it has counted and
// how many have met an angle out of reach.
#[derive(Clone, Copy)]
pub struct Standing {
    pub state: State,
    pub tally: Tally,
}

// ----- a step made ready -----------------------------------------------------------------------

fn cart_plan(inverse: bool, step: Cart) -> Plan
    ensures { result ≡ cart_plan_of inverse step }
{
    let ellps = Ellipsoid::named(step.ellipsoid);
    if inverse {
        Plan::CartInverse(Inverse::new(ellps))
    } else {
        Plan::CartForward(ellps)
    }
}

// A record that is already read.
pub fn plan_of_step(inverse: bool, step: Step) -> Plan
    ensures { result ≡ plan_of inverse step }
{
    match step {
        Step::Cart(r) => cart_plan(inverse, r),
        Step::Permtide(r) => Plan::PermtideEither(Tide::new(r), inverse),
        Step::Deformation(r) => Plan::DeformationEither(Motion::new(r), r.directed(inverse)),
        Step::Molodensky(r) => Plan::MolodenskyEither(Moped::new(r), inverse),
        Step::Helmert(h) => Plan::HelmertEither(helmert::prepare(h), inverse),
        Step::Badekas(r) => Plan::HelmertEither(badekas::prepare(r), inverse),
    }
}

// A body's kind where the body is as long as its kind's are, else 0.
pub fn held_kind(kind: u32, length: usize) -> u32
    ensures { result ≡ held_kind_of kind length }
{
    if length == words::wide(bodies::length_of(kind)) {
        kind
    } else {
        0
    }
}

// The cart step that a body holds, blank where no kind is held.
pub fn cart_of(kind: u32, b: &[u8]) -> Cart
    ensures { result ≡ cond (eqb kind 2) (cart_in b.now) blank_of }
{
    if kind == 2 {
        bodies::read_cart(b)
    } else {
        Cart::blank()
    }
}

// A record in a sheet's bytes. No `Step` is built: the enum is as large as a Helmert record and
// would be copied at each call.
pub fn plan_of(inverse: bool, kind: u32, b: &[u8]) -> Plan
    ensures { result ≡ plan_of inverse (step_of kind b.now) }
{
    let held = held_kind(kind, b.len());
    match held {
        1 => Plan::HelmertEither(helmert::prepare(bodies::read_helmert(b)), inverse),
        3 => Plan::MolodenskyEither(Moped::new(bodies::read_molodensky(b)), inverse),
        4 => Plan::PermtideEither(Tide::new(bodies::read_permtide(b)), inverse),
        5 => {
            let r = bodies::read_deformation(b);
            Plan::DeformationEither(Motion::new(r), r.directed(inverse))
        }
        6 => Plan::HelmertEither(badekas::prepare(bodies::read_badekas(b)), inverse),
        _ => cart_plan(inverse, cart_of(held, b)),
    }
}

// As many steps as an array of plans has.
pub fn at_most_sixteen(n: usize) -> usize
    ensures { result ≡ at_most_sixteen n }
{
    n.min(16)
}

// ----- its start -------------------------------------------------------------------------------

// No state: NaN and zeros, which no step but Helmert's reads.
pub fn no_state() -> State
    ensures { result ≡ no_state }
{
    State {
        last: 0.0 / 0.0,
        t: Vec3 {
            x: 0.0,
            y: 0.0,
            z: 0.0,
        },
    }
}

// The state that a plan starts each list in.
pub fn start(plan: Plan) -> State
    ensures { result ≡ plan_start_of plan }
{
    match plan {
        Plan::CartForward(_)
        | Plan::CartInverse(_)
        | Plan::PermtideEither(_, _)
        | Plan::DeformationEither(_, _)
        | Plan::MolodenskyEither(_, _) => no_state(),
        Plan::HelmertEither(shift, _) => helmert::start(shift),
    }
}
