// A sheet's steps made ready: the plan of each, in the chain's direction.
//
// Document 01, "The sheet": a step whose inverted word is 1 runs the other way than the chain. A
// plan is made from the bytes where they lie. specs/Sheets.antt says which plan stands for a step;
// what a plan makes of a tuple is plans' specs/Plans.antt. Exact: no rounding but the records' own.
// Used by the chain.
#![tactic(auto)]

ghost use Rattle.std.specs.Prelude.{◌≡◌, not, cond, eqb};
ghost use Rattle.plans.specs.Plans.{Ready, at_most_sixteen};
ghost use Rattle.sheet_plans.specs.Sheets.{plan_at};

use ellipsoid::Ellipsoid;
use plans::Plan;

// Fills the places past the last step, which no one reads.
pub const NO_PLAN: Plan = Plan::CartForward(Ellipsoid {
    a: 0.0,
    f: 0.0,
    es: 0.0,
    b: 0.0,
    eps: 0.0,
});

// A step's direction: turned round where its inverted word is 1.
pub fn reversed_by(inverse: bool, inverted: u32) -> bool
    ensures { result ≡ cond (eqb inverted 1) (not inverse) inverse }
{
    if inverted == 1 { !inverse } else { inverse }
}

// The step at index i in the chain's direction.
pub fn plan_at(inverse: bool, s: &[u8], i: usize) -> Plan
    ensures { result ≡ plan_at inverse s.now i }
{
    let inv = reversed_by(inverse, sheet::inverted_at(s, i));
    let kind = sheet::kind_at(s, i);
    let b = sheet::body_at(s, i);
    plans::plan_of(inv, kind, b)
}

// The first n steps, sixteen at most, put into an array whose other places no one reads. It is lent:
// an array that is given back would stand twice on the stack, 2.7 kB each.
pub fn plans_of(inverse: bool, s: &[u8], n: usize, plans: &mut [Plan; 16])
    ensures { Ready (plan_at inverse s.now) (at_most_sixteen n) plans.new }
{
    let steps = plans::at_most_sixteen(n);
    for i in 0..steps {
        plans[i] = plan_at(inverse, s, i);
    }
}
