// The chart profile: which sheets a chart's box takes, beside the reader's own rules.
//
// Document 02, A14: "Helmert and cart only, no exact flag, own-epoch or not dynamic. A sheet passes
// exactly when those rules hold; else the first offending step is named. Refusal 25, profile,
// carries that step and comes after 8 and before 11, only where the profile was asked for." A
// profile is asked for by its number: 0 none, 1 the chart's; another one refuses every sheet that
// keeps 1 to 8. The answer is specs/Profile.antt's for every input (proved). Proved besides
// (proofs/Laws.antt): who passes, when 25 is given and with which step, that it comes after 8 and
// before 11, and that without a profile the answer is the reader's. The rules 1 to 8 and 11 are
// asked through `sheet::check`, so that the reader's code stands once. Used by the closure report
// and by the exported library.
#![tactic(auto)]

ghost use Rattle.std.specs.Prelude.{◌≡◌, ◌≤◌, false, not, eqb, MatchResult};
ghost use Rattle.sheet.specs.Layout.{step_count_of, step_at};
ghost use Rattle.sheet.specs.Rules.{first_broken, unless};
ghost use Rattle.profile.specs.Profile.{helmert_offends, refusal25, twenty_fives, profile_rules, profile_refusal_of};

use bodies::Step;
use helmert::Helmert;
use sheet::Refusal;

// The profiles by their numbers.
pub const NONE: u32 = 0;

pub const CHART: u32 = 1;

// An exact flag, or rates without the own-epoch flag.
pub fn helmert_offends(h: Helmert) -> bool
    ensures { result ≡ helmert_offends h }
{
    h.exact() | (helmert::dynamic(h.scaled()) & !h.own_epoch())
}

// Whether the chart profile does not let a step through.
pub fn offends(step: Step) -> bool
    ensures { result ≡ refusal25 step }
{
    match step {
        Step::Helmert(h) => helmert_offends(h),
        Step::Cart(_) => false,
        Step::Molodensky(_) | Step::Permtide(_) | Step::Deformation(_) | Step::Badekas(_) => true,
    }
}

// The first of n steps that offends.
fn first_offence(s: &[u8], n: usize) -> Result<(), Refusal>
    requires { n ≤ 16 }
    ensures { result ≡ unless (first_broken (twenty_fives (step_at s.now) n 0)) tt }
{
    for i in 0..n {
        let step = bodies::read_body(sheet::kind_at(s, i), sheet::body_at(s, i));
        if offends(step) {
            return Err(Refusal::of_step(25, i));
        }
    }
    Ok(())
}

// What a profile says of a sheet of n steps.
fn judge(s: &[u8], n: usize, profile: u32) -> Result<(), Refusal>
    requires { (n ≤ 16) × (n ≡ step_count_of s.now) }
    ensures { result ≡ unless (first_broken (profile_rules profile s.now)) tt }
{
    match profile {
        NONE => Ok(()),
        CHART => first_offence(s, n),
        _ => Err(Refusal::of_call(25)),
    }
}

// Whether the sheet's own refusal comes before the profile's: of the reader's only 11 waits.
fn comes_first(own: Result<(), Refusal>) -> bool
    ensures { MatchResult own (λ _. result ≡ false) (λ refusal. result ≡ not (eqb refusal.number 11)) }
{
    match own {
        Ok(()) => false,
        Err(refusal) => refusal.number != 11,
    }
}

// The first rule that a sheet breaks under a profile.
pub fn check(s: &[u8], profile: u32) -> Result<(), Refusal>
    ensures { result ≡ unless (profile_refusal_of profile s.now) tt }
{
    let own = sheet::check(s);
    if comes_first(own) {
        return own;
    }
    judge(s, sheet::step_count(s), profile)?;
    own
}
