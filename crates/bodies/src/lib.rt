// The bodies of the sheet's steps: each kind's bytes read into its record, and tested by rules 5 to
// 8.
//
// The layout is document 01's table, each field at one stated place: specs/Read.antt has a reader's
// line a field with the place of its first byte. The bytes in order, and that the two say the same,
// stand in body_writer. A body is lent as a part of the sheet that starts in its middle. Its length
// is tested once, so that a field is one load, and it is decoded once to be tested. What a record's
// fields may be is said in the crate of its kind. Exact: every bit of every number comes back,
// zeros by sign, and "not given" is 7ff8000000000000 and no other NaN. Used by the sheet, and by
// who reads a body of a known kind.
#![tactic(auto)]

ghost use Rattle.std.specs.Prelude.{◌≡◌, ℕ, ◌+◌, ◌≤◌, Bool, true, cond, eqb, ◌&&◌, List, length};
ghost use Rattle.words.specs.Words.{word32, one_nan_at};
ghost use Rattle.cart.specs.Record.{blank_of, in_rule_of as cart_in_rule_of};
ghost use Rattle.helmert.specs.Record.{zero_helmert};
ghost use Rattle.helmert.specs.Rules.{fields_in_rule_of, lacks_convention_of, lacks_epoch_of};
ghost use Rattle.molodensky.specs.Record.{blank_of as blank_molodensky, in_rule_of as molodensky_in_rule_of};
ghost use Rattle.permtide.specs.Record.{blank_of as blank_permtide, in_rule_of as permtide_in_rule_of};
ghost use Rattle.deformation.specs.Record.{blank_of as blank_deformation, in_rule_of as deformation_in_rule_of, neither_of};
ghost use Rattle.badekas.specs.Record.{blank_badekas};
ghost use Rattle.badekas.specs.Rules.{fields_in_rule_of as badekas_in_rule_of, lacks_convention_of as badekas_lacks_convention_of};
ghost use Rattle.bodies.specs.Kinds.{kind_of, length_of};
ghost use Rattle.bodies.specs.Read.{vec3_at, helmert_of, cart_of, molodensky_of, permtide_of, deformation_of, badekas_of, helmert_in, cart_in, molodensky_in, permtide_in, deformation_in, badekas_in, blank_step, step_of};
ghost use Rattle.bodies.specs.Rules.{step_in_rule, lacks_convention, lacks_epoch, lacks_duration, body_in_rule, lowest_broken, lowest_of, some_rule};

use badekas::Badekas;
use cart::Cart;
use deformation::Deformation;
use helmert::Helmert;
use molodensky::Molodensky;
use permtide::Permtide;
use rotation::Vec3;

// A step's record, of any kind. The smallest stands first.
#[derive(Clone, Copy)]
pub enum Step {
    Cart(Cart),
    Permtide(Permtide),
    Deformation(Deformation),
    Molodensky(Molodensky),
    Badekas(Badekas),
    Helmert(Helmert),
}

// ----- kinds -----------------------------------------------------------------------------

pub fn kind_of(step: Step) -> u32
    ensures { result ≡ kind_of step }
{
    match step {
        Step::Helmert(_) => 1,
        Step::Cart(_) => 2,
        Step::Molodensky(_) => 3,
        Step::Permtide(_) => 4,
        Step::Deformation(_) => 5,
        Step::Badekas(_) => 6,
    }
}

// The length of a kind's body; 0 where there is no such kind.
pub fn length_of(kind: u32) -> u32
    ensures { result ≡ length_of kind }
{
    match kind {
        1 => Helmert::LENGTH as u32,
        2 => Cart::LENGTH as u32,
        3 => Molodensky::LENGTH as u32,
        4 => Permtide::LENGTH as u32,
        5 => Deformation::LENGTH as u32,
        6 => Badekas::LENGTH as u32,
        _ => 0,
    }
}

// What stands for a step where there is none.
pub fn blank_step() -> Step
    ensures { result ≡ blank_step }
{
    Step::Cart(Cart::blank())
}

// ----- what the kinds share --------------------------------------------------------------

// A step's record as the bytes of its body hold it, and rules 5 to 8 on it. A kind is a number in
// the bytes and in C, so a number chooses among the records, in three matches below.
trait Body: Copy {
    ghost LENGTH: { ℕ };

    ghost blank_record: { Self };

    ghost held: { List ℕ → Self };

    ghost written: { List ℕ → Bool };

    ghost in_rule: { Self → Bool };

    ghost later: { Self → ℕ };

    const LENGTH: usize;

    // What a body of another length reads as.
    fn blank_record() -> Self
        ensures { result ≡ blank_record };

    // The record of a body of its kind's length.
    fn fields(b: &[u8]) -> Self
        requires { length b.now ≡ LENGTH }
        ensures { result ≡ held b.now };

    // Rule 5 on the record and on what only the bytes show.
    fn keeps_five(self, b: &[u8]) -> bool
        ensures { result ≡ (written b.now && in_rule self) };

    // The lowest of rules 6 to 8 that the record breaks.
    fn breaks(self) -> Option<u32>
        ensures { result ≡ some_rule (later self) };
}

// The record of a body whose kind is known.
fn read<B: Body>(b: &[u8]) -> B
    ensures { result ≡ cond (eqb (length b.now) B.LENGTH) (B.held b.now) B.blank_record }
{
    if b.len() == B::LENGTH {
        return B::fields(b);
    }
    B::blank_record()
}

// The lowest of rules 5 to 8 that a body breaks, its record decoded once.
fn lowest<B: Body>(b: &[u8]) -> Option<u32>
    ensures { result ≡ some_rule (lowest_of B.LENGTH B.held B.written B.in_rule B.later b.now) }
{
    if b.len() != B::LENGTH {
        return Some(5);
    }
    let record = B::fields(b);
    if !record.keeps_five(b) {
        return Some(5);
    }
    record.breaks()
}

// ----- each kind's body ------------------------------------------------------------------

// Bodies of their kind's length are taken whole as a part: the compiler then knows how long they
// are, and no field is tested.
fn read_vec3(b: &[u8], at: usize) -> Vec3
    requires { at + 24 ≤ length b.now }
    ensures { result ≡ vec3_at b.now at }
{
    let end = at + 24;
    let v = &b[at..end];
    Vec3 {
        x: words::number(v, 0),
        y: words::number(v, 8),
        z: words::number(v, 16),
    }
}

impl Body for Helmert {
    ghost LENGTH = { 248 };

    ghost blank_record = { zero_helmert };

    ghost held = { helmert_of };

    ghost written = { λ b. one_nan_at b 232 && one_nan_at b 240 };

    ghost in_rule = { fields_in_rule_of };

    ghost later = { λ h. cond (lacks_convention_of h) 6 (cond (lacks_epoch_of h) 7 0) };

    const LENGTH: usize = 248;

    fn blank_record() -> Helmert {
        Helmert::zeros()
    }

    fn fields(b: &[u8]) -> Helmert {
        let body = &b[..Self::LENGTH];
        Helmert {
            flags: words::read32(body, 0),
            convention: words::read32(body, 4),
            translation: read_vec3(body, 8), // Helmert's
            xyz: read_vec3(body, 32),
            translation_rate: read_vec3(body, 56),
            dxyz: read_vec3(body, 80),
            rotation: read_vec3(body, 104),
            rxyz: read_vec3(body, 128),
            rotation_rate: read_vec3(body, 152),
            drxyz: read_vec3(body, 176),
            scale: words::number(body, 200),
            s: words::number(body, 208),
            scale_rate: words::number(body, 216),
            ds: words::number(body, 224),
            t_epoch: words::number(body, 232),
            t_obs: words::number(body, 240),
        }
    }

    fn keeps_five(self, b: &[u8]) -> bool {
        words::one_nan(b, 232) & words::one_nan(b, 240) & self.fields_in_rule()
    }

    fn breaks(self) -> Option<u32> {
        if self.lacks_convention() {
            return Some(6); // Helmert's
        }
        if self.lacks_epoch() {
            return Some(7);
        }
        None
    }
}

impl Body for Cart {
    ghost LENGTH = { 8 };

    ghost blank_record = { blank_of };

    ghost held = { cart_of };

    ghost written = { λ b. eqb (word32 b 4) 0 };

    ghost in_rule = { cart_in_rule_of };

    ghost later = { λ r. 0 };

    const LENGTH: usize = 8;

    fn blank_record() -> Cart {
        Cart::blank()
    }

    fn fields(b: &[u8]) -> Cart {
        Cart {
            ellipsoid: words::read32(b, 0),
        }
    }

    fn keeps_five(self, b: &[u8]) -> bool {
        (words::read32(b, 4) == 0) & self.in_rule()
    }

    fn breaks(self) -> Option<u32> {
        None
    }
}

impl Body for Molodensky {
    ghost LENGTH = { 56 };

    ghost blank_record = { blank_molodensky };

    ghost held = { molodensky_of };

    ghost written = { λ b. eqb (word32 b 12) 0 };

    ghost in_rule = { molodensky_in_rule_of };

    ghost later = { λ r. 0 };

    const LENGTH: usize = 56;

    fn blank_record() -> Molodensky {
        Molodensky::blank()
    }

    fn fields(b: &[u8]) -> Molodensky {
        let body = &b[..Self::LENGTH];
        Molodensky {
            flags: words::read32(body, 0),
            first: words::read32(body, 4),
            second: words::read32(body, 8),
            dx: words::number(body, 16),
            dy: words::number(body, 24),
            dz: words::number(body, 32),
            da: words::number(body, 40),
            df: words::number(body, 48),
        }
    }

    fn keeps_five(self, b: &[u8]) -> bool {
        (words::read32(b, 12) == 0) & self.in_rule()
    }

    fn breaks(self) -> Option<u32> {
        None
    }
}

impl Body for Permtide {
    ghost LENGTH = { 24 };

    ghost blank_record = { blank_permtide };

    ghost held = { permtide_of };

    ghost written = { λ b. eqb (word32 b 12) 0 };

    ghost in_rule = { permtide_in_rule_of };

    ghost later = { λ r. 0 };

    const LENGTH: usize = 24;

    fn blank_record() -> Permtide {
        Permtide::blank()
    }

    fn fields(b: &[u8]) -> Permtide {
        let body = &b[..Self::LENGTH];
        Permtide {
            ellipsoid: words::read32(body, 0),
            to: words::read32(body, 4),
            from: words::read32(body, 8),
            k: words::number(body, 16),
        }
    }

    fn keeps_five(self, b: &[u8]) -> bool {
        (words::read32(b, 12) == 0) & self.in_rule()
    }

    fn breaks(self) -> Option<u32> {
        None
    }
}

impl Body for Deformation {
    ghost LENGTH = { 24 };

    ghost blank_record = { blank_deformation };

    ghost held = { deformation_of };

    ghost written = { λ b. one_nan_at b 8 && one_nan_at b 16 };

    ghost in_rule = { deformation_in_rule_of };

    ghost later = { λ r. cond (neither_of r) 8 0 };

    const LENGTH: usize = 24;

    fn blank_record() -> Deformation {
        Deformation::blank()
    }

    fn fields(b: &[u8]) -> Deformation {
        let body = &b[..Self::LENGTH];
        Deformation {
            flags: words::read32(body, 0),
            ellipsoid: words::read32(body, 4),
            dt: words::number(body, 8),
            epoch: words::number(body, 16),
        }
    }

    fn keeps_five(self, b: &[u8]) -> bool {
        words::one_nan(b, 8) & words::one_nan(b, 16) & self.in_rule()
    }

    fn breaks(self) -> Option<u32> {
        if self.lacks_duration() {
            return Some(8);
        }
        None
    }
}

impl Body for Badekas {
    ghost LENGTH = { 88 };

    ghost blank_record = { blank_badekas };

    ghost held = { badekas_of };

    ghost written = { λ b. true };

    ghost in_rule = { badekas_in_rule_of };

    ghost later = { λ r. cond (badekas_lacks_convention_of r) 6 0 };

    const LENGTH: usize = 88;

    fn blank_record() -> Badekas {
        Badekas::blank()
    }

    fn fields(b: &[u8]) -> Badekas {
        let body = &b[..Self::LENGTH];
        Badekas {
            flags: words::read32(body, 0),
            convention: words::read32(body, 4),
            translation: read_vec3(body, 8),
            rotation: read_vec3(body, 32),
            scale: words::number(body, 56),
            pivot: read_vec3(body, 64),
        }
    }

    fn keeps_five(self, b: &[u8]) -> bool {
        self.fields_in_rule()
    }

    fn breaks(self) -> Option<u32> {
        if self.lacks_convention() {
            return Some(6);
        }
        None
    }
}

// ----- reading ---------------------------------------------------------------------------

// The record of a body whose kind is known, with no step made of it. A body of another length than
// its kind's reads as the blank record.
pub fn read_helmert(b: &[u8]) -> Helmert
    ensures { result ≡ helmert_in b.now }
{
    read(b)
}

pub fn read_cart(b: &[u8]) -> Cart
    ensures { result ≡ cart_in b.now }
{
    read(b)
}

pub fn read_molodensky(b: &[u8]) -> Molodensky
    ensures { result ≡ molodensky_in b.now }
{
    read(b)
}

pub fn read_permtide(b: &[u8]) -> Permtide
    ensures { result ≡ permtide_in b.now }
{
    read(b)
}

pub fn read_deformation(b: &[u8]) -> Deformation
    ensures { result ≡ deformation_in b.now }
{
    read(b)
}

pub fn read_badekas(b: &[u8]) -> Badekas
    ensures { result ≡ badekas_in b.now }
{
    read(b)
}

// The step that a body holds. A body of another length than its kind's, or of no kind, reads as the
// blank cart step.
pub fn read_body(kind: u32, b: &[u8]) -> Step
    ensures { result ≡ step_of kind b.now }
{
    if b.len() != words::wide(length_of(kind)) {
        return blank_step();
    }
    match kind {
        1 => Step::Helmert(Helmert::fields(b)),
        2 => Step::Cart(Cart::fields(b)),
        3 => Step::Molodensky(Molodensky::fields(b)),
        4 => Step::Permtide(Permtide::fields(b)),
        5 => Step::Deformation(Deformation::fields(b)),
        6 => Step::Badekas(Badekas::fields(b)),
        _ => blank_step(),
    }
}

// ----- rules -----------------------------------------------------------------------------

// The matches name every kind, so that a new one is not left out.
//
// Rule 5 on a step's record.
pub fn step_in_rule(step: Step) -> bool
    ensures { result ≡ step_in_rule step }
{
    match step {
        Step::Helmert(h) => h.fields_in_rule(),
        Step::Cart(r) => r.in_rule(),
        Step::Molodensky(r) => r.in_rule(),
        Step::Permtide(r) => r.in_rule(),
        Step::Deformation(r) => r.in_rule(),
        Step::Badekas(r) => r.fields_in_rule(),
    }
}

// Rule 6: rotated, convention none.
pub fn lacks_convention(step: Step) -> bool
    ensures { result ≡ lacks_convention step }
{
    match step {
        Step::Helmert(h) => h.lacks_convention(),
        Step::Badekas(r) => r.lacks_convention(),
        Step::Cart(_) | Step::Molodensky(_) | Step::Permtide(_) | Step::Deformation(_) => false,
    }
}

// Rule 7: dynamic, t_epoch not given.
pub fn lacks_epoch(step: Step) -> bool
    ensures { result ≡ lacks_epoch step }
{
    match step {
        Step::Helmert(h) => h.lacks_epoch(),
        Step::Cart(_)
        | Step::Molodensky(_)
        | Step::Permtide(_)
        | Step::Deformation(_)
        | Step::Badekas(_) => false,
    }
}

// Rule 8: neither dt nor t_epoch.
pub fn lacks_duration(step: Step) -> bool
    ensures { result ≡ lacks_duration step }
{
    match step {
        Step::Deformation(r) => r.lacks_duration(),
        Step::Helmert(_)
        | Step::Cart(_)
        | Step::Molodensky(_)
        | Step::Permtide(_)
        | Step::Badekas(_) => false,
    }
}

// The lowest of rules 5 to 8 that a body breaks, where it breaks one.
pub fn lowest_broken(kind: u32, b: &[u8]) -> Option<u32>
    ensures { result ≡ some_rule (lowest_broken kind b.now) }
{
    match kind {
        1 => lowest::<Helmert>(b),
        2 => lowest::<Cart>(b),
        3 => lowest::<Molodensky>(b),
        4 => lowest::<Permtide>(b),
        5 => lowest::<Deformation>(b),
        6 => lowest::<Badekas>(b),
        _ => Some(5),
    }
}

// Rule 5 on the bytes of a body.
pub fn body_in_rule(kind: u32, b: &[u8]) -> bool
    ensures { result ≡ body_in_rule kind b.now }
{
    lowest_broken(kind, b) != Some(5)
}
