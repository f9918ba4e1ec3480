// One record of the fixed answers beside the library: in how many words the answer told differs
// from the one found.
//
// Each contract is that number by specs/Replay.antt, which is made of the library's own
// definitions: a record's difference is between the file and what was proved, and not an error in
// the reading of the file.
ghost use Rattle.std.specs.Prelude.{◌≡◌, ◌+◌, ◌*◌, ◌<◌, ◌≤◌, length};
ghost use Rattle.words.specs.Words.{word32};
ghost use Rattle.chain.specs.Rules.{outcome};
ghost use Rattle.vectors.specs.Replay.{differ, differing_counts, differing_numbers, numbers_of, sheet_length, tuple_count, velocity_count, marks_at, laid_out, shifted_of, answer_in, compared_of, replay_of, geographic_differing_of};

use ellipsoid::Ellipsoid;
use sheet::Refusal;
use tally::Tally;
use tuple::Tuple;

// The sheet's, the tuples' and the velocities' lengths as the job's head tells them.
fn length_at(job: &[u8], at: usize) -> usize
    ensures { (result ≡ word32 job.now at) × (result < 4294967296) }
{
    words::wide(words::read32(job, at))
}

// ----- words told and words found ---------------------------------------------------------

fn differing(found: u64, told: u64) -> usize
    ensures { (result ≡ differ found told) × (result ≤ 1) }
{
    if found == told { 0 } else { 1 }
}

fn differing_counts(s: &[u8], at: usize, counts: &[usize; 16]) -> usize
    requires { at ≤ 72 }
    ensures { (result ≡ differing_counts s.now at counts.now) × (result ≤ 16) }
{
    let mut n = 0;
    for (i, &count) in counts.iter().enumerate() {
        n += differing(
            words::long(count),
            words::wide64(words::read32(s, at + 4 * i)),
        );
    }
    n
}

fn differing_numbers(s: &[u8], at: usize, list: &[f64]) -> usize
    requires { (at ≤ 72) × (length list.now ≤ 96) }
    ensures { (result ≡ differing_numbers s.now at list.now) × (result ≤ 96) }
{
    let mut n = 0;
    for (i, &x) in list.iter().enumerate() {
        n += differing(floats::to_bits(x), words::read64(s, at + 8 * i));
    }
    n
}

// ----- a job --------------------------------------------------------------------------------

// Room for the numbers of 24 tuples.
fn room() -> [f64; 96]
    ensures { 96 ≡ length result }
{
    [0.0; 96]
}

// The list filled with the numbers from a place on.
fn fill(s: &[u8], at: usize, list: &mut [f64])
    requires { (at < 8589934592) × (length list.old ≤ 96) }
    ensures { list.new ≡ numbers_of s.now at (length list.old) }
{
    for (i, x) in list.iter_mut().enumerate() {
        *x = words::number(s, at + 8 * i);
    }
}

fn laid_out(job: &[u8], told: &[u8]) -> bool
    ensures { result ≡ laid_out job.now told.now }
{
    let tuples = length_at(job, 8);
    let lent = length_at(job, 12);
    let marks_at = 16 + length_at(job, 4) + 32 * tuples + 24 * lent;
    (words::read32(job, 0) <= 1)
        & (tuples <= 24)
        & (lent <= 24)
        & (job.len() == marks_at + lent)
        & (told.len() == 72 + 32 * tuples)
}

// The refusal, its step, the counts and the list.
fn compared_words(told: &[u8], refusal: Refusal, tallies: [Tally; 16], list: &[f64]) -> usize
    requires { length list.now ≤ 96 }
    ensures { result ≡ compared_of told.now (outcome (record { refusal = refusal; tallies = tallies }) list.now) }
{
    let counts = tally::counts(tallies);
    differing(
        words::wide64(refusal.number),
        words::wide64(words::read32(told, 0)),
    ) + differing(
        words::wide64(refusal.step),
        words::wide64(words::read32(told, 4)),
    ) + differing_counts(told, 8, &counts)
        + differing_numbers(told, 72, list)
}

// The file tells zeros where the chain has no refusal to tell, or no tallies.
fn compared(told: &[u8], answer: Result<[Tally; 16], Refusal>, list: &[f64]) -> usize
    requires { length list.now ≤ 96 }
    ensures { result ≡ compared_of told.now (outcome (answer_in answer) list.now) }
{
    match answer {
        Ok(tallies) => compared_words(told, Refusal::none(), tallies, list),
        Err(refusal) => compared_words(told, refusal, [tally::none(); 16], list),
    }
}

// The job over lent lists of its own lengths.
fn beside(job: &[u8], told: &[u8], list: &mut [f64], velocities: &mut [f64]) -> usize
    requires list_len { (length list.old ≡ 4 * tuple_count job.now) × (length velocities.old ≡ 3 * velocity_count job.now) }
    requires job_bound { (tuple_count job.now ≤ 24) × (velocity_count job.now ≤ 24) × (length job.now ≡ marks_at job.now + velocity_count job.now) }
    ensures { result ≡ compared_of told.now (shifted_of job.now) }
{
    let sheet_at = 16;
    let tuples_at = sheet_at + length_at(job, 4);
    let velocities_at = tuples_at + 8 * list.len();
    let marks_at = velocities_at + 8 * velocities.len();
    let end = marks_at + length_at(job, 12);
    fill(job, tuples_at, list);
    fill(job, velocities_at, velocities);
    let inverse = words::read32(job, 0) == 1;
    let answer = chain::shift(
        inverse,
        &job[sheet_at..tuples_at],
        list,
        velocities,
        &job[marks_at..end],
    );
    compared(told, answer, list)
}

// A job's answer as told beside the chain's.
pub fn replay(job: &[u8], told: &[u8]) -> usize
    ensures { result ≡ replay_of job.now told.now }
{
    if laid_out(job, told) {
        let numbers = 4 * length_at(job, 8);
        let speeds = 3 * length_at(job, 12);
        let mut list = room();
        let mut velocities = room();
        return beside(job, told, &mut list[..numbers], &mut velocities[..speeds]);
    }
    1
}

// ----- a place --------------------------------------------------------------------------------

// A place as told beside `geographic` of its tuple.
pub fn place(s: &[u8]) -> usize
    ensures { result ≡ geographic_differing_of s.now }
{
    let there = Tuple {
        x: words::number(s, 8),
        y: words::number(s, 16),
        z: words::number(s, 24),
        t: words::number(s, 32),
    };
    let found = geocart::geographic(Ellipsoid::named(words::read32(s, 0)), there);
    let four = [found.x, found.y, found.z, found.t];
    differing_numbers(s, 40, &four)
}
