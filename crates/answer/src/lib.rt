// The work of two programs, from the bytes of a job to the bytes of its text: `job` reads, `chain`
// shifts, `report` tells.
//
// Document 01, "Program"; document 02, A1. The text is fixed for every job by specs/Answer.antt, in
// a room of any length; the longest text has 35,419 bytes. A bad job is 16, before all others. A job
// with a velocity grid is a job with the grid's bytes behind it. No rounding but the steps' own.
// Used by the programs `shift` and shift_grid.
#![tactic(auto)]

ghost use Rattle.std.specs.Prelude.{◌≡◌, ◌*◌, ◌≤◌, length};
ghost use Rattle.text.specs.Text.{text, appended};
ghost use Rattle.job.specs.Job.{head_of, marks_at};
ghost use Rattle.chain.specs.Rules.{handed_out};
ghost use Rattle.answer.specs.Answer.{is_lent, grid_in, lent_shift_of, shift_text, lent_job_text, lent_answer_of, answer_of, grid_answer_of};

use job::Head;
use sheet::Refusal;
use tally::Tally;

// A sheet over a list, with the grid where one is lent.
fn shift(
    grid: Option<&[u8]>,
    inverse: bool,
    s: &[u8],
    list: &mut [f64],
    velocities: &[f64],
    marks: &[u8],
) -> Result<[Tally; 16], Refusal>
    ensures { (result ≡ handed_out (lent_shift_of (is_lent grid.entry) (grid_in grid.entry) inverse s.now list.old velocities.now marks.now).answer)
        × (list.new ≡ (lent_shift_of (is_lent grid.entry) (grid_in grid.entry) inverse s.now list.old velocities.now marks.now).list) }
{
    match grid {
        Some(grid) => chain::shift_grid(inverse, s, list, velocities, marks, grid),
        None => chain::shift(inverse, s, list, velocities, marks),
    }
}

// The same, told. The list is the caller's to drop.
fn told(
    room: &mut [u8],
    grid: Option<&[u8]>,
    inverse: bool,
    s: &[u8],
    list: &mut [f64],
    velocities: &[f64],
    marks: &[u8],
) -> usize
    ensures { text room.new result ≡ appended (text room.old 0) (shift_text (is_lent grid.entry) (grid_in grid.entry) inverse s.now list.old velocities.now marks.now) }
{
    match shift(grid, inverse, s, list, velocities, marks) {
        Ok(tallies) => {
            let counts = tally::counts(tallies);
            let mets = tally::mets(tallies);
            report::ran(room, 0, sheet::step_count(s), &counts, &mets, list)
        }
        Err(refusal) => report::refused(room, 0, refusal.number, refusal.step),
    }
}

// A job's sheet over its list, in lists as long as its words say.
fn shifted(
    room: &mut [u8],
    grid: Option<&[u8]>,
    job: &[u8],
    head: Head,
    list: &mut [f64],
    velocities: &mut [f64],
) -> usize
    requires { (head ≡ head_of job.now) × (marks_at head ≤ length job.now) × (length list.old ≡ 4 * head.tuples) × (length velocities.old ≡ 3 * head.velocities) }
    ensures { text room.new result ≡ appended (text room.old 0) (lent_job_text (is_lent grid.entry) (grid_in grid.entry) job.now) }
{
    let a = job::tuples_at(head);
    let b = job::velocities_at(head);
    let c = job::marks_at(head);
    job::numbers(&job[a..], list);
    job::numbers(&job[b..], velocities);
    told(
        room,
        grid,
        head.direction == 1,
        &job[16..a],
        list,
        velocities,
        &job[c..],
    )
}

// Room for the tuples of a job, and for its velocities.
fn zeros() -> [f64; 2048]
    ensures { 2048 ≡ length result }
{
    [0.0; 2048]
}

fn answered(grid: Option<&[u8]>, job: &[u8], room: &mut [u8]) -> usize
    ensures { text room.new result ≡ appended (text room.old 0) (lent_answer_of (is_lent grid.entry) (grid_in grid.entry) job.now) }
{
    let head = job::read_head(job);
    if job::is_bad(head, job.len()) {
        return report::refused(room, 0, 16, 0);
    }
    let mut list = zeros();
    let mut velocities = zeros();
    let n = 4 * words::wide(head.tuples);
    let m = 3 * words::wide(head.velocities);
    shifted(room, grid, job, head, &mut list[..n], &mut velocities[..m])
}

pub fn answer(job: &[u8], room: &mut [u8]) -> usize
    ensures { text room.new result ≡ appended (text room.old 0) (answer_of job.now) }
{
    answered(None, job, room)
}

// A job, and a velocity grid from the job's end on.
pub fn answer_grid(bytes: &[u8], room: &mut [u8]) -> usize
    ensures { text room.new result ≡ appended (text room.old 0) (grid_answer_of bytes.now) }
{
    let head = job::read_head(bytes);
    let end = job::marks_at(head) + words::wide(head.velocities);
    if bytes.len() < end {
        return report::refused(room, 0, 16, 0);
    }
    answered(Some(&bytes[end..]), &bytes[..end], room)
}
