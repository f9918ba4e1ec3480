// The work of the program closure, from the bytes of a job to the bytes of its page: `job` reads,
// `closure_run` runs, `closure_page` tells.
//
// Document 02, A14. The job is the one that the program `shift` reads; its list is added to an
// empty report, forward and then inverse, whichever direction the job asks for. A word asks for a
// profile. The page is fixed for every job and word by specs/Answer.antt, in a room of any length
// (proved). A bad job is 16, before all others. Used by the program closure.
#![tactic(auto)]

ghost use Rattle.std.specs.Prelude.{◌≡◌, ◌*◌, ◌≤◌, length, replicate};
ghost use Rattle.floats.specs.Binary64.{bits};
ghost use Rattle.text.specs.Text.{text, appended};
ghost use Rattle.job.specs.Job.{head_of, marks_at};
ghost use Rattle.closure_answer.specs.Answer.{closure_text, job_text, answer_of};

use job::Head;

// A sheet over a list, told.
fn told(
    room: &mut [u8],
    profile: u32,
    s: &[u8],
    list: &[f64],
    back: &mut [f64],
    velocities: &[f64],
    marks: &[u8],
) -> usize
    ensures { text room.new result ≡ appended (text room.old 0) (closure_text profile s.now list.now back.old velocities.now marks.now) }
{
    let none = closure_report::empty();
    match closure_run::closure(none, profile, s, list, back, velocities, marks) {
        Ok(report) => {
            let angles = closure_page::takes_angles(sheet::kind_at(s, 0), sheet::inverted_at(s, 0));
            closure_page::put_page(room, 0, angles, report)
        }
        Err(refusal) => closure_page::put_refused(room, 0, refusal.number, refusal.step),
    }
}

// A job's sheet over its list, in lists as long as its words say. The like of it in `answer` lends
// no room to come back in: one function for both would take the run as a closure, and its contract.
fn closed(
    room: &mut [u8],
    profile: u32,
    job: &[u8],
    head: Head,
    list: &mut [f64],
    back: &mut [f64],
    velocities: &mut [f64],
) -> usize
    requires { (head ≡ head_of job.now) × (marks_at head ≤ length job.now) × (length list.old ≡ 4 * head.tuples) × (length velocities.old ≡ 3 * head.velocities)
        × (back.old ≡ replicate 2048 (bits 0)) }
    ensures { text room.new result ≡ appended (text room.old 0) (job_text profile job.now) }
{
    let a = job::tuples_at(head);
    let b = job::velocities_at(head);
    let c = job::marks_at(head);
    job::numbers(&job[a..], list);
    job::numbers(&job[b..], velocities);
    told(
        room,
        profile,
        &job[16..a],
        list,
        back,
        velocities,
        &job[c..],
    )
}

// Room for the tuples of a job, for what comes back of them, and for its velocities.
fn zeros() -> [f64; 2048]
    ensures { (result ≡ replicate 2048 (bits 0)) × (2048 ≡ length result) }
{
    [0.0; 2048]
}

pub fn answer(word: &[u8], job: &[u8], room: &mut [u8]) -> usize
    ensures { text room.new result ≡ appended (text room.old 0) (answer_of word.now job.now) }
{
    let profile = closure_page::profile_asked(word);
    let head = job::read_head(job);
    if job::is_bad(head, job.len()) {
        return closure_page::put_refused(room, 0, 16, 0);
    }
    let mut list = zeros();
    let mut back = zeros();
    let mut velocities = zeros();
    let n = 4 * words::wide(head.tuples);
    let m = 3 * words::wide(head.velocities);
    closed(
        room,
        profile,
        job,
        head,
        &mut list[..n],
        &mut back,
        &mut velocities[..m],
    )
}
