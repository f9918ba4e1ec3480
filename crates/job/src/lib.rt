// A job, as the program reads it: direction, sheet, tuples, velocities and marks from bytes.
//
// Document 01, "Program". A job is four words, the sheet, the tuples (four numbers each), the
// velocities (three numbers each) and a mark for each velocity, then the end; docs/FORMAT.md has it
// byte by byte. Any other bytes are 16, and no other rule is looked at before that. Every function
// answers for every input: past the end a byte reads as 0. Exact: a number's bits become the
// number, every NaN the one NaN. Used by `answer`.
#![tactic(auto)]

ghost use Rattle.std.specs.Prelude.{◌≡◌, ◌<◌, length};
ghost use Rattle.job.specs.Job.{head_of, tuples_at, velocities_at, marks_at, end_at, refusal16, numbers_of};

// The four words in front, raw: rule 16 judges the direction as the number that it is.
#[derive(Clone, Copy)]
pub struct Head {
    pub direction: u32,
    pub sheet: u32,
    pub tuples: u32,
    pub velocities: u32,
}

pub fn read_head(job: &[u8]) -> Head
    ensures { result ≡ head_of job.now }
{
    Head {
        direction: words::read32(job, 0),
        sheet: words::read32(job, 4),
        tuples: words::read32(job, 8),
        velocities: words::read32(job, 12),
    }
}

// Where the tuples begin, and the sheet ends.
pub fn tuples_at(head: Head) -> usize
    ensures { (result ≡ tuples_at head) × (result < 4294967312) }
{
    16 + words::wide(head.sheet)
}

pub fn velocities_at(head: Head) -> usize
    ensures { (result ≡ velocities_at head) × (result < 141733920784) }
{
    tuples_at(head) + 32 * words::wide(head.tuples)
}

pub fn marks_at(head: Head) -> usize
    ensures { (result ≡ marks_at head) × (result < 244813135888) }
{
    velocities_at(head) + 24 * words::wide(head.velocities)
}

// Rule 16, over the four words and how many bytes there are.
pub fn is_bad(head: Head, bytes: usize) -> bool
    ensures { result ≡ refusal16 head bytes }
{
    let end = marks_at(head) + words::wide(head.velocities);
    (1 < head.direction)
        | (4240 < head.sheet)
        | (512 < head.tuples)
        | !((head.velocities == 0) | (head.velocities == head.tuples))
        | (bytes != end)
}

// Fills a list with the numbers that some bytes are, eight bytes each.
pub fn numbers(bytes: &[u8], list: &mut [f64])
    ensures { list.new ≡ numbers_of (length list.old) bytes.now }
{
    for (i, x) in list.iter_mut().enumerate() {
        *x = words::number(bytes, 8 * i);
    }
}
