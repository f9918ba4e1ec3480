// A display: a job on standard input, a drawing of its fixes on standard output, as SVG.
//
// Document 02, A7: the display draws from four columns, not from tuples. The job's fixes are taken
// apart into columns once, as they are read. The columns are lent to `chain::shift_columns`, and
// circles are drawn from the first and the second column as they stand: hollow where a fix came
// from, full where it is then. Each axis has its own scale, from the least to the greatest number
// of its column. A place that is not finite is not drawn. A refused job is told as the program
// `shift` tells it. An example of the columns entry: what is proved of it is that it ends, and that
// it reads and writes nothing out of place.
#![tactic(auto)]

ghost use Rattle.std.specs.Prelude.{◌≡◌, ◌<◌, ◌≤◌, length};
ghost use Rattle.job.specs.Job.{marks_at};

use job::Head;
use sheet::Refusal;
use std::io;

// ----- columns of a job -----------------------------------------------------------------------

// Number k of each tuple. Rows past the tuples hold other bytes of the job, and are never lent.
fn column(tuples: &[u8], k: usize) -> [f64; 512]
    requires { k < 4 }
    ensures { 512 ≡ length result }
{
    let mut c = [0.0; 512];
    for (i, x) in c.iter_mut().enumerate() {
        *x = words::number(tuples, 32 * i + 8 * k);
    }
    c
}

// ----- the scale of an axis -------------------------------------------------------------------

// The numbers at the axis's beginning and end.
#[derive(Clone, Copy)]
struct Axis {
    begin: f64,
    end: f64,
}

// An axis that takes in every finite number of a column too; a NaN is no edge yet.
fn widened(axis: Axis, column: &[f64]) -> Axis {
    let mut wide = axis;
    for &v in column {
        if floats::is_finite(v) {
            if !(wide.begin <= v) {
                wide.begin = v;
            }
            if !(v <= wide.end) {
                wide.end = v;
            }
        }
    }
    wide
}

// From the least number of two columns to the greatest.
fn axis_of(before: &[f64], after: &[f64]) -> Axis {
    let none = Axis {
        begin: 0.0 / 0.0,
        end: 0.0 / 0.0,
    };
    widened(widened(none, before), after)
}

// The pixel of a number of the axis, from 20 to 620; an axis of one number has it in the middle.
// The sum with 2^52 rounds to a whole number, which its bits end with.
fn pixel(axis: Axis, v: f64) -> u64 {
    let whole = axis.end - axis.begin;
    if whole == 0.0 {
        return 320;
    }
    let part = (v - axis.begin) / whole;
    floats::to_bits(600.0 * part + 20.0 + 4503599627370496.0) % 1024
}

// ----- SVG ------------------------------------------------------------------------------------

fn put_field(room: &mut [u8], at: usize, name: &[u8], n: u64) -> usize {
    let p = text::put_bytes(room, at, name);
    let q = text::put_decimal(room, p, n);
    text::put_bytes(room, q, b"\"")
}

fn put_circle(room: &mut [u8], at: usize, x: u64, y: u64, style: &[u8]) -> usize {
    let p = put_field(room, at, b"<circle cx=\"", x);
    let q = put_field(room, p, b" cy=\"", y);
    text::put_bytes(room, q, style)
}

// A circle for a fix whose place is finite.
fn put_fix(
    room: &mut [u8],
    at: usize,
    x: f64,
    y: f64,
    across: Axis,
    down: Axis,
    style: &[u8],
) -> usize {
    if floats::is_finite(x) & floats::is_finite(y) {
        return put_circle(room, at, pixel(across, x), pixel(down, y), style);
    }
    at
}

// The same for each fix of two columns.
fn put_fixes(
    room: &mut [u8],
    at: usize,
    x: &[f64],
    y: &[f64],
    across: Axis,
    down: Axis,
    style: &[u8],
) -> usize {
    let mut p = at;
    for (&x, &y) in x.iter().zip(y) {
        p = put_fix(room, p, x, y, across, down, style);
    }
    p
}

fn put_picture(room: &mut [u8], x0: &[f64], y0: &[f64], x: &[f64], y: &[f64]) -> usize
    ensures { result ≤ length room.new }
{
    let across = axis_of(x0, x);
    let up = axis_of(y0, y);
    let down = Axis {
        begin: up.end, // the greatest latitude is drawn on top
        end: up.begin,
    };
    let a = text::put_bytes(
        room,
        0,
        b"<svg xmlns=\"http://www.w3.org/2000/svg\" width=\"640\" height=\"640\">\n",
    );
    let b = put_fixes(
        room,
        a,
        x0,
        y0,
        across,
        down,
        b" r=\"4\" fill=\"none\" stroke=\"grey\"/>\n",
    );
    let c = put_fixes(room, b, x, y, across, down, b" r=\"3\" fill=\"navy\"/>\n");
    text::put_bytes(room, c, b"</svg>\n")
}

// ----- the job --------------------------------------------------------------------------------

// A job's sheet over its fixes, in columns.
fn shift(
    job: &[u8],
    head: Head,
    x: &mut [f64],
    y: &mut [f64],
    z: &mut [f64],
    t: &mut [f64],
) -> Result<(), Refusal>
    requires { (marks_at head ≤ length job.now) × (head.velocities ≤ 512) }
{
    let a = job::tuples_at(head);
    let b = job::velocities_at(head);
    let c = job::marks_at(head);
    let m = 3 * words::wide(head.velocities);
    let mut velocities = [0.0; 1536];
    job::numbers(&job[b..], &mut velocities);
    chain::shift_columns(
        head.direction == 1,
        &job[16..a],
        x,
        y,
        z,
        t,
        &velocities[..m],
        &job[c..],
    )?;
    Ok(())
}

// The job's n fixes where they came from, and where their columns have them then.
fn draw(room: &mut [u8], job: &[u8], head: Head, n: usize) -> usize
    requires { (marks_at head ≤ length job.now) × (head.velocities ≤ 512) × (n ≤ 512) }
    ensures { result ≤ length room.new }
{
    let a = job::tuples_at(head);
    let x0 = column(&job[a..], 0);
    let y0 = column(&job[a..], 1);
    let mut x = x0;
    let mut y = y0;
    let mut z = column(&job[a..], 2);
    let mut t = column(&job[a..], 3);
    match shift(
        job,
        head,
        &mut x[..n],
        &mut y[..n],
        &mut z[..n],
        &mut t[..n],
    ) {
        Ok(()) => put_picture(room, &x0[..n], &y0[..n], &x[..n], &y[..n]),
        Err(refusal) => report::refused(room, 0, refusal.number, refusal.step),
    }
}

fn display(job: &[u8], room: &mut [u8]) -> usize
    ensures { result ≤ length room.new }
{
    let head = job::read_head(job);
    if job::is_bad(head, job.len()) {
        return report::refused(room, 0, 16, 0);
    }
    draw(room, job, head, words::wide(head.tuples))
}

fn main(rt: HostRuntime) -> io::Result<()> {
    let mut job = [0u8; 65536];
    let n = input::read_full(&mut rt.stdin(), &mut job)?;
    let mut room = [0u8; 65536];
    let m = display(&job[..n], &mut room);
    rt.write_all(&room[..m])
}
