// Replays the fixed answers of the published Rust over our kernels (data/answers.bin,
// data/geographic.bin; README.md has their layout and how they were made), so that the library is
// held to them wherever it is checked, with no Rust.
//
// Every word is compared, with no tolerance: refusals, counts and the bits of every number, a NaN's
// as 7ff8000000000000. A record that differs is told by its number, from 0; then come the totals, a
// line a kind and direction of the jobs with one step, and one for the longer chains. That the
// files are read whole is seen by the totals.
#![tactic(auto)]

mod record;

ghost use Rattle.std.specs.Prelude.{◌<◌, ◌≤◌, length};

use std::io::Read;
use std::rt::Files;
use std::{fs, io};

// What a record was: its line of the report, its tuples, and in how many words it differed.
#[derive(Clone, Copy)]
struct Found {
    line: usize,
    tuples: u64,
    differences: u64,
}

// A line of the report.
#[derive(Clone, Copy)]
struct Totals {
    jobs: u64,
    tuples: u64,
    differences: u64,
}

const NOTHING: Totals = Totals {
    jobs: 0,
    tuples: 0,
    differences: 0,
};

// ----- the report ---------------------------------------------------------------------------

fn print_name(out: &impl Print, line: usize) -> io::Result<()> {
    match line / 2 {
        0 => print!(out; "  Helmert")?,
        1 => print!(out; "  cart")?,
        2 => print!(out; "  Molodensky")?,
        3 => print!(out; "  permtide")?,
        4 => print!(out; "  deformation")?,
        _ => print!(out; "  chains")?,
    }
    if line % 2 == 0 {
        print!(out; " forward: ")
    } else {
        print!(out; " inverse: ")
    }
}

fn print_totals(out: &impl Print, totals: Totals) -> io::Result<()> {
    println!(out;
        "{} jobs, {} tuples, {} differences",
        totals.jobs, totals.tuples, totals.differences
    )
}

fn print_record(out: &impl Print, number: u32, found: Found) -> io::Result<()> {
    println!(out; "record {number}: {} differences", found.differences)
}

fn print_cut_short(out: &impl Print, number: u32) -> io::Result<()> {
    println!(out; "record {number} is cut short")
}

// ----- totals, a line each ----------------------------------------------------------------------

fn added(totals: Totals, more: Totals) -> Totals {
    Totals {
        jobs: totals.jobs.wrapping_add(more.jobs),
        tuples: totals.tuples.wrapping_add(more.tuples),
        differences: totals.differences.wrapping_add(more.differences),
    }
}

// One record more.
fn counted(totals: Totals, found: Found) -> Totals {
    let more = Totals {
        jobs: 1,
        tuples: found.tuples,
        differences: found.differences,
    };
    added(totals, more)
}

fn sum(lines: &[Totals; 12]) -> Totals {
    let mut all = NOTHING;
    for &totals in lines {
        all = added(all, totals);
    }
    all
}

fn print_lines(out: &impl Print, lines: &[Totals; 12]) -> io::Result<()> {
    for (line, &totals) in lines.iter().enumerate() {
        print_name(out, line)?;
        print_totals(out, totals)?;
    }
    Ok(())
}

// ----- the files --------------------------------------------------------------------------------

// Whether the file had as many bytes left as the room has.
fn read_whole<R: Read>(file: &mut R, room: &mut [u8]) -> io::Result<bool> {
    Ok(input::read_full(file, room)? == room.len())
}

// How many records the file says it has; none where it is not of form 1.
fn record_count<R: Read>(file: &mut R) -> io::Result<u32> {
    let mut head = [0u8; 8];
    if read_whole(file, &mut head)? {
        if words::read32(&head, 0) == 1 {
            return Ok(words::read32(&head, 4));
        }
    }
    Ok(0)
}

// Closes the file; what stands after the last record is told.
fn close<R: Read + Drop>(out: &impl Print, mut file: R) -> io::Result<()> {
    let mut more = [0u8; 1];
    if read_whole(&mut file, &mut more)? {
        println!(out; "bytes after the last record")?;
    }
    Ok(())
}

// ----- answers.bin ------------------------------------------------------------------------------

// The kind of the only step, from 0, or 5 for a chain of several.
fn kind_of(job: &[u8]) -> usize
    ensures { result < 6 }
{
    if words::read32(job, 24) == 1 {
        match words::read32(job, 32) {
            1 => 0,
            2 => 1,
            3 => 2,
            4 => 3,
            5 => 4,
            _ => 5,
        }
    } else {
        5
    }
}

fn line_of(job: &[u8]) -> usize
    ensures { result < 12 }
{
    if words::read32(job, 0) == 0 {
        2 * kind_of(job)
    } else {
        2 * kind_of(job) + 1
    }
}

// A record without its lengths: the job, then its answer.
fn judged(both: &[u8], size: usize) -> Found
    requires { size ≤ length both.now }
    ensures { result.line < 12 }
{
    let job = &both[0..size];
    Found {
        line: line_of(job),
        tuples: words::read32(job, 8) as u64,
        differences: record::replay(job, &both[size..]) as u64,
    }
}

// The next bytes of the file are a record: the room is as long as it. None where the file ends
// too soon.
fn judged_in<R: Read>(file: &mut R, room: &mut [u8], size: usize) -> io::Result<Option<Found>>
    requires { size ≤ length room.old }
{
    if read_whole(file, room)? {
        return Ok(Some(judged(room, size)));
    }
    Ok(None)
}

// A record's two lengths, and then the record.
fn job_into<R: Read>(file: &mut R, room: &mut [u8]) -> io::Result<Option<Found>> {
    let mut head = [0u8; 8];
    if read_whole(file, &mut head)? {
        let size = words::read32(&head, 0) as usize;
        let end = size + words::read32(&head, 4) as usize;
        if end <= room.len() {
            return judged_in(file, &mut room[0..end], size);
        }
    }
    Ok(None)
}

fn next_job<R: Read>(file: &mut R) -> io::Result<Option<Found>> {
    let mut room = [0u8; 4096];
    job_into(file, &mut room)
}

fn replay_jobs<R: Read>(
    out: &impl Print,
    file: &mut R,
    count: u32,
    lines: &mut [Totals; 12],
) -> io::Result<()> {
    for number in 0..count {
        match next_job(file)? {
            Some(found) => {
                if found.differences != 0 {
                    print_record(out, number, found)?;
                }
                if let Some(totals) = lines.get_mut(found.line) {
                    *totals = counted(*totals, found);
                }
            }
            None => return print_cut_short(out, number),
        }
    }
    Ok(())
}

fn replay_answers(rt: &(impl Files + Print)) -> io::Result<()> {
    let mut lines = [NOTHING; 12];
    let mut file = fs::open(rt, "answers.bin")?;
    let count = record_count(&mut file)?;
    replay_jobs(rt, &mut file, count, &mut lines)?;
    close(rt, file)?;
    print!(rt; "answers.bin: ")?;
    print_totals(rt, sum(&lines))?;
    print_lines(rt, &lines)
}

// ----- geographic.bin ---------------------------------------------------------------------------

// A tuple of `geographic`, which belongs to no line.
fn next_place<R: Read>(file: &mut R) -> io::Result<Option<Found>> {
    let mut place = [0u8; 72];
    if read_whole(file, &mut place)? {
        return Ok(Some(Found {
            line: 0,
            tuples: 1,
            differences: record::place(&place) as u64,
        }));
    }
    Ok(None)
}

// The totals of the places that the file has.
fn replay_places<R: Read>(out: &impl Print, file: &mut R, count: u32) -> io::Result<Totals> {
    let mut totals = NOTHING;
    for number in 0..count {
        match next_place(file)? {
            Some(found) => {
                if found.differences != 0 {
                    print_record(out, number, found)?;
                }
                totals = counted(totals, found);
            }
            None => {
                print_cut_short(out, number)?;
                return Ok(totals);
            }
        }
    }
    Ok(totals)
}

fn replay_geographic(rt: &(impl Files + Print)) -> io::Result<()> {
    let mut file = fs::open(rt, "geographic.bin")?;
    let count = record_count(&mut file)?;
    let totals = replay_places(rt, &mut file, count)?;
    close(rt, file)?;
    println!(rt;
        "geographic.bin: {} tuples, {} differences",
        totals.tuples, totals.differences
    )
}

fn main(rt: HostRuntime) -> io::Result<()> {
    replay_answers(&rt)?;
    replay_geographic(&rt)
}
