// Kept runs and their corrections over columns, beside the flat entries.
//
// Document 02, A7: the kept run over columns gives the flat one's answer on the converted lists, by
// running. Each of 320 runs is a sheet of one Helmert step, in every mode, and 72 fixes, which is
// more than a window of the flat entry takes; times are equal, go back, or are NaN. A fresh run and
// five corrections (index 0, last, past the end, any) go through both entries. After each, the
// refusal, the count and every number of list, results and track are compared bit for bit. Prints
// what was corrected, and how many comparisons parted. The program `corrections` holds the flat
// entries beside fresh runs.
#![tactic(auto)]

ghost use Rattle.std.specs.Prelude.{◌<◌, ◌≤◌};

use blocks::one_if;
use sheet::Refusal;
use std::io;
use tuple::Tuple;

// ----- chance ---------------------------------------------------------------------------------

// A linear congruence modulo 2^32; its upper bits are drawn from.
fn next(seed: usize) -> usize
    ensures { result < 4294967296 }
{
    (seed % 4294967296 * 1664525 + 1013904223) % 4294967296
}

// -0, or 2^22 to 2^23 metres.
fn coordinate(seed: usize) -> f64 {
    if seed / 65536 % 8 == 0 {
        return -0.0;
    }
    floats::of_bits((next(seed) * 1048576 + 0x4150_0000_0000_0000) as u64)
}

// Wild times are NaN or a zero now and then; calm ones let T grow, and a correction is redone far.
fn time(seed: usize, calm: bool) -> f64 {
    if calm {
        return if seed / 65536 % 2 == 0 {
            2000.5
        } else {
            2001.0
        };
    }
    match seed / 65536 % 8 {
        0 => 0.0 / 0.0,
        1 => -0.0,
        2 => 0.0,
        3 | 4 => 2000.0,
        _ => 2001.0,
    }
}

fn fix_of(seed: usize, calm: bool) -> Tuple {
    let a = next(seed);
    let b = next(a);
    Tuple {
        x: coordinate(seed),
        y: coordinate(a),
        z: coordinate(b),
        t: time(next(b), calm),
    }
}

// The first, the last, one past the last, or any of 72.
fn index_of(seed: usize) -> usize {
    match seed / 65536 % 8 {
        0 => 0,
        1 => 71,
        2 => 72,
        _ => next(seed) / 65536 % 72,
    }
}

fn fill(list: &mut [f64], start: usize, calm: bool) {
    let mut seed = start;
    for i in 0..list.len() / 4 {
        lists::write4(list, 4 * i, fix_of(seed, calm));
        seed = next(next(next(next(seed))));
    }
}

// ----- a sheet of one Helmert step ------------------------------------------------------------

fn put_words(s: &mut [u8], flags: u32) {
    words::put32(s, 0, 1);
    words::put32(s, 4, 280);
    words::put32(s, 8, 1);
    words::put32(s, 12, 16);
    words::put32(s, 16, 1);
    words::put32(s, 24, 32);
    words::put32(s, 28, 248);
    words::put32(s, 32, flags);
    words::put32(s, 36, 1);
}

// A translation, a rotation and a scale; their rates but in a static sheet; the epoch; and the time
// of a fixed sheet, else NaN.
fn put_numbers(s: &mut [u8], rate: f64, time: f64) {
    words::put_number(s, 40, 0.5);
    words::put_number(s, 112, rate);
    words::put_number(s, 144, 1.0);
    words::put_number(s, 184, rate);
    words::put_number(s, 232, 2.0);
    words::put_number(s, 248, rate);
    words::put_number(s, 264, 2000.0);
    words::put_number(s, 272, time);
}

#[derive(Clone, Copy, PartialEq, Eq)]
enum Mode {
    Static,
    Fixed,
    OwnEpoch,
    Running,
}

fn mode_of(k: usize) -> Mode {
    match k % 4 {
        0 => Mode::Static,
        1 => Mode::Fixed,
        2 => Mode::OwnEpoch,
        _ => Mode::Running,
    }
}

fn flags(mode: Mode, exact: bool) -> u32 {
    let own_epoch = if mode == Mode::OwnEpoch { 8 } else { 0 };
    if exact { own_epoch + 1 } else { own_epoch }
}

// A sheet of one step, small-angle or exact.
fn put_sheet(s: &mut [u8], mode: Mode, exact: bool) {
    put_words(s, flags(mode, exact));
    put_numbers(
        s,
        if mode == Mode::Static { 0.0 } else { 0.25 },
        if mode == Mode::Fixed {
            2010.0
        } else {
            0.0 / 0.0
        },
    );
}

// ----- columns --------------------------------------------------------------------------------

#[derive(Clone, Copy)]
struct Columns {
    x: [f64; 72],
    y: [f64; 72],
    z: [f64; 72],
    t: [f64; 72],
}

// The columns of a flat list of 72 fixes.
fn columns_of(list: &[f64]) -> Columns {
    let mut x = [0.0; 72];
    let mut y = [0.0; 72];
    let mut z = [0.0; 72];
    let mut t = [0.0; 72];
    columns::to_columns(list, &mut x, &mut y, &mut z, &mut t);
    Columns { x, y, z, t }
}

fn same4(x: f64, y: f64, z: f64, t: f64, v: Tuple) -> bool {
    floats::same(x, v.x) & (floats::same(y, v.y) & (floats::same(z, v.z) & floats::same(t, v.t)))
}

// How many rows differ in a bit from a flat list's tuples.
fn parted(c: Columns, list: &[f64]) -> usize {
    let x = c.x;
    let y = c.y;
    let z = c.z;
    let t = c.t;
    let mut n = 0usize;
    for i in 0..72 {
        let v = lists::read4(list, 4 * i);
        n = n.wrapping_add(one_if(!same4(x[i], y[i], z[i], t[i], v)));
    }
    n
}

// ----- through columns ------------------------------------------------------------------------

// A fresh run's answer and what it writes.
#[derive(Clone, Copy)]
struct Fresh {
    answer: Result<(), Refusal>,
    results: Columns,
    track: Columns,
}

fn keep(inverse: bool, s: &[u8], list: Columns) -> Fresh {
    let x = list.x;
    let y = list.y;
    let z = list.z;
    let t = list.t;
    let mut rx = [1.0; 72];
    let mut ry = [1.0; 72];
    let mut rz = [1.0; 72];
    let mut rt = [1.0; 72];
    let mut kx = [1.0; 72];
    let mut ky = [1.0; 72];
    let mut kz = [1.0; 72];
    let mut kt = [1.0; 72];
    let answer = kept_columns::keep(
        inverse, s, &x, &y, &z, &t, &mut rx, &mut ry, &mut rz, &mut rt, &mut kx, &mut ky, &mut kz,
        &mut kt,
    );
    let results = Columns {
        x: rx,
        y: ry,
        z: rz,
        t: rt,
    };
    let track = Columns {
        x: kx,
        y: ky,
        z: kz,
        t: kt,
    };
    Fresh {
        answer,
        results,
        track,
    }
}

// A correction's answer and what it leaves.
#[derive(Clone, Copy)]
struct After {
    answer: Result<u64, Refusal>,
    list: Columns,
    results: Columns,
    track: Columns,
}

fn correct(
    inverse: bool,
    s: &[u8],
    list: Columns,
    results: Columns,
    track: Columns,
    index: usize,
    fix: Tuple,
) -> After {
    let mut x = list.x;
    let mut y = list.y;
    let mut z = list.z;
    let mut t = list.t;
    let mut rx = results.x;
    let mut ry = results.y;
    let mut rz = results.z;
    let mut rt = results.t;
    let mut kx = track.x;
    let mut ky = track.y;
    let mut kz = track.z;
    let mut kt = track.t;
    let answer = kept_columns::correct(
        inverse, s, &mut x, &mut y, &mut z, &mut t, &mut rx, &mut ry, &mut rz, &mut rt, &mut kx,
        &mut ky, &mut kz, &mut kt, index, fix,
    );
    let list = Columns { x, y, z, t };
    let results = Columns {
        x: rx,
        y: ry,
        z: rz,
        t: rt,
    };
    let track = Columns {
        x: kx,
        y: ky,
        z: kz,
        t: kt,
    };
    After {
        answer,
        list,
        results,
        track,
    }
}

// ----- both -----------------------------------------------------------------------------------

// The chance to go on with, and what was seen: corrections taken, refused, fixes redone, comparisons
// that parted.
#[derive(Clone, Copy)]
struct Tally {
    seed: usize,
    taken: usize,
    refused: usize,
    redone: usize,
    parted: usize,
}

// A fresh run: how many comparisons parted.
fn keep_both(
    inverse: bool,
    s: &[u8],
    list: &[f64],
    results: &mut [f64],
    track: &mut [f64],
) -> usize {
    let columns = keep(inverse, s, columns_of(list));
    let flat = kept::keep(inverse, s, list, results, track);
    one_if(flat.is_err() | columns.answer.is_err())
        .wrapping_add(parted(columns.results, results))
        .wrapping_add(parted(columns.track, track))
}

// Both answers: the same refusal, or as many fixes redone.
fn judged(
    was: Tally,
    flat: Result<u64, Refusal>,
    columns: Result<u64, Refusal>,
    apart: usize,
) -> Tally {
    let taken = columns.is_ok();
    Tally {
        seed: next(next(next(next(next(was.seed))))),
        taken: was.taken.wrapping_add(one_if(taken)),
        refused: was.refused.wrapping_add(one_if(!taken)),
        redone: was.redone.wrapping_add(columns.unwrap_or(0) as usize),
        parted: was
            .parted
            .wrapping_add(one_if(flat != columns))
            .wrapping_add(apart),
    }
}

fn correct_both(
    inverse: bool,
    s: &[u8],
    list: &mut [f64],
    results: &mut [f64],
    track: &mut [f64],
    was: Tally,
) -> Tally {
    let index = index_of(was.seed);
    let fix = fix_of(next(was.seed), false);
    let columns = correct(
        inverse,
        s,
        columns_of(list),
        columns_of(results),
        columns_of(track),
        index,
        fix,
    );
    let flat = kept::correct(inverse, s, list, results, track, index, fix);
    let apart = parted(columns.list, list)
        .wrapping_add(parted(columns.results, results))
        .wrapping_add(parted(columns.track, track));
    judged(was, flat, columns.answer, apart)
}

fn five(
    inverse: bool,
    s: &[u8],
    list: &mut [f64],
    results: &mut [f64],
    track: &mut [f64],
    was: Tally,
) -> Tally {
    let mut now = was;
    for _ in 0..5 {
        now = correct_both(inverse, s, list, results, track, now);
    }
    now
}

// Run k of 320: the four modes, small-angle and exact, forward and inverse, wild times and calm.
fn run(k: usize, was: Tally) -> Tally {
    let inverse = k / 8 % 2 == 1;
    let mut s = [0u8; 280];
    put_sheet(&mut s, mode_of(k), k / 4 % 2 == 1);
    let mut list = [0.0; 288];
    let mut results = [1.0; 288];
    let mut track = [1.0; 288];
    fill(&mut list, was.seed, k / 16 % 2 == 1);
    let mut now = was;
    let apart = keep_both(inverse, &s, &list, &mut results, &mut track);
    now.parted = was.parted.wrapping_add(apart);
    five(inverse, &s, &mut list, &mut results, &mut track, now)
}

fn runs() -> Tally {
    let mut now = Tally {
        seed: 1,
        taken: 0,
        refused: 0,
        redone: 0,
        parted: 0,
    };
    for k in 0..320 {
        now = run(k, now);
    }
    now
}

fn main(rt: HostRuntime) -> io::Result<()> {
    let now = runs();
    print!(rt; "320 runs: {} corrected, ", now.taken)?;
    print!(rt; "{} fixes redone; ", now.redone)?;
    println!(rt; "{} refused", now.refused)?;
    println!(rt; "{} parted", now.parted)
}
