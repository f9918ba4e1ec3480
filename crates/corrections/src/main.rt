// Corrections replayed: kept runs in every mode, corrected at random, beside fresh runs of the
// corrected list.
//
// Document 01, "Kept run", and demand 3, by running. Each case is a random sheet of one Helmert
// step, a random list (0 to 2,048 fixes; times NaN, equal, -0, of any bits) and six corrections one
// after another (index 0, last, past the end, any). After each, list, results and track are
// compared in every bit with those of a fresh run of the list that this program itself corrected,
// and the count with the stretch that the document's words define on the two tracks: from the index
// up to the first fix after which the new track equals the old one, else to the end. Prints a line
// a mode, and how many comparisons parted.
#![tactic(auto)]

ghost use Rattle.std.specs.Prelude.{◌≡◌, ◌<◌, ◌≤◌, length};
ghost use Rattle.corrections.specs.Room.{Roomy};

use blocks::one_if;
use sheet::Refusal;
use std::{fmt, io};
use tuple::Tuple;

// ----- chance ----------------------------------------------------------------------------------

// A linear congruence modulo 2^32; its upper bits are drawn from.
fn next(seed: usize) -> usize
    ensures { result < 4294967296 }
{
    (seed % 4294967296 * 1664525 + 1013904223) % 4294967296
}

// Any of the 2^64 patterns.
fn any_bits(seed: usize) -> f64 {
    floats::of_bits((seed % 4294967296 * 4294967296 + next(seed)) as u64)
}

// 2^22 to 2^23 metres.
fn metres(seed: usize) -> f64 {
    floats::of_bits((seed % 4294967296 * 1048576 + 0x4150_0000_0000_0000) as u64)
}

fn coordinate(seed: usize) -> f64 {
    match seed / 65536 % 8 {
        0 => any_bits(next(seed)),
        1 => -0.0,
        _ => metres(next(seed)),
    }
}

fn time(seed: usize) -> f64 {
    match seed / 65536 % 16 {
        0 => 0.0 / 0.0,
        1 => 0.0,
        2 => -0.0,
        3 | 4 | 5 => 2000.0,
        6 | 7 | 8 | 9 => 2001.0,
        10 | 11 => 2002.0,
        12 => 2000.5,
        13 => 2010.0,
        14 => any_bits(next(seed)),
        _ => 1999.25,
    }
}

// A year's half at a time, and no other: T goes on growing, and a correction is redone far.
fn calm_time(seed: usize) -> f64 {
    match seed / 65536 % 4 {
        0 => 2000.0,
        1 => 2001.0,
        2 => 2000.5,
        _ => 2002.0,
    }
}

fn fix_of(seed: usize) -> Tuple {
    let a = next(seed);
    let b = next(a);
    Tuple {
        x: coordinate(seed),
        y: coordinate(a),
        z: coordinate(b),
        t: time(next(b)),
    }
}

// The first, the last, one past the last, or any.
fn index_of(seed: usize, fixes: usize) -> usize {
    if fixes == 0 {
        return 0;
    }
    match seed / 65536 % 8 {
        0 => 0,
        1 => fixes - 1,
        2 => fixes,
        _ => next(seed) / 65536 % fixes,
    }
}

// ----- a sheet of one Helmert step ---------------------------------------------------------------

#[derive(Clone, Copy, PartialEq, Eq)]
enum Mode {
    Static,
    Fixed,
    OwnEpoch,
    Running,
}

impl fmt::Display for Mode {
    fn fmt<W: fmt::Write>(&self, f: &mut fmt::Formatter<W>) -> fmt::Result {
        f.write_str(match self {
            Mode::Static => "static",
            Mode::Fixed => "fixed",
            Mode::OwnEpoch => "own-epoch",
            Mode::Running => "running",
        })
    }
}

fn flags(mode: Mode, exact: bool, seed: usize) -> usize
    ensures { result < 16 }
{
    let units = 2 * (seed / 65536 % 4);
    let own_epoch = match mode {
        Mode::Static | Mode::Fixed => seed / 262144 % 2,
        Mode::OwnEpoch => 1,
        Mode::Running => 0,
    };
    one_if(exact) + units + 8 * own_epoch
}

// Header, directory, flags and convention.
fn word(mode: Mode, exact: bool, seed: usize, k: usize) -> usize
    ensures { result < 281 }
{
    match k {
        1 => 280,
        3 => 16,
        5 => seed / 65536 % 2,
        6 => 32,
        7 => 248,
        8 => flags(mode, exact, seed),
        9 => seed / 131072 % 2 + 1,
        _ => 1,
    }
}

fn parameter(seed: usize) -> f64 {
    match seed / 65536 % 8 {
        0 => 0.0,
        1 => -0.0,
        2 => 1.0,
        3 => -1.0,
        4 => 0.5,
        5 => 2.0,
        6 => -0.25,
        _ => metres(next(seed)) / 4194304.0,
    }
}

// A rate: none in a static sheet; one of dx is never zero in the others.
fn rate(mode: Mode, seed: usize, j: usize) -> f64 {
    if mode == Mode::Static {
        return 0.0;
    }
    if j == 9 {
        return 1.0;
    }
    parameter(seed)
}

// The number at a body's place: translation, xyz, their rates, rotation, rxyz, their rates, the
// scales, t_epoch, t_obs.
fn number(mode: Mode, seed: usize, j: usize) -> f64 {
    match j {
        6 | 7 | 8 | 9 | 10 | 11 | 18 | 19 | 20 | 21 | 22 | 23 | 26 | 27 => rate(mode, seed, j),
        28 => if seed / 65536 % 4 == 0 { -0.0 } else { 2000.0 },
        29 => if mode == Mode::Fixed {
            2010.0
        } else {
            0.0 / 0.0
        },
        _ => parameter(seed),
    }
}

fn write_words(s: &mut [u8], mode: Mode, exact: bool, seed: usize) {
    for k in 0..10 {
        words::put32(s, 4 * k, word(mode, exact, seed, k) as u32);
    }
}

fn write_numbers(s: &mut [u8], mode: Mode, start: usize) {
    let mut seed = start;
    for j in 0..30 {
        words::put_number(s, 40 + 8 * j, number(mode, seed, j));
        seed = next(seed);
    }
}

// ----- lists -------------------------------------------------------------------------------------

fn listed(seed: usize, calm: bool) -> Tuple {
    let mut fix = fix_of(seed);
    if calm {
        fix.t = calm_time(next(seed));
    }
    fix
}

fn fill(list: &mut [f64], start: usize, calm: bool) {
    let mut seed = start;
    for i in 0..list.len() / 4 {
        lists::write4(list, 4 * i, listed(seed, calm));
        seed = next(next(next(next(seed))));
    }
}

fn put(list: &mut [f64], index: usize, fix: Tuple) {
    if index < list.len() / 4 {
        lists::write4(list, 4 * index, fix);
    }
}

fn same4(v: Tuple, w: Tuple) -> bool {
    floats::same(v.x, w.x)
        & (floats::same(v.y, w.y) & (floats::same(v.z, w.z) & floats::same(v.t, w.t)))
}

// How many tuples of two lists differ in a bit.
fn differing(a: &[f64], b: &[f64]) -> usize {
    let mut n = 0usize;
    for i in 0..a.len() / 4 {
        let same = same4(lists::read4(a, 4 * i), lists::read4(b, 4 * i));
        n = n.wrapping_add(one_if(!same));
    }
    n
}

// The stretch by the words: from the index up to the first fix after which the new track equals the
// old one, else to the end.
fn stretch(new: &[f64], old: &[f64], index: usize) -> usize {
    let fixes = new.len() / 4;
    for i in index..fixes {
        if same4(lists::read4(new, 4 * i), lists::read4(old, 4 * i)) {
            return i - index + 1;
        }
    }
    fixes.saturating_sub(index)
}

// ----- a correction --------------------------------------------------------------------------------

// The chance to go on with, and what was seen: corrections taken, refused, fixes redone, stretches
// longer than one fix, comparisons that parted.
#[derive(Clone, Copy)]
struct Tally {
    seed: usize,
    taken: usize,
    refused: usize,
    redone: usize,
    longer: usize,
    parted: usize,
}

// Index below the count: taken, and redone by the stretch. Else refused by 14.
fn judged(
    was: Tally,
    fixes: usize,
    index: usize,
    answer: Result<u64, Refusal>,
    right: usize,
    apart: usize,
) -> Tally {
    let here = index < fixes;
    let wanted = if here {
        Ok(right as u64)
    } else {
        Err(Refusal::of_call(14))
    };
    let wrong = one_if(answer != wanted);
    Tally {
        seed: next(next(next(next(next(was.seed))))),
        taken: was.taken.wrapping_add(one_if(here)),
        refused: was.refused.wrapping_add(one_if(!here)),
        redone: was.redone.wrapping_add(right),
        longer: was.longer.wrapping_add(one_if(1 < right)),
        parted: was.parted.wrapping_add(wrong).wrapping_add(apart),
    }
}

// The corrected run beside the fresh one.
fn compared(
    list: &[f64],
    own: &[f64],
    results: &[f64],
    track: &[f64],
    old: &[f64],
    fresh_results: &[f64],
    fresh_track: &[f64],
    index: usize,
    answer: Result<u64, Refusal>,
    again: Result<(), Refusal>,
    was: Tally,
) -> Tally {
    let apart = differing(list, own)
        .wrapping_add(differing(results, fresh_results))
        .wrapping_add(differing(track, fresh_track))
        .wrapping_add(one_if(again.is_err()));
    judged(
        was,
        list.len() / 4,
        index,
        answer,
        stretch(fresh_track, old, index),
        apart,
    )
}

fn one(
    inverse: bool,
    s: &[u8],
    list: &mut [f64],
    own: &mut [f64],
    results: &mut [f64],
    track: &mut [f64],
    old: &mut [f64],
    fresh_results: &mut [f64],
    fresh_track: &mut [f64],
    was: Tally,
) -> Tally
    requires { length old.old ≡ length track.old }
{
    let index = index_of(was.seed, list.len() / 4);
    let fix = fix_of(next(was.seed));
    old.copy_from_slice(track);
    put(own, index, fix);
    let answer = kept::correct(inverse, s, list, results, track, index, fix);
    let again = kept::keep(inverse, s, own, fresh_results, fresh_track);
    compared(
        list,
        own,
        results,
        track,
        old,
        fresh_results,
        fresh_track,
        index,
        answer,
        again,
        was,
    )
}

// ----- a case: a sheet, a list, six corrections ------------------------------------------------------

fn several(
    inverse: bool,
    s: &[u8],
    list: &mut [f64],
    own: &mut [f64],
    results: &mut [f64],
    track: &mut [f64],
    old: &mut [f64],
    fresh_results: &mut [f64],
    fresh_track: &mut [f64],
    was: Tally,
) -> Tally
    requires { length old.old ≡ length track.old }
{
    let mut now = was;
    for _ in 0..6 {
        now = one(
            inverse,
            s,
            list,
            own,
            results,
            track,
            old,
            fresh_results,
            fresh_track,
            now,
        );
    }
    now
}

// Results and track hold anything before the first run.
fn case(
    mode: Mode,
    exact: bool,
    inverse: bool,
    calm: bool,
    s: &mut [u8],
    list: &mut [f64],
    own: &mut [f64],
    results: &mut [f64],
    track: &mut [f64],
    old: &mut [f64],
    fresh_results: &mut [f64],
    fresh_track: &mut [f64],
    was: Tally,
) -> Tally
    requires { length old.old ≡ length track.old }
{
    let seed = was.seed;
    write_words(s, mode, exact, seed);
    write_numbers(s, mode, next(seed));
    fill(list, seed, calm);
    fill(own, seed, calm);
    let first = kept::keep(inverse, s, list, results, track);
    let mut now = was;
    now.parted = was.parted.wrapping_add(one_if(first.is_err()));
    several(
        inverse,
        s,
        list,
        own,
        results,
        track,
        old,
        fresh_results,
        fresh_track,
        now,
    )
}

// What case k of 960 runs: four modes, small-angle and exact, forward and inverse.
fn mode_of(k: usize) -> Mode {
    match k / 240 {
        0 => Mode::Static,
        1 => Mode::Fixed,
        2 => Mode::OwnEpoch,
        _ => Mode::Running,
    }
}

fn is_exact(k: usize) -> bool {
    k / 120 % 2 == 1
}

fn is_inverse(k: usize) -> bool {
    k / 60 % 2 == 1
}

// How many numbers the list of case k of a mode has.
fn size(k: usize) -> usize
    ensures { result ≤ 8192 }
{
    if k % 30 == 29 {
        return 8192;
    }
    4 * (k % 12)
}

// Case k of 960, in buffers for the longest list: sixty of a mode, the last thirty of them calm.
fn cut(
    k: usize,
    s: &mut [u8],
    list: &mut [f64],
    own: &mut [f64],
    results: &mut [f64],
    track: &mut [f64],
    old: &mut [f64],
    fresh_results: &mut [f64],
    fresh_track: &mut [f64],
    was: Tally,
) -> Tally
    requires { Roomy list.old own.old results.old track.old old.old fresh_results.old fresh_track.old }
{
    let m = size(k % 60);
    case(
        mode_of(k),
        is_exact(k),
        is_inverse(k),
        30 <= k % 60,
        s,
        &mut list[..m],
        &mut own[..m],
        &mut results[..m],
        &mut track[..m],
        &mut old[..m],
        &mut fresh_results[..m],
        &mut fresh_track[..m],
        was,
    )
}

// ----- every mode ---------------------------------------------------------------------------------------

fn print_form(out: &impl Print, exact: bool, inverse: bool) -> io::Result<()> {
    if exact {
        print!(out; "exact, ")?;
    } else {
        print!(out; "small-angle, ")?;
    }
    if inverse {
        print!(out; "inverse: ")
    } else {
        print!(out; "forward: ")
    }
}

fn print_tally(out: &impl Print, t: Tally) -> io::Result<()> {
    print!(out; "{} corrected, ", t.taken)?;
    print!(out; "{} fixes redone, ", t.redone)?;
    print!(out; "{} times more than one; ", t.longer)?;
    println!(out; "{} refused", t.refused)
}

fn begun(seed: usize, parted: usize) -> Tally {
    Tally {
        seed,
        taken: 0,
        refused: 0,
        redone: 0,
        longer: 0,
        parted,
    }
}

// After the last case of a mode its line, and a new count.
fn told(out: &impl Print, k: usize, t: Tally) -> io::Result<Tally> {
    if k % 60 == 59 {
        print!(out; "{}, ", mode_of(k))?;
        print_form(out, is_exact(k), is_inverse(k))?;
        print_tally(out, t)?;
        return Ok(begun(t.seed, t.parted));
    }
    Ok(t)
}

// Four modes, small-angle and exact, forward and inverse: how many comparisons parted.
fn replayed(
    out: &impl Print,
    s: &mut [u8],
    list: &mut [f64],
    own: &mut [f64],
    results: &mut [f64],
    track: &mut [f64],
    old: &mut [f64],
    fresh_results: &mut [f64],
    fresh_track: &mut [f64],
) -> io::Result<usize>
    requires { Roomy list.old own.old results.old track.old old.old fresh_results.old fresh_track.old }
{
    let mut now = begun(1, 0);
    for k in 0..960 {
        now = told(
            out,
            k,
            cut(
                k,
                s,
                list,
                own,
                results,
                track,
                old,
                fresh_results,
                fresh_track,
                now,
            ),
        )?;
    }
    Ok(now.parted)
}

fn main(rt: HostRuntime) -> io::Result<()> {
    let mut s = [0u8; 280];
    let mut list = [0.0; 8192];
    let mut own = [0.0; 8192];
    let mut results = [1.0; 8192];
    let mut track = [1.0; 8192];
    let mut old = [0.0; 8192];
    let mut fresh_results = [0.0; 8192];
    let mut fresh_track = [0.0; 8192];
    let parted = replayed(
        &rt,
        &mut s,
        &mut list,
        &mut own,
        &mut results,
        &mut track,
        &mut old,
        &mut fresh_results,
        &mut fresh_track,
    )?;
    println!(rt; "{parted} parted")
}
