// The entries that tell how many tuples met an angle out of reach, and the entries over columns, as C
// and Rust link them: each only hands over to a proved entry, and keeps its contract.
//
// Document 02, A5 and A7. A result of 0 is done; otherwise it is the refusal's number plus 65536
// times the step, and nothing was written but zeros where numbers are asked for.
// include/sillfeather.h says of each function what it reads, writes, refuses and leaves alone. The
// entries that came before stay as they are, in crate sillfeather. The header's `out_of_reach` is
// called `met` here, because a name with an underscore reads badly in a contract. Nothing is computed
// here.
#![tactic(auto)]

ghost use Rattle.std.specs.Prelude.{◌≡◌};
ghost use Rattle.columns.specs.Columns.{columns};
ghost use Rattle.chain.specs.Rules.{shift_of};
ghost use Rattle.chain.specs.Columns.{shift_columns_of};
ghost use Rattle.stretch.specs.Kept.{kept_of};
ghost use Rattle.stretch.specs.KeptColumns.{kept_columns};
ghost use Rattle.arrays.specs.Arrays.{tuple_of};
ghost use Rattle.kept.specs.Entries.{keep_refusal_of, keep_of, correct_of};
ghost use Rattle.kept_columns.specs.Columns.{keep_columns_refusal_of, keep_columns_of, correct_columns_of};
ghost use Rattle.kept_reach.specs.Reach.{keep_tally_of, stretch_met_of};
ghost use Rattle.kept_columns_reach.specs.Reach.{keep_columns_tally_of, stretch_columns_met_of};
ghost use Rattle.codes.specs.Codes.{code_of, is_inverse};
ghost use Rattle.trig.specs.Trig.{angle_of};
ghost use Rattle.reach_entries.specs.Codes.{sine_told, sine_told_of, shift_told, shift_told_of, columns_told, columns_told_of, correct_told, correct_told_of, correct_columns_told, correct_columns_told_of};

// ----- sine and cosine -------------------------------------------------------------------------

// The pair of numbers and 0, or 1 for an angle out of reach, and nothing is written.
#[unsafe(no_mangle)]
pub extern "C" fn sillfeather_sin_cos_reach(x: f64, s: &mut f64, c: &mut f64) -> u32
    ensures { sine_told result s.new c.new ≡ sine_told_of (angle_of x) s.old c.old }
{
    match trig::sin_cos(x) {
        Some(p) => {
            *s = p.s;
            *c = p.c;
            0
        }
        None => 1,
    }
}

// ----- a sheet over a list ---------------------------------------------------------------------

// A sheet over a list, as sillfeather_shift. `counts` and `met` get each step's numbers in the
// sheet's order, 0 in the other places.
#[unsafe(no_mangle)]
pub extern "C" fn sillfeather_shift_reach(
    inverse: u32,
    s: &[u8],
    list: &mut [f64],
    velocities: &[f64],
    marks: &[u8],
    counts: &mut [u32; 16],
    met: &mut [u32; 16],
) -> u32
    ensures { shift_told result counts.new met.new list.new
        ≡ shift_told_of (shift_of (is_inverse inverse) s.now list.old velocities.now marks.now) }
{
    match chain::shift(inverse != 0, s, list, velocities, marks) {
        Ok(tallies) => {
            *counts = codes::narrow(tally::counts(tallies));
            *met = codes::narrow(tally::mets(tallies));
            0
        }
        Err(refusal) => {
            *counts = [0; 16];
            *met = [0; 16];
            codes::code(refusal)
        }
    }
}

// A sheet over four columns, in place: forward where inverse is 0, else inverse.
#[unsafe(no_mangle)]
pub extern "C" fn sillfeather_shift_columns(
    inverse: u32,
    s: &[u8],
    x: &mut [f64],
    y: &mut [f64],
    z: &mut [f64],
    t: &mut [f64],
    velocities: &[f64],
    marks: &[u8],
    counts: &mut [u32; 16],
    met: &mut [u32; 16],
) -> u32
    ensures { columns_told result counts.new met.new (columns x.new y.new z.new t.new)
        ≡ columns_told_of (shift_columns_of (is_inverse inverse) s.now (columns x.old y.old z.old t.old) velocities.now marks.now) }
{
    match chain::shift_columns(inverse != 0, s, x, y, z, t, velocities, marks) {
        Ok(tallies) => {
            *counts = codes::narrow(tally::counts(tallies));
            *met = codes::narrow(tally::mets(tallies));
            0
        }
        Err(refusal) => {
            *counts = [0; 16];
            *met = [0; 16];
            codes::code(refusal)
        }
    }
}

// ----- the kept run ----------------------------------------------------------------------------

// A fresh kept run, as sillfeather_keep. `counted` and `met` get the step's numbers, 0 on refusal.
#[unsafe(no_mangle)]
pub extern "C" fn sillfeather_keep_reach(
    inverse: u32,
    s: &[u8],
    list: &[f64],
    results: &mut [f64],
    track: &mut [f64],
    counted: &mut u64,
    met: &mut u64,
) -> u32
    ensures { (result ≡ code_of (keep_refusal_of s.now (kept_of list.now results.old track.old)))
        × (counted.new ≡ (keep_tally_of (is_inverse inverse) s.now (kept_of list.now results.old track.old)).count)
        × (met.new ≡ (keep_tally_of (is_inverse inverse) s.now (kept_of list.now results.old track.old)).met)
        × (kept_of list.now results.new track.new
        ≡ keep_of (is_inverse inverse) s.now (kept_of list.now results.old track.old)) }
{
    match kept_reach::keep_reach(inverse != 0, s, list, results, track) {
        Ok(tally) => {
            *counted = tally.count as u64;
            *met = tally.met as u64;
            0
        }
        Err(refusal) => {
            *counted = 0;
            *met = 0;
            codes::code(refusal)
        }
    }
}

// Corrects one fix, as sillfeather_correct. `met` gets how many of the fixes that were redone met
// an angle out of reach.
#[unsafe(no_mangle)]
pub extern "C" fn sillfeather_correct_reach(
    inverse: u32,
    s: &[u8],
    list: &mut [f64],
    results: &mut [f64],
    track: &mut [f64],
    index: usize,
    fix: &[f64; 4],
    redone: &mut u64,
    met: &mut u64,
) -> u32
    ensures { (correct_told result redone.new (kept_of list.new results.new track.new)
        ≡ correct_told_of (correct_of (is_inverse inverse) s.now (kept_of list.old results.old track.old) index (tuple_of fix.now)))
        × (met.new ≡ stretch_met_of (is_inverse inverse) s.now (kept_of list.old results.old track.old) index (tuple_of fix.now)) }
{
    let fix = arrays::tuple_of(fix);
    match kept_reach::correct_reach(inverse != 0, s, list, results, track, index, fix) {
        Ok(fixes) => {
            *redone = fixes.redone;
            *met = fixes.met;
            0
        }
        Err(refusal) => {
            *redone = 0;
            *met = 0;
            codes::code(refusal)
        }
    }
}

// ----- the kept run over columns ---------------------------------------------------------------

// A fresh kept run over columns: reads the list's, writes those of the results and the track.
#[unsafe(no_mangle)]
pub extern "C" fn sillfeather_keep_columns(
    inverse: u32,
    s: &[u8],
    x: &[f64],
    y: &[f64],
    z: &[f64],
    t: &[f64],
    rx: &mut [f64],
    ry: &mut [f64],
    rz: &mut [f64],
    rt: &mut [f64],
    kx: &mut [f64],
    ky: &mut [f64],
    kz: &mut [f64],
    kt: &mut [f64],
) -> u32
    ensures { (result ≡ code_of (keep_columns_refusal_of s.now (kept_columns (columns x.now y.now z.now t.now)
        (columns rx.old ry.old rz.old rt.old)
        (columns kx.old ky.old kz.old kt.old))))
        × (kept_columns (columns x.now y.now z.now t.now)
        (columns rx.new ry.new rz.new rt.new)
        (columns kx.new ky.new kz.new kt.new)
        ≡ keep_columns_of (is_inverse inverse) s.now (kept_columns (columns x.now y.now z.now t.now)
        (columns rx.old ry.old rz.old rt.old)
        (columns kx.old ky.old kz.old kt.old))) }
{
    codes::answer(kept_columns::keep(inverse != 0, s, x, y, z, t, rx, ry, rz, rt, kx, ky, kz, kt))
}

// The same, telling as sillfeather_keep_reach does.
#[unsafe(no_mangle)]
pub extern "C" fn sillfeather_keep_columns_reach(
    inverse: u32,
    s: &[u8],
    x: &[f64],
    y: &[f64],
    z: &[f64],
    t: &[f64],
    rx: &mut [f64],
    ry: &mut [f64],
    rz: &mut [f64],
    rt: &mut [f64],
    kx: &mut [f64],
    ky: &mut [f64],
    kz: &mut [f64],
    kt: &mut [f64],
    counted: &mut u64,
    met: &mut u64,
) -> u32
    ensures { (result ≡ code_of (keep_columns_refusal_of s.now (kept_columns (columns x.now y.now z.now t.now)
        (columns rx.old ry.old rz.old rt.old)
        (columns kx.old ky.old kz.old kt.old))))
        × (counted.new ≡ (keep_columns_tally_of (is_inverse inverse) s.now (kept_columns (columns x.now y.now z.now t.now)
        (columns rx.old ry.old rz.old rt.old)
        (columns kx.old ky.old kz.old kt.old))).count)
        × (met.new ≡ (keep_columns_tally_of (is_inverse inverse) s.now (kept_columns (columns x.now y.now z.now t.now)
        (columns rx.old ry.old rz.old rt.old)
        (columns kx.old ky.old kz.old kt.old))).met)
        × (kept_columns (columns x.now y.now z.now t.now)
        (columns rx.new ry.new rz.new rt.new)
        (columns kx.new ky.new kz.new kt.new)
        ≡ keep_columns_of (is_inverse inverse) s.now (kept_columns (columns x.now y.now z.now t.now)
        (columns rx.old ry.old rz.old rt.old)
        (columns kx.old ky.old kz.old kt.old))) }
{
    match kept_columns_reach::keep_reach(
        inverse != 0,
        s,
        x,
        y,
        z,
        t,
        rx,
        ry,
        rz,
        rt,
        kx,
        ky,
        kz,
        kt,
    ) {
        Ok(rows) => {
            *counted = rows.count as u64;
            *met = rows.met as u64;
            0
        }
        Err(refusal) => {
            *counted = 0;
            *met = 0;
            codes::code(refusal)
        }
    }
}

// Corrects one fix of a kept run over columns; `redone` gets how many fixes were, 0 on refusal.
#[unsafe(no_mangle)]
pub extern "C" fn sillfeather_correct_columns(
    inverse: u32,
    s: &[u8],
    x: &mut [f64],
    y: &mut [f64],
    z: &mut [f64],
    t: &mut [f64],
    rx: &mut [f64],
    ry: &mut [f64],
    rz: &mut [f64],
    rt: &mut [f64],
    kx: &mut [f64],
    ky: &mut [f64],
    kz: &mut [f64],
    kt: &mut [f64],
    index: usize,
    fix: &[f64; 4],
    redone: &mut u64,
) -> u32
    ensures { correct_columns_told result redone.new (kept_columns (columns x.new y.new z.new t.new)
        (columns rx.new ry.new rz.new rt.new)
        (columns kx.new ky.new kz.new kt.new))
        ≡ correct_columns_told_of (correct_columns_of (is_inverse inverse) s.now (kept_columns (columns x.old y.old z.old t.old)
        (columns rx.old ry.old rz.old rt.old)
        (columns kx.old ky.old kz.old kt.old)) index (tuple_of fix.now)) }
{
    let fix = arrays::tuple_of(fix);
    match kept_columns::correct(
        inverse != 0,
        s,
        x,
        y,
        z,
        t,
        rx,
        ry,
        rz,
        rt,
        kx,
        ky,
        kz,
        kt,
        index,
        fix,
    ) {
        Ok(count) => {
            *redone = count;
            0
        }
        Err(refusal) => {
            *redone = 0; // a refused call redoes nothing
            codes::code(refusal)
        }
    }
}

// The same, telling as sillfeather_correct_reach does.
#[unsafe(no_mangle)]
pub extern "C" fn sillfeather_correct_columns_reach(
    inverse: u32,
    s: &[u8],
    x: &mut [f64],
    y: &mut [f64],
    z: &mut [f64],
    t: &mut [f64],
    rx: &mut [f64],
    ry: &mut [f64],
    rz: &mut [f64],
    rt: &mut [f64],
    kx: &mut [f64],
    ky: &mut [f64],
    kz: &mut [f64],
    kt: &mut [f64],
    index: usize,
    fix: &[f64; 4],
    redone: &mut u64,
    met: &mut u64,
) -> u32
    ensures { (correct_columns_told result redone.new (kept_columns (columns x.new y.new z.new t.new)
        (columns rx.new ry.new rz.new rt.new)
        (columns kx.new ky.new kz.new kt.new))
        ≡ correct_columns_told_of (correct_columns_of (is_inverse inverse) s.now (kept_columns (columns x.old y.old z.old t.old)
        (columns rx.old ry.old rz.old rt.old)
        (columns kx.old ky.old kz.old kt.old)) index (tuple_of fix.now)))
        × (met.new ≡ stretch_columns_met_of (is_inverse inverse) s.now (kept_columns (columns x.old y.old z.old t.old)
        (columns rx.old ry.old rz.old rt.old)
        (columns kx.old ky.old kz.old kt.old)) index (tuple_of fix.now)) }
{
    let fix = arrays::tuple_of(fix);
    match kept_columns_reach::correct_reach(
        inverse != 0,
        s,
        x,
        y,
        z,
        t,
        rx,
        ry,
        rz,
        rt,
        kx,
        ky,
        kz,
        kt,
        index,
        fix,
    ) {
        Ok(rows) => {
            *redone = rows.redone;
            *met = rows.met;
            0
        }
        Err(refusal) => {
            *redone = 0;
            *met = 0;
            codes::code(refusal)
        }
    }
}
