// A closure: a sheet's chain forward, then inverse, over a list, added to a report.
//
// Document 02, A14: "Add a report that runs a chain forward, then inverse, over many lists." One
// call takes one list; the report rolls from call to call. The list is only read: both runs go
// through the start of a lent room, which holds the list as it came back when the call is done. The
// sheet is judged by a profile where one is asked for (crate profile), the list and what is lent
// for it by the chain's own rules 9 and 10, or 9, 10, 17 and 18 with a velocity grid (document 02,
// A1), and 15 comes last. What is answered and what the room
// holds is specs/Closure.antt's for every input (proved); nothing is written before the last test
// has passed. proofs/Laws.antt has which refusal is given when, and that many calls give the report
// of all their lists. No rounding but the steps' own and the report's differences. Used by the
// exported library and the program closure.
#![tactic(auto)]

ghost use Rattle.std.specs.Prelude.{◌≡◌, false, ◌≤◌, length};
ghost use Rattle.sheet.specs.Layout.{step_count_of, kind_at};
ghost use Rattle.sheet.specs.Rules.{has_deformation, refusal_of, unless};
ghost use Rattle.grid_rules.specs.Rules.{check_grid_of};
ghost use Rattle.chain.specs.Rules.{refusal9, refusal10};
ghost use Rattle.chain.specs.Grid.{refusal10_with_grid};
ghost use Rattle.closure_report.specs.Report.{added_of};
ghost use Rattle.closure_run.specs.Closure.{there_and_back_of, closure_refusal_of, handed_out, closure_of};
ghost use Rattle.closure_run.specs.Grid.{grid_there_and_back_of, closure_grid_refusal_of, closure_grid_of};

use closure_report::Report;
use sheet::Refusal;

// Whether a call is in rule, by the lengths of list and room.
fn judge(
    profile: u32,
    s: &[u8],
    numbers: usize,
    room: usize,
    velocities: &[f64],
    marks: &[u8],
) -> Result<(), Refusal>
    ensures { result ≡ unless (closure_refusal_of profile s.now numbers room velocities.now marks.now) tt }
{
    profile::check(s, profile)?;
    if chain::list_broken(numbers) {
        return Err(Refusal::of_call(9)); // the list
    }
    if chain::lent_broken(chain::has_deformation(s), numbers, velocities, marks) {
        return Err(Refusal::of_call(10));
    }
    if room < numbers {
        return Err(Refusal::of_call(15));
    }
    Ok(())
}

// A list's numbers into a room as long.
fn copy(from: &[f64], to: &mut [f64])
    requires { length to.old ≡ length from.now }
    ensures { to.new ≡ from.now }
{
    for i in 0..from.len() {
        to[i] = from[i];
    }
}

// A list forward and then inverse, in place. Neither way is refused where the rules are kept.
fn there_and_back(s: &[u8], list: &mut [f64], velocities: &[f64], marks: &[u8])
    requires { ((refusal_of s.now).number ≡ 0) × (refusal9 (length list.old) ≡ false)
        × (refusal10 (has_deformation (kind_at s.now) (step_count_of s.now)) (length list.old) velocities.now marks.now ≡ false) }
    ensures { list.new ≡ there_and_back_of s.now velocities.now marks.now list.old }
{
    let _ = chain::shift(false, s, list, velocities, marks);
    let _ = chain::shift(true, s, list, velocities, marks);
}

// A list added to a report, in a room as long as the list.
fn close(
    report: Report,
    s: &[u8],
    list: &[f64],
    room: &mut [f64],
    velocities: &[f64],
    marks: &[u8],
) -> Report
    requires { ((refusal_of s.now).number ≡ 0) × (refusal9 (length list.now) ≡ false)
        × (refusal10 (has_deformation (kind_at s.now) (step_count_of s.now)) (length list.now) velocities.now marks.now ≡ false)
        × (length room.old ≡ length list.now) }
    ensures { (room.new ≡ there_and_back_of s.now velocities.now marks.now list.now)
        × (result ≡ added_of report list.now (there_and_back_of s.now velocities.now marks.now list.now)) }
{
    copy(list, room); // the list as it was
    there_and_back(s, room, velocities, marks);
    closure_report::add(report, list, room)
}

// Adds a list to a report. The room is at least as long as the list.
pub fn closure(
    report: Report,
    profile: u32,
    s: &[u8],
    list: &[f64],
    room: &mut [f64],
    velocities: &[f64],
    marks: &[u8],
) -> Result<Report, Refusal>
    ensures { (result ≡ handed_out (closure_of report profile s.now list.now room.old velocities.now marks.now).answer)
        × (room.new ≡ (closure_of report profile s.now list.now room.old velocities.now marks.now).room) }
{
    judge(profile, s, list.len(), room.len(), velocities, marks)?;
    let n = list.len();
    let added = close(report, s, list, &mut room[..n], velocities, marks);
    Ok(added) // with the list
}

// ----- with a velocity grid ---------------------------------------------------------------------

// Whether a call with a grid is in rule.
fn judge_grid(
    profile: u32,
    s: &[u8],
    numbers: usize,
    room: usize,
    velocities: &[f64],
    marks: &[u8],
    grid: &[u8],
) -> Result<(), Refusal>
    ensures { result ≡ unless (closure_grid_refusal_of profile s.now numbers room velocities.now marks.now grid.now) tt }
{
    profile::check(s, profile)?;
    if chain::list_broken(numbers) {
        return Err(Refusal::of_call(9));
    }
    if chain::lent_broken(false, 0, velocities, marks) {
        return Err(Refusal::of_call(10));
    }
    if let Err(number) = grid_rules::check_grid(grid) {
        return Err(Refusal::of_call(number));
    }
    if room < numbers {
        return Err(Refusal::of_call(15));
    }
    Ok(())
}

// A list forward and then inverse, in place, with a grid.
fn grid_there_and_back(s: &[u8], list: &mut [f64], velocities: &[f64], marks: &[u8], grid: &[u8])
    requires { ((refusal_of s.now).number ≡ 0) × (refusal9 (length list.old) ≡ false) × (refusal10_with_grid velocities.now marks.now ≡ false) × (check_grid_of grid.now ≡ 0) }
    ensures { list.new ≡ grid_there_and_back_of s.now velocities.now marks.now grid.now list.old }
{
    let _ = chain::shift_grid(false, s, list, velocities, marks, grid);
    let _ = chain::shift_grid(true, s, list, velocities, marks, grid);
}

// A list added to a report, in a room as long as the list, with a grid.
fn grid_close(
    report: Report,
    s: &[u8],
    list: &[f64],
    room: &mut [f64],
    velocities: &[f64],
    marks: &[u8],
    grid: &[u8],
) -> Report
    requires { ((refusal_of s.now).number ≡ 0) × (refusal9 (length list.now) ≡ false) × (refusal10_with_grid velocities.now marks.now ≡ false) × (check_grid_of grid.now ≡ 0)
        × (length room.old ≡ length list.now) }
    ensures { (room.new ≡ grid_there_and_back_of s.now velocities.now marks.now grid.now list.now)
        × (result ≡ added_of report list.now (grid_there_and_back_of s.now velocities.now marks.now grid.now list.now)) }
{
    copy(list, room);
    grid_there_and_back(s, room, velocities, marks, grid);
    closure_report::add(report, list, room)
}

// Adds a list to a report, deformation by a velocity grid. The room is at least as long as the list.
pub fn closure_grid(
    report: Report,
    profile: u32,
    s: &[u8],
    list: &[f64],
    room: &mut [f64],
    velocities: &[f64],
    marks: &[u8],
    grid: &[u8],
) -> Result<Report, Refusal>
    ensures { (result ≡ handed_out (closure_grid_of report profile s.now list.now room.old velocities.now marks.now grid.now).answer)
        × (room.new ≡ (closure_grid_of report profile s.now list.now room.old velocities.now marks.now grid.now).room) }
{
    judge_grid(profile, s, list.len(), room.len(), velocities, marks, grid)?;
    let n = list.len();
    let added = grid_close(report, s, list, &mut room[..n], velocities, marks, grid);
    Ok(added)
}
