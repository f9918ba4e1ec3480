// The closure report and the profiles as C links them: document 02, A14.
//
// Three functions, part of libsillfeather.a; include/sillfeather.h says what each reads, writes,
// refuses and leaves alone. A result of 0 is done; otherwise it is the refusal's number plus 65536
// times the step. Nothing is computed here: the work is closure_run's and profile's, and the
// contracts say what their definitions say, in the numbers that C passes.
#![tactic(auto)]

ghost use Rattle.std.specs.Prelude.{◌≡◌};
ghost use Rattle.codes.specs.Codes.{code_of};
ghost use Rattle.profile.specs.Profile.{profile_refusal_of};
ghost use Rattle.closure_entries.specs.Told.{closure_told, closure_in_c, closure_grid_in_c};

// Judges a sheet by the reader's rules and by a profile: 0 none, 1 the chart's.
#[unsafe(no_mangle)]
pub extern "C" fn sillfeather_check_profile(s: &[u8], profile: u32) -> u32
    ensures { result ≡ code_of (profile_refusal_of profile s.now) }
{
    codes::answer(profile::check(s, profile))
}

// Runs a sheet forward and then inverse over a list, and adds it to a report.
#[unsafe(no_mangle)]
pub extern "C" fn sillfeather_closure(
    report: &mut [u64; 16],
    profile: u32,
    s: &[u8],
    list: &[f64],
    room: &mut [f64],
    velocities: &[f64],
    marks: &[u8],
) -> u32
    ensures { closure_told result report.new room.new
        ≡ closure_in_c report.old profile s.now list.now room.old velocities.now marks.now }
{
    let before = closure_report::of_numbers(report);
    match closure_run::closure(before, profile, s, list, room, velocities, marks) {
        Ok(after) => {
            *report = closure_report::numbers(after);
            0
        }
        Err(refusal) => codes::code(refusal),
    }
}

// The same with a velocity grid: velocities and marks are empty.
#[unsafe(no_mangle)]
pub extern "C" fn sillfeather_closure_grid(
    report: &mut [u64; 16],
    profile: u32,
    s: &[u8],
    list: &[f64],
    room: &mut [f64],
    velocities: &[f64],
    marks: &[u8],
    grid: &[u8],
) -> u32
    ensures { closure_told result report.new room.new
        ≡ closure_grid_in_c report.old profile s.now list.now room.old velocities.now marks.now grid.now }
{
    let before = closure_report::of_numbers(report);
    match closure_run::closure_grid(before, profile, s, list, room, velocities, marks, grid) {
        Ok(after) => {
            *report = closure_report::numbers(after); // with the list
            0
        }
        Err(refusal) => codes::code(refusal),
    }
}
