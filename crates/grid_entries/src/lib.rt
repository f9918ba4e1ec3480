// The C entries for a velocity grid (document 02, A1).
//
// `sillfeather_check_grid` tells whether a grid's bytes are in rule: 0, or 17 or 18. It carries no
// step. `sillfeather_shift_grid` shifts a list by a sheet and a grid: a result of 0 is done;
// otherwise it is the refusal's number plus 65536 times the step, and nothing was written but zeros
// where numbers are asked for. include/sillfeather.h says to C what the contracts say here; its
// `out_of_reach` is called `met`, because a name with an underscore reads badly in a contract.
// Nothing is computed here.
#![tactic(auto)]

ghost use Rattle.std.specs.Prelude.{◌≡◌};
ghost use Rattle.grid_rules.specs.Rules.{check_grid_of};
ghost use Rattle.chain.specs.Grid.{shift_grid_of};
ghost use Rattle.codes.specs.Codes.{is_inverse};
ghost use Rattle.grid_entries.specs.Codes.{grid_told, grid_told_of};

// 0 where the grid is in rule, else the refusal's number.
#[unsafe(no_mangle)]
pub extern "C" fn sillfeather_check_grid(grid: &[u8]) -> u32
    ensures { result ≡ check_grid_of grid.now }
{
    match grid_rules::check_grid(grid) {
        Ok(()) => 0,
        Err(number) => number,
    }
}

// A sheet over a list with a velocity grid, in place: forward where inverse is 0, else inverse.
// `counts` and `met` get each step's numbers in the sheet's order, 0 in the other places.
#[unsafe(no_mangle)]
pub extern "C" fn sillfeather_shift_grid(
    inverse: u32,
    s: &[u8],
    list: &mut [f64],
    velocities: &[f64],
    marks: &[u8],
    grid: &[u8],
    counts: &mut [u32; 16],
    met: &mut [u32; 16],
) -> u32
    ensures { grid_told result counts.new met.new list.new
        ≡ grid_told_of (shift_grid_of (is_inverse inverse) s.now list.old velocities.now marks.now grid.now) }
{
    match chain::shift_grid(inverse != 0, s, list, velocities, marks, grid) {
        Ok(tallies) => {
            *counts = codes::narrow(tally::counts(tallies));
            *met = codes::narrow(tally::mets(tallies));
            0
        }
        Err(refusal) => {
            *counts = [0; 16];
            *met = [0; 16];
            codes::code(refusal)
        }
    }
}
