// The C entry that adds a ten-parameter step to a sheet in lent room: request A4, kind 6.
//
// It hands over to the proved `making::add`, as the entries that add the other kinds do. A result of
// 0 is done; otherwise it is the refusal's number plus 65536 times the step, and room and length are
// as they were. include/sillfeather.h says what it reads, writes, refuses and leaves alone. Nothing
// is computed here.
#![tactic(auto)]

ghost use Rattle.std.specs.Prelude.{◌≡◌};
ghost use Rattle.making.specs.Adding.{added_of};
ghost use Rattle.arrays.specs.Arrays.{badekas_of};
ghost use Rattle.badekas_entries.specs.Made.{made, made_of};

use bodies::Step;

// The ten numbers in the order of the body: translation, rotation, scale, pivot.
#[unsafe(no_mangle)]
pub extern "C" fn sillfeather_add_badekas(
    room: &mut [u8],
    len: &mut u64,
    inverted: u32,
    flags: u32,
    convention: u32,
    numbers: &[f64; 10],
) -> u32
    ensures { made result len.new room.new
        ≡ made_of (added_of room.old len.old inverted (Step.Badekas (badekas_of flags convention numbers.now))) }
{
    let step = Step::Badekas(arrays::badekas_of(flags, convention, numbers));
    match making::add(room, *len as usize, inverted, step) {
        Ok(length) => {
            *len = length as u64;
            0
        }
        Err(refusal) => codes::code(refusal),
    }
}
