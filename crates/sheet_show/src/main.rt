// The program: a sheet on standard input; on standard output every field by its name and in its
// unit, or the refusal in words with the step and the place.
//
// All that is said of the text is proved in `show`; here the bytes are read and written, and
// nothing else. The room for the sheet holds more bytes than the longest sheet has, so that a
// longer input is told from it; the room for the text is longer than any text of a sheet.
#![tactic(auto)]

use std::io;

fn main(rt: HostRuntime) -> io::Result<()> {
    let mut sheet = [0u8; 65536];
    let n = input::read_full(&mut rt.stdin(), &mut sheet)?;
    let mut room = [0u8; 65536];
    let m = show::put_sheet(&mut room, 0, &sheet[..n]);
    rt.write_all(&room[..m])
}
