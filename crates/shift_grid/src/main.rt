// The program: a job and a velocity grid behind it on standard input, its lines on standard output.
//
// Document 02, A1; docs/FORMAT.md has the bytes. All that is said of the lines is proved in
// `answer`; here the bytes are read and written, and nothing else. The room for the bytes holds one
// more than the longest job and the longest grid have, so that a longer input is told from them by
// the grid's length, rule 17; the room for the text is longer than any text.
#![tactic(auto)]

use std::io;

fn main(rt: HostRuntime) -> io::Result<()> {
    let mut bytes = [0u8; 131785];
    let n = input::read_full(&mut rt.stdin(), &mut bytes)?;
    let mut room = [0u8; 65536];
    let m = answer::answer_grid(&bytes[..n], &mut room);
    rt.write_all(&room[..m])
}
