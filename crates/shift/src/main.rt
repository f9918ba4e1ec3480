// The program: a job on standard input, its lines on standard output.
//
// Document 01, "Program". All that is said of the lines is proved in `answer`; here the bytes are
// read and written, and nothing else. The room for the job holds more bytes than the longest job
// has, so that a longer input is told from it; the room for the text is longer than any text.
#![tactic(auto)]

use std::io;

fn main(rt: HostRuntime) -> io::Result<()> {
    let mut job = [0u8; 65536];
    let n = input::read_full(&mut rt.stdin(), &mut job)?;
    let mut room = [0u8; 65536];
    let m = answer::answer(&job[..n], &mut room);
    rt.write_all(&room[..m])
}
