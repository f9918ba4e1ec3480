// The program: a job on standard input, the closure report of its sheet over its list on standard
// output, as a page that a mate reads and compares between boxes; or the refusal in words. Started
// with a word behind its name, `closure chart`, it judges the sheet by the chart profile too.
//
// Document 02, A14. All that is said of the page is proved in `closure_answer`; here the bytes are
// read and written, and nothing else. The room for the job holds more bytes than the longest job
// has, so that a longer input is told from it; the room for the page is longer than any page. A
// word of more than 16 letters is no profile's: its first ones are not compared.
#![tactic(auto)]

use std::io;
use std::rt::Env;

fn main(rt: HostRuntime) -> io::Result<()> {
    let mut word = [0u8; 16];
    let w = rt.arg(1, &mut word).unwrap_or(0);
    let mut job = [0u8; 65536];
    let n = input::read_full(&mut rt.stdin(), &mut job)?;
    let mut room = [0u8; 65536];
    let m = closure_answer::answer(&word[..w], &job[..n], &mut room);
    rt.write_all(&room[..m])
}
