// The program: a damaged sheet on standard input; on standard output each word that was changed, by
// its name with the old number and the new one, and the mended sheet with every field; or the
// refusal in words. Started with a word behind its name, as `sheet_rescue bytes`, it writes the
// mended sheet's bytes and nothing else, and nothing where it is refused.
//
// All that is said of the text is proved in `rescue_text`; here the bytes are read and written, and
// nothing else. The room for the damaged sheet holds more bytes than the longest sheet has, so that
// a longer input is told from it; room and list of the rescue are never too short, and the room for
// the text is longer than any text of a sheet.
#![tactic(auto)]

use std::env::FillError;
use std::io;
use std::rt::Env;

// Whether a word stands behind the program's name, be it of no letters.
fn has_word(rt: &impl Env) -> bool {
    let mut word = [0u8; 1];
    !matches!(rt.arg(1, &mut word), Err(FillError::NotPresent))
}

fn main(rt: HostRuntime) -> io::Result<()> {
    let mut damaged = [0u8; 65536];
    let n = input::read_full(&mut rt.stdin(), &mut damaged)?;
    let mut sheet = [0u8; 65536];
    let mut list = [0u32; 105];
    if has_word(&rt) {
        let m = rescue_text::mend(&damaged[..n], &mut sheet, &mut list);
        rt.write_all(&sheet[..m])
    } else {
        let mut room = [0u8; 65536];
        let m = rescue_text::answer(&damaged[..n], &mut sheet, &mut list, &mut room);
        rt.write_all(&room[..m])
    }
}
