// A program's input, read into a room of a fixed length.
#![tactic(auto)]

ghost use Rattle.std.specs.Prelude.{◌≤◌, ◌<◌, length, take, IfOk};
ghost use Rattle.std.specs.Io.KnownBytes.{Consumes, IsAtEnd};

use std::io;
use std::io::Read;

// Reads until the room is full or the input ends, and answers how many bytes it put at the room's
// start. They are the reader's next bytes, and a room that is not full has all of them.
pub fn read_full<R: Read>(reader: &mut R, room: &mut [u8]) -> io::Result<usize>
    ensures within { IfOk result (λ n. n ≤ length room.new) }
    ensures bytes { IfOk result (λ n. Consumes (R.remaining reader.old) (R.remaining reader.new) (take n room.new)) }
    ensures all { IfOk result (λ n. n < length room.new → IsAtEnd (R.remaining reader.new)) }
{
    let mut done = 0;
    // A read gives as many bytes as it likes, so no range counts the turns.
    while done < room.len() {
        let n = reader.read(&mut room[done..])?;
        if n == 0 {
            return Ok(done);
        }
        done += n;
    }
    Ok(done)
}
