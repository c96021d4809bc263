// Reading a whole input into a room: std's `read_to_end` fills a Vec, and nothing allocates here.
ghost use Rattle.std.specs.Prelude.{◌<◌, IfOk, length, take};
ghost use Rattle.std.specs.Io.KnownBytes.{Consumes, IsAtEnd};
ghost use Rattle.test_text.specs.Lines.{Fits};

use std::io;
use std::io::Read;

// Reads until the room is full or the input ends, and returns how many bytes were read. They are the input's, where a contract knows
// these: a slice's, not the system's.
pub fn read_full<R: Read>(input: &mut R, room: &mut [u8]) -> io::Result<usize>
    ensures fits { IfOk result (Fits room.new) }
    ensures bytes { IfOk result (λ n. Consumes (R.remaining input.old) (R.remaining input.new) (take n room.new)) }
    ensures end { IfOk result (λ n. n < length room.new → IsAtEnd (R.remaining input.new)) }
{
    // A `while`, since each read says how far it came.
    let mut done: usize = 0;
    while done < room.len() {
        let n = input.read(&mut room[done..])?;
        if n == 0 {
            break;
        }
        done += n;
    }
    Ok(done)
}
