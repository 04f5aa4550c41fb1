// What the programs do with a reader that may give less than it is asked for: a buffer is filled. `inner` answers a
// stream by its text, and asks something of that.
#![tactic(auto)]

pub mod inner; // inner.rt

ghost use Rattle.std.specs.Prelude.{◌<◌, ◌≤◌, length, take, IfOk};
ghost use Rattle.std.specs.Io.KnownBytes.{Consumes, IsAtEnd};

use std::io;
use std::io::Read;

// Reads until the bytes are full or the input ends; what was read stands at their front, and its length is returned.
pub fn read_full<R: Read>(from: &mut R, bytes: &mut [u8]) -> io::Result<usize>
    ensures room { IfOk result (λ n. n ≤ length bytes.new) }
    ensures front { IfOk result (λ n. Consumes (R.remaining from.old) (R.remaining from.new) (take n bytes.new)) }
    ensures whole { IfOk result (λ n. n < length bytes.new → IsAtEnd (R.remaining from.new)) }
{
    let mut done = 0;
    // no count: each read says how far it came
    while done < bytes.len() {
        let size = from.read(&mut bytes[done..])?;
        if size == 0 {
            return Ok(done);
        }
        done += size;
    }
    Ok(done)
}
