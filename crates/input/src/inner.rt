// What is all of `report` and of `homing` but the text: a stream is read and answered.
ghost use Rattle.std.specs.Prelude.{◌<◌, ◌≤◌, length, take, IfOk};
ghost use Rattle.std.specs.Io.KnownBytes.{Appends, Consumes, IsAtEnd};

use super::read_full;
use std::io;
use std::io::{Read, Write};
use text::PAGE;

// Answers a stream by its text: reads the stream, the first 4,096 bytes, lets its text be put into a page, and writes
// what stands at the front of that.
pub fn answer<R: Read, W: Write, F: FnOnce(&[u8], &mut [u8; PAGE]) -> usize>(
    from: &mut R,
    to: &mut W,
    put_text: F,
) -> io::Result<()>
    requires callable { F.IsAlwaysCallable put_text }
    requires within { (s : _) (page : _) (size : _) (after : _) → F.post put_text s page size after
        → size ≤ length after.now }
    ensures { IfOk result (λ _. (s : _) × (page : _) × (size : _) × (after : _) × F.post put_text s page size after
        × Consumes (R.remaining from.old) (R.remaining from.new) s.now
        × (length s.now ≤ 4096) × (length s.now < 4096 → IsAtEnd (R.remaining from.new))
        × Appends (W.contents to.old) (W.contents to.new) (take size after.now)) }
{
    let mut stream = [0; 4096];
    let size = read_full(from, &mut stream)?;
    let mut page = [0; PAGE];
    let length = put_text(&stream[..size], &mut page);
    to.write_all(&page[..length])
}
