// The bench: it reads cases from standard input to its end and writes the library's reply to each. It is a test
// program: its functions are proved to be safe and to return, and what it writes is compared with what a second program
// expects. `case` has the fields of a case, `reply` the words of a reply, `ops` what each op calls.
#![tactic(auto)]

mod case; // case.rt
mod ops; // ops.rt
mod reply; // reply.rt

use input::read_full;
use reply::Reply;
use std::io;
use std::io::{Read, Write};
use text::PAGE;

// One case is read and its reply written; false where no whole case is left.
fn answer_one<R: Read, W: Write>(from: &mut R, to: &mut W) -> io::Result<bool> {
    let mut case = [0; case::SIZE];
    if read_full(from, &mut case)? < case::SIZE {
        return Ok(false);
    }
    let mut page = [0; PAGE];
    let mut reply = Reply::new(&mut page);
    ops::put_reply(&mut reply, &case);
    to.write_all(reply.bytes())?;
    Ok(true)
}

// Case by case. A proved loop has to end, so the turns are counted, up to a number that no input uses up.
fn main(rt: HostRuntime) -> io::Result<()> {
    let mut from = rt.stdin();
    let mut to = rt.stdout();
    for _ in 0..u64::MAX {
        if !answer_one(&mut from, &mut to)? {
            break;
        }
    }
    Ok(())
}
