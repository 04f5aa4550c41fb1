// Text put into a lent page: decimal numbers, and the line of a refused read; byte strings are put by `Output::put`.
// `inner` has what asks for room.
#![tactic(auto)]

pub mod inner; // inner.rt

ghost use Rattle.records.specs.Put.{Put};
ghost use Rattle.text.specs.Text.{refusal_line, Lendable};

use inner::put_decimal;
use records::output::Output;

// The bytes of a page: more than twice what the longest text needs, be it a report or a reply of the bench.
pub const PAGE: usize = 2048;

// The one line of a refused read, at the front of a page.
#[tactic(auto, using(crate::proofs::Laws::lendable))]
pub fn put_refusal(out: &mut [u8; PAGE], number: u8, offset: usize) -> usize
    ensures put { Put out.old 0 (refusal_line number offset) out.new result }
    ensures lendable { Lendable result out.new }
{
    let mut page = Output { lent: out, at: 0 };
    page.put(b"refusal ");
    put_decimal(&mut page, usize::from(number));
    page.put(b" at ");
    put_decimal(&mut page, offset);
    page.put(b"\n");
    page.at
}
