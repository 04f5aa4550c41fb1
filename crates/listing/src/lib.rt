// The report and the homing listing of a plan stream, as text in a lent page. Every stream gets a text, one that is
// refused its one line. `inner` has the texts and their lines, for a plan that is checked.
#![tactic(auto)]

pub mod inner; // inner.rt

ghost use Rattle.text.specs.Text.{Puts, Lendable};
ghost use Rattle.listing.specs.Listing.{IsReport, IsHoming};

use figures::Figure;
use judge::Verdict;
use records::refusal::Refusal;
use text::PAGE;

// What a line of the report shows.
#[derive(Clone, Copy)]
pub struct Line {
    pub client: usize,
    pub figures: Result<Figure, Refusal>,
    pub wait: Result<usize, Refusal>,
    pub verdict: Verdict,
}

// The report: a header, a line for each client, and whether the plan is accepted.
#[tactic(auto, using(crate::proofs::Laws::of_reading))]
pub fn report(s: &[u8], out: &mut [u8; PAGE]) -> usize
    ensures puts { Puts (IsReport s.now) out.old 0 out.new result }
    ensures lendable { Lendable result out.new }
{
    match stream::read(s) {
        Ok(plan) => inner::put_report(out, plan),
        Err(refused) => text::put_refusal(out, refused.why.into(), refused.offset),
    }
}

// The homing listing: each client's number and default wait.
#[tactic(auto, using(crate::proofs::Laws::of_reading))]
pub fn homing(s: &[u8], out: &mut [u8; PAGE]) -> usize
    ensures puts { Puts (IsHoming s.now) out.old 0 out.new result }
    ensures lendable { Lendable result out.new }
{
    match stream::read(s) {
        Ok(plan) => inner::put_homing(out, plan),
        Err(refused) => text::put_refusal(out, refused.why.into(), refused.offset),
    }
}
