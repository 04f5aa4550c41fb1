// The library for C callers; include/gwelathur.h declares it, and `capi_c` exports it. A plan is handed in as the bytes
// of its stream, a slice, which C passes as pointer and length; every number is a usize; answers are stored in lent
// numbers and in arrays of fixed size, which C passes as pointers. Each function returns the refusal's number, 0 where
// nothing is refused; the two that write text return its length. `inner` has what they share.
#![tactic(auto)]

pub mod inner; // inner.rt

ghost use Rattle.std.specs.Prelude.{◌∷◌, []};
ghost use Rattle.plan.specs.Plan.{default_waiting};
ghost use Rattle.text.specs.Text.{Puts, Lendable};
ghost use Rattle.figures.specs.Figures.{IsFigures, IsWaitFor};
ghost use Rattle.judge.specs.declared.Verdict.TheVariants.{Ok};
ghost use Rattle.judge.specs.Judge.{acceptance, IsJudged, IsVerdictOf};
ghost use Rattle.listing.specs.Listing.{IsReport, IsHoming};
ghost use Rattle.capi.specs.Calls.{figure_values, no_figure, wait_values, verdict_values, judgement_values, ToldRead};
ghost use Rattle.capi.specs.Calls.{Told, ToldWrite, ToldSearch, ToldStep};

use arbiter::{Served, Stepped};
use figures::Figure;
use inner::{asked, put_nine, told};
use judge::Verdict;
use judge::inner::acceptance;
use plan::{Plan, with_table};
use records::wide;
use stream::LONGEST;
use stream::writer::put_stream;
use text::PAGE;

// The bytes of an arbiter's record, and of a step's answer.
pub const RECORD: usize = 9;

// Reads and checks a plan: the refusal's offset.
pub fn gwelathur_read(s: &[u8], offset: &mut usize) -> usize
    ensures { ToldRead s.now result offset.new }
{
    match stream::read(s) {
        Ok(_) => {
            *offset = 0;
            0
        },
        Err(refused) => {
            *offset = refused.offset;
            wide(refused.why.into())
        },
    }
}

// A client's slots m and its scaled latency L.
pub fn gwelathur_figures(s: &[u8], client: usize, slots: &mut usize, scaled: &mut usize) -> usize
    ensures { Told (λ plan. IsFigures plan client) no_figure figure_values s.now result
        (slots.new ∷ scaled.new ∷ []) }
{
    let answer = asked(s, |plan| figures::figure_of(plan, client));
    let (number, figure) = told(
        answer,
        Figure {
            slots: 0,
            scaled: 0,
        },
    );
    *slots = figure.slots;
    *scaled = figure.scaled;
    number
}

// A client's wait for this many waiting requests.
pub fn gwelathur_wait(s: &[u8], client: usize, waiting: usize, wait: &mut usize) -> usize
    ensures { Told (λ plan. IsWaitFor plan client waiting) 0 wait_values s.now result (wait.new ∷ []) }
{
    let answer = asked(s, |plan| figures::wait_for(plan, client, waiting));
    let (number, slots) = told(answer, 0);
    *wait = slots;
    number
}

// A client's wait, asked without a number.
pub fn gwelathur_default_wait(s: &[u8], client: usize, wait: &mut usize) -> usize
    ensures { Told (λ plan. IsWaitFor plan client default_waiting) 0 wait_values s.now result (wait.new ∷ []) }
{
    gwelathur_wait(s, client, Plan::DEFAULT_WAITING, wait)
}

// Judges a plan: the first client that is not ok, its verdict and, if late, its first stretch.
pub fn gwelathur_judge(
    s: &[u8],
    client: &mut usize,
    verdict: &mut usize,
    start: &mut usize,
    length: &mut usize,
) -> usize
    ensures { Told IsJudged acceptance judgement_values s.now result
        (client.new ∷ verdict.new ∷ start.new ∷ length.new ∷ []) }
{
    let (number, found) = told(asked(s, |plan| judge::judge(plan)), acceptance());
    *client = found.client;
    *verdict = found.verdict as usize;
    *start = found.start;
    *length = found.length;
    number
}

// A client's verdict.
pub fn gwelathur_verdict(s: &[u8], client: usize, verdict: &mut usize) -> usize
    ensures { Told (λ plan. IsVerdictOf plan client) Ok verdict_values s.now result (verdict.new ∷ []) }
{
    let answer = asked(s, |plan| judge::verdict_of(plan, client));
    let (number, given) = told(answer, Verdict::Ok);
    *verdict = given as usize;
    number
}

// Searches for a plan's frame and requirements, and writes the plan with the table found; its length is 0 for none.
// What is refused is refused here, before room is made for the trees of the search.
pub fn gwelathur_search(s: &[u8], out: &mut [u8; LONGEST], length: &mut usize) -> usize
    ensures { ToldSearch s.now out.old result length.new out.new }
{
    if let Err(why) = inner::check_searched(s) {
        *length = 0;
        return wide(why.into());
    }
    gwelathur_search_whole(s, out, length)
}

// The same in one. `capi_c` exports it so that the compiler keeps its stack apart; C calls the one above.
pub fn gwelathur_search_whole(s: &[u8], out: &mut [u8; LONGEST], length: &mut usize) -> usize
    ensures { ToldSearch s.now out.old result length.new out.new }
{
    let reading = stream::read(s);
    let (number, found) = told(inner::searched(reading), None);
    *length = match (reading, found) {
        (Ok(plan), Some(owners)) => put_stream(out, with_table(plan, owners)),
        _ => 0,
    };
    number
}

// Reads a plan and writes it back: the stream's own bytes, and their number.
pub fn gwelathur_write(s: &[u8], out: &mut [u8], length: &mut usize) -> usize
    ensures { ToldWrite s.now out.old result length.new out.new }
{
    let (number, size) = told(stream::rewritten(s, out), 0);
    *length = size;
    number
}

// One step of the arbiter. Its record is the position and eight counts; the answer is the client served, or 0, and
// eight turned-away counts.
pub fn gwelathur_step(
    s: &[u8],
    arbiter: &mut [u8; RECORD],
    arrivals: &[u8],
    answer: &mut [u8; RECORD],
) -> usize
    ensures { ToldStep s.now arbiter.old arrivals.now result arbiter.new answer.new }
{
    let record = inner::record_in(*arbiter);
    let refused = Stepped {
        served: Served {
            client: 0,
            turned: [0; 8],
        },
        next: record,
    };
    let said = asked(s, |plan| arbiter::step(plan, record, arrivals));
    let (number, stepped) = told(said, refused);
    put_nine(arbiter, stepped.next.position as u8, stepped.next.pending);
    put_nine(answer, stepped.served.client as u8, stepped.served.turned);
    number
}

// The report's text, at the front of a page.
pub fn gwelathur_report(s: &[u8], page: &mut [u8; PAGE]) -> usize
    ensures puts { Puts (IsReport s.now) page.old 0 page.new result }
    ensures lendable { Lendable result page.new }
{
    listing::report(s, page)
}

// The homing listing's text, at the front of a page.
pub fn gwelathur_homing(s: &[u8], page: &mut [u8; PAGE]) -> usize
    ensures puts { Puts (IsHoming s.now) page.old 0 page.new result }
    ensures lendable { Lendable result page.new }
{
    listing::homing(s, page)
}
