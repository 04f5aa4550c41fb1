// The C interface: `capi`'s functions as a static library, one export each, with the same clauses. What each refuses
// and what lent memory holds after stands in include/gwelathur.h.
#![tactic(auto)]

ghost use Rattle.std.specs.Prelude.{◌∷◌, []};
ghost use Rattle.plan.specs.Plan.{default_waiting};
ghost use Rattle.text.specs.Text.{Puts, Lendable};
ghost use Rattle.figures.specs.Figures.{IsFigures, IsWaitFor};
ghost use Rattle.judge.specs.declared.Verdict.TheVariants.{Ok};
ghost use Rattle.judge.specs.Judge.{acceptance, IsJudged, IsVerdictOf};
ghost use Rattle.listing.specs.Listing.{IsReport, IsHoming};
ghost use Rattle.capi.specs.Calls.{figure_values, no_figure, wait_values, verdict_values, judgement_values, ToldRead};
ghost use Rattle.capi.specs.Calls.{Told, ToldWrite, ToldSearch, ToldStep};

use capi::RECORD;
use stream::LONGEST;
use text::PAGE;

// Reads and checks a plan: the refusal's offset.
#[unsafe(no_mangle)]
pub extern "C" fn gwelathur_read(s: &[u8], offset: &mut usize) -> usize
    ensures { ToldRead s.now result offset.new }
{
    capi::gwelathur_read(s, offset)
}

// A client's slots m and its scaled latency L.
#[unsafe(no_mangle)]
pub extern "C" fn gwelathur_figures(
    s: &[u8],
    client: usize,
    slots: &mut usize,
    scaled: &mut usize,
) -> usize
    ensures { Told (λ plan. IsFigures plan client) no_figure figure_values s.now result
        (slots.new ∷ scaled.new ∷ []) }
{
    capi::gwelathur_figures(s, client, slots, scaled)
}

// A client's wait for this many waiting requests.
#[unsafe(no_mangle)]
pub extern "C" fn gwelathur_wait(s: &[u8], client: usize, waiting: usize, wait: &mut usize) -> usize
    ensures { Told (λ plan. IsWaitFor plan client waiting) 0 wait_values s.now result (wait.new ∷ []) }
{
    capi::gwelathur_wait(s, client, waiting, wait)
}

// A client's wait, asked without a number.
#[unsafe(no_mangle)]
pub extern "C" fn gwelathur_default_wait(s: &[u8], client: usize, wait: &mut usize) -> usize
    ensures { Told (λ plan. IsWaitFor plan client default_waiting) 0 wait_values s.now result (wait.new ∷ []) }
{
    capi::gwelathur_default_wait(s, client, wait)
}

// Judges a plan: the first client that is not ok, its verdict and, if late, its first stretch.
#[unsafe(no_mangle)]
pub extern "C" fn gwelathur_judge(
    s: &[u8],
    client: &mut usize,
    verdict: &mut usize,
    start: &mut usize,
    length: &mut usize,
) -> usize
    ensures { Told IsJudged acceptance judgement_values s.now result
        (client.new ∷ verdict.new ∷ start.new ∷ length.new ∷ []) }
{
    capi::gwelathur_judge(s, client, verdict, start, length)
}

// A client's verdict.
#[unsafe(no_mangle)]
pub extern "C" fn gwelathur_verdict(s: &[u8], client: usize, verdict: &mut usize) -> usize
    ensures { Told (λ plan. IsVerdictOf plan client) Ok verdict_values s.now result (verdict.new ∷ []) }
{
    capi::gwelathur_verdict(s, client, verdict)
}

// Searches for a plan's frame and requirements, and writes the plan with the table found; its length is 0 for none.
#[unsafe(no_mangle)]
pub extern "C" fn gwelathur_search(s: &[u8], out: &mut [u8; LONGEST], length: &mut usize) -> usize
    ensures { ToldSearch s.now out.old result length.new out.new }
{
    capi::gwelathur_search(s, out, length)
}

// The same in one. It is exported so that the compiler keeps its stack apart; C calls the one above.
#[unsafe(no_mangle)]
pub extern "C" fn gwelathur_search_whole(
    s: &[u8],
    out: &mut [u8; LONGEST],
    length: &mut usize,
) -> usize
    ensures { ToldSearch s.now out.old result length.new out.new }
{
    capi::gwelathur_search_whole(s, out, length)
}

// Reads a plan and writes it back: the stream's own bytes, and their number.
#[unsafe(no_mangle)]
pub extern "C" fn gwelathur_write(s: &[u8], out: &mut [u8], length: &mut usize) -> usize
    ensures { ToldWrite s.now out.old result length.new out.new }
{
    capi::gwelathur_write(s, out, length)
}

// One step of the arbiter. Its record is the position and eight counts; the answer is the client served, or 0, and
// eight turned-away counts.
#[unsafe(no_mangle)]
pub extern "C" fn gwelathur_step(
    s: &[u8],
    arbiter: &mut [u8; RECORD],
    arrivals: &[u8],
    answer: &mut [u8; RECORD],
) -> usize
    ensures { ToldStep s.now arbiter.old arrivals.now result arbiter.new answer.new }
{
    capi::gwelathur_step(s, arbiter, arrivals, answer)
}

// The report's text, at the front of a page.
#[unsafe(no_mangle)]
pub extern "C" fn gwelathur_report(s: &[u8], page: &mut [u8; PAGE]) -> usize
    ensures puts { Puts (IsReport s.now) page.old 0 page.new result }
    ensures lendable { Lendable result page.new }
{
    capi::gwelathur_report(s, page)
}

// The homing listing's text, at the front of a page.
#[unsafe(no_mangle)]
pub extern "C" fn gwelathur_homing(s: &[u8], page: &mut [u8; PAGE]) -> usize
    ensures puts { Puts (IsHoming s.now) page.old 0 page.new result }
    ensures lendable { Lendable result page.new }
{
    capi::gwelathur_homing(s, page)
}
