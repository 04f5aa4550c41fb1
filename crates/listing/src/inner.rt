// The texts of the report and of the homing listing, of a plan that is checked, and their lines. Each is put into a
// page that has room for the longest, a whole text at the front. A number takes up to 20 bytes, a verdict up to 4.
ghost use Rattle.std.specs.Prelude.{◌≡◌, ◌+◌, ◌*◌, ◌≤◌};
ghost use Rattle.records.specs.Put.{Adds, HasRoom};
ghost use Rattle.records.specs.First.{Fine};
ghost use Rattle.plan.specs.Check.{plan_check, asked_check};
ghost use Rattle.text.specs.Text.{AddsOne, Lines, Puts, Lendable};
ghost use Rattle.figures.specs.Figures.{IsWaitFor};
ghost use Rattle.std.specs.declared.result.Result.TheVariants.{Ok};
ghost use Rattle.judge.specs.Judge.{IsJudgement, IsVerdictOf};
ghost use Rattle.listing.specs.Listing.{figures_text, wait_text, verdict_text, line_text, refused_text, closing_text};
ghost use Rattle.listing.specs.Listing.{homing_line, homing_waiting, IsLine, IsReportLine, IsReportOf, IsHomingOf};

use super::Line;
use figures::Figure;
use figures::inner::{asked_figure, wait_from};
use judge::inner::{acceptance, earlier, first_failure};
use judge::{Judgement, Verdict};
use plan::Plan;
use records::output::Output;
use records::refusal::Refusal;
use text::PAGE;
use text::inner::put_decimal;

// A client's m and L: two numbers and a space.
#[tactic(auto, unfolding(crate::specs::Listing::figures_text))]
fn put_figures(page: &mut Output, figures: Result<Figure, Refusal>)
    requires { HasRoom page.old 41 }
    ensures put { Adds page.old (figures_text figures) page.new }
    ensures most { page.new.at ≤ page.old.at + 41 }
{
    match figures {
        Ok(figure) => {
            put_decimal(page, figure.slots);
            page.put(b" ");
            put_decimal(page, figure.scaled);
        },
        Err(_) => page.put(b"0 -"),
    }
}

// A client's wait.
#[tactic(auto, unfolding(crate::specs::Listing::wait_text))]
fn put_wait(page: &mut Output, wait: Result<usize, Refusal>)
    requires { HasRoom page.old 20 }
    ensures put { Adds page.old (wait_text wait) page.new }
    ensures most { page.new.at ≤ page.old.at + 20 }
{
    match wait {
        Ok(slots) => put_decimal(page, slots),
        Err(_) => page.put(b"-"),
    }
}

// A verdict's word.
#[tactic(auto, unfolding(crate::specs::Listing::verdict_text))]
fn put_verdict(page: &mut Output, verdict: Verdict)
    requires { HasRoom page.old 4 }
    ensures put { Adds page.old (verdict_text verdict) page.new }
    ensures most { page.new.at ≤ page.old.at + 4 }
{
    match verdict {
        Verdict::Ok => page.put(b"ok"),
        Verdict::Rate => page.put(b"rate"),
        Verdict::Late => page.put(b"late"),
    }
}

// A line of the report: four numbers, a verdict, four spaces and the line feed.
fn put_line(page: &mut Output, line: Line)
    requires { HasRoom page.old 89 }
    ensures put { Adds page.old (line_text line) page.new }
    ensures most { page.new.at ≤ page.old.at + 89 }
{
    put_decimal(page, line.client);
    page.put(b" ");
    put_figures(page, line.figures);
    page.put(b" ");
    put_wait(page, line.wait);
    page.put(b" ");
    put_verdict(page, line.verdict);
    page.put(b"\n");
}

// What the report's line of a client with this verdict shows.
fn line_of(plan: Plan, client: usize, verdict: Verdict) -> Line
    requires { IsVerdictOf plan client (Ok verdict) }
    ensures { IsLine plan client result }
{
    let figures = asked_figure(plan, client);
    Line {
        client,
        figures,
        wait: wait_from(plan, client, figures, Plan::DEFAULT_WAITING),
        verdict,
    }
}

// The report's lines, one for each client, at most eight. Each client is judged once, for its line and for the last.
#[tactic(auto, using(crate::proofs::Laws::report_lines))]
fn put_lines(page: &mut Output, plan: Plan) -> Judgement
    requires checked { plan_check plan ≡ Fine }
    requires room { HasRoom page.old (8 * 89) }
    ensures puts { AddsOne (Lines (IsReportLine plan) plan.n) page.old page.new }
    ensures most { page.new.at ≤ page.old.at + 8 * 89 }
    ensures judgement { IsJudgement plan 0 plan.n result }
{
    let mut found = acceptance();
    for i in 0..plan.n {
        let judged = first_failure(plan, i, i + 1);
        let line = line_of(plan, i + 1, judged.verdict);
        put_line(page, line);
        found = earlier(found, judged);
    }
    found
}

// A last line that refuses: `refused`, the client's number and its verdict, two spaces and the line feed.
#[tactic(auto, using(text::proofs::Laws::lendable))]
fn put_refused(page: &mut Output, client: usize, verdict: Verdict)
    requires { HasRoom page.old 34 }
    ensures put { Adds page.old (refused_text client verdict) page.new }
    ensures lendable { Lendable page.new.at page.new.lent.now }
{
    page.put(b"refused ");
    put_decimal(page, client);
    page.put(b" ");
    put_verdict(page, verdict);
    page.put(b"\n");
}

// The report's last line, from where judging stopped.
#[tactic(auto, using(text::proofs::Laws::lendable), unfolding(crate::specs::Listing::closing_text))]
fn put_closing(page: &mut Output, found: Judgement)
    requires { HasRoom page.old 34 }
    ensures put { Adds page.old (closing_text found.client found.verdict) page.new }
    ensures lendable { Lendable page.new.at page.new.lent.now }
{
    match found.verdict {
        Verdict::Ok => page.put(b"accepted\n"),
        _ => put_refused(page, found.client, found.verdict),
    }
}

// The report.
pub fn put_report(out: &mut [u8; PAGE], plan: Plan) -> usize
    requires { plan_check plan ≡ Fine }
    ensures puts { Puts (IsReportOf plan) out.old 0 out.new result }
    ensures lendable { Lendable result out.new }
{
    let mut page = Output { lent: out, at: 0 };
    page.put(b"client slots scaled wait verdict\n");
    let found = put_lines(&mut page, plan);
    put_closing(&mut page, found);
    page.at
}

// The wait that the homing listing shows of a client.
fn homing_wait(plan: Plan, client: usize) -> Result<usize, Refusal>
    requires { asked_check plan client ≡ Fine }
    ensures { IsWaitFor plan client homing_waiting result }
{
    wait_from(
        plan,
        client,
        asked_figure(plan, client),
        Plan::DEFAULT_WAITING,
    )
}

// A line of the homing listing: two numbers, a space and the line feed.
#[tactic(auto, using(text::proofs::Laws::lendable))]
fn put_homing_line(page: &mut Output, client: usize, wait: Result<usize, Refusal>)
    requires { HasRoom page.old 42 }
    ensures put { Adds page.old (homing_line client wait) page.new }
    ensures most { page.new.at ≤ page.old.at + 42 }
    ensures lendable { Lendable page.new.at page.new.lent.now }
{
    put_decimal(page, client);
    page.put(b" ");
    put_wait(page, wait);
    page.put(b"\n");
}

// The homing listing: a line for each client.
#[tactic(auto, using(crate::proofs::Laws::homing_lines, text::proofs::Laws::lendable))]
pub fn put_homing(out: &mut [u8; PAGE], plan: Plan) -> usize
    requires { plan_check plan ≡ Fine }
    ensures puts { Puts (IsHomingOf plan) out.old 0 out.new result }
    ensures lendable { Lendable result out.new }
{
    let mut page = Output { lent: out, at: 0 };
    for i in 0..plan.n {
        put_homing_line(&mut page, i + 1, homing_wait(plan, i + 1));
    }
    page.at
}
