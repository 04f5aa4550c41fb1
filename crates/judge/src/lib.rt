// Judging: a client's verdict, whether a plan is accepted, and else the first client and its first stretch that show
// why not. Every plan and number gets an answer; `inner` has the functions for callers that have checked their plan.
#![tactic(auto)]

pub mod inner; // inner.rt

ghost use Rattle.judge.specs.Judge.{IsJudged, IsVerdictOf};

use plan::{Plan, check_asked};
use records::refusal::Refusal;

// What judging says of a client, with the number by which C is told.
#[derive(Clone, Copy)]
pub enum Verdict {
    Ok = 0,
    Rate = 1,
    Late = 2,
}

// The first client that is not ok, its verdict and, if late, the first stretch that shows it; 0 and Ok where all are.
#[derive(Clone, Copy)]
pub struct Judgement {
    pub client: usize,
    pub verdict: Verdict,
    pub start: usize,
    pub length: usize,
}

// Judges a plan: the plan's refusals, then its clients one by one.
pub fn judge(plan: Plan) -> Result<Judgement, Refusal>
    ensures { IsJudged plan result }
{
    plan::check(plan)?;
    Ok(inner::first_failure(plan, 0, plan.n))
}

// The verdict of one client: the plan's refusals, then 13.
pub fn verdict_of(plan: Plan, client: usize) -> Result<Verdict, Refusal>
    ensures { IsVerdictOf plan client result }
{
    check_asked(plan, client)?;
    Ok(inner::verdict(plan, client))
}
