// A client's figures: its slots in the frame, its scaled latency, and the wait for a number of requests. Every plan and
// number gets an answer; `inner` has the functions for callers that have checked their plan.
#![tactic(auto)]

pub mod inner; // inner.rt

ghost use Rattle.plan.specs.Plan.{default_waiting};
ghost use Rattle.figures.specs.Figures.{IsFigures, IsWaitFor};

use plan::Plan;
use records::refusal::Refusal;

// m, the client's slots in the frame, and L, its scaled latency.
#[derive(Clone, Copy)]
pub struct Figure {
    pub slots: usize,
    pub scaled: usize,
}

// The highest waiting number.
pub const MOST_WAITING: usize = 255;

// The figure of a client: the plan's refusals, then 13 and 14.
#[tactic(auto, unfolding(crate::specs::Check::figure_check))]
pub fn figure_of(plan: Plan, client: usize) -> Result<Figure, Refusal>
    ensures { IsFigures plan client result }
{
    plan::check_asked(plan, client)?;
    inner::asked_figure(plan, client)
}

// The wait of a client for this many waiting requests: the figure's refusals, then 15.
pub fn wait_for(plan: Plan, client: usize, waiting: usize) -> Result<usize, Refusal>
    ensures { IsWaitFor plan client waiting result }
{
    inner::wait_from(plan, client, figure_of(plan, client), waiting)
}

// The wait of a client, asked without a number.
pub fn default_wait(plan: Plan, client: usize) -> Result<usize, Refusal>
    ensures { IsWaitFor plan client default_waiting result }
{
    wait_for(plan, client, Plan::DEFAULT_WAITING)
}
