// The arbiter: one step is one slot of a plan's frame. Every plan, record and list of arrivals gets an answer; `inner`
// has the step for callers that have checked their plan.
#![tactic(auto)]

pub mod inner; // inner.rt

ghost use Rattle.std.specs.Prelude.{◌≡◌};
ghost use Rattle.arbiter.specs.Step.{step_of, step_said, served_said};

use plan::Plan;
use records::refusal::Refusal;

// The record: the position in the frame, and each client's pending count.
#[derive(Clone, Copy)]
pub struct Arbiter {
    pub position: usize,
    pub pending: [u8; 8],
}

// Whom a step serves, 0 where the slot passes unused, and each client's requests turned away.
#[derive(Clone, Copy)]
pub struct Served {
    pub client: usize,
    pub turned: [u8; 8],
}

// What a step gives: whom it serves, and the record after it.
#[derive(Clone, Copy)]
pub struct Stepped {
    pub served: Served,
    pub next: Arbiter,
}

// One step with each client's arrivals, by value: the plan's refusals, then 17 and 18.
#[tactic(auto, unfolding(crate::specs::Step::step_said, crate::specs::Step::step_of))]
pub fn step(plan: Plan, arbiter: Arbiter, arrivals: &[u8]) -> Result<Stepped, Refusal>
    ensures { result ≡ step_said plan arbiter arrivals.now }
{
    inner::check_step(plan, arbiter.position, arrivals.len())?;
    Ok(inner::advance(plan, arbiter, arrivals))
}

// The same step on a record that is lent and changed in place; a refusal leaves it as it was.
#[tactic(auto, using(crate::proofs::Slots::said_given, crate::proofs::Slots::said_stopped))]
pub fn step_in_place(plan: Plan, arbiter: &mut Arbiter, arrivals: &[u8]) -> Result<Served, Refusal>
    ensures { (result ≡ served_said (step_said plan arbiter.old arrivals.now))
        × (arbiter.new ≡ (step_of plan arbiter.old arrivals.now).next) }
{
    let stepped = step(plan, *arbiter, arrivals)?;
    *arbiter = stepped.next;
    Ok(stepped.served)
}

// The step in place, called on a local that is lent: it gives what `step` gives.
pub fn step_lending(plan: Plan, arbiter: Arbiter, arrivals: &[u8]) -> Result<Stepped, Refusal>
    ensures { result ≡ step_said plan arbiter arrivals.now }
{
    let mut next = arbiter;
    let served = step_in_place(plan, &mut next, arrivals)?;
    Ok(Stepped { served, next })
}
