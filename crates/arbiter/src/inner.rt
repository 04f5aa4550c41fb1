// A step's checks, and the step that is not refused, part by part.
ghost use Rattle.std.specs.Prelude.{◌≡◌, ◌≤◌, length, get_or};
ghost use Rattle.frame.specs.Queue.{one_slot, queue};
ghost use Rattle.records.specs.Pieces.{onto};
ghost use Rattle.records.specs.First.{Fine};
ghost use Rattle.arbiter.specs.declared.Arbiter.{Arbiter};
ghost use Rattle.arbiter.specs.Step.{served_by, less_one, turned_at, joined, served_now, advanced, position_check};
ghost use Rattle.arbiter.specs.Step.{arrivals_check, step_check};

use super::{Arbiter, Served, Stepped};
use frame::inner::next;
use plan::Plan;
use records::refusal::{Refusal, Refused};

// The most that a client has pending.
pub const MOST_PENDING: u8 = 255;

// 17: the position is below f.
#[tactic(auto, unfolding(crate::specs::Step::position_check))]
fn check_position(f: usize, position: usize) -> Result<(), Refused>
    ensures { result ≡ position_check f position }
{
    if f <= position {
        return Err(Refusal::Position.at(0));
    }
    Ok(())
}

// 18: the list has n arrivals.
#[tactic(auto, unfolding(crate::specs::Step::arrivals_check))]
fn check_arrivals(n: usize, arrived: usize) -> Result<(), Refused>
    ensures { result ≡ arrivals_check n arrived }
{
    if arrived != n {
        return Err(Refusal::Arrivals.at(0));
    }
    Ok(())
}

// The plan's checks, then 17 and 18, for this many arrivals.
#[tactic(auto, unfolding(crate::specs::Step::step_check))]
pub fn check_step(plan: Plan, position: usize, arrived: usize) -> Result<(), Refused>
    ensures { result ≡ step_check plan position arrived }
{
    plan::check(plan)?;
    check_position(plan.f, position)?;
    check_arrivals(plan.n, arrived)
}

// What a client has pending in a slot, where this many arrive: they join up to 255.
fn queue_of(pending: u8, arrived: u8) -> u8
    ensures { result ≡ queue one_slot pending arrived }
{
    pending.saturating_add(arrived)
}

// How many of these arrivals are turned away.
fn away_of(pending: u8, arrived: u8) -> u8
    ensures { result ≡ one_slot.turns pending arrived }
{
    arrived.saturating_sub(MOST_PENDING - pending)
}

// Each client's arrivals join its lent pending count, and those turned away are counted; other places are kept.
fn arrive(pending: &mut [u8; 8], arrivals: &[u8], turned: &mut [u8; 8])
    requires { length arrivals.now ≤ 8 }
    ensures pending_after { pending.new ≡ onto
        (λ i. queue one_slot (get_or pending.old i 0) (get_or arrivals.now i 0))
        (length arrivals.now) pending.old }
    ensures turned_after { turned.new ≡ onto
        (λ i. one_slot.turns (get_or pending.old i 0) (get_or arrivals.now i 0))
        (length arrivals.now) turned.old }
{
    for (i, &arrived) in arrivals.iter().enumerate() {
        turned[i] = away_of(pending[i], arrived);
        pending[i] = queue_of(pending[i], arrived);
    }
}

// The client served in a slot of this owner, 0 for none; its lent count is then one less.
#[tactic(auto, using(crate::proofs::Slots::service))]
fn serve_owner(owner: usize, counts: &mut [u8; 8]) -> usize
    requires { owner ≤ 8 }
    ensures { (result ≡ served_by owner counts.old)
        × (counts.new ≡ less_one result counts.old) }
{
    if owner == 0 || counts[owner - 1] == 0 {
        return 0;
    }
    counts[owner - 1] -= 1;
    owner
}

// One slot's work on lent counts, where the caller keeps the position: the client served, 0 for none.
#[tactic(auto, using(crate::proofs::Questions::bounds), unfolding(crate::specs::Step::rule_for))]
pub fn serve_slot(
    plan: Plan,
    position: usize,
    pending: &mut [u8; 8],
    arrivals: &[u8],
    turned: &mut [u8; 8],
) -> usize
    requires { step_check plan position (length arrivals.now) ≡ Fine }
    ensures { (let arb : Arbiter = record { position = position; pending = pending.old } in
        let xs = arrivals.now in
        (result ≡ served_now plan arb xs) × (pending.new ≡ less_one result (joined plan arb xs))
        × (turned.new ≡ onto (turned_at plan arb xs) plan.n turned.old)) }
{
    // by name, since 1,000 steps of two clients take two thirds longer where the table is read out of the plan
    let owners = plan.owners;
    let owner = usize::from(owners[position]);
    arrive(pending, arrivals, turned);
    serve_owner(owner, pending)
}

// A step that is not refused, for callers that step often on one plan that they have checked.
#[tactic(auto, using(crate::proofs::Questions::bounds))]
pub fn advance(plan: Plan, arbiter: Arbiter, arrivals: &[u8]) -> Stepped
    requires { step_check plan arbiter.position (length arrivals.now) ≡ Fine }
    ensures { result ≡ advanced plan arbiter arrivals.now }
{
    let mut pending = arbiter.pending;
    let mut turned = [0; 8];
    let client = serve_slot(plan, arbiter.position, &mut pending, arrivals, &mut turned);
    Stepped {
        served: Served { client, turned },
        next: Arbiter {
            position: next(plan.f, arbiter.position),
            pending,
        },
    }
}
