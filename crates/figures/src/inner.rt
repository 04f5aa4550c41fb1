// The figures of a plan that is checked: f is 1 to 64.
ghost use Rattle.std.specs.Prelude.{◌≡◌, ◌-◌, ◌*◌, ◌≤◌, ◌<◌};
ghost use Rattle.frame.specs.Frame.{slots_of, IsScaled, IsWait};
ghost use Rattle.frame.specs.Largest.{lack_from};
ghost use Rattle.records.specs.First.{Fine};
ghost use Rattle.plan.specs.Plan.{is_client, own_of};
ghost use Rattle.plan.specs.Check.{asked_check};
ghost use Rattle.figures.specs.Check.{most_waiting};
ghost use Rattle.figures.specs.Figures.{IsFigure, IsFigures, IsWaitFor};

use super::{Figure, MOST_WAITING};
use frame::inner::next;
use plan::Plan;
use records::refusal::Refusal;
use records::{check_range, wide};

// 1 where a slot's owner is the client, else 0.
pub fn owned_by(owner: u8, client: usize) -> usize
    ensures { result ≡ is_client client owner }
{
    usize::from(wide(owner) == client)
}

// m, the client's slots in the frame.
pub fn slots(plan: Plan, client: usize) -> usize
    requires { plan.f ≤ 64 }
    ensures { result ≡ slots_of (own_of plan client) plan.f }
{
    let mut m = 0;
    for &owner in &plan.owners[..plan.f] {
        m += owned_by(owner, client);
    }
    m
}

// A plan's frame as one client sees it: f is 1 to 64, and m is the client's slots in the frame.
#[derive(Drop)]
pub struct Seen {
    pub plan: Plan,
    pub client: usize,
    pub m: usize,
    pub ghost in_frame: { (1 ≤ plan.f) × (plan.f ≤ 64) × (m ≤ 64) },
    pub ghost counted: { m ≡ slots_of (own_of plan client) plan.f },
}

impl Seen {
    // The plan's frame as this client sees it.
    #[tactic(auto, using(crate::proofs::Laws::slots_small))]
    pub fn of(plan: Plan, client: usize) -> Seen
        requires { (1 ≤ plan.f) × (plan.f ≤ 64) }
        ensures { (result.plan ≡ plan) × (result.client ≡ client) }
    {
        Seen {
            plan,
            client,
            m: slots(plan, client),
        }
    }

    // What a stretch of j slots, w of them the client's, lacks: m × j − f × w, or 0.
    fn lack(&self, j: usize, w: usize) -> usize
        requires { (j ≤ 64) × (w ≤ 64) }
        ensures { result ≡ self.now.m * j - self.now.plan.f * w }
    {
        (self.m * j).saturating_sub(self.plan.f * w)
    }

    // The most that a stretch from slot s on lacks, of those shorter than the frame. Its slots w are counted along.
    #[tactic(auto, unfolding(frame::specs::Largest::largest, frame::specs::Frame::within))]
    fn lack_from(&self, s: usize) -> usize
        requires { s < self.now.plan.f }
        ensures { result ≡ lack_from (own_of self.now.plan self.now.client) self.now.plan.f self.now.m s }
    {
        // by name, since the walk takes a tenth longer where each step reads the table out of the plan
        let owners = self.plan.owners;
        let mut most = 0;
        let mut w = 0;
        let mut at = s;
        for j in 0..self.plan.f {
            most = most.max(self.lack(j, w));
            w += owned_by(owners[at], self.client);
            at = next(self.plan.f, at);
        }
        most
    }

    // L, the client's scaled latency, by trying every start.
    #[tactic(auto, unfolding(frame::specs::Largest::largest))]
    pub fn scaled(&self) -> usize
        ensures { IsScaled (own_of self.now.plan self.now.client) self.now.plan.f self.now.m result }
    {
        let mut most = 0;
        for s in 0..self.plan.f {
            most = most.max(self.lack_from(s));
        }
        most
    }

    // The figure of the client.
    pub fn figure(&self) -> Figure
        ensures { IsFigure (own_of self.now.plan self.now.client) self.now.plan.f result }
    {
        Figure {
            slots: self.m,
            scaled: self.scaled(),
        }
    }
}

// The figure of a client that can be asked about, or 14.
#[tactic(auto, using(plan::proofs::Laws::asked_fine), unfolding(crate::specs::Check::figure_check))]
pub fn asked_figure(plan: Plan, client: usize) -> Result<Figure, Refusal>
    requires { asked_check plan client ≡ Fine }
    ensures { IsFigures plan client result }
{
    let seen = Seen::of(plan, client);
    if seen.m == 0 {
        return Err(Refusal::NoSlot);
    }
    Ok(seen.figure())
}

// The wait for this many requests, from a client's figure: rounded up.
pub fn least_wait(f: usize, figure: Figure, waiting: usize) -> usize
    requires in_frame { (f ≤ 64) × (1 ≤ figure.slots) × (figure.slots ≤ 64) }
    requires small { (figure.scaled ≤ 1024) × (waiting ≤ most_waiting) }
    ensures { IsWait f figure.slots figure.scaled waiting result }
{
    (figure.scaled + waiting * f).div_ceil(figure.slots)
}

// The wait of a client for this many requests, from its figures: their refusal, then 15.
#[tactic(auto, unfolding(crate::specs::Check::wait_check))]
pub fn wait_from(
    plan: Plan,
    client: usize,
    figures: Result<Figure, Refusal>,
    waiting: usize,
) -> Result<usize, Refusal>
    requires { IsFigures plan client figures }
    ensures { IsWaitFor plan client waiting result }
{
    let figure = figures?;
    check_range(waiting, MOST_WAITING, Refusal::Waiting)?;
    Ok(least_wait(plan.f, figure, waiting))
}
