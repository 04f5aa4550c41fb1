// The two rules, and the walk over clients, starts and lengths, for a plan that is checked: f is 1 to 64.
ghost use Rattle.std.specs.Prelude.{◌≡◌, ℕ, ◌-◌, ◌*◌, ◌≤◌};
ghost use Rattle.plan.specs.declared.Plan.{Plan};
ghost use Rattle.plan.specs.Plan.{client_of, own_of};
ghost use Rattle.judge.specs.Rules.{enough, covers, IsVerdict};
ghost use Rattle.judge.specs.Judge.{acceptance, IsJudgement};

use super::{Judgement, Verdict};
use figures::inner::{owned_by, slots};
use frame::inner::next;
use plan::{Client, Plan};

// Enough rate: m × q ≥ p × f.
#[tactic(auto, unfolding(crate::specs::Rules::enough))]
fn enough(required: Client, f: usize, m: usize) -> bool
    requires { (f ≤ 64) × (m ≤ 64) }
    ensures { result ≡ enough required f m }
{
    usize::from(required.p) * f <= m * usize::from(required.q)
}

// One stretch in time: j slots, w of them the client's.
#[tactic(auto, unfolding(crate::specs::Rules::covers))]
fn covers(required: Client, f: usize, m: usize, j: usize, w: usize) -> bool
    requires { (f ≤ 64) × (m ≤ 64) × (j ≤ 64) × (w ≤ 64) }
    ensures { result ≡ covers required f m j w }
{
    let b = usize::from(required.b);
    m * j * b <= usize::from(required.a) * m + f * w * b
}

// The judgement where all clients are ok: no client, no stretch.
pub fn acceptance() -> Judgement
    ensures { result ≡ acceptance }
{
    Judgement {
        client: 0,
        verdict: Verdict::Ok,
        start: 0,
        length: 0,
    }
}

// Judges the clients from + 1 to `to`, and is left by its label at the first failing stretch. Its slots w are counted
// along. Inlined, with its tables by name, since a caller would else copy the plan for each client that it asks about.
#[inline(always)]
pub fn first_failure(plan: Plan, from: usize, to: usize) -> Judgement
    requires { (1 ≤ plan.f) × (plan.f ≤ 64) × (to ≤ 8) }
    ensures { IsJudgement plan from to result }
{
    let requirements = plan.clients;
    let owners = plan.owners;
    'judging: {
        'clients: for i in from..to {
            let client = i + 1;
            let required = requirements[i];
            let m = slots(plan, client);
            if !enough(required, plan.f, m) {
                break 'judging Judgement {
                    client,
                    verdict: Verdict::Rate,
                    start: 0,
                    length: 0,
                };
            }
            'starts: for start in 0..plan.f {
                let mut w = 0;
                let mut at = start;
                'lengths: for length in 0..plan.f {
                    if !covers(required, plan.f, m, length, w) {
                        break 'judging Judgement {
                            client,
                            verdict: Verdict::Late,
                            start,
                            length,
                        };
                    }
                    w += owned_by(owners[at], client);
                    at = next(plan.f, at);
                }
            }
        }
        acceptance()
    }
}

// Where judging clients group by group stops: in the first group, else in the second.
pub fn earlier(first: Judgement, second: Judgement) -> Judgement
    ensures { (plan : Plan) (from mid to : ℕ) → from ≤ mid → mid ≤ to → IsJudgement plan from mid first
        → IsJudgement plan mid to second → IsJudgement plan from to result }
{
    match first.verdict {
        Verdict::Ok => second,
        Verdict::Rate | Verdict::Late => first,
    }
}

// The verdict of one client.
#[tactic(auto, using(crate::proofs::Laws::verdict_by_lem))]
pub fn verdict(plan: Plan, client: usize) -> Verdict
    requires { (1 ≤ plan.f) × (plan.f ≤ 64) × (1 ≤ client) × (client ≤ 8) }
    ensures { IsVerdict (client_of plan (client - 1)) (own_of plan client) plan.f result }
{
    first_failure(plan, client - 1, client).verdict
}
