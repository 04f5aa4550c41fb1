// The plan as a value: a frame's slots, their owners, and what each client requires. `check` gives a plan's first
// refusal, `check_asked` that of a question about one of its clients; `inner` has the checks one by one, for the reader
// of plan files and for callers that know the bounds.
#![tactic(auto)]

pub mod inner; // inner.rt

ghost use Rattle.std.specs.Prelude.{◌≡◌};
ghost use Rattle.plan.specs.Plan.{no_client, no_plan, with_table};
ghost use Rattle.plan.specs.Check.{requirements_check, plan_check, asked_check};

use records::refusal::{Refusal, Refused};
use records::{check_range, or_else};

// What a client requires: the rate p/q, the latency a/b in slots.
#[derive(Clone, Copy)]
pub struct Client {
    pub p: u16,
    pub q: u16,
    pub a: u16,
    pub b: u16,
}

// f slots, n clients; an owner is 0 for idle, or a client's number. Places past f and past n are ignored.
#[derive(Clone, Copy)]
pub struct Plan {
    pub f: usize,
    pub n: usize,
    pub clients: [Client; 8],
    pub owners: [u8; 64],
}

impl Plan {
    // A wait asked without a number is for this many requests.
    pub const DEFAULT_WAITING: usize = 1;
}

// A client with every number 0, as it stands past n.
pub fn no_client() -> Client
    ensures { result ≡ no_client }
{
    Client {
        p: 0,
        q: 0,
        a: 0,
        b: 0,
    }
}

// A plan with every number 0.
pub fn no_plan() -> Plan
    ensures { result ≡ no_plan }
{
    Plan {
        f: 0,
        n: 0,
        clients: [no_client(); 8],
        owners: [0u8; 64],
    }
}

// The plan with another table.
pub fn with_table(plan: Plan, owners: [u8; 64]) -> Plan
    ensures { result ≡ with_table plan owners }
{
    Plan { owners, ..plan }
}

// f, n and the clients' requirements: 5, 6, then 8 and 9 client by client. No owner is read.
#[tactic(auto, unfolding(crate::specs::Check::requirements_check))]
pub fn check_requirements(plan: Plan) -> Result<(), Refused>
    ensures { result ≡ requirements_check plan }
{
    inner::check_frame(plan.f)?;
    inner::check_count(plan.n)?;
    inner::check_clients(plan)
}

// The whole plan: its requirements, then 10 slot by slot.
#[tactic(auto, unfolding(crate::specs::Check::plan_check))]
pub fn check(plan: Plan) -> Result<(), Refused>
    ensures { result ≡ plan_check plan }
{
    check_requirements(plan)?;
    inner::check_owners(plan)
}

// A question about a client: the plan's checks, then 13.
#[tactic(auto, unfolding(crate::specs::Check::asked_check))]
pub fn check_asked(plan: Plan, client: usize) -> Result<(), Refused>
    ensures { result ≡ asked_check plan client }
{
    or_else(check(plan), check_range(client, plan.n, Refusal::Asked))
}
