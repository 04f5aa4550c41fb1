// A plan's checks one by one. The offset is where the number was read, 0 in a plan held as a value.
ghost use Rattle.std.specs.Prelude.{◌≡◌, ◌≤◌};
ghost use Rattle.records.specs.First.{first_of};
ghost use Rattle.plan.specs.Check.{frame_check, count_check, client_check, owner_check, client_check_of, owners_check};

use super::{Client, Plan};
use records::refusal::{Refusal, Refused};
use records::{check_range, wide};

// 5: f is 1 to 64.
pub fn check_frame(f: usize) -> Result<(), Refused>
    ensures { result ≡ frame_check f }
{
    check_range(f, 64, Refusal::Frame)
}

// 6: n is 1 to 8.
pub fn check_count(n: usize) -> Result<(), Refused>
    ensures { result ≡ count_check n }
{
    check_range(n, 8, Refusal::Count)
}

// 8, then 9: p is 1 to q, and b is not 0.
#[tactic(auto, unfolding(crate::specs::Check::client_check))]
pub fn check_client(client: Client, offset: usize) -> Result<(), Refused>
    ensures { result ≡ client_check client offset }
{
    if client.p < 1 || client.q < client.p {
        return Err(Refusal::Rate.at(offset));
    }
    if client.b < 1 {
        return Err(Refusal::Latency.at(offset));
    }
    Ok(())
}

// 10: an owner is 0 to n.
#[tactic(auto, unfolding(crate::specs::Check::owner_check))]
pub fn check_owner(owner: u8, n: usize, offset: usize) -> Result<(), Refused>
    ensures { result ≡ owner_check owner n offset }
{
    if n < wide(owner) {
        return Err(Refusal::Owner.at(offset));
    }
    Ok(())
}

// 8 and 9, client by client.
pub fn check_clients(plan: Plan) -> Result<(), Refused>
    requires { plan.n ≤ 8 }
    ensures { result ≡ first_of (client_check_of plan) plan.n }
{
    // by name, as the table below: else all of the plan is stored first, and a short one takes a quarter more to check
    let clients = plan.clients;
    for &client in &clients[..plan.n] {
        check_client(client, 0)?;
    }
    Ok(())
}

// 10, slot by slot.
pub fn check_owners(plan: Plan) -> Result<(), Refused>
    requires { plan.f ≤ 64 }
    ensures { result ≡ owners_check plan }
{
    let owners = plan.owners;
    for &owner in &owners[..plan.f] {
        check_owner(owner, plan.n, 0)?;
    }
    Ok(())
}
