// The search of short frames: of all accepted tables one with the fewest owned slots, and of those the least in
// dictionary order. It is the best filling of an idle table; `inner` has that of any plan with up to eight idle slots.
#![tactic(auto)]

pub mod inner; // inner.rt

ghost use Rattle.search.specs.Search.{idle_plan, IsSearched};

use plan::{Client, Plan};
use records::refusal::Refusal;

// The longest frame that is searched.
pub const MOST_SLOTS: usize = 8;

// The most clients that it is searched for.
pub const MOST_CLIENTS: usize = 4;

// The best table of f slots for n clients with these requirements, 0 past f, if there is one: 5, 6, 8, 9, then 16.
pub fn search(f: usize, n: usize, clients: [Client; 8]) -> Result<Option<[u8; 64]>, Refusal>
    ensures { IsSearched (idle_plan f n clients) result }
{
    let plan = Plan {
        f,
        n,
        clients,
        owners: [0; 64],
    };
    inner::check_search(plan)?;
    Ok(inner::mend(plan))
}
