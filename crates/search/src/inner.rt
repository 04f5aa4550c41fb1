// The best filling of a plan's idle slots. Whether a client is ok depends on its own slots alone. So each client is
// judged once on every set of idle slots, and what it needs beside the first of them stands in its tree of needs;
// `explore` then finds the best filling. The trees are filled from the end, since the nodes below a node stand after
// it.
ghost use Rattle.std.specs.Prelude.{◌≡◌, List, ℕ, ◌+◌, ◌*◌, ◌/◌, ◌^◌, ◌≤◌, ◌<◌, min, take, length};
ghost use Rattle.records.specs.Pieces.{padded};
ghost use Rattle.plan.specs.Plan.{owner_of};
ghost use Rattle.judge.specs.declared.Verdict.TheVariants.{Ok};
ghost use Rattle.explore.specs.Needs.{child_of, node_of};
ghost use Rattle.search.specs.Search.{search_check, Finds};
ghost use Rattle.search.specs.Mend.{Mends, idle_of};
ghost use Rattle.search.specs.Trees.{filled_at, Suits, IsNeed, Planted};

use super::{MOST_CLIENTS, MOST_SLOTS};
use explore::inner::best_filling;
use figures::inner::slots;
use judge::Verdict;
use judge::inner::verdict;
use plan::{Plan, with_table};
use records::refusal::{Refusal, Refused};

// More places than there are: what a client needs where a set of idle slots will not do.
const HOPELESS: u8 = 9;

// The requirements' checks, then 16.
#[tactic(auto, unfolding(crate::specs::Search::search_check, crate::specs::Search::size_check))]
pub fn check_search(plan: Plan) -> Result<(), Refused>
    ensures { result ≡ search_check plan }
{
    plan::check_requirements(plan)?;
    if MOST_SLOTS < plan.f || MOST_CLIENTS < plan.n {
        return Err(Refusal::TooLarge.at(0));
    }
    Ok(())
}

// The owner of the place that leads from the node above to this node of a client's tree.
fn last_owner(node: usize, client: usize) -> u8
    requires { (1 ≤ client) × (client ≤ 8) }
    ensures { child_of client (node / 2) result ≡ node }
{
    if node % 2 == 1 { client as u8 } else { 0 }
}

// The owners of g places that lead to this leaf of a client's tree.
fn set_of(client: usize, g: usize, node: usize) -> [u8; 8]
    requires { (1 ≤ client) × (client ≤ 8) × (g ≤ 8) × (2 ^ g ≤ node) × (node < 2 ^ (g + 1)) }
    ensures { node_of client (take g result) ≡ node }
{
    let mut owners = [0; 8];
    let mut above = node;
    for j in (0..g).rev() {
        owners[j] = last_owner(above, client);
        above /= 2;
    }
    owners
}

// What a client needs beside a set of idle slots on which it has this verdict: nothing exactly where it is ok.
fn needed(verdict: Verdict) -> u8
    ensures { (result ≡ 0 → verdict ≡ Ok) × (verdict ≡ Ok → result ≡ 0) }
{
    match verdict {
        Verdict::Ok => 0,
        Verdict::Rate | Verdict::Late => HOPELESS,
    }
}

// What a client needs above two nodes: what it needs where the next place is another's, or one more than where it is
// its own.
fn least_need(other: u8, own: u8) -> u8
    ensures { result ≡ min other (own + 1) }
{
    other.min(own.saturating_add(1))
}

// A plan and how many of its slots are idle, which is eight at most.
#[derive(Clone, Copy)]
struct Gaps {
    plan: Plan,
    idle: usize,
    ghost frame: { (1 ≤ plan.f) × (plan.f ≤ 64) },
    ghost clients: { plan.n ≤ 8 },
    ghost counted: { idle ≡ idle_of plan },
    ghost few: { idle ≤ 8 },
}

impl Gaps {
    // The plan's table with its idle slots filled, one after the other.
    fn fill(&self, filling: [u8; 8]) -> [u8; 64]
        ensures { result ≡ padded (filled_at self.now.plan filling) self.now.plan.f 64 0 }
    {
        let mut table = [0; 64];
        let mut j = 0;
        for (x, &owner) in self.plan.owners[..self.plan.f].iter().enumerate() {
            if owner == 0 {
                table[x] = filling[j];
                j += 1;
            } else {
                table[x] = owner;
            }
        }
        table
    }

    // What client i + 1 needs at a leaf, judged on the set of idle slots that leads there.
    fn leaf(&self, i: usize, node: usize) -> u8
        requires { (i < self.now.plan.n) × (2 ^ self.now.idle ≤ node) × (node < 2 ^ (self.now.idle + 1)) }
        ensures { (v : List ℕ) → length v ≡ self.now.idle → node_of (i + 1) v ≡ node → Suits self.now.plan i v result }
    {
        let filling = set_of(i + 1, self.idle, node);
        let tried = with_table(self.plan, self.fill(filling));
        needed(verdict(tried, i + 1))
    }

    // The need at node x in the tree of client i + 1, all that stands after it being right.
    fn node_need(&self, trees: &[u8; 4096], i: usize, x: usize) -> u8
        requires { (i < self.now.plan.n) × (x < 512) }
        ensures { IsNeed self.now.plan self.now.idle trees.now i x result }
    {
        let leaves = 1 << self.idle;
        if x < leaves {
            let below = i * 512 + 2 * x;
            least_need(trees[below], trees[below + 1])
        } else if x < 2 * leaves {
            self.leaf(i, x)
        } else {
            0
        }
    }

    // The trees of the plan's clients, in memory that is lent, since the stack has room for them once. Node 0 and the
    // nodes past the leaves are read by nobody.
    fn plant(&self, trees: &mut [u8; 4096])
        ensures { Planted self.now.plan self.now.idle self.now.plan.n trees.new }
    {
        for z in (0..self.plan.n * 512).rev() {
            trees[z] = self.node_need(trees, z / 512, z % 512);
        }
    }
}

// The best filling of the plan's idle slots: of the accepted ones the one that gives the fewest, then the least table.
pub fn mend(plan: Plan) -> Option<[u8; 64]>
    requires sizes { (1 ≤ plan.f) × (plan.f ≤ 64) × (plan.n ≤ 8) × (idle_of plan ≤ 8) }
    requires owners { (x : ℕ) → x < plan.f → owner_of plan x ≤ plan.n }
    ensures { Finds (Mends plan) plan.f plan.n result }
{
    let gaps = Gaps {
        plan,
        idle: slots(plan, 0),
    };
    let mut trees = [0; 4096];
    gaps.plant(&mut trees);
    let filling = best_filling(&trees, gaps.idle, plan.n)?;
    Some(gaps.fill(filling))
}
