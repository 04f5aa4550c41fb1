// The walk through the fillings, depth first and in dictionary order. A front is left at once where the clients need
// more places than there are left, or where these and those that it gives come to as many as the best filling gives.
ghost use Rattle.std.specs.Prelude.{◌≡◌, ◌∷◌, [], ◌++◌, ℕ, ◌+◌, ◌≤◌, ◌<◌, eqb, get_or};
ghost use Rattle.records.specs.First.{pick};
ghost use Rattle.explore.specs.Best.{BestOf};
ghost use Rattle.explore.specs.Needs.{child_of, need_after, NoneInNeed, Sound};
ghost use Rattle.explore.specs.Seen.{owners_of, IsFront, Explored};

use super::{Best, Front};
use records::wide;

// The node of a client below this one, the next place being the owner's.
fn child(node: usize, owner: usize, client: usize) -> usize
    requires { node < 512 }
    ensures { result ≡ child_of client node owner }
{
    2 * node + usize::from(owner == client)
}

// The nodes of the n clients below these.
fn children(nodes: [usize; 8], n: usize, owner: usize) -> [usize; 8]
    requires { (n ≤ 8) × ((i : ℕ) → i < n → get_or nodes i 0 < 512) }
    ensures { (i : ℕ) → i < n → get_or result i 0 ≡ child_of (i + 1) (get_or nodes i 0) owner }
{
    let mut below = nodes;
    for (i, node) in below[..n].iter_mut().enumerate() {
        *node = child(*node, owner, i + 1);
    }
    below
}

// How many places are given, one more being the owner's: 0 is nobody.
fn with_place(given: usize, owner: usize) -> usize
    requires { given ≤ 8 }
    ensures { result ≡ given + pick (eqb owner 0) 0 1 }
{
    given + usize::from(owner != 0)
}

// A walk that has come to a front: the trees of what the clients need, how many places and clients there are, and the
// front.
#[derive(Clone, Copy)]
struct Walk<'a> {
    trees: &'a [u8; 4096],
    places: usize,
    clients: usize,
    front: Front,
    ghost few: { (places ≤ 8) × (clients ≤ 8) },
    ghost is_front: { IsFront clients front },
    ghost inside: { front.long ≤ places },
}

impl<'a> Walk<'a> {
    // The walk at the front with one place more, which is the owner's.
    fn longer(&self, owner: usize) -> Walk<'a>
        requires { (self.now.front.long < self.now.places) × (owner ≤ self.now.clients) }
        ensures trees { result.trees ≡ self.now.trees }
        ensures sizes { (result.places ≡ self.now.places) × (result.clients ≡ self.now.clients) }
        ensures long { result.front.long ≡ self.now.front.long + 1 }
        ensures owners { owners_of result.front ≡ owners_of self.now.front ++ (owner ∷ []) }
    {
        let mut owners = self.front.owners;
        owners[self.front.long] = owner as u8;
        let front = Front {
            long: self.front.long + 1,
            given: with_place(self.front.given, owner),
            owners,
            nodes: children(self.front.nodes, self.clients, owner),
        };
        Walk {
            trees: self.trees,
            places: self.places,
            clients: self.clients,
            front,
        }
    }

    // How many places the clients need at least after the front.
    #[tactic(auto, using(crate::proofs::Needs::need_none, crate::proofs::Needs::need_more))]
    fn need(&self) -> usize
        ensures sum { result ≡ need_after self.now.trees.now self.now.clients (owners_of self.now.front) }
        ensures most { result ≤ 2040 }
    {
        let mut more = 0;
        for (i, &node) in self.front.nodes[..self.clients].iter().enumerate() {
            more += wide(self.trees[i * 512 + node]);
        }
        more
    }

    // Goes through all fillings of the places that begin with the front.
    fn explore(&self, best: Option<Best>) -> Option<Best>
        ensures { Explored self.now.trees.now self.now.places self.now.clients (owners_of self.now.front) best result }
    {
        let Front { owners, given, .. } = self.front;
        let more = self.need();
        let fewest = given + more;
        if self.places < self.front.long + more || best.is_some_and(|best| best.given <= fewest) {
            return best;
        }
        if self.front.long == self.places {
            return Some(Best { owners, given });
        }
        let mut kept = best;
        for owner in 0..=self.clients {
            kept = self.longer(owner).explore(kept);
        }
        kept
    }
}

// The best filling of g places by n clients, if there is one: its owners, in the first g places.
pub fn best_filling(trees: &[u8; 4096], g: usize, n: usize) -> Option<[u8; 8]>
    requires { (g ≤ 8) × (n ≤ 8) × Sound trees.now g n }
    ensures { BestOf (NoneInNeed trees.now n) g n result }
{
    let front = Front {
        long: 0,
        given: 0,
        owners: [0; 8],
        nodes: [1; 8],
    };
    let walk = Walk {
        trees,
        places: g,
        clients: n,
        front,
    };
    let best = walk.explore(None)?;
    Some(best.owners)
}
