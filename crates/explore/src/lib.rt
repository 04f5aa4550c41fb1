// The engine of the search: of all ways to give up to eight places to up to eight clients, the best one that suits them
// all. What suits a client stands in its tree of needs; rates and stretches are not known here.
#![tactic(auto)]

pub mod inner; // inner.rt

// The best filling so far: the owners of its places, and how many places it gives.
#[derive(Clone, Copy)]
pub struct Best {
    pub owners: [u8; 8],
    pub given: usize,
}

// The first places of a filling: how many, how many of them are given, their owners, and each client's node.
#[derive(Clone, Copy)]
pub struct Front {
    pub long: usize,
    pub given: usize,
    pub owners: [u8; 8],
    pub nodes: [usize; 8],
}
