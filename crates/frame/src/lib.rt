// One client's slots in a frame that repeats. What stands here is theory, in specs/ and proofs/: it knows no struct, so
// no change of the plan reaches it. The one function, in `inner`, goes on to the next slot.
#![tactic(auto)]

pub mod inner; // inner.rt
