// What is promised, for a reader who opens one folder: in proofs/ a file for each demand, in specs/ the examples that
// are computed. There is no code.
#![tactic(auto)]
