// The comparison of two gate lists by one path sum: pinning, reduction, search and verdict. Definitions (specs/) and theorems
// (proofs/) alone; no code runs here.
#![tactic(auto)]
