// Comparing two lists by their join: what the comparisons say of a list followed by another's inverse, against the empty list. Document 02,
// item 5. Definitions (specs/) and laws (proofs/) alone; no code runs here.
#![tactic(auto)]
