// Path sums: the phase polynomial and the wires of a gate list, and the single steps of their reduction. Definitions (specs/)
// and laws (proofs/) alone; no code runs here.
#![tactic(auto)]
