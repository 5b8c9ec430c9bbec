// What gate lists mean: exact amplitudes, and when one list is another up to a power of ω. Definitions (specs/) and laws
// (proofs/) alone; no code runs here.
#![tactic(auto)]
