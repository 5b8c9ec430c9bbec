// The phase-sum layer, words: how machine words make up sets of variables, for any number of words a set. Document 02, item 6. Definitions in
// specs/ and their laws in proofs/; there is no code.
#![tactic(auto)]
