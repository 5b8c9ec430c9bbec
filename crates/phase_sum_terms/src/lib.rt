// The phase-sum layer, terms: terms and wires in lent slices; terms read in order and put by their places, wires read and put by theirs. Document 01, "Building the sum".
#![tactic(auto)]

pub mod reading;
pub mod terms;
pub mod wires;
