// The dense layer, its answers: types, and what the call answers and promises (specs/). Document 02, items 2 and 4. Licensees use `dense`.
#![tactic(auto)]

use comparison_types::Verdict;

// What the dense comparison found: the verdict, never undecided, and two inputs. They are those that a difference shows; of turned the first is
// the power of ω, 1 to 7; else they are 0.
// Stays: the first fields of the other comparison's outcome, which licensees read by their names.
#[derive(Clone, Copy, Debug, PartialEq, Eq)]
pub struct Outcome {
    pub verdict: Verdict,
    pub first: u16,
    pub second: u16,
}
