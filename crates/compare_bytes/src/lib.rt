// What the program `compare` prints for its input, from bytes to bytes: document 01, "Pairs to try" and "Where a call is turned down". No call
// has a `requires`.
#![tactic(auto)]

ghost use Rattle.std.specs.Prelude.{◌≡◌};
ghost use Rattle.phase_sum_meaning.specs.Room.{places, set_words};
ghost use Rattle.comparison_types.specs.Call.{said_of, comparison};
ghost use Rattle.compare_bytes.specs.Lines.{outcome_line, pair_line};
ghost use Rattle.compare_bytes.specs.Laws.{printed, read_far_enough};

use comparison::{Outcome, PLACES, Refusal, SET_WORDS, compare};
use line_bytes::Line;
use pair_bytes::Comparison;
use result_line::write_outcome;

// The comparison by path sums.
pub struct PathSums;

impl Comparison for PathSums {
    type Outcome = Outcome;

    ghost answers = { λ s t answer. said_of answer ≡ comparison s t set_words places };

    ghost line_of = { outcome_line };

    ghost pair_line = { pair_line };

    ghost printed = { printed };

    ghost read_far_enough = { read_far_enough };

    fn compare(first: &[u8], second: &[u8]) -> Result<Outcome, Refusal> {
        let mut sets = [0u64; SET_WORDS];
        let mut coeffs = [0u8; PLACES];
        compare(first, second, &mut sets, &mut coeffs)
    }

    fn write_outcome(outcome: Outcome) -> Line {
        write_outcome(outcome)
    }
}
