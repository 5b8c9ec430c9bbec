// What the program `compare_small` prints for its input, from bytes to bytes: document 02, items 2 and 4, in the form of document 01, "Pairs to
// try" and "Where a call is turned down". No call has a `requires`.
#![tactic(auto)]

ghost use Rattle.std.specs.Prelude.{◌≡◌};
ghost use Rattle.dense_meaning.specs.Limits.{buffer_size};
ghost use Rattle.dense_types.specs.Call.{said_of, dense_comparison};
ghost use Rattle.compare_small_bytes.specs.Lines.{outcome_line, pair_line};
ghost use Rattle.compare_small_bytes.specs.Laws.{printed, read_far_enough};

use dense::{BUFFER_SIZE, Outcome, Refusal, compare};
use dense_line::write_outcome;
use line_bytes::Line;
use pair_bytes::Comparison;

// The dense comparison, of all columns.
pub struct Columns;

impl Comparison for Columns {
    type Outcome = Outcome;

    ghost answers = { λ s t answer. said_of answer ≡ dense_comparison s t buffer_size };

    ghost line_of = { outcome_line };

    ghost pair_line = { pair_line };

    ghost printed = { printed };

    ghost read_far_enough = { read_far_enough };

    fn compare(first: &[u8], second: &[u8]) -> Result<Outcome, Refusal> {
        let mut buffer = [0i64; BUFFER_SIZE];
        compare(first, second, &mut buffer)
    }

    fn write_outcome(outcome: Outcome) -> Line {
        write_outcome(outcome)
    }
}
