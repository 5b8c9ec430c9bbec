// The line of what the dense comparison finds: the verdict's word and its two inputs.
#![tactic(auto)]

ghost use Rattle.std.specs.Prelude.{◌≡◌};
ghost use Rattle.dense_types.specs.Call.{found_of, says};
ghost use Rattle.dense_line.specs.Line.{line_of};

use dense_types::Outcome;
use line_bytes::Line;
use verdict_line::write_verdict;

// The line of an outcome: its verdict's word and the two inputs.
pub fn write_outcome(o: Outcome) -> Line
    ensures { result.items ≡ line_of (says (found_of o)) }
{
    write_verdict(o.verdict, &[o.first, o.second])
}
