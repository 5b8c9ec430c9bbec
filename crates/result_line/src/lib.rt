// The line of what `compare` finds: document 01, "Pairs to try". The verdict's word and seven numbers.
#![tactic(auto)]

ghost use Rattle.std.specs.Prelude.{◌≡◌};
ghost use Rattle.comparison_types.specs.Call.{result_of, says};
ghost use Rattle.result_line.specs.Line.{line_of};

use comparison_types::Outcome;
use line_bytes::Line;
use verdict_line::write_verdict;

// The line of an outcome: its verdict's word, the two inputs and the five counts.
pub fn write_outcome(o: Outcome) -> Line
    ensures { result.items ≡ line_of (says (result_of o)) }
{
    let numbers = [
        o.first,
        o.second,
        u16::from(o.pins),
        u16::from(o.sums),
        u16::from(o.turns),
        u16::from(o.joins),
        u16::from(o.left),
    ];
    write_verdict(o.verdict, &numbers)
}
