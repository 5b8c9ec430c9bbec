// The line of a verdict, as a program prints it: its word and some numbers.
#![tactic(auto)]

ghost use Rattle.std.specs.Prelude.{◌≡◌, ◌≤◌, length};
ghost use Rattle.comparison_types.specs.Call.{verdict_of, verdict_word};
ghost use Rattle.line_bytes.specs.Line.{line_with};

use comparison_types::Verdict;
use line_bytes::{Line, write_line};

// The line of a verdict's word and some numbers.
pub fn write_verdict(verdict: Verdict, numbers: &[u16]) -> Line
    requires { length numbers.now ≤ 7 }
    ensures { result.items ≡ line_with (verdict_word (verdict_of verdict)) numbers.now }
{
    write_line(verdict.word().as_bytes(), numbers)
}
