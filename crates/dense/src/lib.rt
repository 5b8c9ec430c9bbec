// The dense comparison of two gate lists, as licensees call it: document 02, items 2 and 4. For blocks of at most six qubits with at most 60
// H gates it says equal, turned or different and never undecided. It takes any bytes and any buffer, refuses by number what is bad, and then changes
// nothing that it was lent. All that is public here is the call, its outcome or a limit; verdicts and refusals are those of
// `comparison`.
#![tactic(auto)]

ghost use Rattle.std.specs.Prelude.{◌≡◌, length};
ghost use Rattle.dense_types.specs.Call.{found, found_of, said_of, dense_comparison, left_by};
ghost use Rattle.dense_types.specs.Clauses.{Exact, Sound, First, Inputs, Agrees};
ghost use Rattle.dense_judging.specs.Judging.{finding_in};

use comparison_types::agreement;
pub use comparison_types::{Refusal, Verdict};
use dense_checking::check_call;
pub use dense_checking::{BLOCK_H_GATES, BLOCK_QUBITS};
use dense_judging::{Judged, judge};
pub use dense_meaning::BUFFER_SIZE;
pub use dense_types::Outcome;

// The outcome of what the columns show.
// Stays: a From would stand in dense_judging, which by a rule of the project knows of no crate of path sums, or in dense_types, which would then
// build on all the code of columns, and with it all that knows an outcome.
fn outcome_of(judged: Judged) -> Outcome
    ensures { found_of result ≡ found (finding_in judged) }
{
    match judged {
        Judged::Carried(j) => Outcome {
            verdict: agreement(j),
            first: u16::from(j),
            second: 0,
        },
        Judged::Different(v) => Outcome {
            verdict: Verdict::Different,
            first: 0,
            second: v,
        },
    }
}

// Two lists compared, all columns of both: the verdict with its inputs, or why the pair is refused. Only the numbers that the comparison
// may use are lent on.
pub fn compare(first: &[u8], second: &[u8], buffer: &mut [i64]) -> Result<Outcome, Refusal>
    ensures steps { said_of result ≡ dense_comparison first.now second.now (length buffer.old) }
    ensures kept { buffer.new ≡ left_by (said_of result) buffer.old }
    ensures exact { Exact first.now second.now result }
    ensures sound { Sound first.now second.now result }
    ensures first { First first.now second.now result }
    ensures inputs { Inputs first.now second.now result }
    ensures agrees { Agrees first.now second.now result }
{
    let lists = check_call(first, second, buffer.len())?;
    Ok(outcome_of(judge(&mut buffer[..BUFFER_SIZE], lists)))
}
