// Two gate lists joined into one record, as licensees call it: document 02, item 5. In time the second list runs after the first, over the same
// qubits; in space it stands beside it, on qubits numbered after the first's. Every call takes any bytes, refuses by number what is bad, and
// then changes no byte that it was lent. All that is public here is a call or why it is refused.
#![tactic(auto)]

ghost use Rattle.std.specs.Prelude.{◌≡◌};
ghost use Rattle.joining_types.specs.Call.{joined_answer, join_in_time, join_in_space};
ghost use Rattle.joining_types.specs.Clauses.{InTime, InSpace, WhereWritten};
ghost use Rattle.joining_types.specs.Inner.{FoundBoth};

pub use joining_types::Refusal;
use joining_writing::write_joined;
use record_format::Head;
use record_reading::{MOST_QUBITS, check, whole_gates};

// The first record read, then the second.
// Stays: the comparison reads its two records likewise, but its faults are of another type, and one function would take both ways to tell them.
#[tactic(auto, using(record_format::proofs::Reading::refuses_by, record_format::proofs::Results::told_ok, record_format::proofs::Results::told_err, record_format::proofs::Pairs::both_first, record_format::proofs::Pairs::both_second, joining_types::proofs::Writing::holds))]
fn check_both(first: &[u8], second: &[u8]) -> Result<(Head, Head), Refusal>
    ensures { FoundBoth first.now second.now result }
{
    let of_first = check(first).map_err(Refusal::First)?;
    let of_second = check(second).map_err(Refusal::Second)?;
    Ok((of_first, of_second))
}

// The first list and then the second, over the same qubits, as one record at the front of the buffer: the first list's own fault, the second's,
// 8, 4, then 11.
#[tactic(auto, using(joining_types::proofs::Writing::part_of_held, joining_types::proofs::Writing::time_unread, joining_types::proofs::Writing::time_differ, joining_types::proofs::Writing::time_same, joining_types::proofs::ClauseLaws::time_composed))]
pub fn join_in_time(first: &[u8], second: &[u8], buffer: &mut [u8]) -> Result<usize, Refusal>
    ensures answers { joined_answer result ≡ (join_in_time first.now second.now buffer.old).answer }
    ensures leaves { buffer.new ≡ (join_in_time first.now second.now buffer.old).buffer }
    ensures composed { WhereWritten result (InTime first.now second.now buffer.new) }
{
    let (x, y) = check_both(first, second)?;
    if x.n != y.n {
        return Err(Refusal::QubitsDiffer);
    }
    let first_gates = whole_gates(first, x.g);
    let second_gates = whole_gates(second, y.g);
    write_joined(x.n, first_gates, second_gates, 0, buffer)
}

// The first list and then the second, on qubits numbered after the first's, as one record at the front of the buffer: the first list's own fault,
// the second's, 3, 4, then 11.
#[tactic(auto, using(joining_types::proofs::Writing::part_of_held, joining_types::proofs::Writing::space_unread, joining_types::proofs::Writing::space_many, joining_types::proofs::Writing::space_few, joining_types::proofs::ClauseLaws::space_composed))]
pub fn join_in_space(first: &[u8], second: &[u8], buffer: &mut [u8]) -> Result<usize, Refusal>
    ensures answers { joined_answer result ≡ (join_in_space first.now second.now buffer.old).answer }
    ensures leaves { buffer.new ≡ (join_in_space first.now second.now buffer.old).buffer }
    ensures composed { WhereWritten result (InSpace first.now second.now buffer.new) }
{
    let (x, y) = check_both(first, second)?;
    if x.n + y.n > MOST_QUBITS {
        return Err(Refusal::TooManyQubits);
    }
    let first_gates = whole_gates(first, x.g);
    let second_gates = whole_gates(second, y.g);
    write_joined(x.n + y.n, first_gates, second_gates, x.n as u8, buffer)
}
