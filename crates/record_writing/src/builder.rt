// The builder: an empty record at the front of a lent buffer, and one gate more at the end of the record that stands there.
ghost use Rattle.std.specs.Prelude.{◌≡◌};
ghost use Rattle.record_format.specs.Gate.{raw};
ghost use Rattle.record_format.specs.Writing.{add, start};
ghost use Rattle.record_format.specs.Answer.{written_answer};

use crate::{write_gate, write_head};
use record_bytes::check_gate;
use record_format::{GATE_SIZE, HEAD_SIZE, Head, Refusal};
use record_reading::{MOST_GATES, MOST_QUBITS, check};

// An empty record on n qubits: 3, then 11.
#[tactic(auto, unfolding(record_format::specs::Writing::start, record_format::specs::Writing::write, record_format::specs::Writing::encode, record_format::specs::Row::first, record_format::specs::Gate::body_bytes))]
pub fn start(buffer: &mut [u8], n: usize) -> Result<usize, Refusal>
    ensures answers { written_answer result ≡ (start n buffer.old).answer }
    ensures leaves { buffer.new ≡ (start n buffer.old).buffer }
{
    if n == 0 || n > MOST_QUBITS {
        return Err(Refusal::QubitCount);
    }
    if buffer.len() < HEAD_SIZE {
        return Err(Refusal::BufferShort);
    }
    write_head(buffer, n as u8, 0);
    Ok(HEAD_SIZE)
}

// One gate at the end of the record that stands in the buffer: the record's own fault, 4, the new gate's 5, 7, 6 with g for its index, then 11.
// Stays: kind, a and b come as bytes, since the call refuses a kind above 10 by number and a typed gate could not hold one.
#[tactic(auto, using(record_format::proofs::Reading::accepts, record_format::proofs::Writers::add_unread, record_format::proofs::Writers::add_full))]
pub fn add(buffer: &mut [u8], kind: u8, a: u8, b: u8) -> Result<usize, Refusal>
    ensures answers { written_answer result ≡ (add (raw kind a b) buffer.old).answer }
    ensures leaves { buffer.new ≡ (add (raw kind a b) buffer.old).buffer }
{
    let Head { n, g } = check(buffer)?;
    if g == MOST_GATES {
        return Err(Refusal::GateCount);
    }
    let bytes = [kind, a, b];
    check_gate(n, g, bytes)?;
    let end = HEAD_SIZE + GATE_SIZE * g;
    if buffer.len() < end + GATE_SIZE {
        return Err(Refusal::BufferShort);
    }
    write_head(buffer, n as u8, (g + 1) as u16);
    write_gate(buffer, end, bytes);
    Ok(end + GATE_SIZE)
}
