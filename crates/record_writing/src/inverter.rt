// The inverse of a record, written into a second buffer.
ghost use Rattle.std.specs.Prelude.{◌≡◌, ◌+◌, ◌≤◌, ◌++◌, length, take, drop};
ghost use Rattle.record_format.specs.Format.{head_size, gate_size};
ghost use Rattle.record_format.specs.Gate.{gate_of_three, gate_bytes, body_bytes, inverse_gate, inverse_list};
ghost use Rattle.record_format.specs.Reading.{size};
ghost use Rattle.record_format.specs.Chunks.{gates_of};
ghost use Rattle.record_format.specs.Writing.{inverse};
ghost use Rattle.record_format.specs.Answer.{written_answer};
ghost use Rattle.record_format.specs.Inner.{inverse_bytes};

use crate::{least_b, write_gate, write_head};
use record_bytes::LAST_KIND;
use record_format::gate::{OneQubit, TwoQubit};
use record_format::{GATE_SIZE, HEAD_SIZE, Head, Refusal};
use record_reading::{check, whole_gates};

// The number of each kind's inverse: S and T exchanged for theirs; every other gate is its own.
const INVERSES: [u8; 11] = [
    OneQubit::X as u8,
    OneQubit::Y as u8,
    OneQubit::Z as u8,
    OneQubit::SInverse as u8,
    OneQubit::S as u8,
    OneQubit::TInverse as u8,
    OneQubit::T as u8,
    OneQubit::H as u8,
    TwoQubit::Cx as u8,
    TwoQubit::Cz as u8,
    TwoQubit::Swap as u8,
];

// The inverse of a gate's three bytes at a place of a buffer.
// Stays: by a table of numbers, which needs no branch; a gate that is decoded, inverted and encoded again makes the call up to half as long again.
fn write_inverted(buffer: &mut [u8], at: usize, bytes: [u8; 3])
    requires { at + gate_size ≤ length buffer.old }
    ensures { buffer.new ≡ take at buffer.old ++ gate_bytes (inverse_gate (gate_of_three bytes)) ++ drop (at + gate_size) buffer.old }
{
    let [kind, a, b] = bytes;
    let inverse = INVERSES[usize::from(kind.min(LAST_KIND))];
    let b = least_b(kind).max(b);
    write_gate(buffer, at, [inverse, a, b]);
}

// The gates, backwards and each inverted, behind the head in the buffer.
fn write_inverse(gates: &[[u8; 3]], buffer: &mut [u8])
    requires { size (length gates.now) ≤ length buffer.old }
    ensures as_gates { buffer.new ≡ take head_size buffer.old ++ body_bytes (inverse_list (gates_of gates.now)) ++ drop (size (length gates.now)) buffer.old }
    ensures as_bytes { buffer.new ≡ take head_size buffer.old ++ inverse_bytes (body_bytes (gates_of gates.now)) ++ drop (size (length gates.now)) buffer.old }
{
    for (i, bytes) in gates.iter().rev().enumerate() {
        write_inverted(buffer, HEAD_SIZE + GATE_SIZE * i, *bytes);
    }
}

// The inverse of the record at the start of s, at the front of the buffer: the record's own fault, then 11.
#[tactic(auto, using(record_format::proofs::Reading::accepts, record_format::proofs::Writers::inverse_unread, record_format::proofs::Writers::inverse_short, record_format::proofs::Writers::inverse_stored))]
pub fn inverse(s: &[u8], buffer: &mut [u8]) -> Result<usize, Refusal>
    ensures answers { written_answer result ≡ (inverse s.now buffer.old).answer }
    ensures leaves { buffer.new ≡ (inverse s.now buffer.old).buffer }
{
    let Head { n, g } = check(s)?;
    let size = HEAD_SIZE + GATE_SIZE * g;
    if buffer.len() < size {
        return Err(Refusal::BufferShort);
    }
    write_head(buffer, n as u8, g as u16);
    write_inverse(whole_gates(s, g), buffer);
    Ok(size)
}
