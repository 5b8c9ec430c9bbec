// Two accepted lists written as one record, the second list's qubits numbered further on. Inner: licensees use `joining`.
#![tactic(auto)]

ghost use Rattle.std.specs.Prelude.{◌≡◌, ◌+◌, ◌*◌, ◌≤◌, ◌++◌, length, take, drop};
ghost use Rattle.record_format.specs.Format.{gate_size, most_qubits};
ghost use Rattle.record_format.specs.Gate.{Within, AllWithin, gate_of_three, gate_bytes, body_bytes, shift_gate, shift_list};
ghost use Rattle.record_format.specs.Chunks.{gates_of};
ghost use Rattle.joining_types.specs.Call.{joined_answer};
ghost use Rattle.joining_types.specs.Inner.{shift_bytes, written};

use joining_types::Refusal;
use record_bytes::LAST_KIND;
use record_format::{GATE_SIZE, HEAD_SIZE};
use record_reading::MOST_GATES;
use record_writing::{least_b, write_gate, write_head};

// A gate's three bytes at a place of a buffer, its qubits numbered further on by a shift.
// Stays: bytes, which need no branch; gates that are decoded and encoded again make a join half as long again.
// Stays: a shift is a number of qubits; a type for 16 at most would be made once and opened at each gate.
fn write_further_on(buffer: &mut [u8], at: usize, shift: u8, bytes: [u8; 3])
    requires { (at + gate_size ≤ length buffer.old) × (shift ≤ most_qubits) × Within most_qubits (gate_of_three bytes) }
    ensures { buffer.new ≡ take at buffer.old ++ gate_bytes (shift_gate shift (gate_of_three bytes)) ++ drop (at + gate_size) buffer.old }
{
    let [kind, a, b] = bytes;
    let b = least_b(kind) | shift.wrapping_add(b);
    write_gate(buffer, at, [kind.min(LAST_KIND), shift + a, b]);
}

// A list's gates at a place of a buffer, their qubits numbered further on by a shift.
fn write_gates(buffer: &mut [u8], at: usize, shift: u8, gates: &[[u8; 3]])
    requires { (at + gate_size * length gates.now ≤ length buffer.old) × (shift ≤ most_qubits) × AllWithin most_qubits (gates_of gates.now) }
    ensures as_gates { buffer.new ≡ take at buffer.old ++ body_bytes (shift_list shift (gates_of gates.now)) ++ drop (at + gate_size * length gates.now) buffer.old }
    ensures as_bytes { buffer.new ≡ take at buffer.old ++ shift_bytes shift (body_bytes (gates_of gates.now)) ++ drop (at + gate_size * length gates.now) buffer.old }
{
    for (i, bytes) in gates.iter().enumerate() {
        write_further_on(buffer, at + GATE_SIZE * i, shift, *bytes);
    }
}

// The gates of two accepted lists as one record on n qubits at the front of the buffer, the second list's qubits numbered further on by a
// shift: 4, then 11.
#[tactic(auto, using(joining_types::proofs::Writing::gates_many, joining_types::proofs::Writing::buffer_short, record_format::proofs::Chunks::length_gates_of, record_format::proofs::GateLaws::length_shift))]
pub fn write_joined(
    n: usize,
    first: &[[u8; 3]],
    second: &[[u8; 3]],
    shift: u8,
    buffer: &mut [u8],
) -> Result<usize, Refusal>
    requires within { AllWithin most_qubits (gates_of first.now) × AllWithin most_qubits (gates_of second.now) }
    requires few { (n ≤ most_qubits) × (shift ≤ most_qubits) }
    ensures answers { joined_answer result ≡ (written n (gates_of first.now) (shift_list shift (gates_of second.now)) buffer.old).answer }
    ensures leaves { buffer.new ≡ (written n (gates_of first.now) (shift_list shift (gates_of second.now)) buffer.old).buffer }
{
    let gates = first.len() + second.len();
    if gates > MOST_GATES {
        return Err(Refusal::TooManyGates);
    }
    let size = HEAD_SIZE + GATE_SIZE * gates;
    if buffer.len() < size {
        return Err(Refusal::BufferShort);
    }
    write_head(buffer, n as u8, gates as u16);
    write_gates(buffer, HEAD_SIZE, 0, first);
    write_gates(buffer, HEAD_SIZE + GATE_SIZE * first.len(), shift, second);
    Ok(size)
}
