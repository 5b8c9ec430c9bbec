// The record layer, reading: the check call, and the gate bytes as a part of the caller's slice.
#![tactic(auto)]

ghost use Rattle.std.specs.Prelude.{◌≡◌, ◌+◌, ◌*◌, ◌≤◌, length, take, drop, IfOk};
ghost use Rattle.record_format.specs.Format.{head_size, gate_size, most_qubits, most_gates};
ghost use Rattle.record_format.specs.Row.{first};
ghost use Rattle.record_format.specs.Reading.{raws, size, all_gate_rows, read};
ghost use Rattle.record_format.specs.Chunks.{raws_of};
ghost use Rattle.record_format.specs.Writing.{check_answer, gate_part, gates_at};
ghost use Rattle.record_format.specs.Answer.{checked_answer, gate_fault};
ghost use Rattle.record_format.specs.Inner.{head_answer};

use record_bytes::check_gate;
use record_format::{GATE_SIZE, HEAD_SIZE, Head, Refusal};

// The numbers of the formats (specs/Format.antt), each named once.
// The two bytes that a gate-list record begins with.
pub const LIST_MARK: [u8; 2] = [0x51, 0x43];

// n is from 1 to this.
pub const MOST_QUBITS: usize = 16;

// g is from 0 to this.
pub const MOST_GATES: usize = 512;

// Head and body: 1, 2, 3, 4, 13.
#[tactic(auto, unfolding(record_format::specs::Row::first))]
fn check_head(s: &[u8]) -> Result<Head, Refusal>
    ensures answers { checked_answer result ≡ head_answer s.now }
    ensures limits { IfOk result (λ head. (1 ≤ head.n) × (head.n ≤ most_qubits) × (head.g ≤ most_gates) × (size head.g ≤ length s.now)) }
{
    let Some(bytes) = s.first_chunk::<HEAD_SIZE>() else {
        return Err(Refusal::Short);
    };
    if !s.starts_with(&LIST_MARK) {
        return Err(Refusal::WrongMark);
    }
    let [_, _, qubits, low, high] = *bytes;
    let n = usize::from(qubits);
    if n == 0 || n > MOST_QUBITS {
        return Err(Refusal::QubitCount);
    }
    let g = usize::from(u16::from_le_bytes([low, high]));
    if g > MOST_GATES {
        return Err(Refusal::GateCount);
    }
    if s.len() < HEAD_SIZE + GATE_SIZE * g {
        return Err(Refusal::BodyShort);
    }
    Ok(Head { n, g })
}

// Each gate in turn: the first bad one's first of 5, 7, 6, with its index.
#[tactic(auto, using(record_format::proofs::Reading::chunk_passed, record_format::proofs::Reading::chunk_stopped, record_format::proofs::Reading::chunk_rows_end))]
fn check_gates(n: usize, gates: &[[u8; 3]]) -> Result<(), Refusal>
    ensures { gate_fault result ≡ first (all_gate_rows n 0 (raws_of gates.now)) }
{
    for (i, bytes) in gates.iter().enumerate() {
        check_gate(n, i, *bytes)?;
    }
    Ok(())
}

// The qubits and gates of the record at the start of s, or why it is refused.
#[tactic(auto, using(record_format::proofs::Reading::head_refuses, record_format::proofs::Reading::gates_refuse, record_format::proofs::Reading::check_decides))]
pub fn check(s: &[u8]) -> Result<Head, Refusal>
    ensures answers { checked_answer result ≡ check_answer (read s.now) }
    ensures limits { IfOk result (λ head. (1 ≤ head.n) × (head.n ≤ most_qubits) × (head.g ≤ most_gates) × (size head.g ≤ length s.now)) }
{
    let head = check_head(s)?;
    check_gates(head.n, whole_gates(s, head.g))?;
    Ok(head)
}

// The bytes of g gates behind the head, as that part of s: of an accepted record of g gates, its gate bytes.
// Stays: `check` gives n and g alone, as licensees have it, so that each cut behind it asks for the bytes of g gates.
pub fn gate_bytes(s: &[u8], g: usize) -> &[u8]
    requires { size g ≤ length s.now }
    ensures content { result.now ≡ take (gate_size * g) (drop head_size s.now) }
    ensures own { result.ref_ptr ≡ (s.entry.ref_ptr.0, head_size + s.entry.ref_ptr.1) }
{
    &s[HEAD_SIZE..HEAD_SIZE + GATE_SIZE * g]
}

// The same g gates, three bytes each.
#[tactic(auto, using(record_format::proofs::Chunks::raws_of_chunks))]
pub fn whole_gates(s: &[u8], g: usize) -> &[[u8; 3]]
    requires { size g ≤ length s.now }
    ensures content { raws_of result.now ≡ raws (take (gate_size * g) (drop head_size s.now)) }
    ensures count { length result.now ≡ g }
{
    gate_bytes(s, g).as_chunks::<3>().0
}

// The gate bytes of the record at the start of s, as that part of s; an empty part if the record is refused.
#[tactic(auto, unfolding(record_format::specs::Reading::read), using(record_format::proofs::Reading::accepts))]
pub fn gates(s: &[u8]) -> &[u8]
    ensures content { result.now ≡ gate_part s.now (read s.now) }
    ensures own { result.ref_ptr ≡ gates_at (read s.now) s.entry.ref_ptr }
{
    match check(s) {
        Ok(head) => gate_bytes(s, head.g),
        Err(_) => &s[..0],
    }
}
