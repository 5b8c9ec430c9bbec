// The record layer, writing: the builder (start, add) and the inverse. The last two functions, which have a `requires`, are no calls: they are
// public for `joining_writing`, and `records` does not pass them on.
#![tactic(auto)]

mod builder;
mod inverter;

ghost use Rattle.std.specs.Prelude.{◌≡◌, ◌+◌, ◌<◌, ◌≤◌, length, take, drop, ◌++◌};
ghost use Rattle.record_format.specs.Format.{head_size, gate_size, last_one_qubit, no_qubit};
ghost use Rattle.record_format.specs.Writing.{head_bytes};

pub use builder::{add, start};
pub use inverter::inverse;
use record_bytes::LAST_ONE_QUBIT;
use record_format::GATE_SIZE;
use record_format::gate::NO_QUBIT;
use record_reading::LIST_MARK;

// A record's head at the front of a buffer.
pub fn write_head(buffer: &mut [u8], n: u8, g: u16)
    requires { head_size ≤ length buffer.old }
    ensures { buffer.new ≡ head_bytes n g ++ drop head_size buffer.old }
{
    buffer[..2].copy_from_slice(&LIST_MARK);
    buffer[2] = n;
    buffer[3..5].copy_from_slice(&g.to_le_bytes());
}

// What b of a gate of this kind is at least: 255 on one qubit, where b is spare, else 0. The greater of this and a qubit, or the bits of both, are b,
// without a branch.
pub fn least_b(kind: u8) -> u8
    ensures spare { kind ≤ last_one_qubit → result ≡ no_qubit }
    ensures qubit { last_one_qubit < kind → result ≡ 0 }
{
    if kind <= LAST_ONE_QUBIT { NO_QUBIT } else { 0 }
}

// A gate's three bytes at a place of a buffer.
// Stays: a place beside the buffer, since the callers' clauses are about the whole of it; parts by `split_at_mut` would be joined again in each.
pub fn write_gate(buffer: &mut [u8], at: usize, bytes: [u8; 3])
    requires { at + gate_size ≤ length buffer.old }
    ensures { buffer.new ≡ take at buffer.old ++ bytes ++ drop (at + gate_size) buffer.old }
{
    buffer[at..at + GATE_SIZE].copy_from_slice(&bytes);
}
