// The record layer, its leaves: the check of a gate's three bytes, and their limits.
#![tactic(auto)]

ghost use Rattle.std.specs.Prelude.{◌≡◌};
ghost use Rattle.record_format.specs.Gate.{raw_of_three};
ghost use Rattle.record_format.specs.Row.{first};
ghost use Rattle.record_format.specs.Reading.{gate_rows};
ghost use Rattle.record_format.specs.Answer.{gate_fault};

use record_format::Refusal;
use record_format::gate::{NO_QUBIT, OneQubit, TwoQubit};

// The kinds up to this act on one qubit.
pub const LAST_ONE_QUBIT: u8 = OneQubit::H as u8;

// The kinds above it, up to this, act on two.
pub const LAST_KIND: u8 = TwoQubit::Swap as u8;

// The bytes of the gate at an index against n qubits: 5, then 7, then 6.
#[tactic(auto, unfolding(record_format::specs::Row::first))]
pub fn check_gate(n: usize, gate: usize, bytes: [u8; 3]) -> Result<(), Refusal>
    ensures { gate_fault result ≡ first (gate_rows n gate (raw_of_three bytes)) }
{
    let [kind, a, b] = bytes;
    if kind <= LAST_ONE_QUBIT {
        if b != NO_QUBIT {
            return Err(Refusal::SpareByte { gate });
        }
        if n <= usize::from(a) {
            return Err(Refusal::QubitRange { gate });
        }
        return Ok(());
    }
    if kind > LAST_KIND {
        return Err(Refusal::UnknownKind { gate });
    }
    if n <= usize::from(a) || n <= usize::from(b) || a == b {
        return Err(Refusal::QubitRange { gate });
    }
    Ok(())
}
