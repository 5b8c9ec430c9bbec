// Counting the gates of a list: its H gates, and its T gates with their inverses.
// Stays: bytes, and not the chunks of whole gates, since a count takes any bytes; chunks would ask more of callers.
#![tactic(auto)]

ghost use Rattle.std.specs.Prelude.{◌≡◌};
ghost use Rattle.record_format.specs.Reading.{gates_in};
ghost use Rattle.record_format.specs.Typed.{gate_in};
ghost use Rattle.amplitude.specs.Circuit.{h_gates, t_gates};
ghost use Rattle.gate_counting.specs.Inner.{counts_h, counts_t};

use record_format::gate::{Gate, OneQubit};

// Is it an H?
fn is_h(gate: Gate) -> bool
    ensures { result ≡ counts_h (gate_in gate) }
{
    matches!(
        gate,
        Gate::One {
            kind: OneQubit::H,
            ..
        }
    )
}

// Is it a T or the inverse of one?
fn is_t(gate: Gate) -> bool
    ensures { result ≡ counts_t (gate_in gate) }
{
    matches!(
        gate,
        Gate::One {
            kind: OneQubit::T | OneQubit::TInverse,
            ..
        }
    )
}

// The H gates of a list.
// Stays: two loops with a test each; of one function over the test, the contract would say what the test says as a ghost value, as long as the loop.
// Stays: loops, since `filter` with `count` branches at each gate.
pub fn h_gates(gates: &[u8]) -> usize
    ensures { result ≡ h_gates (gates_in gates.now) }
{
    let mut count = 0;
    for bytes in gates.as_chunks::<3>().0 {
        count += usize::from(is_h(Gate::from(*bytes)));
    }
    count
}

// The T gates of a list, inverses among them.
pub fn t_gates(gates: &[u8]) -> usize
    ensures { result ≡ t_gates (gates_in gates.now) }
{
    let mut count = 0;
    for bytes in gates.as_chunks::<3>().0 {
        count += usize::from(is_t(Gate::from(*bytes)));
    }
    count
}
