// A row that builds: two records, the second directly after the first.
ghost use Rattle.std.specs.Prelude.{◌≡◌, ◌+◌, ◌<◌, ◌≤◌, true, List, IfSome};
ghost use Rattle.record_format.specs.Gate.{Gate};
ghost use Rattle.record_format.specs.Reading.{accepted, read, gates_in};
ghost use Rattle.amplitude.specs.Circuit.{h_gates};
ghost use Rattle.phase_sum_meaning.specs.Room.{most_variables};

use crate::print;
use crate::state::State;
use comparison_checking::MOST_VARIABLES;
use gate_counting::h_gates;
use phase_sum_terms::wires::Wires;
use phase_sum_types::Parity;
use record_format::HEAD_SIZE;
use record_reading::{MOST_QUBITS, check, gates};
use std::io;
use std::io::Write;

// The qubits of the record at the start of the bytes, if there is one.
fn qubits(s: &[u8]) -> Option<usize>
    ensures { IfSome result (λ n. (gs : List Gate) × (read s.now ≡ accepted n gs)) }
{
    let head = check(s).ok()?;
    Some(head.n)
}

// Whether two lists on n qubits, by their gate bytes, have at most as many variables together as a pair may have.
fn few_variables(n: usize, first: &[u8], second: &[u8]) -> bool
    ensures { result ≡ true → n + (h_gates (gates_in first.now) + h_gates (gates_in second.now)) ≤ most_variables }
{
    n.saturating_add(h_gates(first).saturating_add(h_gates(second))) <= MOST_VARIABLES
}

// The sum of two accepted records on n qubits, and the line for it: the next variable, the phase, and the wires.
fn build_accepted(
    out: &mut impl Write,
    state: &mut State,
    n: usize,
    first: &[u8],
    second: &[u8],
) -> io::Result<()>
    requires { ((gs : List Gate) × (read first.now ≡ accepted n gs)) × ((gs : List Gate) × (read second.now ≡ accepted n gs)) }
{
    let one = gates(first);
    let two = gates(second);
    if n > MOST_QUBITS || !few_variables(n, one, two) {
        return Ok(());
    }
    let mut parities = [Parity::default(); MOST_QUBITS];
    let mut wires = Wires::new(&mut parities[..n]);
    let sum = phase_sum_building::build(one, two, &mut wires, &mut state.sets, &mut state.coeffs);
    state.wires = parities;
    state.set_phase(sum.phase);
    // Stays: `as`, since no `From` goes from `usize` to a number of bits; `try_from` gives a case that never comes.
    let next = n as u64 + u64::from(sum.live.count());
    write!(out, "{next} ")?;
    print::state(out, state)
}

// The sum of the two records at the start of the bytes, on as many qubits.
pub(crate) fn build(out: &mut impl Write, state: &mut State, first: &[u8]) -> io::Result<()> {
    let Some(n) = qubits(first) else {
        return Ok(());
    };
    let Some(second) = first.get(HEAD_SIZE + gates(first).len()..) else {
        return Ok(());
    };
    match qubits(second) {
        Some(m) if m == n => build_accepted(out, state, n, first, second),
        _ => Ok(()),
    }
}
