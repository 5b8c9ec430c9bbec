// The terms and wires that earlier rows left.
ghost use Rattle.std.specs.Prelude.{◌≤◌};
ghost use Rattle.phase_sum_meaning.specs.Room.{places};

use comparison_checking::{PLACES, SET_WORDS};
use phase_sum_types::{Parity, Phase};
use record_reading::MOST_QUBITS;

#[derive(Drop)]
pub(crate) struct State {
    pub wires: [Parity; MOST_QUBITS],
    pub phase: Phase,
    // A row's terms were more than there are places: no function is called then but to build or nothing.
    // Stays: a flag beside the phase, which is printed also where it is set, so that an Option of the phase would lose it.
    pub overfull: bool,
    pub sets: [u64; SET_WORDS],
    pub coeffs: [u8; PLACES],
    ghost in_places: { phase.count ≤ places },
}

impl State {
    // No terms, and all wires empty.
    pub(crate) fn new() -> State {
        State {
            wires: [Parity::default(); MOST_QUBITS],
            phase: Phase::default(),
            overfull: false,
            sets: [0; SET_WORDS],
            coeffs: [0; PLACES],
        }
    }

    // A phase that a row loads or a call leaves; of terms beyond the places none is kept.
    pub(crate) fn set_phase(&mut self, phase: Phase) {
        self.overfull = phase.count > PLACES;
        self.phase = Phase {
            count: phase.count.min(PLACES),
            ..phase
        };
    }
}
