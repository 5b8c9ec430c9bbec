// The record layer, its base: gate-list and report records as bytes (document 01, "Gate lists as bytes", "Report, pick, builder", "Where a
// call is turned down"; document 02, item 1). Here stand the format's definitions and laws, and the types of the answers and, in `gate`, of gates. Licensees use
// `records`.
#![tactic(auto)]

pub mod gate;

ghost use Rattle.std.specs.Prelude.{◌≡◌};
ghost use Rattle.record_format.specs.Answer.{number_of};

// The bytes of a record's head: mark, n, g.
pub const HEAD_SIZE: usize = 5;

// The bytes of a gate: kind, a, b.
// Stays: a record's size, HEAD_SIZE + GATE_SIZE * g, is written out where it is asked; a function would ask for a bound on g, which each place would
// have to show as it shows now that its own sum fits.
pub const GATE_SIZE: usize = 3;

// Why a call is turned down. specs/Answer.antt gives each case the table's number and the index of its gate.
#[derive(Clone, Copy, Debug, PartialEq, Eq)]
pub enum Refusal {
    // 1: fewer than 5 bytes, or than the 12 of a report
    Short,
    // 2: another mark
    WrongMark,
    // 3: n is 0 or above 16
    QubitCount,
    // 4: more than 512 gates
    GateCount,
    // 13: fewer than 5 + 3g bytes
    BodyShort,
    // 5: the kind of the gate at this index, from 0, is above 10
    UnknownKind { gate: usize },
    // 7: b of the one-qubit gate at this index is not 255
    SpareByte { gate: usize },
    // 6: a qubit of the gate at this index is not below n, or its two qubits are one
    QubitRange { gate: usize },
    // 5: a report's verdict is above 3
    UnknownVerdict,
    // 11: the buffer is shorter than the new record
    BufferShort,
}

// The number of a refusal.
impl From<Refusal> for u8 {
    ghost from_gives = { λ refusal number. number ≡ number_of refusal };

    fn from(refusal: Refusal) -> u8 {
        match refusal {
            Refusal::Short => 1,
            Refusal::WrongMark => 2,
            Refusal::QubitCount => 3,
            Refusal::GateCount => 4,
            Refusal::BodyShort => 13,
            Refusal::UnknownKind { gate: _ } => 5,
            Refusal::SpareByte { gate: _ } => 7,
            Refusal::QubitRange { gate: _ } => 6,
            Refusal::UnknownVerdict => 5,
            Refusal::BufferShort => 11,
        }
    }
}

// What the check of a record finds: its qubits and gates.
#[derive(Clone, Copy, Debug, PartialEq, Eq)]
pub struct Head {
    pub n: usize,
    pub g: usize,
}

// A report's eight fields. Verdict: 0 equal, 1 different, 2 undecided, 3 turned.
// Stays: the verdict is a number, since the writer refuses one above 3 by number and an enum could not hold it.
#[derive(Clone, Copy, Debug, PartialEq, Eq)]
pub struct Report {
    pub verdict: u8,
    pub first: u16,
    pub second: u16,
    pub pins: u8,
    pub sums: u8,
    pub turns: u8,
    pub joins: u8,
    pub left: u8,
}
