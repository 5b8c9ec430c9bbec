// The joining layer, its base: what a join answers, and what its calls do and promise (specs/). Document 02, item 5. Licensees use `joining`.
#![tactic(auto)]

ghost use Rattle.std.specs.Prelude.{◌≡◌};
ghost use Rattle.joining_types.specs.Call.{number_of};

// Why a join is refused. specs/Call.antt gives each case the table's number and, for a list, the index of its gate.
// Stays: apart from the comparison's refusals, since licensees match on the cases that a call has, and three of these are not among the other's.
#[derive(Clone, Copy, Debug, PartialEq, Eq)]
pub enum Refusal {
    // 1 to 7 and 13: the first list
    First(record_format::Refusal),
    // 1 to 7 and 13: the second list, where the first is accepted
    Second(record_format::Refusal),
    // 8, in time: their n differ
    QubitsDiffer,
    // 3, in space: together they have more than 16 qubits
    TooManyQubits,
    // 4: together they have more than 512 gates
    TooManyGates,
    // 11: the buffer is shorter than the new record
    BufferShort,
}

// The number of a refusal.
impl From<Refusal> for u8 {
    ghost from_gives = { λ refusal number. number ≡ number_of refusal };

    fn from(refusal: Refusal) -> u8 {
        match refusal {
            Refusal::First(of_list) | Refusal::Second(of_list) => u8::from(of_list),
            Refusal::QubitsDiffer => 8,
            Refusal::TooManyQubits => 3,
            Refusal::TooManyGates => 4,
            Refusal::BufferShort => 11,
        }
    }
}
