// The gates of a list's text.
use calls_text::hex::digit;
use record_format::gate::{Gate, OneQubit, TwoQubit};

// The kind of a letter, on one qubit.
fn on_one(letter: u8) -> Option<OneQubit> {
    match letter {
        b'x' => Some(OneQubit::X),
        b'y' => Some(OneQubit::Y),
        b'z' => Some(OneQubit::Z),
        b's' => Some(OneQubit::S),
        b'r' => Some(OneQubit::SInverse),
        b't' => Some(OneQubit::T),
        b'u' => Some(OneQubit::TInverse),
        b'h' => Some(OneQubit::H),
        _ => None,
    }
}

// The kind of a letter, on two qubits.
fn on_two(letter: u8) -> Option<TwoQubit> {
    match letter {
        b'c' => Some(TwoQubit::Cx),
        b'k' => Some(TwoQubit::Cz),
        b'w' => Some(TwoQubit::Swap),
        _ => None,
    }
}

// A gate, whose qubits may be out of range.
pub(crate) fn gate(text: &[u8]) -> Option<Gate> {
    match text {
        [letter, q] => Some(Gate::One {
            kind: on_one(*letter)?,
            q: digit(*q)?,
        }),
        [letter, a, b] => Some(Gate::Two {
            kind: on_two(*letter)?,
            a: digit(*a)?,
            b: digit(*b)?,
        }),
        _ => None,
    }
}
