// Gates in their typed form, and as a record's three bytes: kind, a, b.
ghost use Rattle.std.specs.Prelude.{◌≡◌, ◌<◌, MatchResult};
ghost use Rattle.record_format.specs.Format.{last_one_qubit};
ghost use Rattle.record_format.specs.Gate.{gate_bytes, gate_of_three, inverse_gate, inverse_kind, inverse_number, one_qubit_kind, two_qubit_kind};
ghost use Rattle.record_format.specs.Typed.{one_in, two_in, gate_in};

// b of a gate on one qubit.
pub const NO_QUBIT: u8 = 255;

// The gates on one qubit, by the numbers of their kinds.
#[derive(Clone, Copy, Debug, PartialEq, Eq)]
pub enum OneQubit {
    X,
    Y,
    Z,
    S,
    SInverse,
    T,
    TInverse,
    H,
}

// The gates on two qubits, by the numbers of their kinds.
#[derive(Clone, Copy, Debug, PartialEq, Eq)]
pub enum TwoQubit {
    Cx = 8,
    Cz,
    Swap,
}

// A gate on qubit q, or on qubits a and b (Cx: a control, b target).
#[derive(Clone, Copy, Debug, PartialEq, Eq)]
pub enum Gate {
    One { kind: OneQubit, q: u8 },
    Two { kind: TwoQubit, a: u8, b: u8 },
}

impl From<OneQubit> for u8 {
    ghost from_gives = { λ kind k. k ≡ one_qubit_kind (one_in kind) };

    #[tactic(auto, unfolding(crate::specs::Gate::one_qubit_kind))]
    fn from(kind: OneQubit) -> u8 {
        kind as u8
    }
}

impl From<TwoQubit> for u8 {
    ghost from_gives = { λ kind k. k ≡ two_qubit_kind (two_in kind) };

    #[tactic(auto, unfolding(crate::specs::Gate::two_qubit_kind))]
    fn from(kind: TwoQubit) -> u8 {
        kind as u8
    }
}

// The gate on one qubit of a number, or the number itself where it is above 7.
impl TryFrom<u8> for OneQubit {
    type Error = u8;

    ghost try_from_gives = { λ k told. MatchResult told (λ kind. k ≡ one_qubit_kind (one_in kind)) (λ number. (last_one_qubit < k) × (number ≡ k)) };

    #[tactic(auto, unfolding(crate::specs::Gate::one_qubit_kind))]
    fn try_from(k: u8) -> Result<OneQubit, u8> {
        match k {
            0 => Ok(OneQubit::X),
            1 => Ok(OneQubit::Y),
            2 => Ok(OneQubit::Z),
            3 => Ok(OneQubit::S),
            4 => Ok(OneQubit::SInverse),
            5 => Ok(OneQubit::T),
            6 => Ok(OneQubit::TInverse),
            7 => Ok(OneQubit::H),
            _ => Err(k),
        }
    }
}

// The gate that a record's three bytes stand for. The conversion can not fail, so that a kind above 10 is read as 10: the check of a record
// refuses it before any gate is decoded.
// Stays: the numbers of two-qubit gates are read here alone; a `TryFrom` of `TwoQubit` would be the same three arms.
impl From<[u8; 3]> for Gate {
    ghost from_gives = { λ bytes gate. gate_in gate ≡ gate_of_three bytes };

    #[tactic(auto, unfolding(crate::specs::Gate::gate_of, crate::specs::Gate::one_qubit_kind))]
    fn from(bytes: [u8; 3]) -> Gate {
        let [kind, a, b] = bytes;
        match OneQubit::try_from(kind) {
            Ok(kind) => Gate::One { kind, q: a },
            Err(8) => Gate::Two {
                kind: TwoQubit::Cx,
                a,
                b,
            },
            Err(9) => Gate::Two {
                kind: TwoQubit::Cz,
                a,
                b,
            },
            Err(_) => Gate::Two {
                kind: TwoQubit::Swap,
                a,
                b,
            },
        }
    }
}

// The three bytes of a gate, as they stand in a record.
impl From<Gate> for [u8; 3] {
    ghost from_gives = { λ gate bytes. bytes ≡ gate_bytes (gate_in gate) };

    #[tactic(auto, unfolding(crate::specs::Gate::gate_bytes))]
    fn from(gate: Gate) -> [u8; 3] {
        match gate {
            Gate::One { kind, q } => [u8::from(kind), q, NO_QUBIT],
            Gate::Two { kind, a, b } => [u8::from(kind), a, b],
        }
    }
}

impl OneQubit {
    // S and T exchanged for their inverses; every other gate is its own inverse.
    #[tactic(auto, unfolding(crate::specs::Gate::inverse_kind, crate::specs::Gate::inverse_number, crate::specs::Gate::one_qubit_kind))]
    pub fn inverse(self) -> OneQubit
        ensures kind { one_in result ≡ inverse_kind (one_in self) }
        ensures number { one_qubit_kind (one_in result) ≡ inverse_number (one_qubit_kind (one_in self)) }
    {
        match self {
            OneQubit::S => OneQubit::SInverse,
            OneQubit::SInverse => OneQubit::S,
            OneQubit::T => OneQubit::TInverse,
            OneQubit::TInverse => OneQubit::T,
            kind => kind,
        }
    }
}

impl Gate {
    // The gate's inverse, on the same qubits.
    #[tactic(auto, unfolding(crate::specs::Gate::inverse_gate))]
    pub fn inverse(self) -> Gate
        ensures { gate_in result ≡ inverse_gate (gate_in self) }
    {
        match self {
            Gate::One { kind, q } => Gate::One {
                kind: kind.inverse(),
                q,
            },
            two => two,
        }
    }
}
