// The phase-sum layer, its base: the types of the layer, with every operation on sets, and what its contracts say (specs/): path sums with their
// terms in two lent workspaces, the sets in one and the coefficients in the other, in as many of the first places as the sum counts. Document 01,
// "Building the sum" and "Reducing it". What a path sum is stands in phase_sum_meaning; the laws behind the layer's code are in proofs/.
//
// The functions of the layer that have a `requires` ask for as many places as terms, or, for building, for gates within n, no more variables than a
// set can hold and places for the room of the gates. Their callers' proofs meet that. That a variable is below the most, its type says.
#![tactic(auto)]

ghost use Rattle.std.specs.Prelude.{◌≡◌, ◌<◌};
ghost use Rattle.phase_sum_meaning.specs.Sets.{single};
ghost use Rattle.phase_sum_meaning.specs.Parity.{of, ◌⊕◌};
ghost use Rattle.phase_sum_meaning.specs.Room.{most_variables};
ghost use Rattle.phase_sum_types.specs.Workspace.{parity_of};

use std::marker::Model;
use std::ops::BitXor;

mod sets;

// A variable: its number, below the most that a set can hold. Contracts see the number.
#[derive(Clone, Copy, Debug, PartialEq, Eq)]
pub struct Variable {
    number: u32,
}

impl Model for Variable {
    ghost use Rattle.std.specs.Prelude.{ℕ, ◌<◌};
    ghost use Rattle.phase_sum_meaning.specs.Room.{most_variables};

    ghost Value = { ℕ };

    ghost view = { λ v. v.number };

    ghost invariant = { λ v. v.number < most_variables };

    ghost inverse = { λ n. record { number = n } };
}

impl Variable {
    // The variable of a number.
    pub fn new(number: u32) -> Variable
        requires { number < most_variables }
        ensures { result ≡ number }
    {
        Variable { number }
    }

    // Its number.
    pub fn number(self) -> u32
        ensures number { result ≡ self }
        ensures below { self < most_variables }
    {
        self.number
    }
}

// A set of variables in two words: variable v is in it where bit v % WORD_BITS of word v / WORD_BITS is 1, and the low word is word 0. Sets are
// ordered as the numbers that they stand for: the high words decide where they differ.
// Stays: no model, since it is `Copy` and its order derived, so that a model has to cut its number into words again; and the sort reads the words.
#[derive(Clone, Copy, Debug, Default, PartialEq, Eq, PartialOrd, Ord)]
pub struct Set {
    pub high: u64,
    pub low: u64,
}

// The variables of a word.
pub const WORD_BITS: u32 = 64;

// The words of a set.
pub const WORDS_EACH: usize = 2;

// A parity: of a set of variables, complemented where flipped. A wire of document 01 is one; so is what a pin or a join sets to 0.
// Stays: no model, since it is `Copy`, so that a model has to give back its set, which a number stands for, as two words.
#[derive(Clone, Copy, Default)]
pub struct Parity {
    pub set: Set,
    pub flipped: bool,
}

// The parity of one variable.
impl From<Variable> for Parity {
    ghost from_gives = { λ v p. parity_of p ≡ of (single v) };

    fn from(v: Variable) -> Parity {
        Parity {
            set: Set::single(v),
            flipped: false,
        }
    }
}

// The exclusive or of two parities.
impl BitXor for Parity {
    type Output = Parity;

    ghost bitxor_gives = { λ a b r. parity_of r ≡ parity_of a ⊕ parity_of b };

    fn bitxor(self, other: Parity) -> Parity {
        Parity {
            set: self.set ^ other.set,
            flipped: self.flipped ^ other.flipped,
        }
    }
}

// A phase whose terms stand in the first places of two lent workspaces.
// Stays: each call says what both lent workspaces hold in the end, down to the sort, which works on parts of them. Tried: a struct with a model
// loses that to its lender, and with a ghost field each contract says besides that they are the same slices still; chunks of two words
// (`as_chunks_mut`) lose it too.
#[derive(Clone, Copy, Default)]
pub struct Phase {
    pub constant: u8,
    pub count: usize,
}

// A path sum. Its wires stand in a lent slice of parities, one a qubit; its terms stand in the workspaces.
#[derive(Clone, Copy)]
pub struct Sum {
    // the path variables that are left
    pub live: Set,
    pub phase: Phase,
}

// A path sum under construction, its wires and terms lent likewise: all path variables from n up to the next one are left.
#[derive(Clone, Copy)]
pub struct Run {
    // the next path variable's number
    pub next: u32,
    pub phase: Phase,
}

// The C and L of a variable y: document 01, "Reducing it".
#[derive(Clone, Copy)]
pub struct Halves {
    pub c: u8,
    pub l: Set,
}
