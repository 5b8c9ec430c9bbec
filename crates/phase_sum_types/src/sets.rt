// Sets of variables: every operation on a set. Whoever uses sets knows only these, but for the sort, which orders by one word after the other.
// What a set stands for is `set_of`.
ghost use Rattle.std.specs.Prelude.{◌≡◌, ℕ, ◌%◌, ◌^◌, ◌<◌, not, ◌&&◌, ◌||◌, length, eqb};
ghost use Rattle.amplitude.specs.Bits.{bit};
ghost use Rattle.phase_sum_meaning.specs.Sets.{◌△◌, single, parity, first_in, first_such, from};
ghost use Rattle.phase_sum_meaning.specs.Stepping.{out_of};
ghost use Rattle.phase_sum_meaning.specs.Room.{most_variables};
ghost use Rattle.phase_sum_words.specs.Words.{word_bits};
ghost use Rattle.phase_sum_types.specs.Workspace.{words_of_set, set_of, members, found_of};

use crate::{Set, Variable, WORD_BITS, WORDS_EACH};
use std::ops::{BitOr, BitXor};

impl Set {
    // The set of no variable.
    #[tactic(auto, unfolding(crate::specs::Workspace::set_of), using(crate::proofs::TwoWords::pair_none))]
    pub fn empty() -> Set
        ensures { set_of result ≡ 0 }
    {
        Set { high: 0, low: 0 }
    }

    // The set of one variable.
    #[tactic(auto, unfolding(crate::specs::Workspace::set_of), using(crate::proofs::TwoWords::pair_single_low, crate::proofs::TwoWords::pair_single_high, phase_sum_words::proofs::Word::shifted_one))]
    pub fn single(v: Variable) -> Set
        ensures { set_of result ≡ single v }
    {
        if v.number < WORD_BITS {
            return Set {
                high: 0,
                low: 1 << v.number,
            };
        }
        Set {
            high: 1 << (v.number - WORD_BITS),
            low: 0,
        }
    }

    // Is the set empty?
    #[tactic(auto, using(crate::proofs::Comparing::same_sets))]
    pub fn is_empty(self) -> bool
        ensures { result ≡ eqb (set_of self) 0 }
    {
        self == Set::empty()
    }

    // Is the variable in the set?
    #[tactic(auto, unfolding(crate::specs::Workspace::set_of), using(crate::proofs::TwoWords::pair_low, crate::proofs::TwoWords::pair_high, phase_sum_words::proofs::Word::shifted_bit))]
    pub fn holds(self, v: Variable) -> bool
        ensures { result ≡ bit v (set_of self) }
    {
        if v.number < WORD_BITS {
            return (self.low >> v.number) % 2 == 1;
        }
        (self.high >> (v.number - WORD_BITS)) % 2 == 1
    }

    // Are both variables in the set?
    pub fn holds_both(self, i: Variable, j: Variable) -> bool
        ensures { result ≡ bit i (set_of self) && bit j (set_of self) }
    {
        self.holds(i) && self.holds(j)
    }

    // How many variables are in the set.
    pub fn count(self) -> u32
        ensures { result ≡ length (members (set_of self)) }
    {
        self.low.count_ones() + self.high.count_ones()
    }

    // The set without a variable.
    #[tactic(auto, unfolding(phase_sum_meaning::specs::Stepping::out_of))]
    pub fn without(self, v: Variable) -> Set
        ensures { set_of result ≡ out_of v (set_of self) }
    {
        if self.holds(v) {
            return self ^ Set::single(v);
        }
        self
    }

    // The variables of the set that are below n, all in its low word: its inputs, on n qubits.
    #[tactic(auto, unfolding(crate::specs::Workspace::set_of), using(crate::proofs::TwoWords::pair_rest, phase_sum_words::proofs::Word::shifted_one))]
    pub fn below(self, n: u32) -> Set
        requires { n < word_bits }
        ensures { set_of result ≡ set_of self % 2 ^ n }
    {
        Set {
            high: 0,
            low: self.low % (1 << n),
        }
    }

    // The lowest variable of the set.
    pub fn lowest(self) -> Option<Variable>
        ensures { found_of result ≡ first_in (from 0 most_variables) (set_of self) }
    {
        if self.low != 0 {
            return Some(Variable::new(self.low.trailing_zeros()));
        }
        if self.high != 0 {
            return Some(Variable::new(WORD_BITS + self.high.trailing_zeros()));
        }
        None
    }

    // The lowest variable of this set of those left that another set holds.
    #[tactic(auto, unfolding(crate::specs::Workspace::set_of), using(crate::proofs::TwoWords::pair_and, crate::proofs::Choosing::lowest_within))]
    pub fn lowest_in(self, s: Set) -> Option<Variable>
        ensures { found_of result ≡ first_in (members (set_of self)) (set_of s) }
    {
        let both = Set {
            high: self.high & s.high,
            low: self.low & s.low,
        };
        both.lowest()
    }

    // The lowest variable of this set of those left that another set does not hold.
    pub fn lowest_out(self, s: Set) -> Option<Variable>
        ensures { found_of result ≡ first_such (λ v. not (bit v (set_of s))) (members (set_of self)) }
    {
        let alone = Set {
            high: self.high ^ (self.high & s.high),
            low: self.low ^ (self.low & s.low),
        };
        alone.lowest()
    }

    // The parity of the values that an input gives to the variables of the set: are those that are 1 an odd number? An input has no variable of
    // the high word.
    #[tactic(auto, unfolding(crate::specs::Workspace::set_of), using(phase_sum_words::proofs::Word::parity_counted, phase_sum_words::proofs::Variables::parity_low))]
    pub fn parity(self, input: u64) -> bool
        ensures { result ≡ parity (set_of self) input }
    {
        (self.low & input).count_ones() % 2 == 1
    }
}

// What is in one of two sets and not in both.
impl BitXor for Set {
    type Output = Set;

    ghost bitxor_gives = { λ a b r. set_of r ≡ set_of a △ set_of b };

    #[tactic(auto, unfolding(crate::specs::Workspace::set_of), using(crate::proofs::TwoWords::pair_xor))]
    fn bitxor(self, other: Set) -> Set {
        Set {
            high: self.high ^ other.high,
            low: self.low ^ other.low,
        }
    }
}

// What is in either of two sets.
impl BitOr for Set {
    type Output = Set;

    ghost bitor_gives = { λ a b r. (v : ℕ) → bit v (set_of r) ≡ bit v (set_of a) || bit v (set_of b) };

    #[tactic(auto, unfolding(crate::specs::Workspace::set_of), using(crate::proofs::TwoWords::pair_or))]
    fn bitor(self, other: Set) -> Set {
        Set {
            high: self.high | other.high,
            low: self.low | other.low,
        }
    }
}

// The set of two words, the low word first.
impl From<[u64; WORDS_EACH]> for Set {
    ghost from_gives = { λ words s. words_of_set s ≡ words };

    fn from([low, high]: [u64; WORDS_EACH]) -> Set {
        Set { high, low }
    }
}
