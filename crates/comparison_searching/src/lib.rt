// The comparison layer, searching: the inputs of weight 1, 2 and 3, lower numbers first, for one whose phase differs from that of input 0.
// Document 01, "Reducing it".
#![tactic(auto)]

ghost use Rattle.std.specs.Prelude.{◌≡◌, ◌%◌, ◌^◌, ◌<◌, ◌≤◌, not, eqb, IfSome};
ghost use Rattle.phase_sum_meaning.specs.Sets.{single};
ghost use Rattle.phase_sum_meaning.specs.Phase.{phase_at};
ghost use Rattle.comparison_meaning.specs.Verdict.{weight, candidates, first_differing};
ghost use Rattle.phase_sum_types.specs.Inner.{OddMask};
ghost use Rattle.phase_sum_types.specs.Workspace.{set_of, found_of};
ghost use Rattle.comparison_types.specs.Inner.{first_beside, AgreesToTwo};

use comparison_types::Qubits;
use phase_sum_reading::{odd_both_in, odd_mask};
use phase_sum_terms::reading::PhaseTerms;
use phase_sum_types::{Set, Variable};

// The input that holds qubit q alone.
fn only(q: u32) -> u64
    requires { q < 16 }
    ensures { result ≡ single q }
{
    1u64 << q
}

// The inputs to be tried: those of so many qubits, for the phase at them.
#[derive(Drop)]
struct Candidates<'a> {
    terms: &'a PhaseTerms<'a>,
    n: u32,
    ghost few: { n ≤ 16 },
}

impl<'a> Candidates<'a> {
    // Does the phase at an input differ from that at input 0?
    fn differs(&self, input: u64) -> bool
        ensures { result ≡ not (eqb (phase_at self.now.terms.now input % 8) (phase_at self.now.terms.now 0 % 8)) }
    {
        self.terms.at(input) != self.terms.constant() % 8
    }

    // The inputs with one of the first so many qubits, beside those that are held already.
    fn one_beside(&self, held: u64, below: u32) -> Option<u64>
        requires { (below ≤ self.now.n) × (held < 65536) }
        ensures { found_of result ≡ first_beside self.now.terms.now held 1 below }
    {
        for i in 0..below {
            let input = held + only(i);
            if self.differs(input) {
                return Some(input);
            }
        }
        None
    }

    // The inputs of weight 1.
    fn weight_one(&self) -> Option<u64>
        ensures { found_of result ≡ first_differing self.now.terms.now (weight 0 1 self.now.n) }
    {
        self.one_beside(0, self.n)
    }

    // The inputs of weight 2, the higher qubit outside.
    fn weight_two(&self) -> Option<u64>
        ensures { found_of result ≡ first_differing self.now.terms.now (weight 0 2 self.now.n) }
    {
        for i in 0..self.n {
            if let Some(input) = self.one_beside(only(i), i) {
                return Some(input);
            }
        }
        None
    }

    // The inputs of weight 3, the highest qubit outside, where none of weight 1 or 2 differs. With qubits i, j and k an input differs exactly if
    // an odd number of terms of odd coefficient hold all three: one pass over the terms for each i and j shows it for every k. The mask has the
    // variables that are in such terms.
    // Stays: the mask is a set beside its terms; a type of both would be made once and asked once.
    fn weight_three(&self, mask: Set) -> Option<u64>
        requires { AgreesToTwo self.now.terms.now self.now.n × OddMask (set_of mask) self.now.terms.now.terms }
        ensures { found_of result ≡ first_differing self.now.terms.now (weight 0 3 self.now.n) }
    {
        for i in 0..self.n {
            let high = only(i);
            for j in 0..i {
                let pair = high + only(j);
                let both = odd_both_in(mask, self.terms, Variable::new(i), Variable::new(j));
                for k in 0..j {
                    if both.holds(Variable::new(k)) {
                        return Some(pair + only(k));
                    }
                }
            }
        }
        None
    }

    // Weight 1, then 2, then 3. Where no coefficient is odd, weight 2 is enough.
    fn first_differing(&self) -> Option<u64>
        ensures { found_of result ≡ first_differing self.now.terms.now (candidates 0 self.now.n) }
    {
        let one = self.weight_one();
        if one.is_some() {
            return one;
        }
        let two = self.weight_two();
        if two.is_some() {
            return two;
        }
        let mask = odd_mask(self.terms);
        if mask.is_empty() {
            return None;
        }
        self.weight_three(mask)
    }
}

// The first input that differs: weight 1, then 2, then 3.
pub fn search(terms: &PhaseTerms, n: Qubits) -> Option<u64>
    ensures first { found_of result ≡ first_differing terms.now (candidates 0 n) }
    ensures fits { IfSome result (λ input. input < 2 ^ 16) }
{
    let n = n.count();
    Candidates { terms, n }.first_differing()
}
