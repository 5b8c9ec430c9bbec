// The phase-sum layer, reading: what a step goes by, namely which variables are in terms of odd coefficient, and the C and L of a variable;
// and what the search goes by at three qubits, namely the terms of odd coefficient that hold two. Document 01, "Reducing it".
#![tactic(auto)]

ghost use Rattle.std.specs.Prelude.{◌≡◌, ◌/◌, ◌%◌, cond, ◌&&◌, eqb};
ghost use Rattle.amplitude.specs.Bits.{bit};
ghost use Rattle.phase_sum_meaning.specs.Stepping.{out_of, half_sum, odd_halves};
ghost use Rattle.phase_sum_types.specs.Inner.{OddMask, odd_both};
ghost use Rattle.phase_sum_types.specs.Workspace.{set_of};

use phase_sum_terms::reading::{PhaseTerms, Term};
use phase_sum_terms::terms::add;
use phase_sum_types::{Halves, Set, Variable};

// A term's set where its coefficient is odd, else the empty set.
fn odd_set(term: &Term) -> Set
    ensures { set_of result ≡ cond (eqb (term.now.coeff % 2) 1) term.now.set 0 }
{
    if term.coeff() % 2 == 1 {
        term.set()
    } else {
        Set::empty()
    }
}

// The variables that are in terms of odd coefficient.
#[tactic(auto, using(phase_sum_types::proofs::Passes::in_odd_more, amplitude::proofs::BitLaws::bit_zero), unfolding(phase_sum_meaning::specs::Phase::in_odd))]
pub fn odd_mask(terms: &PhaseTerms) -> Set
    ensures { OddMask (set_of result) terms.now.terms }
{
    let mut mask = Set::empty();
    for term in terms.iter() {
        mask = mask | odd_set(&term);
    }
    mask
}

// A term's set where it holds both variables and its coefficient is odd, else the empty set.
fn odd_if_both(term: &Term, i: Variable, j: Variable) -> Set
    ensures { set_of result ≡ cond (bit i term.now.set && bit j term.now.set) (cond (eqb (term.now.coeff % 2) 1) term.now.set 0) 0 }
{
    if term.holds(i) && term.holds(j) {
        odd_set(term)
    } else {
        Set::empty()
    }
}

// The exclusive or of the sets of the terms of odd coefficient that hold both variables.
#[tactic(auto, using(phase_sum_types::proofs::Passes::odd_both_more), unfolding(phase_sum_types::specs::Inner::odd_both))]
fn odd_both(terms: &PhaseTerms, i: Variable, j: Variable) -> Set
    ensures { set_of result ≡ odd_both i j terms.now.terms }
{
    let mut both = Set::empty();
    for term in terms.iter() {
        both = both ^ odd_if_both(&term, i, j);
    }
    both
}

// The same with the mask of the variables in terms of odd coefficient: where it has not both, the terms need no pass.
pub fn odd_both_in(mask: Set, terms: &PhaseTerms, i: Variable, j: Variable) -> Set
    requires { OddMask (set_of mask) terms.now.terms }
    ensures { set_of result ≡ odd_both i j terms.now.terms }
{
    if mask.holds_both(i, j) {
        odd_both(terms, i, j)
    } else {
        Set::empty()
    }
}

// A term's coefficient where it holds y, else 0.
fn coeff_with(term: &Term, y: Variable) -> u8
    ensures { result ≡ cond (bit y term.now.set) term.now.coeff 0 }
{
    if term.holds(y) { term.coeff() } else { 0 }
}

// A term's set without y where it holds y and its half coefficient is odd, else the empty set.
fn odd_half(term: &Term, y: Variable) -> Set
    ensures { set_of result ≡ cond (bit y term.now.set) (cond (eqb (term.now.coeff / 2 % 2) 1) (out_of y term.now.set) 0) 0 }
{
    if term.holds(y) && term.coeff() / 2 % 2 == 1 {
        term.set().without(y)
    } else {
        Set::empty()
    }
}

// C: half the sum of the coefficients of the terms that hold y, mod 4. L: the exclusive or of their sets without y, over those
// whose half coefficient is odd.
#[tactic(auto, using(phase_sum_types::proofs::Passes::coeffs_more, phase_sum_types::proofs::Passes::odd_halves_more), unfolding(phase_sum_meaning::specs::Stepping::coeffs, phase_sum_meaning::specs::Stepping::odd_halves))]
pub fn halves_of(terms: &PhaseTerms, y: Variable) -> Halves
    ensures c { result.c ≡ half_sum y terms.now.terms }
    ensures l { set_of result.l ≡ odd_halves y terms.now.terms }
{
    let mut sum = 0;
    let mut l = Set::empty();
    for term in terms.iter() {
        sum = add(sum, coeff_with(&term, y));
        l = l ^ odd_half(&term, y);
    }
    Halves { c: sum / 2, l }
}
