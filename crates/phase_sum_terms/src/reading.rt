// A phase whose terms are read: in two lent slices, the sets in one and the coefficients in the other.
ghost use Rattle.std.specs.Prelude.{◌≡◌, ◌%◌, ◌≤◌, cond, length};
ghost use Rattle.std.specs.Iterator.{YieldsFirst, item_count};
ghost use Rattle.amplitude.specs.Bits.{bit};
ghost use Rattle.phase_sum_meaning.specs.Sets.{parity};
ghost use Rattle.phase_sum_meaning.specs.Phase.{phase_at};
ghost use Rattle.phase_sum_types.specs.Workspace.{set_of, sets_at, places_in, phase_of};

use crate::terms::add;
use phase_sum_sets::holds_at;
use phase_sum_types::{Phase, Set, Variable, WORDS_EACH};
use std::marker::Model;

// A term that is read: its coefficient, and the words of its set. Contracts see the term.
#[derive(Drop)]
pub struct Term<'a> {
    words: &'a [u64; WORDS_EACH],
    coeff: u8,
}

impl<'a> Model for Term<'a> {
    ghost use Rattle.phase_sum_meaning.specs.Phase.{Term, term};
    ghost use Rattle.phase_sum_words.specs.Words.{wide};

    ghost Value = { Term };

    ghost view = { λ t. term (wide t.words.now) t.coeff };
}

impl<'a> Term<'a> {
    // Its coefficient.
    pub fn coeff(&self) -> u8
        ensures { result ≡ self.now.coeff }
    {
        self.coeff
    }

    // Its set.
    #[tactic(auto, unfolding(phase_sum_types::specs::Workspace::set_of))]
    pub fn set(&self) -> Set
        ensures { set_of result ≡ self.now.set }
    {
        Set::from(*self.words)
    }

    // Is the variable in its set? Only the word that has the variable is read.
    #[tactic(auto, using(phase_sum_types::proofs::Chunks::set_alone))]
    pub fn holds(&self, v: Variable) -> bool
        ensures { result ≡ bit v self.now.set }
    {
        let words = self.words;
        holds_at(words, 0, v)
    }
}

// The terms that are left to read: as many sets as coefficients, in order. Contracts see their list.
#[derive(Drop)]
pub struct Terms<'a> {
    sets: &'a [[u64; WORDS_EACH]],
    coeffs: &'a [u8],
}

impl<'a> Model for Terms<'a> {
    ghost use Rattle.std.specs.Prelude.{◌≡◌, List, map, length};
    ghost use Rattle.phase_sum_meaning.specs.Phase.{Term};
    ghost use Rattle.phase_sum_words.specs.Words.{wide};
    ghost use Rattle.phase_sum_types.specs.Workspace.{zip_terms};

    ghost Value = { List Term };

    ghost view = { λ t. zip_terms (map wide t.sets.now) t.coeffs.now };

    ghost invariant = { λ t. length t.sets.now ≡ length t.coeffs.now };
}

impl<'a> Iterator for Terms<'a> {
    type Item = Term<'a>;

    ghost next_gives = { YieldsFirst (λ terms. terms) };

    ghost remaining = { item_count (λ terms. terms) };

    #[tactic(auto, unfolding(phase_sum_types::specs::Workspace::zip_terms))]
    fn next(&mut self) -> Option<Term<'a>> {
        let (coeff, coeffs) = self.coeffs.split_first()?;
        let (words, sets) = self.sets.split_first().unwrap();
        self.coeffs = coeffs;
        self.sets = sets;
        Some(Term {
            words,
            coeff: *coeff,
        })
    }
}

// A phase whose terms are read: its constant, and its terms. Contracts see the phase.
#[derive(Drop)]
pub struct PhaseTerms<'a> {
    constant: u8,
    terms: Terms<'a>,
}

impl<'a> Model for PhaseTerms<'a> {
    ghost use Rattle.phase_sum_meaning.specs.Phase.{Phase};

    ghost Value = { Phase };

    ghost view = { λ t. record { constant = t.constant; terms = t.terms } };
}

impl<'a> PhaseTerms<'a> {
    // The phase whose terms two slices hold.
    #[tactic(auto, using(phase_sum_types::proofs::Chunks::terms_of_chunks))]
    pub fn new(sets: &'a [u64], coeffs: &'a [u8], phase: Phase) -> PhaseTerms<'a>
        requires { (phase.count ≤ places_in sets.now) × (phase.count ≤ length coeffs.now) }
        ensures { result ≡ phase_of phase (sets_at sets.now) coeffs.now }
    {
        PhaseTerms {
            constant: phase.constant,
            terms: Terms {
                sets: &sets.as_chunks::<WORDS_EACH>().0[..phase.count],
                coeffs: &coeffs[..phase.count],
            },
        }
    }

    // The phase's constant.
    pub fn constant(&self) -> u8
        ensures { result ≡ self.now.constant }
    {
        self.constant
    }

    // The terms, in order.
    // Stays: the two parts are named again, since a type with a model and a lifetime is not Copy.
    pub fn iter(&self) -> Terms<'a>
        ensures { result ≡ self.now.terms }
    {
        Terms {
            sets: self.terms.sets,
            coeffs: self.terms.coeffs,
        }
    }

    // The phase at an input, mod 8.
    #[tactic(auto, using(phase_sum_types::proofs::Places::sum_at_more), unfolding(phase_sum_meaning::specs::Phase::phase_at, phase_sum_meaning::specs::Phase::sum_at))]
    pub fn at(&self, input: u64) -> u8
        ensures { result ≡ phase_at self.now input % 8 }
    {
        let mut sum = self.constant % 8;
        for term in self.iter() {
            sum = add(sum, share(&term, input));
        }
        sum
    }
}

// A term's coefficient where its parity is 1 at the input, else 0.
fn share(term: &Term, input: u64) -> u8
    ensures { result ≡ cond (parity term.now.set input) term.now.coeff 0 }
{
    if term.set().parity(input) {
        term.coeff()
    } else {
        0
    }
}
