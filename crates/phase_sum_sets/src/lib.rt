// The phase-sum layer, sets at the places of a lent slice: two words a place, the low word first. What a slice of words holds is `sets_at`.
#![tactic(auto)]

ghost use Rattle.std.specs.Prelude.{◌≡◌, ◌<◌, get_or, set};
ghost use Rattle.amplitude.specs.Bits.{bit};
ghost use Rattle.phase_sum_meaning.specs.Stepping.{out_of};
ghost use Rattle.phase_sum_types.specs.Workspace.{set_of, sets_at, places_in, Whole};

use phase_sum_types::{Set, Variable, WORD_BITS, WORDS_EACH};

// The set at a place of a slice.
#[tactic(auto, unfolding(phase_sum_types::specs::Workspace::set_of), using(phase_sum_types::proofs::Chunks::set_of_chunk))]
pub fn load(words: &[u64], i: usize) -> Set
    requires { i < places_in words.now }
    ensures { set_of result ≡ get_or (sets_at words.now) i 0 }
{
    Set::from(words.as_chunks::<WORDS_EACH>().0[i])
}

// A set put at a place of a slice.
// Stays: as one copy it would name the range, and both words here or in a `From` for this place alone.
#[tactic(auto, unfolding(phase_sum_types::specs::Workspace::set_of), using(phase_sum_types::proofs::TwoWords::pair_stored))]
pub fn store(words: &mut [u64], i: usize, s: Set)
    requires { (i < places_in words.old) × Whole words.old }
    ensures { sets_at words.new ≡ set (sets_at words.old) i (set_of s) }
{
    let at = WORDS_EACH * i;
    words[at] = s.low;
    words[at + 1] = s.high;
}

// Is the variable in the set at a place?
#[tactic(auto, using(phase_sum_types::proofs::TwoWords::fitting, phase_sum_types::proofs::TwoWords::pair_member, phase_sum_words::proofs::Word::shifted_bit))]
pub fn holds_at(words: &[u64], i: usize, v: Variable) -> bool
    requires { i < places_in words.now }
    ensures { result ≡ bit v (get_or (sets_at words.now) i 0) }
{
    let n = v.number();
    let at = WORDS_EACH * i + (n / WORD_BITS) as usize;
    (words[at] >> (n % WORD_BITS)) % 2 == 1
}

// The variable taken out of the set at a place.
pub fn remove_at(words: &mut [u64], i: usize, v: Variable)
    requires { (i < places_in words.old) × Whole words.old }
    ensures { sets_at words.new ≡ set (sets_at words.old) i (out_of v (get_or (sets_at words.old) i 0)) }
{
    let n = v.number();
    let at = WORDS_EACH * i + (n / WORD_BITS) as usize;
    words[at] ^= words[at] & (1 << (n % WORD_BITS));
}
