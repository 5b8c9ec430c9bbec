// Terms in two lent workspaces: the sets in one, the coefficients in the other.
// Stays: sets and coefficients, the two lent workspaces, are two parameters everywhere; `Phase` of phase_sum_types says why.
ghost use Rattle.std.specs.Prelude.{◌≡◌, ◌+◌, ◌-◌, ◌%◌, ◌<◌, ◌≤◌, [], ◌∷◌, ◌++◌, length, take, drop, replicate};
ghost use Rattle.phase_sum_meaning.specs.Phase.{term, minus};
ghost use Rattle.phase_sum_types.specs.Workspace.{set_of, sets_at, Level, held, Stored};

use phase_sum_sets::{load, store};
use phase_sum_types::{Set, WORDS_EACH};

// The sum of two coefficients mod 8.
pub fn add(a: u8, b: u8) -> u8
    ensures { result ≡ (a + b) % 8 }
{
    (a % 8 + b % 8) % 8
}

// Minus a coefficient, mod 8.
pub fn negate(c: u8) -> u8
    ensures { result ≡ minus c }
{
    (8 - c % 8) % 8
}

// A term behind the first count terms, unmerged. Returns the new count.
pub fn append(sets: &mut [u64], coeffs: &mut [u8], count: usize, set: Set, coeff: u8) -> usize
    requires { Level sets.old coeffs.old × (count < length coeffs.old) }
    ensures { Stored count (held count (sets_at sets.old) coeffs.old ++ term (set_of set) coeff ∷ []) result (sets_at sets.old) coeffs.old (sets_at sets.new) coeffs.new }
{
    store(sets, count, set);
    coeffs[count] = coeff;
    count + 1
}

// Zeros in both workspaces from one place up to another.
// Stays: as `clear` of two parts, each caller has to name the words of the places, and to prove from them what the sets are.
pub fn zero(sets: &mut [u64], coeffs: &mut [u8], from: usize, to: usize)
    requires { (from ≤ to) × Level sets.old coeffs.old × (to ≤ length coeffs.old) }
    ensures sets { sets_at sets.new ≡ take from (sets_at sets.old) ++ replicate (to - from) 0 ++ drop to (sets_at sets.old) }
    ensures bytes { coeffs.new ≡ take from coeffs.old ++ replicate (to - from) 0 ++ drop to coeffs.old }
{
    sets[WORDS_EACH * from..WORDS_EACH * to].fill(0);
    coeffs[from..to].fill(0);
}

// Zeros in every word and byte of both workspaces.
pub fn clear(sets: &mut [u64], coeffs: &mut [u8])
    ensures words { sets.new ≡ replicate (length sets.old) 0 }
    ensures bytes { coeffs.new ≡ replicate (length coeffs.old) 0 }
{
    sets.fill(0);
    coeffs.fill(0);
}
