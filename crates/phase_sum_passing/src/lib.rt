// The phase-sum layer, passing: one pass over the terms or the wires in lent slices that changes each, unmerged. A variable is replaced by a
// parity, or taken out. Document 01, "Reducing it".
// Stays: sets and coefficients, the two lent workspaces, are two parameters everywhere; `Phase` of phase_sum_types says why.
#![tactic(auto)]

ghost use Rattle.std.specs.Prelude.{◌≡◌, ◌+◌, ◌%◌, ◌<◌, ◌≤◌, cond, map, ◌++◌, length, get_or, set, take, drop};
ghost use Rattle.phase_sum_meaning.specs.Sets.{◌△◌, single};
ghost use Rattle.phase_sum_meaning.specs.Parity.{of, replace_in};
ghost use Rattle.phase_sum_meaning.specs.Phase.{minus, rebuild};
ghost use Rattle.phase_sum_meaning.specs.Stepping.{out_of};
ghost use Rattle.phase_sum_types.specs.Workspace.{set_of, sets_at, places_in, Whole, Level, held, parity_of, Stored};
ghost use Rattle.phase_sum_types.specs.Inner.{sent_to};

use phase_sum_sets::{holds_at, load, remove_at, store};
use phase_sum_terms::terms::{add, negate};
use phase_sum_terms::wires::Wires;
use phase_sum_types::{Parity, Phase, Set, Variable};

// A set that holds z with z replaced by a parity's set.
fn replaced(set: Set, z: Variable, by: Set) -> Set
    ensures { set_of result ≡ set_of set △ single z △ set_of by }
{
    set ^ Set::single(z) ^ by
}

// A wire with the variable z replaced by the parity p.
#[tactic(auto, using(crate::proofs::Passing::replaced_in, phase_sum_meaning::proofs::ParityLaws::replace_in_absent))]
fn replace_in(w: Parity, z: Variable, p: Parity) -> Parity
    ensures { parity_of result ≡ replace_in z (parity_of p) (parity_of w) }
{
    if w.set.holds(z) {
        w ^ Parity::from(z) ^ p
    } else {
        w
    }
}

// The variable z replaced by the parity p in every wire.
// Stays: by place, since `Wires` lends no wire: an `iter_mut` of it, for this pass alone, is one more type with a model and its laws.
pub fn replace_in_wires(wires: &mut Wires, z: Variable, p: Parity)
    ensures { wires.new ≡ map (replace_in z (parity_of p)) wires.old }
{
    for q in 0..wires.len() {
        let new = replace_in(wires.get(q), z, p);
        wires.set(q, new);
    }
}

// A term's coefficient: negated where its set became complemented.
fn signed(coeff: u8, flipped: bool) -> u8
    ensures { result ≡ cond flipped (minus coeff) coeff }
{
    if flipped { negate(coeff) } else { coeff }
}

// The constant: with a coefficient more where its term's set became complemented.
fn with_flip(constant: u8, coeff: u8, flipped: bool) -> u8
    ensures { result ≡ cond flipped ((constant + coeff) % 8) constant }
{
    if flipped {
        add(constant, coeff)
    } else {
        constant
    }
}

// The variable z replaced by the parity p in the term at a place. Returns the constant, which was given, after that.
#[tactic(auto, using(crate::proofs::Passing::at_place))]
fn replace_at(
    sets: &mut [u64],
    coeffs: &mut [u8],
    i: usize,
    constant: u8,
    z: Variable,
    p: Parity,
) -> u8
    requires { Level sets.old coeffs.old × (i < length coeffs.old) }
    ensures constant { result ≡ cond (replace_in z (parity_of p) (of (get_or (sets_at sets.old) i 0))).flipped ((constant + get_or coeffs.old i 0) % 8) constant }
    ensures sets { sets_at sets.new ≡ set (sets_at sets.old) i (replace_in z (parity_of p) (of (get_or (sets_at sets.old) i 0))).vars }
    ensures bytes { coeffs.new ≡ set coeffs.old i (cond (replace_in z (parity_of p) (of (get_or (sets_at sets.old) i 0))).flipped (minus (get_or coeffs.old i 0)) (get_or coeffs.old i 0)) }
{
    if holds_at(sets, i, z) {
        let coeff = coeffs[i];
        let set = load(sets, i);
        store(sets, i, replaced(set, z, p.set));
        coeffs[i] = signed(coeff, p.flipped);
        with_flip(constant, coeff, p.flipped)
    } else {
        constant
    }
}

// The variable z replaced by the parity p in every term, unmerged. Returns the constant.
// Stays: by place, as in `take_out_unmerged`: the words would be lent in chunks here too.
pub fn replace_unmerged(
    sets: &mut [u64],
    coeffs: &mut [u8],
    phase: Phase,
    z: Variable,
    p: Parity,
) -> u8
    requires { Level sets.old coeffs.old × (phase.count ≤ length coeffs.old) }
    ensures constant { result ≡ (rebuild (λ u. replace_in z (parity_of p) (of u)) phase.constant (held phase.count (sets_at sets.old) coeffs.old)).constant }
    ensures terms { Stored phase.count (map (sent_to (λ u. replace_in z (parity_of p) (of u))) (held phase.count (sets_at sets.old) coeffs.old)) phase.count (sets_at sets.old) coeffs.old (sets_at sets.new) coeffs.new }
{
    let mut constant = add(phase.constant, 0);
    for i in 0..phase.count {
        constant = replace_at(sets, coeffs, i, constant, z, p);
    }
    constant
}

// The variable y taken out of the first count sets.
// Stays: tried over `as_chunks_mut`, of which the library says nothing once the chunks are let go, so that the proof did not close.
pub fn take_out_unmerged(sets: &mut [u64], count: usize, y: Variable)
    requires { (count ≤ places_in sets.old) × Whole sets.old }
    ensures { sets_at sets.new ≡ map (out_of y) (take count (sets_at sets.old)) ++ drop count (sets_at sets.old) }
{
    for i in 0..count {
        remove_at(sets, i, y);
    }
}
