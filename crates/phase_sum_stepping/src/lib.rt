// The phase-sum layer, stepping: the single steps of the reduction on terms in lent workspaces and on wires. Document 01, "Reducing it".
// Each change is one pass over the terms and one canonical form.
// Stays: sets and coefficients, the two lent workspaces, are two parameters everywhere; `Phase` of phase_sum_types says why.
#![tactic(auto)]

ghost use Rattle.std.specs.Prelude.{◌≡◌, ◌+◌, ◌<◌, ◌≤◌, cond, length, eqb};
ghost use Rattle.phase_sum_meaning.specs.Stepping.{replace, take_out, turned};
ghost use Rattle.phase_sum_types.specs.Workspace.{set_of, parity_of, Level, lent, Stands, Changed, TermsChanged};

use phase_sum_merging::canonical;
use phase_sum_passing::{replace_in_wires, replace_unmerged, take_out_unmerged};
use phase_sum_terms::terms::{add, append};
use phase_sum_terms::wires::Wires;
use phase_sum_types::{Halves, Parity, Phase, Sum, Variable};

// The variable z replaced by the parity p in all terms and wires, and the terms merged.
pub fn replace(
    sum: Sum,
    z: Variable,
    p: Parity,
    wires: &mut Wires,
    sets: &mut [u64],
    coeffs: &mut [u8],
) -> Sum
    requires { Stands sum (lent wires.old sets.old coeffs.old) × Level sets.old coeffs.old }
    ensures { Changed (replace z (parity_of p)) sum.phase.count sum result (lent wires.old sets.old coeffs.old) (lent wires.new sets.new coeffs.new) }
{
    replace_in_wires(wires, z, p);
    let constant = replace_unmerged(sets, coeffs, sum.phase, z, p);
    Sum {
        live: sum.live.without(z),
        phase: Phase {
            constant,
            count: canonical(sets, coeffs, sum.phase.count),
        },
    }
}

// The variable y taken out of every term, and the terms merged.
pub fn take_out(sum: Sum, y: Variable, sets: &mut [u64], coeffs: &mut [u8]) -> Sum
    requires { Level sets.old coeffs.old × (sum.phase.count ≤ length coeffs.old) }
    ensures { TermsChanged (take_out y) sum.phase.count sum result sets.old coeffs.old sets.new coeffs.new }
{
    take_out_unmerged(sets, sum.phase.count, y);
    Sum {
        live: sum.live.without(y),
        phase: Phase {
            constant: add(sum.phase.constant, 0),
            count: canonical(sets, coeffs, sum.phase.count),
        },
    }
}

// The constant of a turn with C = c and the coefficient of its term: 1 and −2 for C = 1, −1 and 2 for C = 3.
fn turn(c: u8) -> (u8, u8)
    ensures constant { result.0 ≡ cond (eqb c 1) 1 7 }
    ensures coeff { result.1 ≡ cond (eqb c 1) 6 2 }
{
    if c == 1 { (1, 6) } else { (7, 2) }
}

// The variable y taken out of every term, the constant and the term of a turn of C on L added, and the terms merged.
pub fn turn_out(sum: Sum, y: Variable, halves: Halves, sets: &mut [u64], coeffs: &mut [u8]) -> Sum
    requires { Level sets.old coeffs.old × (sum.phase.count < length coeffs.old) }
    ensures { TermsChanged (λ s. turned halves.c (set_of halves.l) (take_out y s)) (sum.phase.count + 1) sum result sets.old coeffs.old sets.new coeffs.new }
{
    take_out_unmerged(sets, sum.phase.count, y);
    let (constant, coeff) = turn(halves.c);
    let more = append(sets, coeffs, sum.phase.count, halves.l, coeff);
    Sum {
        live: sum.live.without(y),
        phase: Phase {
            constant: add(sum.phase.constant, constant),
            count: canonical(sets, coeffs, more),
        },
    }
}

// The variable y taken out of every term, then z replaced by the parity p in all terms and wires, and the terms merged.
pub fn join_out(
    sum: Sum,
    y: Variable,
    z: Variable,
    p: Parity,
    wires: &mut Wires,
    sets: &mut [u64],
    coeffs: &mut [u8],
) -> Sum
    requires { Stands sum (lent wires.old sets.old coeffs.old) × Level sets.old coeffs.old }
    ensures { Changed (λ s. replace z (parity_of p) (take_out y s)) sum.phase.count sum result (lent wires.old sets.old coeffs.old) (lent wires.new sets.new coeffs.new) }
{
    replace_in_wires(wires, z, p);
    take_out_unmerged(sets, sum.phase.count, y);
    let constant = replace_unmerged(sets, coeffs, sum.phase, z, p);
    Sum {
        live: sum.live.without(y).without(z),
        phase: Phase {
            constant,
            count: canonical(sets, coeffs, sum.phase.count),
        },
    }
}
