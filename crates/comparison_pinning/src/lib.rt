// The comparison layer, pinning: each output wire set equal to its input, qubit 0 upwards. Document 01, "Reducing it".
// Stays: sets and coefficients, the two lent workspaces, are two parameters everywhere; `Phase` of phase_sum_types says why.
#![tactic(auto)]

ghost use Rattle.std.specs.Prelude.{◌≡◌, ◌+◌, ◌<◌, ◌≤◌, length, get_or};
ghost use Rattle.phase_sum_meaning.specs.Parity.{of, ◌⊕◌, rest};
ghost use Rattle.phase_sum_meaning.specs.Building.{input};
ghost use Rattle.phase_sum_meaning.specs.Room.{most_variables};
ghost use Rattle.phase_sum_types.specs.Workspace.{Level, parity_of, lent, Sized};
ghost use Rattle.comparison_meaning.specs.Reduction.{is_zero};
ghost use Rattle.comparison_types.specs.Inner.{PinnedQubit, PinnedAll};

use comparison_types::{Counts, End, Progress};
use phase_sum_stepping::replace;
use phase_sum_terms::wires::Wires;
use phase_sum_types::{Parity, Sum, Variable};

// The parity of output wire q and input q together.
fn mismatch(wires: &Wires, q: usize) -> Parity
    requires { (q < most_variables) × (q < length wires.now) }
    ensures { parity_of result ≡ get_or wires.now q (of 0) ⊕ input 0 q }
{
    wires.get(q) ^ Parity::from(Variable::new(q as u32))
}

// The rest of a parity without a variable that it holds.
pub fn rest_of(w: Parity, z: Variable) -> Parity
    ensures { parity_of result ≡ rest z (parity_of w) }
{
    w ^ Parity::from(z)
}

// Is the parity constantly 0?
fn is_zero(w: Parity) -> bool
    ensures { result ≡ is_zero (parity_of w) }
{
    w.set.is_empty() && !w.flipped
}

// Qubit q pinned; or the parity that blocks it, and nothing has changed.
fn pin_qubit(
    now: Progress,
    q: usize,
    wires: &mut Wires,
    sets: &mut [u64],
    coeffs: &mut [u8],
) -> Result<Progress, Parity>
    requires { (q < length wires.old) × (now.counts.pins ≤ q) × Sized now.sum (lent wires.old sets.old coeffs.old) × Level sets.old coeffs.old }
    ensures { PinnedQubit q now result (lent wires.old sets.old coeffs.old) (lent wires.new sets.new coeffs.new) }
{
    let w = mismatch(wires, q);
    match now.sum.live.lowest_in(w.set) {
        Some(z) => Ok(Progress {
            sum: replace(now.sum, z, rest_of(w, z), wires, sets, coeffs),
            counts: now.counts.add_pin(),
        }),
        None if is_zero(w) => Ok(now),
        None => Err(w),
    }
}

// Every qubit pinned, up to the first that is blocked.
pub fn pin(sum: Sum, wires: &mut Wires, sets: &mut [u64], coeffs: &mut [u8]) -> End
    requires { Sized sum (lent wires.old sets.old coeffs.old) × Level sets.old coeffs.old }
    ensures { PinnedAll sum result (lent wires.old sets.old coeffs.old) (lent wires.new sets.new coeffs.new) }
{
    let mut reached = Progress {
        sum,
        counts: Counts::default(),
    };
    for q in 0..wires.len() {
        match pin_qubit(reached, q, wires, sets, coeffs) {
            Ok(next) => reached = next,
            Err(by) => return End::blocked_at(reached, by),
        }
    }
    End::stops_at(reached)
}
