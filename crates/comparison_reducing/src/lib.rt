// The comparison layer, reducing: steps at the lowest ready variable, until none is ready or one is blocked. Document 01, "Reducing it".
// Stays: sets and coefficients, the two lent workspaces, are two parameters everywhere; `Phase` of phase_sum_types says why.
#![tactic(auto)]

ghost use Rattle.std.specs.Prelude.{◌≡◌, ◌<◌, true, false, length};
ghost use Rattle.amplitude.specs.Bits.{bit};
ghost use Rattle.phase_sum_meaning.specs.Stepping.{kind_of, constrained, first_ready};
ghost use Rattle.phase_sum_meaning.specs.Room.{most_variables};
ghost use Rattle.phase_sum_types.specs.Workspace.{set_of, sets_at, Level, parity_of, members, found_of, lent, Sized};
ghost use Rattle.comparison_types.specs.Inner.{CountedTo, StepsTo, StepsAt, ReducedTo};
ghost use Rattle.comparison_reducing.specs.Kind.{kind_in};

use comparison_pinning::rest_of;
use comparison_types::{End, Progress};
use phase_sum_reading::{halves_of, odd_mask};
use phase_sum_stepping::{join_out, take_out, turn_out};
use phase_sum_terms::reading::PhaseTerms;
use phase_sum_terms::wires::Wires;
use phase_sum_types::{Halves, Parity, Set, Sum, Variable};

// What must be 0 for a join: L with constant C/2.
fn constraint_of(halves: Halves) -> Parity
    ensures { parity_of result ≡ constrained halves.c (set_of halves.l) }
{
    Parity {
        set: halves.l,
        flipped: halves.c / 2 % 2 == 1,
    }
}

// The three kinds of step.
#[derive(Clone, Copy, Debug, PartialEq, Eq)]
enum Kind {
    // C and L are nothing: y drops out
    Sum,
    // C is odd: y drops out by an eighth turn
    Turn,
    // else L with constant C/2 must be 0: a join, or a block
    Constraint,
}

// The kind of the step with this C and L.
#[tactic(auto, unfolding(phase_sum_meaning::specs::Stepping::kind_of))]
fn kind_of(halves: Halves) -> Kind
    ensures { kind_in result ≡ kind_of halves.c (set_of halves.l) }
{
    if halves.c % 2 == 1 {
        return Kind::Turn;
    }
    if halves.c == 0 && halves.l.is_empty() {
        return Kind::Sum;
    }
    Kind::Constraint
}

// The step at a variable y left, whose C and L are given: a sum, a turn, or a join that replaces z; or, where there is no z to join, the parity
// that blocks it, and nothing has changed.
pub fn step_at(
    now: Progress,
    y: Variable,
    z: Option<Variable>,
    halves: Halves,
    wires: &mut Wires,
    sets: &mut [u64],
    coeffs: &mut [u8],
) -> Result<Progress, Parity>
    requires { (bit y (set_of now.sum.live) ≡ true) × CountedTo most_variables now.counts × Sized now.sum (lent wires.old sets.old coeffs.old) × Level sets.old coeffs.old }
    ensures { StepsTo y (found_of z) halves.c (set_of halves.l) now result (lent wires.old sets.old coeffs.old) (lent wires.new sets.new coeffs.new) }
{
    let Progress { sum, counts } = now;
    match kind_of(halves) {
        Kind::Sum => Ok(Progress {
            sum: take_out(sum, y, sets, coeffs),
            counts: counts.add_sum(),
        }),
        Kind::Turn => Ok(Progress {
            sum: turn_out(sum, y, halves, sets, coeffs),
            counts: counts.add_turn(),
        }),
        Kind::Constraint => {
            let constraint = constraint_of(halves);
            match z {
                Some(z) => Ok(Progress {
                    sum: join_out(sum, y, z, rest_of(constraint, z), wires, sets, coeffs),
                    counts: counts.add_join(),
                }),
                None => Err(constraint),
            }
        }
    }
}

// The step at a ready variable y, where a join replaces the lowest variable left of L.
fn step(
    now: Progress,
    y: Variable,
    wires: &mut Wires,
    sets: &mut [u64],
    coeffs: &mut [u8],
) -> Result<Progress, Parity>
    requires { (bit y (set_of now.sum.live) ≡ true) × CountedTo most_variables now.counts × Sized now.sum (lent wires.old sets.old coeffs.old) × Level sets.old coeffs.old }
    ensures { StepsAt y now result (lent wires.old sets.old coeffs.old) (lent wires.new sets.new coeffs.new) }
{
    let Sum { live, phase } = now.sum;
    let halves = halves_of(&PhaseTerms::new(sets, coeffs, phase), y);
    let z = live.without(y).lowest_in(halves.l);
    step_at(now, y, z, halves, wires, sets, coeffs)
}

// The lowest ready variable: left, and in no term of odd coefficient.
fn ready(live: Set, terms: &PhaseTerms) -> Option<Variable>
    ensures { found_of result ≡ first_ready (members (set_of live)) terms.now.terms }
{
    live.lowest_out(odd_mask(terms))
}

// The steps of a pinned sum: at most one for each variable left.
pub fn reduce(pinned: Progress, wires: &mut Wires, sets: &mut [u64], coeffs: &mut [u8]) -> End
    requires { CountedTo 0 pinned.counts × Sized pinned.sum (lent wires.old sets.old coeffs.old) × Level sets.old coeffs.old }
    ensures { ReducedTo pinned result (lent wires.old sets.old coeffs.old) (lent wires.new sets.new coeffs.new) }
{
    let mut reached = pinned;
    for _ in 0..pinned.sum.live.count() {
        let Sum { live, phase } = reached.sum;
        let Some(y) = ready(live, &PhaseTerms::new(sets, coeffs, phase)) else {
            return End::stops_at(reached);
        };
        match step(reached, y, wires, sets, coeffs) {
            Ok(next) => reached = next,
            Err(by) => return End::blocked_at(reached, by),
        }
    }
    End::stops_at(reached)
}
