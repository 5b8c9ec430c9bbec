// The comparison layer, judging: the verdict on where the reduction ended, with its two inputs and the counts. Document 01, "Reducing it".
#![tactic(auto)]

ghost use Rattle.std.specs.Prelude.{◌≡◌, Option};
ghost use Rattle.phase_sum_types.specs.Workspace.{parity_of, phase_of, Lent};
ghost use Rattle.comparison_meaning.specs.Verdict.{blocked_input, result as verdict_result, searched, judge};
ghost use Rattle.phase_sum_types.specs.declared.Parity.{Parity};
ghost use Rattle.comparison_types.specs.Call.{verdict_of, result_of};
ghost use Rattle.comparison_types.specs.Inner.{end_of, stops_at};

use comparison_searching::search;
use comparison_types::{End, Outcome, Progress, Qubits, Verdict, agreement};
use phase_sum_terms::reading::PhaseTerms;
use phase_sum_terms::terms::negate;
use phase_sum_types::Parity;

// An input that makes a blocked parity 1: 0 if its constant is 1, else the input that holds only its lowest qubit.
#[tactic(auto, unfolding(comparison_meaning::specs::Verdict::blocked_input))]
fn blocked_input(by: Parity, n: Qubits) -> u16
    ensures { result ≡ blocked_input n (parity_of by) }
{
    if by.flipped {
        return 0;
    }
    match by.set.below(n.count()).lowest() {
        Some(v) => 1 << v.number(),
        None => 0,
    }
}

// The verdict and the inputs, with the counts and the variables left.
// Stays: licensees read an outcome's eight fields by their names, so that the counts of steps are copied into it.
#[tactic(auto, using(phase_sum_types::proofs::Members::members_few))]
fn outcome(reached: Progress, verdict: Verdict, first: u16, second: u16) -> Outcome
    ensures { (l : Lent) (blocked : Option Parity) → result_of result ≡ verdict_result (verdict_of verdict) first second (end_of (record { blocked = blocked; reached = reached }) l) }
{
    let Progress { sum, counts } = reached;
    Outcome {
        verdict,
        first,
        second,
        pins: counts.pins,
        sums: counts.sums,
        turns: counts.turns,
        joins: counts.joins,
        left: sum.live.count() as u8,
    }
}

// No path variable is left: different unless pins and sums agree, else the search decides. Where it finds nothing, minus the constant is the
// power of ω that carries the first list to the second.
fn searched(reached: Progress, n: Qubits, terms: &PhaseTerms) -> Outcome
    ensures { (l : Lent) → terms.now ≡ phase_of reached.sum.phase l.sets l.coeffs → result_of result ≡ searched 0 n (end_of (stops_at reached) l) }
{
    let Progress { sum, counts } = reached;
    if counts.pins != counts.sums {
        return outcome(reached, Verdict::Different, 0, 0);
    }
    if let Some(input) = search(terms, n) {
        return outcome(reached, Verdict::Different, 0, input as u16);
    }
    let j = negate(sum.phase.constant);
    outcome(reached, agreement(j), u16::from(j), 0)
}

// The verdict on n qubits, of an end and its terms.
pub fn judge(end: End, n: Qubits, terms: &PhaseTerms) -> Outcome
    ensures { (l : Lent) → terms.now ≡ phase_of end.reached.sum.phase l.sets l.coeffs → result_of result ≡ judge 0 n (end_of end l) }
{
    let End { blocked, reached } = end;
    if let Some(by) = blocked {
        let input = blocked_input(by, n);
        return outcome(reached, Verdict::Different, input, input);
    }
    if reached.sum.live.is_empty() {
        return searched(reached, n, terms);
    }
    outcome(reached, Verdict::Undecided, 0, 0)
}
