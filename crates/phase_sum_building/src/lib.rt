// The phase-sum layer, building: the path sum of a pair of gate lists. Document 01, "Building the sum". The terms are put one behind the
// other as the gates run, and merged once at the end.
// Stays: sets and coefficients, the two lent workspaces, are two parameters everywhere; `Phase` of phase_sum_types says why.
#![tactic(auto)]

ghost use Rattle.std.specs.Prelude.{◌≡◌, ℕ, ◌-◌, ◌≤◌, List, length};
ghost use Rattle.record_format.specs.Gate.{inverse_list};
ghost use Rattle.record_format.specs.Reading.{gates_in};
ghost use Rattle.phase_sum_meaning.specs.Sets.{from};
ghost use Rattle.phase_sum_meaning.specs.Building.{initial};
ghost use Rattle.phase_sum_meaning.specs.Room.{most_variables};
ghost use Rattle.phase_sum_types.specs.Workspace.{set_of, sets_at, Level, slices, lent, members};
ghost use Rattle.phase_sum_types.specs.Unmerged.{miter_in, append_gates, Runnable, Leaves, RunsAll, Builds, Buildable};

use phase_sum_gates::run_gate;
use phase_sum_merging::canonical;
use phase_sum_terms::wires::Wires;
use phase_sum_types::{Parity, Phase, Run, Set, Sum, Variable};
use record_format::gate::Gate;

// A whole list of gates, by its bytes, in list order.
// Stays: one loop for both orders, over an iterator of gates, would carry the gates that it yields as a ghost value in its contract.
pub fn forwards(
    run: Run,
    gates: &[u8],
    wires: &mut Wires,
    sets: &mut [u64],
    coeffs: &mut [u8],
) -> Run
    requires { Runnable run (gates_in gates.now) (lent wires.old sets.old coeffs.old) × Level sets.old coeffs.old }
    ensures { RunsAll (gates_in gates.now) run result (lent wires.old sets.old coeffs.old) (lent wires.new sets.new coeffs.new) }
{
    let mut now = run;
    for bytes in gates.as_chunks::<3>().0 {
        run_gate(&mut now, Gate::from(*bytes), wires, sets, coeffs);
    }
    now
}

// A whole list of gates, by its bytes, backwards and each inverted.
pub fn backwards(
    run: Run,
    gates: &[u8],
    wires: &mut Wires,
    sets: &mut [u64],
    coeffs: &mut [u8],
) -> Run
    requires { Runnable run (inverse_list (gates_in gates.now)) (lent wires.old sets.old coeffs.old) × Level sets.old coeffs.old }
    ensures { RunsAll (inverse_list (gates_in gates.now)) run result (lent wires.old sets.old coeffs.old) (lent wires.new sets.new coeffs.new) }
{
    let mut now = run;
    for bytes in gates.as_chunks::<3>().0.iter().rev() {
        run_gate(&mut now, Gate::from(*bytes).inverse(), wires, sets, coeffs);
    }
    now
}

// The sum of no gates, on as many qubits as there are wires: no phase yet, and each wire its own input.
// Stays: that there are at most 16 is asked here, since it is the length of the wires and no number that a `Qubits` holds.
fn start(wires: &mut Wires) -> Run
    requires { length wires.old ≤ 16 }
    ensures { (ss cs : List ℕ) → Leaves (initial 0 (length wires.old)) 0 result (slices wires.old ss cs) (slices wires.new ss cs) }
{
    let n = wires.len();
    for q in 0..n {
        wires.set(q, Parity::from(Variable::new(q as u32)));
    }
    Run {
        next: n as u32,
        phase: Phase::default(),
    }
}

// The variables from n up to next, as a set.
fn path_variables(n: u32, next: u32) -> Set
    requires { (n ≤ next) × (next ≤ most_variables) }
    ensures { members (set_of result) ≡ from n (next - n) }
{
    let mut set = Set::empty();
    for v in n..next {
        set = set | Set::single(Variable::new(v));
    }
    set
}

// The first list run on the sum of no gates, then the second inverted, both by their bytes, on as many qubits as there are wires.
// Stays: two lists as two parameters, here and below: what `Buildable` says of them goes by n, the number of the wires; a struct with an n of its
// own would have each contract say that both are the same.
fn run_pair(
    first: &[u8],
    second: &[u8],
    wires: &mut Wires,
    sets: &mut [u64],
    coeffs: &mut [u8],
) -> Run
    requires { Buildable (length wires.old) first.now second.now (sets_at sets.old) coeffs.old × Level sets.old coeffs.old }
    ensures sum { Leaves (append_gates (length wires.old) (miter_in first.now second.now) (initial 0 (length wires.old))) 0 result (lent wires.old sets.old coeffs.old) (lent wires.new sets.new coeffs.new) }
    ensures variables { (length wires.old ≤ result.next) × (result.next ≤ most_variables) }
    ensures places { result.phase.count ≤ length coeffs.old }
{
    let begun = start(wires);
    let half = forwards(begun, first, wires, sets, coeffs);
    backwards(half, second, wires, sets, coeffs)
}

// The sum of the first list followed by the second inverted, both by their bytes, merged, on as many qubits as there are wires.
pub fn build(
    first: &[u8],
    second: &[u8],
    wires: &mut Wires,
    sets: &mut [u64],
    coeffs: &mut [u8],
) -> Sum
    requires { Buildable (length wires.old) first.now second.now (sets_at sets.old) coeffs.old × Level sets.old coeffs.old }
    ensures { Builds (miter_in first.now second.now) result (lent wires.old sets.old coeffs.old) (lent wires.new sets.new coeffs.new) }
{
    let n = wires.len();
    let run = run_pair(first, second, wires, sets, coeffs);
    Sum {
        live: path_variables(n as u32, run.next),
        phase: Phase {
            count: canonical(sets, coeffs, run.phase.count),
            ..run.phase
        },
    }
}
