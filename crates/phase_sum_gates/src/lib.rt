// The phase-sum layer, gates: what each gate does to the wires and the terms; those that only move wires are in phase_sum_moving and `Wires`.
// Document 01, "Building the sum".
// The wires are changed in place; the terms are put one behind the other.
// Stays: sets and coefficients, the two lent workspaces, are two parameters everywhere; `Phase` of phase_sum_types says why.
#![tactic(auto)]

ghost use Rattle.std.specs.Prelude.{◌+◌, ◌<◌, ◌≤◌, [], ◌∷◌, length};
ghost use Rattle.record_format.specs.Gate.{one, two, Y, CZ};
ghost use Rattle.record_format.specs.Typed.{one_in, two_in, gate_in};
ghost use Rattle.phase_sum_meaning.specs.Building.{product_by};
ghost use Rattle.phase_sum_types.specs.Workspace.{sets_at, Level, phase_of, Phased, alone, parity_of, lent};
ghost use Rattle.phase_sum_types.specs.Unmerged.{put_behind, sum_in, Runnable, Leaves, Runs};
ghost use Rattle.phase_sum_types.specs.Inner.{on_h, append_phase};

use phase_sum_moving::{add_wire, swap_wires};
use phase_sum_terms::terms::{add, append, negate};
use phase_sum_terms::wires::Wires;
use phase_sum_types::{Parity, Phase, Run, Variable};
use record_format::gate::{Gate, OneQubit, TwoQubit};

// A phase c on a wire, as one term more: on a complemented parity, c to the constant and the term −c.
#[tactic(auto, unfolding(phase_sum_types::specs::Unmerged::put_behind, phase_sum_types::specs::Unmerged::phase_term))]
pub fn put_phase(phase: Phase, c: u8, w: Parity, sets: &mut [u64], coeffs: &mut [u8]) -> Phase
    requires { Level sets.old coeffs.old × (phase.count < length coeffs.old) }
    ensures { Phased (put_behind c (parity_of w) (phase_of phase (sets_at sets.old) coeffs.old)) phase.count result (sets_at sets.old) coeffs.old (sets_at sets.new) coeffs.new }
{
    if w.flipped {
        Phase {
            constant: add(phase.constant, c),
            count: append(sets, coeffs, phase.count, w.set, negate(c)),
        }
    } else {
        Phase {
            count: append(sets, coeffs, phase.count, w.set, c),
            ..phase
        }
    }
}

// 4 on the product of two wires, by 4uv = 2u + 2v − 2(u ⊕ v).
pub fn put_product(phase: Phase, u: Parity, v: Parity, sets: &mut [u64], coeffs: &mut [u8]) -> Phase
    requires { Level sets.old coeffs.old × (phase.count + 3 ≤ length coeffs.old) }
    ensures { Phased (product_by put_behind (parity_of u) (parity_of v) (alone (phase_of phase (sets_at sets.old) coeffs.old))).phase phase.count result (sets_at sets.old) coeffs.old (sets_at sets.new) coeffs.new }
{
    let once = put_phase(phase, 2, u, sets, coeffs);
    let twice = put_phase(once, 2, v, sets, coeffs);
    put_phase(twice, 6, u ^ v, sets, coeffs)
}

// A phase c on wire q.
fn diagonal(run: &mut Run, c: u8, q: usize, wires: &Wires, sets: &mut [u64], coeffs: &mut [u8])
    requires { (q < length wires.now) × (length wires.now ≤ run.old.next) × (run.old.phase.count < length coeffs.old) × Level sets.old coeffs.old }
    ensures { Leaves (append_phase c q (sum_in run.old (lent wires.now sets.old coeffs.old))) run.old.phase.count run.new (lent wires.now sets.old coeffs.old) (lent wires.now sets.new coeffs.new) }
{
    run.phase = put_phase(run.phase, c, wires.get(q), sets, coeffs);
}

// Y: Z, then X and the factor ω².
// Stays: here and at the next ones the gate's room is unfolded where it runs; a lemma of `Runnable` would name each gate's number again.
#[tactic(auto, unfolding(amplitude::specs::Circuit::tally, phase_sum_meaning::specs::Room::room_for))]
fn y_gate(run: &mut Run, q: usize, wires: &mut Wires, sets: &mut [u64], coeffs: &mut [u8])
    requires { Runnable run.old (one Y q ∷ []) (lent wires.old sets.old coeffs.old) × Level sets.old coeffs.old }
    ensures { Runs (one Y q) run.old run.new (lent wires.old sets.old coeffs.old) (lent wires.new sets.new coeffs.new) }
{
    let phase = put_phase(run.phase, 4, wires.get(q), sets, coeffs);
    wires.flip(q);
    run.phase = Phase {
        constant: add(phase.constant, 2),
        ..phase
    };
}

// H: the next path variable comes in, and 4 on its product with the old wire.
#[tactic(auto, unfolding(amplitude::specs::Circuit::tally, phase_sum_meaning::specs::Room::room_for))]
fn hadamard(run: &mut Run, q: usize, wires: &mut Wires, sets: &mut [u64], coeffs: &mut [u8])
    requires { Runnable run.old (on_h q ∷ []) (lent wires.old sets.old coeffs.old) × Level sets.old coeffs.old }
    ensures { Runs (on_h q) run.old run.new (lent wires.old sets.old coeffs.old) (lent wires.new sets.new coeffs.new) }
{
    let new = Parity::from(Variable::new(run.next));
    run.next += 1;
    run.phase = put_product(run.phase, wires.get(q), new, sets, coeffs);
    wires.set(q, new);
}

// CZ: 4 on the product of two wires.
#[tactic(auto, unfolding(amplitude::specs::Circuit::tally, phase_sum_meaning::specs::Room::room_for))]
fn controlled_z(
    run: &mut Run,
    a: usize,
    b: usize,
    wires: &Wires,
    sets: &mut [u64],
    coeffs: &mut [u8],
)
    requires { Runnable run.old (two CZ a b ∷ []) (lent wires.now sets.old coeffs.old) × Level sets.old coeffs.old }
    ensures { Runs (two CZ a b) run.old run.new (lent wires.now sets.old coeffs.old) (lent wires.now sets.new coeffs.new) }
{
    run.phase = put_product(run.phase, wires.get(a), wires.get(b), sets, coeffs);
}

// A gate on one qubit.
#[tactic(auto, unfolding(amplitude::specs::Circuit::tally, phase_sum_meaning::specs::Room::room_for, phase_sum_meaning::specs::Building::gate_by))]
#[inline(always)]
fn run_one(
    run: &mut Run,
    kind: OneQubit,
    q: usize,
    wires: &mut Wires,
    sets: &mut [u64],
    coeffs: &mut [u8],
)
    requires { Runnable run.old (one (one_in kind) q ∷ []) (lent wires.old sets.old coeffs.old) × Level sets.old coeffs.old }
    ensures { Runs (one (one_in kind) q) run.old run.new (lent wires.old sets.old coeffs.old) (lent wires.new sets.new coeffs.new) }
{
    match kind {
        OneQubit::X => wires.flip(q),
        OneQubit::Y => y_gate(run, q, wires, sets, coeffs),
        OneQubit::Z => diagonal(run, 4, q, wires, sets, coeffs),
        OneQubit::S => diagonal(run, 2, q, wires, sets, coeffs),
        OneQubit::SInverse => diagonal(run, 6, q, wires, sets, coeffs),
        OneQubit::T => diagonal(run, 1, q, wires, sets, coeffs),
        OneQubit::TInverse => diagonal(run, 7, q, wires, sets, coeffs),
        OneQubit::H => hadamard(run, q, wires, sets, coeffs),
    }
}

// A gate on two qubits.
#[inline(always)]
fn run_two(
    run: &mut Run,
    kind: TwoQubit,
    a: usize,
    b: usize,
    wires: &mut Wires,
    sets: &mut [u64],
    coeffs: &mut [u8],
)
    requires { Runnable run.old (two (two_in kind) a b ∷ []) (lent wires.old sets.old coeffs.old) × Level sets.old coeffs.old }
    ensures { Runs (two (two_in kind) a b) run.old run.new (lent wires.old sets.old coeffs.old) (lent wires.new sets.new coeffs.new) }
{
    match kind {
        TwoQubit::Cx => add_wire(wires, a, b),
        TwoQubit::Cz => controlled_z(run, a, b, wires, sets, coeffs),
        TwoQubit::Swap => swap_wires(wires, a, b),
    }
}

// A gate. One that only moves wires writes nothing of the run.
#[inline(always)]
pub fn run_gate(run: &mut Run, gate: Gate, wires: &mut Wires, sets: &mut [u64], coeffs: &mut [u8])
    requires { Runnable run.old (gate_in gate ∷ []) (lent wires.old sets.old coeffs.old) × Level sets.old coeffs.old }
    ensures { Runs (gate_in gate) run.old run.new (lent wires.old sets.old coeffs.old) (lent wires.new sets.new coeffs.new) }
{
    match gate {
        Gate::One { kind, q } => run_one(run, kind, usize::from(q), wires, sets, coeffs),
        Gate::Two { kind, a, b } => {
            run_two(
                run,
                kind,
                usize::from(a),
                usize::from(b),
                wires,
                sets,
                coeffs,
            )
        }
    }
}
