// The phase-sum layer, moving: the gates that only move wires, CX and SWAP (X is a method of the wires). Document 01, "Building the sum".
// The wires are changed in place.
#![tactic(auto)]

ghost use Rattle.std.specs.Prelude.{◌<◌, length};
ghost use Rattle.record_format.specs.Gate.{two, CX, SWAP};
ghost use Rattle.phase_sum_types.specs.Unmerged.{Moves};

use phase_sum_terms::wires::Wires;

// CX: the control added to the target.
#[tactic(auto, unfolding(phase_sum_meaning::specs::Building::gate_by, phase_sum_meaning::specs::Building::set_wire))]
pub fn add_wire(wires: &mut Wires, control: usize, target: usize)
    requires { (control < length wires.old) × (target < length wires.old) }
    ensures { Moves (two CX control target) wires.old wires.new }
{
    let sum = wires.get(target) ^ wires.get(control);
    wires.set(target, sum);
}

// SWAP: two wires exchanged.
#[tactic(auto, unfolding(phase_sum_meaning::specs::Building::gate_by, phase_sum_meaning::specs::Building::set_wire))]
pub fn swap_wires(wires: &mut Wires, a: usize, b: usize)
    requires { (a < length wires.old) × (b < length wires.old) }
    ensures { Moves (two SWAP a b) wires.old wires.new }
{
    let first = wires.get(a);
    let second = wires.get(b);
    wires.set(a, second);
    wires.set(b, first);
}
