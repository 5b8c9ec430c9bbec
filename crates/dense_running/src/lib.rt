// The dense layer, running: a list on a column, gate by gate, from its input on.
// Stays: a column and its n are two parameters; `Step` of dense_columns says why.
#![tactic(auto)]

ghost use Rattle.std.specs.Prelude.{◌≡◌, ◌+◌, ◌^◌, ◌<◌, ◌≤◌};
ghost use Rattle.record_format.specs.Gate.{Within, AllWithin};
ghost use Rattle.record_format.specs.Typed.{gate_in};
ghost use Rattle.record_format.specs.Reading.{gates_in};
ghost use Rattle.amplitude.specs.Number.{√2^};
ghost use Rattle.amplitude.specs.Circuit.{basis, apply, run, h_gates};
ghost use Rattle.amplitude.specs.Testing.{scaled_column};
ghost use Rattle.dense_numbers.specs.Numbers.{most_doublings};
ghost use Rattle.dense_columns.specs.Columns.{amplitude_at, Holds, AllSized, Room};
ghost use Rattle.dense_running.specs.Running.{Ready};

use dense_gates::apply_one;
use dense_numbers::Amplitude;
use dense_turning::{apply_cx, apply_cz, apply_swap};
use record_format::gate::{Gate, TwoQubit};

// A gate on a column.
fn run_gate(column: &mut [[i64; 4]], n: usize, gate: Gate)
    requires within { Within n (gate_in gate) }
    requires room { Room n column.old }
    requires small { AllSized n most_doublings (amplitude_at column.old) }
    ensures { Holds n (apply (gate_in gate) (amplitude_at column.old)) column.new }
{
    match gate {
        Gate::One { kind, q } => apply_one(column, n, kind, usize::from(q)),
        Gate::Two { kind, a, b } => {
            let a = usize::from(a);
            let b = usize::from(b);
            match kind {
                TwoQubit::Cx => apply_cx(column, n, a, b),
                TwoQubit::Cz => apply_cz(column, n, a, b),
                TwoQubit::Swap => apply_swap(column, n, a, b),
            }
        }
    }
}

// A list's gates on a column, by its bytes, in list order.
// Stays: bytes, and not the chunks of whole gates, since a list may be any bytes; chunks would ask more of callers.
fn run_gates(column: &mut [[i64; 4]], n: usize, gates: &[u8])
    requires room { Room n column.old }
    requires ready { Ready n (gates_in gates.now) column.old }
    ensures { Holds n (run (gates_in gates.now) (amplitude_at column.old)) column.new }
{
    for bytes in gates.as_chunks::<3>().0 {
        run_gate(column, n, Gate::from(*bytes));
    }
}

// Input v, times √2 k times: that number at place v and 0 elsewhere.
fn start(column: &mut [[i64; 4]], n: usize, v: usize, k: usize)
    requires input { v < 2 ^ n }
    requires room { Room n column.old }
    requires few { k ≤ most_doublings }
    ensures { Holds n (λ w. √2^ k (basis v w)) column.new }
{
    column.fill([0; 4]);
    column[v] = Amplitude::root_two_power(k).into();
}

// Column v of a list on n qubits, by its bytes, times √2 k times. Scaling the input scales the column.
pub fn run_column(column: &mut [[i64; 4]], n: usize, gates: &[u8], v: usize, k: usize)
    requires input { v < 2 ^ n }
    requires room { Room n column.old }
    requires within { AllWithin n (gates_in gates.now) }
    requires few { h_gates (gates_in gates.now) + k ≤ most_doublings }
    ensures { Holds n (scaled_column k (gates_in gates.now) v) column.new }
{
    start(column, n, v, k);
    run_gates(column, n, gates);
}
