// Compares two gate-list records on at most six qubits column by column, and prints the verdict and its two inputs, or `refused` and the
// number: document 02, items 2 and 4. With two arguments each names a file that is exactly one record. With none both records are read from
// standard input, the second directly after the first. Where an input cannot be read, nothing is printed but a message on standard error.
// What is printed for which bytes is said by `compare_small_bytes`.
#![tactic(auto)]

use compare_small_bytes::Columns;
use pair_input::Program;

// Stays: a program has a main of its own, which names what it runs.
fn main(rt: HostRuntime) {
    let program = Program {
        rt: &rt,
        name: b"compare_small",
    };
    program.run::<Columns>();
}
