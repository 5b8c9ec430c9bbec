// Compares two gate-list records and prints the result line, or `refused` and the number: document 01, "Pairs to try". With two arguments
// each names a file that is exactly one record. With none both records are read from standard input, the second directly after the
// first. Where an input cannot be read, nothing is printed but a message on standard error. What is printed for which bytes is said by
// `compare_bytes`.
#![tactic(auto)]

use compare_bytes::PathSums;
use pair_input::Program;

// Stays: a program has a main of its own, which names what it runs.
fn main(rt: HostRuntime) {
    let program = Program {
        rt: &rt,
        name: b"compare",
    };
    program.run::<PathSums>();
}
