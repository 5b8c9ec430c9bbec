// Drives the calls on a pair, compare, pick, the dense comparison and the joins, with rows of text from standard input and prints one line for
// each; the last line says how many rows there were. tests/README.md describes rows and lines; tests/make_rows.py writes the rows of the gate and
// what must be printed for them.
//
// A row: NAME;CALL;NUMBERS;FIRST;SECOND, all five of them. NUMBERS are decimal, one space between two. FIRST and SECOND are bytes in
// hexadecimal, or a list of gates on n qubits, as `2:h0 t1 c01` (calls_lists). What is printed: the name, what the call answered, and what
// the lent workspaces, numbers or bytes hold afterwards. A row that cannot be read prints `bad row`.
#![tactic(auto)]

use calls_text::error::RowError;
use calls_text::rows;
use calls_text::rows::Row;
use std::alloc::Global;
use std::io;
use std::io::Write;

// What the call of a row answers. None of the name makes the row bad.
fn answer(alloc: Global, out: &mut impl Write, row: Row<'_>) -> Result<(), RowError> {
    match row.call {
        "compare" => calls_pairs::compare(alloc, out, row),
        "pick" => calls_pairs::pick(alloc, out, row),
        "dense" => calls_dense::compare(alloc, out, row),
        "join_in_time" => calls_joins::join(alloc, out, row, joining::join_in_time),
        "join_in_space" => calls_joins::join(alloc, out, row, joining::join_in_space),
        _ => Err(RowError::Bad),
    }
}

// Stays: a program has a main of its own, which names what it runs.
fn main(rt: HostRuntime) -> io::Result<()> {
    let alloc = rt.alloc();
    rows::run(alloc, rt.stdin(), rt.stdout(), |out, row| {
        answer(alloc, out, row)
    })
}
