// Drives the record layer's calls with rows of text from standard input and prints one line for each; the last line says how many rows there
// were. tests/README.md describes rows and lines; tests/make_rows.py writes the rows of the gate and what must be printed for them.
//
// A row: NAME;CALL;NUMBERS;FIRST;SECOND, all five of them. NUMBERS are decimal, one space between two. FIRST and SECOND are bytes in
// hexadecimal, or a list of gates on n qubits, as `2:h0 t1 c01` (calls_lists). What is printed: the name, what the call answered, and what
// the lent buffer holds afterwards. A row that cannot be read prints `bad row`.
#![tactic(auto)]

mod readers;
mod writers;

use calls_text::error::RowError;
use calls_text::rows;
use calls_text::rows::Row;
use std::alloc::Global;
use std::io;
use std::io::Write;

// What the call of a row answers. A call that takes no such part, or none of the name, makes the row bad.
fn answer(alloc: Global, out: &mut impl Write, row: Row<'_>) -> Result<(), RowError> {
    match row {
        Row {
            call: "check",
            numbers: "",
            first,
            second: "",
        } => readers::check(alloc, out, first),
        Row {
            call: "gates",
            numbers: "",
            first,
            second: "",
        } => readers::gates(alloc, out, first),
        Row {
            call: "read_report",
            numbers: "",
            first,
            second: "",
        } => readers::read_report(alloc, out, first),
        Row {
            call: "check_gate",
            numbers,
            first: "",
            second: "",
        } => readers::check_gate(out, numbers),
        Row {
            call: "start",
            numbers,
            first: "",
            second,
        } => writers::start(alloc, out, numbers, second),
        Row {
            call: "add",
            numbers,
            first: "",
            second,
        } => writers::add(alloc, out, numbers, second),
        Row {
            call: "inverse",
            numbers,
            first,
            second,
        } => writers::inverse(alloc, out, numbers, first, second),
        Row {
            call: "write_report",
            numbers,
            first: "",
            second,
        } => writers::write_report(alloc, out, numbers, second),
        _ => Err(RowError::Bad),
    }
}

// Stays: a program has a main of its own, which names what it runs.
fn main(rt: HostRuntime) -> io::Result<()> {
    let alloc = rt.alloc();
    rows::run(alloc, rt.stdin(), rt.stdout(), |out, row| {
        answer(alloc, out, row)
    })
}
