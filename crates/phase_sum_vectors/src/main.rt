// Runs the phase-sum layer on rows from standard input and prints what each gives. tests/phase_sum_rows.py writes the rows and,
// by an independent computation, what must be printed.
#![tactic(auto)]

mod operations;
mod pair;
mod print;
mod row;
mod state;
mod steps;

use row::Rows;
use state::State;
use std::io;
use std::io::{BufWriter, Read, Write};

// The bytes of the input that are read at most.
const MOST: u64 = 65536;

fn main(rt: HostRuntime) -> io::Result<()> {
    let mut input = Vec::new(rt.alloc());
    rt.stdin().take(MOST).read_to_end(&mut input)?;
    let mut out = BufWriter::new(rt.alloc(), io::writer(&rt))?;
    let mut state = State::new();
    for row in Rows(input.as_slice()) {
        steps::step(&mut out, &mut state, &row)?;
    }
    out.flush()
}
