// Numbers in decimal, to a writer, a space behind each, and line ends.
use crate::state::State;
use phase_sum_types::{Set, Variable};
use std::io::Write;
use std::{fmt, io};

// A set as its two words, the low one first.
#[derive(Clone, Copy)]
pub(crate) struct Words(pub Set);

impl fmt::Display for Words {
    fn fmt<W: fmt::Write>(&self, f: &mut fmt::Formatter<W>) -> fmt::Result {
        let Set { low, high } = self.0;
        write!(f, "{low} {high}")
    }
}

// Yes as 1, no as 0.
#[derive(Clone, Copy)]
pub(crate) struct Bit(pub bool);

impl fmt::Display for Bit {
    fn fmt<W: fmt::Write>(&self, f: &mut fmt::Formatter<W>) -> fmt::Result {
        f.write_str(if self.0 { "1" } else { "0" })
    }
}

// A variable that was found, or 128.
#[derive(Clone, Copy)]
pub(crate) struct Found(pub Option<Variable>);

impl fmt::Display for Found {
    fn fmt<W: fmt::Write>(&self, f: &mut fmt::Formatter<W>) -> fmt::Result {
        let number = self.0.map_or(128, Variable::number);
        write!(f, "{number}")
    }
}

// The constant and the terms, each set and its coefficient.
fn phase(out: &mut impl Write, state: &State) -> io::Result<()> {
    let constant = state.phase.constant;
    write!(out, "{constant} ")?;
    let (sets, _) = state.sets.as_chunks::<2>();
    for ([low, high], coeff) in sets.iter().zip(state.coeffs.iter()).take(state.phase.count) {
        write!(out, "{low} {high} {coeff} ")?;
    }
    out.write_all(b"\n")
}

// The wires, each set and its constant.
fn wires(out: &mut impl Write, state: &State) -> io::Result<()> {
    for wire in state.wires.iter() {
        let set = Words(wire.set);
        let flip = Bit(wire.flipped);
        write!(out, "{set} {flip} ")?;
    }
    out.write_all(b"\n")
}

// The end of a row's line, which is the phase, and the wires on a line of their own.
pub(crate) fn state(out: &mut impl Write, state: &State) -> io::Result<()> {
    phase(out, state)?;
    wires(out, state)
}
