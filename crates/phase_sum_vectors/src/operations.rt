// What every operation on sets gives.
use crate::print::{Bit, Found, Words};
use phase_sum_types::{Set, Variable};
use std::io;
use std::io::Write;

// Of a set and variables: does it hold the first, and both? Without the first, the first alone, and what is below the first's place in its word.
fn with_variables(out: &mut impl Write, s: Set, v: Variable, w: Variable) -> io::Result<()> {
    let holds = Bit(s.holds(v));
    let both = Bit(s.holds_both(v, w));
    write!(out, "{holds} {both} ")?;
    let without = Words(s.without(v));
    let alone = Words(Set::single(v));
    let below = Words(s.below(v.number() % 64));
    write!(out, "{without} {alone} {below} ")
}

// Of a set: is it empty, its variables' number and the lowest of them, and what it is with variables.
pub(crate) fn of_one(out: &mut impl Write, s: Set, v: Variable, w: Variable) -> io::Result<()> {
    let empty = Bit(s.is_empty());
    let count = s.count();
    let lowest = Found(s.lowest());
    write!(out, "{empty} {count} {lowest} ")?;
    with_variables(out, s, v, w)
}

// Of two sets: are they the same, is the first at most the second, what is in one alone and in either, and the lowest variable of the first that is in
// the second, and that is not.
pub(crate) fn of_two(out: &mut impl Write, a: Set, b: Set) -> io::Result<()> {
    let same = Bit(a == b);
    let at_most = Bit(a <= b);
    let one_alone = Words(a ^ b);
    let either = Words(a | b);
    write!(out, "{same} {at_most} {one_alone} {either} ")?;
    let lowest_in = Found(a.lowest_in(b));
    let lowest_out = Found(a.lowest_out(b));
    write!(out, "{lowest_in} {lowest_out} ")
}
