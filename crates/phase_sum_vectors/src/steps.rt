// What each row does: one function of the phase-sum layer, on the state that earlier rows left.
ghost use Rattle.std.specs.Prelude.{◌≡◌};

use crate::print::{Bit, Words};
use crate::row::{Change, Function, Question, Row, Terms};
use crate::state::State;
use crate::{operations, pair, print};
use comparison_checking::PLACES;
use phase_sum_reading::{halves_of, odd_both_in, odd_mask};
use phase_sum_sets::store;
use phase_sum_terms::reading::PhaseTerms;
use phase_sum_terms::terms;
use phase_sum_terms::wires::Wires;
use phase_sum_types::{Parity, Phase, Set, Sum, Variable};
use std::io;
use std::io::Write;

// A row's terms in the first places, as far as there are places.
fn load(state: &mut State, constant: u8, terms: Terms<'_>) {
    // Stays: the place and its test; of `(0..PLACES).zip(terms)` it was not proved that `store` may be called, and three iterators zipped over both
    // workspaces are not covered by the borrow checker.
    for (place, (set, coeff)) in terms.enumerate() {
        if place < PLACES {
            store(&mut state.sets, place, set);
            state.coeffs[place] = coeff;
        }
    }
    state.set_phase(Phase {
        constant,
        count: usize::from(terms.count),
    });
}

// A sum of the phase, with no variables left.
fn sum_of(phase: Phase) -> Sum
    ensures { result.phase ≡ phase }
{
    Sum {
        live: Set::empty(),
        phase,
    }
}

// The terms in canonical form.
fn canonical(state: &mut State) {
    let phase = state.phase;
    let count = phase_sum_merging::canonical(&mut state.sets, &mut state.coeffs, phase.count);
    state.set_phase(Phase { count, ..phase });
}

// A variable taken out.
fn take_out(state: &mut State, v: Variable) {
    let sum = sum_of(state.phase);
    let sum = phase_sum_stepping::take_out(sum, v, &mut state.sets, &mut state.coeffs);
    state.set_phase(sum.phase);
}

// A variable replaced, in the terms and the wires.
#[tactic(auto, using(phase_sum_types::proofs::TwoWords::level_places))]
fn replace(state: &mut State, z: Variable, p: Parity) {
    let sum = sum_of(state.phase);
    let mut wires = Wires::new(&mut state.wires);
    let sum = phase_sum_stepping::replace(
        sum,
        z,
        p,
        &mut wires,
        &mut state.sets,
        &mut state.coeffs,
    );
    state.set_phase(sum.phase);
}

// A term more, where there is a place for it.
fn append(state: &mut State, set: Set, coeff: u8) {
    if state.phase.count < PLACES {
        let phase = state.phase;
        let count = terms::append(&mut state.sets, &mut state.coeffs, phase.count, set, coeff);
        state.set_phase(Phase { count, ..phase });
    }
}

// The terms to 0, and none left.
fn clear(state: &mut State) {
    terms::zero(&mut state.sets, &mut state.coeffs, 0, state.phase.count);
    state.phase = Phase::default();
}

// What a row changes.
fn apply(state: &mut State, change: &Change<'_>) {
    match *change {
        Change::Load { constant, terms } => load(state, constant, terms),
        Change::Canonical => canonical(state),
        Change::Replace { variable, parity } => replace(state, variable, parity),
        Change::TakeOut { variable } => take_out(state, variable),
        Change::Clear => clear(state),
        Change::Append { set, coeff } => append(state, set, coeff),
    }
}

// The set of the first term, or the empty one.
fn first_set(state: &State) -> Set {
    if state.phase.count == 0 {
        Set::empty()
    } else {
        phase_sum_sets::load(&state.sets, 0)
    }
}

// What a row asks for.
fn answer(out: &mut impl Write, state: &State, question: &Question) -> io::Result<()> {
    let terms = PhaseTerms::new(&state.sets, &state.coeffs, state.phase);
    match *question {
        Question::OddMask => write!(out, "{} ", Words(odd_mask(&terms))),
        Question::Halves { variable } => {
            let halves = halves_of(&terms, variable);
            write!(out, "{} {} ", halves.c, Words(halves.l))
        }
        Question::PhaseAt { bits } => {
            let value = terms.at(bits);
            write!(out, "{value} ")
        }
        Question::Parity { set, bit } => write!(out, "{} ", Bit(set.parity(1 << (bit % 64)))),
        Question::OddBoth { one, other } => {
            let odd = odd_both_in(odd_mask(&terms), &terms, one, other);
            write!(out, "{} ", Words(odd))
        }
        Question::OneSet { set, one, other } => operations::of_one(out, set, one, other),
        Question::TwoSets { set } => operations::of_two(out, set, first_set(state)),
    }
}

// One row, and the lines for it: what it asks for, and the state afterwards.
pub(crate) fn step(out: &mut impl Write, state: &mut State, row: &Row<'_>) -> io::Result<()> {
    match &row.function {
        Some(Function::Build { count: _, records }) => return pair::build(out, state, *records),
        Some(Function::Change(change)) if !state.overfull => apply(state, change),
        Some(Function::Ask(question)) if !state.overfull && !row.quiet => answer(
            out, state, question,
        )?,
        _ => {}
    }
    if row.quiet {
        return Ok(());
    }
    print::state(out, state)
}
