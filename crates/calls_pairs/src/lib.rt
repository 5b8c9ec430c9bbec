// The calls on a pair, compare and pick. The numbers say how many words and bytes of the workspaces are
// lent, and with what all their places begin.
#![tactic(auto)]

use calls_lists::Lists;
use calls_lists::refusals::OfPair;
use calls_lists::reports::BehindVerdict;
use calls_text::error::RowError;
use calls_text::hex::Hex;
use calls_text::numbers::numbers;
use calls_text::places::Lent;
use calls_text::rows::Row;
use comparison::{PLACES, SET_WORDS};
use record_format::{GATE_SIZE, HEAD_SIZE};
use records::Report;
use std::alloc::Global;
use std::io;
use std::io::Write;

// The words and the bytes that there are to lend: 64 more than a comparison uses.
const ALL_WORDS: usize = SET_WORDS + 64;

const ALL_BYTES: usize = PLACES + 64;

// A call on the two lists of a row, and the workspaces afterwards.
fn call_with<W: Write, F: FnOnce(&mut W, &[u8], &[u8], &mut [u64], &mut [u8]) -> io::Result<()>>(
    alloc: Global,
    out: &mut W,
    row: Row<'_>,
    call: F,
) -> Result<(), RowError>
    requires { F.IsAlwaysCallable call }
{
    let [words, bytes, seed] = numbers::<3>(row.numbers)?;
    let seed = u64::try_from(seed)?;
    let lists = Lists::new(alloc, row.first, row.second)?;
    let mut sets = Lent::<u64>::new(alloc, ALL_WORDS, seed)?;
    let mut coeffs = Lent::<u8>::new(alloc, ALL_BYTES, seed)?;
    let lent_sets = sets.first(words).ok_or(RowError::Bad)?;
    let lent_coeffs = coeffs.first(bytes).ok_or(RowError::Bad)?;
    call(out, lists.first(), lists.second(), lent_sets, lent_coeffs)?;
    let sets = sets.seen(SET_WORDS);
    let coeffs = coeffs.seen(PLACES);
    write!(out, ", sets {sets}, coeffs {coeffs}")?;
    Ok(())
}

// What compare answers: the result line, from the outcome as a report, or the refusal.
fn show_comparison(
    out: &mut impl Write,
    first: &[u8],
    second: &[u8],
    sets: &mut [u64],
    coeffs: &mut [u8],
) -> io::Result<()> {
    match comparison::compare(first, second, sets, coeffs) {
        Ok(outcome) => {
            let verdict = outcome.verdict;
            let numbers = BehindVerdict(Report::from(outcome));
            write!(out, "{verdict} {numbers}")
        }
        Err(r) => write!(out, "{}", OfPair::from(r)),
    }
}

// Is a part the record at the start of a list, as long as its count of gates says?
fn is_record_of(part: &[u8], list: &[u8]) -> bool {
    match list {
        [_, _, _, low, high, ..] => {
            let gates = usize::from(u16::from_le_bytes([*low, *high]));
            list.get(..HEAD_SIZE + GATE_SIZE * gates) == Some(part)
        }
        _ => false,
    }
}

// Which list a part is, by content and length.
fn which(part: &[u8], first: &[u8], second: &[u8]) -> &'static str {
    if part.is_empty() {
        "empty"
    } else if is_record_of(part, first) {
        "first"
    } else if is_record_of(part, second) {
        "second"
    } else {
        "other"
    }
}

// What pick answers: which list came back, and its bytes.
fn show_pick(
    out: &mut impl Write,
    first: &[u8],
    second: &[u8],
    sets: &mut [u64],
    coeffs: &mut [u8],
) -> io::Result<()> {
    let part = comparison::pick(first, second, sets, coeffs);
    let which = which(part, first, second);
    let bytes = Hex(part);
    write!(out, "{which} {bytes}")
}

// compare, of a row's lists.
pub fn compare(alloc: Global, out: &mut impl Write, row: Row<'_>) -> Result<(), RowError> {
    call_with(alloc, out, row, show_comparison)
}

// pick, of a row's lists.
pub fn pick(alloc: Global, out: &mut impl Write, row: Row<'_>) -> Result<(), RowError> {
    call_with(alloc, out, row, show_pick)
}
