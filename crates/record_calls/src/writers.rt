// Calls that write. The first number says how many bytes of the buffer are lent; the whole buffer is printed afterwards.
use calls_lists::bytes_of;
use calls_lists::refusals::OfList;
use calls_text::error::RowError;
use calls_text::hex::Hex;
use calls_text::numbers::numbers;
use records::{Refusal, Report};
use std::alloc::Global;
use std::io::Write;

// What a writer answers on the first bytes of a row's buffer: the record's length, or the refusal; and the buffer afterwards.
fn write<F: FnOnce(&mut [u8]) -> Result<usize, Refusal>>(
    alloc: Global,
    out: &mut impl Write,
    text: &str,
    size: usize,
    writer: F,
) -> Result<(), RowError>
    requires { F.IsAlwaysCallable writer }
{
    let mut buffer = bytes_of(alloc, text)?;
    let lent = buffer.as_mut_slice().get_mut(..size).ok_or(RowError::Bad)?;
    match writer(lent) {
        Ok(length) => write!(out, "length {length}")?,
        Err(r) => write!(out, "{}", OfList(r))?,
    }
    let after = Hex(buffer.as_slice());
    write!(out, " {after}")?;
    Ok(())
}

// start, on n qubits.
pub(crate) fn start(
    alloc: Global,
    out: &mut impl Write,
    text: &str,
    buffer: &str,
) -> Result<(), RowError> {
    let [size, n] = numbers::<2>(text)?;
    write(alloc, out, buffer, size, |lent| records::start(lent, n))
}

// add, of the gate kind, a and b.
pub(crate) fn add(
    alloc: Global,
    out: &mut impl Write,
    text: &str,
    buffer: &str,
) -> Result<(), RowError> {
    let [size, kind, a, b] = numbers::<4>(text)?;
    let kind = u8::try_from(kind)?;
    let a = u8::try_from(a)?;
    let b = u8::try_from(b)?;
    write(
        alloc,
        out,
        buffer,
        size,
        |lent| records::add(lent, kind, a, b),
    )
}

// inverse, of a record.
pub(crate) fn inverse(
    alloc: Global,
    out: &mut impl Write,
    text: &str,
    record: &str,
    buffer: &str,
) -> Result<(), RowError> {
    let [size] = numbers::<1>(text)?;
    let record = bytes_of(alloc, record)?;
    write(
        alloc,
        out,
        buffer,
        size,
        |lent| records::inverse(record.as_slice(), lent),
    )
}

// write_report, of the eight fields.
pub(crate) fn write_report(
    alloc: Global,
    out: &mut impl Write,
    text: &str,
    buffer: &str,
) -> Result<(), RowError> {
    let [size, verdict, first, second, pins, sums, turns, joins, left] = numbers::<9>(text)?;
    let report = Report {
        verdict: u8::try_from(verdict)?,
        first: u16::try_from(first)?,
        second: u16::try_from(second)?,
        pins: u8::try_from(pins)?,
        sums: u8::try_from(sums)?,
        turns: u8::try_from(turns)?,
        joins: u8::try_from(joins)?,
        left: u8::try_from(left)?,
    };
    write(alloc, out, buffer, size, |lent| {
        records::write_report(lent, report)
    })
}
