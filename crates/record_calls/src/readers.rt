// Calls that read records and reports.
use calls_lists::bytes_of;
use calls_lists::refusals::OfList;
use calls_lists::reports::BehindVerdict;
use calls_text::error::RowError;
use calls_text::hex::Hex;
use calls_text::numbers::numbers;
use records::Head;
use std::alloc::Global;
use std::io::Write;

// check: `accepted`, n and g, or the refusal.
pub(crate) fn check(alloc: Global, out: &mut impl Write, text: &str) -> Result<(), RowError> {
    let record = bytes_of(alloc, text)?;
    match records::check(record.as_slice()) {
        Ok(Head { n, g }) => write!(out, "accepted {n} {g}")?,
        Err(r) => write!(out, "{}", OfList(r))?,
    }
    Ok(())
}

// gates: the part that is handed back.
pub(crate) fn gates(alloc: Global, out: &mut impl Write, text: &str) -> Result<(), RowError> {
    let record = bytes_of(alloc, text)?;
    let gates = Hex(records::gates(record.as_slice()));
    write!(out, "gates {gates}")?;
    Ok(())
}

// read_report: the eight fields, or the refusal.
pub(crate) fn read_report(alloc: Global, out: &mut impl Write, text: &str) -> Result<(), RowError> {
    let report = bytes_of(alloc, text)?;
    match records::read_report(report.as_slice()) {
        Ok(report) => write!(out, "fields {} {}", report.verdict, BehindVerdict(report))?,
        Err(r) => write!(out, "{}", OfList(r))?,
    }
    Ok(())
}

// check_gate, of the numbers n, index, kind, a and b: `good`, or the refusal.
pub(crate) fn check_gate(out: &mut impl Write, text: &str) -> Result<(), RowError> {
    let [n, index, kind, a, b] = numbers::<5>(text)?;
    let gate = [u8::try_from(kind)?, u8::try_from(a)?, u8::try_from(b)?];
    match record_bytes::check_gate(n, index, gate) {
        Ok(()) => out.write_all(b"good")?,
        Err(r) => write!(out, "{}", OfList(r))?,
    }
    Ok(())
}
