// The joins, by a row. The numbers say how many bytes of the buffer are lent, and with what all of them begin.
#![tactic(auto)]

use calls_lists::refusals::OfPair;
use calls_lists::{Lists, MOST_BYTES};
use calls_text::error::RowError;
use calls_text::hex::Hex;
use calls_text::numbers::numbers;
use calls_text::places::Lent;
use calls_text::rows::Row;
use joining::Refusal;
use std::alloc::Global;
use std::io;
use std::io::Write;

// The refusal, or what was written; and how many of the bytes behind it hold what they held.
fn show(out: &mut impl Write, answer: Result<usize, Refusal>, buffer: &Lent<u8>) -> io::Result<()> {
    match answer {
        Ok(size) => {
            let record = Hex(buffer.now().get(..size).unwrap_or(&[]));
            write!(out, "length {size} {record}")?;
        }
        Err(r) => write!(out, "{}", OfPair::from(r))?,
    }
    let kept = buffer.kept(answer.unwrap_or(0));
    write!(out, " kept {kept}")
}

// A join of the two lists of a row, and the buffer afterwards.
pub fn join<F: FnOnce(&[u8], &[u8], &mut [u8]) -> Result<usize, Refusal>>(
    alloc: Global,
    out: &mut impl Write,
    row: Row<'_>,
    call: F,
) -> Result<(), RowError>
    requires { F.IsAlwaysCallable call }
{
    let [size, seed] = numbers::<2>(row.numbers)?;
    let lists = Lists::new(alloc, row.first, row.second)?;
    let mut buffer = Lent::<u8>::new(alloc, MOST_BYTES, u64::try_from(seed)?)?;
    let lent = buffer.first(size).ok_or(RowError::Bad)?;
    let answer = call(lists.first(), lists.second(), lent);
    show(out, answer, &buffer)?;
    Ok(())
}
