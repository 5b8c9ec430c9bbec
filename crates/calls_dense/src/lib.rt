// The dense comparison, by a row. The numbers say how many of the places are lent, and with what all of them begin.
#![tactic(auto)]

use calls_lists::Lists;
use calls_lists::refusals::OfPair;
use calls_text::error::RowError;
use calls_text::numbers::numbers;
use calls_text::places::Lent;
use calls_text::rows::Row;
use dense::{BUFFER_SIZE, Outcome};
use std::alloc::Global;
use std::io::Write;

// The numbers that there are to lend: 8 more than a comparison uses.
const ALL: usize = BUFFER_SIZE + 8;

// The call on a row's lists, and the numbers afterwards.
pub fn compare(alloc: Global, out: &mut impl Write, row: Row<'_>) -> Result<(), RowError> {
    let [lent, seed] = numbers::<2>(row.numbers)?;
    let lists = Lists::new(alloc, row.first, row.second)?;
    let mut places = Lent::<i64>::new(alloc, ALL, u64::try_from(seed)?)?;
    let buffer = places.first(lent).ok_or(RowError::Bad)?;
    match dense::compare(lists.first(), lists.second(), buffer) {
        Ok(
            Outcome {
                verdict,
                first,
                second,
            },
        ) => write!(out, "{verdict} {first} {second}")?,
        Err(r) => write!(out, "{}", OfPair::from(r))?,
    }
    let seen = places.seen(BUFFER_SIZE);
    write!(out, ", numbers {seen}")?;
    Ok(())
}
