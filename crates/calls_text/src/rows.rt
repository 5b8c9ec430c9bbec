// Rows, one a line of the input, and the line that each of them prints.
use crate::error::RowError;
use std::alloc::Global;
use std::io::{BufRead, BufReader, BufWriter, Read, Write};
use std::{io, str};

// The bytes that a row has at most.
const MOST: usize = 8192;

// The bytes that are read at once.
const PIECE: usize = 65536;

// What stands behind a row's name.
#[derive(Clone, Copy)]
pub struct Row<'a> {
    pub call: &'a str,
    pub numbers: &'a str,
    pub first: &'a str,
    pub second: &'a str,
}

impl<'a> Row<'a> {
    // The row of the text behind a name: all its four parts, and no more.
    fn read(text: &'a str) -> Option<Row<'a>> {
        let mut parts = text.split(';');
        let row = Row {
            call: parts.next()?,
            numbers: parts.next()?,
            first: parts.next()?,
            second: parts.next()?,
        };
        match parts.next() {
            None => Some(row),
            Some(_) => None,
        }
    }
}

// The row of a line.
fn row_of(line: &[u8]) -> Option<Row<'_>> {
    if line.len() > MOST {
        return None;
    }
    let behind_name = line.splitn(2, |c| *c == b';').nth(1)?;
    Row::read(str::from_utf8(behind_name).ok()?)
}

// The name that a line begins with, as far as a row reaches.
fn name_of(line: &[u8]) -> &[u8] {
    let held = line.get(..MOST).unwrap_or(line);
    held.split(|c| *c == b';').next().unwrap_or(held)
}

// A row's line: its name, and what the call answers, or that the row cannot be read.
fn answer_line<W: Write, F: Fn(&mut W, Row<'_>) -> Result<(), RowError>>(
    out: &mut W,
    line: &[u8],
    answer: &F,
) -> io::Result<()>
    requires { F.IsAlwaysCallable answer.now }
{
    out.write_all(name_of(line))?;
    out.write_all(b": ")?;
    let answered = match row_of(line) {
        Some(row) => answer(out, row),
        None => Err(RowError::Bad),
    };
    match answered {
        Ok(()) => {}
        Err(RowError::Bad) => out.write_all(b"bad row")?,
        Err(RowError::Io(e)) => return Err(e),
    }
    out.write_all(b"\n")
}

// Reads the next line in place of the one before, without its end: at most one byte more than a row has, so that a longer line is seen to be no row, and
// passes over the rest; however long the line, no more memory is taken. Is there one?
fn next_line(input: &mut impl BufRead, line: &mut Vec<u8>) -> io::Result<bool> {
    line.clear();
    let read = input
        .by_ref()
        .take(MOST as u64 + 1)
        .read_until(b'\n', line)?;
    if line.pop_if(|c| *c == b'\n').is_none() && read > MOST {
        input.skip_until(b'\n')?;
    }
    Ok(read > 0)
}

// The line of each row until the input ends, and how many there were. A call answers nothing before its row is read.
// Stays: calls take `alloc` and `out`; in a struct that lends the writer each would be `&mut Call<'_, W>` with `W: Write`, and say `call.out` for `out`.
pub fn run<W: Write + Drop, F: Fn(&mut BufWriter<W>, Row<'_>) -> Result<(), RowError>>(
    alloc: Global,
    input: impl Read + Drop,
    output: W,
    answer: F,
) -> io::Result<()>
    requires { F.IsAlwaysCallable answer }
{
    let mut input = BufReader::with_capacity(alloc, PIECE, input)?;
    let mut line = Vec::new(alloc);
    let mut out = BufWriter::new(alloc, output)?;
    let mut count = 0u64;
    for _row in 0..u64::MAX {
        if !next_line(&mut input, &mut line)? {
            break;
        }
        answer_line(&mut out, &line, &answer)?;
        count = count.saturating_add(1);
    }
    writeln!(out, "rows {count}")?;
    out.flush()
}
