// What the programs read and print. With two arguments each names a file that is exactly one record. With none both records come from standard
// input, the second directly after the first. Where an input cannot be read or the line cannot be written, a message on standard error says
// why, after the program's own name.
#![tactic(auto)]

ghost use Rattle.std.specs.Prelude.{◌≡◌, ◌≤◌, length, IfSome, MatchResult, Some, None};
ghost use Rattle.pair_bytes.specs.Limits.{input_size, stream_size};

mod reading;

use line_bytes::Line;
use pair_bytes::Comparison;
use reading::{NAME_SIZE, name_at, read_all, read_file};
use record_format::{GATE_SIZE, HEAD_SIZE};
use record_reading::MOST_GATES;
use std::env::FillError;
use std::io::Error;
use std::rt::{Env, Files};
use std::{io, str};

// The bytes of the longest record.
const LONGEST: usize = HEAD_SIZE + GATE_SIZE * MOST_GATES;

// The bytes of a file that are read: those of the longest record, and one more, which tells that others follow. That a line needs no more is
// proved of pair_bytes' `input_size` (`far_enough` in its proofs/Laws.antt).
const INPUT_SIZE: usize = LONGEST + 1;

// The bytes of a stream that are read: those of two such records, and one more.
const STREAM_SIZE: usize = 2 * LONGEST + 1;

// What stands between the words for an error and its number.
const BEFORE_NUMBER: &str = " (os error ";

// Where a program's two records are, by its arguments.
#[derive(Clone, Copy)]
enum Source {
    // in standard input
    Stream,
    // in the two files that the arguments name
    Files,
}

// A program: what it runs on, and its name, which stands before its messages.
#[derive(Drop)]
pub struct Program<'a, R> {
    pub rt: &'a R,
    pub name: &'a [u8],
}

impl<'a, R: Env + Files + io::Input + Print + Eprint + Alloc> Program<'a, R> {
    // Compares the two records that the arguments or standard input give, and prints the line.
    pub fn run<C: Comparison>(&self) {
        if let Some(line) = self.answer::<C>() {
            self.print(&line);
        }
    }

    // The line for the two records; none after a message.
    fn answer<C: Comparison>(&self) -> Option<Line> {
        match self.find_source()? {
            Source::Stream => self.answer_stream::<C>(),
            Source::Files => self.answer_files::<C>(),
        }
    }

    // The line for standard input.
    fn answer_stream<C: Comparison>(&self) -> Option<Line> {
        let mut buffer = [0u8; STREAM_SIZE];
        let stream = self.read_stream(&mut buffer)?;
        Some(C::write_stream(stream))
    }

    // The line for the two files that the arguments name.
    fn answer_files<C: Comparison>(&self) -> Option<Line> {
        let mut one = [0u8; INPUT_SIZE];
        let mut other = [0u8; INPUT_SIZE];
        let first = self.read_argument(1, &mut one)?;
        let second = self.read_argument(2, &mut other)?;
        Some(C::write_pair(first, second))
    }

    // The program's name as a message shows it.
    fn shown(&self) -> &'a str {
        str::from_utf8(self.name).unwrap_or("?")
    }

    // Where the two records are; a message where that is nowhere.
    fn find_source(&self) -> Option<Source> {
        if !self.has_argument(1) {
            return Some(Source::Stream);
        }
        if self.has_argument(2) && !self.has_argument(3) {
            return Some(Source::Files);
        }
        let program = self.shown();
        let _ = eprintln!(self.rt; "usage: {program} [FIRST SECOND]");
        None
    }

    // Is there an argument at a place? The program's own name is at 0.
    fn has_argument(&self, place: usize) -> bool {
        !matches!(self.rt.arg(place, &mut []), Err(FillError::NotPresent))
    }

    // The bytes of the file that an argument names, as far as it matters; a message where that fails.
    fn read_argument<'b>(&self, place: usize, buffer: &'b mut [u8; INPUT_SIZE]) -> Option<&'b [u8]>
        ensures within { IfSome result (λ file. length file.now ≤ length buffer.old) }
        ensures room { length buffer.old ≡ input_size }
    {
        let mut name = [0u8; NAME_SIZE];
        let name = self.tell("a file's name", name_at(self.rt, place, &mut name))?;
        self.tell(name, read_file(self.rt, name, buffer))
    }

    // Standard input, as far as it matters; a message where that fails.
    fn read_stream<'b>(&self, buffer: &'b mut [u8; STREAM_SIZE]) -> Option<&'b [u8]>
        ensures within { IfSome result (λ stream. length stream.now ≤ length buffer.old) }
        ensures room { length buffer.old ≡ stream_size }
    {
        self.tell("standard input", read_all(&mut self.rt.reader(), buffer))
    }

    // A whole line on standard output in one write, or a message.
    fn print(&self, line: &Line) {
        self.tell("standard output", self.rt.write_all(line.as_slice()));
    }

    // What was done, or a message that says what failed.
    fn tell<T>(&self, what: &str, done: io::Result<T>) -> Option<T>
        ensures { MatchResult done (λ value. result ≡ Some value) (λ _. result ≡ None) }
    {
        match done {
            Ok(value) => Some(value),
            Err(why) => {
                self.fail(what, why);
                None
            }
        }
    }

    // A message on standard error: the program, what failed and why, without the error's number.
    fn fail(&self, what: &str, why: Error) {
        let program = self.shown();
        let _ = match why.to_string(self.rt.alloc()) {
            Ok(text) => {
                let words = text.split(BEFORE_NUMBER).next().unwrap_or("");
                eprintln!(self.rt; "{program}: {what}: {words}")
            }
            Err(_) => eprintln!(self.rt; "{program}: {what}: {why}"),
        };
    }
}
