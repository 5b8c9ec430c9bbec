// The bytes of a pair that a program gets: which are a record's own, whether others follow, and the place of their number, 12, among the
// others: document 01, "Where a call is turned down". Here too is the trait `Comparison`: what a program prints of a comparison.
#![tactic(auto)]

ghost use Rattle.std.specs.Prelude.{◌≡◌, ℕ, List, Result};
ghost use Rattle.comparison_types.specs.declared.Refusal.{Refusal};
ghost use Rattle.comparison_types.specs.Call.{fault_of};
ghost use Rattle.pair_bytes.specs.Pair.{own_size, follow, first_of, second_of, stream_line};
ghost use Rattle.pair_bytes.specs.Limits.{ReadFarEnough};
ghost use Rattle.pair_bytes.specs.Inner.{were_read, refused_by, answer_line};

use comparison_types::Refusal;
use line_bytes::{Line, write_refusal};
use record_format::{GATE_SIZE, HEAD_SIZE};

// The refusal's number where bytes follow one of the records.
// Stays: a number, since an enum around a comparison's refusals would be asked for its number at once and for nothing else.
pub const BYTES_FOLLOW: u8 = 12;

// The bytes of the record at the start of a slice, as its head says; all bytes where the record is cut.
fn own_size(s: &[u8]) -> usize
    ensures { result ≡ own_size s.now }
{
    let [_, _, _, low, high, ..] = s else {
        return s.len();
    };
    let size = HEAD_SIZE + GATE_SIZE * usize::from(u16::from_le_bytes([*low, *high]));
    size.min(s.len())
}

// A stream's first record.
pub fn first_of(stream: &[u8]) -> &[u8]
    ensures { result.now ≡ first_of stream.now }
{
    &stream[..own_size(stream)]
}

// What stands directly after it.
pub fn second_of(stream: &[u8]) -> &[u8]
    ensures { result.now ≡ second_of stream.now }
{
    &stream[own_size(stream)..]
}

// Do bytes follow one of two records?
pub fn bytes_follow(first: &[u8], second: &[u8]) -> bool
    ensures { result ≡ follow first.now second.now }
{
    own_size(first) < first.len() || own_size(second) < second.len()
}

// Were both lists read: is it no refusal of one of them?
fn were_read(refusal: Refusal) -> bool
    ensures { result ≡ were_read (fault_of refusal) }
{
    !matches!(refusal, Refusal::First(_) | Refusal::Second(_))
}

// The number that a refused pair is told by: 12 stands behind the lists' own numbers and before those of the pair.
pub fn refused_by(refusal: Refusal, follow: bool) -> u8
    ensures { result ≡ refused_by follow (fault_of refusal) }
{
    if follow && were_read(refusal) {
        BYTES_FOLLOW
    } else {
        u8::from(refusal)
    }
}

// A comparison of two records by their bytes, and what the program around it prints.
pub trait Comparison {
    type Outcome: Copy;

    // the answers that it may give for two records
    ghost answers: { List ℕ → List ℕ → Result Self.Outcome Refusal → Type 0 };

    // the line of an outcome
    ghost line_of: { Self.Outcome → List ℕ };

    // what the program prints for two records
    ghost pair_line: { List ℕ → List ℕ → List ℕ };

    fn compare(first: &[u8], second: &[u8]) -> Result<Self::Outcome, Refusal>
        ensures { answers first.now second.now result };

    fn write_outcome(outcome: Self::Outcome) -> Line
        ensures { result.items ≡ line_of outcome };

    // an answer's line, with number 12 in its place, is what the program is to print
    ghost printed: { (s t : List ℕ) (answer : Result Self.Outcome Refusal) → answers s t answer
        → answer_line line_of (follow s t) answer ≡ pair_line s t };

    // the program reads far enough for it
    ghost read_far_enough: { ReadFarEnough pair_line };

    // The line of what the comparison answered, or of number 12 where bytes follow one of the records.
    final fn write_answer(answer: Result<Self::Outcome, Refusal>, follow: bool) -> Line
        ensures { result.items ≡ answer_line line_of follow answer }
    {
        match answer {
            Ok(_) if follow => write_refusal(BYTES_FOLLOW),
            Ok(outcome) => Self::write_outcome(outcome),
            Err(refusal) => write_refusal(refused_by(refusal, follow)),
        }
    }

    // The line for two files, each of them one record.
    final fn write_pair(first: &[u8], second: &[u8]) -> Line
        ensures { result.items ≡ pair_line first.now second.now }
    {
        Self::write_answer(Self::compare(first, second), bytes_follow(first, second))
    }

    // The line for a stream of two records, the second directly after the first.
    final fn write_stream(stream: &[u8]) -> Line
        ensures { result.items ≡ stream_line pair_line stream.now }
    {
        Self::write_pair(first_of(stream), second_of(stream))
    }
}
