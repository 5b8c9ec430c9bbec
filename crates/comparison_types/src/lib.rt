// The comparison layer, its base: answers and numbers, where a reduction stands, and what the contracts of the layer say (specs/). Document
// 01, "Reducing it", "Report, pick, builder" and "Where a call is turned down"; document 02, item 4. Licensees use `comparison`.
#![tactic(auto)]

ghost use Rattle.std.specs.Prelude.{◌≡◌, ◌<◌, ◌≤◌, Some};
ghost use Rattle.comparison_meaning.specs.Verdict.{agreement};
ghost use Rattle.comparison_meaning.specs.Reduction.{add_pin, add_sum, add_turn, add_join};
ghost use Rattle.comparison_types.specs.Call.{number_of, verdict_number, verdict_of, verdict_word, Reports};
ghost use Rattle.comparison_types.specs.Inner.{counts_of};

use phase_sum_types::{Parity, Sum};
use record_format::Report;
use std::fmt;
use std::marker::Model;

// The four verdicts.
#[derive(Clone, Copy, Debug, PartialEq, Eq)]
pub enum Verdict {
    // all amplitudes agree exactly
    Equal,
    // no single power of ω carries both columns shown
    Different,
    // the steps stop with path variables left and none ready
    Undecided,
    // a power of ω other than 1 carries the first list to the second
    Turned,
}

// What the comparison found: the verdict, two inputs and document 01's five counts. The inputs are those that a difference shows; of turned
// the first is the power of ω, 1 to 7; else they are 0.
// Stays: the eight fields of the report record, which licensees read by their names.
#[derive(Clone, Copy, Debug, PartialEq, Eq)]
pub struct Outcome {
    pub verdict: Verdict,
    pub first: u16,
    pub second: u16,
    pub pins: u8,
    pub sums: u8,
    pub turns: u8,
    pub joins: u8,
    pub left: u8,
}

// Why a pair is refused. specs/Call.antt gives each case the table's number and, for a list, the index of its gate.
#[derive(Clone, Copy, Debug, PartialEq, Eq)]
pub enum Refusal {
    // 1 to 7 and 13: the first list
    First(record_format::Refusal),
    // 1 to 7 and 13: the second list, where the first is accepted
    Second(record_format::Refusal),
    // 8: their n differ
    QubitsDiffer,
    // 9: n and the H gates of both are above 128
    TooManyVariables,
    // 14: of a block for the dense comparison, n is above 6 or both lists have more than 60 H gates
    BlockTooLarge,
    // 10: the sets have under 6,400 words, the coefficients under 3,200 bytes, or the buffer of the dense comparison under 512 numbers
    WorkspaceShort,
}

// A refusal's number in the table.
impl From<Refusal> for u8 {
    ghost from_gives = { λ r number. number ≡ number_of r };

    fn from(refusal: Refusal) -> u8 {
        match refusal {
            Refusal::First(refusal) | Refusal::Second(refusal) => refusal.into(),
            Refusal::QubitsDiffer => 8,
            Refusal::TooManyVariables => 9,
            Refusal::BlockTooLarge => 14,
            Refusal::WorkspaceShort => 10,
        }
    }
}

// A verdict's number.
impl From<Verdict> for u8 {
    ghost from_gives = { λ v number. number ≡ verdict_number v };

    fn from(verdict: Verdict) -> u8 {
        match verdict {
            Verdict::Equal => 0,
            Verdict::Different => 1,
            Verdict::Undecided => 2,
            Verdict::Turned => 3,
        }
    }
}

impl Verdict {
    // Its word.
    pub fn word(self) -> &'static str
        ensures { result.now ≡ verdict_word (verdict_of self) }
    {
        match self {
            Verdict::Equal => "equal",
            Verdict::Different => "different",
            Verdict::Undecided => "undecided",
            Verdict::Turned => "turned",
        }
    }
}

impl fmt::Display for Verdict {
    ghost output = { λ v. Some (verdict_word (verdict_of v)) };

    fn fmt<W: fmt::Write>(&self, f: &mut fmt::Formatter<W>) -> fmt::Result {
        f.write_str(self.word())
    }
}

// The verdict where ω^j, j below 8, carries the first list to the second: equal where that is 1, else turned.
pub fn agreement(j: u8) -> Verdict
    ensures { verdict_of result ≡ agreement j }
{
    if j == 0 {
        return Verdict::Equal;
    }
    Verdict::Turned
}

// An outcome as the eight fields of the report record. Its verdict is one that the report's writer takes.
// Stays: field by field, since the record's verdict is a number and an outcome's is a case.
impl From<Outcome> for Report {
    ghost from_gives = { Reports };

    fn from(o: Outcome) -> Report {
        Report {
            verdict: o.verdict.into(),
            first: o.first,
            second: o.second,
            pins: o.pins,
            sums: o.sums,
            turns: o.turns,
            joins: o.joins,
            left: o.left,
        }
    }
}

// How many qubits: at most 16. Contracts see the number.
#[derive(Clone, Copy, Debug, PartialEq, Eq)]
pub struct Qubits {
    count: u32,
}

impl Model for Qubits {
    ghost use Rattle.std.specs.Prelude.{ℕ, ◌≤◌};

    ghost Value = { ℕ };

    ghost view = { λ n. n.count };

    ghost invariant = { λ n. n.count ≤ 16 };

    ghost inverse = { λ n. record { count = n } };
}

impl Qubits {
    // So many qubits.
    pub fn new(count: u32) -> Qubits
        requires { count ≤ 16 }
        ensures { result ≡ count }
    {
        Qubits { count }
    }

    // Their number.
    pub fn count(self) -> u32
        ensures count { result ≡ self }
        ensures few { self ≤ 16 }
    {
        self.count
    }
}

// How often each step was taken so far.
#[derive(Clone, Copy, Default)]
pub struct Counts {
    pub pins: u8,
    pub sums: u8,
    pub turns: u8,
    pub joins: u8,
}

// Stays: a method for each count, since one for all would take the field as a function.
impl Counts {
    // One pin more.
    #[tactic(auto, unfolding(comparison_meaning::specs::Reduction::add_pin))]
    pub fn add_pin(self) -> Counts
        requires { self.pins < 255 }
        ensures { counts_of result ≡ add_pin (counts_of self) }
    {
        Counts {
            pins: self.pins + 1,
            ..self
        }
    }

    // One sum more.
    #[tactic(auto, unfolding(comparison_meaning::specs::Reduction::add_sum))]
    pub fn add_sum(self) -> Counts
        requires { self.sums < 255 }
        ensures { counts_of result ≡ add_sum (counts_of self) }
    {
        Counts {
            sums: self.sums + 1,
            ..self
        }
    }

    // One turn more.
    #[tactic(auto, unfolding(comparison_meaning::specs::Reduction::add_turn))]
    pub fn add_turn(self) -> Counts
        requires { self.turns < 255 }
        ensures { counts_of result ≡ add_turn (counts_of self) }
    {
        Counts {
            turns: self.turns + 1,
            ..self
        }
    }

    // One join more.
    #[tactic(auto, unfolding(comparison_meaning::specs::Reduction::add_join))]
    pub fn add_join(self) -> Counts
        requires { self.joins < 255 }
        ensures { counts_of result ≡ add_join (counts_of self) }
    {
        Counts {
            joins: self.joins + 1,
            ..self
        }
    }
}

// How far pinning and reducing have come: the sum that is left, and the steps taken so far.
#[derive(Clone, Copy)]
pub struct Progress {
    pub sum: Sum,
    pub counts: Counts,
}

// Where pinning or reducing ends, and the parity that blocks it there, if one does.
#[derive(Clone, Copy)]
pub struct End {
    pub blocked: Option<Parity>,
    pub reached: Progress,
}

impl End {
    ghost use Rattle.comparison_types.specs.Inner.{stops_at, blocked_at};

    // The end of steps that no parity blocks.
    pub fn stops_at(reached: Progress) -> End
        ensures { result ≡ stops_at reached }
    {
        End {
            blocked: None,
            reached,
        }
    }

    // The end of steps that a parity blocks.
    pub fn blocked_at(reached: Progress, by: Parity) -> End
        ensures { result ≡ blocked_at reached by }
    {
        End {
            blocked: Some(by),
            reached,
        }
    }
}

// What the checks on a pair find: the qubits of both lists, and the gate bytes of each.
// Stays: of which records these are the bytes stands in the contracts, since a ghost field can not speak of the slices that were read.
#[derive(Clone, Copy)]
pub struct Pair<'a> {
    pub n: usize,
    pub first: &'a [u8],
    pub second: &'a [u8],
}

// What comparing a pair gives: the outcome, and the gate bytes of each list.
#[derive(Clone, Copy)]
pub struct Compared<'a> {
    pub outcome: Outcome,
    pub first: &'a [u8],
    pub second: &'a [u8],
}
