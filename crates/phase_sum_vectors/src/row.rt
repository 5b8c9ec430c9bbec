// A row: 22 bytes (the function, a variable, whether a parity is complemented (1) or nothing is printed (2), a constant, a count
// of two bytes, a set of two words of eight, the low one first) and then, to load terms, count terms of 17 bytes each, or, to build, two records of
// count bytes together. What the input lacks at its end is 0.
ghost use Rattle.std.specs.Prelude.{◌≡◌, ◌-◌, ◌<◌, ◌≤◌, length};
ghost use Rattle.std.specs.Iterator.{at_most};

use phase_sum_types::{Parity, Set, Variable};

// The bytes of a row's head.
const HEAD: usize = 22;

// The bytes of a set, and of a term: set and coefficient.
const SET: usize = 16;

const TERM: usize = 17;

// How a row is marked.
#[derive(Clone, Copy, PartialEq, Eq)]
enum Mark {
    Plain,
    // Its parity is complemented.
    Complemented,
    // Nothing is printed for it.
    Quiet,
}

impl From<u8> for Mark {
    fn from(byte: u8) -> Mark {
        match byte {
            1 => Mark::Complemented,
            2 => Mark::Quiet,
            _ => Mark::Plain,
        }
    }
}

// The variable that a byte says.
fn variable(byte: u8) -> Variable {
    Variable::new(u32::from(byte % 128))
}

// The first bytes, and 0 for each that is not there.
fn padded<const N: usize>(s: &[u8]) -> [u8; N] {
    let mut bytes = [0; N];
    for (to, from) in bytes.iter_mut().zip(s) {
        *to = *from;
    }
    bytes
}

// The bytes from a place on.
fn from(s: &[u8], at: usize) -> &[u8]
    ensures { length result.now ≡ length s.now - at }
{
    s.get(at..).unwrap_or(&[])
}

// The set of two words, the low one first.
fn set_of(s: &[u8]) -> Set {
    Set {
        low: u64::from_le_bytes(padded(s)),
        high: u64::from_le_bytes(padded(from(s, 8))),
    }
}

// Terms that a row loads, each of them set and coefficient: how many are left, and their bytes, up to the input's end.
#[derive(Clone, Copy)]
pub(crate) struct Terms<'a> {
    pub count: u16,
    bytes: &'a [u8],
}

impl Iterator for Terms<'_> {
    type Item = (Set, u8);

    ghost remaining = { λ s. at_most s.count };

    fn next(&mut self) -> Option<(Set, u8)> {
        self.count = self.count.checked_sub(1)?;
        let set = set_of(self.bytes);
        let [coeff] = padded::<1>(from(self.bytes, SET));
        self.bytes = from(self.bytes, TERM);
        Some((set, coeff))
    }
}

// What changes the state.
#[derive(Clone, Copy)]
pub(crate) enum Change<'a> {
    Load { constant: u8, terms: Terms<'a> },
    Canonical,
    Replace { variable: Variable, parity: Parity },
    TakeOut { variable: Variable },
    Clear,
    Append { set: Set, coeff: u8 },
}

// What asks for something, of the state or of sets.
#[derive(Clone, Copy)]
pub(crate) enum Question {
    OddMask,
    Halves {
        variable: Variable,
    },
    PhaseAt {
        bits: u64,
    },
    Parity {
        set: Set,
        bit: u8,
    },
    OddBoth {
        one: Variable,
        other: Variable,
    },
    OneSet {
        set: Set,
        one: Variable,
        other: Variable,
    },
    TwoSets {
        set: Set,
    },
}

// What a row does.
#[derive(Clone, Copy)]
pub(crate) enum Function<'a> {
    Change(Change<'a>),
    Ask(Question),
    // Of two records, which have so many bytes together, with all that follows.
    Build { count: u16, records: &'a [u8] },
}

#[derive(Clone, Copy)]
pub(crate) struct Row<'a> {
    // None: the number of no function, which changes nothing and asks for nothing.
    pub function: Option<Function<'a>>,
    // Nothing is printed for the row.
    pub quiet: bool,
}

impl<'a> Row<'a> {
    // The row at the start of the bytes.
    fn read(s: &'a [u8]) -> Row<'a> {
        let [number, first, mark, constant, low, high] = padded::<6>(s);
        let mark = Mark::from(mark);
        let count = u16::from_le_bytes([low, high]);
        let set = set_of(from(s, 6));
        let body = from(s, HEAD);
        let one = variable(first);
        let other = variable(constant);
        let function = match number {
            0 => Some(Function::Change(Change::Load {
                constant,
                terms: Terms { count, bytes: body },
            })),
            1 => Some(Function::Change(Change::Canonical)),
            2 => Some(Function::Change(Change::Replace {
                variable: one,
                parity: Parity {
                    set,
                    flipped: mark == Mark::Complemented,
                },
            })),
            3 => Some(Function::Change(Change::TakeOut { variable: one })),
            4 => Some(Function::Ask(Question::OddMask)),
            5 => Some(Function::Ask(Question::Halves { variable: one })),
            6 => Some(Function::Ask(Question::PhaseAt { bits: set.low })),
            7 => Some(Function::Ask(Question::Parity { set, bit: first })),
            8 => Some(Function::Change(Change::Clear)),
            9 => Some(Function::Build {
                count,
                records: body,
            }),
            10 => Some(Function::Change(Change::Append {
                set,
                coeff: constant,
            })),
            11 => Some(Function::Ask(Question::OddBoth { one, other })),
            12 => Some(Function::Ask(Question::OneSet { set, one, other })),
            13 => Some(Function::Ask(Question::TwoSets { set })),
            _ => None,
        };
        Row {
            function,
            quiet: mark == Mark::Quiet,
        }
    }

    // How many bytes belong to the row.
    fn size(&self) -> usize
        ensures { 0 < result }
    {
        match &self.function {
            Some(Function::Change(Change::Load { constant: _, terms })) => {
                HEAD + TERM * usize::from(terms.count)
            }
            Some(Function::Build { count, records: _ }) => HEAD + usize::from(*count),
            _ => HEAD,
        }
    }
}

// The rows of the bytes that are left.
#[derive(Clone, Copy)]
pub(crate) struct Rows<'a>(pub &'a [u8]);

impl<'a> Iterator for Rows<'a> {
    type Item = Row<'a>;

    ghost remaining = { λ s. at_most (length s.0.now) };

    fn next(&mut self) -> Option<Row<'a>> {
        if self.0.is_empty() {
            return None;
        }
        let row = Row::read(self.0);
        self.0 = from(self.0, row.size());
        Some(row)
    }
}
