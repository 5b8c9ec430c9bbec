// What a row prints of a refusal: the number and, where it is about a gate, that gate's index.
use records::Refusal;
use std::fmt;

// ` gate` and its index, where a refusal is about a gate.
#[derive(Clone, Copy)]
struct AtGate(Refusal);

impl fmt::Display for AtGate {
    fn fmt<W: fmt::Write>(&self, f: &mut fmt::Formatter<W>) -> fmt::Result {
        match self.0 {
            Refusal::UnknownKind { gate }
            | Refusal::SpareByte { gate }
            | Refusal::QubitRange { gate } => write!(f, " gate {gate}"),
            _ => Ok(()),
        }
    }
}

// The refusal of a list.
#[derive(Clone, Copy)]
pub struct OfList(pub Refusal);

impl fmt::Display for OfList {
    fn fmt<W: fmt::Write>(&self, f: &mut fmt::Formatter<W>) -> fmt::Result {
        write!(f, "refused {}{}", u8::from(self.0), AtGate(self.0))
    }
}

// The refusal of a pair: of one of its lists, or of both together by its number.
#[derive(Clone, Copy)]
pub enum OfPair {
    First(Refusal),
    Second(Refusal),
    Both(u8),
}

impl From<comparison_types::Refusal> for OfPair {
    fn from(refusal: comparison_types::Refusal) -> OfPair {
        match refusal {
            comparison_types::Refusal::First(r) => OfPair::First(r),
            comparison_types::Refusal::Second(r) => OfPair::Second(r),
            of_both => OfPair::Both(of_both.into()),
        }
    }
}

// Stays: the same two cases of another type of refusals; a trait over both types would be longer than the match.
impl From<joining_types::Refusal> for OfPair {
    fn from(refusal: joining_types::Refusal) -> OfPair {
        match refusal {
            joining_types::Refusal::First(r) => OfPair::First(r),
            joining_types::Refusal::Second(r) => OfPair::Second(r),
            of_both => OfPair::Both(of_both.into()),
        }
    }
}

impl fmt::Display for OfPair {
    fn fmt<W: fmt::Write>(&self, f: &mut fmt::Formatter<W>) -> fmt::Result {
        match *self {
            OfPair::First(r) => write!(f, "refused {} first{}", u8::from(r), AtGate(r)),
            OfPair::Second(r) => write!(f, "refused {} second{}", u8::from(r), AtGate(r)),
            OfPair::Both(number) => write!(f, "refused {number}"),
        }
    }
}
