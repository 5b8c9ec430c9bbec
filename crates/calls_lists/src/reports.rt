// What a row prints of a report.
use records::Report;
use std::fmt;

// A report's numbers behind its verdict: the two inputs and the five counts.
#[derive(Clone, Copy)]
pub struct BehindVerdict(pub Report);

impl fmt::Display for BehindVerdict {
    fn fmt<W: fmt::Write>(&self, f: &mut fmt::Formatter<W>) -> fmt::Result {
        let Report {
            verdict: _,
            first,
            second,
            pins,
            sums,
            turns,
            joins,
            left,
        } = self.0;
        write!(f, "{first} {second} {pins} {sums} {turns} {joins} {left}")
    }
}
