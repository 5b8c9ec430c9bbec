// Gate-list and report records as licensees use them: document 01, "Gate lists as bytes", "Report, pick, builder", "Where a call is turned
// down". Every call takes any bytes, refuses by number what is bad, and then changes no byte that it was lent. The crates record_* below have
// the code, its contracts and what they cite.
#![tactic(auto)]

pub use record_format::{Head, Refusal, Report};
pub use record_reading::{check, gates};
pub use record_report::{read_report, write_report};
pub use record_writing::{add, inverse, start};
