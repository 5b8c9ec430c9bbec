// The comparison of two gate lists and the pick, as licensees call them: document 01, "Reducing it", "Report, pick, builder" and "Where a
// call is turned down". Every call takes any bytes and any workspaces, refuses by number what is bad, and then changes no byte that it was
// lent. All that is public here is a call, an answer, or a limit.
#![tactic(auto)]

mod comparing;
mod picking;

pub use comparing::compare;
pub use comparison_checking::{PLACES, SET_WORDS};
pub use comparison_types::{Outcome, Refusal, Verdict};
pub use picking::pick;
pub use record_format::Report;
