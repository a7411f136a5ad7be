//! What explanations mean for the sights, heights and benchmarks of a survey.
//!
//! `answer_of` puts each row that explains most right, as it is proposed, and adjusts again. Then it
//! says of each sight whether it is in question, of each height whether it moves, and of each benchmark what
//! the others say of it. `specs/` has the definitions. Out of memory is the only failure.
#![tactic(auto)]

// What is said of a sight, of a height and of a benchmark, and of how many benchmarks.
mod answers;
mod limits;

// What puts a row right, and the survey after that.
mod correcting;
mod remedies;

// Sights, heights and benchmarks.
mod judge;
mod judging;
mod moving;
mod telling;
// The whole.
mod answering;

// Laws of the definitions.
pub mod laws;

pub use answering::{Explaining, answer_of};
pub use answers::{Answer, Group, Moved, Others};
pub use limits::{MOST_ASKED, MOST_BENCHMARKS};
