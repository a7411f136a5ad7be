//! What printed texts are made of: columns and line ends, lines of a label and its value, numbers in a
//! fixed count of digits, and names of files without their folders. Only an allocation can fail.
#![tactic(auto)]

mod columns;
mod digits;
mod file_names;
mod labels;

pub use columns::{LINE, Page};
pub use digits::last_digits;
pub use file_names::last_part;
pub use labels::{write_count, write_label, write_limit};
