//! The lines of a book, and their blocks of GSI words.
//!
//! `LineCursor` gives the lines of a text one by one, and `Lines` those of a text that comes in
//! pieces. `read_block` reads a line as a block, whose words borrow from the line, or returns the
//! first fault from the left. `write_block` writes a block as a line.
#![tactic(auto)]

// Limits and faults.
mod faults;
mod limits;

// From bytes to lines.
mod cursor;
mod ends;
mod lines;

// From lines to blocks.
mod blocks;
mod parsing;
mod writing;

// Laws of the definitions.
pub mod laws;

pub use blocks::Block;
pub use cursor::LineCursor;
pub use faults::BlockFault;
pub use limits::{MAX_KEPT, MAX_LINE, MAX_WORDS};
pub use lines::Lines;
pub use parsing::{read_block, read_words};
pub use writing::write_block;
