//! Makes the calls that keep something after an allocation failure: lines of a book, pieces of a book,
//! and the settling of a network over one search.
//!
//! `tests/refused_memory` runs this program with one request for memory refused, each in turn. A call
//! that wants memory has a line that says so, and is made once more. In the end the observations, the
//! heights and the flows are the same, whatever was refused.
#![tactic(auto)]

mod books;
mod networks;

use std::io;

fn main(rt: HostRuntime) -> io::Result<()> {
    books::print_by_lines(&rt, rt.alloc())?;
    books::print_by_pieces(&rt, rt.alloc())?;
    networks::print_settled(&rt, rt.alloc())
}
