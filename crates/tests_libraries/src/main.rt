//! The examples of docs/LIBRARIES.md, each a module as the page quotes it, run on a book of three
//! sights.
#![tactic(auto)]

// What each example runs on.
mod samples;

// Words and observations, certificates, heights.
mod accepting;
mod settling;
mod weighing;

use std::io;

fn main(rt: HostRuntime) -> io::Result<()> {
    weighing::print_weights(&rt, rt.alloc(), samples::BOOK)?;
    samples::print_verdicts(&rt, rt.alloc())?;
    samples::print_heights(&rt, rt.alloc())
}
