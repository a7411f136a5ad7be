//! Lists the books of total stations, adjusts the height networks that they observe, and checks
//! what others say that such an adjustment gives.
//!
//! The program is `th_program` over the files and streams of the system.
#![tactic(auto)]

use std::io::IsTerminal;
use std::process::ExitCode;
use std::rt::Env;
use std::time::{Instant, SystemTime, UNIX_EPOCH};
use std::{env, io, process};
use th_devices::{HostFolder, Reasons};
use th_program::run_arguments;

/// What is reported if the book to list is typed at a terminal.
const TYPED: &str =
    "reading a book from the terminal, up to Ctrl-D; for help, write 'height_office --help'\n";

fn main(rt: HostRuntime) -> ExitCode {
    let words = words_of(&rt);
    if matches!(&words, Ok(words) if words.len() <= 1) && rt.stdin().is_terminal() {
        let _ = rt.eprint(TYPED);
    }
    let reasons = Reasons::new();
    let mut folder = HostFolder::new(&rt, run_number(&rt), watched(&rt), &reasons);
    ExitCode::from(run_arguments(rt.alloc(), &mut folder, words))
}

/// When the run began, if someone watches standard error.
fn watched(rt: &HostRuntime) -> Option<Instant> {
    if rt.stderr().is_terminal() {
        Instant::now(rt).ok()
    } else {
        None
    }
}

/// A number that no other run has: of its process, and of the moment, since processes in containers
/// share numbers.
fn run_number(rt: &HostRuntime) -> u64 {
    let nanoseconds = match SystemTime::now(rt) {
        Ok(now) => match now.duration_since(UNIX_EPOCH) {
            Ok(since) => since.subsec_nanos(),
            Err(_) => 0,
        },
        Err(_) => 0,
    };
    u64::from(process::id(rt.process())) * 1_000_000_000 + u64::from(nanoseconds)
}

/// The arguments of the command line, the program's own name first.
fn words_of<R: Env + AllocGlobal>(rt: &R) -> io::Result<Vec<String>> {
    Ok(env::args(rt)?.collect(rt.alloc())?)
}
