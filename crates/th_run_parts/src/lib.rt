//! What runs consist of, over any sources and sinks: why a run is refused, how it reads its inputs, and how it writes its
//! outputs. And the runs that make a book.
//!
//! Inputs are read in one order: books, benchmarks, weights, and for a check the certificate; the
//! changes of a book before the book. The first that is refused decides, and no later one is read. A
//! refusal has one line for the user, and a status for the program to end with.
//!
//! `run_book` makes a book of a table of differences, or of a book with heights, and `run_mend` one of
//! a book and a table of its changes. The book is made in memory, and the output is begun only after all
//! of the inputs were read and have no fault.
#![tactic(auto)]

// What a run writes.
mod outputs;

// Why a run is refused.
mod refusals;

// Reading: one book in pieces, what a run keeps of it, all books, the other inputs, and the survey
// that all of them give.
mod books;
mod feeds;
mod inputs;
mod readers;
mod surveys;

// Writing.
mod writing;

// The runs that make a book: what becomes one, the book that sources give, and both runs.
mod booking;
mod conversions;
mod mended;
mod mending;
mod sources;

pub use booking::{BOOKED, run_book};
pub use conversions::Conversion;
pub use feeds::{Feed, SeenFeed, SummedFeed, feed_from};
pub use inputs::read_text;
pub use mending::run_mend;
pub use outputs::Output;
pub use readers::{BookReader, ObservationReader, SumReader, refusal_of};
pub use refusals::{
    DEVICE_FAILED, DONE, INPUT_REFUSED, NO_MEMORY, REFUSED_VERDICT, Refusal, USAGE, status_of,
    status_of_verdict,
};
pub use surveys::{Survey, Tables, network_of, read_summed_survey, read_survey};
pub use th_inputs::Input;
pub use writing::{OutputText, write_outs};
