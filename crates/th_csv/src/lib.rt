//! Comma-separated values over memory: the records of a text, and the text of rows.
//!
//! The crate `csv` reads and writes them. Records may have any number of fields, which are taken as
//! they are, and rows are written as `csv` does by default. In memory only an allocation can fail.
//! After such a failure each call of the reader or writer fails.
#![tactic(auto)]

// Records of a text.
mod fields;
mod reading;

// The text of rows.
mod writing;

// The error of both, and the laws.
mod faults;
pub mod laws;

pub use fields::Record;
pub use reading::RecordReader;
pub use writing::RowWriter;
