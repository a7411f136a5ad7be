//! The certificate of least heights: its contents, and its text, written and read.
//!
//! A certificate has heights, the lowest and the highest of the best heights, a flow for each
//! observation and a cost. From these anyone can check that no heights cost less. Its text is
//! comma-separated values, a row for each of these. Version 2 is written; version 1, which has no
//! lowest and highest heights, is still read. A certificate is read whole or refused with its first
//! faulty record and the first kind of fault that applies there; whether it is right is up to the
//! checker.
#![tactic(auto)]

// Certificates.
mod certificates;
mod heights;
mod limits;

// Reading.
mod drafts;
mod faults;
mod numbers;
mod reading;
mod statements;

// Writing.
mod writing;

// Laws of the definitions.
pub mod laws;

pub use certificates::Certificate;
pub use faults::{CertFault, CertKind};
pub use heights::StatedHeights;
pub use limits::{MAX_CERTIFICATE, MAX_FLOWS};
pub use reading::read_certificate;
pub use writing::{certificate_text, write_certificate};
