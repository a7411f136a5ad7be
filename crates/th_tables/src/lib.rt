//! The tables of benchmarks and of weights, read from comma-separated values.
//!
//! A table is a header and records under it, as `th_csv` reads them. Each record under the header
//! is one row, with a name, or a station and a target, that no earlier record has. A table is read
//! whole or refused with its first faulty record and the first kind of fault that applies there.
#![tactic(auto)]

// Limits and faults.
mod faults;
mod limits;

// Fields, and the rows of any table.
mod fields;
mod tables;

// Tables.
mod benchmarks;
mod weights;

// Laws of the definitions.
pub mod laws;

pub use benchmarks::{Benchmarks, read_benchmarks};
pub use faults::{TableFault, TableKind};
pub use limits::{MAX_TABLE, MAX_WEIGHT_DIGITS};
pub use th_limits::MAX_WEIGHT;
pub use weights::{Weights, read_weights};
