//! Lengths in whole units of 10 nm, and their texts in metres.
//!
//! A metre is 100,000,000 units. Each unit of length that a total station writes is a whole number
//! of these, so nothing here rounds. The type `Len` keeps a book's lengths within 10 km of zero.
#![tactic(auto)]

// Limits and faults.
mod faults;
mod limits;

// The units of a book's lengths.
mod units;

// From digits: lengths and short numbers.
mod lengths;
mod numbers;
mod short_numbers;

// Texts in metres, and the signs of texts.
mod metres;
mod signs;

// Laws of the definitions.
pub mod laws;

pub use faults::LenFault;
pub use lengths::{Len, to_len};
pub use limits::MAX_SHORT;
pub use metres::{MetreText, metre_text, parse_metres};
pub use numbers::{are_digits, is_digit};
pub use short_numbers::short_number;
pub use signs::{has_minus, without_sign};
pub use th_limits::MAX_LEN;
pub use units::{Unit, step, unit_of};
