//! The words of a GSI block: how they are spelled, and the names and the lengths that they hold.
//!
//! A word borrows its data from the line, so nothing is copied. A `Name` is a point's name in
//! reduced form, and owns its bytes.
#![tactic(auto)]

// Limits, indexes and faults.
mod faults;
mod indexes;
mod limits;

// Words, and the bytes that each place allows.
mod bytes;
mod words;

// Reading and writing words.
mod parsing;
mod writing;

// Names and lengths.
mod names;
mod values;

// Laws of the definitions.
pub mod laws;

pub use faults::{LengthFault, WordFault};
pub use indexes::{
    HEIGHT_DIFFERENCE, HORIZONTAL_ANGLE, HORIZONTAL_DISTANCE, INSTRUMENT_HEIGHT, POINT_NUMBER,
    REFLECTOR_HEIGHT, SLOPE_DISTANCE, STATION_EASTING, STATION_HEIGHT, STATION_NORTHING,
    TARGET_HEIGHT, VERTICAL_ANGLE,
};
pub use limits::{MAX_NAME, MAX_WORD};
pub use names::{Name, name_of};
pub use parsing::read_word;
pub use values::{length_of, two_digit};
pub use words::{Width, Word};
pub use writing::write_word;
