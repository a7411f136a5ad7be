//! Tests of the crates that read bytes: what devices give and take, the records of a text, lengths and
//! their texts, words and names, lines and blocks, and what books give or which faults they have.
//!
//! They stand in a crate of their own since a crate is proved a second time with its tests. They use
//! public calls alone.
#![tactic(auto)]

// Sources and sinks.
#[cfg(test)]
mod devices;
#[cfg(test)]
mod failing_files;
#[cfg(test)]
mod files;

// Records and rows.
#[cfg(test)]
mod records;

// Lengths, and the words that hold them.
#[cfg(test)]
mod units;
#[cfg(test)]
mod words;

// The lines of a text, and the blocks of lines.
#[cfg(test)]
mod blocks;
#[cfg(test)]
mod lines;

// Books by their lines, whole, and by pieces of their bytes.
#[cfg(test)]
mod books;
#[cfg(test)]
mod feeds;
