//! Tests of `th_certificate` and `th_checker`: what texts of certificates say, which faults they have,
//! what is written, and the verdicts.
//!
//! They stand in a crate of their own since a crate is proved a second time with its tests. They use
//! public calls alone, and take their wanted values from worked surveys.
#![tactic(auto)]

// The surveys and their certificates.
#[cfg(test)]
mod certificates;
#[cfg(test)]
mod surveys;

// Reading, verdicts and writing.
#[cfg(test)]
mod reading;
#[cfg(test)]
mod sizes;
#[cfg(test)]
mod verdicts;
#[cfg(test)]
mod writing;
