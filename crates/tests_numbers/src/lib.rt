//! Tests of `th_numbers`: the rows and the texts of worked surveys.
//!
//! They are in a crate of their own since a crate is proved a second time with its tests. They use
//! public calls alone.
#![tactic(auto)]

#[cfg(test)]
mod names;
#[cfg(test)]
mod projects;
#[cfg(test)]
mod surveys;
#[cfg(test)]
mod unusual;
#[cfg(test)]
mod worked;
