//! Tests of `th_explain` and `th_explain_texts`: which numbers of a worked survey explain what does not
//! fit, and the texts that say so.
//!
//! They are in a crate of their own since a crate is proved a second time with its tests. They use
//! public calls alone.
#![tactic(auto)]

#[cfg(test)]
mod compared;
#[cfg(test)]
mod finding;
#[cfg(test)]
mod numbers;
#[cfg(test)]
mod texts;
