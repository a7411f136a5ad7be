//! Tests of `th_conversions`: books of tables, listed again, and tables that are refused.
//!
//! They stand in a crate of their own since a crate is proved a second time with its tests. They use
//! public calls alone.
#![tactic(auto)]

#[cfg(test)]
mod heights;
#[cfg(test)]
mod tables;
