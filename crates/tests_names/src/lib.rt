//! Tests of `th_names` on small networks.
//!
//! They are in a crate of their own since a crate is proved a second time with its tests. They use
//! public calls alone.
#![tactic(auto)]

#[cfg(test)]
mod rises;
