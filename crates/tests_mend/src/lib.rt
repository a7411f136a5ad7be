//! Tests of `th_mend`: tables of changes, mended books, and refusals.
//!
//! They use public calls alone.
#![tactic(auto)]

#[cfg(test)]
mod books;
