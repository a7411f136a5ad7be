//! The laws of explanations: what freed numbers and flows say of one another, and what the rows that are
//! printed are. And those of mended books: what their observations are, and what becomes of a survey if a book is
//! mended as an explanation proposes.
#![tactic(auto)]

pub mod laws;
pub mod mend_laws;
