//! One page to hand on: a text of HTML with pictures, which has no script and loads nothing.
//!
//! It says first whether the sights fit, which number is wrong if they do not, and which heights not to use.
//! `page_text` makes it from rows, texts and an answer. `specs/Pages.antt` defines it. `page_of` makes it of
//! what a review found, whose rows are those of the page, and of explanations. Out of memory is the only
//! failure.
#![tactic(auto)]

// What a page shows, its rows with what the answer says of them, and the texts that every page has.
mod contents;
mod fixed;
mod joined;

// The verdict: what decides it, and its words.
mod counts;
mod meanings;
mod verdict_texts;
mod verdicts;

// The other parts of a page, from the first to the last.
mod asks;
mod facts;
mod figures;
mod heads;
mod hiding;
mod residuals;
mod sections;
mod weak;
// The whole.
mod pages;

// The page of what was found: its names and notes, and the whole.
mod network_pages;
mod texts;

// Laws of the definitions.
pub mod laws;

pub use contents::{Explained, Shown};
pub use network_pages::page_of;
pub use pages::page_text;
