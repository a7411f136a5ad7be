//! Hash maps of names that an attacker may have chosen.
//!
//! Names that share a hash slow a map down, and for a known hasher such names are easy to find. So
//! a map of few names uses a fast, known hasher. A map of many names uses SipHash, seeded with the
//! SHA-256 digest of the content that states the names. Nobody knows that hasher before the last
//! name is chosen. The seed changes only the time of a map, never its answers.
#![tactic(auto)]

// Hashers.
mod hashers;

// Seeds.
mod seeds;

// Maps with a seed.
mod maps;

pub use hashers::NameHasher;
pub use maps::{NameMap, NameSet, insert_stated, reseed_set};
pub use seeds::{FEW_NAMES, HashSeed};
