//! The last call of a search, kept for contracts: its arcs and what it found take no memory.
ghost use Rattle.std.specs.Prelude.{◌≡◌};
ghost use Rattle.th_search.specs.Asked.{asked_in, asked_of};

use crate::arcs::Arc;
use crate::searches::Found;
use std::alloc::AllocError;
use std::fmt::{self, Formatter, Write};
use std::snapshot::Snapshot;

/// What a search was asked last, and what it found. Only contracts can read the arcs and what was found:
/// neither takes memory.
#[derive(Drop)]
pub struct LastCall {
    vertices: u32,
    arcs: Snapshot<Vec<Arc>>,
    found: Snapshot<Result<Found, AllocError>>,
}

impl LastCall {
    /// The call with these arcs among so many vertices that found this.
    pub fn of(vertices: u32, arcs: &Vec<Arc>, found: &Result<Found, AllocError>) -> LastCall
        ensures { asked_in result ≡ asked_of vertices arcs.now.items found.now }
    {
        LastCall {
            vertices,
            arcs: Snapshot::of(arcs),
            found: Snapshot::of(found),
        }
    }
}

impl fmt::Debug for LastCall {
    fn fmt<W: Write>(&self, f: &mut Formatter<W>) -> Result<(), fmt::Error> {
        f.write_str("LastCall")
    }
}
