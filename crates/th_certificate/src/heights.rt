//! Heights by name, as the rows of a certificate state them.
ghost use Rattle.std.specs.Prelude.{◌≡◌, ◌<◌, ◌^◌, ◌++◌, ◌∷◌, [], IfSome, None, OnErr, OnOk, bytes_eq, length, slice_get, unsigned_abs, ◌==◌};
ghost use Rattle.std.specs.Map.{lookup};
ghost use Rattle.th_certificate.specs.Certified.{AreHeightRows};
ghost use Rattle.th_network.specs.Limits.{height_limit};

use gsi_word::Name;
use std::alloc::{AllocError, Global};
use std::marker::Model;
use th_hash::{FEW_NAMES, HashSeed, NameMap, insert_stated};

/// Heights that a certificate states: names, and a height of each in units of 10 nm and below 10^17
/// in size, in the order of their rows. Each name has one row.
#[derive(Debug, Drop)]
pub struct StatedHeights {
    heights: NameMap<Name, i64>,
}

impl Model for StatedHeights {
    ghost use Rattle.th_certificate.specs.Certified.{AreHeightRows, HeightRows};

    ghost Value = { HeightRows };

    ghost view = { λ stated. stated.heights.entries };

    ghost invariant = { λ stated. AreHeightRows stated.heights.entries };
}

impl StatedHeights {
    /// No heights.
    pub(crate) fn new(alloc: Global) -> StatedHeights
        ensures { result ≡ [] }
    {
        StatedHeights {
            heights: NameMap::with_hasher(alloc, HashSeed::none()),
        }
    }

    /// How many rows there are.
    pub fn len(&self) -> usize
        ensures { result ≡ length self.now }
    {
        self.heights.len()
    }

    /// Whether there is no row.
    pub fn is_empty(&self) -> bool
        ensures { result ≡ (length self.now == 0) }
    {
        self.heights.is_empty()
    }

    /// The height of a name; `None` for a name without a row.
    pub fn height_of(&self, name: &Name) -> Option<i64>
        ensures value { result ≡ lookup (bytes_eq name.now) self.now }
        ensures in_range { IfSome result (λ height. unsigned_abs height < height_limit) }
    {
        self.heights.get(name).copied()
    }

    /// The row at this place, from 0; `None` past the last.
    pub fn entry(&self, k: usize) -> Option<(Name, i64)>
        ensures value { result ≡ slice_get self.now k }
        ensures rows { AreHeightRows self.now }
        ensures counted { length self.now < 2 ^ 64 }
    {
        self.heights
            .as_slice()
            .get_index(k)
            .map(|(name, height)| (*name, *height))
    }

    /// Adds a row that some content states. After an allocation failure the rows are as they were.
    pub(crate) fn add(
        &mut self,
        alloc: Global,
        content: &[u8],
        name: Name,
        height: i64,
    ) -> Result<(), AllocError>
        requires new { lookup (bytes_eq name) self.old ≡ None }
        requires in_range { unsigned_abs height < height_limit }
        ensures added { OnOk result (self.new ≡ self.old ++ (name, height) ∷ []) }
        ensures unchanged { OnErr result (self.new ≡ self.old) }
    {
        let _ = insert_stated(alloc, content, FEW_NAMES, &mut self.heights, name, height)?;
        Ok(())
    }
}
