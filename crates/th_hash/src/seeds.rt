//! Seeds for hashers: none for few names, else one from the content that has the names.
ghost use Rattle.std.specs.Prelude.{◌≡◌, ◌↔◌, IsTrue};
ghost use Rattle.th_hash.specs.Seeds.{fast, is_fast, seeded};

use crate::hashers::NameHasher;
use sha2::{Digest, Sha256};
use std::hash::{BuildHasher, DefaultHasher, FoldHasher, Hasher};
use std::marker::Model;

/// The most names that a map hashes without a seed. A network has fewer points, and looking up so few
/// names takes milliseconds even if all of them share a hash.
pub const FEW_NAMES: usize = 4_096;

/// The seed of a map's hashers.
#[derive(Clone, Copy)]
pub struct HashSeed {
    hasher: NameHasher,
}

impl Model for HashSeed {
    ghost use Rattle.th_hash.specs.declared.hashers.NameHasher.{NameHasher as Begun};

    ghost Value = { Begun };

    ghost view = { λ seed. seed.hasher };

    ghost inverse = { λ hasher. record { hasher = hasher } };
}

impl HashSeed {
    /// No seed, for few names.
    pub fn none() -> HashSeed
        ensures { result ≡ fast }
    {
        HashSeed {
            hasher: NameHasher::Fast(FoldHasher::default()),
        }
    }

    /// The seed for the names of some content. The content must determine each name: other names
    /// must be other content.
    pub fn of(content: &[u8]) -> HashSeed
        ensures { result ≡ seeded content.now }
    {
        let mut hasher = DefaultHasher::new();
        hasher.write(&Sha256::digest(content));
        HashSeed {
            hasher: NameHasher::Seeded(hasher),
        }
    }

    /// Whether there is no seed.
    pub fn is_none(&self) -> bool
        ensures { result ≡ is_fast self.now }
    {
        match self.hasher {
            NameHasher::Fast(_) => true,
            NameHasher::Seeded(_) => false,
        }
    }
}

impl BuildHasher for HashSeed {
    type Hasher = NameHasher;

    ghost build_hasher = { λ hasher. hasher };

    fn build_hasher(&self) -> NameHasher {
        self.hasher
    }
}
