//! One type for both hashers of names: a fast one and a seeded one.
use std::hash::{DefaultHasher, FoldHasher, Hasher};

/// A hasher of names.
#[derive(Clone, Copy)]
pub enum NameHasher {
    /// The default hasher of `indexmap`, which is fast. Names that share a hash are easy to find.
    Fast(FoldHasher),
    /// SipHash-1-3 that has hashed a seed. Names that share a hash cannot be found without the seed.
    Seeded(DefaultHasher),
}

impl Hasher for NameHasher {
    ghost use Rattle.th_hash.specs.Hashers.{finish, write};

    ghost write = { write };

    ghost finish = { finish };

    fn finish(&self) -> u64 {
        match self {
            NameHasher::Fast(hasher) => hasher.finish(),
            NameHasher::Seeded(hasher) => hasher.finish(),
        }
    }

    fn write(&mut self, bytes: &[u8]) {
        match self {
            NameHasher::Fast(hasher) => hasher.write(bytes),
            NameHasher::Seeded(hasher) => hasher.write(bytes),
        }
    }
}
