//! Maps and sets of names, and how they get a seed while they keep their entries.
ghost use Rattle.std.specs.Prelude.{◌≡◌, IfOk, OnErr, OnOk};
ghost use Rattle.indexmap.specs.IndexMap.{IsUnique, get, hasher_of, index_map_len, insert_entry};
ghost use Rattle.indexmap.specs.IndexSet.{hasher_of as set_hasher_of};
ghost use Rattle.th_hash.specs.Seeds.{hasher_from};

use crate::seeds::HashSeed;
use indexmap::{IndexMap, IndexSet};
use std::alloc::{AllocError, Global};
use std::hash::Hash;

/// A map of names, or of keys that consist of names.
pub type NameMap<K, V> = IndexMap<K, V, HashSeed>;

/// A set of names.
pub type NameSet<K> = IndexSet<K, HashSeed>;

/// Inserts an entry that some content states, as `IndexMap::insert` does. A map without a seed that has
/// `few` entries or more first gets the seed of the content. The content must determine all keys.
pub fn insert_stated<K: Eq + Hash + Drop, V: Drop>(
    alloc: Global,
    content: &[u8],
    few: usize,
    map: &mut NameMap<K, V>,
    key: K,
    value: V,
) -> Result<Option<V>, AllocError>
    ensures old { IfOk result (λ old. old ≡ get K.eq map.old key) }
    ensures entries { OnOk result (map.new.entries ≡ insert_entry K.eq map.old.entries key value) }
    ensures unique { OnOk result (IsUnique K.eq map.new) }
    ensures seed { OnOk result (hasher_of map.new
        ≡ hasher_from few content.now (index_map_len map.old) (hasher_of map.old)) }
    ensures err { OnErr result (map.new.entries ≡ map.old.entries) }
{
    if few <= map.len() && map.hasher().is_none() {
        reseed_map(alloc, map, HashSeed::of(content))?;
    }
    Ok(map.insert(key, value)?)
}

/// Gives a map another seed. Its entries stay as they are.
fn reseed_map<K: Eq + Hash + Drop, V: Drop>(
    alloc: Global,
    map: &mut NameMap<K, V>,
    seed: HashSeed,
) -> Result<(), AllocError>
    ensures entries { map.new.entries ≡ map.old.entries }
    ensures seed { OnOk result (hasher_of map.new ≡ seed) }
{
    let mut seeded = IndexMap::with_capacity_and_hasher(alloc, map.len(), seed)?;
    seeded.append(map)?;
    *map = seeded;
    Ok(())
}

/// Gives a set another seed, and keeps its names.
pub fn reseed_set<K: Eq + Hash + Drop>(
    alloc: Global,
    set: &mut NameSet<K>,
    seed: HashSeed,
) -> Result<(), AllocError>
    ensures keys { set.new.keys ≡ set.old.keys }
    ensures seed { OnOk result (set_hasher_of set.new ≡ seed) }
{
    let mut seeded = IndexSet::with_capacity_and_hasher(alloc, set.len(), seed)?;
    seeded.append(set)?;
    *set = seeded;
    Ok(())
}
