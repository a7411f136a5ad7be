//! The table of weights: one for a station and a target, under the header `from,to,weight`.
ghost use Rattle.std.specs.Prelude.{◌≡◌, ◌⊎◌, ◌<◌, ◌≤◌, ◌^◌, [], Ok, Err, IfErr, IfOk, length, slice_get};
ghost use Rattle.th_tables.specs.Limits.{max_table, max_weight};
ghost use Rattle.th_tables.specs.Rows.{AreWeights, weight_of};
ghost use Rattle.th_tables.specs.Tables.{no_memory, too_long, weights_of};

use crate::faults::{TableFault, TableKind};
use crate::fields::{name_in, weight_in};
use crate::tables::{Table, read_table};
use gsi_word::Name;
use std::alloc::Global;
use std::marker::Model;
use th_csv::Record;
use th_hash::{HashSeed, NameMap};
use th_limits::MAX_OBSERVATIONS;

/// The most pairs that are hashed without a seed: a network has no more observations.
const FEW_PAIRS: usize = MAX_OBSERVATIONS;

/// The weights of observations by their station and target, in the order of their table.
#[derive(Debug, Drop)]
pub struct Weights {
    weights: NameMap<(Name, Name), u32>,
}

impl Model for Weights {
    ghost use Rattle.th_tables.specs.Limits.{max_table, max_weight};
    ghost use Rattle.th_tables.specs.Rows.{AreWeights, WeightRows};

    ghost Value = { WeightRows };

    ghost view = { λ weights. weights.weights.entries };

    ghost invariant = { λ weights. AreWeights weights.weights.entries };
}

impl Weights {
    /// No weights: each observation weighs 1.
    pub fn empty(alloc: Global) -> Weights
        ensures none { result ≡ [] }
        ensures rows { AreWeights result }
    {
        Weights {
            weights: NameMap::with_hasher(alloc, HashSeed::none()),
        }
    }

    /// The weight of the observations from a station to a target; 1 if none is listed.
    pub fn of(&self, station: &Name, target: &Name) -> u32
        ensures value { result ≡ weight_of self.now station.now target.now }
        ensures positive { 1 ≤ result }
        ensures range { result ≤ max_weight }
    {
        if self.weights.is_empty() {
            return 1;
        }
        self.weights.get(&(*station, *target)).copied().unwrap_or(1)
    }

    /// How many rows the table has.
    pub fn len(&self) -> usize
        ensures rows { result ≡ length self.now }
        ensures small { result < 2 ^ 63 }
    {
        self.weights.len()
    }

    /// The row at this place of the table, from 0: station, target and weight; `None` past its end.
    pub fn entry(&self, k: usize) -> Option<((Name, Name), u32)>
        ensures value { result ≡ slice_get self.now k }
        ensures rows { AreWeights self.now }
        ensures counted { length self.now < 2 ^ 64 }
    {
        self.weights
            .as_slice()
            .get_index(k)
            .map(|(ends, weight)| (*ends, *weight))
    }
}

impl Table for Weights {
    ghost use Rattle.th_tables.specs.Fields.{is_weights_header, weighted_in};
    ghost use Rattle.th_tables.specs.Rows.{IsWeight};

    type Key = (Name, Name);

    type Value = u32;

    ghost is_header = { is_weights_header };

    ghost row_in = { weighted_in };

    ghost IsAllowed = { IsWeight };

    const FEW: usize = FEW_PAIRS;

    fn is_header(fields: &Record) -> bool {
        match fields.three() {
            Some((from, to, weight)) => from == b"from".as_slice()
                && to == b"to".as_slice()
                && weight == b"weight".as_slice(),
            None => false,
        }
    }

    fn row_in(fields: &Record) -> Result<((Name, Name), u32), TableKind> {
        let (station, target, weight) = fields.three().ok_or(TableKind::FieldCount)?;
        let ends = (name_in(station)?, name_in(target)?);
        Ok((ends, weight_in(weight)?))
    }
}

/// Reads a table of weights with the header `from,to,weight`, or returns its first fault. No bytes
/// are an empty table.
///
/// A record under the header has the names of a station and a target, and a weight of 1 to
/// `MAX_WEIGHT`. No earlier record has the same station and target in this order. `NoMemory` may
/// occur for a table that has bytes and is not too long.
pub fn read_weights(alloc: Global, bytes: &[u8]) -> Result<Weights, TableFault>
    ensures table { IfOk result (λ table. weights_of bytes.now ≡ Ok table) }
    ensures rows { IfOk result (λ table. AreWeights table) }
    ensures fault { IfErr result (λ fault. (fault ≡ no_memory) ⊎ (weights_of bytes.now ≡ Err fault)) }
    ensures empty { length bytes.now ≡ 0 → result ≡ Ok [] }
    ensures too_long { max_table < length bytes.now → result ≡ Err too_long }
{
    if bytes.is_empty() {
        return Ok(Weights::empty(alloc));
    }
    let weights = read_table::<Weights>(alloc, bytes)?;
    Ok(Weights { weights })
}
