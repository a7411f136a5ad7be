//! The table of benchmarks: names and heights under the header `point,height`.
ghost use Rattle.std.specs.Prelude.{◌≡◌, ◌⊎◌, ◌<◌, ◌≤◌, ◌^◌, Ok, Err, IfErr, IfOk, IfSome, length, slice_get, unsigned_abs};
ghost use Rattle.th_tables.specs.Rows.{AreBenchmarks, height_of};
ghost use Rattle.th_units.specs.Limits.{max_len};
ghost use Rattle.th_tables.specs.Limits.{max_table};
ghost use Rattle.th_tables.specs.Tables.{benchmarks_of, no_memory, too_long};

use crate::faults::{TableFault, TableKind};
use crate::fields::{height_in, name_in};
use crate::tables::{Table, read_table};
use gsi_word::Name;
use std::alloc::Global;
use std::marker::Model;
use th_csv::Record;
use th_hash::{FEW_NAMES, NameMap};

/// The benchmarks: names and their heights in units of 10 nm, in the order of their table.
#[derive(Debug, Drop)]
pub struct Benchmarks {
    heights: NameMap<Name, i64>,
}

impl Model for Benchmarks {
    ghost use Rattle.th_tables.specs.Rows.{AreBenchmarks, BenchmarkRows};

    ghost Value = { BenchmarkRows };

    ghost view = { λ benchmarks. benchmarks.heights.entries };

    ghost invariant = { λ benchmarks. AreBenchmarks benchmarks.heights.entries };
}

impl Benchmarks {
    /// The height of a benchmark, at most `MAX_LEN` in size; `None` for another name.
    pub fn height_of(&self, name: &Name) -> Option<i64>
        ensures value { result ≡ height_of self.now name.now }
        ensures range { IfSome result (λ height. unsigned_abs height ≤ max_len) }
    {
        self.heights.get(name).copied()
    }

    /// How many rows the table has.
    pub fn len(&self) -> usize
        ensures rows { result ≡ length self.now }
        ensures small { result < 2 ^ 63 }
    {
        self.heights.len()
    }

    /// The row at this place of the table, from 0; `None` past its end.
    pub fn entry(&self, k: usize) -> Option<(Name, i64)>
        ensures value { result ≡ slice_get self.now k }
        ensures benchmarks { AreBenchmarks self.now }
        ensures counted { length self.now < 2 ^ 64 }
    {
        self.heights
            .as_slice()
            .get_index(k)
            .map(|(name, height)| (*name, *height))
    }
}

impl Table for Benchmarks {
    ghost use Rattle.th_tables.specs.Fields.{benchmark_in, is_benchmarks_header};
    ghost use Rattle.std.specs.Prelude.{◌≤◌, unsigned_abs};
    ghost use Rattle.th_units.specs.Limits.{max_len};

    type Key = Name;

    type Value = i64;

    ghost is_header = { is_benchmarks_header };

    ghost row_in = { benchmark_in };

    ghost IsAllowed = { λ height. unsigned_abs height ≤ max_len };

    const FEW: usize = FEW_NAMES;

    fn is_header(fields: &Record) -> bool {
        match fields.two() {
            Some((point, height)) => point == b"point".as_slice() && height == b"height".as_slice(),
            None => false,
        }
    }

    fn row_in(fields: &Record) -> Result<(Name, i64), TableKind> {
        let (name, height) = fields.two().ok_or(TableKind::FieldCount)?;
        Ok((name_in(name)?, height_in(height)?))
    }
}

/// Reads a table of benchmarks with the header `point,height`, or returns its first fault.
///
/// A record under the header has a name and metres of at most 10 km in size, and no name that an
/// earlier record has. `NoMemory` may occur for a table that is not too long.
pub fn read_benchmarks(alloc: Global, bytes: &[u8]) -> Result<Benchmarks, TableFault>
    ensures table { IfOk result (λ table. benchmarks_of bytes.now ≡ Ok table) }
    ensures rows { IfOk result (λ table. AreBenchmarks table) }
    ensures fault { IfErr result (λ fault. (fault ≡ no_memory) ⊎ (benchmarks_of bytes.now ≡ Err fault)) }
    ensures too_long { max_table < length bytes.now → result ≡ Err too_long }
{
    let heights = read_table::<Benchmarks>(alloc, bytes)?;
    Ok(Benchmarks { heights })
}
