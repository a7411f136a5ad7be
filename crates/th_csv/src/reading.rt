//! Reading the records of a text, one after another, until the end or a failed allocation.
ghost use Rattle.std.specs.Prelude.{◌≡◌, ◌≤◌, ◌+◌, true, false, is_err, IfOk, IsErr, length};
ghost use Rattle.csv.specs.Records.{fields_of};
ghost use Rattle.th_csv.specs.Inside.Readers.{IsReading, ReadsFront};
ghost use Rattle.th_csv.specs.Records.{records_of, ReadsOne};

use crate::faults::out_of_memory;
use crate::fields::Record;
use csv::{ByteRecord, Reader, ReaderBuilder};
use std::alloc::{AllocError, Global};
use std::marker::Model;

/// How far a reader has come.
#[derive(Clone, Copy)]
enum Progress {
    /// Between two records, or before the first.
    Reading,
    /// There is no record left.
    Ended,
    /// An allocation failed.
    Refused,
}

/// The records of a text that are still to be read.
#[derive(Drop)]
pub struct RecordReader<'a> {
    reader: Reader<&'a [u8]>,
    progress: Progress,
}

impl<'a> Model for RecordReader<'a> {
    ghost use Rattle.th_csv.specs.Records.{Unread};

    ghost Value = { Unread };

    ghost use Rattle.th_csv.specs.Inside.Readers.{StandsRight, is_refused, records_due};

    ghost view = { λ a. record {
      records = records_due a.progress a.reader;
      refused = is_refused a.progress;
    } };

    ghost invariant = { λ a. StandsRight a.progress a.reader };
}

impl<'a> RecordReader<'a> {
    /// The records of a text. A byte order mark at its very beginning is skipped.
    pub fn open(alloc: Global, text: &'a [u8]) -> RecordReader<'a>
        ensures records { result.records ≡ records_of text.entry.now }
        ensures few { length result.records ≤ length text.entry.now + 1 }
        ensures refused { result.refused ≡ false }
    {
        RecordReader {
            reader: ReaderBuilder::new()
                .has_headers(false)
                .flexible(true)
                .from_reader(alloc, text),
            progress: Progress::Reading,
        }
    }

    /// Reads the next record into `into`, and returns whether there was one. After an allocation
    /// failure each later call fails too.
    pub fn next(&mut self, into: &mut Record) -> Result<bool, AllocError>
        ensures next { IfOk result (λ found.
            ReadsOne self.old.records self.new.records found into.new) }
        ensures refused { self.new.refused ≡ is_err result }
        ensures for_good { self.old.refused ≡ true → IsErr result }
    {
        match self.progress {
            Progress::Refused => return Err(AllocError),
            Progress::Ended => return Ok(false),
            Progress::Reading => (),
        }
        match read_next(&mut self.reader, &mut into.fields) {
            Ok(true) => Ok(true),
            Ok(false) => {
                self.progress = Progress::Ended;
                Ok(false)
            }
            Err(refused) => {
                self.progress = Progress::Refused;
                Err(refused)
            }
        }
    }
}

/// Reads the next record, and says whether there was one.
fn read_next(reader: &mut Reader<&[u8]>, fields: &mut ByteRecord) -> Result<bool, AllocError>
    requires { IsReading reader.old }
    ensures { IfOk result (λ found. ReadsFront reader.old reader.new found (fields_of fields.new)) }
{
    reader.read_byte_record(fields).map_err(out_of_memory)
}
