//! Records of a text, and their fields where there are exactly two, three or four.
ghost use Rattle.std.specs.Prelude.{◌≡◌, ◌≢◌, ◌∷◌, [], length, MatchOption};
ghost use Rattle.csv.specs.Records.{fields_of};

use csv::ByteRecord;
use std::alloc::Global;
use std::marker::Model;

/// A record: its fields, which are bytes of any kind.
#[derive(Drop)]
pub struct Record {
    pub(crate) fields: ByteRecord,
}

impl Model for Record {
    ghost use Rattle.std.specs.Prelude.{ℕ, List};
    ghost use Rattle.csv.specs.Records.{fields_of};

    ghost Value = { List (List ℕ) };

    ghost view = { λ a. fields_of a.fields };
}

impl Record {
    /// A record of no fields, which a `RecordReader` fills.
    pub fn new(alloc: Global) -> Record
        ensures { result ≡ [] }
    {
        Record {
            fields: ByteRecord::new(alloc),
        }
    }

    /// The fields of a record with exactly two.
    pub fn two(&self) -> Option<(&[u8], &[u8])>
        ensures { MatchOption result (length self.now ≢ 2) (λ parts.
            self.now ≡ parts.0.now ∷ parts.1.now ∷ []) }
    {
        two_fields(&self.fields)
    }

    /// The fields of a record with exactly three.
    pub fn three(&self) -> Option<(&[u8], &[u8], &[u8])>
        ensures { MatchOption result (length self.now ≢ 3) (λ parts.
            self.now ≡ parts.0.now ∷ parts.1.now ∷ parts.2.now ∷ []) }
    {
        three_fields(&self.fields)
    }

    /// The fields of a record with exactly four.
    pub fn four(&self) -> Option<(&[u8], &[u8], &[u8], &[u8])>
        ensures { MatchOption result (length self.now ≢ 4) (λ parts.
            self.now ≡ parts.0.now ∷ parts.1.now ∷ parts.2.now ∷ parts.3.now ∷ []) }
    {
        four_fields(&self.fields)
    }
}

fn two_fields(fields: &ByteRecord) -> Option<(&[u8], &[u8])>
    ensures { MatchOption result (length (fields_of fields.now) ≢ 2) (λ parts.
        fields_of fields.now ≡ parts.0.now ∷ parts.1.now ∷ []) }
{
    match (fields.get(0), fields.get(1), fields.get(2)) {
        (Some(first), Some(second), None) => Some((first, second)),
        _ => None,
    }
}

fn three_fields(fields: &ByteRecord) -> Option<(&[u8], &[u8], &[u8])>
    ensures { MatchOption result (length (fields_of fields.now) ≢ 3) (λ parts.
        fields_of fields.now ≡ parts.0.now ∷ parts.1.now ∷ parts.2.now ∷ []) }
{
    match (fields.get(0), fields.get(1), fields.get(2), fields.get(3)) {
        (Some(first), Some(second), Some(third), None) => Some((first, second, third)),
        _ => None,
    }
}

fn four_fields(fields: &ByteRecord) -> Option<(&[u8], &[u8], &[u8], &[u8])>
    ensures { MatchOption result (length (fields_of fields.now) ≢ 4) (λ parts.
        fields_of fields.now ≡ parts.0.now ∷ parts.1.now ∷ parts.2.now ∷ parts.3.now ∷ []) }
{
    match (
        fields.get(0),
        fields.get(1),
        fields.get(2),
        fields.get(3),
        fields.get(4),
    ) {
        (Some(first), Some(second), Some(third), Some(fourth), None) => {
            Some((first, second, third, fourth))
        }
        _ => None,
    }
}
