//! Rows that are written one after another to a text in memory.
ghost use Rattle.std.specs.Prelude.{◌≡◌, ◌++◌, [], true, false, is_err, map, IfOk, IsErr, OnOk};
ghost use Rattle.th_csv.specs.Texts.{row_text};

use crate::faults::out_of_memory;
use csv::{Writer, WriterBuilder};
use std::alloc::{AllocError, Global};
use std::marker::Model;

/// The text of the rows that were written to it.
#[derive(Drop)]
pub struct RowWriter {
    writer: Writer<Vec<u8>>,
    refused: bool,
}

impl Model for RowWriter {
    ghost use Rattle.th_csv.specs.Texts.{Written};

    ghost Value = { Written };

    ghost use Rattle.std.specs.Prelude.{◌≡◌, false};
    ghost use Rattle.th_csv.specs.Inside.Writers.{IsReady, text_in};

    ghost view = { λ a. record {
      text = text_in a.writer;
      refused = a.refused;
    } };

    ghost invariant = { λ a. a.refused ≡ false → IsReady a.writer };
}

impl RowWriter {
    /// A text of no rows.
    pub fn new(alloc: Global) -> RowWriter
        ensures text { result.text ≡ [] }
        ensures refused { result.refused ≡ false }
    {
        RowWriter {
            writer: WriterBuilder::new()
                .flexible(true)
                .from_writer(Vec::new(alloc)),
            refused: false,
        }
    }

    /// Writes a row of these fields. After an allocation failure each later call fails too.
    pub fn write(&mut self, fields: &[&[u8]]) -> Result<(), AllocError>
        ensures text { OnOk result (self.new.text
            ≡ self.old.text ++ row_text (map (λ field. field.now) fields.now)) }
        ensures refused { self.new.refused ≡ is_err result }
        ensures for_good { self.old.refused ≡ true → IsErr result }
    {
        if self.refused {
            return Err(AllocError);
        }
        let written = self.writer.write_fields(fields).map_err(out_of_memory);
        self.refused = written.is_err();
        written
    }

    /// The text of the rows, unless an allocation failed for one of them.
    pub fn into_text(self) -> Result<Vec<u8>, AllocError>
        ensures text { IfOk result (λ text. text.items ≡ self.text) }
        ensures for_good { self.refused ≡ true → IsErr result }
    {
        if self.refused {
            return Err(AllocError);
        }
        self.writer.into_inner().map_err(out_of_memory)
    }
}
