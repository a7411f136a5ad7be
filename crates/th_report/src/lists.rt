//! The list of a book's observations.
ghost use Rattle.std.specs.Prelude.{◌≡◌, ◌++◌, IfOk, OnOk};
ghost use Rattle.th_csv.specs.Texts.{row_text};
ghost use Rattle.th_report.specs.Lists.{list_record, list_text};

use itoa::Buffer;
use std::alloc::{AllocError, Global};
use th_csv::RowWriter;
use th_observations::Observation;
use th_units::metre_text;

/// The text of the list: a header, and a row for each observation with its number from 1, its
/// station, its target, and the difference in metres.
pub fn list_text(alloc: Global, observations: &[Observation]) -> Result<Vec<u8>, AllocError>
    ensures { IfOk result (λ text. text.items ≡ list_text observations.now) }
{
    let mut rows = RowWriter::new(alloc);
    rows.write(&[b"number", b"from", b"to", b"difference"])?;
    for (place, observation) in observations.iter().enumerate() {
        write_observation(&mut rows, place as u64 + 1, observation)?;
    }
    rows.into_text()
}

/// Writes the row of the observation with this number.
fn write_observation(
    rows: &mut RowWriter,
    number: u64,
    observation: &Observation,
) -> Result<(), AllocError>
    ensures { OnOk result (rows.new.text
        ≡ rows.old.text ++ row_text (list_record (number, observation.now))) }
{
    rows.write(&[
        Buffer::new().format(number).as_bytes(),
        observation.station.as_bytes(),
        observation.target.as_bytes(),
        metre_text(observation.difference()).as_bytes(),
    ])
}
