//! The file of heights.
ghost use Rattle.std.specs.Prelude.{◌≡◌, ◌++◌, IfOk, OnOk};
ghost use Rattle.th_csv.specs.Texts.{row_text};
ghost use Rattle.th_network.specs.Heights.{heights_at};
ghost use Rattle.th_network.specs.Networks.{AreAtPoints, points_of};
ghost use Rattle.th_report.specs.Heights.{heights_text, height_fields};

use gsi_word::Name;
use std::alloc::{AllocError, Global};
use th_csv::RowWriter;
use th_network::Network;
use th_units::metre_text;

/// The text of the heights file: a header, and a row for each point with its name, its height,
/// which is the lowest one, and its lowest and highest best height, in metres. Both lists are in
/// point order and in units of 10 nm.
pub fn heights_csv(
    alloc: Global,
    network: &Network,
    low: &[i64],
    high: &[i64],
) -> Result<Vec<u8>, AllocError>
    requires low { AreAtPoints network.now low.now }
    requires high { AreAtPoints network.now high.now }
    ensures { IfOk result (λ text. text.items ≡ heights_text network.now
        (heights_at (points_of network.now) low.now) (heights_at (points_of network.now) high.now)) }
{
    let mut rows = RowWriter::new(alloc);
    rows.write(&[b"point", b"height", b"low", b"high"])?;
    for (k, name) in network.points().iter().enumerate() {
        write_point(&mut rows, name, low[k], high[k])?;
    }
    rows.into_text()
}

/// Writes the row of a point.
fn write_point(rows: &mut RowWriter, name: &Name, low: i64, high: i64) -> Result<(), AllocError>
    ensures { OnOk result (rows.new.text ≡ rows.old.text ++ row_text (height_fields name.now low high)) }
{
    let lowest = metre_text(low);
    let highest = metre_text(high);
    rows.write(&[
        name.as_bytes(),
        lowest.as_bytes(),
        lowest.as_bytes(),
        highest.as_bytes(),
    ])
}
