//! The text of a certificate of version 2, row by row, for heights and flows of a network.
ghost use Rattle.std.specs.Prelude.{◌≡◌, ◌++◌, ◌∷◌, [], All, IfOk, OnOk, Some, codes, length, map};
ghost use Rattle.std.specs.List.{enumerate_from};
ghost use Rattle.gsi_word.specs.Names.{name_of};
ghost use Rattle.th_csv.specs.Texts.{csv_text};
ghost use Rattle.th_network.specs.Faults.{IsNetwork};
ghost use Rattle.th_network.specs.Networks.{AreAtPoints, AreOfObservations, at_points_of, points_of};
ghost use Rattle.th_tables.specs.Rows.{AreWeights};
ghost use Rattle.th_certificate.specs.Texts.{IsCertifiable, cost_of, cost_row, flow_row, header_row, height_row, heights_at_points, text_of_version_2, version_row};

use gsi_word::Name;
use itoa::Buffer;
use std::alloc::{AllocError, Global};
use th_blunders::Fit;
use th_csv::RowWriter;
use th_network::{Network, Settled, Spans};
use th_units::metre_text;

/// The text of `certificate_text` for settled heights, their circulation and their spans.
pub fn write_certificate(
    alloc: Global,
    network: &Network,
    settled: &Settled,
    spans: &Spans,
) -> Result<Vec<u8>, AllocError>
    requires heights { AreAtPoints network.now settled.now.heights.items }
    requires low { AreAtPoints network.now spans.now.low.items }
    requires high { AreAtPoints network.now spans.now.high.items }
    requires flows { AreOfObservations network.now settled.now.flows.items }
    ensures text { IfOk result (λ text. text.items ≡ text_of_version_2 network.now
        (at_points_of network.now settled.now.heights.items)
        (at_points_of network.now spans.now.low.items)
        (at_points_of network.now spans.now.high.items) settled.now.flows.items) }
    ensures certifiable { OnOk result (AreWeights network.now.weights → IsCertifiable network.now) }
{
    let fit = Fit::of(alloc, network, &settled.heights)?;
    certificate_text(
        alloc,
        network,
        &settled.heights,
        &spans.low,
        &spans.high,
        &settled.flows,
        fit.cost,
    )
}

/// The text of a certificate of version 2: a row of each map for each point, in point order, a flow
/// for each observation, and what the heights cost. Heights are in point order and in units of
/// 10 nm. Over a table of weights, the network is one whose certificates are read back.
pub fn certificate_text(
    alloc: Global,
    network: &Network,
    heights: &[i64],
    low: &[i64],
    high: &[i64],
    flows: &[i64],
    cost: u128,
) -> Result<Vec<u8>, AllocError>
    requires heights { AreAtPoints network.now heights.now }
    requires low { AreAtPoints network.now low.now }
    requires high { AreAtPoints network.now high.now }
    requires flows { AreOfObservations network.now flows.now }
    requires cost { cost ≡ cost_of network.now (at_points_of network.now heights.now) }
    ensures text { IfOk result (λ text. text.items ≡ text_of_version_2 network.now
        (at_points_of network.now heights.now) (at_points_of network.now low.now)
        (at_points_of network.now high.now) flows.now) }
    ensures certifiable { OnOk result (AreWeights network.now.weights → IsCertifiable network.now) }
{
    let mut writer = RowWriter::new(alloc);
    write_front(&mut writer, network.observations().len() as u64)?;
    write_heights(&mut writer, b"H", network, heights)?;
    write_heights(&mut writer, b"L", network, low)?;
    write_heights(&mut writer, b"U", network, high)?;
    write_flows(&mut writer, flows)?;
    write_cost(&mut writer, cost)?;
    writer.into_text()
}

/// Writes the header and the version row, which counts the observations.
fn write_front(writer: &mut RowWriter, count: u64) -> Result<(), AllocError>
    ensures { OnOk result (writer.new.text ≡ writer.old.text
        ++ csv_text (header_row ∷ version_row (codes "2") count ∷ [])) }
{
    writer.write(&[b"kind", b"key", b"value"])?;
    let mut digits = Buffer::new();
    writer.write(&[b"V", b"2", digits.format(count).as_bytes()])
}

/// Writes the rows of heights that are listed in point order, under the letter of their kind.
fn write_heights(
    writer: &mut RowWriter,
    letter: &[u8],
    network: &Network,
    heights: &[i64],
) -> Result<(), AllocError>
    requires { AreAtPoints network.now heights.now }
    ensures text { OnOk result (writer.new.text ≡ writer.old.text ++ csv_text (map (height_row letter.now)
        (heights_at_points network.now (at_points_of network.now heights.now)))) }
    ensures network { OnOk result (IsNetwork network.now.observations network.now.benchmarks) }
    ensures names { OnOk result (All (λ name. name_of name ≡ Some name) (points_of network.now)) }
{
    for (k, name) in network.points().iter().enumerate() {
        write_height(writer, letter, name, heights[k])?;
    }
    Ok(())
}

/// Writes the row of a point.
fn write_height(
    writer: &mut RowWriter,
    letter: &[u8],
    name: &Name,
    height: i64,
) -> Result<(), AllocError>
    ensures text { OnOk result (writer.new.text ≡ writer.old.text
        ++ csv_text (height_row letter.now (name.now, height) ∷ [])) }
    ensures name { name_of name.now ≡ Some name.now }
{
    let metres = metre_text(height);
    writer.write(&[letter, name.as_bytes(), metres.as_bytes()])
}

/// Writes the rows of flows, numbered from 1.
fn write_flows(writer: &mut RowWriter, flows: &[i64]) -> Result<(), AllocError>
    ensures { OnOk result (writer.new.text ≡ writer.old.text
        ++ csv_text (map flow_row (enumerate_from 1 flows.now))) }
{
    for (place, flow) in flows.iter().enumerate() {
        write_flow(writer, place as u64 + 1, *flow)?;
    }
    Ok(())
}

/// Writes the row of a flow.
fn write_flow(writer: &mut RowWriter, number: u64, flow: i64) -> Result<(), AllocError>
    ensures { OnOk result (writer.new.text ≡ writer.old.text ++ csv_text (flow_row (number, flow) ∷ [])) }
{
    let mut number_digits = Buffer::new();
    let mut flow_digits = Buffer::new();
    writer.write(&[
        b"F",
        number_digits.format(number).as_bytes(),
        flow_digits.format(flow).as_bytes(),
    ])
}

/// Writes the row of the cost.
fn write_cost(writer: &mut RowWriter, cost: u128) -> Result<(), AllocError>
    ensures { OnOk result (writer.new.text ≡ writer.old.text ++ csv_text (cost_row cost ∷ [])) }
{
    let mut digits = Buffer::new();
    writer.write(&[b"Z", b"cost", digits.format(cost).as_bytes()])
}
