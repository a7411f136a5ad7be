//! The table of points.
ghost use Rattle.std.specs.Prelude.{◌≡◌, ◌++◌, OnOk};
ghost use Rattle.std.specs.List.{flat_map};
ghost use Rattle.th_network.specs.Heights.{heights_at};
ghost use Rattle.th_network.specs.Networks.{AreAtPoints, points_of};
ghost use Rattle.th_units.specs.Metres.{metres};
ghost use Rattle.th_report.specs.Reports.{benchmark_mark, point_columns, point_line, point_lines};

use gsi_word::Name;
use std::alloc::AllocError;
use th_columns::Page;
use th_network::Network;
use th_units::metre_text;

/// Writes the table of points, with their heights, which are listed in point order.
#[tactic(auto, unfolding(crate::specs::Reports::point_lines))]
pub(crate) fn write_points(
    page: &mut Page,
    network: &Network,
    heights: &[i64],
) -> Result<(), AllocError>
    requires { AreAtPoints network.now heights.now }
    ensures { OnOk result (page.new ≡ page.old ++ point_lines network.now
        (heights_at (points_of network.now) heights.now)) }
{
    write_columns(page, b"POINT", b"HEIGHT", b"")?;
    write_rows(page, network, heights)
}

/// Writes the line of each point.
fn write_rows(page: &mut Page, network: &Network, heights: &[i64]) -> Result<(), AllocError>
    requires { AreAtPoints network.now heights.now }
    ensures { OnOk result (page.new ≡ page.old ++ flat_map
        (point_line network.now (heights_at (points_of network.now) heights.now))
        (points_of network.now)) }
{
    for (k, name) in network.points().iter().enumerate() {
        write_point(page, name, heights[k], network.fixed(k).is_some())?;
    }
    Ok(())
}

/// Writes a point's name, its height, and a mark where it is a benchmark.
fn write_point(page: &mut Page, name: &Name, height: i64, fixed: bool) -> Result<(), AllocError>
    ensures { OnOk result (page.new ≡ page.old
        ++ point_columns name.now (metres height) (benchmark_mark fixed)) }
{
    let metres = metre_text(height);
    let mark: &[u8] = if fixed { b"  B" } else { b"" };
    write_columns(page, name.as_bytes(), metres.as_bytes(), mark)
}

/// Writes the columns of points.
#[tactic(auto, unfolding(crate::specs::Reports::point_columns))]
fn write_columns(page: &mut Page, name: &[u8], height: &[u8], mark: &[u8]) -> Result<(), AllocError>
    ensures { OnOk result (page.new ≡ page.old ++ point_columns name.now height.now mark.now) }
{
    page.left_gap(16, name)?;
    page.right(20, height)?;
    page.add(mark)?;
    page.end_line()
}
