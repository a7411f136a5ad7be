//! The report on an adjustment.
ghost use Rattle.std.specs.Prelude.{◌≡◌, ◌<◌, ◌++◌, All, IfOk, OnOk, length, unsigned_abs};
ghost use Rattle.th_network.specs.Networks.{AreAtPoints, at_points_of};
ghost use Rattle.th_blunders.specs.Fits.{IsFit};
ghost use Rattle.th_blunders.specs.Residuals.{residual_limit};
ghost use Rattle.th_report.specs.Reports.{adjusted_part, observed_part, report_text};

use crate::heads::write_head;
use crate::opposite_lists::write_opposites;
use crate::point_tables::write_points;
use crate::residual_tables::{write_blunders, write_residuals};
use std::alloc::{AllocError, Global};
use th_blunders::Fit;
use th_columns::{LINE, Page};
use th_network::Network;

/// The report on the heights of a network, which are in point order and in units of 10 nm: counts,
/// the points with their heights, the observations with their residuals, those whose residual is
/// above the limit in size, and the opposites.
///
/// The limit is in units of 10 nm.
pub fn report_text(
    alloc: Global,
    network: &Network,
    heights: &[i64],
    limit: i64,
) -> Result<Vec<u8>, AllocError>
    requires { AreAtPoints network.now heights.now }
    ensures { IfOk result (λ text. text.items
        ≡ report_text network.now (at_points_of network.now heights.now) limit) }
{
    let fit = Fit::of(alloc, network, heights)?;
    report_on_fit(alloc, network, heights, &fit, limit)
}

/// The text of `report_text` where it is known how the heights fit.
#[tactic(auto, unfolding(crate::specs::Reports::report_text))]
pub fn report_on_fit(
    alloc: Global,
    network: &Network,
    heights: &[i64],
    fit: &Fit,
    limit: i64,
) -> Result<Vec<u8>, AllocError>
    requires heights { AreAtPoints network.now heights.now }
    requires fit { IsFit network.now (at_points_of network.now heights.now) fit.now }
    ensures { IfOk result (λ text. text.items
        ≡ report_text network.now (at_points_of network.now heights.now) limit) }
{
    let mut page = Page::with_room(alloc, room_for(network))?;
    write_adjusted(&mut page, network, heights, fit.cost, limit)?;
    write_observed(alloc, &mut page, network, &fit.residuals, limit)?;
    Ok(page.into_bytes())
}

/// How many bytes the report on a network has at most as a rule: a line for each point, and two for
/// each observation, which may be a blunder.
fn room_for(network: &Network) -> usize {
    LINE * (network.points().len() + 2 * network.observations().len())
}

/// Writes what was adjusted: the title with the numbers, and the points.
#[tactic(auto, unfolding(crate::specs::Reports::adjusted_part))]
fn write_adjusted(
    page: &mut Page,
    network: &Network,
    heights: &[i64],
    cost: u128,
    limit: i64,
) -> Result<(), AllocError>
    requires { AreAtPoints network.now heights.now }
    ensures { OnOk result (page.new ≡ page.old ++ adjusted_part network.now
        (at_points_of network.now heights.now) cost limit) }
{
    write_head(page, network, cost, limit)?;
    page.end_line()?;
    write_points(page, network, heights)?;
    page.end_line()
}

/// Writes what was observed: the residuals, the blunders and the opposites.
#[tactic(auto, unfolding(crate::specs::Reports::observed_part, crate::specs::Reports::blunder_lines))]
fn write_observed(
    alloc: Global,
    page: &mut Page,
    network: &Network,
    residuals: &[i64],
    limit: i64,
) -> Result<(), AllocError>
    requires each { length residuals.now ≡ length network.now.observations }
    requires small { All (λ residual. unsigned_abs residual < residual_limit) residuals.now }
    ensures { OnOk result (page.new ≡ page.old ++ observed_part network.now residuals.now limit) }
{
    let observations = network.observations();
    let blunders = write_residuals(alloc, page, network, residuals, limit)?;
    page.end_line()?;
    write_blunders(alloc, page, residuals, limit, blunders)?;
    page.end_line()?;
    write_opposites(alloc, page, observations)
}
