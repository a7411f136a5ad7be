//! The list of opposites.
ghost use Rattle.std.specs.Prelude.{◌≡◌, ◌≤◌, ◌++◌, OnOk, length};
ghost use Rattle.std.specs.List.{flat_map};
ghost use Rattle.th_network.specs.Limits.{max_observations};
ghost use Rattle.th_report.specs.Reports.{number_columns, opposite_columns, opposite_line, opposite_lines};

use crate::residual_tables::write_ends;
use std::alloc::{AllocError, Global};
use th_blunders::{Opposite, opposites};
use th_columns::{Page, write_count};
use th_observations::Observation;

/// Writes the count of the opposites among some observations, and a line for each.
#[tactic(auto, unfolding(crate::specs::Reports::opposite_lines))]
pub(crate) fn write_opposites(
    alloc: Global,
    page: &mut Page,
    observations: &[Observation],
) -> Result<(), AllocError>
    requires { length observations.now ≤ max_observations }
    ensures { OnOk result (page.new ≡ page.old ++ opposite_lines observations.now) }
{
    let opposites = opposites(alloc, observations)?;
    write_count(page, b"opposites", opposites.len())?;
    write_rows(page, observations, &opposites)
}

/// Writes the lines of some opposites among observations.
fn write_rows(
    page: &mut Page,
    observations: &[Observation],
    opposites: &[Opposite],
) -> Result<(), AllocError>
    ensures { OnOk result (page.new ≡ page.old
        ++ flat_map (opposite_line observations.now) opposites.now) }
{
    for opposite in opposites {
        write_opposite(page, observations, opposite)?;
    }
    Ok(())
}

/// Writes the line of an opposite, with the ends of the later observation.
#[tactic(auto, unfolding(crate::specs::Reports::opposite_line))]
fn write_opposite(
    page: &mut Page,
    observations: &[Observation],
    opposite: &Opposite,
) -> Result<(), AllocError>
    ensures { OnOk result (page.new ≡ page.old ++ opposite_line observations.now opposite.now) }
{
    match observations.get(opposite.number.saturating_sub(1) as usize) {
        Some(later) => write_columns(page, opposite, later),
        None => Ok(()),
    }
}

/// Writes the numbers of the two observations, the ends of the later one, and the sum.
#[tactic(auto, unfolding(crate::specs::Reports::opposite_columns))]
fn write_columns(
    page: &mut Page,
    opposite: &Opposite,
    later: &Observation,
) -> Result<(), AllocError>
    ensures { OnOk result (page.new ≡ page.old ++ opposite_columns opposite.now later.now) }
{
    write_numbers(page, opposite)?;
    write_ends(page, later)?;
    page.right_metres(20, opposite.sum)?;
    page.end_line()
}

/// Writes the numbers of the two observations.
#[tactic(auto, unfolding(crate::specs::Reports::number_columns))]
fn write_numbers(page: &mut Page, opposite: &Opposite) -> Result<(), AllocError>
    ensures { OnOk result (page.new ≡ page.old ++ number_columns opposite.now) }
{
    page.right_number(5, u64::from(opposite.number))?;
    page.gap()?;
    page.right_number(5, u64::from(opposite.earlier))?;
    page.gap()
}
