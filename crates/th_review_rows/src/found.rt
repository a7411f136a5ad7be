//! What a review found of a network, in rows.
ghost use Rattle.std.specs.Prelude.{◌≡◌, ◌≤◌, IfOk, length};
ghost use Rattle.th_circulation.specs.Best.{IsBest};
ghost use Rattle.th_network.specs.Networks.{at_points_of};
ghost use Rattle.th_notes.specs.Limits.{max_reviewed};
ghost use Rattle.th_review_rows.specs.Found.{found_rows, numbers_in, rows_in};

use crate::benchmark_list::benchmark_rows;
use crate::entry_list::entry_rows;
use crate::findings::Findings;
use crate::observation_list::observation_rows;
use crate::point_list::point_rows;
use crate::rows::{BenchmarkRow, EntryRow, ObservationRow, PointRow};
use std::alloc::{AllocError, Global};
use th_circulation::BestHeights;
use th_entries::{BookReview, Listed, Spelling};
use th_network::Network;
use th_notes::{Note, notes_of};

/// What a review found of a network and of its books: a row for each point, observation, entry and
/// benchmark, and the notes.
#[derive(Drop)]
pub struct Found<'a> {
    pub network: &'a Network<'a>,
    /// The reviews of its books, in their order.
    pub reviews: &'a [BookReview],
    /// The points, in point order.
    pub points: Vec<PointRow>,
    /// The observations, in their order.
    pub observations: Vec<ObservationRow>,
    /// The entries of all books, in the order of books.
    pub entries: Vec<EntryRow>,
    /// The benchmarks, in the order of their table.
    pub benchmarks: Vec<BenchmarkRow>,
    /// The notes, in the order of `Note`.
    pub notes: Vec<Note>,
}

/// What a review found, given the best heights of its network, the numbers that it found, and the names
/// that are spelled in more than one way.
pub fn found_of<'a>(
    alloc: Global,
    findings: &Findings<'a>,
    best: &BestHeights,
    spellings: &Listed<Spelling>,
) -> Result<Found<'a>, AllocError>
    requires best { IsBest findings.now.network.now best.now }
    requires books { length findings.now.reviews.now ≤ max_reviewed }
    ensures { IfOk result (λ found. rows_in found ≡ found_rows findings.now.network.now
        (at_points_of findings.now.network.now best.now.low)
        (at_points_of findings.now.network.now best.now.high)
        (numbers_in findings.now) findings.now.reviews.now spellings.now) }
{
    let network = findings.network;
    let reviews = findings.reviews;
    let low = best.low();
    Ok(Found {
        network,
        reviews,
        points: point_rows(
            alloc,
            network,
            low,
            best.high(),
            &findings.strengths,
            &findings.unit_strengths,
        )?,
        observations: observation_rows(alloc, network, low, &findings.controls, &findings.blames)?,
        entries: entry_rows(alloc, network, reviews, &findings.effects)?,
        benchmarks: benchmark_rows(alloc, network, &findings.benchmarks)?,
        notes: notes_of(alloc, network, low, reviews, spellings)?,
    })
}
