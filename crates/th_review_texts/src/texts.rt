//! All texts of a review.
ghost use Rattle.std.specs.Prelude.{IfOk};
ghost use Rattle.th_inputs.specs.Inputs.{inputs_of};
ghost use Rattle.th_review_rows.specs.Found.{rows_in};
ghost use Rattle.th_review_texts.specs.Texts.{AreReviewTexts, bytes_of};

use crate::reviews::review_text;
use crate::tables::{benchmarks_csv, entries_csv, observations_csv, points_csv};
use std::alloc::{AllocError, Global};
use th_inputs::NamedInputs;
use th_review_rows::Found;

/// The texts of a review.
#[derive(Drop)]
pub struct ReviewTexts {
    /// The table of points.
    pub points: Vec<u8>,
    /// The table of observations.
    pub observations: Vec<u8>,
    /// The table of entries.
    pub entries: Vec<u8>,
    /// The table of benchmarks.
    pub benchmarks: Vec<u8>,
    /// The review for people.
    pub review: Vec<u8>,
}

/// The texts of a review that found this. The inputs are what the run read.
///
/// The limit of blunders is in units of 10 nm.
pub fn review_texts(
    alloc: Global,
    found: &Found<'_>,
    inputs: NamedInputs<'_>,
    limit: i64,
) -> Result<ReviewTexts, AllocError>
    ensures { IfOk result (λ texts.
        AreReviewTexts (rows_in found.now) (inputs_of inputs.entry) limit (bytes_of texts)) }
{
    Ok(ReviewTexts {
        points: points_csv(alloc, &found.points)?,
        observations: observations_csv(alloc, &found.observations)?,
        entries: entries_csv(alloc, &found.entries)?,
        benchmarks: benchmarks_csv(alloc, &found.benchmarks)?,
        review: review_text(alloc, found, inputs, limit)?,
    })
}
