//! All notes of a review.
ghost use Rattle.std.specs.Prelude.{◌≡◌, ◌≤◌, IfOk, length};
ghost use Rattle.th_network.specs.Heights.{heights_at};
ghost use Rattle.th_network.specs.Networks.{AreAtPoints, points_of};
ghost use Rattle.th_notes.specs.Findings.{notes_of};
ghost use Rattle.th_notes.specs.Limits.{max_reviewed};

use crate::books::{add_line_notes, add_sight_notes, add_spelling_notes};
use crate::names::add_formula_notes;
use crate::notes::{LineKind, Note};
use crate::parts::add_hanging_notes;
use crate::points::add_once_notes;
use crate::repeats::add_same_notes;
use crate::tables::{add_benchmark_notes, add_weight_notes};
use crate::twins::add_twin_notes;
use std::alloc::{AllocError, Global};
use th_entries::{BookReview, Listed, Spelling};
use th_network::Network;

/// The notes of a review, given the lowest best height of each point, in the order of `Note`: those of the books, which the reviews list in
/// their order, those of the network's tables, and those of names. Of each kind the first
/// `th_entries::MAX_LISTED` are listed, and a last one counts the rest.
pub fn notes_of(
    alloc: Global,
    network: &Network,
    low: &[i64],
    reviews: &[BookReview],
    spellings: &Listed<Spelling>,
) -> Result<Vec<Note>, AllocError>
    requires low { AreAtPoints network.now low.now }
    requires books { length reviews.now ≤ max_reviewed }
    ensures { IfOk result (λ notes. notes.items ≡ notes_of network.now
        (heights_at (points_of network.now) low.now) reviews.now spellings.now) }
{
    let observations = network.observations();
    let mut notes = Vec::new(alloc);
    add_sight_notes(&mut notes, reviews)?;
    add_same_notes(alloc, &mut notes, observations, reviews)?;
    add_line_notes(alloc, &mut notes, LineKind::Lookalike, reviews)?;
    add_line_notes(alloc, &mut notes, LineKind::OtherHeight, reviews)?;
    add_line_notes(alloc, &mut notes, LineKind::Direction, reviews)?;
    add_weight_notes(alloc, &mut notes, observations, network.weight_table())?;
    add_benchmark_notes(alloc, &mut notes, observations, network.benchmarks())?;
    add_hanging_notes(alloc, &mut notes, network)?;
    add_once_notes(alloc, &mut notes, observations, network.benchmarks())?;
    add_twin_notes(alloc, &mut notes, network, low)?;
    add_spelling_notes(&mut notes, spellings)?;
    add_formula_notes(alloc, &mut notes, network.points())?;
    Ok(notes)
}
