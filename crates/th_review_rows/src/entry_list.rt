//! The rows of the entries.
ghost use Rattle.std.specs.Prelude.{◌≡◌, IfOk, length};
ghost use Rattle.th_review_rows.specs.Entries.{entries_of};
ghost use Rattle.th_review_rows.specs.Rows.{entry_rows, entry_weight};

use crate::entries::{entries_of, sights_of};
use crate::rows::EntryRow;
use std::alloc::{AllocError, Global};
use th_entries::{BookReview, Entry};
use th_network::Network;
use th_reliability::{Effect, Runs};

/// The rows of the entries of all books, with what a mistake in each would do, listed in the order of the entries.
///
/// If the observations are in the order of books and lines, as in a survey, it takes one pass over
/// them, and one over the sights of each entry.
pub(crate) fn entry_rows(
    alloc: Global,
    network: &Network,
    reviews: &[BookReview],
    effects: &[Effect],
) -> Result<Vec<EntryRow>, AllocError>
    requires { length effects.now ≡ length (entries_of reviews.now) }
    ensures { IfOk result (λ rows. rows.items
        ≡ entry_rows network.now (entries_of reviews.now) effects.now) }
{
    let entries = entries_of(alloc, reviews)?;
    rows_of(alloc, network, &entries, effects)
}

/// The rows of entries.
fn rows_of(
    alloc: Global,
    network: &Network,
    entries: &[Entry],
    effects: &[Effect],
) -> Result<Vec<EntryRow>, AllocError>
    requires { length effects.now ≡ length entries.now }
    ensures { IfOk result (λ rows. rows.items ≡ entry_rows network.now entries.now effects.now) }
{
    let runs = Runs::of(network.observations());
    let mut rows = Vec::with_capacity(alloc, entries.len())?;
    for (k, entry) in entries.iter().enumerate() {
        rows.push(EntryRow {
            entry: *entry,
            weight: entry_weight(network, &runs, entry),
            mistake: effects[k].mistake,
            blame: effects[k].blame,
        })?;
    }
    Ok(rows)
}

/// The sum of the weights of the sights that use an entry. The runs are those of the network's
/// observations.
fn entry_weight(network: &Network, runs: &Runs<'_>, entry: &Entry) -> u32
    requires { runs.now.observations.now ≡ network.now.observations }
    ensures { result ≡ entry_weight network.now entry.now }
{
    runs.weight_of(network, &sights_of(entry))
}
