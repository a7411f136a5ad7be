//! What explanations mean for a survey.
ghost use Rattle.std.specs.Prelude.{◌≡◌, ◌&&◌, ◌==◌, IfOk, count_by, length};
ghost use Rattle.th_blunders.specs.Blunders.{is_blunder};
ghost use Rattle.th_answer.specs.Answers.{IsAnswer};

use crate::answers::Answer;
use crate::correcting::all_readjusted;
use crate::judge::Judge;
use crate::judging::groups_of;
use crate::moving::{all_moved, drawn_of};
use crate::remedies::remedies_of;
use crate::telling::others_of;
use std::alloc::{AllocError, Global};
use th_blunders::blunder_count;
use th_entries::BookReview;
use th_explain::Mending;
use th_explain_texts::{Row, firsts_of};
use th_network::Network;
use th_numbers::Kinds;
use th_remarks::{outlier_of, usual_of};
use th_review_rows::entries_of;

/// The rows that explain what does not fit, and what they were found with.
#[derive(Clone, Copy)]
pub struct Explaining<'a> {
    /// The reviews of the survey's books.
    pub reviews: &'a [BookReview],
    /// The rows of explanations.
    pub rows: &'a [Row],
    /// The limit of blunders, in units of 10 nm.
    pub limit: i64,
}

/// What the rows that explain mean for the sights, heights and benchmarks of a survey.
///
/// Each row with number 1 is put right, one after another, and the survey is adjusted again where no heights with
/// that change are kept.
pub fn answer_of(
    alloc: Global,
    mending: &mut Mending<'_>,
    explaining: Explaining<'_>,
) -> Result<Answer, AllocError>
    ensures answer { IfOk result (IsAnswer mending.old.case.now.network.now explaining.entry.reviews.now explaining.entry.rows.now explaining.entry.limit) }
    ensures case { mending.new.case.now ≡ mending.old.case.now }
{
    let Explaining {
        reviews,
        rows,
        limit,
    } = explaining;
    let case = mending.case;
    let network = case.network;
    let fit = case.fit;
    let low = case.best.low();
    let entries = entries_of(alloc, reviews)?;
    let kinds = Kinds::of(alloc, &entries)?;
    let firsts = firsts_of(alloc, rows)?;
    let remedies = remedies_of(alloc, &entries, &firsts)?;
    let corrected = all_readjusted(alloc, mending, &kinds, &firsts, limit)?;
    let is_quiet = is_nothing_wrong(network, &fit.residuals, limit, firsts.len());
    let usual = usual_of(alloc, network, &fit.residuals)?;
    let judge = Judge {
        network,
        residuals: &fit.residuals,
        limit,
        remedies: &remedies,
        corrected: &corrected,
        is_quiet,
        usual,
    };
    Ok(Answer {
        groups: groups_of(alloc, &judge)?,
        moved: all_moved(alloc, network, low, &corrected, limit)?,
        drawn: drawn_of(alloc, low, firsts.len(), &corrected)?,
        others: others_of(alloc, &mut mending.sieve)?,
        outlier: outlier_of(alloc, network, &fit.residuals, limit)?,
    })
}

/// Whether there is no first row, and no marked sight.
fn is_nothing_wrong(network: &Network, residuals: &[i64], limit: i64, firsts: usize) -> bool
    requires { length residuals.now ≡ length network.now.observations }
    ensures { result ≡ (firsts == 0 && count_by (is_blunder limit) residuals.now == 0) }
{
    firsts == 0 && blunder_count(network.observations(), residuals, limit) == 0
}
