//! The command that reviews the height network of books: what a mistake in it would do.
ghost use Rattle.std.specs.Prelude.{◌≡◌, ◌≤◌, All, IfErr, IfOk, length};
ghost use Rattle.th_entries.specs.Stations.{HasOneStation};
ghost use Rattle.th_inputs.specs.Inputs.{inputs_of};
ghost use Rattle.th_limits.specs.Limits.{max_books};
ghost use Rattle.th_review_rows.specs.Entries.{entries_of};
ghost use Rattle.th_review_texts.specs.Texts.{bytes_of};
ghost use Rattle.th_run_parts.specs.Inputs.{MakesNetwork};
ghost use Rattle.th_runs.specs.Reviewed.{ArePrintedOf, in_order};
ghost use Rattle.th_tables.specs.Rows.{AreWeights};

use crate::commands::SurveyCommand;
use crate::findings::findings_of;
use crate::reviews::{ReviewReader, all_sums};
use std::alloc::{AllocError, Global};
use th_circulation::best_heights;
use th_entries::laws::entry_of_several_books_has_one_station;
use th_entries::{BookReview, Listed, Spelling};
use th_inputs::{NamedInputs, Sum};
use th_network::Network;
use th_progress::Progress;
use th_review_rows::found_of;
use th_review_texts::{ReviewTexts, review_texts};
use th_run_parts::{Output, OutputText, Refusal};

/// What a review writes, in this order.
pub const REVIEWED: [Output; 5] = [
    Output::Points,
    Output::Observations,
    Output::Entries,
    Output::Benchmarks,
    Output::Review,
];

/// A review of a height network: what a mistake in it would do. It writes the tables of points,
/// observations, entries and benchmarks, and a review for people. Heights and residuals are those of an
/// adjustment. The review has the length and the SHA-256 of each input.
#[derive(Debug, Drop)]
pub struct Review<'a> {
    /// Residuals above this size are marked as blunders, in units of 10 nm.
    pub limit: i64,
    /// The names of the books, of the benchmarks, and of the weights if there are any.
    pub names: &'a [&'a str],
}

impl SurveyCommand for Review<'_> {
    ghost use Rattle.std.proofs.Common.{ap, refl};
    ghost use Rattle.std.specs.Prelude.{⊤, map};
    ghost use Rattle.th_runs.specs.Reviewed.{AreOfReview, IsNewReader, reviewing};

    type Reader = ReviewReader;

    ghost run = { reviewing };

    ghost is_new = { IsNewReader };

    ghost are_of = { λ own tolds. AreOfReview (map (λ name. name.now) own.names.now) tolds own.limit };

    ghost has_noted = { λ own tolds survey reader. ⊤ };

    fn outputs(&self) -> &'static [Output] {
        &REVIEWED
    }

    fn texts<P: Progress>(
        &self,
        alloc: Global,
        network: &Network,
        reader: &mut ReviewReader,
        of_tables: &[Sum],
        progress: &mut P,
    ) -> Result<Vec<OutputText>, Refusal> {
        entry_of_several_books_has_one_station();
        let sums = all_sums(alloc, reader.sums.as_slice(), of_tables)?;
        let inputs = NamedInputs {
            names: self.names,
            sums: &sums,
        };
        let reviews = reader.reviews.as_slice();
        let spellings = reader.names.found();
        texts_of_network(
            alloc, network, reviews, spellings, inputs, self.limit, progress,
        )
    }

    ghost in_order = { λ own tolds survey texts are. ap (λ all. map (λ text. text.0) all) are.4.2 };

    ghost no_certificate = { refl };
}

/// The texts of a network.
fn texts_of_network<P: Progress>(
    alloc: Global,
    network: &Network,
    reviews: &[BookReview],
    spellings: &Listed<Spelling>,
    inputs: NamedInputs<'_>,
    limit: i64,
    progress: &mut P,
) -> Result<Vec<OutputText>, Refusal>
    requires network { MakesNetwork network.now }
    requires weights { AreWeights network.now.weights }
    requires few { length reviews.now ≤ max_books }
    requires stations { All (HasOneStation network.now.observations) (entries_of reviews.now) }
    ensures texts { IfOk result (λ texts. ArePrintedOf reviews.now spellings.now
        (inputs_of inputs.entry) limit network.now texts.items) }
    ensures refused { IfErr result (λ own. own ≡ Refusal.NoMemory) }
{
    let best = best_heights(alloc, network)?;
    let findings = findings_of(alloc, network, reviews, progress)?;
    let found = found_of(alloc, &findings, &best, spellings)?;
    let texts = review_texts(alloc, &found, inputs, limit)?;
    Ok(in_order(alloc, texts)?)
}

/// The texts of a review in the order in which they are written.
fn in_order(alloc: Global, texts: ReviewTexts) -> Result<Vec<OutputText>, AllocError>
    ensures { IfOk result (λ own. own.items ≡ in_order (bytes_of texts)) }
{
    let ReviewTexts {
        points,
        observations,
        entries,
        benchmarks,
        review,
    } = texts;
    let texts = [
        OutputText::new(Output::Points, points),
        OutputText::new(Output::Observations, observations),
        OutputText::new(Output::Entries, entries),
        OutputText::new(Output::Benchmarks, benchmarks),
        OutputText::new(Output::Review, review),
    ];
    Ok(Vec::from_array(alloc, texts)?)
}
