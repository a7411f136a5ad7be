//! The command that makes a page of the height network of books.
ghost use Rattle.std.specs.Prelude.{◌≡◌, ◌≤◌, ◌∷◌, [], All, IfErr, IfOk, length};
ghost use Rattle.th_answer.specs.Answers.{IsAnswer};
ghost use Rattle.th_circulation.specs.Best.{IsBest};
ghost use Rattle.th_entries.specs.Stations.{HasOneStation};
ghost use Rattle.th_explain_rows.specs.Explanations.{AreExplained};
ghost use Rattle.th_inputs.specs.Inputs.{inputs_of};
ghost use Rattle.th_limits.specs.Limits.{max_books};
ghost use Rattle.th_review_rows.specs.Entries.{entries_of};
ghost use Rattle.th_run_parts.specs.Inputs.{MakesNetwork};
ghost use Rattle.th_runs.specs.Paged.{IsPaged, said};
ghost use Rattle.th_tables.specs.Rows.{AreWeights};

use crate::commands::SurveyCommand;
use crate::findings::findings_of;
use crate::reviews::{ReviewReader, all_sums};
use std::alloc::{AllocError, Global};
use th_answer::{Answer, Explaining, answer_of};
use th_blunders::Fit;
use th_changes::Case;
use th_circulation::{BestHeights, best_heights};
use th_entries::laws::entry_of_several_books_has_one_station;
use th_entries::{BookReview, Listed, Spelling};
use th_explain::Mending;
use th_explain_rows::{Explanations, explained_by};
use th_explain_texts::sentences_text;
use th_inputs::{NamedInputs, Sum};
use th_network::Network;
use th_page::{Explained, page_of};
use th_progress::Progress;
use th_review_rows::found_of;
use th_run_parts::{Output, OutputText, Refusal};

/// What a run that makes a page writes.
pub const PAGED: [Output; 1] = [Output::Page];

/// A page of a height network. It shows what an adjustment, a review and an explanation find, and the inputs.
#[derive(Debug, Drop)]
pub struct MakePage<'a> {
    /// Residuals above this size are marked as blunders, in units of 10 nm.
    pub limit: i64,
    /// The title of the page.
    pub title: &'a [u8],
    /// The names of the books, of the benchmarks, and of the weights if there are any.
    pub names: &'a [&'a str],
}

impl SurveyCommand for MakePage<'_> {
    ghost use Rattle.std.proofs.Common.{ap, refl};
    ghost use Rattle.std.specs.Prelude.{⊤, map};
    ghost use Rattle.th_runs.specs.Paged.{AreOfPage, paging};
    ghost use Rattle.th_runs.specs.Reviewed.{IsNewReader};

    type Reader = ReviewReader;

    ghost run = { paging };

    ghost is_new = { IsNewReader };

    ghost are_of = { λ own tolds. AreOfPage own.title.now (map (λ name. name.now) own.names.now) tolds own.limit };

    ghost has_noted = { λ own tolds survey reader. ⊤ };

    fn outputs(&self) -> &'static [Output] {
        &PAGED
    }

    fn texts<P: Progress>(
        &self,
        alloc: Global,
        network: &Network,
        reader: &mut ReviewReader,
        of_tables: &[Sum],
        progress: &mut P,
    ) -> Result<Vec<OutputText>, Refusal> {
        entry_of_several_books_has_one_station();
        let sums = all_sums(alloc, reader.sums.as_slice(), of_tables)?;
        let inputs = NamedInputs {
            names: self.names,
            sums: &sums,
        };
        let reviews = reader.reviews.as_slice();
        let spellings = reader.names.found();
        let subject = Subject {
            title: self.title,
            inputs,
            reviews,
            spellings,
            limit: self.limit,
        };
        let page = page_of_network(alloc, network, subject, progress)?;
        Ok(only(alloc, page)?)
    }

    ghost in_order = { λ own tolds survey texts are. ap (λ all. map (λ text. text.0) all) are.4.2 };

    ghost no_certificate = { refl };
}

/// The one output of a page.
fn only(alloc: Global, page: Vec<u8>) -> Result<Vec<OutputText>, AllocError>
    ensures { IfOk result (λ texts. texts.items ≡ (Output.Page, page.items) ∷ []) }
{
    Ok(Vec::from_array(alloc, [OutputText::new(Output::Page, page)])?)
}

/// What a page is about, beside its network.
#[derive(Clone, Copy)]
struct Subject<'a> {
    title: &'a [u8],
    inputs: NamedInputs<'a>,
    /// The reviews of the books.
    reviews: &'a [BookReview],
    /// The names that are spelled in more than one way.
    spellings: &'a Listed<Spelling>,
    /// The limit of blunders, in units of 10 nm.
    limit: i64,
}

/// The page of a network.
fn page_of_network<'a, P: Progress>(
    alloc: Global,
    network: &'a Network,
    subject: Subject<'a>,
    progress: &mut P,
) -> Result<Vec<u8>, Refusal>
    requires network { MakesNetwork network.now }
    requires weights { AreWeights network.now.weights }
    requires few { length subject.reviews.now ≤ max_books }
    requires stations { All (HasOneStation network.now.observations) (entries_of subject.reviews.now) }
    ensures page { IfOk result (λ page. IsPaged network.now subject.entry.title.now
        (inputs_of subject.entry.inputs) subject.entry.reviews.now subject.entry.spellings.now
        subject.entry.limit page.items) }
    ensures refused { IfErr result (λ own. own ≡ Refusal.NoMemory) }
{
    let reviews = subject.reviews;
    let limit = subject.limit;
    let best = best_heights(alloc, network)?;
    let both = explained_of(alloc, network, &best, subject, progress)?;
    let explained = &both.0;
    let answer = &both.1;
    let rows = explained.rows.as_slice();
    let sentences = sentences_of(alloc, explained)?;
    let findings = findings_of(alloc, network, reviews, progress)?;
    let found = found_of(alloc, &findings, &best, subject.spellings)?;
    let explained = Explained {
        cost: explained.summary.cost,
        limit,
        rows,
        sentences: &sentences,
        answer,
    };
    let page = page_of(alloc, subject.title, &found, subject.inputs, explained)?;
    Ok(page)
}

/// What explains what does not fit, and what that means for the survey. What was found of numbers on the way takes more
/// memory than all else, and is given back here.
fn explained_of<P: Progress>(
    alloc: Global,
    network: &Network,
    best: &BestHeights,
    subject: Subject<'_>,
    progress: &mut P,
) -> Result<(Explanations, Answer), AllocError>
    requires few { length subject.reviews.now ≤ max_books }
    requires best { IsBest network.now best.now }
    ensures explained { IfOk result (λ own. AreExplained network.now subject.entry.reviews.now subject.entry.limit own.0) }
    ensures answer { IfOk result (λ own. IsAnswer network.now subject.entry.reviews.now own.0.rows.items subject.entry.limit own.1) }
{
    let reviews = subject.reviews;
    let limit = subject.limit;
    let fit = Fit::of(alloc, network, best.low())?;
    let case = Case::of(network, best, &fit);
    let mending = Mending::of(alloc, &case)?;
    let found = explained_by(alloc, mending, reviews, limit, progress)?;
    let (explained, mut mending) = found;
    let rows = explained.rows.as_slice();
    let explaining = Explaining {
        reviews,
        rows,
        limit,
    };
    let answer = answer_of(alloc, &mut mending, explaining)?;
    Ok((explained, answer))
}

/// What explanations say, in sentences of a line each.
fn sentences_of(alloc: Global, own: &Explanations) -> Result<Vec<u8>, AllocError>
    ensures { IfOk result (λ text. text.items ≡ said own.now) }
{
    sentences_text(alloc, &own.summary, &own.rows, &own.named, &own.readings)
}
