//! The command that explains what does not fit in the height network of books.
ghost use Rattle.std.specs.Prelude.{◌≡◌, ◌≤◌, ◌∷◌, [], IfErr, IfOk, length};
ghost use Rattle.th_limits.specs.Limits.{max_books};
ghost use Rattle.th_runs.specs.Explained.{ArePrintedOf, text_in};

use crate::commands::SurveyCommand;
use crate::reviews::ReviewReader;
use std::alloc::{AllocError, Global};
use th_entries::BookReview;
use th_explain_rows::{Explanations, explanations_of};
use th_explain_texts::{explanations_csv, explanations_text};
use th_inputs::Sum;
use th_network::Network;
use th_progress::Progress;
use th_run_parts::{Output, OutputText, Refusal};

/// What an explanation writes.
pub const EXPLAINED: [Output; 1] = [Output::Explanations];

/// How explanations are printed.
#[derive(Clone, Copy, Debug, PartialEq, Eq)]
pub enum Form {
    /// As a text for people.
    Text,
    /// As comma-separated values.
    Table,
}

/// An explanation of what does not fit in a height network: which one number, if it were wrong, would leave
/// how much. It writes one text.
#[derive(Debug, Drop)]
pub struct Explain {
    /// Residuals above this size are blunders, in units of 10 nm.
    pub limit: i64,
    /// How the explanations are printed.
    pub form: Form,
}

impl SurveyCommand for Explain {
    ghost use Rattle.std.proofs.Common.{ap, refl};
    ghost use Rattle.std.specs.Prelude.{⊤, map};
    ghost use Rattle.th_runs.specs.Explained.{AreOfExplanation, explaining};
    ghost use Rattle.th_runs.specs.Reviewed.{IsNewReader};

    type Reader = ReviewReader;

    ghost run = { explaining };

    ghost is_new = { IsNewReader };

    ghost are_of = { λ own tolds. AreOfExplanation tolds.books own.limit own.form };

    ghost has_noted = { λ own tolds survey reader. ⊤ };

    fn outputs(&self) -> &'static [Output] {
        &EXPLAINED
    }

    fn texts<P: Progress>(
        &self,
        alloc: Global,
        network: &Network,
        reader: &mut ReviewReader,
        _of_tables: &[Sum],
        progress: &mut P,
    ) -> Result<Vec<OutputText>, Refusal> {
        let reviews = reader.reviews.as_slice();
        texts_of_network(alloc, network, reviews, self.limit, self.form, progress)
    }

    ghost in_order = { λ own tolds survey texts are. ap (λ all. map (λ text. text.0) all) are.2.2 };

    ghost no_certificate = { refl };
}

/// The text of a network.
fn texts_of_network<P: Progress>(
    alloc: Global,
    network: &Network,
    reviews: &[BookReview],
    limit: i64,
    form: Form,
    progress: &mut P,
) -> Result<Vec<OutputText>, Refusal>
    requires { length reviews.now ≤ max_books }
    ensures texts { IfOk result (λ texts.
        ArePrintedOf reviews.now limit form network.now texts.items) }
    ensures refused { IfErr result (λ own. own ≡ Refusal.NoMemory) }
{
    let found = explanations_of(alloc, network, reviews, limit, progress);
    // The texts may go to the terminal that shows the progress.
    progress.clear();
    let own = found?;
    Ok(printed(alloc, &own, form)?)
}

/// The one output of an explanation.
fn printed(alloc: Global, own: &Explanations, form: Form) -> Result<Vec<OutputText>, AllocError>
    ensures { IfOk result (λ texts.
        texts.items ≡ (Output.Explanations, text_in form own.now) ∷ []) }
{
    let text = text_in(alloc, own, form)?;
    Ok(Vec::from_array(alloc, [OutputText::new(Output::Explanations, text)])?)
}

/// The text of explanations in a form.
fn text_in(alloc: Global, own: &Explanations, form: Form) -> Result<Vec<u8>, AllocError>
    ensures { IfOk result (λ text. text.items ≡ text_in form own.now) }
{
    match form {
        Form::Text => explanations_text(alloc, &own.summary, &own.rows, &own.named, &own.readings),
        Form::Table => explanations_csv(alloc, &own.rows, &own.named, &own.readings),
    }
}
