//! The page of what was found.
ghost use Rattle.std.specs.Prelude.{◌≡◌, IfOk};
ghost use Rattle.th_inputs.specs.Inputs.{inputs_of};
ghost use Rattle.th_page.specs.Pages.{page_text};
ghost use Rattle.th_page.specs.Shown.{explained_by, shown_of};
ghost use Rattle.th_review_rows.specs.Found.{rows_in};

use crate::contents::{Explained, Shown};
use crate::pages::page_text;
use crate::texts::{lent_lines, lent_texts, names_shown, note_texts};
use std::alloc::{AllocError, Global};
use th_inputs::NamedInputs;
use th_review_rows::Found;

/// The page of what a review found, with a title, of the inputs that gave it, and of what would explain the
/// marks.
pub fn page_of(
    alloc: Global,
    title: &[u8],
    found: &Found<'_>,
    inputs: NamedInputs<'_>,
    explained: Explained<'_>,
) -> Result<Vec<u8>, AllocError>
    ensures { IfOk result (λ text. text.items ≡ page_text (shown_of title.now (rows_in found.now)
        (inputs_of inputs.entry) (explained_by explained.entry))) }
{
    let names = names_shown(alloc, inputs)?;
    let says = lent_lines(alloc, explained.sentences)?;
    let texts = note_texts(alloc, &found.notes)?;
    let notes = lent_texts(alloc, &texts)?;
    page_text(
        alloc,
        &Shown {
            title,
            names: &names,
            sums: inputs.sums,
            points: &found.points,
            sights: &found.observations,
            entries: &found.entries,
            benchmarks: &found.benchmarks,
            says: &says,
            notes: &notes,
            explained,
        },
    )
}
