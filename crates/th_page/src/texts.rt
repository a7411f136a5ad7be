//! The texts of notes, the lines of sentences, and the names of inputs without their folders.
ghost use Rattle.std.specs.Prelude.{◌≡◌, IfOk, map, zip};
ghost use Rattle.th_columns.specs.FileNames.{last_part};
ghost use Rattle.th_inputs.specs.Inputs.{inputs_of};
ghost use Rattle.th_notes.specs.Notes.{note_text};
ghost use Rattle.th_page.specs.Shown.{lines_in, without_folder};

use std::alloc::{AllocError, Global};
use th_columns::last_part;
use th_inputs::NamedInputs;
use th_notes::{Note, note_text};

/// The text of each note.
pub(crate) fn note_texts(alloc: Global, notes: &[Note]) -> Result<Vec<Vec<u8>>, AllocError>
    ensures { IfOk result (λ texts. map (λ text. text.items) texts.items ≡ map note_text notes.now) }
{
    let mut texts = Vec::with_capacity(alloc, notes.len())?;
    for note in notes {
        texts.push(note_text(alloc, note)?)?;
    }
    Ok(texts)
}

/// Texts, lent one by one.
pub(crate) fn lent_texts<'a>(
    alloc: Global,
    texts: &'a [Vec<u8>],
) -> Result<Vec<&'a [u8]>, AllocError>
    ensures { IfOk result (λ lent. map (λ text. text.now) lent.items
        ≡ map (λ text. text.items) texts.now) }
{
    let mut lent = Vec::with_capacity(alloc, texts.len())?;
    for text in texts {
        lent.push(text.as_slice())?;
    }
    Ok(lent)
}

/// The lines of a text of which each ends with LF, without their ends.
pub(crate) fn lent_lines<'a>(alloc: Global, text: &'a [u8]) -> Result<Vec<&'a [u8]>, AllocError>
    ensures { IfOk result (λ lines. map (λ line. line.now) lines.items ≡ lines_in text.now) }
{
    let mut lines = Vec::new(alloc);
    let mut start = 0;
    for (place, byte) in text.iter().enumerate() {
        if *byte == b'\n' {
            lines.push(&text[start..place])?;
            start = place + 1;
        }
    }
    Ok(lines)
}

/// The names of inputs, without their folders.
#[tactic(auto, using(crate::proofs::ShownLemmas::without_folders))]
pub(crate) fn names_shown<'a>(
    alloc: Global,
    inputs: NamedInputs<'a>,
) -> Result<Vec<&'a [u8]>, AllocError>
    ensures { IfOk result (λ names. zip (map (λ name. name.now) names.items) inputs.entry.sums.now
        ≡ map without_folder (inputs_of inputs.entry)) }
{
    last_parts(alloc, inputs.names)
}

/// The last part of each name of a file.
fn last_parts<'a>(alloc: Global, names: &[&'a str]) -> Result<Vec<&'a [u8]>, AllocError>
    ensures { IfOk result (λ lent. map (λ part. part.now) lent.items
        ≡ map last_part (map (λ name. name.now) names.now)) }
{
    let mut lent = Vec::with_capacity(alloc, names.len())?;
    for name in names {
        lent.push(last_part(name.as_bytes()))?;
    }
    Ok(lent)
}
