//! Notes of a run that was not refused, put on a line part by part.
ghost use Rattle.std.specs.Prelude.{◌≡◌, ◌≤◌, ◌*◌, length};
ghost use Rattle.th_entries.specs.Sights.{enumerated, no_sight_text, words_seen};
ghost use Rattle.th_messages.specs.Notes.{loose_end, loose_points, many_heights_note, no_sight_note};
ghost use Rattle.th_messages.specs.Lines.{HasRoom, IsPut};

use crate::lines::Line;
use th_devices::{Failed, Sink};
use th_entries::{NoSight, blocks_end, separator, words_lead};
use th_remarks::ManyHeights;

/// Puts the note of a book without a sight.
#[tactic(auto, using(crate::proofs::LineLemmas::appended))]
pub fn put_no_sight<K: Sink>(line: &mut Line<K>, note: &NoSight) -> Result<(), Failed>
    requires { HasRoom 40 line.old }
    ensures { IsPut 40 (no_sight_note note.now) line.old line.new result }
{
    line.put("note: ")?;
    put_text(line, note)?;
    line.put("\n")
}

/// Puts the text of a book without a sight.
#[tactic(auto, using(crate::proofs::LineLemmas::appended))]
fn put_text<K: Sink>(line: &mut Line<K>, note: &NoSight) -> Result<(), Failed>
    requires { HasRoom 38 line.old }
    ensures { IsPut 38 (no_sight_text note.now) line.old line.new result }
{
    line.put("book ")?;
    line.put_number(note.book)?;
    line.put(" has no sight in ")?;
    line.put_number(note.blocks)?;
    line.put(blocks_end(note.blocks))?;
    put_words(line, note.numbers().as_slice())?;
    line.put(")")
}

/// Puts which words a book has in place of sights.
#[tactic(auto, using(crate::proofs::LineLemmas::appended))]
fn put_words<K: Sink>(line: &mut Line<K>, numbers: &[u16]) -> Result<(), Failed>
    requires few { length numbers.now ≤ 14 }
    requires room { HasRoom 30 line.old }
    ensures { IsPut 30 (words_seen numbers.now) line.old line.new result }
{
    line.put(words_lead(numbers))?;
    put_numbers(line, numbers)
}

/// Puts some numbers one after the other.
#[tactic(auto, using(crate::proofs::LineLemmas::appended))]
fn put_numbers<K: Sink>(line: &mut Line<K>, numbers: &[u16]) -> Result<(), Failed>
    requires { HasRoom (2 * length numbers.now) line.old }
    ensures { IsPut (2 * length numbers.now) (enumerated numbers.now) line.old line.new result }
{
    let Some((first, rest)) = numbers.split_first() else {
        return Ok(());
    };
    line.put_number(u32::from(*first))?;
    line.put(separator(rest))?;
    put_numbers(line, rest)
}

/// Puts the note of points with more than one best height.
#[tactic(auto, using(crate::proofs::LineLemmas::appended))]
pub fn put_many_heights<K: Sink>(line: &mut Line<K>, note: &ManyHeights) -> Result<(), Failed>
    requires { HasRoom 8 line.old }
    ensures { IsPut 8 (many_heights_note note.now) line.old line.new result }
{
    put_points(line, note.points)?;
    line.put_metres(note.apart)?;
    line.put(" m apart at ")?;
    line.put_name(&note.name)?;
    line.put("\n")
}

/// Puts how many points have more than one best height.
#[tactic(auto, using(crate::proofs::LineLemmas::appended))]
fn put_points<K: Sink>(line: &mut Line<K>, points: u32) -> Result<(), Failed>
    requires { HasRoom 4 line.old }
    ensures { IsPut 4 (loose_points points) line.old line.new result }
{
    line.put("note: ")?;
    line.put_number(points)?;
    line.put(loose_end(points))
}

/// The text after the count of points with more than one best height.
fn loose_end(points: u32) -> &'static str
    ensures { result.now ≡ loose_end points }
{
    if points == 1 {
        " point has more than one best height, up to "
    } else {
        " points have more than one best height, up to "
    }
}
