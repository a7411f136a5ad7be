//! Remarks on a survey that was not refused, put on a line part by part.
ghost use Rattle.std.specs.Prelude.{◌≡◌, ◌*◌, flat_map, length};
ghost use Rattle.th_messages.specs.Lines.{HasRoom, IsPut};
ghost use Rattle.th_messages.specs.Remarks.{alike_note, heights_line, marked_begin, marked_end, marks_line, marks_note, outlier_begin, outlier_end, outlier_line, outlier_note, place_end, place_text, point_text, remarks_lines, repeat_begin, repeat_end, repeat_note};

use crate::lines::Line;
use crate::notes::put_many_heights;
use th_devices::{Failed, Sink};
use th_remarks::{Alike, ManyHeights, Marks, Outlier, PointAt, Remarks, Repeat};

/// Puts the lines of remarks: on books, on heights, on residuals, and on names.
#[tactic(auto, using(crate::proofs::LineLemmas::appended))]
pub fn put_remarks<K: Sink>(line: &mut Line<K>, remarks: &Remarks) -> Result<(), Failed>
    requires { HasRoom 100000 line.old }
    ensures { IsPut 100000 (remarks_lines remarks.now) line.old line.new result }
{
    put_repeats(line, remarks.repeats.as_slice())?;
    put_heights(line, &remarks.heights)?;
    put_marks(line, &remarks.marks)?;
    put_outlier(line, &remarks.outlier)?;
    put_alikes(line, remarks.alike.as_slice())
}

/// Puts the lines of books of which many sights are in an earlier one.
#[tactic(auto, using(crate::proofs::LineLemmas::appended))]
fn put_repeats<K: Sink>(line: &mut Line<K>, notes: &[Repeat]) -> Result<(), Failed>
    requires { HasRoom (10 * length notes.now) line.old }
    ensures { IsPut (10 * length notes.now) (flat_map repeat_note notes.now) line.old line.new result }
{
    let Some((note, later)) = notes.split_first() else {
        return Ok(());
    };
    put_repeat(line, note)?;
    put_repeats(line, later)
}

/// Puts the line of a book of which many sights are in an earlier one.
#[tactic(auto, using(crate::proofs::LineLemmas::appended))]
fn put_repeat<K: Sink>(line: &mut Line<K>, note: &Repeat) -> Result<(), Failed>
    requires { HasRoom 9 line.old }
    ensures { IsPut 9 (repeat_note note.now) line.old line.new result }
{
    put_repeat_begin(line, note)?;
    put_repeat_end(line, note)
}

/// Puts which book it is, and how many of its sights are meant.
#[tactic(auto, using(crate::proofs::LineLemmas::appended))]
fn put_repeat_begin<K: Sink>(line: &mut Line<K>, note: &Repeat) -> Result<(), Failed>
    requires { HasRoom 4 line.old }
    ensures { IsPut 4 (repeat_begin note.now) line.old line.new result }
{
    line.put("note: book ")?;
    line.put_number(note.book)?;
    line.put(": ")?;
    line.put_number(note.count)
}

/// Puts of how many sights, and in which book.
#[tactic(auto, using(crate::proofs::LineLemmas::appended))]
fn put_repeat_end<K: Sink>(line: &mut Line<K>, note: &Repeat) -> Result<(), Failed>
    requires { HasRoom 5 line.old }
    ensures { IsPut 5 (repeat_end note.now) line.old line.new result }
{
    line.put(" of ")?;
    line.put_number(note.sights)?;
    line.put(" sights are in book ")?;
    line.put_number(note.earlier)?;
    line.put(" too\n")
}

/// Puts the line of heights that are not unique, if they are noted.
fn put_heights<K: Sink>(line: &mut Line<K>, note: &Option<ManyHeights>) -> Result<(), Failed>
    requires { HasRoom 8 line.old }
    ensures { IsPut 8 (heights_line note.now) line.old line.new result }
{
    match note {
        Some(note) => put_many_heights(line, note),
        None => Ok(()),
    }
}

/// Puts the line of marked sights, if there are any.
fn put_marks<K: Sink>(line: &mut Line<K>, note: &Option<Marks>) -> Result<(), Failed>
    requires { HasRoom 7 line.old }
    ensures { IsPut 7 (marks_line note.now) line.old line.new result }
{
    match note {
        Some(note) => put_marked(line, note),
        None => Ok(()),
    }
}

/// Puts the line of marked sights.
#[tactic(auto, using(crate::proofs::LineLemmas::appended))]
fn put_marked<K: Sink>(line: &mut Line<K>, note: &Marks) -> Result<(), Failed>
    requires { HasRoom 7 line.old }
    ensures { IsPut 7 (marks_note note.now) line.old line.new result }
{
    put_marked_begin(line, note.count, note.sights)?;
    line.put_metres(note.largest as i64)?;
    line.put(" m: explain names the number that may be wrong\n")
}

/// Puts how many of how many sights are marked.
#[tactic(auto, using(crate::proofs::LineLemmas::appended))]
fn put_marked_begin<K: Sink>(line: &mut Line<K>, count: u32, sights: u32) -> Result<(), Failed>
    requires { HasRoom 5 line.old }
    ensures { IsPut 5 (marked_begin count sights) line.old line.new result }
{
    line.put("note: ")?;
    line.put_number(count)?;
    line.put(" of ")?;
    line.put_number(sights)?;
    line.put(marked_end(count, sights))
}

/// The text after how many of how many sights are marked.
fn marked_end(count: u32, sights: u32) -> &'static str
    ensures { result.now ≡ marked_end count sights }
{
    if sights == 1 {
        " sight is marked, up to "
    } else if count == 1 {
        " sights is marked, up to "
    } else {
        " sights are marked, up to "
    }
}

/// Puts the line of a sight that is far beyond the others and not marked, if there is one.
fn put_outlier<K: Sink>(line: &mut Line<K>, note: &Option<Outlier>) -> Result<(), Failed>
    requires { HasRoom 12 line.old }
    ensures { IsPut 12 (outlier_line note.now) line.old line.new result }
{
    match note {
        Some(note) => put_outlying(line, note),
        None => Ok(()),
    }
}

/// Puts the line of a sight that is far beyond the others, and not marked.
#[tactic(auto, using(crate::proofs::LineLemmas::appended))]
fn put_outlying<K: Sink>(line: &mut Line<K>, note: &Outlier) -> Result<(), Failed>
    requires { HasRoom 12 line.old }
    ensures { IsPut 12 (outlier_note note.now) line.old line.new result }
{
    put_outlier_begin(line, note)?;
    put_outlier_end(line, note)
}

/// Puts how large the residual is, and of which sight.
#[tactic(auto, using(crate::proofs::LineLemmas::appended))]
fn put_outlier_begin<K: Sink>(line: &mut Line<K>, note: &Outlier) -> Result<(), Failed>
    requires { HasRoom 7 line.old }
    ensures { IsPut 7 (outlier_begin note.now) line.old line.new result }
{
    line.put("note: a residual of ")?;
    line.put_metres(note.size as i64)?;
    line.put(" m (")?;
    put_place(line, note.book, note.line)
}

/// Puts how many times the usual one that is, and which limit marks it.
#[tactic(auto, using(crate::proofs::LineLemmas::appended))]
fn put_outlier_end<K: Sink>(line: &mut Line<K>, note: &Outlier) -> Result<(), Failed>
    requires { HasRoom 5 line.old }
    ensures { IsPut 5 (outlier_end note.now) line.old line.new result }
{
    line.put(") is within the limit, and ")?;
    line.put_number(note.times)?;
    line.put(" times the usual one: --blunder ")?;
    line.put_number(note.limit)?;
    line.put(" marks it\n")
}

/// Puts a line of a book.
#[tactic(auto, using(crate::proofs::LineLemmas::appended))]
fn put_place<K: Sink>(line: &mut Line<K>, book: u32, number: u32) -> Result<(), Failed>
    requires { HasRoom 4 line.old }
    ensures { IsPut 4 (place_text book number) line.old line.new result }
{
    line.put("book ")?;
    line.put_number(book)?;
    line.put(" line ")?;
    line.put_number(number)
}

/// Puts the lines of names that differ only in upper and lower case.
#[tactic(auto, using(crate::proofs::LineLemmas::appended))]
fn put_alikes<K: Sink>(line: &mut Line<K>, notes: &[Alike]) -> Result<(), Failed>
    requires { HasRoom (20 * length notes.now) line.old }
    ensures { IsPut (20 * length notes.now) (flat_map alike_note notes.now) line.old line.new result }
{
    let Some((note, later)) = notes.split_first() else {
        return Ok(());
    };
    put_alike(line, note)?;
    put_alikes(line, later)
}

/// Puts the line of two names that differ only in upper and lower case.
#[tactic(auto, using(crate::proofs::LineLemmas::appended))]
fn put_alike<K: Sink>(line: &mut Line<K>, note: &Alike) -> Result<(), Failed>
    requires { HasRoom 17 line.old }
    ensures { IsPut 17 (alike_note note.now) line.old line.new result }
{
    line.put("note: ")?;
    put_point(line, &note.first)?;
    line.put(" and ")?;
    put_point(line, &note.second)?;
    line.put(" differ only in upper and lower case\n")
}

/// Puts a point, with its first line in the books if it has one.
#[tactic(auto, using(crate::proofs::LineLemmas::appended))]
fn put_point<K: Sink>(line: &mut Line<K>, point: &PointAt) -> Result<(), Failed>
    requires { HasRoom 7 line.old }
    ensures { IsPut 7 (point_text point.now) line.old line.new result }
{
    line.put_name(&point.name)?;
    put_place_end(line, point.place)
}

/// Puts the line of a point in brackets, if it has one.
#[tactic(auto, using(crate::proofs::LineLemmas::appended))]
fn put_place_end<K: Sink>(line: &mut Line<K>, place: Option<(u32, u32)>) -> Result<(), Failed>
    requires { HasRoom 6 line.old }
    ensures { IsPut 6 (place_end place) line.old line.new result }
{
    let Some((book, number)) = place else {
        return Ok(());
    };
    line.put(" (")?;
    put_place(line, book, number)?;
    line.put(")")
}
