//! The mended book of a book in memory.
ghost use Rattle.std.specs.Prelude.{◌≡◌, ◌≢◌, ◌≤◌, Err, IfErr, IfOk, Ok, length};
ghost use Rattle.th_book.specs.Limits.{max_book};
ghost use Rattle.th_mend.specs.Limits.{max_changes};
ghost use Rattle.th_mend.specs.Inside.Stops.{IsStopOf};
ghost use Rattle.th_mend.specs.Inside.Texts.{IsRead};
ghost use Rattle.th_mend.specs.MendedBooks.{checked, mended, mended_text};
ghost use Rattle.th_mend.specs.declared.faults.MendFault.TheVariants.{NoMemory};

use crate::changes::Change;
use crate::edits::Edit;
use crate::ends::split_line;
use crate::faults::MendFault;
use crate::lines::mend_line;
use crate::sought::Locating;
use crate::stops::Stop;
use std::alloc::Global;
use th_book::{BookFault, BookFeed, BookKind, MAX_BOOK, read_book};

/// The mended book of a book, or why there is none: a fault of the book, then that of the first record
/// that has one, then that of the first line where a change has no place, then a fault of the mended
/// book.
///
/// Changes are those of `crate::read_changes`. `NoMemory` may occur for any book that is not
/// too long.
pub fn mended(alloc: Global, changes: &[Change], bytes: &[u8]) -> Result<Vec<u8>, MendFault>
    requires { length changes.now ≤ max_changes }
    ensures book { IfOk result (λ text. mended changes.now bytes.now ≡ Ok text.items) }
    ensures fault { IfErr result (λ fault. fault ≢ NoMemory → mended changes.now bytes.now ≡ Err fault) }
{
    if bytes.len() > MAX_BOOK {
        return Err(MendFault::Book(BookFault {
            line: 0,
            kind: BookKind::BookTooLong,
        }));
    }
    let edits = locate_edits(alloc, changes, bytes)?;
    match mended_text(alloc, edits.as_slice(), bytes) {
        Ok(text) => checked(alloc, text),
        Err(stop) => Err(MendFault::of_stop(stop)),
    }
}

/// A mended text, unless it is a book with a fault.
fn checked(alloc: Global, text: Vec<u8>) -> Result<Vec<u8>, MendFault>
    ensures text { IfOk result (λ own. checked (Ok text.items) ≡ Ok own.items) }
    ensures fault { IfErr result (λ fault. fault ≢ NoMemory → checked (Ok text.items) ≡ Err fault) }
{
    match read_book(alloc, 1, text.as_slice()) {
        Ok(_) => Ok(text),
        Err(fault) => Err(MendFault::of_mended(fault)),
    }
}

/// The edits of the changes of a book, or its fault, or that of the first record that has one.
fn locate_edits(alloc: Global, changes: &[Change], bytes: &[u8]) -> Result<Vec<Edit>, MendFault>
    requires { length changes.now ≤ max_changes }
    ensures edits { IfOk result (λ edits. mended changes.now bytes.now ≡ checked (mended_text edits.items bytes.now)) }
    ensures fault { IfErr result (λ fault. fault ≢ NoMemory → mended changes.now bytes.now ≡ Err fault) }
{
    let locating = locate(alloc, changes, bytes)?;
    match locating.edits(alloc) {
        Ok(edits) => Ok(edits),
        Err(stop) => Err(MendFault::of_stop(stop)),
    }
}

/// What is known of the changes behind the last line of a book, or its fault.
fn locate(alloc: Global, changes: &[Change], bytes: &[u8]) -> Result<Locating, MendFault>
    requires { length changes.now ≤ max_changes }
    ensures read { IfOk result (IsRead changes.now bytes.now) }
    ensures fault { IfErr result (λ fault. fault ≢ NoMemory → mended changes.now bytes.now ≡ Err fault) }
{
    let mut locating = Locating::new(alloc, changes)?;
    let mut feed = BookFeed::new(alloc, 1);
    feed.feed_to(bytes, &mut locating)?;
    match feed.finish_to(&mut locating) {
        Ok(_) => Ok(locating),
        Err(fault) => Err(MendFault::of_book(fault)),
    }
}

/// The mended text of a book, or the fault of the first line that cannot be mended.
fn mended_text(alloc: Global, edits: &[Edit], bytes: &[u8]) -> Result<Vec<u8>, Stop>
    requires { length bytes.now ≤ max_book }
    ensures text { IfOk result (λ text. mended_text edits.now bytes.now ≡ Ok text.items) }
    ensures fault { IfErr result (IsStopOf (mended_text edits.now bytes.now)) }
{
    let mut text = Vec::new(alloc);
    let mut mended = Vec::new(alloc);
    let mut place = 0;
    let mut rest = bytes;
    'lines: while !rest.is_empty() {
        let (line, end, behind) = split_line(rest);
        mend_line(edits, place, line, &mut mended)?;
        text.extend_from_slice(mended.as_slice())?;
        text.extend_from_slice(end)?;
        place += 1;
        rest = behind;
    }
    Ok(text)
}
