//! The lines of a text that is given whole, which borrow from it.
ghost use Rattle.std.specs.Prelude.{◌≡◌, ◌<◌, length, IfSome};
ghost use Rattle.gsi_block.specs.Lines.{lines_of, due, GivesNext};

use crate::ends::{end_len, line_len};
use std::marker::Model;

/// The lines of a text, one by one, without their ends.
///
/// A line ends with CR LF, CR or LF. Bytes after the last end are a line.
#[derive(Drop)]
pub struct LineCursor<'a> {
    rest: &'a [u8],
}

impl<'a> Model for LineCursor<'a> {
    ghost use Rattle.std.specs.Prelude.{List, ℕ};

    ghost Value = { List ℕ };

    ghost view = { λ cursor. cursor.rest.now };
}

impl<'a> LineCursor<'a> {
    /// A cursor before the first line of a text.
    pub fn new(text: &'a [u8]) -> LineCursor<'a>
        ensures bytes { result ≡ text.now }
        ensures owes { due result ≡ lines_of text.now }
    {
        LineCursor { rest: text }
    }

    /// The next line, whole however long it is, or `None` after the last.
    pub fn next(&mut self) -> Option<&'a [u8]>
        ensures gives { GivesNext result (due self.old) (due self.new) }
        ensures fewer { IfSome result (λ _. length self.new < length self.old) }
    {
        let text = self.rest;
        if text.is_empty() {
            return None;
        }
        let (line, after) = text.split_at(line_len(text));
        self.rest = &after[end_len(after)..];
        Some(line)
    }
}
