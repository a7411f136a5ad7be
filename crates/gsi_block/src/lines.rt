//! The lines of a text that comes in pieces: one at a time is kept, in an array.
ghost use Rattle.std.specs.Prelude.{◌≡◌, ◌<◌, ◌≤◌, ℕ, List, [], ◌∷◌, ◌++◌, length, take, IfSome, IsNone, IsTrue, false};
ghost use Rattle.std.specs.List.{list_all};
ghost use Rattle.gsi_block.specs.Lines.{is_in_line, lines_of, GivesNext};
ghost use Rattle.gsi_block.specs.Pieces.{behind_return, begun, cut_line, cut_lines, lines_due};

use crate::ends::{end_len, feed_len, is_lone_return, line_len};
use crate::limits::MAX_KEPT;
use arrayvec::ArrayVec;
use std::marker::Model;

/// The lines of a text that comes in pieces, however it is cut.
///
/// It keeps one line, in an array, and allocates nothing. Of a longer line it keeps the first
/// `MAX_KEPT` bytes, which `read_block` refuses as it refuses the line.
#[derive(Drop)]
pub struct Lines {
    line: ArrayVec<u8, MAX_KEPT>,
    complete: bool,
    after_return: bool,
}

impl Model for Lines {
    ghost use Rattle.std.specs.Prelude.{IsTrue};
    ghost use Rattle.std.specs.List.{list_all};
    ghost use Rattle.gsi_block.specs.Lines.{is_in_line};
    ghost use Rattle.gsi_block.specs.Pieces.{LineState};

    ghost Value = { LineState };

    ghost view = { λ lines. record { line = lines.line.items; complete = lines.complete; after_return = lines.after_return } };

    ghost invariant = { λ lines. IsTrue (list_all is_in_line lines.line.items) };
}

impl Lines {
    /// The state before the first byte of a text.
    pub fn new() -> Lines
        ensures owes { (text : List ℕ) → lines_due result text ≡ cut_lines (lines_of text) }
    {
        Lines {
            line: ArrayVec::new(),
            complete: false,
            after_return: false,
        }
    }

    /// Takes bytes of the next piece, up to and including the first line end. Returns how many it
    /// took, and whether a line is complete now, which `line` then gives. If none is, it took the
    /// whole piece. Pass the bytes that are left to the next call.
    ///
    /// An LF right behind a CR that ended a line belongs to that end, also in a later piece.
    pub fn take(&mut self, piece: &[u8]) -> (usize, bool)
        ensures within { result.0 ≤ length piece.now }
        ensures complete { result.1 ≡ self.new.complete }
        ensures some { IsTrue result.1 → 0 < result.0 }
        ensures whole { result.1 ≡ false → result.0 ≡ length piece.now }
        ensures gives { IsTrue result.1 → (later : List ℕ) →
            lines_due self.old (take result.0 piece.now ++ later) ≡ self.new.line ∷ lines_due self.new later }
        ensures keeps { result.1 ≡ false → (later : List ℕ) →
            lines_due self.old (piece.now ++ later) ≡ lines_due self.new later }
    {
        self.begin();
        let skipped = feed_len(self.after_return, piece);
        let (_, bytes) = piece.split_at(skipped);
        let (front, end) = bytes.split_at(line_len(bytes));
        self.keep(front);
        if end.is_empty() {
            self.after_return = self.after_return && piece.is_empty();
            return (piece.len(), false);
        }
        self.after_return = is_lone_return(end);
        self.complete = true;
        (skipped + front.len() + end_len(end), true)
    }

    // Inlined: two readers call it for every line.
    /// The next line if the next piece holds the whole of it, with its end, and how many bytes it
    /// took. Nothing is copied: the line borrows from the piece. `None` if a line has begun, if the
    /// piece ends none, or if it begins with an LF that belongs to the end before. Then nothing was
    /// taken, and `take` goes on.
    ///
    /// Like `line` it gives the first `MAX_KEPT` bytes of a longer line.
    #[inline(always)]
    pub fn take_whole<'p>(&mut self, piece: &'p [u8]) -> Option<(&'p [u8], usize)>
        ensures gives { IfSome result (λ taken. (later : List ℕ) →
            lines_due self.old (take taken.1 piece.now ++ later) ≡ taken.0.now ∷ lines_due self.new later) }
        ensures within { IfSome result (λ taken. (0 < taken.1) × (taken.1 ≤ length piece.now)) }
        ensures none { IsNone result → self.new ≡ self.old }
        ensures missing { IsNone result → begun self.old ≡ [] →
            behind_return self.old.after_return piece.now ≡ piece.now → IsTrue (list_all is_in_line piece.now) }
    {
        let has_begun = !self.complete && !self.line.is_empty();
        if has_begun || feed_len(self.after_return, piece) > 0 {
            return None;
        }
        let (front, end) = piece.split_at(line_len(piece));
        if end.is_empty() {
            return None;
        }
        let taken = front.len() + end_len(end);
        let after_return = is_lone_return(end);
        let (line, _) = front.split_at(front.len().min(MAX_KEPT));
        self.begin();
        self.after_return = after_return;
        Some((line, taken))
    }

    /// The complete line, without its end; of a longer line the first `MAX_KEPT` bytes.
    #[inline(always)]
    pub fn line(&self) -> &[u8]
        requires { IsTrue self.now.complete }
        ensures { result.now ≡ self.now.line }
    {
        self.line.as_slice()
    }

    /// The last line of the text if no more bytes come, or `None` if the text ended with a line
    /// end.
    pub fn finish(&self) -> Option<&[u8]>
        ensures { GivesNext result (lines_due self.now []) [] }
    {
        if self.complete || self.line.is_empty() {
            None
        } else {
            Some(self.line.as_slice())
        }
    }

    /// Begins the next line where one is complete.
    #[inline(always)]
    fn begin(&mut self)
        ensures line { self.new.line ≡ begun self.old }
        ensures complete { self.new.complete ≡ false }
        ensures after_return { self.new.after_return ≡ self.old.after_return }
    {
        if self.complete {
            self.line.clear();
            self.complete = false;
        }
    }

    /// Keeps the next bytes of the line that has begun, as many as there is room for.
    #[inline(always)]
    fn keep(&mut self, bytes: &[u8])
        requires { IsTrue (list_all is_in_line bytes.now) }
        ensures { self.new ≡ record self.old { line = cut_line (self.old.line ++ bytes.now) } }
    {
        let room = self.line.remaining_capacity();
        if bytes.is_empty() {
            return;
        }
        let kept = &bytes[..bytes.len().min(room)];
        let _ = self.line.try_extend_from_slice(kept);
    }
}
