//! Laws of the definitions.
ghost use Rattle.th_html.specs.Laws.{EscapedMakesNoMarkup, MovedAreStruckOut};

/// A text from outside has no byte of markup once it is escaped: no `<`, `>`, `"` or `'`, and no
/// control byte.
pub fn escaped_text_makes_no_markup()
    ensures { EscapedMakesNoMarkup }
{}

/// The height of a point is struck out exactly if the point is moved.
pub fn moved_heights_are_struck_out()
    ensures { MovedAreStruckOut }
{}
