//! What becomes a book.
ghost use Rattle.std.specs.Prelude.{◌≡◌};
ghost use Rattle.th_run_parts.specs.Booked.{input_of};

use th_inputs::Input;

/// What becomes a book.
#[derive(Clone, Copy, Debug, PartialEq, Eq)]
pub enum Conversion {
    /// A table of height differences.
    Differences,
    /// A book whose sights have heights of points in place of height differences.
    Heights,
}

impl Conversion {
    /// The input that is converted. A book with heights is book 1.
    pub fn input(self) -> Input
        ensures { result ≡ input_of self }
    {
        match self {
            Conversion::Differences => Input::Differences,
            Conversion::Heights => Input::Book(1),
        }
    }
}
