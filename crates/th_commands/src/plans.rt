//! The plans that a command line may give.

use crate::blunder_limits::Limit;
use crate::books::Books;

/// The names of the files that `adjust`, `review`, `explain`, `page` and `check` read.
#[derive(Debug, Drop)]
pub struct Inputs<'a> {
    /// The books, in the order in which their observations are joined.
    pub books: Books<'a>,
    /// The table of benchmarks.
    pub benchmarks: &'a str,
    /// The table of weights, if one is named.
    pub weights: Option<&'a str>,
}

/// What the program is to do.
#[derive(Debug, Drop)]
pub enum Plan<'a> {
    /// With no arguments: list the book on standard input.
    Standard,
    /// `list BOOK`: list the book in the file of this name.
    List {
        book: &'a str,
    },
    /// `adjust`: adjust the network of the inputs, and write the outputs of an adjustment to files whose
    /// names begin with the prefix. Residuals above the limit are reported as blunders.
    Adjust {
        inputs: Inputs<'a>,
        limit: Limit,
        prefix: &'a str,
    },
    /// `review`: report what a mistake would do in the network of the inputs, and write the outputs of a
    /// review to files whose names begin with the prefix. Residuals above the limit are reported as
    /// blunders.
    Review {
        inputs: Inputs<'a>,
        limit: Limit,
        prefix: &'a str,
    },
    /// `explain`: print which one number of the inputs, if it were wrong, would explain what does not
    /// fit: a table, or a text for people. Residuals above the limit are blunders.
    Explain {
        inputs: Inputs<'a>,
        limit: Limit,
        table: bool,
    },
    /// `page`: write what `adjust`, `review` and `explain` find as a page, in the file whose name is
    /// the prefix and `.html`. Residuals above the limit are reported as blunders. The title is that of
    /// the page, in UTF-8.
    Page {
        inputs: Inputs<'a>,
        limit: Limit,
        prefix: &'a str,
        title: &'a [u8],
    },
    /// `check`: check the certificate in the file of this name against the inputs, and after a `yes` list
    /// all that was read, if that is wanted.
    Check {
        inputs: Inputs<'a>,
        certificate: &'a str,
        with_inputs: bool,
    },
    /// `book TABLE`: make a book of the table of differences in the file of this name.
    Book {
        table: &'a str,
    },
    /// `book --heights BOOK`: print the book with heights in the file of this name with height
    /// differences.
    BookOfHeights {
        book: &'a str,
    },
    /// `mend CHANGES BOOK`: print the book in one file with the changes of the table in the other.
    Mend {
        changes: &'a str,
        book: &'a str,
    },
}
