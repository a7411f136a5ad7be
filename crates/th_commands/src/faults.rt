//! Faults of a command line, and the text of each, with tips that `clap` does not give.
use crate::limits::MAX_TITLE;
use clap::error::ErrorKind;
use std::alloc::AllocError;
use std::fmt::{self, Write};
use th_limits::MAX_BOOKS;

/// Why a command line gives no plan. It displays as the text for standard error.
#[derive(Debug, Drop)]
pub enum PlanFault {
    /// A bad command line, or a request for help, with the text for the user.
    Line(clap::Error),
    /// Something is wrong with an argument that `clap` takes.
    Argument(ArgumentFault),
    /// Memory ran out while the command line was read.
    NoMemory,
}

/// What is wrong with an argument. The first of these is reported.
#[derive(Clone, Copy, Debug, PartialEq, Eq)]
pub enum ArgumentFault {
    /// There are more books than a command takes.
    TooManyBooks,
    /// More than one input is `-`, standard input.
    TwoStreams,
    /// The prefix of the outputs names no files: its last part is empty, `.` or `..`.
    NamesNoFiles,
    /// The limit of blunders is given twice, with its unit and in micrometres.
    TwoLimits,
    /// The limit of blunders is no whole number of millimetres or micrometres, or too large.
    BadLimit,
    /// The title of a page is empty, not one line, or too long.
    BadTitle,
}

/// The tip that follows the text of `clap` where the first argument is no command.
const TIP: &str = "\n  tip: to list the book in a file, write 'height_office list FILE'\n";

/// How the tip of `clap` begins that says to write `--` before a value. It is right of books alone, whose
/// names have a dot, and wrong of the value of an option and of an option that there is not.
const VALUE_TIP: &str = "  tip: to pass ";

/// The tip in its place.
const BOOK_TIP: &str = "  tip: write '--' before a book whose name begins with '-'";

/// The text where more than one input is standard input.
const TWO_STREAMS: &str = "error: '-' is standard input, and can be one input alone";

/// The text where the prefix names no files.
const NAMES_NO_FILES: &str =
    "error: the value of '--out' must end in the beginning of a file name, as in 'dam' or 'site/dam'";

/// The text where there are two limits.
const TWO_LIMITS: &str = "error: '--limit' and '--blunder' are one limit: leave one of them out";

/// The text where a limit is none.
const BAD_LIMIT: &str =
    "error: the value of '--limit' must be a whole number of mm or um, as in '5mm', and at most 1 km";

/// How a text ends that is not from `clap`.
const MORE: &str = "\n\nFor more information, try '--help'.\n";

impl fmt::Display for PlanFault {
    fn fmt<W: fmt::Write>(&self, f: &mut fmt::Formatter<W>) -> fmt::Result {
        match self {
            PlanFault::Line(error) => match error.kind() {
                ErrorKind::UnknownArgument => {
                    let mut tips = BookTips {
                        out: f,
                        was_blank: false,
                    };
                    write!(tips, "{error}")
                }
                ErrorKind::InvalidSubcommand => write!(f, "{error}{TIP}"),
                _ => write!(f, "{error}"),
            },
            PlanFault::Argument(fault) => write!(f, "{fault}{MORE}"),
            PlanFault::NoMemory => f.write_str("out of memory\n"),
        }
    }
}

impl fmt::Display for ArgumentFault {
    fn fmt<W: fmt::Write>(&self, f: &mut fmt::Formatter<W>) -> fmt::Result {
        match self {
            ArgumentFault::TooManyBooks => write!(f, "error: more than {MAX_BOOKS} books"),
            ArgumentFault::TwoStreams => f.write_str(TWO_STREAMS),
            ArgumentFault::NamesNoFiles => f.write_str(NAMES_NO_FILES),
            ArgumentFault::TwoLimits => f.write_str(TWO_LIMITS),
            ArgumentFault::BadLimit => f.write_str(BAD_LIMIT),
            ArgumentFault::BadTitle => write!(
                f,
                "error: the value of '--title' must be one line of 1 to {MAX_TITLE} characters"
            ),
        }
    }
}

impl From<AllocError> for PlanFault {
    ghost use Rattle.std.specs.Prelude.{◌≡◌};
    ghost use Rattle.th_commands.specs.declared.faults.PlanFault.TheVariants.{NoMemory};

    ghost from_gives = { λ _ fault. fault ≡ NoMemory };

    fn from(_error: AllocError) -> PlanFault {
        PlanFault::NoMemory
    }
}

/// Where `clap` is out of memory, the fault is `NoMemory`.
impl From<clap::Error> for PlanFault {
    ghost use Rattle.std.specs.Prelude.{◌≡◌, ◌≢◌};
    ghost use Rattle.clap.specs.Words.{kind_of};
    ghost use Rattle.clap.specs.declared.error.kind.ErrorKind.TheVariants.{OutOfMemory};
    ghost use Rattle.th_commands.specs.declared.faults.PlanFault.TheVariants.{Line, NoMemory};

    ghost from_gives = { λ error fault. (kind_of error ≡ OutOfMemory → fault ≡ NoMemory)
        × (kind_of error ≢ OutOfMemory → fault ≡ Line error) };

    fn from(error: clap::Error) -> PlanFault {
        match error.kind() {
            ErrorKind::OutOfMemory => PlanFault::NoMemory,
            _ => PlanFault::Line(error),
        }
    }
}

/// Passes whole lines on, with the tip for books in place of that for values, where the value can be a book.
#[derive(Drop)]
struct BookTips<'f, W> {
    out: &'f mut fmt::Formatter<W>,
    /// The last line that was passed on is blank: one blank line is enough.
    was_blank: bool,
}

impl<W: fmt::Write> fmt::Write for BookTips<'_, W> {
    fn write_str(&mut self, text: &str) -> fmt::Result {
        for line in text.lines() {
            let is_tip = line.starts_with(VALUE_TIP);
            let is_blank = line.is_empty();
            if is_tip && !line.contains('.') || is_blank && self.was_blank {
                continue;
            }
            self.was_blank = is_blank;
            self.out.write_str(if is_tip { BOOK_TIP } else { line })?;
            self.out.write_str("\n")?;
        }
        Ok(())
    }
}
