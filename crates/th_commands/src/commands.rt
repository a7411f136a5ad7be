//! The commands and their options, as `clap` reads them, with the help texts. `tools/command_pages` makes the
//! completions and the manual page's options of this file: what an option's comment has behind its first line
//! is for the manual page.
ghost use Rattle.std.specs.Prelude.{◌≡◌, IfOk, codes};
ghost use Rattle.clap.specs.Words.{App, app_of};
ghost use Rattle.th_commands.specs.Inside.Arguments.{IsArgument, IsCommand};
ghost use Rattle.th_commands.specs.Commands.{adjust_command, blunder_rule, book_command, book_rule, books_rule, changes_rule, check_command, command_line, explain_command, flag_rule, list_command, mend_command, needed_rule, option_rule, page_command, review_command, table_rule, with_options};

use crate::limits::MAX_BLUNDER;
use clap::{Arg, ArgAction, Command};
use std::alloc::{AllocError, Global};

/// The program's version. It is written nowhere else.
pub const VERSION: &str = "0.10.0";

/// How the program is called: with no arguments it lists the book on standard input.
const USAGE: &str = "height_office list <BOOK>
       height_office adjust [OPTIONS] --benchmarks <FILE> --out <PREFIX> <BOOK>...
       height_office review [OPTIONS] --benchmarks <FILE> --out <PREFIX> <BOOK>...
       height_office explain [OPTIONS] --benchmarks <FILE> <BOOK>...
       height_office page [OPTIONS] --benchmarks <FILE> --out <PREFIX> <BOOK>...
       height_office check [OPTIONS] --benchmarks <FILE> --certificate <FILE> <BOOK>...
       height_office book <TABLE>
       height_office book --heights <BOOK>
       height_office mend <CHANGES> <BOOK>
       height_office < BOOK        (lists the book on standard input)";

/// What the help of the program ends with.
const AFTER_HELP: &str =
    "'adjust' finds the heights. 'explain' answers which one number, if it were wrong, would explain what
does not fit. 'review' answers what a mistake would do in this network: whether it would show, and
whether points would move. 'page' shows all of this on one page. 'mend' prints a book with changes.

Examples:
  height_office adjust --benchmarks marks.csv --out dam monday.gsi tuesday.gsi
  height_office review --benchmarks marks.csv --out dam monday.gsi tuesday.gsi
  height_office explain --benchmarks marks.csv monday.gsi tuesday.gsi
  height_office page --benchmarks marks.csv --out dam monday.gsi tuesday.gsi
  height_office check --benchmarks marks.csv --certificate dam.certificate.csv monday.gsi tuesday.gsi
  height_office mend changes.csv monday.gsi > mended.gsi

Exit status:
  0  done; for 'check', the checker says yes
  1  the checker says no: standard output has the first reason
  2  an input was refused: standard error has its first fault, with the line or record
  3  a bad command line, an output that would overwrite an input, or a request for help or the version
  4  out of memory
  5  'read failed': an input is missing, is a directory or could not be read;
     'write failed': an output could not be written whole";

/// What the help of `list` ends with.
const AFTER_LIST: &str = "Example:
  height_office list monday.gsi

Exit status: 0 the list was printed, 2 the book was refused, 3 a bad command line or help,
4 out of memory, 5 the book could not be read or the list not written";

/// What the help of `adjust` ends with.
const AFTER_ADJUST: &str = "It prints nothing but notes on standard error, and writes four files:
  PREFIX.heights.csv      each point's height, with the lowest and the highest best height
  PREFIX.certificate.csv  heights and flows that show that no heights cost less, for 'check'
  PREFIX.report.txt       points, residuals, blunders and opposites, in columns
  PREFIX.heights.gsi      the heights as GSI-16 blocks

It makes all four before it opens the first file.

A mistake shows as a large residual where the other observations that check it weigh more together,
and cannot show where they weigh less: 'review' says which.

Example:
  height_office adjust --benchmarks marks.csv --weights weights.csv --out dam monday.gsi tuesday.gsi

Exit status: 0 the four files were written, 2 an input was refused, 3 a bad command line or help,
4 out of memory, 5 a file could not be read or written";

/// What the help of `review` ends with.
const AFTER_REVIEW: &str =
    "It adjusts the network as 'adjust' does, and answers what a mistake would do in it. It prints
nothing and writes five files:
  PREFIX.points.csv        each point's height, and how much weight holds the point
  PREFIX.observations.csv  each observation's residual, and whether a mistake in it would show
  PREFIX.entries.csv       the same for each instrument and reflector height that was keyed in
  PREFIX.benchmarks.csv    the same for each benchmark's height
  PREFIX.review.txt        all of this in columns, the largest residuals, and notes on the data

It makes all five before it opens the first file.

A mistake shows as a large residual where the other observations that check it weigh more together
than the observation, and hides where they weigh less: others are marked then, and heights move.

Example:
  height_office review --benchmarks marks.csv --weights weights.csv --out dam monday.gsi tuesday.gsi

Exit status: 0 the five files were written, 2 an input was refused, 3 a bad command line or help,
4 out of memory, 5 a file could not be read or written";

/// What the help of `explain` ends with.
const AFTER_EXPLAIN: &str =
    "It adjusts the network as 'adjust' does, and looks at each number that somebody read or typed: sights,
instrument and reflector heights, changes of them that nobody keyed in, benchmarks, and books read from
mark to mark. It prints those that explain what does not fit if they alone are wrong, with the values
that do, and the cost and the marks that are then left. Of those that explain most it says what may
have been meant: another height, another name, or the other sign. It changes no file.

Look at explanation 1 first; where several have number 1, measure one of them again. Two mistakes can
look like a third.

Example:
  height_office explain --benchmarks marks.csv --weights weights.csv monday.gsi tuesday.gsi

Exit status: 0 the text was printed, also where nothing is found, 2 an input was refused, 3 a bad
command line or help, 4 out of memory, 5 a file could not be read or the text not written";

/// What the help of `page` ends with.
const AFTER_PAGE: &str =
    "It adjusts the network as 'adjust' does, and looks at it as 'review' and 'explain' do. It prints
nothing and writes one file, for people and for whoever they hand it to:
  PREFIX.html  the heights, a picture of the network, what was marked, what would explain it, and what a
               mistake in each number would do

A browser shows and prints it. It loads nothing and runs no program.

Example:
  height_office page --benchmarks marks.csv --title 'Upper dam' --out dam monday.gsi tuesday.gsi

Exit status: 0 the page was written, 2 an input was refused, 3 a bad command line or help,
4 out of memory, 5 a file could not be read or written";

/// What the help of `check` ends with.
const AFTER_CHECK: &str =
    "It prints 'yes', or 'no' with the first reason. With '--inputs' it prints after 'yes' a line for each file
that it read: its length, SHA-256 and name, as a review has them, and the certificate last.

Example:
  height_office check --benchmarks marks.csv --certificate dam.certificate.csv monday.gsi tuesday.gsi

Exit status: 0 yes, 1 no, 2 an input was refused, 3 a bad command line or help, 4 out of memory,
5 a file could not be read or the answer not written";

/// What the help of `book` ends with.
const AFTER_BOOK: &str =
    "The table is CSV: the header 'from,to,difference' and a row for each height of 'to' above 'from' in
metres, a whole number of 1/100 mm; or it is what 'list' prints. The book that is printed has these
height differences, in order: 'list' of it prints the table again.

With '--heights' the file is a book whose sights have a word 83, the height of the target, and whose
setups have a word 86, the height of the station. It is printed line for line, and each of these
sights gets a word 33 of 83 - 86 - 88 + 87, so its height difference is 83 less 86. A missing 87 or 88
is written as zero.

Examples:
  height_office book differences.csv > level.gsi
  height_office book --heights monday.gsi > with33.gsi

Exit status: 0 the book was printed, 2 the table or the book was refused, 3 a bad command line or
help, 4 out of memory, 5 the file could not be read or the book not written";

/// What the help of `mend` ends with.
const AFTER_MEND: &str =
    "The table is CSV: the header 'line,word,value' and a row for each change of a line of the book:
  88, 87              a length: the keyed-in height in force in the line, in all words that repeat it
  88 since, 87 since  a length: the same, from the line on
  33                  a length, or no value: then the sight is left out
  sign                no value: the other sign of the word 33
  to, from            a name: the target of the sight, the station of the setup

Lengths are in metres. All other lines are printed as they are, byte for byte. Nothing is printed
where the table does not fit the book, or where the mended book has a fault.

Example:
  height_office mend changes.csv monday.gsi > mended.gsi

Exit status: 0 the book was printed, 2 the table or a book was refused, 3 a bad command line or help,
4 out of memory, 5 a file could not be read or the book not written";

/// The program's command line: `list`, `adjust`, `review`, `explain`, `page`, `check`, `book` or `mend`.
pub fn command_line<'a>(alloc: Global) -> Result<Command<'a>, AllocError>
    ensures { IfOk result (λ command. app_of command ≡ command_line) }
{
    Command::new(alloc, "height_office")
        .about(
            "Adjusts and reviews height networks observed with total stations, by least absolute residuals",
        )
        .version(VERSION)
        .override_usage(USAGE)
        .after_help(AFTER_HELP)
        .subcommand_required(true)
        .subcommand(list_command(alloc)?)?
        .subcommand(adjust_command(alloc)?)?
        .subcommand(review_command(alloc)?)?
        .subcommand(explain_command(alloc)?)?
        .subcommand(page_command(alloc)?)?
        .subcommand(check_command(alloc)?)?
        .subcommand(book_command(alloc)?)?
        .subcommand(mend_command(alloc)?)
}

/// `list BOOK`.
fn list_command<'a>(alloc: Global) -> Result<Command<'a>, AllocError>
    ensures { IfOk result (IsCommand list_command) }
{
    Command::new(alloc, "list")
        .about("Prints the height differences of a book as CSV")
        .after_help(AFTER_LIST)
        .arg(book(alloc))
}

/// `adjust`, with its options and books.
fn adjust_command<'a>(alloc: Global) -> Result<Command<'a>, AllocError>
    ensures { IfOk result (IsCommand adjust_command) }
{
    let adjust = Command::new(alloc, "adjust")
        .about("Adjusts the network of the books: writes heights, certificate, report and GSI file")
        .after_help(AFTER_ADJUST);
    with_options(alloc, adjust)
}

/// `review`, with its options and books.
fn review_command<'a>(alloc: Global) -> Result<Command<'a>, AllocError>
    ensures { IfOk result (IsCommand review_command) }
{
    let review = Command::new(alloc, "review")
        .about(
            "Reports what a mistake would do in the network of the books: show, hide or move points",
        )
        .after_help(AFTER_REVIEW);
    with_options(alloc, review)
}

/// `page`, with its options and books.
fn page_command<'a>(alloc: Global) -> Result<Command<'a>, AllocError>
    ensures { IfOk result (IsCommand page_command) }
{
    let page = Command::new(alloc, "page")
        .about("Shows the network of the books on one page: writes an HTML file")
        .after_help(AFTER_PAGE)
        .arg(title(alloc))?;
    with_options(alloc, page)
}

/// The command with the options and books that `adjust`, `review` and `page` take.
fn with_options<'a>(alloc: Global, command: Command<'a>) -> Result<Command<'a>, AllocError>
    ensures { (app : App) → IsCommand app command.entry → IfOk result (IsCommand (with_options app)) }
{
    command
        .arg(benchmarks(alloc))?
        .arg(weights(alloc))?
        .arg(limit(alloc))?
        .arg(blunder(alloc))?
        .arg(out(alloc))?
        .arg(books(alloc))
}

/// `explain`, with its options and books.
fn explain_command<'a>(alloc: Global) -> Result<Command<'a>, AllocError>
    ensures { IfOk result (IsCommand explain_command) }
{
    Command::new(alloc, "explain")
        .about("Prints which one number, if it were wrong, would explain what does not fit")
        .after_help(AFTER_EXPLAIN)
        .arg(benchmarks(alloc))?
        .arg(weights(alloc))?
        .arg(limit(alloc))?
        .arg(blunder(alloc))?
        .arg(csv(alloc))?
        .arg(books(alloc))
}

/// `check`, with its options and books.
fn check_command<'a>(alloc: Global) -> Result<Command<'a>, AllocError>
    ensures { IfOk result (IsCommand check_command) }
{
    Command::new(alloc, "check")
        .about("Checks a certificate against books and tables: yes, or the first reason why not")
        .after_help(AFTER_CHECK)
        .arg(benchmarks(alloc))?
        .arg(weights(alloc))?
        .arg(certificate(alloc))?
        .arg(inputs(alloc))?
        .arg(books(alloc))
}

/// `book TABLE`, and `book --heights BOOK`.
fn book_command<'a>(alloc: Global) -> Result<Command<'a>, AllocError>
    ensures { IfOk result (IsCommand book_command) }
{
    Command::new(alloc, "book")
        .about("Makes a book of a table of height differences, or of a book with heights")
        .after_help(AFTER_BOOK)
        .arg(heights(alloc))?
        .arg(table(alloc))
}

/// `mend CHANGES BOOK`.
fn mend_command<'a>(alloc: Global) -> Result<Command<'a>, AllocError>
    ensures { IfOk result (IsCommand mend_command) }
{
    Command::new(alloc, "mend")
        .about("Prints a book with the changes of a table, line for line")
        .after_help(AFTER_MEND)
        .arg(changes(alloc))?
        .arg(book(alloc))
}

/// The one book of `list` and of `mend`.
fn book<'a>(alloc: Global) -> Arg<'a>
    ensures { IsArgument book_rule result }
{
    Arg::new(alloc, "book")
        .required(true)
        .value_name("BOOK")
        .help("The file of the book, in GSI-8 or GSI-16 blocks; - is standard input")
}

/// The books of `adjust`, `review`, `explain` and `check`.
fn books<'a>(alloc: Global) -> Arg<'a>
    ensures { IsArgument books_rule result }
{
    Arg::new(alloc, "book")
        .required(true)
        .action(ArgAction::Append)
        .num_args(1..)
        .value_name("BOOK")
        .help("The files of 1 to 16 books, in GSI-8 or GSI-16 blocks; - is standard input")
}

/// The table of `mend`.
fn changes<'a>(alloc: Global) -> Arg<'a>
    ensures { IsArgument changes_rule result }
{
    Arg::new(alloc, "changes")
        .required(true)
        .value_name("CHANGES")
        .help("The file of the table of changes, with the columns 'line,word,value'")
}

/// The file of `book`.
fn table<'a>(alloc: Global) -> Arg<'a>
    ensures { IsArgument table_rule result }
{
    Arg::new(alloc, "table")
        .required(true)
        .value_name("TABLE")
        .help(
            "The file of the table, with the columns 'from,to,difference'; that of the book with --heights",
        )
}

/// `--benchmarks FILE`.
///
/// A row has the name of a point and its height in metres.
fn benchmarks<'a>(alloc: Global) -> Arg<'a>
    ensures { IsArgument (needed_rule (codes "benchmarks")) result }
{
    Arg::new(alloc, "benchmarks")
        .long("benchmarks")
        .required(true)
        .value_name("FILE")
        .help("The table of benchmarks: the header 'point,height' and a row for each")
}

/// `--weights FILE`.
///
/// A row has the names of station and target, and a whole number from 1 to 1000, proportional to 1/sigma.
/// Only ratios count.
fn weights<'a>(alloc: Global) -> Arg<'a>
    ensures { IsArgument (option_rule (codes "weights")) result }
{
    Arg::new(alloc, "weights")
        .long("weights")
        .value_name("FILE")
        .help(
            "The table of weights: the header 'from,to,weight' and a row for each pair that does not weigh 1",
        )
}

/// `--limit LENGTH`.
///
/// A whole number with its unit, at most 1 km. 'explain' explains nothing that differs by less.
fn limit<'a>(alloc: Global) -> Arg<'a>
    ensures { IsArgument (option_rule (codes "limit")) result }
{
    Arg::new(alloc, "limit")
        .long("limit")
        .value_name("LENGTH")
        .help(
            "Residuals above this size are marked as blunders, as 5mm or 500um; 20mm if not given",
        )
}

/// `--blunder MICROMETRES`.
fn blunder<'a>(alloc: Global) -> Arg<'a>
    ensures { IsArgument blunder_rule result }
{
    Arg::new(alloc, "blunder")
        .long("blunder")
        .value_parser(clap::value_parser!(u32).range(0..=MAX_BLUNDER as i64))
        .value_name("MICROMETRES")
        .help("The same limit in micrometres, in place of --limit")
}

/// `--csv`.
fn csv<'a>(alloc: Global) -> Arg<'a>
    ensures { IsArgument (flag_rule (codes "csv")) result }
{
    Arg::new(alloc, "csv")
        .long("csv")
        .action(ArgAction::SetTrue)
        .help("Print a table of comma-separated values in place of the text")
}

/// `--inputs`.
fn inputs<'a>(alloc: Global) -> Arg<'a>
    ensures { IsArgument (flag_rule (codes "inputs")) result }
{
    Arg::new(alloc, "inputs")
        .long("inputs")
        .action(ArgAction::SetTrue)
        .help("Print after 'yes' the length, SHA-256 and name of each file that was read")
}

/// `--heights`.
fn heights<'a>(alloc: Global) -> Arg<'a>
    ensures { IsArgument (flag_rule (codes "heights")) result }
{
    Arg::new(alloc, "heights")
        .long("heights")
        .action(ArgAction::SetTrue)
        .help("Read a book with words 83 and 86, and print it with words 33")
}

/// `--out PREFIX`.
///
/// Its last part must not be empty, '.' or '..'.
fn out<'a>(alloc: Global) -> Arg<'a>
    ensures { IsArgument (needed_rule (codes "out")) result }
{
    Arg::new(alloc, "out")
        .long("out")
        .required(true)
        .value_name("PREFIX")
        .help("The beginning of the names of the output files")
}

/// `--title TEXT`.
///
/// It has one line of at most 100 characters.
fn title<'a>(alloc: Global) -> Arg<'a>
    ensures { IsArgument (option_rule (codes "title")) result }
{
    Arg::new(alloc, "title")
        .long("title")
        .value_name("TEXT")
        .help("The title of the page; the last part of the prefix if not given")
}

/// `--certificate FILE`.
fn certificate<'a>(alloc: Global) -> Arg<'a>
    ensures { IsArgument (needed_rule (codes "certificate")) result }
{
    Arg::new(alloc, "certificate")
        .long("certificate")
        .required(true)
        .value_name("FILE")
        .help("The certificate, as 'adjust' writes it")
}
