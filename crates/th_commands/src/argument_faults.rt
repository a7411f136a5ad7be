//! What is wrong with arguments that `clap` takes.
ghost use Rattle.std.specs.Prelude.{◌≡◌};
ghost use Rattle.clap.specs.Words.{found_of, rows_of, subcommand_rows_of};
ghost use Rattle.th_commands.specs.ArgumentFaults.{argument_fault_by, argument_fault_in, book_count, has_bad_prefix, has_bad_title};

use crate::blunder_limits::Limit;
use crate::faults::ArgumentFault;
use crate::prefixes::names_files;
use crate::streams::reads_twice;
use crate::titles::is_title;
use crate::values::{value_of, values_of};
use clap::ArgMatches;
use th_limits::MAX_BOOKS;

/// What is wrong with the arguments of the command that was found.
pub(crate) fn argument_fault_of(matches: &ArgMatches<'_>) -> Option<ArgumentFault>
    ensures { result ≡ argument_fault_by (subcommand_rows_of matches.now) }
{
    let (_, found) = matches.subcommand()?;
    first_fault(found)
}

/// The first thing that is wrong with the arguments of a command.
fn first_fault(found: &ArgMatches<'_>) -> Option<ArgumentFault>
    ensures { result ≡ argument_fault_in (rows_of (found_of found.now)) }
{
    let with_unit = value_of(found, "limit");
    let micrometres = value_of(found, "blunder");
    if book_count(found) > MAX_BOOKS {
        Some(ArgumentFault::TooManyBooks)
    } else if reads_twice(found) {
        Some(ArgumentFault::TwoStreams)
    } else if has_bad_prefix(found) {
        Some(ArgumentFault::NamesNoFiles)
    } else if with_unit.is_some() && micrometres.is_some() {
        Some(ArgumentFault::TwoLimits)
    } else if Limit::of_options(with_unit, micrometres).is_none() {
        Some(ArgumentFault::BadLimit)
    } else if has_bad_title(found) {
        Some(ArgumentFault::BadTitle)
    } else {
        None
    }
}

/// How many books a command has.
fn book_count(found: &ArgMatches<'_>) -> usize
    ensures { result ≡ book_count (rows_of (found_of found.now)) }
{
    match values_of(found, "book") {
        Some(names) => names.len(),
        None => 0,
    }
}

/// Whether a command has a prefix that names no files.
fn has_bad_prefix(found: &ArgMatches<'_>) -> bool
    ensures { result ≡ has_bad_prefix (rows_of (found_of found.now)) }
{
    match value_of(found, "out") {
        Some(prefix) => !names_files(prefix),
        None => false,
    }
}

/// Whether a command has a title that is none.
fn has_bad_title(found: &ArgMatches<'_>) -> bool
    ensures { result ≡ has_bad_title (rows_of (found_of found.now)) }
{
    match value_of(found, "title") {
        Some(title) => !is_title(title),
        None => false,
    }
}
