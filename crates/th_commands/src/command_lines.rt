//! Reading a command line with `clap`.
ghost use Rattle.std.specs.Prelude.{◌≡◌, ◌≤◌, ◌↔◌, IfErr, IfOk, Ok, Some, length, map, option_map};
ghost use Rattle.clap.specs.Words.{all_of, first_of, found_of, rows_of, subcommand_rows_of};
ghost use Rattle.th_commands.specs.Asked.{adjust_asked, asked_by, book_asked, check_asked, command_asked, explain_asked, files_in, flag_in, heights_in, limit_in, list_asked, mend_asked, options_in, page_asked, prefix_in, review_asked, table_in, title_in};
ghost use Rattle.th_commands.specs.Plans.{IsFaultOf, IsPlanOf, files, said_by};

use crate::argument_faults::argument_fault_of;
use crate::blunder_limits::Limit;
use crate::books::Books;
use crate::commands::command_line;
use crate::faults::PlanFault;
use crate::plans::{Inputs, Plan};
use crate::prefixes::names_files;
use crate::streams::reads_twice;
use crate::titles::is_title;
use crate::values::{value_of, values_of};
use clap::ArgMatches;
use clap::error::ErrorKind;
use std::alloc::Global;
use std::convert::AsStr;
use th_columns::last_part;

/// The plan of a command line, whose first word is the program's own name.
pub fn plan<'a, S: AsStr>(alloc: Global, words: &'a [S]) -> Result<Plan<'a>, PlanFault>
    ensures standard { (result ≡ Ok Plan.Standard) ↔ (length words.entry.now ≤ 1) }
    ensures ok { IfOk result (IsPlanOf (map S.text words.entry.now)) }
    ensures err { IfErr result (IsFaultOf (map S.text words.entry.now)) }
{
    if words.len() <= 1 {
        return Ok(Plan::Standard);
    }
    let mut command = command_line(alloc)?;
    let matches = command.try_get_matches_from_mut(words)?;
    if let Some(plan) = plan_of(&matches) {
        return Ok(plan);
    }
    match argument_fault_of(&matches) {
        Some(fault) => Err(PlanFault::Argument(fault)),
        // Never where `clap` keeps its contract: a parse that succeeds has all required arguments.
        None => Err(PlanFault::Line(command.error(
            ErrorKind::MissingRequiredArgument,
            "an argument is missing",
        )?)),
    }
}

/// The plan of the command that was found. It reads standard input once at most.
fn plan_of<'a>(matches: &ArgMatches<'a>) -> Option<Plan<'a>>
    ensures { option_map said_by result
        ≡ option_map Some (asked_by (subcommand_rows_of matches.now)) }
{
    let (name, found) = matches.subcommand()?;
    if reads_twice(found) {
        None
    } else {
        plan_of_command(name, found)
    }
}

/// The plan of the command of this name.
fn plan_of_command<'a>(name: &str, found: &ArgMatches<'a>) -> Option<Plan<'a>>
    ensures { option_map said_by result
        ≡ option_map Some (command_asked name.now (rows_of (found_of found.now))) }
{
    if name == "list" {
        list_of(found)
    } else if name == "adjust" {
        adjust_of(found)
    } else if name == "review" {
        review_of(found)
    } else if name == "explain" {
        explain_of(found)
    } else if name == "page" {
        page_of(found)
    } else if name == "check" {
        check_of(found)
    } else if name == "book" {
        book_of(found)
    } else if name == "mend" {
        mend_of(found)
    } else {
        None
    }
}

/// What follows `list`.
fn list_of<'a>(found: &ArgMatches<'a>) -> Option<Plan<'a>>
    ensures { option_map said_by result
        ≡ option_map Some (list_asked (rows_of (found_of found.now))) }
{
    Some(Plan::List {
        book: value_of(found, "book")?,
    })
}

/// What follows `adjust`.
fn adjust_of<'a>(found: &ArgMatches<'a>) -> Option<Plan<'a>>
    ensures { option_map said_by result
        ≡ option_map Some (adjust_asked (rows_of (found_of found.now))) }
{
    let (inputs, limit, prefix) = options_of(found)?;
    Some(Plan::Adjust {
        inputs,
        limit,
        prefix,
    })
}

/// What follows `review`.
fn review_of<'a>(found: &ArgMatches<'a>) -> Option<Plan<'a>>
    ensures { option_map said_by result
        ≡ option_map Some (review_asked (rows_of (found_of found.now))) }
{
    let (inputs, limit, prefix) = options_of(found)?;
    Some(Plan::Review {
        inputs,
        limit,
        prefix,
    })
}

/// What follows `explain`.
fn explain_of<'a>(found: &ArgMatches<'a>) -> Option<Plan<'a>>
    ensures { option_map said_by result
        ≡ option_map Some (explain_asked (rows_of (found_of found.now))) }
{
    Some(Plan::Explain {
        inputs: inputs_of(found)?,
        limit: limit_of(found)?,
        table: table_of(found),
    })
}

/// What follows `page`.
fn page_of<'a>(found: &ArgMatches<'a>) -> Option<Plan<'a>>
    ensures { option_map said_by result
        ≡ option_map Some (page_asked (rows_of (found_of found.now))) }
{
    let (inputs, limit, prefix) = options_of(found)?;
    Some(Plan::Page {
        inputs,
        limit,
        prefix,
        title: title_of(found, prefix)?,
    })
}

/// What follows `check`.
fn check_of<'a>(found: &ArgMatches<'a>) -> Option<Plan<'a>>
    ensures { option_map said_by result
        ≡ option_map Some (check_asked (rows_of (found_of found.now))) }
{
    Some(Plan::Check {
        inputs: inputs_of(found)?,
        certificate: value_of(found, "certificate")?,
        with_inputs: flag_of(found, "inputs"),
    })
}

/// What follows `book`.
fn book_of<'a>(found: &ArgMatches<'a>) -> Option<Plan<'a>>
    ensures { option_map said_by result
        ≡ option_map Some (book_asked (rows_of (found_of found.now))) }
{
    let file = value_of(found, "table")?;
    if heights_of(found) {
        Some(Plan::BookOfHeights { book: file })
    } else {
        Some(Plan::Book { table: file })
    }
}

/// What follows `mend`.
fn mend_of<'a>(found: &ArgMatches<'a>) -> Option<Plan<'a>>
    ensures { option_map said_by result
        ≡ option_map Some (mend_asked (rows_of (found_of found.now))) }
{
    Some(Plan::Mend {
        changes: value_of(found, "changes")?,
        book: value_of(found, "book")?,
    })
}

/// The options of `adjust`, `review` and `page`: the inputs, the limit of blunders, and the prefix of the
/// outputs.
fn options_of<'a>(found: &ArgMatches<'a>) -> Option<(Inputs<'a>, Limit, &'a str)>
    ensures { option_map (λ own. (files own.0, own.1, own.2.now)) result
        ≡ options_in (rows_of (found_of found.now)) }
{
    Some((inputs_of(found)?, limit_of(found)?, prefix_of(found)?))
}

/// The files that `adjust`, `review`, `explain`, `page` and `check` read.
fn inputs_of<'a>(found: &ArgMatches<'a>) -> Option<Inputs<'a>>
    ensures { option_map files result ≡ files_in (rows_of (found_of found.now)) }
{
    Some(Inputs {
        books: Books::of(values_of(found, "book")?)?,
        benchmarks: value_of(found, "benchmarks")?,
        weights: value_of(found, "weights"),
    })
}

/// The limit of blunders, which has a default.
fn limit_of(found: &ArgMatches<'_>) -> Option<Limit>
    ensures { result ≡ limit_in (rows_of (found_of found.now)) }
{
    Limit::of_options(value_of(found, "limit"), value_of(found, "blunder"))
}

/// Whether the flag for a table is there.
fn table_of(found: &ArgMatches<'_>) -> bool
    ensures { result ≡ table_in (rows_of (found_of found.now)) }
{
    flag_of(found, "csv")
}

/// Whether the flag for a book with heights is there.
fn heights_of(found: &ArgMatches<'_>) -> bool
    ensures { result ≡ heights_in (rows_of (found_of found.now)) }
{
    flag_of(found, "heights")
}

/// Whether a flag is there.
fn flag_of(found: &ArgMatches<'_>, name: &str) -> bool
    ensures { result ≡ flag_in name.now (rows_of (found_of found.now)) }
{
    match value_of(found, name) {
        Some(text) => text == "true",
        None => false,
    }
}

/// The prefix of the outputs, which must name files.
fn prefix_of<'a>(found: &ArgMatches<'a>) -> Option<&'a str>
    ensures { option_map (λ prefix. prefix.now) result ≡ prefix_in (rows_of (found_of found.now)) }
{
    let prefix = value_of(found, "out")?;
    if names_files(prefix) {
        Some(prefix)
    } else {
        None
    }
}

/// The title of a page, in UTF-8: where it is not given, the last part of the prefix.
fn title_of<'a>(found: &ArgMatches<'a>, prefix: &'a str) -> Option<&'a [u8]>
    ensures { option_map (λ title. title.now) result
        ≡ title_in prefix.entry.now (rows_of (found_of found.now)) }
{
    match value_of(found, "title") {
        None => Some(last_part(prefix.as_bytes())),
        Some(title) if is_title(title) => Some(title.as_bytes()),
        Some(_) => None,
    }
}
