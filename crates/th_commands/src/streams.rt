//! Standard input as an input by name.
ghost use Rattle.std.specs.Prelude.{◌≡◌, ◌≤◌};
ghost use Rattle.std.specs.List.{count_by};
ghost use Rattle.clap.specs.Words.{found_of, rows_of};
ghost use Rattle.th_commands.specs.Streams.{is_stream, reads_twice, streams_in};

use crate::values::values_of;
use clap::ArgMatches;

/// Whether more than one input of a command is standard input.
pub(crate) fn reads_twice(found: &ArgMatches<'_>) -> bool
    ensures { result ≡ reads_twice (rows_of (found_of found.now)) }
{
    let count = streams_in(found, "book")
        + streams_in(found, "benchmarks")
        + streams_in(found, "weights")
        + streams_in(found, "certificate")
        + streams_in(found, "changes");
    count > 1
}

/// How many of the values of an argument name standard input; two at most are counted.
fn streams_in(found: &ArgMatches<'_>, argument: &str) -> usize
    ensures few { result ≤ 2 }
    ensures count { result ≡ streams_in argument.now (rows_of (found_of found.now)) }
{
    match values_of(found, argument) {
        Some(names) => streams_among(names).min(2),
        None => 0,
    }
}

/// How many of these names are `-`, that of standard input.
fn streams_among(names: &[&str]) -> usize
    ensures { result ≡ count_by (λ name. is_stream name.now) names.now }
{
    let mut count = 0;
    for name in names {
        if *name == "-" {
            count += 1;
        }
    }
    count
}
