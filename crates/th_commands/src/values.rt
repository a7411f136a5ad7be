//! The values of arguments that `clap` found.
ghost use Rattle.std.specs.Prelude.{◌≡◌, map, option_map};
ghost use Rattle.clap.specs.Words.{all_of, first_of, found_of, rows_of};

use clap::ArgMatches;

/// The first value of an argument.
pub(crate) fn value_of<'a>(found: &ArgMatches<'a>, name: &str) -> Option<&'a str>
    ensures { option_map (λ value. value.now) result
        ≡ first_of name.now (rows_of (found_of found.now)) }
{
    found.get_str(name)
}

/// The values of an argument.
pub(crate) fn values_of<'b, 'a>(found: &'b ArgMatches<'a>, name: &str) -> Option<&'b [&'a str]>
    ensures { option_map (λ values. map (λ value. value.now) values.now) result
        ≡ all_of name.now (rows_of (found_of found.now)) }
{
    found.get_strs(name)
}
