//! Prefixes of the outputs' names.
ghost use Rattle.std.specs.Prelude.{◌≡◌};
ghost use Rattle.th_commands.specs.Prefixes.{names_files};

use th_columns::last_part;

/// Whether the names that begin with the prefix are those of files: its last part is not empty, `.` or
/// `..`.
pub(crate) fn names_files(prefix: &str) -> bool
    ensures { result ≡ names_files prefix.now }
{
    let part = last_part(prefix.as_bytes());
    !part.is_empty() && part != b".".as_slice() && part != b"..".as_slice()
}
