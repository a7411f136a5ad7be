//! Names of files as texts show them.
ghost use Rattle.std.specs.Prelude.{◌≡◌};
ghost use Rattle.th_columns.specs.FileNames.{last_part};

/// What follows the last slash of a name, or all of it where it has none.
pub fn last_part(name: &[u8]) -> &[u8]
    ensures { result.now ≡ last_part name.entry.now }
{
    let mut start = 0;
    for index in 0..name.len() {
        if name[index] == b'/' {
            start = index + 1;
        }
    }
    &name[start..]
}
