//! The columns of a table of differences.
ghost use Rattle.std.specs.Prelude.{◌≡◌, MatchOption, None, Some};
ghost use Rattle.th_conversions.specs.Rows.{are_headings};

use th_csv::Record;

/// The columns of a table, by its header.
#[derive(Clone, Copy, Debug, PartialEq, Eq)]
pub(crate) enum Columns {
    /// `from,to,difference`.
    Plain,
    /// `number,from,to,difference`, as in a list. The numbers are not read.
    Numbered,
}

impl Columns {
    ghost use Rattle.th_conversions.specs.Rows.{columns_of, fields_read};

    /// The columns that a header names; `None` for any other record.
    pub(crate) fn of(header: &Record) -> Option<Columns>
        ensures { result ≡ columns_of header.now }
    {
        if let Some((from, to, difference)) = header.three() {
            return if are_headings(from, to, difference) {
                Some(Columns::Plain)
            } else {
                None
            };
        }
        match header.four() {
            Some((number, from, to, difference))
                if number == b"number".as_slice() && are_headings(from, to, difference) => {
                Some(Columns::Numbered)
            }
            _ => None,
        }
    }

    /// The fields of a record that are read: from, to and difference. `None` if it has more or fewer
    /// fields than the header.
    pub(crate) fn fields(self, row: &Record) -> Option<(&[u8], &[u8], &[u8])>
        ensures { MatchOption result (fields_read self row.now ≡ None) (λ fields.
            fields_read self row.now ≡ Some (fields.0.now, fields.1.now, fields.2.now)) }
    {
        match self {
            Columns::Plain => row.three(),
            Columns::Numbered => {
                let (_, from, to, difference) = row.four()?;
                Some((from, to, difference))
            }
        }
    }
}

/// Whether three fields are the headings `from`, `to` and `difference`.
fn are_headings(from: &[u8], to: &[u8], difference: &[u8]) -> bool
    ensures { result ≡ are_headings from.now to.now difference.now }
{
    from == b"from".as_slice() && to == b"to".as_slice() && difference == b"difference".as_slice()
}
