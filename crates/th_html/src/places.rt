//! Where a sight is in the books, and what it joins.
ghost use Rattle.std.specs.Prelude.{◌≡◌, ◌++◌, OnOk};
ghost use Rattle.th_html.specs.Places.{ends_text, found_text, place_text};

use crate::lengths::write_signed;
use crate::texts::{write_escaped, write_number};
use std::alloc::AllocError;
use th_columns::Page;
use th_observations::Observation;
use th_review_rows::ObservationRow;

/// Writes a line of a book, both from 1.
#[tactic(auto, unfolding(crate::specs::Places::place_text))]
pub fn write_place(page: &mut Page, book: u32, line: u32) -> Result<(), AllocError>
    ensures { OnOk result (page.new ≡ page.old ++ place_text book line) }
{
    write_number(page, u64::from(book))?;
    page.add(b":")?;
    write_number(page, u64::from(line))
}

/// Writes the place and the ends of a sight.
#[tactic(auto, unfolding(crate::specs::Places::ends_text))]
pub fn write_ends(page: &mut Page, o: &Observation) -> Result<(), AllocError>
    ensures { OnOk result (page.new ≡ page.old ++ ends_text o.now) }
{
    write_place(page, o.book, o.line)?;
    page.add(b" ")?;
    write_escaped(page, o.station.as_bytes())?;
    page.add(b" to ")?;
    write_escaped(page, o.target.as_bytes())
}

/// Writes a sight and its residual.
#[tactic(auto, unfolding(crate::specs::Places::found_text))]
pub fn write_found(page: &mut Page, row: &ObservationRow) -> Result<(), AllocError>
    ensures { OnOk result (page.new ≡ page.old ++ found_text row.now) }
{
    write_ends(page, &row.observation)?;
    page.add(b", ")?;
    write_signed(page, row.residual)
}
