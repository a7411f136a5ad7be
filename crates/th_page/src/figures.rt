//! The figure: the picture with its caption and its legend.
ghost use Rattle.std.specs.Prelude.{◌≡◌, ◌++◌, OnOk, decimal};
ghost use Rattle.th_page.specs.Figures.{figure_text, undrawn_note, undrawn_text};

use crate::fixed::{write_caption_text, write_picture_start};
use itoa::Buffer;
use std::alloc::AllocError;
use th_columns::Page;
use th_picture::{DrawnPoint, DrawnSight, undrawn_count, write_legend, write_picture};

/// Writes the picture with its caption and its legend, if so many numbers explain most.
#[tactic(auto, unfolding(crate::specs::Figures::figure_text))]
pub(crate) fn write_figure(
    page: &mut Page,
    points: &[DrawnPoint],
    sights: &[DrawnSight],
    firsts: u64,
) -> Result<(), AllocError>
    ensures { OnOk result (page.new ≡ page.old ++ figure_text points.now sights.now firsts) }
{
    write_picture_start(page)?;
    write_picture(page, points, sights)?;
    page.add(b"</div>\n")?;
    write_legend(page, sights, firsts)?;
    write_undrawn(page, undrawn_count(sights))?;
    write_caption_text(page)
}

/// Writes how many sights are not drawn, if any are not.
fn write_undrawn(page: &mut Page, count: u128) -> Result<(), AllocError>
    ensures { OnOk result (page.new ≡ page.old ++ undrawn_text count) }
{
    if count == 0 {
        Ok(())
    } else {
        write_undrawn_note(page, count)
    }
}

/// Writes how many sights are not drawn.
#[tactic(auto, unfolding(crate::specs::Figures::undrawn_note))]
fn write_undrawn_note(page: &mut Page, count: u128) -> Result<(), AllocError>
    ensures { OnOk result (page.new ≡ page.old ++ undrawn_note count) }
{
    page.add(b"<p>Not drawn, because they are too many: ")?;
    write_count(page, count)?;
    page.add(b" sights.</p>\n")
}

/// Writes a count in decimal.
fn write_count(page: &mut Page, count: u128) -> Result<(), AllocError>
    ensures { OnOk result (page.new ≡ page.old ++ decimal count) }
{
    let mut digits = Buffer::new();
    page.add(digits.format(count).as_bytes())
}
