//! The columns of what would move and of what would be blamed.
ghost use Rattle.std.specs.Prelude.{◌≡◌, ◌++◌, OnOk};
ghost use Rattle.th_review_texts.specs.Reviews.{moved_columns};
ghost use Rattle.th_review_rows.specs.Words.{blames_of, moves_of, number_or_dash};

use itoa::Buffer;
use std::alloc::AllocError;
use th_columns::Page;
use th_reliability::Blame;
use th_review_rows::{blames_of, count_or_dash, moves_of};

/// Writes how many points a mistake would move, how many observations would be blamed for it, and a
/// mark; a dash each where it shows.
pub(crate) fn write_moved(
    page: &mut Page,
    blame: Option<Blame>,
    mark: &[u8],
) -> Result<(), AllocError>
    ensures { OnOk result (page.new ≡ page.old ++ moved_columns (number_or_dash (moves_of blame))
        (number_or_dash (blames_of blame)) mark.now) }
{
    let mut moves = Buffer::new();
    let mut blames = Buffer::new();
    write_moved_columns(
        page,
        count_or_dash(&mut moves, moves_of(blame)),
        count_or_dash(&mut blames, blames_of(blame)),
        mark,
    )
}

/// Writes the columns of what would move and be blamed, and a mark, and ends the line.
#[tactic(auto, unfolding(crate::specs::Reviews::moved_columns))]
pub(crate) fn write_moved_columns(
    page: &mut Page,
    moves: &[u8],
    blames: &[u8],
    mark: &[u8],
) -> Result<(), AllocError>
    ensures { OnOk result (page.new ≡ page.old ++ moved_columns moves.now blames.now mark.now) }
{
    page.gap_right(6, moves)?;
    page.gap_right(6, blames)?;
    page.add(mark)?;
    page.end_line()
}
