//! Coordinates in the text of a picture.
ghost use Rattle.std.specs.Prelude.{◌≡◌, ◌++◌, OnOk};
ghost use Rattle.th_picture.specs.Curves.{end_x, sighted_y, station_y, target_y};
ghost use Rattle.th_picture.specs.Lines.{pair_text};

use crate::drawn::DrawnSight;
use crate::scales::{Frame, moved, raised, x_of};
use std::alloc::AllocError;
use th_columns::Page;
use th_html::write_number;
use th_review_rows::End;

/// Writes two coordinates behind a text.
#[tactic(auto, unfolding(crate::specs::Lines::pair_text))]
pub fn write_pair(page: &mut Page, before: &[u8], x: u64, y: u64) -> Result<(), AllocError>
    ensures { OnOk result (page.new ≡ page.old ++ pair_text before.now x y) }
{
    page.add(before)?;
    write_number(page, x)?;
    page.add(b" ")?;
    write_number(page, y)
}

impl Frame {
    /// Where an end is, from left to right.
    pub(crate) fn end_x(&self, end: &End) -> u32
        ensures { result ≡ end_x self.now end.now }
    {
        x_of(end.place, self.points)
    }

    /// Where the station of a sight is, from above.
    pub(crate) fn station_y(&self, sight: &DrawnSight) -> u32
        ensures { result ≡ station_y self.now sight.now }
    {
        self.scale.height_y(sight.station_height)
    }

    /// Where the target of a sight is, from above.
    pub(crate) fn target_y(&self, sight: &DrawnSight) -> u32
        ensures { result ≡ target_y self.now sight.now }
    {
        self.scale.height_y(sight.target_height)
    }

    /// Where a sight puts its target, from above.
    pub(crate) fn sighted_y(&self, sight: &DrawnSight) -> u32
        ensures { result ≡ sighted_y self.now sight.now }
    {
        let station = raised(sight.station_height);
        self.scale
            .y_of(moved(station, sight.row.observation.difference()))
    }
}
