//! The rows of a page with what the answer says of them.
ghost use Rattle.std.specs.Prelude.{◌≡◌, IfOk};
ghost use Rattle.th_page.specs.Contents.{joined_by, joined_of, shown_by};

use crate::contents::Shown;
use std::alloc::{AllocError, Global};
use th_html::{ShownBenchmark, ShownPoint, shown_benchmarks, shown_points};
use th_picture::{DrawnPoint, DrawnSight, drawn_points, drawn_sights};

/// The rows of a page, each with what the answer says of it.
#[derive(Drop)]
pub(crate) struct Joined {
    /// The points, with what moves them.
    pub points: Vec<ShownPoint>,
    /// The benchmarks, with what the others say of them.
    pub benchmarks: Vec<ShownBenchmark>,
    /// The points as they are drawn.
    pub dots: Vec<DrawnPoint>,
    /// The sights with their groups, as they are drawn.
    pub sights: Vec<DrawnSight>,
}

/// The rows of a page with what the answer says of them.
pub(crate) fn joined_of(alloc: Global, shown: &Shown<'_>) -> Result<Joined, AllocError>
    ensures { IfOk result (λ joined. joined_by joined ≡ joined_of (shown_by shown.now)) }
{
    let answer = shown.explained.answer;
    let points = shown_points(alloc, shown.points, &answer.moved)?;
    let benchmarks = shown_benchmarks(alloc, shown.benchmarks, &answer.others)?;
    let dots = drawn_points(alloc, shown.points, &answer.drawn)?;
    let sights = drawn_sights(alloc, shown.sights, &answer.groups, &answer.drawn)?;
    Ok(Joined {
        points,
        benchmarks,
        dots,
        sights,
    })
}
