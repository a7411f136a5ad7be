//! What is left if a number is freed, by three circulations: one before, one with nothing that flows through the
//! number, and one behind.
ghost use Rattle.std.specs.Prelude.{◌≡◌, IfSome};
ghost use Rattle.th_explain.specs.Explained.{IsExact};
ghost use Rattle.th_explain.specs.Inside.Turns.{AreLines};

use crate::freed::{Freed, freed_at};
use th_changes::{Case, Line, Number, sloped};

/// What three circulations say of a number.
#[derive(Clone, Copy)]
pub(crate) struct Turn {
    /// What flows through the number has the sign that it has in the best flows.
    pub before: Line,
    /// Nothing flows through the number.
    pub flat: Line,
    /// It has the other sign.
    pub behind: Line,
}

/// A change of a number, and heights of the vertices that are proposed to be best then.
#[derive(Clone, Copy)]
pub(crate) struct Level<'a> {
    pub change: i64,
    pub heights: &'a [i64],
}

impl<'a> Level<'a> {
    /// For a change these heights.
    pub fn of(change: i64, heights: &'a [i64]) -> Level<'a> {
        Level { change, heights }
    }
}

/// What is left if a number is freed, if the heights at the near change are best for the flows before and without
/// net, and those at the far change for the flows behind.
pub(crate) fn freed_by_turn(
    case: &Case<'_>,
    number: &Number,
    turn: &Turn,
    near: Level<'_>,
    far: Level<'_>,
) -> Option<Freed>
    requires { AreLines case.now.network.now number.now case.now.cost turn.now }
    ensures { IfSome result (IsExact case.now.network.now number.now) }
{
    let first = sloped(case, number, &turn.before, near.change, near.heights)?;
    let flat = sloped(case, number, &turn.flat, near.change, near.heights)?;
    let last = sloped(case, number, &turn.behind, far.change, far.heights)?;
    if first.slope < 0 {
        freed_at(case.network, number, &first, &flat, &last)
    } else {
        freed_at(case.network, number, &last, &flat, &first)
    }
}

/// The change of this size where the cost rises or falls so steeply: towards less.
pub(crate) fn change_of(net: i64, size: u64) -> Option<i64> {
    let size = i64::try_from(size).ok()?;
    if net < 0 {
        Some(size)
    } else {
        size.checked_neg()
    }
}
