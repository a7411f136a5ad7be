//! Which two circulations show most of a number. Nothing is promised: whoever takes a pair checks it.
use th_changes::Line;

/// How often the better one of a pair is looked for anew.
const ROUNDS: usize = 4;

/// What flows through a number by a line that is nearly level is at most this part of what does in the best flows.
const NEARLY_LEVEL: u64 = 8;

/// The places of two circulations; the best flows stand for the first, if it is none.
#[derive(Clone, Copy)]
pub(crate) struct Pair {
    pub first: Option<usize>,
    pub second: usize,
}

/// The pair of lines, or of a line and the one of the best flows, whose level mean loses least.
pub(crate) fn best_pair(lines: &[Line], given: &Line) -> Option<Pair> {
    let (mut first, mut first_line) = (None, *given);
    let mut best = least_with(lines, &first_line)?;
    for _ in 0..ROUNDS {
        let second_line = *lines.get(best.place)?;
        let Some(other) = least_with(lines, &second_line) else {
            break;
        };
        if other.lost >= best.lost {
            break;
        }
        first = Some(other.place);
        first_line = *lines.get(other.place)?;
        best = least_with(lines, &first_line)?;
    }
    Some(Pair {
        first,
        second: best.place,
    })
}

/// The place of the line whose net is nearest to nothing, among those whose net has not the other sign. Of level lines it
/// is the one that loses least, of others the one that was kept first.
pub(crate) fn nearest_line(lines: &[Line], given: &Line) -> Option<usize> {
    let mut nearest: Option<(u64, i64, usize)> = None;
    for (place, line) in lines.iter().enumerate() {
        let lost = if line.net == 0 { line.lost } else { 0 };
        let own = (line.net.unsigned_abs(), lost, place);
        if (line.net == 0 || (line.net > 0) == (given.net > 0))
            && nearest.is_none_or(|other| own < other)
        {
            nearest = Some(own);
        }
    }
    let (_, _, place) = nearest?;
    Some(place)
}

/// The place of the nearly level line whose net is nearest to nothing, and of such lines of the one that loses least.
pub(crate) fn nearly_level_line(lines: &[Line], given: &Line) -> Option<usize> {
    let mut nearest: Option<(u64, i64, usize)> = None;
    for (place, line) in lines.iter().enumerate() {
        let own = (line.net.unsigned_abs(), line.lost, place);
        if is_nearly_level(line, given) && nearest.is_none_or(|other| own < other) {
            nearest = Some(own);
        }
    }
    let (_, _, place) = nearest?;
    Some(place)
}

/// Whether hardly anything flows through a number by a line, beside what does by the one of the best flows.
fn is_nearly_level(line: &Line, given: &Line) -> bool {
    line.net.unsigned_abs() <= given.net.unsigned_abs() / NEARLY_LEVEL
}

/// Whether one of the lines is nearly level.
pub(crate) fn is_one_nearly_level(lines: &[Line], given: &Line) -> bool {
    lines.iter().any(|line| is_nearly_level(line, given))
}

/// Whether less flows through a number by the line that is nearest to nothing than by the one of the best flows.
pub(crate) fn is_nearer(lines: &[Line], given: &Line) -> bool {
    match nearest_line(lines, given) {
        Some(place) => lines
            .get(place)
            .is_some_and(|own| own.net.unsigned_abs() < given.net.unsigned_abs()),
        None => false,
    }
}

/// The place of a line that shows, with the one of the best flows, that no change beyond a limit makes the network cost
/// less.
pub(crate) fn costly_line(lines: &[Line], given: &Line, limit: u64) -> Option<usize> {
    for (place, line) in lines.iter().enumerate() {
        if line.are_costly_beyond(given, limit) {
            return Some(place);
        }
    }
    None
}

/// A line, and what its level mean with another one loses.
#[derive(Clone, Copy)]
struct Mean {
    place: usize,
    lost: i128,
}

/// The line whose level mean with another one loses least.
fn least_with(lines: &[Line], other: &Line) -> Option<Mean> {
    let mut least: Option<Mean> = None;
    for (place, line) in lines.iter().enumerate() {
        if let Some(lost) = lost_by_mean(line, other)
            && least.is_none_or(|own| lost < own.lost)
        {
            least = Some(Mean { place, lost });
        }
    }
    least
}

/// What the level mean of two lines loses, if one rises where the other one does not.
fn lost_by_mean(line: &Line, other: &Line) -> Option<i128> {
    if line.net == 0 {
        return Some(i128::from(line.lost));
    }
    if (line.net > 0) == (other.net > 0) || other.net == 0 {
        return None;
    }
    let own = i128::from(other.net.unsigned_abs());
    let others = i128::from(line.net.unsigned_abs());
    let lost = own.checked_mul(i128::from(line.lost))?;
    let lost = lost.checked_add(others.checked_mul(i128::from(other.lost))?)?;
    lost.checked_div(own.checked_add(others)?)
}
