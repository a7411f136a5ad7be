//! The line search of a pivot: breakpoints that a moving part meets, up to the turn of the slope.
use crate::breakpoints::{Breakpoints, Turn};
use crate::goals::Goals;
use crate::heights::{Heights, Stage};
use crate::parts::Part;
use crate::sides::{Side, Sides};
use std::alloc::{AllocError, Global};

/// How many breakpoints are kept before those behind the turn are left out.
const FEW: usize = 16;

/// What a line search goes by.
#[derive(Clone, Copy)]
pub(crate) struct Line<'a> {
    pub sides: &'a Sides,
    pub heights: &'a Heights,
    pub goals: &'a Goals,
    /// The part that moves.
    pub part: &'a Part,
    /// Whether it moves up, and not down.
    pub is_up: bool,
    /// How steep it is at first: what flows over the leaving arc above its weight.
    pub slope: i64,
    /// The place of the link that leaves.
    pub leaving: u32,
}

/// A line search: how far a part moves until the cost would rise again.
#[derive(Drop)]
pub(crate) struct LineSearch {
    pub breakpoints: Breakpoints,
    /// Breakpoints behind this are not needed.
    far: i64,
    /// How many breakpoints there may be before those that are not needed are left out.
    limit: usize,
}

impl LineSearch {
    /// A search among at most so many breakpoints.
    pub fn new(alloc: Global, most: usize) -> Result<LineSearch, AllocError> {
        let breakpoints = Breakpoints::new(alloc, most)?;
        Ok(LineSearch {
            breakpoints,
            far: i64::MAX,
            limit: FEW,
        })
    }

    /// Finds where the slope turns; the breakpoints that are passed are in front of it.
    pub fn run(&mut self, line: Line) -> Option<Turn> {
        self.breakpoints.clear();
        self.far = i64::MAX;
        self.limit = FEW;
        for vertex in &line.part.vertices {
            let height = line.heights.at(*vertex)?.height;
            self.look(line, line.sides.of(*vertex)?, height)?;
        }
        self.breakpoints.select(line.slope)
    }

    /// Looks at the sides of a vertex of the part, which has this height.
    fn look(&mut self, line: Line, sides: &[Side], height: i64) -> Option<()> {
        for side in sides {
            let other = line.heights.at(side.other)?;
            let fit = other.height.checked_sub(side.rise)?;
            let way = if line.is_up {
                fit.checked_sub(height)?
            } else {
                height.checked_sub(fit)?
            };
            let is_inside = other.part == line.part.number;
            let is_absent = other.stage != Stage::Planted;
            // One jump and not four, since which of them holds is as good as random.
            if (way < 0) | (way >= self.far) | is_inside | is_absent {
                continue;
            }
            self.meet(line, side, way)?;
        }
        Some(())
    }

    /// Meets a link that is on the way.
    fn meet(&mut self, line: Line, side: &Side, way: i64) -> Option<()> {
        if side.arc.place() == line.leaving {
            return Some(());
        }
        let goal = line.goals.at(side.arc)?;
        let room = goal.room(side.arc.is_forward() == line.is_up)?;
        if room <= 0 {
            return Some(());
        }
        self.breakpoints.add(way, side.arc, room)?;
        if self.breakpoints.rows.len() >= self.limit && self.breakpoints.room >= line.slope {
            self.leave_out(line.slope)?;
        }
        Some(())
    }

    /// Leaves out the breakpoints behind the turn so far.
    fn leave_out(&mut self, slope: i64) -> Option<()> {
        let turn = self.breakpoints.select(slope)?;
        self.far = self.breakpoints.at(turn.place)?.way;
        self.breakpoints.keep_to(turn.place)?;
        if turn.place.checked_mul(2)? > self.limit {
            self.limit = self.limit.checked_mul(2)?;
        }
        Some(())
    }
}
