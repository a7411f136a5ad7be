//! The rows that the dual network simplex works on, and its pivots.
use crate::breakpoints::{Breakpoint, Turn};
use crate::goals::Goals;
use crate::heights::{Heights, Stage};
use crate::line_search::{Line, LineSearch};
use crate::links::Link;
use crate::parts::Part;
use crate::pricing::Pricing;
use crate::residual_arcs::ResidualArc;
use crate::scales::Scale;
use crate::sides::Sides;
use crate::trees::{Tree, Up};
use std::alloc::{AllocError, Global};

/// How many pivots there may be for each vertex. In no network tried were there more than three.
const PIVOTS_OF_A_VERTEX: u32 = 16;

/// A dual network simplex with long steps.
///
/// Links of the tree are tight: their reduced costs are 0. All others are at the bound of their reduced
/// cost's sign, and all vertices balance. What may be wrong is that a tree link carries more than its
/// weight; where none does, flows and heights are optimal.
#[derive(Drop)]
pub(crate) struct Simplex {
    pub links: Vec<Link>,
    pub sides: Sides,
    pub goals: Goals,
    pub heights: Heights,
    pub tree: Tree,
    pub part: Part,
    pub search: LineSearch,
    pub scale: Scale,
    pricing: Pricing,
    /// How many pivots there may still be for these links.
    pivots_left: u32,
}

/// What leaves in a pivot, and what moves then.
#[derive(Clone, Copy)]
struct Leaving {
    vertex: u32,
    /// Its way up, as it was before.
    up: Up,
    /// Whether its branch moves, and not the rest.
    is_branch: bool,
    /// Whether the part moves up.
    is_up: bool,
}

impl Simplex {
    /// Rows for so many vertices and links.
    pub fn new(alloc: Global, vertices: u32, links: usize) -> Result<Simplex, AllocError> {
        Ok(Simplex {
            links: vec![in alloc; Link::NONE; links]?,
            sides: Sides::new(alloc, vertices, links)?,
            goals: Goals::new(alloc, links)?,
            heights: Heights::new(alloc, vertices)?,
            tree: Tree::new(alloc, vertices)?,
            part: Part::new(alloc, vertices)?,
            search: LineSearch::new(alloc, links)?,
            scale: Scale::PLAIN,
            pricing: Pricing::new(),
            pivots_left: 0,
        })
    }

    /// Begins with the links as they are now: no vertex is planted.
    pub fn clear(&mut self) -> Option<()> {
        self.scale = Scale::PLAIN;
        self.sides.list(&self.links)?;
        self.goals.clear(&self.links)?;
        self.pricing.clear();
        self.pivots_left = PIVOTS_OF_A_VERTEX.checked_mul(self.heights.count())?;
        self.uproot();
        Some(())
    }

    /// Takes all vertices out of the tree.
    pub fn uproot(&mut self) {
        self.heights.clear();
        self.tree.clear();
        self.part.clear();
    }

    /// Measures all rises by a scale.
    pub fn measure(&mut self, scale: Scale) -> Option<()> {
        self.scale = scale;
        self.sides.measure(&self.links, scale)
    }

    /// The vertices that a residual arc leads from and to.
    #[inline]
    pub fn ends(&self, arc: ResidualArc) -> Option<(u32, u32)> {
        let link = self.links.get(arc.row())?;
        if arc.is_forward() {
            Some((link.tail, link.head))
        } else {
            Some((link.head, link.tail))
        }
    }

    /// Takes the whole tree as the part.
    pub fn gather_all(&mut self) -> Option<()> {
        self.part
            .gather_branch(&self.tree.families, &mut self.heights, 0)
    }

    /// Sets the heights of the part, which is the whole tree, from vertex 0 on, so that its links are tight.
    pub fn climb(&mut self) -> Option<()> {
        self.heights.at_mut(0)?.height = 0;
        for vertex in self.part.vertices.iter().skip(1) {
            let up = self.tree.up(*vertex)?;
            let link = self.links.get(up.arc.row())?;
            let rise = self.scale.difference(up.arc.place(), link.difference)?;
            let parent = self.heights.at(up.parent)?.height;
            self.heights.at_mut(*vertex)?.height = if up.arc.is_forward() {
                parent.checked_sub(rise)?
            } else {
                parent.checked_add(rise)?
            };
        }
        Some(())
    }

    /// Sets all flows as the heights demand, and the flows of the part, which is the whole tree, so that all
    /// vertices balance; and sums up sizes.
    pub fn balance(&mut self) -> Option<()> {
        for vertex in &self.part.vertices {
            let size = self.sides.count(*vertex)?;
            self.tree.reset(*vertex, size)?;
        }
        for (place, link) in self.links.iter().enumerate() {
            let is_planted = self.heights.at(link.tail)?.stage == Stage::Planted
                && self.heights.at(link.head)?.stage == Stage::Planted;
            if is_planted {
                let number = u32::try_from(place).ok()?;
                let difference = self.scale.difference(number, link.difference)?;
                let gained = self.heights.reduced(link, difference)?;
                let flow = self.goals.fill(place, gained)?;
                self.tree.arrive(link.tail, flow.checked_neg()?)?;
                self.tree.arrive(link.head, flow)?;
            }
        }
        for vertex in self.part.vertices.iter().skip(1).rev() {
            self.tree.add_to_parent(*vertex)?;
        }
        Some(())
    }

    /// Pivots until no tree link carries more than its weight; `None` where no pivot is left for that.
    pub fn pivot_all(&mut self) -> Option<()> {
        for _ in 0..self.pivots_left {
            if !self.pivot()? {
                return Some(());
            }
            self.pivots_left = self.pivots_left.checked_sub(1)?;
        }
        None
    }

    /// One pivot: false where no tree link carries more than its weight.
    fn pivot(&mut self) -> Option<bool> {
        let vertex = self.pricing.leaving(&self.tree)?;
        if vertex == 0 {
            return Some(false);
        }
        let leaving = self.leave(vertex)?;
        let excess = leaving.up.flow.checked_abs()?;
        let turn = self.search.run(Line {
            sides: &self.sides,
            heights: &self.heights,
            goals: &self.goals,
            part: &self.part,
            is_up: leaving.is_up,
            slope: excess.checked_sub(i64::from(leaving.up.weight))?,
            leaving: leaving.up.arc.place(),
        })?;
        self.pass(leaving, turn)?;
        self.enter(leaving, turn)?;
        Some(true)
    }

    /// Cuts a vertex's way up, and takes the smaller side as the part that moves.
    fn leave(&mut self, vertex: u32) -> Option<Leaving> {
        let up = self.tree.up(vertex)?;
        let rest = self.tree.up(0)?.size.checked_sub(up.size)?;
        let is_branch = up.size <= rest;
        if is_branch {
            self.part
                .gather_branch(&self.tree.families, &mut self.heights, vertex)?;
        } else {
            self.part
                .gather_rest(&self.tree.families, &mut self.heights, vertex)?;
        }
        Some(Leaving {
            vertex,
            up,
            is_branch,
            is_up: is_branch == (up.flow > 0),
        })
    }

    /// Sends the links whose breakpoints are passed from one bound to the other.
    fn pass(&mut self, leaving: Leaving, turn: Turn) -> Option<()> {
        for place in 0..turn.place {
            let point = self.search.breakpoints.at(place)?;
            let arc = turned(point, leaving.is_up);
            self.goals.send(arc, point.room)?;
            let (tail, head) = self.ends(arc)?;
            self.tree.send_round(tail, head, i64::from(point.room))?;
        }
        Some(())
    }

    /// Moves the part as far as the breakpoint at the turn, and takes its link into the tree.
    fn enter(&mut self, leaving: Leaving, turn: Turn) -> Option<()> {
        let point = self.search.breakpoints.at(turn.place)?;
        let (tail, head) = self.ends(turned(point, leaving.is_up))?;
        let join = self.tree.send_round(tail, head, turn.left)?;
        let rise = if leaving.is_up {
            point.way
        } else {
            point.way.checked_neg()?
        };
        self.part.raise(&mut self.heights, rise)?;
        self.heights.settle_down()?;
        let kept = self.tree.up(leaving.vertex)?.flow;
        self.goals.set(leaving.up.arc, kept)?;
        let up = self.entering(leaving, turn, point)?;
        let (inner, _) = self.ends(up.arc)?;
        self.tree.exchange(leaving.vertex, inner, up, join)
    }

    /// The way up by which the entering link leads out of the branch.
    fn entering(&mut self, leaving: Leaving, turn: Turn, point: Breakpoint) -> Option<Up> {
        let arc = turned(point, leaving.is_branch);
        let (_, parent) = self.ends(arc)?;
        let more = if leaving.is_up == leaving.is_branch {
            turn.left
        } else {
            turn.left.checked_neg()?
        };
        let flow = self.goals.along(arc)?.checked_add(more)?;
        let weight = u32::try_from(self.goals.at(arc)?.weight).ok()?;
        self.goals.set(arc, 0)?;
        Some(Up {
            parent,
            arc,
            size: leaving.up.size,
            weight,
            flow,
        })
    }

    /// Writes the flows on the tree's links among those of all links.
    pub fn write_tree_flows(&mut self) -> Option<()> {
        for up in self.tree.ups().iter().skip(1) {
            self.goals.set(up.arc, up.flow)?;
        }
        Some(())
    }

    /// Whether each link that is not tight is at the bound that its reduced cost demands.
    pub fn is_optimal(&self) -> Option<bool> {
        for (place, link) in self.links.iter().enumerate() {
            let number = u32::try_from(place).ok()?;
            let difference = self.scale.difference(number, link.difference)?;
            let gained = self.heights.reduced(link, difference)?;
            let goal = self.goals.at(ResidualArc::along(number)?)?;
            if gained != 0 && goal.room(gained > 0)? > 0 {
                return Some(false);
            }
        }
        Some(true)
    }
}

/// The arc of a breakpoint, or the one that leads back.
#[inline]
fn turned(point: Breakpoint, is_same: bool) -> ResidualArc {
    if is_same {
        point.arc
    } else {
        point.arc.reversed()
    }
}
