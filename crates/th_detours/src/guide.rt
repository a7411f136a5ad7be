//! The guide's proposals: closed walks that send back what flows through a number.
use crate::groups::{End, Group};
use crate::links::Link;
use crate::neighbours::{Neighbours, Pair, Wanted};
use crate::parted::Parted;
use crate::searches::{Bounds, Search};
use crate::sums::Sum;
use crate::surplus::{Aim, Surplus};
use std::alloc::{AllocError, Global};
use th_guide::{ResidualArc, push_if_room};

/// How many walks a proposal has at most.
const MOST_WALKS: usize = 1_024;

/// How many walks lead over neighbours at most.
const MOST_OVER_NEIGHBOURS: usize = 2_048;

/// How many arcs the walks have room for at least.
const LEAST_ARCS: usize = 16_384;

/// How many arcs the walks have room for, for each vertex.
const ARCS_OF_EACH: usize = 64;

/// Each link of a path counts as much more as this part of a good path's length. The flows of a tree
/// that ties all points have no length, and a search would wander over all of them.
const TOLL: u64 = 16;

const FINE_TOLL: u64 = 128;

/// How many vertices the searches for a proposal reach at most, together: in the best flows, and in others.
const MOST_TOUCHED: usize = 4_000;

const MOST_TOUCHED_FROM: usize = 1_000;

/// Which path is looked for: one that is no longer than `far`. Of what is left beside the number's own link, a good one
/// leaves a part, and each link counts as a part more. The search reaches no more than so many vertices.
#[derive(Clone, Copy)]
struct Path {
    far: u64,
    part: u64,
    toll: u64,
    most: usize,
}

/// A closed walk, and how much is to be sent round it.
#[derive(Clone, Copy)]
pub struct Walk {
    pub amount: u32,
    /// Where its arcs begin and end among those of the proposal.
    start: usize,
    end: usize,
}

/// What proposes walks. Nothing is promised of the proposals.
#[derive(Drop)]
pub struct Guide {
    /// The network, from which the ends of a number are parted.
    network: Parted,
    neighbours: Neighbours,
    search: Search,
    /// The path that was found last.
    path: Vec<ResidualArc>,
    walks: Vec<Walk>,
    arcs: Vec<ResidualArc>,
}

impl Guide {
    /// A guide for so many vertices and links; it has all the memory that it needs.
    pub fn new(alloc: Global, vertices: u32, links: usize) -> Result<Guide, AllocError> {
        let all = (vertices as usize).saturating_add(1);
        Ok(Guide {
            network: Parted::new(alloc, vertices, links)?,
            neighbours: Neighbours::new(alloc, all)?,
            search: Search::new(alloc, all)?,
            path: Vec::with_capacity(alloc, all.saturating_mul(2))?,
            walks: Vec::with_capacity(alloc, MOST_WALKS + MOST_OVER_NEIGHBOURS)?,
            arcs: Vec::with_capacity(alloc, LEAST_ARCS.max(all.saturating_mul(ARCS_OF_EACH)))?,
        })
    }

    /// Sets the link at a place, from 0.
    pub fn set_link(&mut self, place: usize, link: Link) {
        self.network.set_link(place, link);
    }

    /// Begins with the links that were set.
    pub fn start(&mut self) -> Option<()> {
        self.network.start()
    }

    /// Marks an end of the link at a place, or none.
    pub fn mark(&mut self, place: usize, end: Option<End>) {
        self.network.mark(place, end);
    }

    /// Proposes walks for a number with these ends, which are those of one vertex, from which `need`
    /// flows into the links. Together the walks send back all of it, and more: they cost at most
    /// the limit for each unit that is sent beyond the need.
    pub fn propose(&mut self, group: Group, base: u32, need: i64, limit: u64) -> Option<()> {
        self.begin(group, base)?;
        let found = self.gather(need, limit);
        let undone = self.undo();
        found.and(undone)
    }

    /// Proposes walks that send back all that flows through a number and cost less than `worth`, or no
    /// more.
    pub fn propose_below(&mut self, group: Group, base: u32, need: i64, worth: u64) -> Option<()> {
        self.begin(group, base)?;
        let found = self.gather_below(need, worth, TOLL);
        self.undo()?;
        if found.is_some() {
            return found;
        }
        self.begin(group, base)?;
        let found = self.gather_below(need, worth, FINE_TOLL);
        self.undo()?;
        found
    }

    /// Takes flows that are not the best ones, from which `propose_from` goes on.
    pub fn load(&mut self, flows: &[i64]) {
        self.network.load(flows);
    }

    /// Proposes walks that send back all that flows through a number in flows that were loaded, and more, until the
    /// number explains no more than the aim says.
    pub fn propose_from(&mut self, group: Group, base: u32, aim: &Aim) -> Option<()> {
        for fine in [1, 4] {
            self.begin(group, base)?;
            let found = self.gather_from(aim, fine);
            self.undo()?;
            if found.is_some() {
                return found;
            }
        }
        None
    }

    /// The walks of the last proposal.
    pub fn walks(&self) -> &[Walk] {
        &self.walks
    }

    /// The vertex of the number for which walks were proposed last. All of them begin and end there.
    pub fn base(&self) -> u32 {
        self.network.base()
    }

    /// The arcs of a walk, in the order in which they lead round.
    pub fn arcs(&self, walk: &Walk) -> &[ResidualArc] {
        self.arcs.get(walk.start..walk.end).unwrap_or(&[])
    }

    /// Begins a proposal for a number with these ends.
    fn begin(&mut self, group: Group, base: u32) -> Option<()> {
        self.walks.clear();
        self.arcs.clear();
        self.network.part(group, base)
    }

    fn gather(&mut self, need: i64, limit: u64) -> Option<()> {
        let mut sum = Sum::of(need);
        if self.go_over_neighbours(need, limit, &mut sum)? {
            return Some(());
        }
        let mut touched = 0usize;
        for _ in 0..MOST_WALKS {
            let most = MOST_TOUCHED.checked_sub(touched)?;
            self.find(
                need,
                Path {
                    far: limit,
                    part: 2,
                    toll: TOLL,
                    most,
                },
            )?;
            touched = touched.checked_add(self.search.touched())?;
            let length = self.length()?;
            let wanted = sum.wanted(limit, length)?;
            let amount = wanted.min(self.room()?);
            self.send(amount)?;
            sum.add(amount, length)?;
            if sum.due(limit)? == 0 {
                return Some(());
            }
        }
        None
    }

    /// Sends flow back over the vertices at the other ends of the number's links. Returns whether nothing is
    /// missing then.
    fn go_over_neighbours(&mut self, need: i64, limit: u64, sum: &mut Sum) -> Option<bool> {
        self.neighbours.begin(&self.network)?;
        for _ in 0..MOST_OVER_NEIGHBOURS {
            let Some(pair) = self.next_pair(need, limit / 4) else {
                return Some(false);
            };
            self.take(pair, need)?;
            let length = self.length()?;
            let Some(wanted) = sum.wanted(limit, length) else {
                return Some(false);
            };
            let amount = wanted.min(self.room()?);
            self.send(amount)?;
            sum.add(amount, length)?;
            if sum.due(limit)? == 0 {
                return Some(true);
            }
        }
        Some(false)
    }

    /// The next path over a neighbour.
    fn next_pair(&mut self, need: i64, most: u64) -> Option<Pair> {
        let wanted = Wanted {
            is_back: need < 0,
            most,
        };
        self.neighbours.next(&self.network, wanted)
    }

    /// Takes a path over a neighbour as the one to send flow along.
    fn take(&mut self, pair: Pair, need: i64) -> Option<()> {
        let path = &mut self.path;
        path.clear();
        if need > 0 {
            push_if_room(path, pair.there)?;
            push_if_room(path, pair.on)
        } else {
            push_if_room(path, pair.on.reversed())?;
            push_if_room(path, pair.there.reversed())
        }
    }

    fn gather_below(&mut self, need: i64, worth: u64, toll: u64) -> Option<()> {
        let mut left = need.unsigned_abs();
        let mut worth = worth;
        let mut touched = 0usize;
        for _ in 0..MOST_WALKS {
            let far = worth.checked_div(left)?;
            let most = MOST_TOUCHED.checked_sub(touched)?;
            self.find(
                need,
                Path {
                    far,
                    part: 4,
                    toll,
                    most,
                },
            )?;
            touched = touched.checked_add(self.search.touched())?;
            let length = self.length()?;
            let amount = left.min(self.room()?);
            self.send(amount)?;
            worth = worth.checked_sub(amount.checked_mul(length)?)?;
            left = left.checked_sub(amount)?;
            if left == 0 {
                return Some(());
            }
        }
        None
    }

    fn gather_from(&mut self, aim: &Aim, fine: u64) -> Option<()> {
        let mut surplus = Surplus::of(aim);
        let mut touched = 0usize;
        for _ in 0..MOST_WALKS {
            let most = MOST_TOUCHED_FROM.checked_sub(touched)?;
            let good = surplus.good(aim, fine)?;
            self.find_within(aim.need, good, fine, most)?;
            touched = touched.checked_add(self.search.touched())?;
            let amount = surplus.wanted(aim)?.min(self.room()?);
            let cost = self.network.cost(&self.path)?;
            self.send(amount)?;
            surplus.take(amount, cost)?;
            if surplus.shows(aim)? {
                return Some(());
            }
        }
        None
    }

    /// From where to where what flows through the number is sent back.
    fn course(&self, need: i64) -> (u32, u32) {
        if need > 0 {
            (self.network.base(), self.network.spare())
        } else {
            (self.network.spare(), self.network.base())
        }
    }

    /// Finds a path from the base to the spare vertex, or back. All of them go over a link of the number.
    fn find(&mut self, need: i64, path: Path) -> Option<()> {
        let room = path.far.checked_sub(self.network.least_own())?;
        let left = room.checked_div(path.part)?;
        let bounds = Bounds {
            good: path.far.checked_sub(left)?,
            far: path.far,
            toll: room.checked_sub(left)?.checked_div(path.toll)?,
            steps: u32::try_from(path.most).ok()?,
        };
        self.search_for(need, bounds)
    }

    /// Finds a path that is about as long as a good one beside a link of the number, and reaches no more than so many
    /// vertices.
    fn find_within(&mut self, need: i64, good: u64, fine: u64, most: usize) -> Option<()> {
        let own = self.network.least_own();
        let far = good.checked_mul(fine)?.checked_mul(2)?;
        let bounds = Bounds {
            good: own.checked_add(good)?,
            far: own.checked_add(far)?,
            toll: good.checked_div(TOLL)?,
            steps: u32::try_from(most).ok()?,
        };
        self.search_for(need, bounds)
    }

    /// Searches for a path from the base to the spare vertex, or back.
    fn search_for(&mut self, need: i64, bounds: Bounds) -> Option<()> {
        let ends = self.course(need);
        self.search.run(&mut self.path, &self.network, ends, bounds)
    }

    /// How long the path is.
    fn length(&self) -> Option<u64> {
        self.network.length(&self.path)
    }

    /// How much can flow along the path.
    fn room(&self) -> Option<u64> {
        self.network.room(&self.path)
    }

    /// Sends so much along the path, and adds the walk.
    fn send(&mut self, amount: u64) -> Option<()> {
        let amount = u32::try_from(amount).ok()?;
        let start = self.arcs.len();
        let end = start.checked_add(self.path.len())?;
        if end > self.arcs.capacity() {
            return None;
        }
        for arc in &self.path {
            push_if_room(&mut self.arcs, *arc)?;
            self.network.send(*arc, amount)?;
        }
        push_if_room(&mut self.walks, Walk { amount, start, end })
    }

    /// Sends everything back.
    fn undo(&mut self) -> Option<()> {
        for walk in &self.walks {
            for arc in self.arcs.get(walk.start..walk.end)? {
                self.network.send(arc.reversed(), walk.amount)?;
            }
        }
        Some(())
    }
}
