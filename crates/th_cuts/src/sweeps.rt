//! A sweep: much flow at once along ways of many lengths.
//!
//! From the source regions are reached, one after the other: within a region wide ways lead on, and narrow ways lead
//! to the next one, up to the first region where more may end. Wide ways join a region's vertices to trees. Then room
//! is pulled back from region to region: along the trees to where narrow ways lead in, and over these, until it is at
//! the source. A search by levels takes one search for each length of path, and two long heavy lines that many light
//! ways join have a thousand lengths. Only the speed of a flow depends on a sweep, so nothing is promised but that it
//! keeps the flow, and no index is taken for granted.
ghost use Rattle.std.specs.Prelude.{◌≡◌, ◌≤◌, IfOk, length};

use crate::edges::Way;
use crate::flows::Flow;
use std::alloc::{AllocError, Global};

/// A way is wide if this part of what is still to flow has room along it.
const WIDE_PART: u32 = 8;

/// Where a vertex is in the regions, and how room moves there.
#[derive(Clone, Copy)]
struct Place {
    /// The number of its region, from 0; `u32::MAX` in none.
    region: u32,
    /// The vertex that it was reached from within its region; itself at the root of a tree.
    parent: u32,
    /// The way from there, if it is no root.
    way: Option<Way>,
    /// How much room is wanted there, and what the vertices want that were reached from it.
    wanted: u32,
    /// How much room those can give, and later how much of it is taken.
    offered: u32,
    /// How much it can give to its parent, and later how much of it is taken.
    given: u32,
    /// How much its parent is to give.
    lacking: u32,
}

/// The regions.
#[derive(Drop)]
pub(crate) struct Sweep {
    places: Vec<Place>,
    /// The vertices in the order in which they were reached, region by region.
    reached: Vec<u32>,
    /// Where each region begins among these.
    starts: Vec<usize>,
    /// The vertices to which narrow ways lead from the regions, in the order in which they were found.
    next: Vec<u32>,
    /// How many of these are from regions before the last one.
    seen: usize,
    /// The least room of a wide way.
    least_room: u32,
}

impl Place {
    /// A vertex in no region.
    fn none() -> Place {
        Place {
            region: u32::MAX,
            parent: 0,
            way: None,
            wanted: 0,
            offered: 0,
            given: 0,
            lacking: 0,
        }
    }

    /// What it gives to its parent, or lacks, as far as the ways between both have room.
    fn balanced(mut self, flow: &Flow<'_>, here: u32) -> Place {
        if let Some(way) = self.way {
            let own = u64::from(here) + u64::from(self.offered);
            let wanted = u64::from(self.wanted);
            if own >= wanted {
                self.given = small(own.saturating_sub(wanted)).min(flow.room_along(way));
            } else {
                self.lacking = small(wanted.saturating_sub(own)).min(flow.room_along(way.back()));
            }
        }
        self
    }
}

impl Sweep {
    /// Regions that have not been reached.
    pub fn new(alloc: Global) -> Sweep {
        Sweep {
            places: Vec::new(alloc),
            reached: Vec::new(alloc),
            starts: Vec::new(alloc),
            next: Vec::new(alloc),
            seen: 0,
            least_room: u32::MAX,
        }
    }

    /// Pulls room to the source. What comes less far stays where it is.
    pub fn bring(&mut self, flow: &mut Flow<'_>) -> Result<(), AllocError>
        ensures drain { IfOk result (λ _. flow.new.drain ≡ flow.old.drain) }
        ensures value { IfOk result (λ _. flow.new.value ≡ flow.old.value) }
    {
        let missing = flow.drain.most.saturating_sub(flow.value);
        self.least_room = self.least_room.min(missing / WIDE_PART).max(1);
        if self.reach_ends(flow)? {
            self.pull_all(flow, missing);
        }
        if flow.left_at(flow.drain.source) == 0 {
            self.least_room /= WIDE_PART;
        }
        Ok(())
    }

    /// Reaches regions from the source, up to the first one where more may end, and returns whether there is one.
    fn reach_ends(&mut self, flow: &Flow<'_>) -> Result<bool, AllocError> {
        self.begin(flow)?;
        for region in 0..flow.drain.graph.vertices {
            if self.seen >= self.next.len() {
                return Ok(false);
            }
            let has_end = self.reach_region(flow, region)?;
            if has_end {
                self.starts.push(self.reached.len())?;
                return Ok(true);
            }
        }
        Ok(false)
    }

    /// Forgets all regions, and begins at the source.
    fn begin(&mut self, flow: &Flow<'_>) -> Result<(), AllocError> {
        self.places.clear();
        self.reached.clear();
        self.starts.clear();
        self.next.clear();
        self.seen = 0;
        for _ in 0..flow.drain.graph.vertices {
            self.places.push(Place::none())?;
        }
        self.next.push(flow.drain.source)?;
        Ok(())
    }

    /// Reaches a region from where narrow ways lead to, and returns whether more may end in it.
    fn reach_region(&mut self, flow: &Flow<'_>, region: u32) -> Result<bool, AllocError> {
        self.starts.push(self.reached.len())?;
        let end = self.next.len();
        let mut has_end = false;
        for number in self.seen..end {
            if let Some(root) = self.next.get(number).copied() {
                let first = self.reached.len();
                self.add(root, root, region, None)?;
                has_end = self.reach_tree(flow, region, first)? || has_end;
            }
        }
        self.seen = end;
        Ok(has_end)
    }

    /// Goes on from the vertices that were reached last, and returns whether more may end at one of them.
    fn reach_tree(
        &mut self,
        flow: &Flow<'_>,
        region: u32,
        first: usize,
    ) -> Result<bool, AllocError> {
        let mut has_end = false;
        for number in first..flow.drain.graph.vertices as usize {
            let Some(vertex) = self.reached.get(number).copied() else {
                return Ok(has_end);
            };
            has_end = has_end || flow.left_at(vertex) != 0;
            self.reach_from(flow, region, vertex)?;
        }
        Ok(has_end)
    }

    /// Reaches along the wide ways of a vertex, and lists where its narrow ways lead to.
    fn reach_from(&mut self, flow: &Flow<'_>, region: u32, vertex: u32) -> Result<(), AllocError> {
        let graph = flow.drain.graph;
        let (first, end) = graph.range(vertex);
        for number in first..end {
            let neighbour = graph.way(number);
            if self.place(neighbour.finish).region == u32::MAX {
                let room = flow.room(neighbour.way);
                if room >= self.least_room {
                    self.add(neighbour.finish, vertex, region, Some(neighbour.way))?;
                } else if room != 0 {
                    self.next.push(neighbour.finish)?;
                }
            }
        }
        Ok(())
    }

    /// Puts a vertex into a region, unless it is in one.
    fn add(
        &mut self,
        vertex: u32,
        parent: u32,
        region: u32,
        way: Option<Way>,
    ) -> Result<(), AllocError> {
        if self.place(vertex).region != u32::MAX {
            return Ok(());
        }
        let mut place = Place::none();
        place.region = region;
        place.parent = parent;
        place.way = way;
        self.set(vertex, place);
        self.reached.push(vertex)?;
        Ok(())
    }

    /// Where a vertex is.
    fn place(&self, vertex: u32) -> Place {
        match self.places.get(vertex as usize) {
            Some(place) => *place,
            None => Place::none(),
        }
    }

    /// Sets where a vertex is.
    fn set(&mut self, vertex: u32, place: Place) {
        if (vertex as usize) < self.places.len() {
            self.places[vertex as usize] = place;
        }
    }

    /// Pulls room from region to region, from the last one to the source.
    fn pull_all(&mut self, flow: &mut Flow<'_>, missing: u32)
        ensures drain { flow.new.drain ≡ flow.old.drain }
        ensures value { flow.new.value ≡ flow.old.value }
    {
        let regions = self.starts.len().saturating_sub(1);
        for number in 0..regions {
            let region = regions - 1 - number;
            self.balance(flow, region, missing);
            self.take(flow, region);
            self.pull_up(flow, region);
            self.pull_down(flow, region);
            if region != 0 {
                self.pull_across(flow, region - 1);
            }
        }
    }

    /// From where and up to where the vertices of a region are in the list.
    fn range(&self, region: usize) -> (usize, usize)
        ensures { result.1 ≤ length self.now.reached.items }
    {
        let count = self.reached.len();
        let first = self.starts.get(region).copied().unwrap_or(count);
        let end = self
            .starts
            .get(region.saturating_add(1))
            .copied()
            .unwrap_or(count);
        (first, end.min(count))
    }

    /// Finds what each vertex of a region wants, and what it can give to its parent or has to get from it.
    fn balance(&mut self, flow: &Flow<'_>, region: usize, missing: u32) {
        let (first, end) = self.range(region);
        for number in first..end {
            let back = first
                .saturating_add(end.saturating_sub(number))
                .saturating_sub(1);
            if let Some(vertex) = self.reached.get(back).copied() {
                let mut place = self.place(vertex);
                let wanted = if region == 0 {
                    wanted_at_first(flow, vertex, missing)
                } else {
                    self.wanted_before(flow, vertex).min(missing)
                };
                place.wanted = place.wanted.saturating_add(wanted);
                let place = place.balanced(flow, flow.left_at(vertex));
                self.set(vertex, place);
                self.add_to_parent(place);
            }
        }
    }

    /// Adds what a vertex gives or lacks to what its parent is offered and wants.
    fn add_to_parent(&mut self, place: Place) {
        if place.way.is_some() {
            let mut parent = self.place(place.parent);
            parent.offered = parent.offered.saturating_add(place.given);
            parent.wanted = parent.wanted.saturating_add(place.lacking);
            self.set(place.parent, parent);
        }
    }

    /// The room of the ways that lead to a vertex from the region before its own.
    fn wanted_before(&self, flow: &Flow<'_>, vertex: u32) -> u32 {
        let graph = flow.drain.graph;
        let own = self.place(vertex).region;
        let (first, end) = graph.range(vertex);
        let mut wanted = 0u32;
        for number in first..end {
            let neighbour = graph.way(number);
            if self.place(neighbour.finish).region < own {
                wanted = wanted.saturating_add(flow.room(neighbour.way.back()));
            }
        }
        wanted
    }

    /// Decides how much of what is offered is taken, from the roots on.
    fn take(&mut self, flow: &Flow<'_>, region: usize) {
        let (first, end) = self.range(region);
        for number in first..end {
            if let Some(vertex) = self.reached.get(number).copied() {
                let mut place = self.place(vertex);
                if place.way.is_some() {
                    let mut parent = self.place(place.parent);
                    place.given = place.given.min(parent.offered);
                    parent.offered = parent.offered.saturating_sub(place.given);
                    self.set(place.parent, parent);
                }
                place.offered = place
                    .wanted
                    .saturating_add(place.given)
                    .saturating_sub(flow.left_at(vertex));
                self.set(vertex, place);
            }
        }
    }

    /// Pulls what is taken to the parents of its vertices, the last ones first.
    fn pull_up(&self, flow: &mut Flow<'_>, region: usize)
        ensures drain { flow.new.drain ≡ flow.old.drain }
        ensures value { flow.new.value ≡ flow.old.value }
    {
        let (first, end) = self.range(region);
        for number in first..end {
            let back = first
                .saturating_add(end.saturating_sub(number))
                .saturating_sub(1);
            if let Some(vertex) = self.reached.get(back).copied() {
                let place = self.place(vertex);
                if let Some(way) = place.way {
                    flow.pull(way, place.given);
                }
            }
        }
    }

    /// Pulls what vertices lack from their parents, the first ones first.
    fn pull_down(&self, flow: &mut Flow<'_>, region: usize)
        ensures drain { flow.new.drain ≡ flow.old.drain }
        ensures value { flow.new.value ≡ flow.old.value }
    {
        let (first, end) = self.range(region);
        for number in first..end {
            if let Some(vertex) = self.reached.get(number).copied() {
                let place = self.place(vertex);
                if let Some(way) = place.way {
                    flow.pull(way.back(), place.lacking);
                }
            }
        }
    }

    /// Pulls all that it can to a region from the one behind it.
    fn pull_across(&self, flow: &mut Flow<'_>, region: usize)
        ensures drain { flow.new.drain ≡ flow.old.drain }
        ensures value { flow.new.value ≡ flow.old.value }
    {
        let (first, end) = self.range(region);
        for number in first..end {
            if let Some(vertex) = self.reached.get(number).copied() {
                self.pull_to(flow, vertex);
            }
        }
    }

    /// Pulls all that it can to a vertex from the region behind its own.
    fn pull_to(&self, flow: &mut Flow<'_>, vertex: u32)
        ensures drain { flow.new.drain ≡ flow.old.drain }
        ensures value { flow.new.value ≡ flow.old.value }
    {
        let graph = flow.drain.graph;
        let own = self.place(vertex).region;
        let (first, end) = graph.range(vertex);
        for number in first..end {
            let neighbour = graph.way(number);
            let other = self.place(neighbour.finish).region;
            if other != u32::MAX && other > own {
                flow.pull(neighbour.way, u32::MAX);
            }
        }
    }
}

/// What is wanted at a vertex of the first region: all that is missing at the source, and nothing elsewhere.
fn wanted_at_first(flow: &Flow<'_>, vertex: u32, missing: u32) -> u32 {
    if vertex == flow.drain.source {
        missing
    } else {
        0
    }
}

/// An amount, if it is that small, or else as much as there can be.
fn small(amount: u64) -> u32 {
    amount.min(u64::from(u32::MAX)) as u32
}
