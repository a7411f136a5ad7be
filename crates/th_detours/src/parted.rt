//! A network in which a spare vertex has the ends of a number, in place of the base.
use crate::grounds::Ground;
use crate::groups::{End, Ends, Group};
use crate::links::Link;
use crate::sides::{Side, Sides};
use std::alloc::{AllocError, Global};
use th_guide::{ResidualArc, push_if_room};

/// How many ends a number has at most whose sides are listed. The sides of one with more are looked for among
/// those of its vertex.
const MOST_OWN: usize = 64;

/// A network with a best flow, where the ends that a number has at one vertex, the base, are parted from it:
/// a spare vertex has them instead.
#[derive(Drop)]
pub struct Parted {
    links: Vec<Link>,
    sides: Sides,
    ends: Ends,
    /// The sides of the ends that the number has, the shortest first, if they are few.
    own: Vec<Side>,
    base: u32,
    spare: u32,
}

impl Parted {
    /// A network of so many vertices and links, from which nothing is parted. The spare vertex comes behind
    /// all others.
    pub fn new(alloc: Global, vertices: u32, links: usize) -> Result<Parted, AllocError> {
        Ok(Parted {
            links: vec![in alloc; Link::NONE; links]?,
            sides: Sides::new(alloc, vertices, links)?,
            ends: Ends::new(alloc, links)?,
            own: Vec::with_capacity(alloc, MOST_OWN)?,
            base: 0,
            spare: vertices,
        })
    }

    /// Sets the link at a place, from 0.
    pub fn set_link(&mut self, place: usize, link: Link) {
        if let Some(row) = self.links.get_mut(place) {
            *row = link;
        }
    }

    /// Begins with the links that were set.
    pub fn start(&mut self) -> Option<()> {
        self.sides.list(&self.links)
    }

    /// Marks an end of the link at a place, or none.
    pub fn mark(&mut self, place: usize, end: Option<End>) {
        self.ends.mark(place, end);
    }

    /// Parts the ends of a number, all of them at this vertex, and no others.
    pub fn part(&mut self, group: Group, base: u32) -> Option<()> {
        self.ends.group = group;
        self.base = base;
        self.own.clear();
        if let Group::Tails { start, end } = group
            && end.saturating_sub(start) <= MOST_OWN
        {
            for place in start..end {
                self.list_own(place)?;
            }
            self.own.sort_unstable_by_key(|side| side.length);
        }
        Some(())
    }

    /// The vertex from which ends are parted.
    pub fn base(&self) -> u32 {
        self.base
    }

    /// The vertex that has them instead.
    pub fn spare(&self) -> u32 {
        self.spare
    }

    /// The length of the shortest link that the number has, or 0 if its links are not listed.
    pub fn least_own(&self) -> u64 {
        match self.own.first() {
            Some(side) => side.length,
            None => 0,
        }
    }

    /// The links, with the flows on them.
    pub fn links(&self) -> &[Link] {
        &self.links
    }

    /// Sets what flows along the link at a place.
    pub fn set_flow(&mut self, place: usize, flow: i64) -> Option<()> {
        self.links.get_mut(place)?.flow = flow;
        Some(())
    }

    /// Takes other flows of all links.
    pub fn load(&mut self, flows: &[i64]) {
        for (link, flow) in self.links.iter_mut().zip(flows) {
            link.flow = *flow;
        }
    }

    /// The vertex that an arc leaves.
    pub fn start_of(&self, arc: ResidualArc) -> Option<u32> {
        self.ground(0).start(arc)
    }

    /// The sides that a vertex has where nothing is parted from it, the shortest first.
    pub fn sides_of(&self, vertex: u32) -> Option<&[Side]> {
        self.sides.of(vertex)
    }

    /// How long a path is.
    pub fn length(&self, path: &[ResidualArc]) -> Option<u64> {
        let mut length = 0u64;
        for arc in path {
            length = length.checked_add(self.links.get(arc.row())?.length)?;
        }
        Some(length)
    }

    /// What a unit costs that is sent round a closed walk: by how much less flows then gain.
    pub fn cost(&self, path: &[ResidualArc]) -> Option<i64> {
        let mut cost = 0i64;
        for arc in path {
            let difference = self.links.get(arc.row())?.difference;
            cost = if arc.is_forward() {
                cost.checked_sub(difference)?
            } else {
                cost.checked_add(difference)?
            };
        }
        Some(cost)
    }

    /// How much more can flow along a path.
    pub fn room(&self, path: &[ResidualArc]) -> Option<u64> {
        let mut room = u64::MAX;
        for arc in path {
            room = room.min(self.links.get(arc.row())?.room(*arc)?);
        }
        Some(room)
    }

    /// Sends so much along an arc.
    pub fn send(&mut self, arc: ResidualArc, amount: u32) -> Option<()> {
        self.links.get_mut(arc.row())?.send(arc, amount)
    }

    /// Which ends are parted.
    pub(crate) fn group(&self) -> Group {
        self.ends.group
    }

    /// What a search goes by for which each link counts so much more than its length.
    pub(crate) fn ground(&self, toll: u64) -> Ground<'_> {
        Ground {
            links: &self.links,
            sides: &self.sides,
            ends: &self.ends,
            base: self.base,
            spare: self.spare,
            own: &self.own,
            toll,
        }
    }

    /// Lists the side of the number's end at the tail of a link.
    fn list_own(&mut self, place: usize) -> Option<()> {
        let link = self.links.get(place)?;
        let arc = ResidualArc::along(u32::try_from(place).ok()?)?;
        let side = Side {
            other: link.head,
            arc,
            length: link.length,
        };
        push_if_room(&mut self.own, side)
    }
}
