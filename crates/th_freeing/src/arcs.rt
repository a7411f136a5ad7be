//! The arcs of a network with their residual capacities: the links, and at last the tie.
use std::alloc::{AllocError, Global};
use th_detours::{Group, Link, Parted};
use th_guide::ResidualArc;

/// An arc with its residual capacities.
#[derive(Clone, Copy)]
pub(crate) struct Arc {
    pub tail: u32,
    pub head: u32,
    /// How far its head is to be above its tail: what a unit of flow along it gains.
    pub difference: i64,
    /// How much more can flow along it, and against it.
    pub ahead: i64,
    pub back: i64,
}

impl Arc {
    const NONE: Arc = Arc {
        tail: 0,
        head: 0,
        difference: 0,
        ahead: 0,
        back: 0,
    };

    /// Whether more can flow either way.
    pub fn is_free(&self) -> bool {
        self.ahead > 0 && self.back > 0
    }

    /// The arc of a link with such a flow.
    fn of(link: &Link, flow: i64) -> Option<Arc> {
        let weight = i64::from(link.weight);
        if flow.unsigned_abs() > u64::from(link.weight) {
            return None;
        }
        Some(Arc {
            tail: link.tail,
            head: link.head,
            difference: link.difference,
            ahead: weight.checked_sub(flow)?,
            back: weight.checked_add(flow)?,
        })
    }
}

/// Places of links, from one up to another, without the second.
#[derive(Clone, Copy)]
pub(crate) struct Places {
    pub start: usize,
    pub end: usize,
}

impl Places {
    /// Those of the links of a number, among so many.
    pub fn of(group: Group, links: usize) -> Places {
        match group {
            Group::Tails { start, end } => Places { start, end },
            Group::Marked => Places {
                start: 0,
                end: links,
            },
        }
    }
}

/// The tie: how much the number changes, and how much can flow through it.
#[derive(Clone, Copy)]
pub(crate) struct Tie {
    pub change: i64,
    pub least: i64,
    pub most: i64,
}

/// The arcs of a network: those of its links, and at last the tie.
#[derive(Drop)]
pub(crate) struct Arcs {
    rows: Vec<Arc>,
    /// The least that can flow along the tie.
    least: i64,
}

impl Arcs {
    /// Arcs of vertex 0, for so many links.
    pub fn new(alloc: Global, links: usize) -> Result<Arcs, AllocError> {
        Ok(Arcs {
            rows: vec![in alloc; Arc::NONE; links.saturating_add(1)]?,
            least: 0,
        })
    }

    /// Takes the links of a network with these flows.
    pub fn load(&mut self, network: &Parted, flows: &[i64]) -> Option<()> {
        for ((row, link), flow) in self.rows.iter_mut().zip(network.links()).zip(flows) {
            *row = Arc::of(link, *flow)?;
        }
        Some(())
    }

    /// Parts the ends of the number that the network has, all of them at links among these places.
    pub fn part(&mut self, network: &Parted, places: Places) -> Option<()> {
        for place in places.start..places.end {
            let along = ResidualArc::along(u32::try_from(place).ok()?)?;
            let row = self.rows.get_mut(place)?;
            row.tail = network.start_of(along)?;
            row.head = network.start_of(along.reversed())?;
        }
        Some(())
    }

    /// All arcs.
    #[inline]
    pub fn rows(&self) -> &[Arc] {
        &self.rows
    }

    /// The place of the tie.
    pub fn tie_place(&self) -> usize {
        self.rows.len().saturating_sub(1)
    }

    /// Ties two vertices: what flows along the tie, within which bounds.
    pub fn tie(&mut self, base: u32, spare: u32, net: i64, tie: Tie) -> Option<()> {
        *self.rows.last_mut()? = Arc {
            tail: base,
            head: spare,
            difference: tie.change,
            ahead: tie.most.checked_sub(net)?,
            back: net.checked_sub(tie.least)?,
        };
        self.least = tie.least;
        Some(())
    }

    /// What flows along the tie.
    pub fn net(&self) -> Option<i64> {
        self.least.checked_add(self.rows.last()?.back)
    }

    /// How much the number changes.
    pub fn change(&self) -> Option<i64> {
        Some(self.rows.last()?.difference)
    }

    /// The vertices that a residual arc leads from and to.
    #[inline]
    pub fn ends(&self, arc: ResidualArc) -> Option<(u32, u32)> {
        let row = self.rows.get(arc.row())?;
        if arc.is_forward() {
            Some((row.tail, row.head))
        } else {
            Some((row.head, row.tail))
        }
    }

    /// How far a residual arc leads up.
    #[inline]
    pub fn difference(&self, arc: ResidualArc) -> Option<i64> {
        let row = self.rows.get(arc.row())?;
        if arc.is_forward() {
            Some(row.difference)
        } else {
            row.difference.checked_neg()
        }
    }

    /// How much more can flow along a residual arc.
    #[inline]
    pub fn room(&self, arc: ResidualArc) -> Option<i64> {
        let row = self.rows.get(arc.row())?;
        Some(if arc.is_forward() {
            row.ahead
        } else {
            row.back
        })
    }

    /// Sends so much along a residual arc.
    #[inline]
    pub fn send(&mut self, arc: ResidualArc, amount: i64) -> Option<()> {
        let row = self.rows.get_mut(arc.row())?;
        let (ahead, back) = if arc.is_forward() {
            (
                row.ahead.checked_sub(amount)?,
                row.back.checked_add(amount)?,
            )
        } else {
            (
                row.ahead.checked_add(amount)?,
                row.back.checked_sub(amount)?,
            )
        };
        row.ahead = ahead;
        row.back = back;
        Some(())
    }

    /// Writes the flows of the links into a row.
    pub fn write_flows(&self, network: &Parted, flows: &mut [i64]) -> Option<()> {
        for (place, link) in network.links().iter().enumerate() {
            let row = self.rows.get(place)?;
            *flows.get_mut(place)? = i64::from(link.weight).checked_sub(row.ahead)?;
        }
        Some(())
    }
}
