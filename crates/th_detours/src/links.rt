//! Links of a network that carry flow: the room along an arc, and sending an amount along it.
use th_guide::ResidualArc;

/// A link of a network, with a best flow on it.
#[derive(Clone, Copy)]
pub struct Link {
    /// The vertices that it leads from and to, from 0.
    pub tail: u32,
    pub head: u32,
    /// The most that can flow along it, and against it.
    pub weight: u32,
    /// What flows along it now.
    pub flow: i64,
    /// How far its head is to be above its tail.
    pub difference: i64,
    /// What a unit costs that is sent where the link has room.
    pub length: u64,
}

impl Link {
    /// A link from vertex 0 to itself, on which nothing can flow.
    pub const NONE: Link = Link {
        tail: 0,
        head: 0,
        weight: 0,
        flow: 0,
        difference: 0,
        length: 0,
    };

    /// How much more can flow along an arc of the link.
    #[inline]
    pub(crate) fn room(&self, arc: ResidualArc) -> Option<u64> {
        let weight = i64::from(self.weight);
        let room = if arc.is_forward() {
            weight.checked_sub(self.flow)?
        } else {
            weight.checked_add(self.flow)?
        };
        u64::try_from(room).ok()
    }

    /// Sends so much along an arc of the link.
    pub(crate) fn send(&mut self, arc: ResidualArc, amount: u32) -> Option<()> {
        let amount = i64::from(amount);
        self.flow = if arc.is_forward() {
            self.flow.checked_add(amount)?
        } else {
            self.flow.checked_sub(amount)?
        };
        Some(())
    }
}
