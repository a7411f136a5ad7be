//! What flows through a number, what is lost by that, and what it shows.
use crate::arcs::{Arcs, Places, Tie};
use crate::tasks::{Found, Task};
use th_detours::Parted;

/// More than can flow through a number.
const MOST_NET: i64 = 1 << 40;

/// What flows through a number.
#[derive(Clone, Copy)]
pub(crate) struct Net {
    /// What flows through it in the best flows.
    pub need: i64,
    /// What flows through it now.
    pub now: i64,
    /// How much less the flows gain than the best ones, where the number does not change.
    lost: i128,
}

impl Net {
    /// What flows through a number whose links are at these places, beside what does in the best flows.
    pub fn of(
        network: &Parted,
        arcs: &Arcs,
        places: Places,
        best: &[i64],
        flows: &[i64],
    ) -> Option<Net> {
        let spare = network.spare();
        let mut net = Net {
            need: 0,
            now: 0,
            lost: 0,
        };
        for place in places.start..places.end {
            let arc = arcs.rows().get(place)?;
            let need = *best.get(place)?;
            let now = *flows.get(place)?;
            if arc.tail == spare {
                net.need = net.need.checked_add(need)?;
                net.now = net.now.checked_add(now)?;
            } else if arc.head == spare {
                net.need = net.need.checked_sub(need)?;
                net.now = net.now.checked_sub(now)?;
            }
        }
        Some(net)
    }

    /// Takes it that flows gain less than the best ones.
    pub fn lose(&mut self, arcs: &Arcs, best: &[i64], flows: &[i64]) -> Option<()> {
        for ((arc, best), flow) in arcs.rows().iter().zip(best).zip(flows) {
            let less = i128::from(*best).checked_sub(i128::from(*flow))?;
            let loss = less.checked_mul(i128::from(arc.difference))?;
            self.lost = self.lost.checked_add(loss)?;
        }
        Some(())
    }

    /// Takes a pivot that gained so much, where the number changes by what its tie says.
    pub fn take(&mut self, gain: i128, arcs: &Arcs) -> Option<()> {
        let now = arcs.net()?;
        let more = i128::from(now).checked_sub(i128::from(self.now))?;
        let by_tie = more.checked_mul(i128::from(arcs.change()?))?;
        self.lost = self.lost.checked_sub(gain.checked_sub(by_tie)?)?;
        self.now = now;
        Some(())
    }

    /// The change of a number of this size by which less flows through it than the need.
    pub fn change(&self, size: i64) -> Option<i64> {
        if self.need > 0 {
            size.checked_neg()
        } else {
            Some(size)
        }
    }

    /// The size of a change in that direction.
    pub fn size(&self, change: i64) -> Option<u64> {
        let size = if self.need > 0 {
            change.checked_neg()?
        } else {
            change
        };
        u64::try_from(size).ok()
    }

    /// The tie of a number that changes by a limit, through which as much can flow as will.
    pub fn tie_at(&self, limit: u64) -> Option<Tie> {
        Some(Tie {
            change: self.change(i64::try_from(limit).ok()?)?,
            least: MOST_NET.checked_neg()?,
            most: MOST_NET,
        })
    }

    /// The tie of a number that changes by a step more, so that less flows through it, down to nothing.
    pub fn tie_on(&self, change: i64, step: i64) -> Option<Tie> {
        Some(Tie {
            change: change.checked_sub(step.checked_mul(self.now.signum())?)?,
            least: self.now.min(0),
            most: self.now.max(0),
        })
    }

    /// How much flows the other way; `None` if the net is not turned.
    pub fn turned(&self) -> Option<u64> {
        let is_turned = if self.need > 0 {
            self.now <= 0
        } else {
            self.now >= 0
        };
        if !is_turned {
            return None;
        }
        Some(self.now.unsigned_abs())
    }

    /// What the flows show.
    pub fn shown(&self, task: &Task) -> Option<Found> {
        let turned = i128::from(self.turned()?);
        if turned > 0 && self.is_mild(task, turned)? {
            return Some(Found::Mild);
        }
        if self.is_costly(task, turned)? {
            return Some(Found::Costly);
        }
        None
    }

    /// Whether no change beyond the limit is needed.
    fn is_mild(&self, task: &Task, turned: i128) -> Option<bool> {
        let Some(limit) = task.limit else {
            return Some(false);
        };
        let more = self.lost.checked_sub(i128::from(task.least))?;
        Some(more <= i128::from(limit).checked_mul(turned)?)
    }

    /// Whether the number explains no more than it is to be worth: what flows the other way and what flows in the
    /// best flows are so many parts of a mixture without net.
    fn is_costly(&self, task: &Task, turned: i128) -> Option<bool> {
        let Some(worth) = task.worth else {
            return Some(false);
        };
        let need = i128::from(self.need.unsigned_abs());
        let lost = self.lost.checked_mul(need)?;
        let parts = need.checked_add(turned)?;
        Some(lost <= i128::from(worth).checked_mul(parts)?)
    }
}
