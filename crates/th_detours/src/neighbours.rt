//! Paths of two links over one vertex, from the base to the spare vertex, found without a search.
use crate::grounds::Ground;
use crate::groups::Group;
use crate::parted::Parted;
use crate::sides::Side;
use std::alloc::{AllocError, Global};
use th_guide::ResidualArc;

/// How many links and sides are looked at for one number.
const MOST_LOOKS: usize = 4_096;

/// Up to so many links of a number its own are looked at alone.
const FEW_LINKS: usize = 64;

/// The sides of a vertex that are to be looked at.
#[derive(Clone, Copy)]
struct Look {
    /// For which number they were looked at.
    turn: u64,
    /// The next side that may be the number's, and the next that may be another one.
    own: usize,
    other: usize,
}

const NONE: Look = Look {
    turn: 0,
    own: 0,
    other: 0,
};

/// Paths over one vertex: a link of a number, and another link of the same two vertices. They are looked for on
/// both sides of the place where the number's links begin.
#[derive(Drop)]
pub struct Neighbours {
    looks: Vec<Look>,
    turn: u64,
    /// The links of the number to look at next, and the one behind its last.
    up: usize,
    end: usize,
    /// How many of the links before those are to be looked at, down to the first.
    down: usize,
    is_down: bool,
    /// How many more may be looked at.
    left: usize,
}

/// A path over one vertex, from the base to the spare vertex.
#[derive(Clone, Copy)]
pub struct Pair {
    /// From the base to the vertex.
    pub there: ResidualArc,
    /// On to the spare vertex.
    pub on: ResidualArc,
}

impl Pair {
    /// A path from an arc out of the number and another one.
    fn of(own: ResidualArc, other: ResidualArc) -> Pair {
        Pair {
            there: other,
            on: own.reversed(),
        }
    }
}

/// Which of such paths are looked for.
#[derive(Clone, Copy)]
pub struct Wanted {
    /// Whether flow goes along them from the spare vertex to the base.
    pub is_back: bool,
    /// The greatest length of a link.
    pub most: u64,
}

impl Neighbours {
    /// For so many vertices.
    pub fn new(alloc: Global, vertices: usize) -> Result<Neighbours, AllocError> {
        Ok(Neighbours {
            looks: vec![in alloc; NONE; vertices]?,
            turn: 0,
            up: 0,
            end: 0,
            down: 0,
            is_down: false,
            left: 0,
        })
    }

    /// Begins with the first link of the number whose ends are parted.
    pub fn begin(&mut self, network: &Parted) -> Option<()> {
        let (start, end) = match network.group() {
            Group::Tails { start, end } => (start, end),
            Group::Marked => (0, 0),
        };
        self.turn = self.turn.checked_add(1)?;
        self.up = start;
        self.end = end;
        self.down = if end.saturating_sub(start) > FEW_LINKS {
            start
        } else {
            0
        };
        self.is_down = false;
        self.left = MOST_LOOKS;
        Some(())
    }

    /// The next path, or the same one again if both of its links still have room.
    pub fn next(&mut self, network: &Parted, wanted: Wanted) -> Option<Pair> {
        let ground = network.ground(0);
        for _ in 0..MOST_LOOKS {
            self.left = self.left.checked_sub(1)?;
            let place = self.place()?;
            if let Some(pair) = self.pair_at(ground, wanted, place)? {
                return Some(pair);
            }
            self.pass();
        }
        None
    }

    /// The link to look at.
    fn place(&mut self) -> Option<usize> {
        if self.is_down && self.down == 0 {
            self.is_down = false;
        }
        if self.is_down {
            return self.down.checked_sub(1);
        }
        if self.up >= self.end {
            if self.down == 0 {
                return None;
            }
            self.is_down = true;
            return self.down.checked_sub(1);
        }
        Some(self.up)
    }

    /// Goes on behind the link that was looked at, on the other side.
    fn pass(&mut self) {
        if self.is_down {
            self.down = self.down.saturating_sub(1);
        } else {
            self.up = self.up.saturating_add(1);
        }
        self.is_down = !self.is_down;
    }

    /// The path along the link at a place, if there is one.
    fn pair_at(&mut self, ground: Ground, wanted: Wanted, place: usize) -> Option<Option<Pair>> {
        let link = ground.links.get(place)?;
        if link.tail != ground.base {
            self.down = 0;
            return Some(None);
        }
        let arc = ResidualArc::along(u32::try_from(place).ok()?)?;
        let is_own = !self.is_down;
        if !has_room(ground, wanted, arc, is_own)? {
            return Some(None);
        }
        let Some(other) = self.partner(ground, wanted, link.head, !is_own)? else {
            return Some(None);
        };
        Some(Some(if is_own {
            Pair::of(arc, other)
        } else {
            Pair::of(other, arc)
        }))
    }

    /// The arc to a vertex along the next link that can be the other part of a path over it.
    fn partner(
        &mut self,
        ground: Ground,
        wanted: Wanted,
        vertex: u32,
        is_own: bool,
    ) -> Option<Option<ResidualArc>> {
        let look = self.looks.get_mut(vertex as usize)?;
        if look.turn != self.turn {
            *look = Look {
                turn: self.turn,
                own: 0,
                other: 0,
            };
        }
        let next = if is_own {
            &mut look.own
        } else {
            &mut look.other
        };
        let sides = ground.sides.of(vertex)?;
        for place in *next..sides.len() {
            let side = sides.get(place)?;
            if side.length > wanted.most {
                break;
            }
            self.left = self.left.checked_sub(1)?;
            if is_partner(ground, wanted, side, is_own)? {
                *next = place;
                return Some(Some(side.arc.reversed()));
            }
        }
        *next = sides.len();
        Some(None)
    }
}

/// Whether a side leads to the base, is the number's own or not, and has room.
fn is_partner(ground: Ground, wanted: Wanted, side: &Side, is_own: bool) -> Option<bool> {
    let arc = side.arc.reversed();
    if side.other != ground.base || ground.ends.has(side.arc) {
        return Some(false);
    }
    if ground.ends.has(arc) != is_own {
        return Some(false);
    }
    has_room(ground, wanted, arc, is_own)
}

/// Whether an arc that leaves the base is short enough and has room: the number's own the way back, and another
/// one the way there.
fn has_room(ground: Ground, wanted: Wanted, arc: ResidualArc, is_own: bool) -> Option<bool> {
    let link = ground.links.get(arc.row())?;
    let way = if is_own == wanted.is_back {
        arc
    } else {
        arc.reversed()
    };
    Some(link.length <= wanted.most && link.room(way)? != 0)
}
