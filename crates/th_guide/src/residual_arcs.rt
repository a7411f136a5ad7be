//! Residual arcs, each kept as one number for a link and its direction.

/// A residual arc: a link, along it or against it.
///
/// It is kept as one number, twice the link's place and one more against it, since rows of arcs are what
/// a pivot reads most.
#[derive(Clone, Copy, PartialEq, Eq)]
pub struct ResidualArc {
    number: u32,
}

impl ResidualArc {
    /// The arc of no link.
    pub const NONE: ResidualArc = ResidualArc { number: u32::MAX };

    /// The arc along the link at a place.
    #[inline]
    pub fn along(place: u32) -> Option<ResidualArc> {
        let number = place.checked_mul(2)?;
        Some(ResidualArc { number })
    }

    /// The place of its link, from 0.
    #[inline]
    pub fn place(self) -> u32 {
        self.number / 2
    }

    /// Whether it leads from the link's tail to its head.
    #[inline]
    pub fn is_forward(self) -> bool {
        self.number % 2 == 0
    }

    /// The arc of the same link that leads back.
    #[inline]
    pub fn reversed(self) -> ResidualArc {
        ResidualArc {
            number: self.number ^ 1,
        }
    }

    /// Its row in a row of links, of flows and the like.
    #[inline]
    pub fn row(self) -> usize {
        self.place() as usize
    }
}
