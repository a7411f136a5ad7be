//! A finer scale for differences, with noise so that few sums of them round cycles are 0.
use crate::sides::Sides;

/// The most that differences are multiplied by.
const MOST_TIMES: i64 = 1 << 20;

/// How far two multiplied heights may be apart. Vertex 0 is kept as near to height 0, so what a pivot sums up
/// of heights stays below eight times as much.
pub(crate) const MOST_APART: i64 = 1 << 60;

/// The unit in which most books give their heights, in units of a network (10 nm): a hundredth of a
/// millimetre.
const COARSE_UNIT: i64 = 1_000;

/// By how much differences are multiplied, and how far each is moved afterwards.
///
/// Differences of observations are small whole multiples of a unit, so many sums round cycles are 0, and
/// most pivots would move nothing. The noise makes nearly all of these sums differ from 0. That of a
/// whole cycle is less than half a unit, so flows that are optimal with it are so without it.
#[derive(Clone, Copy)]
pub struct Scale {
    times: i64,
    noise: i64,
}

impl Scale {
    /// The differences as they are.
    pub const PLAIN: Scale = Scale { times: 1, noise: 0 };

    /// A scale for links with these sides, of so many vertices. Heights of a tree that are measured by it are
    /// never too far apart: a way through the tree takes at most one link up from each vertex.
    pub fn noisy(sides: &Sides, vertices: u32) -> Option<Scale> {
        let mut apart = 1i64;
        let mut unit = COARSE_UNIT;
        for vertex in 0..vertices {
            let mut most = 0i64;
            for side in sides.of(vertex)? {
                most = most.max(side.rise.checked_abs()?);
                if side.rise % COARSE_UNIT != 0 {
                    unit = 1;
                }
            }
            apart = apart.checked_add(most)?;
        }
        let times = MOST_APART.checked_div(apart)?.clamp(1, MOST_TIMES);
        let room = times.checked_mul(unit)?;
        let even = room.checked_div(i64::from(vertices).checked_mul(2)?)?;
        let least = (room / 4).min(64);
        Some(Scale {
            times,
            noise: even.max(least),
        })
    }

    /// The difference of the link at a place by this scale.
    #[inline]
    pub fn difference(self, place: u32, difference: i64) -> Option<i64> {
        let product = difference.checked_mul(self.times)?;
        if self.noise == 0 {
            return Some(product);
        }
        product.checked_add(self.noise_at(place)?)
    }

    /// The noise of the link at a place, between its most downwards and upwards: a multiplicative hash.
    fn noise_at(self, place: u32) -> Option<i64> {
        let hash = (u64::from(place) * 2_654_435_761) & 0xffff_ffff;
        let range = self.noise.checked_mul(2)?.checked_add(1)?;
        let spread = hash.checked_mul(u64::try_from(range).ok()?)? >> 32;
        i64::try_from(spread).ok()?.checked_sub(self.noise)
    }
}
