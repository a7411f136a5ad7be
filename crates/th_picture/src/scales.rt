//! Where points and heights are in the picture.
ghost use Rattle.std.specs.Prelude.{◌≡◌, ◌≤◌, ◌<◌, ◌^◌, IfSome, find, fold};
ghost use Rattle.th_picture.specs.Scales.{apart, covers, greatest_of, height_y, high_of, higher, least_of, lines_of, lower, moved, raise, raised, scale_between, scale_of, step_of, x_of, y_of};

use crate::drawn::DrawnPoint;

/// What heights are raised by, so that none is below zero.
pub(crate) const RAISE: u64 = 1_000_000_000_000_000_000;

/// The steps of a scale, in units of 10 nm: from 1 mm on.
const STEPS: [u64; 36] = [
    100_000,
    200_000,
    500_000,
    1_000_000,
    2_000_000,
    5_000_000,
    10_000_000,
    20_000_000,
    50_000_000,
    100_000_000,
    200_000_000,
    500_000_000,
    1_000_000_000,
    2_000_000_000,
    5_000_000_000,
    10_000_000_000,
    20_000_000_000,
    50_000_000_000,
    100_000_000_000,
    200_000_000_000,
    500_000_000_000,
    1_000_000_000_000,
    2_000_000_000_000,
    5_000_000_000_000,
    10_000_000_000_000,
    20_000_000_000_000,
    50_000_000_000_000,
    100_000_000_000_000,
    200_000_000_000_000,
    500_000_000_000_000,
    1_000_000_000_000_000,
    2_000_000_000_000_000,
    5_000_000_000_000_000,
    10_000_000_000_000_000,
    20_000_000_000_000_000,
    50_000_000_000_000_000,
];

/// The largest of them.
const LAST_STEP: u64 = 50_000_000_000_000_000;

/// A scale of raised heights: its lowest line, its last line but one, and the step between lines.
#[derive(Clone, Copy)]
pub(crate) struct Scale {
    pub(crate) low: u64,
    pub(crate) top: u64,
    pub(crate) step: u64,
}

/// What the picture shows is placed in: the scale of heights, and how many points there are.
#[derive(Clone, Copy)]
pub(crate) struct Frame {
    pub(crate) scale: Scale,
    pub(crate) points: u64,
}

/// The middle of strip `k`, from 0, of `n`.
pub fn x_of(k: u64, n: u64) -> u32
    ensures { result ≡ x_of k n }
{
    let width = (2 * u128::from(n)).max(1);
    let at = 7_000 * (2 * u128::from(k) + 1) / width;
    900 + at.min(7_000) as u32
}

/// A raised height moved by a length.
pub(crate) fn moved(from: u64, by: i64) -> u128
    ensures value { result ≡ moved from by }
    ensures small { result < 2 ^ 65 }
{
    let size = u128::from(by.unsigned_abs());
    if by < 0 {
        u128::from(from).saturating_sub(size)
    } else {
        u128::from(from) + size
    }
}

/// A height, raised.
pub(crate) fn raised(height: i64) -> u64
    ensures { result ≡ raised height }
{
    let size = height.unsigned_abs();
    if height < 0 {
        RAISE.saturating_sub(size)
    } else {
        RAISE + size
    }
}

/// The first step of which fewer than eight cover a spread.
fn step_of(spread: u64) -> u64
    ensures value { result ≡ step_of spread }
    ensures positive { 1 ≤ result }
{
    match first_covering(&STEPS, spread) {
        Some(step) => step,
        None => LAST_STEP,
    }
}

/// The first of some steps of which fewer than eight cover a spread.
fn first_covering(steps: &[u64], spread: u64) -> Option<u64>
    ensures value { result ≡ find (covers spread) steps.now }
    ensures positive { IfSome result (λ step. 1 ≤ step) }
{
    steps.iter().copied().find(|step| spread / 8 < *step)
}

/// The least of the raised heights at which points are drawn.
fn least_of(points: &[DrawnPoint]) -> u64
    ensures { result ≡ least_of points.now }
{
    match points.split_first() {
        Some((point, others)) => lowest(raised(point.height), others),
        None => RAISE,
    }
}

/// The least of a raised height and those of some points.
fn lowest(start: u64, points: &[DrawnPoint]) -> u64
    ensures { result ≡ fold lower start points.now }
{
    let mut least = start;
    for point in points {
        least = least.min(raised(point.height));
    }
    least
}

/// The greatest of the raised heights at which points are drawn.
fn greatest_of(points: &[DrawnPoint]) -> u64
    ensures { result ≡ greatest_of points.now }
{
    match points.split_first() {
        Some((point, others)) => highest(raised(point.height), others),
        None => RAISE,
    }
}

/// The greatest of a raised height and those of some points.
fn highest(start: u64, points: &[DrawnPoint]) -> u64
    ensures { result ≡ fold higher start points.now }
{
    let mut greatest = start;
    for point in points {
        greatest = greatest.max(raised(point.height));
    }
    greatest
}

/// The scale between two raised heights.
fn scale_between(least: u64, greatest: u64, step: u64) -> Scale
    requires { 1 ≤ step }
    ensures { result ≡ scale_between least greatest step }
{
    Scale {
        low: least.saturating_sub(least % step),
        top: greatest.saturating_sub(greatest % step),
        step,
    }
}

impl Scale {
    /// The scale of the heights at which some points are drawn.
    pub(crate) fn of(points: &[DrawnPoint]) -> Scale
        ensures { result ≡ scale_of points.now }
    {
        let least = least_of(points);
        let greatest = greatest_of(points);
        scale_between(least, greatest, step_of(greatest.saturating_sub(least)))
    }

    /// Its highest line.
    pub(crate) fn high(&self) -> u128
        ensures value { result ≡ high_of self.now }
        ensures small { result < 2 ^ 65 }
    {
        u128::from(self.top) + u128::from(self.step)
    }

    /// How far apart two raised heights are drawn, of which the second is higher.
    fn apart(&self, at: u128, other: u128) -> u128
        requires { other < 2 ^ 65 }
        ensures { result ≡ apart self.now at other }
    {
        let span = self.high().saturating_sub(u128::from(self.low)).max(1);
        3_000 * other.saturating_sub(at) / span
    }

    /// Where a raised height is: at most 100 beyond the lines if the scale does not reach it.
    pub(crate) fn y_of(&self, at: u128) -> u32
        requires { at < 2 ^ 65 }
        ensures { result ≡ y_of self.now at }
    {
        let high = self.high();
        let below = self.apart(at, high).min(3_100) as u32;
        let above = self.apart(high, at).min(100) as u32;
        400 + below - above
    }

    /// Where a height is.
    pub(crate) fn height_y(&self, height: i64) -> u32
        ensures { result ≡ height_y self.now height }
    {
        self.y_of(u128::from(raised(height)))
    }

    /// The lines that it may have.
    pub(crate) fn lines(&self) -> [u128; 10]
        ensures { result ≡ lines_of self.now }
    {
        let low = u128::from(self.low);
        let step = u128::from(self.step);
        [
            low,
            low + step,
            low + 2 * step,
            low + 3 * step,
            low + 4 * step,
            low + 5 * step,
            low + 6 * step,
            low + 7 * step,
            low + 8 * step,
            low + 9 * step,
        ]
    }
}
