//! A line on a terminal.
use crate::progress::{Progress, Work};
use std::fmt;
use std::fmt::{Display, Formatter};
use std::rt::Clock;
use std::time::{Duration, Instant};

/// How long a run takes before it shows anything, in milliseconds.
const PATIENCE: u64 = 2_000;

/// How long the line stays as it is at least, in milliseconds.
const INTERVAL: u64 = 200;

/// Blanks over the longest line, with the cursor before them.
const BLANK: &str = "\r                                        \r";

/// Shows on standard error how far a run is, in one line that is rewritten in place.
#[derive(Drop)]
pub struct Meter<'a, R> {
    rt: &'a R,
    /// What the line begins with.
    name: &'static str,
    /// When the run began; `None` if nothing is to be shown.
    start: Option<Instant>,
    /// From when on the line is written again, counted from the start.
    next: Duration,
    /// Whether there is a line.
    is_shown: bool,
}

impl<'a, R: Eprint + Clock> Meter<'a, R> {
    /// Shows nothing in the first two seconds of the run, and nothing at all if its start is not
    /// given.
    pub fn new(rt: &'a R, name: &'static str, start: Option<Instant>) -> Meter<'a, R> {
        Meter {
            rt,
            name,
            start,
            next: Duration::from_millis(PATIENCE),
            is_shown: false,
        }
    }

    /// How long the run has taken, if the line is to be written now.
    fn is_due(&self) -> Option<Duration> {
        let taken = self.start?.elapsed(self.rt).ok()?;
        if taken < self.next { None } else { Some(taken) }
    }
}

impl<'a, R: Eprint + Clock> Progress for Meter<'a, R> {
    fn show(&mut self, work: Work, done: usize, all: usize) {
        let Some(taken) = self.is_due() else {
            return;
        };
        self.next = taken.saturating_add(Duration::from_millis(INTERVAL));
        self.is_shown = true;
        let name = self.name;
        let done = Grouped(done);
        let all = Grouped(all);
        let things = work.name();
        let _ = eprint!(self.rt; "{BLANK}{name}: {done} of {all} {things}");
    }

    fn clear(&mut self) {
        if self.is_shown {
            self.is_shown = false;
            let _ = eprint!(self.rt; "{BLANK}");
        }
    }
}

/// A number below 1,000,000,000, printed with its digits in groups of three.
#[derive(Clone, Copy)]
struct Grouped(usize);

impl Display for Grouped {
    fn fmt<W: fmt::Write>(&self, f: &mut Formatter<W>) -> fmt::Result {
        let Grouped(number) = *self;
        let thousands = number / 1_000;
        let ones = number % 1_000;
        if thousands == 0 {
            write!(f, "{ones}")
        } else if thousands < 1_000 {
            write!(f, "{thousands},{ones:03}")
        } else {
            write!(
                f,
                "{},{:03},{ones:03}",
                thousands / 1_000,
                thousands % 1_000
            )
        }
    }
}
