//! What was not shown of the numbers that were asked for last, so that it is not searched for again.
use th_changes::{Number, Run};

/// A number, the limit beyond which its changes were not shown to be costly, and what it was not shown to leave. As much
/// holds of other numbers with the same observations: the instrument's height and the reflector's.
#[derive(Clone, Copy)]
pub(crate) struct Unshown {
    number: Option<Number>,
    run: Option<Run>,
    limit: Option<u64>,
    least: Option<u128>,
}

impl Unshown {
    /// Nothing was asked for yet.
    pub fn new() -> Unshown {
        Unshown {
            number: None,
            run: None,
            limit: None,
            least: None,
        }
    }

    /// Whether changes of a number beyond this limit, or a greater one, were not shown to be costly.
    pub fn is_mild(&self, number: &Number, run: Run, limit: u64) -> bool {
        self.is_alike(number, run) && self.limit.is_some_and(|other| limit <= other)
    }

    /// Whether a number was not shown to leave this, or even less.
    pub fn is_less(&self, number: &Number, run: Run, least: u128) -> bool {
        self.is_alike(number, run) && self.least.is_some_and(|other| other <= least)
    }

    /// The same, of just this number.
    pub fn is_own_less(&self, number: &Number, least: u128) -> bool {
        self.number == Some(*number) && self.least.is_some_and(|other| other <= least)
    }

    /// Notes that changes of a number beyond this limit were not shown to be costly.
    pub fn note_mild(&mut self, number: &Number, run: Run, limit: u64) {
        self.turn_to(number, run);
        self.limit = Some(limit);
    }

    /// Notes that a number was not shown to leave this.
    pub fn note_less(&mut self, number: &Number, run: Run, least: u128) {
        self.turn_to(number, run);
        self.least = Some(least);
    }

    /// Whether the same is known of a number as of the one that was asked for last.
    fn is_alike(&self, number: &Number, run: Run) -> bool {
        self.number == Some(*number)
            || (run.is_whole
                && self.run.is_some_and(|own| {
                    own.is_whole && own.start == run.start && own.end == run.end
                }))
    }

    /// Forgets what was noted of numbers that are not alike.
    fn turn_to(&mut self, number: &Number, run: Run) {
        if !self.is_alike(number, run) {
            self.limit = None;
            self.least = None;
        }
        self.number = Some(*number);
        self.run = Some(run);
    }
}
