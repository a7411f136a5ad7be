//! How often a search is worth its time. One that finds nothing again and again is left out for a while.

/// A search is left out so many times at most before it is tried again.
const LONGEST: u32 = 63;

/// The pauses of a search: after each time that it finds nothing the next one is twice as long, and one more.
#[derive(Clone, Copy)]
pub(crate) struct Pauses {
    length: u32,
    left: u32,
}

impl Pauses {
    /// None: the search is tried at once.
    pub fn new() -> Pauses {
        Pauses { length: 0, left: 0 }
    }

    /// Whether the search is left out once more.
    pub fn wait(&mut self) -> bool {
        if self.left == 0 {
            return false;
        }
        self.left -= 1;
        true
    }

    /// Notes whether it found something.
    pub fn note(&mut self, is_found: bool) {
        self.length = if is_found {
            0
        } else {
            self.length.saturating_mul(2).saturating_add(1).min(LONGEST)
        };
        self.left = self.length;
    }
}
