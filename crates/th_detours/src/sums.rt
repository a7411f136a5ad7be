//! How much a proposal sends back, what that costs, and how much is still missing.

/// What a proposal comes to so far.
#[derive(Clone, Copy)]
pub(crate) struct Sum {
    /// What goes through the number.
    need: u64,
    /// How much is sent back, and what that costs.
    sent: u64,
    cost: u64,
}

impl Sum {
    /// Nothing is sent back yet of what goes through a number.
    pub fn of(need: i64) -> Sum {
        Sum {
            need: need.unsigned_abs(),
            sent: 0,
            cost: 0,
        }
    }

    /// Adds what is sent along a path of this length.
    pub fn add(&mut self, amount: u64, length: u64) -> Option<()> {
        self.sent = self.sent.checked_add(amount)?;
        self.cost = self.cost.checked_add(amount.checked_mul(length)?)?;
        Some(())
    }

    /// What is still missing: the cost above what a limit allows for all that is sent beyond the need.
    pub fn due(&self, limit: u64) -> Option<u64> {
        let allowed = limit.checked_mul(self.sent)?;
        let all = limit.checked_mul(self.need)?.checked_add(self.cost)?;
        Some(all.saturating_sub(allowed))
    }

    /// How much is to be sent along a path of this length for nothing to be missing.
    pub fn wanted(&self, limit: u64, length: u64) -> Option<u64> {
        let gain = limit.checked_sub(length)?;
        if gain == 0 {
            return None;
        }
        Some(self.due(limit)?.div_ceil(gain))
    }
}
