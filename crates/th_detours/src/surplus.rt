//! What flows through a number in flows that were kept, what is sent back of it, and what that shows.

/// What is asked of a number whose walks begin with flows that were kept.
#[derive(Clone, Copy)]
pub struct Aim {
    /// What flows from the base into the links of the number in the best flows, and in those that were kept: some,
    /// or nothing, in the same direction.
    pub need: i64,
    pub now: i64,
    /// By how much less those that were kept gain.
    pub lost: i64,
    /// The number explains no more than this, if that can be shown.
    pub worth: u64,
    /// A path is good if it is no longer than this.
    pub limit: u64,
}

/// What is left to be sent back of what flows through a number, and what is sent beyond.
#[derive(Clone, Copy)]
pub(crate) struct Surplus {
    left: u64,
    over: u64,
    /// By how much less the flows gain than the best ones.
    lost: i128,
}

impl Surplus {
    /// Nothing is sent back yet.
    pub fn of(aim: &Aim) -> Surplus {
        Surplus {
            left: aim.now.unsigned_abs(),
            over: 0,
            lost: i128::from(aim.lost),
        }
    }

    /// How long a good path is.
    pub fn good(&self, aim: &Aim, fine: u64) -> Option<u64> {
        let mut good = 0u64;
        if self.left > 0 {
            let room = i128::from(aim.worth).checked_sub(self.lost)?.max(0);
            let each = u64::try_from(room).ok()?.checked_div(self.left)?;
            good = each.checked_div(fine)?;
        }
        Some(good.max(aim.limit).max(1))
    }

    /// How much is to be sent along the next path.
    pub fn wanted(&self, aim: &Aim) -> Option<u64> {
        if self.left > 0 {
            return Some(self.left);
        }
        let most = aim.need.unsigned_abs().checked_mul(2)?;
        let wanted = most.checked_sub(self.over)?;
        if wanted == 0 {
            return None;
        }
        Some(wanted)
    }

    /// Takes what is sent along a path whose units cost so much.
    pub fn take(&mut self, amount: u64, cost: i64) -> Option<()> {
        let price = i128::from(amount).checked_mul(i128::from(cost))?;
        self.lost = self.lost.checked_add(price)?;
        if self.left > 0 {
            self.left = self.left.checked_sub(amount)?;
        } else {
            self.over = self.over.checked_add(amount)?;
        }
        Some(())
    }

    /// Whether enough is shown: by the mean with the best flows of which nothing flows through the number.
    pub fn shows(&self, aim: &Aim) -> Option<bool> {
        if self.left > 0 {
            return Some(false);
        }
        let need = i128::from(aim.need.unsigned_abs());
        let over = i128::from(self.over);
        let parts = need.checked_add(over)?;
        let lost = self.lost.checked_mul(need)?;
        Some(lost <= i128::from(aim.worth).checked_mul(parts)?)
    }
}
