//! Lines below what a network costs as one number changes, and what two of them show together.
//!
//! A circulation bounds what a network costs, whatever a number is changed by: by its value, and by what
//! flows through the number for each unit of the change. Where one such line rises and another one falls,
//! some mean of the two is level: at least so much is left, if the number is freed.
ghost use Rattle.std.specs.Prelude.{◌≡◌, ◌<◌, ◌⊎◌, ◌+◌, ◌*◌, ◌+ℤ◌, ◌*ℤ◌, ◌≤ℤ◌, ℕ, pos, IfSome, true, unsigned_abs};
ghost use Rattle.th_changes.specs.Inside.Paid.{ArePaid, IsPaidAbove, IsPaidBelow};
ghost use Rattle.th_changes.specs.Lines.{IsCostlyBeyond, IsLine, LeavesAtLeast};
ghost use Rattle.th_changes.specs.declared.numbers.Number.{Number};
ghost use Rattle.th_network.specs.Networks.{Survey};

/// A line below what a network costs as a number changes.
#[derive(Clone, Copy, Debug)]
pub struct Line {
    /// By how much it is below the cost of the network, where the number is as given.
    pub lost: i64,
    /// How much it rises for each unit by which the number grows: what flows through the number.
    pub net: i64,
}

/// How many units of two lines are level together, if one rises as the other falls. Nothing is promised: it is
/// checked.
#[derive(Clone, Copy)]
struct Shares {
    own: u64,
    others: u64,
}

impl Shares {
    /// Of lines that rise so much.
    fn of(net: i64, other: i64) -> Shares {
        if net == 0 {
            Shares { own: 1, others: 0 }
        } else if other == 0 {
            Shares { own: 0, others: 1 }
        } else {
            Shares {
                own: other.unsigned_abs(),
                others: net.unsigned_abs(),
            }
        }
    }
}

impl Line {
    /// Whether this line and another one show that at least so much is left, whatever the number is changed
    /// by. The network costs `cost`.
    pub fn leave_at_least(&self, other: &Line, cost: u128, least: u128) -> bool
        ensures { result ≡ true → (survey : Survey) (number : Number) → IsLine survey number cost self.now
            → IsLine survey number cost other.now → LeavesAtLeast survey number least }
    {
        let shares = Shares::of(self.net, other.net);
        match self.are_paid(other, shares, cost, least) {
            Some(()) => true,
            None => false,
        }
    }

    /// Whether so many units of this line and of another one are level together, and are paid by what a cost
    /// is above another one.
    fn are_paid(&self, other: &Line, shares: Shares, cost: u128, least: u128) -> Option<()>
        ensures { IfSome result (λ done. ArePaid self.now shares.own other.now shares.others cost least) }
    {
        let Shares { own, others } = shares;
        let room = cost.checked_sub(least)?;
        let all = sum_of_level(own, self.net, others, other.net)?;
        let price = price_of(own, self.lost, others, other.lost)?;
        if price > all.checked_mul(room)? {
            return None;
        }
        Some(())
    }

    /// Whether this line and another one show that no change of the number beyond a limit makes the network
    /// cost less.
    pub fn are_costly_beyond(&self, other: &Line, limit: u64) -> bool
        ensures { result ≡ true → (survey : Survey) (number : Number) (cost : ℕ)
            → IsLine survey number cost self.now → IsLine survey number cost other.now
            → IsCostlyBeyond survey number cost limit }
    {
        is_either_above(self, other, limit) && is_either_below(self, other, limit)
    }

    /// Whether the line is nowhere below the cost if the number grows by more than a limit.
    fn is_paid_above(&self, limit: u64) -> bool
        ensures { result ≡ true → IsPaidAbove limit self.now }
    {
        self.net >= 0 && is_paid(self.lost, limit, self.net)
    }

    /// The same, if the number shrinks by more.
    fn is_paid_below(&self, limit: u64) -> bool
        ensures { result ≡ true → IsPaidBelow limit self.now }
    {
        self.net <= 0 && is_paid(self.lost, limit, self.net)
    }
}

/// Whether one of two lines is nowhere below the cost if the number grows by more than a limit.
fn is_either_above(line: &Line, other: &Line, limit: u64) -> bool
    ensures { result ≡ true → IsPaidAbove limit line.now ⊎ IsPaidAbove limit other.now }
{
    line.is_paid_above(limit) || other.is_paid_above(limit)
}

/// The same, if the number shrinks by more.
fn is_either_below(line: &Line, other: &Line, limit: u64) -> bool
    ensures { result ≡ true → IsPaidBelow limit line.now ⊎ IsPaidBelow limit other.now }
{
    line.is_paid_below(limit) || other.is_paid_below(limit)
}

/// How many units of two lines there are, if so many of each rise and fall equally, and there are some.
fn sum_of_level(own: u64, net: i64, others: u64, other: i64) -> Option<u128>
    ensures sum { IfSome result (λ sum. sum ≡ own + others) }
    ensures some { IfSome result (λ sum. 0 < sum) }
    ensures level { IfSome result (λ sum. pos own *ℤ net +ℤ pos others *ℤ other ≡ pos 0) }
{
    let rise = i128::from(own).checked_mul(i128::from(net))?;
    let fall = i128::from(others).checked_mul(i128::from(other))?;
    let together = rise.checked_add(fall)?;
    let sum = u128::from(own).checked_add(u128::from(others))?;
    if together != 0 || sum == 0 {
        return None;
    }
    Some(sum)
}

/// What so many units of two lines lose together.
fn price_of(own: u64, lost: i64, others: u64, other: i64) -> Option<u128>
    ensures { IfSome result (λ price. price ≡ own * unsigned_abs lost + others * unsigned_abs other) }
{
    let first = u128::from(own).checked_mul(u128::from(lost.unsigned_abs()))?;
    let second = u128::from(others).checked_mul(u128::from(other.unsigned_abs()))?;
    let price = first.checked_add(second)?;
    Some(price)
}

/// Whether what is lost is at most a limit for each unit that flows.
fn is_paid(lost: i64, limit: u64, flow: i64) -> bool
    ensures { result ≡ true → lost ≤ℤ pos (limit * unsigned_abs flow) }
{
    match limit.checked_mul(flow.unsigned_abs()) {
        Some(most) => lost.unsigned_abs() <= most,
        None => false,
    }
}
