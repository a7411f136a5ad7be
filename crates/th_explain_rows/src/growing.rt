//! What was found of numbers, compared with an amount that gets less as more are found.
ghost use Rattle.std.specs.Prelude.{◌≡◌, ◌++◌, IfOk, IfSome, OnOk, Some, [], ◌∷◌, map};
ghost use Rattle.th_explain_rows.specs.Inside.Growing.{AreLowered, IsNoMore, is_less, lowered};

use crate::finder::Finding;
use std::alloc::{AllocError, Global};
use th_explain_texts::MOST_ROWS;

/// What was found of numbers in their order, all compared with `least`, in units of 10 nm times weight, if it is given.
#[derive(Drop)]
pub(crate) struct Findings {
    pub all: Vec<Finding>,
    pub least: Option<u128>,
    /// What those that leave least leave, in rising order: as many as may be printed. Nothing is promised of them.
    best: Vec<u128>,
}

impl Findings {
    /// Nothing is found yet.
    pub fn new(alloc: Global, least: Option<u128>) -> Findings
        ensures all { result.all.items ≡ [] }
        ensures least { result.least ≡ least }
    {
        Findings {
            all: Vec::new(alloc),
            least,
            best: Vec::new(alloc),
        }
    }

    /// Adds what was found of one more number. Once so many leave less than `least` as may be printed, all are compared
    /// with what the last of these leaves.
    pub fn add(&mut self, alloc: Global, own: Finding) -> Result<(), AllocError>
        ensures { OnOk result (AreLowered self.old.least self.new.least (self.old.all.items ++ own ∷ []) self.new.all.items) }
    {
        self.all.push(own)?;
        self.note(&own)?;
        match self.lesser() {
            Some(left) => self.lower_to(alloc, left),
            None => Ok(()),
        }
    }

    /// Notes what a number leaves.
    fn note(&mut self, own: &Finding) -> Result<(), AllocError>
        ensures all { self.new.all ≡ self.old.all }
        ensures least { self.new.least ≡ self.old.least }
    {
        if let Finding::Exactly(freed) = own {
            self.best.push(freed.left)?;
            self.best.sort_unstable();
            self.best.truncate(MOST_ROWS);
        }
        Ok(())
    }

    /// What the last number leaves that may be printed, if that is less than `least`.
    fn lesser(&self) -> Option<u128>
        ensures { IfSome result (λ left. IsNoMore (Some left) self.now.least) }
    {
        let last = self.best.get(MOST_ROWS - 1).copied();
        if is_less(last, self.least) {
            last
        } else {
            None
        }
    }

    /// Compares all with a lesser amount.
    fn lower_to(&mut self, alloc: Global, left: u128) -> Result<(), AllocError>
        ensures least { OnOk result (self.new.least ≡ Some left) }
        ensures all { OnOk result (self.new.all.items ≡ map (lowered self.old.least (Some left)) self.old.all.items) }
    {
        self.all = all_lowered(alloc, &self.all, self.least, Some(left))?;
        self.least = Some(left);
        Ok(())
    }
}

/// What was found of some numbers, compared with a lesser amount.
fn all_lowered(
    alloc: Global,
    found: &[Finding],
    least: Option<u128>,
    left: Option<u128>,
) -> Result<Vec<Finding>, AllocError>
    ensures { IfOk result (λ findings. findings.items ≡ map (lowered least left) found.now) }
{
    let mut findings = Vec::with_capacity(alloc, found.len())?;
    for own in found {
        findings.push(lowered(own, least, left))?;
    }
    Ok(findings)
}

/// What was found of a number, compared with a lesser amount: one that leaves at least the greater leaves more than
/// the lesser.
pub(crate) fn lowered(finding: &Finding, least: Option<u128>, left: Option<u128>) -> Finding
    ensures { result ≡ lowered least left finding.now }
{
    match finding {
        Finding::Exactly(freed) => Finding::Exactly(*freed),
        Finding::Mild => Finding::Mild,
        Finding::More => Finding::More,
        Finding::AtLeast => {
            if is_less(left, least) {
                Finding::More
            } else {
                Finding::AtLeast
            }
        }
    }
}

/// Whether an amount is less than another one, which is above all if it is not given.
fn is_less(left: Option<u128>, least: Option<u128>) -> bool
    ensures { result ≡ is_less left least }
{
    match (left, least) {
        (Some(left), Some(least)) => left < least,
        (Some(_), None) => true,
        (None, _) => false,
    }
}
