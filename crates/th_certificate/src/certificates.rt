//! What a certificate holds: heights, in version 2 also lowest and highest ones, flows and a cost.
ghost use Rattle.std.specs.Prelude.{◌≡◌, ◌<◌, ◌⊎◌};
ghost use Rattle.std.specs.Option.{option_copied};
ghost use Rattle.th_certificate.specs.Certified.{AreFlows, IsOfVersion, cost_limit};

use crate::heights::StatedHeights;
use std::marker::Model;

/// A certificate: heights, the lowest and the highest of the best heights (in version 2), a flow
/// for each observation, and a cost in units of 10 nm.
#[derive(Debug, Drop)]
pub struct Certificate {
    pub(crate) version: u32,
    pub(crate) heights: StatedHeights,
    pub(crate) low: Option<StatedHeights>,
    pub(crate) high: Option<StatedHeights>,
    pub(crate) flows: Vec<i64>,
    pub(crate) cost: u128,
}

impl Model for Certificate {
    ghost use Rattle.std.specs.Prelude.{◌<◌};
    ghost use Rattle.th_certificate.specs.Certified.{AreFlows, Certified, IsOfVersion, cost_limit};

    ghost Value = { Certified };

    ghost view = { λ certificate. record {
      version = certificate.version;
      heights = certificate.heights;
      low = certificate.low;
      high = certificate.high;
      flows = certificate.flows.items;
      cost = certificate.cost;
    } };

    ghost invariant = { λ certificate. AreFlows certificate.flows.items
        × (certificate.cost < cost_limit)
        × IsOfVersion certificate.version certificate.low certificate.high };
}

impl Certificate {
    /// The version of the certificate's text: 1 without lowest and highest heights, 2 with both.
    pub fn version(&self) -> u32
        ensures version { result ≡ self.now.version }
        ensures spans { IsOfVersion result self.now.low self.now.high }
    {
        self.version
    }

    /// The heights.
    pub fn heights(&self) -> &StatedHeights
        ensures { result.now ≡ self.now.heights }
    {
        &self.heights
    }

    /// The lowest best heights; `None` in version 1.
    pub fn low(&self) -> Option<&StatedHeights>
        ensures { option_copied result ≡ self.now.low }
    {
        self.low.as_ref()
    }

    /// The highest best heights; `None` in version 1.
    pub fn high(&self) -> Option<&StatedHeights>
        ensures { option_copied result ≡ self.now.high }
    {
        self.high.as_ref()
    }

    /// The flows of the observations in their order, each below 10^9 in size.
    pub fn flows(&self) -> &[i64]
        ensures flows { result.now ≡ self.now.flows }
        ensures in_range { AreFlows result.now }
    {
        &self.flows
    }

    /// The cost, below 10^30.
    pub fn cost(&self) -> u128
        ensures cost { result ≡ self.now.cost }
        ensures in_range { result < cost_limit }
    {
        self.cost
    }
}
