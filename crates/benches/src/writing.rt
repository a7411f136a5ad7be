//! Heights and flows tested against a network, and the text of the certificate that they give.
ghost use Rattle.std.specs.Prelude.{◌≡◌, ◌≤◌, All, IfOk, length, unsigned_abs};
ghost use Rattle.th_network.specs.Networks.{AreAtPoints, AreOfObservations};

use crate::large::Large;
use anyhow::{Result, anyhow};
use std::alloc::Global;
use th_certificate::write_certificate;
use th_limits::MAX_WEIGHT;
use th_network::{Network, Settled, Spans};

/// The text of the certificate of a network, whose lowest and highest best heights are the heights.
pub fn text_of(alloc: Global, network: &Network, large: &Large) -> Result<Vec<u8>> {
    let settled = Settled {
        heights: heights_of(alloc, network, &large.heights)?,
        flows: flows_of(alloc, network, &large.flows)?,
    };
    let spans = Spans {
        low: heights_of(alloc, network, &large.heights)?,
        high: heights_of(alloc, network, &large.heights)?,
    };
    Ok(write_certificate(alloc, network, &settled, &spans)?)
}

/// These heights, where they are in their range and there is one for each point.
pub fn heights_of(alloc: Global, network: &Network, units: &[i64]) -> Result<Vec<i64>>
    ensures { IfOk result (λ heights. AreAtPoints network.now heights.items) }
{
    let mut heights = Vec::new(alloc);
    for height in units {
        if height.unsigned_abs() >= 100_000_000_000_000_000 {
            return Err(anyhow!("a height"));
        }
        heights.push(*height)?;
    }
    if heights.len() != network.points().len() {
        return Err(anyhow!("the count of heights"));
    }
    Ok(heights)
}

/// These flows, where they are in their range and there is one for each observation.
pub fn flows_of(alloc: Global, network: &Network, units: &[i64]) -> Result<Vec<i64>>
    ensures { IfOk result (λ flows. AreOfObservations network.now flows.items) }
{
    let mut flows = Vec::new(alloc);
    for flow in units {
        if flow.unsigned_abs() > u64::from(MAX_WEIGHT) {
            return Err(anyhow!("a flow"));
        }
        flows.push(*flow)?;
    }
    if flows.len() != network.observations().len() {
        return Err(anyhow!("the count of flows"));
    }
    Ok(flows)
}
