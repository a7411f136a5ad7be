//! The strengths, controls and blames of a network, from one cut tree.
ghost use Rattle.std.specs.Prelude.{IfOk};
ghost use Rattle.th_reliability.specs.Effects.{AreBlames};
ghost use Rattle.th_reliability.specs.Inside.Graphs.{IsGraphOf};
ghost use Rattle.th_reliability.specs.Numbers.{AreControls, AreStrengths};

use crate::blames::Blame;
use crate::controls::controls_of;
use crate::edges::edges_of;
use crate::own_blames::own_blames_of;
use crate::strengths::strengths_of;
use std::alloc::{AllocError, Global};
use th_cuts::CutTree;
use th_network::Network;
use th_progress::Progress;

/// The strengths of a network's points and the controls of its observations, with what mistakes in these
/// would move.
#[derive(Debug, Drop)]
pub struct Reliability {
    /// The strength of each point, in point order; `None` for a benchmark.
    pub strengths: Vec<Option<u32>>,
    /// The control of each observation, in order; `None` between two benchmarks.
    pub controls: Vec<Option<u32>>,
    /// What a mistake in each observation would move, in order; `None` where it shows.
    pub blames: Vec<Option<Blame>>,
}

impl Reliability {
    /// Finds them by a least cut for each point that is no benchmark, and a few more. Only an
    /// allocation can fail.
    pub fn of<P: Progress>(
        alloc: Global,
        network: &Network,
        progress: &mut P,
    ) -> Result<Reliability, AllocError>
        ensures strengths { IfOk result (λ found. AreStrengths network.now found.strengths.items) }
        ensures controls { IfOk result (λ found. AreControls network.now found.controls.items) }
        ensures blames { IfOk result (λ found. AreBlames network.now found.controls.items found.blames.items) }
    {
        let tree = tree_of(alloc, network, progress)?;
        let strengths = strengths_of(alloc, network, &tree)?;
        let controls = controls_of(alloc, network, &tree)?;
        let blames = own_blames_of(alloc, network, &tree, &controls)?;
        Ok(Reliability {
            strengths,
            controls,
            blames,
        })
    }
}

/// The strength of each point, in point order, as in `Reliability`; `None` for a benchmark.
/// Controls are not computed.
pub fn point_strengths<P: Progress>(
    alloc: Global,
    network: &Network,
    progress: &mut P,
) -> Result<Vec<Option<u32>>, AllocError>
    ensures { IfOk result (λ strengths. AreStrengths network.now strengths.items) }
{
    let tree = tree_of(alloc, network, progress)?;
    strengths_of(alloc, network, &tree)
}

/// The cut tree of the graph over a network's vertices.
fn tree_of<P: Progress>(
    alloc: Global,
    network: &Network,
    progress: &mut P,
) -> Result<CutTree, AllocError>
    ensures { IfOk result (λ tree. IsGraphOf network.now tree) }
{
    let edges = edges_of(alloc, network)?;
    CutTree::of(alloc, network.vertices(), edges, progress)
}
