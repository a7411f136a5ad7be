//! Cut trees as callers see them: built from a graph, they give least cuts between two vertices.
ghost use Rattle.std.specs.Prelude.{◌≡◌, ◌≢◌, ◌<◌, ℕ, Bool, IfOk};
ghost use Rattle.th_cuts.specs.Cuts.{IsLeastCut, IsLeastSide};
ghost use Rattle.th_cuts.specs.CutWeights.{cut_weight};
ghost use Rattle.th_cuts.specs.Graphs.{IsGraph};

use crate::branches::Branches;
use crate::edges::Edge;
use crate::graphs::Graph;
use std::alloc::{AllocError, Global};
use std::marker::Model;
use th_progress::Progress;

/// One least cut for each vertex but 0 (Gusfield 1990), from which the least cut between any two
/// vertices can be read.
#[derive(Drop)]
pub struct CutTree {
    branches: Branches,
}

impl Model for CutTree {
    ghost use Rattle.th_cuts.specs.Cuts.{Weighted};

    ghost Value = { Weighted };

    ghost view = { λ tree. record {
      vertices = tree.branches.graph.vertices;
      edges = tree.branches.graph.edges.items;
    } };
}

impl CutTree {
    /// Makes the cuts, and shows how many there are. The time is that of one least cut for each
    /// vertex, the memory a byte for each pair of vertices.
    pub fn of<P: Progress>(
        alloc: Global,
        vertices: u32,
        edges: Vec<Edge>,
        progress: &mut P,
    ) -> Result<CutTree, AllocError>
        requires { IsGraph vertices edges.items }
        ensures vertices { IfOk result (λ tree. tree.vertices ≡ vertices) }
        ensures cuts { IfOk result (λ tree. (inside : ℕ → Bool)
            → cut_weight inside tree.edges ≡ cut_weight inside edges.items) }
    {
        let graph = Graph::of(alloc, vertices, &edges)?;
        let branches = Branches::of(alloc, graph, progress)?;
        Ok(CutTree { branches })
    }

    /// The weight of the lightest cut between two vertices. The time is about the length of the way
    /// between them in the tree, or that of a least cut if the tree's own cut does not separate
    /// them.
    pub fn least(&self, alloc: Global, first: u32, second: u32) -> Result<u32, AllocError>
        requires first { first < self.now.vertices }
        requires second { second < self.now.vertices }
        requires apart { first ≢ second }
        ensures { IfOk result (λ value. IsLeastCut self.now.edges first second value) }
    {
        self.branches.least(alloc, first, second)
    }

    /// A side of the lightest cut between two vertices: for each vertex whether it is on it. The time
    /// is that of `least`, and that of a copy of the side.
    pub fn least_side(
        &self,
        alloc: Global,
        first: u32,
        second: u32,
    ) -> Result<Vec<bool>, AllocError>
        requires first { first < self.now.vertices }
        requires second { second < self.now.vertices }
        requires apart { first ≢ second }
        ensures { IfOk result (λ side. IsLeastSide self.now.edges first second side.items) }
    {
        self.branches.least_side(alloc, first, second)
    }
}
