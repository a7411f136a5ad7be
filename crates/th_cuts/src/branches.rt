//! The branches of a cut tree, and least cuts between any two vertices, found from them.
ghost use Rattle.std.specs.Prelude.{◌≡◌, ◌+◌, ◌-◌, ◌<◌, ◌≤◌, ◌⊎◌, ℕ, Bool, IfOk, length, slice_index_or, true};
ghost use Rattle.th_cuts.specs.Cuts.{IsLeastCut, IsLeastSide};
ghost use Rattle.th_cuts.specs.CutWeights.{cut_weight, separates};
ghost use Rattle.th_cuts.specs.Inside.CutTrees.{AreBranches, AreLone, IsBranch, IsCut, IsGrown, IsPair};

use crate::cuts::{Cut, cut_between};
use crate::graphs::Graph;
use crate::near::{lone_weights, near_rooms};
use std::alloc::{AllocError, Global};
use th_progress::{Progress, Work};

/// A least cut between a vertex and one before it.
#[derive(Drop)]
pub(crate) struct Branch {
    pub parent: u32,
    pub cut: Cut,
}

/// The branches of the vertices of a graph from 1 on, and what a further cut needs.
#[derive(Drop)]
pub(crate) struct Branches {
    pub graph: Graph,
    /// For each vertex what its edges weigh.
    pub lone: Vec<u32>,
    pub branches: Vec<Branch>,
    ghost grown: { IsGrown graph.vertices graph.edges.items lone.items branches.items },
}

impl Branches {
    /// Makes one cut for each vertex from 1 on.
    pub fn of<P: Progress>(
        alloc: Global,
        graph: Graph,
        progress: &mut P,
    ) -> Result<Branches, AllocError>
        ensures { IfOk result (λ branches. branches.graph ≡ graph) }
    {
        let lone = lone_weights(alloc, &graph)?;
        let branches = grow(alloc, &graph, &lone, progress)?;
        Ok(Branches {
            graph,
            lone,
            branches,
        })
    }

    /// The weight of the lightest cut between two vertices.
    ///
    /// No cut that separates them weighs less than the lightest branch on the way between them.
    /// That branch's own side mostly separates them too; if it does not, they get a cut of their
    /// own.
    pub fn least(&self, alloc: Global, first: u32, second: u32) -> Result<u32, AllocError>
        requires { IsPair self.now.graph.vertices first second }
        ensures { IfOk result (λ value. IsLeastCut self.now.graph.edges.items first second value) }
    {
        let lightest = self.lightest(first, second);
        let cut = &self.branches[lightest].cut;
        if cut.side[first as usize] != cut.side[second as usize] {
            return Ok(cut.value);
        }
        let cut = self.further(alloc, first, second)?;
        Ok(cut.value)
    }

    /// The side of the lightest cut between two vertices that `least` has the weight of.
    pub fn least_side(
        &self,
        alloc: Global,
        first: u32,
        second: u32,
    ) -> Result<Vec<bool>, AllocError>
        requires { IsPair self.now.graph.vertices first second }
        ensures { IfOk result (λ side. IsLeastSide self.now.graph.edges.items first second side.items) }
    {
        let lightest = self.lightest(first, second);
        let cut = &self.branches[lightest].cut;
        if cut.side[second as usize] != cut.side[first as usize] {
            return Vec::from_slice(alloc, &cut.side);
        }
        let cut = self.further(alloc, first, second)?;
        Ok(cut.side)
    }

    /// A least cut between two vertices, beside those of the tree.
    fn further(&self, alloc: Global, first: u32, second: u32) -> Result<Cut, AllocError>
        requires { IsPair self.now.graph.vertices first second }
        ensures { IfOk result (IsCut self.now.graph.vertices self.now.graph.edges.items first second) }
    {
        let most = self.lone[first as usize].min(self.lone[second as usize]);
        let rooms = near_rooms(alloc, &self.graph, &self.branches, second, most)?;
        cut_between(alloc, &self.graph, &self.lone, first, second, most, &rooms)
    }

    /// The number of the lightest branch on the way between two vertices.
    fn lightest(&self, first: u32, second: u32) -> usize
        requires { IsPair self.now.graph.vertices first second }
        ensures within { result < length self.now.branches.items }
        ensures least { (d : Branch) (inside : ℕ → Bool) → separates inside first second ≡ true
            → (slice_index_or self.now.branches.items result d).cut.value
            ≤ cut_weight inside self.now.graph.edges.items }
    {
        let (mut early, mut late) = in_order(first, second);
        let mut lightest = late as usize - 1;
        'walking: while early < late {
            let number = late as usize - 1;
            lightest = self.lighter(lightest, number);
            (early, late) = in_order(early, self.branches[number].parent);
        }
        lightest
    }

    /// The lighter one of two branches.
    fn lighter(&self, first: usize, second: usize) -> usize
        requires first { first < length self.now.branches.items }
        requires second { second < length self.now.branches.items }
        ensures within { result < length self.now.branches.items }
        ensures first { (d : Branch) → (slice_index_or self.now.branches.items result d).cut.value
            ≤ (slice_index_or self.now.branches.items first d).cut.value }
        ensures second { (d : Branch) → (slice_index_or self.now.branches.items result d).cut.value
            ≤ (slice_index_or self.now.branches.items second d).cut.value }
    {
        if self.branches[first].cut.value < self.branches[second].cut.value {
            first
        } else {
            second
        }
    }
}

/// Two vertices, the smaller number first.
fn in_order(first: u32, second: u32) -> (u32, u32)
    ensures order { result.0 ≤ result.1 }
    ensures same { ((result.0 ≡ first) × (result.1 ≡ second)) ⊎ ((result.0 ≡ second) × (result.1 ≡ first)) }
{
    if first < second {
        (first, second)
    } else {
        (second, first)
    }
}

/// Makes one cut for each vertex from 1 on, from a vertex before it (Gusfield's tree). The parents
/// are chosen so that few pairs need a cut of their own; no proof depends on the choice.
fn grow<P: Progress>(
    alloc: Global,
    graph: &Graph,
    lone: &[u32],
    progress: &mut P,
) -> Result<Vec<Branch>, AllocError>
    requires { AreLone graph.now.vertices graph.now.edges.items lone.now }
    ensures each { IfOk result (λ branches. length branches.items ≡ graph.now.vertices - 1) }
    ensures branches { IfOk result (λ branches.
        AreBranches graph.now.vertices graph.now.edges.items branches.items) }
{
    let mut parents = vec![in alloc; 0u32; graph.vertices as usize]?;
    let mut branches = Vec::new(alloc);
    for vertex in 1..graph.vertices {
        progress.show(Work::Cuts, branches.len(), graph.vertices as usize - 1);
        let parent = parents[vertex as usize].min(vertex - 1);
        let branch = branch_of(alloc, graph, lone, &branches, vertex, parent)?;
        adopt(&mut parents, vertex, parent, &branch.cut.side);
        branches.push(branch)?;
    }
    Ok(branches)
}

/// The branch from a vertex to one before it.
fn branch_of(
    alloc: Global,
    graph: &Graph,
    lone: &[u32],
    branches: &[Branch],
    vertex: u32,
    parent: u32,
) -> Result<Branch, AllocError>
    requires lone { AreLone graph.now.vertices graph.now.edges.items lone.now }
    requires branches { AreBranches graph.now.vertices graph.now.edges.items branches.now }
    requires each { length branches.now + 1 ≡ vertex }
    requires vertex { vertex < graph.now.vertices }
    requires parent { parent < vertex }
    ensures { IfOk result (λ branch. IsBranch graph.now.vertices graph.now.edges.items vertex branch) }
{
    let most = lone[vertex as usize].min(lone[parent as usize]);
    let rooms = near_rooms(alloc, graph, branches, parent, most)?;
    let cut = cut_between(alloc, graph, lone, vertex, parent, most, &rooms)?;
    Ok(Branch { parent, cut })
}

/// Gives the later vertices on a vertex's side that have its parent the vertex as their parent.
fn adopt(parents: &mut Vec<u32>, vertex: u32, parent: u32, side: &[bool])
    ensures { length parents.new.items ≡ length parents.old.items }
{
    for later in vertex as usize..parents.len() {
        if later < side.len() && side[later] && parents[later] == parent {
            parents[later] = vertex;
        }
    }
}
