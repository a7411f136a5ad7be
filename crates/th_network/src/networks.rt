//! The height network: how it is built, and its points, observations, vertices and arcs.
ghost use Rattle.std.specs.Prelude.{◌≡◌, ◌≢◌, ◌+◌, ◌<◌, ◌≤◌, All, Contains, Err, IfErr, IfOk, IfSome, IsSome, List, OnOk, Some, ℕ, bytes_eq, length, slice_get, unsigned_abs};
ghost use Rattle.std.specs.List.{IsDistinct};
ghost use Rattle.th_observations.specs.Observed.{IsBetweenPoints};
ghost use Rattle.th_network.specs.Faults.{HasFault, IsNetwork};
ghost use Rattle.th_network.specs.Limits.{max_observations, max_points};
ghost use Rattle.th_network.specs.Links.{largest_link_difference};
ghost use Rattle.th_network.specs.Inside.Linked.{AreLinks};
ghost use Rattle.th_network.specs.Networks.{HaveSameEnds, IsWeight, arcs_of, heights_of, point_vertices_of, points_of, surveyed, vertices_of, weights_of};
ghost use Rattle.th_points.specs.Ends.{AreBelow, ends_of};
ghost use Rattle.th_network.specs.declared.faults.NetFault.TheVariants.{NoMemory, TooManyObservations};
ghost use Rattle.th_tables.specs.Limits.{max_weight};
ghost use Rattle.th_tables.specs.Rows.{height_of};
ghost use Rattle.th_units.specs.Limits.{max_len};

use crate::anchors::first_untied;
use crate::faults::NetFault;
use crate::links::{Link, links_of};
use crate::sites::Sites;
use crate::vertices::Vertices;
use crate::weights::weights_of;
use gsi_word::Name;
use std::alloc::{AllocError, Global};
use std::marker::Model;
use std::rc::Rc;
use th_hash::NameSet;
use th_limits::{MAX_OBSERVATIONS, MAX_POINTS};
use th_observations::Observation;
use th_tables::{Benchmarks, Weights};

/// The height network of some observations, over the tables of its benchmarks and weights, which it
/// borrows. The height of each point and the weight of each observation are looked up once, and so
/// are the points where an observation ends. The points' vertices are numbered once.
#[derive(Drop)]
pub struct Network<'a> {
    observations: Vec<Observation>,
    benchmarks: &'a Benchmarks,
    weight_table: &'a Weights,
    layout: Rc<Layout>,
    weights: Vec<u32>,
    arcs: Vec<Link>,
}

/// The points of a network, where its observations end among them, and the vertices: what networks
/// share whose differences alone are other ones.
#[derive(Drop)]
struct Layout {
    points: NameSet<Name>,
    heights: Vec<Option<i64>>,
    ends: Vec<(usize, usize)>,
    point_vertices: Vec<u32>,
    vertices: u32,
}

impl<'a> Model for Network<'a> {
    ghost use Rattle.th_network.specs.Networks.{IsBuilt, Survey, surveyed};

    ghost Value = { Survey };

    ghost view = { λ network. surveyed network.observations.items network.benchmarks.now
        network.weight_table.now };

    ghost invariant = { λ network. IsBuilt (surveyed network.observations.items network.benchmarks.now
        network.weight_table.now) network.layout.value.points.keys network.layout.value.heights.items
        network.layout.value.ends.items network.weights.items network.layout.value.point_vertices.items
        network.layout.value.vertices network.arcs.items };
}

impl<'a> Network<'a> {
    /// Makes the network of some observations, or returns their first fault in the order of
    /// `NetFault`. `NoMemory` may occur unless there are too many observations. The time is nearly
    /// proportional to the number of observations, points and benchmarks.
    pub fn build(
        alloc: Global,
        observations: Vec<Observation>,
        benchmarks: &'a Benchmarks,
        weights: &'a Weights,
    ) -> Result<Network<'a>, NetFault>
        ensures survey { IfOk result (λ network. network
            ≡ surveyed observations.items benchmarks.now weights.now) }
        ensures network { OnOk result (IsNetwork observations.items benchmarks.now) }
        ensures fault { IfErr result (λ fault.
            fault ≢ NoMemory → HasFault observations.items benchmarks.now fault) }
        ensures many { max_observations < length observations.items
            → result ≡ Err TooManyObservations }
    {
        if observations.len() > MAX_OBSERVATIONS {
            return Err(NetFault::TooManyObservations);
        }
        let sites = Sites::of(alloc, &observations, benchmarks)?;
        if sites.count() > MAX_POINTS {
            return Err(NetFault::TooManyPoints);
        }
        if let Some(name) = first_untied(alloc, &sites)? {
            return Err(NetFault::NoBenchmark(name));
        }
        let vertices = Vertices::of(alloc, &sites)?;
        let arcs = links_of(alloc, &sites, &vertices)?;
        let listed = weights_of(alloc, &observations, weights)?;
        let Sites {
            points,
            heights,
            ..
        } = sites;
        let own = Layout {
            points: points.names,
            heights,
            ends: points.ends,
            point_vertices: vertices.of_places,
            vertices: vertices.count,
        };
        let layout = shared(alloc, own)?;
        Ok(Network {
            observations,
            benchmarks,
            weight_table: weights,
            layout,
            weights: listed,
            arcs,
        })
    }

    /// The network of other observations that go from the same stations to the same targets, one by one. It
    /// shares the points and vertices of this one. Only an allocation can fail.
    pub fn with_differences(
        &self,
        alloc: Global,
        observations: Vec<Observation>,
    ) -> Result<Network<'a>, AllocError>
        requires { HaveSameEnds self.now.observations observations.items }
        ensures { IfOk result (λ network. network
            ≡ surveyed observations.items self.now.benchmarks self.now.weights) }
    {
        let layout = self.layout.clone()?;
        let weights = Vec::from_slice(alloc, &self.weights)?;
        let arcs = relinked(alloc, self, &observations)?;
        Ok(Network {
            observations,
            benchmarks: self.benchmarks,
            weight_table: self.weight_table,
            layout,
            weights,
            arcs,
        })
    }

    /// The points in order of first sight, the station before the target, and then the benchmarks
    /// that no observation names, in table order.
    pub fn points(&self) -> &[Name]
        ensures points { result.now ≡ points_of self.now }
        ensures distinct { IsDistinct bytes_eq result.now }
        ensures ends { All (λ o. Contains result.now o.station × Contains result.now o.target)
            self.now.observations }
        ensures benchmarks { (name : List ℕ)
            → IsSome (height_of self.now.benchmarks name) → Contains result.now name }
        ensures network { IsNetwork self.now.observations self.now.benchmarks }
    {
        self.layout.points.as_slice()
    }

    /// The table of its benchmarks.
    pub fn benchmarks(&self) -> &Benchmarks
        ensures { result.now ≡ self.now.benchmarks }
    {
        self.benchmarks
    }

    /// The table of its weights.
    pub fn weight_table(&self) -> &Weights
        ensures { result.now ≡ self.now.weights }
    {
        self.weight_table
    }

    /// The height of point `k`, from 0, in units of 10 nm, if it is a benchmark.
    pub fn fixed(&self, k: usize) -> Option<i64>
        requires { k < length (points_of self.now) }
        ensures height { slice_get (heights_of self.now) k ≡ Some result }
        ensures in_range { IfSome result (λ height. unsigned_abs height ≤ max_len) }
    {
        self.layout.heights[k]
    }

    /// The observations in their order.
    pub fn observations(&self) -> &[Observation]
        ensures observations { result.now ≡ self.now.observations }
        ensures few { length self.now.observations ≤ max_observations }
        ensures between { All IsBetweenPoints self.now.observations }
        ensures network { IsNetwork self.now.observations self.now.benchmarks }
    {
        &self.observations
    }

    /// For each observation the places of its station and its target among the points, counted from 0.
    pub fn ends(&self) -> &[(usize, usize)]
        ensures ends { result.now ≡ ends_of self.now.observations self.now.benchmarks }
        ensures within { All (AreBelow (length (points_of self.now))) result.now }
    {
        &self.layout.ends
    }

    /// The weight of each observation.
    pub fn weights(&self) -> &[u32]
        ensures weights { result.now ≡ weights_of self.now }
        ensures in_range { All IsWeight result.now }
        ensures few { length result.now ≤ max_observations }
    {
        &self.weights
    }

    /// The weight of observation `i`, counted from 0.
    pub fn weight(&self, i: usize) -> u32
        requires { i < length self.now.observations }
        ensures weight { slice_get (weights_of self.now) i ≡ Some result }
        ensures positive { 1 ≤ result }
        ensures in_range { result ≤ max_weight }
    {
        self.weights[i]
    }

    /// How many vertices there are: 0 for all benchmarks, and one for each other point.
    pub fn vertices(&self) -> u32
        ensures vertices { result ≡ vertices_of self.now }
        ensures few { result ≤ max_points + 1 }
    {
        self.layout.vertices
    }

    /// The vertex of each point, in point order: 0 for each benchmark.
    pub fn point_vertices(&self) -> &[u32]
        ensures vertices { result.now ≡ point_vertices_of self.now }
        ensures within { All (λ vertex. vertex < vertices_of self.now) result.now }
    {
        &self.layout.point_vertices
    }

    /// The observations as arcs between vertices, in their order.
    pub fn arcs(&self) -> &[Link]
        ensures arcs { result.now ≡ arcs_of self.now }
        ensures ends { All (λ arc. (arc.tail < vertices_of self.now) × (arc.head < vertices_of self.now))
            result.now }
        ensures in_range { All (λ arc. unsigned_abs arc.diff ≤ largest_link_difference) result.now }
    {
        &self.arcs
    }
}

/// A layout that networks share.
fn shared(alloc: Global, layout: Layout) -> Result<Rc<Layout>, AllocError>
    ensures { IfOk result (λ own. own.value ≡ layout) }
{
    Ok(Rc::new(alloc, layout)?)
}

/// The arcs of a network if its observations have these differences.
fn relinked(
    alloc: Global,
    network: &Network<'_>,
    observations: &[Observation],
) -> Result<Vec<Link>, AllocError>
    requires { HaveSameEnds network.now.observations observations.now }
    ensures { IfOk result (λ arcs. AreLinks observations.now network.now.benchmarks arcs.items) }
{
    let arcs = network.arcs.as_slice();
    let old = network.observations.as_slice();
    let mut links = Vec::with_capacity(alloc, observations.len())?;
    for (i, o) in observations.iter().enumerate() {
        let Link { tail, head, diff } = arcs[i];
        let without = diff - old[i].difference();
        let diff = o.diff + without;
        links.push(Link { tail, head, diff })?;
    }
    Ok(links)
}
