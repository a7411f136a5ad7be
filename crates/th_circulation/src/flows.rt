//! Flows that were found elsewhere: whether they are a circulation of a graph.
ghost use Rattle.std.specs.Prelude.{◌≡◌, ◌+ℤ◌, ℕ, pos, All, IfOk, IfSome, eqb, if◌then◌else◌, length, true};
ghost use Rattle.th_circulation.specs.Inside.Balances.{AreBalances};
ghost use Rattle.th_circulation.specs.Inside.Flows.{AreBounded, IsFlow, arriving, leaving};
ghost use Rattle.th_network.specs.Circulation.{Circulation};
ghost use Rattle.th_network.specs.Networks.{AreOfObservations};
ghost use Rattle.th_search.specs.Potentials.{value_at};

use crate::graphs::LinkGraph;
use std::alloc::{AllocError, Global};
use th_network::Network;

/// Whether flows of the observations are a circulation of a network.
pub fn is_circulation(alloc: Global, network: &Network, flows: &[i64]) -> Result<bool, AllocError>
    ensures each { IfOk result (λ holds. holds ≡ true → AreOfObservations network.now flows.now) }
    ensures circulation { IfOk result (λ holds. holds ≡ true
        → Circulation network.now.observations network.now.benchmarks network.now.weights flows.now) }
{
    if flows.len() != network.observations().len() {
        return Ok(false);
    }
    let graph = LinkGraph::of(network);
    let holds = is_flow(alloc, &graph, flows)?;
    Ok(holds)
}

/// Whether these are flows of the links, none more than its weight, and as much arrives at each vertex as leaves.
pub(crate) fn is_flow(alloc: Global, graph: &LinkGraph, flows: &[i64]) -> Result<bool, AllocError>
    ensures { IfOk result (λ holds. holds ≡ true → IsFlow graph.now.links.now graph.now.weights.now flows.now) }
{
    if flows.len() != graph.links.len() || !are_bounded(graph.weights, flows) {
        return Ok(false);
    }
    let mut balances = vec![in alloc; 0i64; graph.vertices as usize]?;
    Ok(are_level(&mut balances, graph, flows))
}

/// Whether there is a flow for each weight, none more than it.
fn are_bounded(weights: &[u32], flows: &[i64]) -> bool
    ensures { result ≡ true → AreBounded weights.now flows.now }
{
    if flows.len() != weights.len() {
        return false;
    }
    for k in 0..flows.len() {
        if flows[k].unsigned_abs() > u64::from(weights[k]) {
            return false;
        }
    }
    true
}

/// Whether as much arrives at each vertex as leaves, in a row of zeros for the balances of the vertices.
fn are_level(balances: &mut [i64], graph: &LinkGraph, flows: &[i64]) -> bool
    requires each { length flows.now ≡ length graph.now.links.now }
    requires zero { All (λ balance. balance ≡ pos 0) balances.old }
    ensures { result ≡ true → (vertex : ℕ)
        → arriving graph.now.links.now flows.now vertex ≡ leaving graph.now.links.now flows.now vertex }
{
    match add_all(balances, graph, flows) {
        Some(()) => are_zero(balances),
        None => false,
    }
}

/// Takes each flow from the balance of the vertex that it leaves, and gives it to the one where it arrives.
fn add_all(balances: &mut [i64], graph: &LinkGraph, flows: &[i64]) -> Option<()>
    requires each { length flows.now ≡ length graph.now.links.now }
    requires zero { All (λ balance. balance ≡ pos 0) balances.old }
    ensures { IfSome result (λ done. AreBalances graph.now.links.now flows.now (length flows.now) balances.new) }
{
    for k in 0..flows.len() {
        let link = graph.links[k];
        add(balances, link.head, flows[k])?;
        add(balances, link.tail, flows[k].checked_neg()?)?;
    }
    Some(())
}

/// Adds to the balance of a vertex.
fn add(balances: &mut [i64], vertex: u32, flow: i64) -> Option<()>
    ensures { IfSome result (λ done. (other : ℕ) → value_at balances.new other
        ≡ value_at balances.old other +ℤ (if eqb vertex other then flow else pos 0)) }
{
    let place = vertex as usize;
    if place >= balances.len() {
        return None;
    }
    balances[place] = balances[place].checked_add(flow)?;
    Some(())
}

/// Whether all balances are zero.
fn are_zero(balances: &[i64]) -> bool
    ensures { result ≡ true → All (λ balance. balance ≡ pos 0) balances.now }
{
    for balance in balances {
        if *balance != 0 {
            return false;
        }
    }
    true
}
