//! Best flows by cancelling negative cycles, and what flows and heights come to.
use crate::networks::{Network, Number};
use std::alloc::Global;
use std::process::Abort;
use th_detours::{End, Link};

/// How many cycles are cancelled at most.
const MOST_CYCLES: u32 = 1_000_000;

/// Best flows of links among so many vertices.
pub fn settled(rt: &impl Abort, alloc: Global, links: &[Link], vertices: u32) -> Vec<i64> {
    let mut links = links.to_vec(alloc).expect(rt, "memory");
    for link in links.iter_mut() {
        link.flow = 0;
    }
    for _ in 0..MOST_CYCLES {
        if cancel_one(rt, alloc, &mut links, vertices).is_none() {
            break;
        }
    }
    let mut flows = Vec::new(alloc);
    for link in &links {
        flows.push(link.flow).expect(rt, "memory");
    }
    flows
}

/// The links of a network with the ends of a number at one vertex more.
pub fn parted(rt: &impl Abort, alloc: Global, network: &Network, number: &Number) -> Vec<Link> {
    let mut links = network.links.to_vec(alloc).expect(rt, "memory");
    for (place, link) in links.iter_mut().enumerate() {
        match number.end(place) {
            Some(End::Tail) => link.tail = network.vertices,
            Some(End::Head) => link.head = network.vertices,
            None => {}
        }
    }
    links
}

/// Cancels a negative cycle, if there is one (Bellman and Ford).
fn cancel_one(rt: &impl Abort, alloc: Global, links: &mut [Link], vertices: u32) -> Option<()> {
    let count = vertices as usize;
    let mut costs = vec![in alloc; 0i64; count].expect(rt, "memory");
    let mut last: Vec<Option<(usize, bool)>> = vec![in alloc; None; count].expect(rt, "memory");
    let mut lowered = None;
    for _ in 0..count {
        lowered = None;
        for (place, link) in links.iter().enumerate() {
            let there = costs.get(link.tail as usize)?.checked_sub(link.difference)?;
            if link.flow < i64::from(link.weight) && there < *costs.get(link.head as usize)? {
                *costs.get_mut(link.head as usize)? = there;
                *last.get_mut(link.head as usize)? = Some((place, true));
                lowered = Some(link.head);
            }
            let back = costs.get(link.head as usize)?.checked_add(link.difference)?;
            let least = i64::from(link.weight).checked_neg()?;
            if link.flow > least && back < *costs.get(link.tail as usize)? {
                *costs.get_mut(link.tail as usize)? = back;
                *last.get_mut(link.tail as usize)? = Some((place, false));
                lowered = Some(link.tail);
            }
        }
    }
    let mut vertex = lowered?;
    for _ in 0..count {
        vertex = before(links, &last, vertex)?;
    }
    let room = go_round(links, &last, vertex, 0)?;
    go_round(links, &last, vertex, room)?;
    Some(())
}

/// The vertex before another on a cheapest walk.
fn before(links: &[Link], last: &[Option<(usize, bool)>], vertex: u32) -> Option<u32> {
    let (place, is_along) = (*last.get(vertex as usize)?)?;
    let link = links.get(place)?;
    Some(if is_along { link.tail } else { link.head })
}

/// Sends so much round the cycle back from a vertex. Returns how much more can flow there.
fn go_round(
    links: &mut [Link],
    last: &[Option<(usize, bool)>],
    from: u32,
    amount: i64,
) -> Option<i64> {
    let mut vertex = from;
    let mut room = i64::MAX;
    for _ in 0..last.len() {
        let (place, is_along) = (*last.get(vertex as usize)?)?;
        vertex = before(links, last, vertex)?;
        let link = links.get_mut(place)?;
        let weight = i64::from(link.weight);
        if is_along {
            link.flow = link.flow.checked_add(amount)?;
            room = room.min(weight.checked_sub(link.flow)?);
        } else {
            link.flow = link.flow.checked_sub(amount)?;
            room = room.min(weight.checked_add(link.flow)?);
        }
        if vertex == from {
            return Some(room);
        }
    }
    None
}

/// What flows gain: each times the difference of its link.
pub fn value(links: &[Link], flows: &[i64]) -> Option<i64> {
    let mut sum = 0i64;
    for (link, flow) in links.iter().zip(flows) {
        sum = sum.checked_add(link.difference.checked_mul(*flow)?)?;
    }
    Some(sum)
}

/// What flows through a number.
pub fn net(number: &Number, flows: &[i64]) -> Option<i64> {
    let mut sum = 0i64;
    for (touch, flow) in number.touches.iter().zip(flows) {
        sum = sum.checked_add(touch.checked_mul(*flow)?)?;
    }
    Some(sum)
}

/// Whether flows are within the weights of links, and in balance.
pub fn is_circulation(
    rt: &impl Abort,
    alloc: Global,
    links: &[Link],
    vertices: u32,
    flows: &[i64],
) -> Option<bool> {
    let mut balances = vec![in alloc; 0i64; vertices as usize].expect(rt, "memory");
    for (link, flow) in links.iter().zip(flows) {
        if flow.unsigned_abs() > u64::from(link.weight) {
            return Some(false);
        }
        let tail = balances.get_mut(link.tail as usize)?;
        *tail = tail.checked_sub(*flow)?;
        let head = balances.get_mut(link.head as usize)?;
        *head = head.checked_add(*flow)?;
    }
    Some(flows.len() == links.len() && balances.iter().all(|balance| *balance == 0))
}

/// Whether flows are best at these heights where a number changes by so much: each link with a residual is full.
pub fn is_slack(
    network: &Network,
    number: &Number,
    change: i64,
    heights: &[i64],
    flows: &[i64],
) -> Option<bool> {
    for ((link, touch), flow) in network.links.iter().zip(&number.touches).zip(flows) {
        let rise = heights
            .get(link.head as usize)?
            .checked_sub(*heights.get(link.tail as usize)?)?;
        let difference = link.difference.checked_add(change.checked_mul(*touch)?)?;
        let residual = difference.checked_sub(rise)?;
        let weight = i64::from(link.weight);
        let wanted = if residual > 0 {
            weight
        } else if residual < 0 {
            weight.checked_neg()?
        } else {
            *flow
        };
        if *flow != wanted {
            return Some(false);
        }
    }
    Some(true)
}
