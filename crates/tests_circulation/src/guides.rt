//! Proposals of the guide: that they lead to optimal flows, and that nonsense is given up.
use crate::randoms::Random;
use crate::towers::{Second, settled_tower};
use std::alloc::Global;
use std::process::Abort;
use th_guide::{Guide, Link, ResidualArc};

/// Links among so many vertices, which a chain of them joins.
#[derive(Drop)]
struct Net {
    vertices: u32,
    links: Vec<Link>,
}

/// How wide a network is.
#[derive(Clone, Copy, Debug, PartialEq)]
enum Kind {
    /// Links between any two vertices, with differences of -1, 0 and 1.
    Ties,
    /// Links between neighbours on a line.
    Path,
}

/// A network of a kind with three links for each vertex but the first.
fn net_of(rt: &impl Abort, alloc: Global, random: &mut Random, kind: Kind, vertices: u32) -> Net {
    let mut links = Vec::new(alloc);
    for head in 1..vertices {
        for _ in 0..3 {
            let tail = match kind {
                Kind::Ties => random.below(head),
                Kind::Path => head - 1,
            };
            let difference = match kind {
                Kind::Ties => i64::from(random.below(3)) - 1,
                Kind::Path => i64::from(random.below(1_000)),
            };
            let link = Link {
                tail,
                head,
                difference,
                weight: 1 + random.below(4),
                flow: 0,
            };
            links.push(link).expect(rt, "memory");
        }
    }
    Net { vertices, links }
}

/// Sends an amount along a residual arc, which has room for it; answers its ends and its cost.
fn send(rt: &impl Abort, net: &mut Net, arc: ResidualArc, amount: u32) -> (u32, u32, i64) {
    let link = net
        .links
        .get_mut(arc.place() as usize)
        .ok_or("no link")
        .expect(rt, "a link");
    let amount = i64::from(amount);
    let (flow, ends) = if arc.is_forward() {
        (
            link.flow.checked_add(amount),
            (link.tail, link.head, link.difference.checked_neg()),
        )
    } else {
        (
            link.flow.checked_sub(amount),
            (link.head, link.tail, Some(link.difference)),
        )
    };
    link.flow = flow.expect(rt, "a flow");
    assert!(rt; link.flow.unsigned_abs() <= u64::from(link.weight));
    let (tail, head, cost) = ends;
    (tail, head, cost.expect(rt, "a cost"))
}

/// Sends the guide's amount round its proposal, which closes at a cost below 0.
fn cancel(rt: &impl Abort, guide: &Guide, net: &mut Net, amount: u32) {
    let mut sum = 0i64;
    let mut walk = None;
    for arc in guide.cycle() {
        let (tail, head, cost) = send(rt, net, *arc, amount);
        let (first, last) = walk.unwrap_or((tail, tail));
        assert_eq!(rt; last, tail);
        walk = Some((first, head));
        sum = sum.checked_add(cost).expect(rt, "a sum");
    }
    let (first, last) = walk.expect(rt, "a cycle");
    assert_eq!(rt; first, last);
    assert!(rt; sum < 0);
}

/// Whether the flow of a link is at the bound of its reduced cost's sign, if that is not 0.
fn is_slack(rt: &impl Abort, guide: &Guide, link: &Link) -> bool {
    let tail = guide.height(link.tail).expect(rt, "a height");
    let head = guide.height(link.head).expect(rt, "a height");
    let rise = head.checked_sub(tail).expect(rt, "a rise");
    let gain = link.difference.checked_sub(rise).expect(rt, "a gain");
    let weight = i64::from(link.weight);
    if gain > 0 {
        link.flow == weight
    } else {
        gain == 0 || link.flow.checked_neg() == Some(weight)
    }
}

/// Cancels all that a guide proposes for a network, and compares flows and heights at the end.
fn follow(rt: &impl Abort, alloc: Global, net: &mut Net) {
    let mut guide = Guide::new(alloc, net.vertices, net.links.len()).expect(rt, "memory");
    for (place, link) in net.links.iter().enumerate() {
        guide.set_link(place, *link);
    }
    guide.start();
    assert!(rt; guide.has_solved());
    for _ in 0..net.links.len() {
        if let Some(amount) = guide.propose() {
            cancel(rt, &guide, net, amount);
        }
    }
    assert!(rt; guide.propose().is_none());
    for link in &net.links {
        assert!(rt; is_slack(rt, &guide, link));
    }
}

/// Each proposal leads round, has room and costs less than 0; at the end the flows are optimal.
#[test]
fn proposals_lead_to_optimal_flows(rt: HostRuntime) {
    let mut random = Random { state: 5 };
    for kind in [Kind::Ties, Kind::Path] {
        for k in 0..100u32 {
            let mut net = net_of(&rt, rt.alloc(), &mut random, kind, 2 + 2 * k);
            follow(&rt, rt.alloc(), &mut net);
        }
    }
}

/// A tower of a hundred links of 30 km and weight 1,000, whose vertices vertex 0 has at its own height
/// with weight 1: those with even numbers first, so that a first tree has no height above 30 km.
fn tower(rt: &impl Abort, alloc: Global, vertices: u32) -> Net {
    let flat = Link {
        tail: 0,
        head: 0,
        difference: 0,
        weight: 1,
        flow: 0,
    };
    let mut links = Vec::new(alloc);
    for odd in 0..2u32 {
        for head in 1..vertices {
            if head % 2 == odd {
                links.push(Link { head, ..flat }).expect(rt, "memory");
            }
        }
    }
    let mut tail = 1;
    for head in 2..vertices {
        let link = Link {
            tail,
            head,
            difference: 3_000_000_000_000,
            weight: 1_000,
            flow: 0,
        };
        links.push(link).expect(rt, "memory");
        tail = head;
    }
    Net { vertices, links }
}

/// Heights that grow far above those of the first tree.
#[test]
fn towers_are_solved(rt: HostRuntime) {
    for vertices in [3, 102, 600] {
        let mut net = tower(&rt, rt.alloc(), vertices);
        follow(&rt, rt.alloc(), &mut net);
    }
}

/// Links that lead nowhere, and numbers that leave their range: the guide gives up.
#[test]
fn nonsense_is_given_up(rt: HostRuntime) {
    let link = Link {
        tail: 0,
        head: 1,
        difference: 1,
        weight: 1,
        flow: 0,
    };
    let nonsense = [
        Link { head: 2, ..link },
        Link { head: 0, ..link },
        Link {
            difference: i64::MIN,
            ..link
        },
        Link {
            weight: u32::MAX,
            ..link
        },
    ];
    for link in nonsense {
        let mut guide = Guide::new(rt.alloc(), 2, 1).expect(&rt, "memory");
        guide.set_link(0, link);
        guide.set_link(1, link);
        guide.start();
        assert!(rt; !guide.has_solved() && !guide.is_at_work());
        assert_eq!(rt; guide.propose(), None);
        assert_eq!(rt; guide.height(1), None);
    }
}

/// The search of a tower begins with a cycle that the guide proposes; or, where the guide has found no flows for the
/// differences as they are, with all arcs at differences that are halved until they are small.
#[test]
fn towers_begin_with_few_arcs_or_small_differences(rt: HostRuntime) {
    for second in [Second::None, Second::Contradicts] {
        let tower = settled_tower(&rt, rt.alloc(), second);
        let first = tower.first;
        assert!(&rt; first.arcs < tower.arcs || first.largest <= 1, "{first:?}");
    }
}
