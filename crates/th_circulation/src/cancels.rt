//! Flow that is sent along a cycle of slots, within the room of each of them.
ghost use Rattle.std.specs.Prelude.{◌≡◌, ◌<◌, ◌≤◌, ℕ, All, length, map, eqb};
ghost use Rattle.std.specs.List.{IsDistinct};
ghost use Rattle.th_circulation.specs.Inside.Bounds.{most_room};
ghost use Rattle.th_circulation.specs.Inside.Cycles.{HasRoom, HasRooms, leads_to, send, sent};
ghost use Rattle.th_circulation.specs.Inside.Flows.{AreBounded};
ghost use Rattle.th_circulation.specs.Inside.Listings.{AreOpen, slots_at};

use crate::graphs::LinkGraph;
use crate::limits::MOST_ROOM;
use crate::slots::Slot;

/// Sends as much along a cycle of slots as has room: at least 1, and else at most this.
pub(crate) fn cancel(graph: &LinkGraph, slots: &[Slot], cycle: &[u32], most: u32, flows: &mut [i64])
    requires ready { AreOpen graph.now slots.now cycle.now flows.old }
    requires once { IsDistinct eqb (map (leads_to graph.now.links.now) (slots_at slots.now cycle.now)) }
    ensures { (amount : ℕ) × (1 ≤ amount)
        × All (HasRoom graph.now.weights.now amount flows.old) (slots_at slots.now cycle.now)
        × (flows.new ≡ sent amount flows.old (slots_at slots.now cycle.now)) }
{
    let amount = least_room(graph, slots, cycle, most, flows);
    'slots: for &number in cycle {
        send_along(graph, slots[number as usize], amount, flows);
    }
}

/// How much can flow along each of the slots: at least 1, and else at most this.
fn least_room(graph: &LinkGraph, slots: &[Slot], cycle: &[u32], most: u32, flows: &[i64]) -> u32
    requires { AreOpen graph.now slots.now cycle.now flows.now }
    ensures some { 1 ≤ result }
    ensures small { result ≤ most_room }
    ensures room { All (HasRoom graph.now.weights.now result flows.now) (slots_at slots.now cycle.now) }
{
    let mut least = most.clamp(1, MOST_ROOM);
    for &number in cycle {
        let room = graph.room(flows, slots[number as usize]) as u32;
        if room < least {
            least = room;
        }
    }
    least
}

/// Sends an amount along a slot.
fn send_along(graph: &LinkGraph, slot: Slot, amount: u32, flows: &mut [i64])
    requires place { slot.place < length graph.now.links.now }
    requires flows { AreBounded graph.now.weights.now flows.old }
    requires room { HasRoom graph.now.weights.now amount flows.old slot }
    ensures sent { flows.new ≡ send amount flows.old slot }
    ensures flows { AreBounded graph.now.weights.now flows.new }
{
    let place = slot.place as usize;
    if slot.is_forward {
        flows[place] += amount as i64;
    } else {
        flows[place] -= amount as i64;
    }
}
