//! Entries, the arcs that last lowered labels: where they lead back to, and cycles among them.
ghost use Rattle.std.specs.Prelude.{◌≡◌, ◌+◌, ◌<◌, All, IfSome, IsTrue, None, length};
ghost use Rattle.th_search.specs.Walks.{IsArc};
ghost use Rattle.th_search.specs.Inside.Entries.{AreEntries, IsOnCycle, Meets};
ghost use Rattle.th_search.specs.Inside.Labels.{IsForest};
ghost use Rattle.th_search.specs.Inside.Marks.{AreMarked, CanMark};

use crate::arcs::Arc;

/// Whether the entries lead back from a vertex to another, as far as the steps go: each arc takes one.
pub(crate) fn leads_back(
    arcs: &[Arc],
    entries: &[Option<u32>],
    from: u32,
    goal: u32,
    steps: &mut usize,
) -> bool
    requires arcs { All (IsArc (length entries.now)) arcs.now }
    requires entries { AreEntries (length entries.now) arcs.now entries.now }
    requires from { from < length entries.now }
    ensures { IsTrue result → Meets arcs.now entries.now from goal }
{
    let mut vertex = from;
    while vertex != goal {
        if *steps == 0 {
            return false;
        }
        *steps -= 1;
        let Some(number) = entries[vertex as usize] else {
            return false;
        };
        vertex = arcs[number as usize].tail;
    }
    true
}

/// A vertex from which the entries lead back to itself, if there is one. The time is near the number
/// of vertices: each is marked once, with one more than the vertex from which it was come to.
pub(crate) fn vertex_on_cycle(
    arcs: &[Arc],
    entries: &[Option<u32>],
    marks: &mut [u32],
) -> Option<u32>
    requires { CanMark arcs.now entries.now marks.old }
    ensures some { IfSome result (λ vertex.
        (vertex < length entries.now) × IsOnCycle arcs.now entries.now vertex) }
    ensures none { result ≡ None → IsForest arcs.now entries.now }
{
    marks.fill(0);
    for start in 0..entries.len() as u32 {
        let found = mark_back(arcs, entries, marks, start);
        if found.is_some() {
            return found;
        }
    }
    None
}

/// Marks the vertices over which the entries lead back from a vertex, up to one that was marked
/// before. Where that was on this very way, it is answered.
fn mark_back(arcs: &[Arc], entries: &[Option<u32>], marks: &mut [u32], start: u32) -> Option<u32>
    requires ready { CanMark arcs.now entries.now marks.old }
    requires start { start < length entries.now }
    requires marked { AreMarked arcs.now entries.now marks.old start }
    ensures some { IfSome result (λ vertex.
        (vertex < length entries.now) × IsOnCycle arcs.now entries.now vertex) }
    ensures none { result ≡ None → AreMarked arcs.now entries.now marks.new (start + 1) }
{
    let mut vertex = start;
    while marks[vertex as usize] == 0 {
        marks[vertex as usize] = start + 1;
        let Some(number) = entries[vertex as usize] else {
            return None;
        };
        vertex = arcs[number as usize].tail;
    }
    if marks[vertex as usize] == start + 1 {
        Some(vertex)
    } else {
        None
    }
}
