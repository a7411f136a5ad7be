//! The labels of a search, how one is lowered, and the cycle that their entries close.
ghost use Rattle.std.specs.Prelude.{◌≡◌, ◌<◌, ◌≤◌, ◌<ℤ◌, ℕ, All, IfOk, List, Some, length, slice_set};
ghost use Rattle.th_search.specs.Limits.{max_vertices};
ghost use Rattle.th_search.specs.Walks.{IsArc, IsNegativeCycle, arc_at};
ghost use Rattle.th_search.specs.Inside.Entries.{IsOnCycle};
ghost use Rattle.th_search.specs.Inside.Labels.{AreLabels, Improves, IsForest};
ghost use Rattle.th_search.specs.declared.arcs.Arc.{Arc as AnArc};

use crate::arcs::Arc;
use std::alloc::{AllocError, Global};

/// The labels of the vertices, and for each vertex the arc by which its label was last lowered.
#[derive(Drop)]
pub(crate) struct Labels {
    pub values: Vec<i64>,
    pub entries: Vec<Option<u32>>,
}

impl Labels {
    /// Labels of 0.
    pub fn new(alloc: Global, n: u32) -> Result<Labels, AllocError>
        ensures size { IfOk result (λ labels. length labels.values.items ≡ n) }
        ensures labels { IfOk result (λ labels. (arcs : List AnArc)
            → AreLabels arcs labels.values.items labels.entries.items) }
        ensures forest { IfOk result (λ labels. (arcs : List AnArc)
            → IsForest arcs labels.entries.items) }
    {
        let values = vec![in alloc; 0i64; n as usize]?;
        let entries = vec![in alloc; None; n as usize]?;
        Ok(Labels { values, entries })
    }

    /// Lowers the label of an arc's head.
    pub fn lower(&mut self, arcs: &[Arc], number: u32, label: i64)
        requires arcs { All (IsArc (length self.old.values.items)) arcs.now }
        requires labels { AreLabels arcs.now self.old.values.items self.old.entries.items }
        requires number { number < length arcs.now }
        requires improves { Improves arcs.now self.old.values.items number label }
        ensures values { self.new.values.items
            ≡ slice_set self.old.values.items (arc_at arcs.now number).head label }
        ensures entries { self.new.entries.items
            ≡ slice_set self.old.entries.items (arc_at arcs.now number).head (Some number) }
        ensures labels { AreLabels arcs.now self.new.values.items self.new.entries.items }
    {
        let head = arcs[number as usize].head as usize;
        self.values[head] = label;
        self.entries[head] = Some(number);
    }

    /// The cycle of arcs over which the entries lead back from a vertex to itself.
    pub fn cycle_through(
        &self,
        alloc: Global,
        arcs: &[Arc],
        start: u32,
    ) -> Result<Vec<u32>, AllocError>
        requires arcs { All (IsArc (length self.now.values.items)) arcs.now }
        requires labels { AreLabels arcs.now self.now.values.items self.now.entries.items }
        requires start { start < length self.now.values.items }
        requires cycle { IsOnCycle arcs.now self.now.entries.items start }
        ensures { IfOk result (λ cycle. IsNegativeCycle arcs.now cycle.items) }
    {
        let Some(last) = self.entries[start as usize] else {
            unreachable!()
        };
        let mut cycle = vec![in alloc; last]?;
        let mut vertex = arcs[last as usize].tail;
        while vertex != start {
            let Some(number) = self.entries[vertex as usize] else {
                unreachable!()
            };
            cycle.push(number)?;
            vertex = arcs[number as usize].tail;
        }
        cycle.reverse();
        Ok(cycle)
    }
}
