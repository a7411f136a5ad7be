//! One pass over the arcs: which labels it lowers, and how it notices a cycle of entries.
ghost use Rattle.std.specs.Prelude.{◌≡◌, length};
ghost use Rattle.th_search.specs.Inside.Labels.{AreLabels, IsForest};
ghost use Rattle.th_search.specs.Inside.Passes.{IsPass, IsReady};

use crate::arcs::Arc;
use crate::entries::{leads_back, vertex_on_cycle};
use crate::labels::Labels;
use crate::sweeps::Sweep;

/// What a pass over the arcs did.
#[derive(Clone, Copy)]
pub(crate) enum Pass {
    /// Some label was lowered.
    Lowered,
    /// No arc improves a label.
    Done,
    /// The entries lead from this vertex back to itself.
    Closed(u32),
}

/// Goes over the arcs once and lowers the label of each head that its arc improves. Stops where an
/// entry closes a cycle, or looks for one at the end.
pub(crate) fn pass_over(arcs: &[Arc], sweep: Sweep, labels: &mut Labels, marks: &mut [u32]) -> Pass
    requires ready { IsReady arcs.now labels.old.values.items labels.old.entries.items }
    requires marks { length marks.old ≡ length labels.old.values.items }
    ensures size { length labels.new.values.items ≡ length labels.old.values.items }
    ensures labels { AreLabels arcs.now labels.new.values.items labels.new.entries.items }
    ensures pass { IsPass arcs.now labels.old.values.items labels.new.values.items
        labels.new.entries.items result }
    ensures forest { result ≡ Pass.Lowered → IsForest arcs.now labels.new.entries.items }
{
    match lower_once(arcs, sweep, labels) {
        Pass::Lowered => match vertex_on_cycle(arcs, &labels.entries, marks) {
            Some(vertex) => Pass::Closed(vertex),
            None => Pass::Lowered,
        },
        pass => pass,
    }
}

/// The pass without a look for cycles at its end. An entry that is new at its head may close a cycle:
/// the entries are walked back from its tail, as long as all these walks together take no more steps
/// than there are arcs.
fn lower_once(arcs: &[Arc], sweep: Sweep, labels: &mut Labels) -> Pass
    requires { IsReady arcs.now labels.old.values.items labels.old.entries.items }
    ensures size { length labels.new.values.items ≡ length labels.old.values.items }
    ensures labels { AreLabels arcs.now labels.new.values.items labels.new.entries.items }
    ensures pass { IsPass arcs.now labels.old.values.items labels.new.values.items
        labels.new.entries.items result }
{
    let mut lowered = false;
    let mut steps = arcs.len();
    for step in 0..arcs.len() {
        let number = sweep.index_at(arcs.len(), step);
        let arc = arcs[number];
        let label = labels.values[arc.tail as usize] + arc.cost;
        if label < labels.values[arc.head as usize] {
            let closes = labels.entries[arc.head as usize] != Some(number as u32)
                && leads_back(arcs, &labels.entries, arc.tail, arc.head, &mut steps);
            labels.lower(arcs, number as u32, label);
            if closes {
                return Pass::Closed(arc.head);
            }
            lowered = true;
        }
    }
    if lowered { Pass::Lowered } else { Pass::Done }
}
