//! Paths from the source, found in depth along ways with room that lead one level on.
ghost use Rattle.std.specs.Prelude.{◌≡◌, ◌-◌, ◌<◌, ◌≤◌, IfOk, length, true};
ghost use Rattle.th_cuts.specs.Inside.OfFlows.{IsPathOf};
ghost use Rattle.th_cuts.specs.Inside.Paths.{LeadsToRoom};
ghost use Rattle.th_cuts.specs.Inside.Trees.{step_at};

use crate::edges::Way;
use crate::flows::{Flow, least};
use crate::guides::Guide;
use crate::trees::{WayStep, first_step};
use std::alloc::{AllocError, Global};

/// Steps from the source, each from the one before it and one level on.
#[derive(Drop)]
pub(crate) struct Path {
    pub steps: Vec<WayStep>,
}

impl Path {
    /// No steps.
    pub fn new(alloc: Global) -> Path {
        Path {
            steps: Vec::new(alloc),
        }
    }

    /// Searches in depth from the source, along ways with room that lead one level on, and returns whether
    /// the path leads to where more may end. Otherwise no such way is left to be tried.
    pub fn find(&mut self, flow: &Flow<'_>, guide: &mut Guide) -> Result<bool, AllocError>
        ensures path { IfOk result (λ found. found ≡ true
            → IsPathOf flow.now guide.new.ahead.levels.items self.new.steps.items) }
        ensures room { IfOk result (λ found. found ≡ true
            → LeadsToRoom flow.now.left.items self.new.steps.items) }
    {
        self.steps.clear();
        self.steps.push(first_step(flow.drain.source))?;
        let graph = flow.drain.graph;
        let tries = graph
            .neighbours
            .ways
            .len()
            .saturating_add(2 * graph.vertices as usize);
        'diving: for _ in 0..tries {
            let last = self.last();
            if flow.left_at(last.vertex) != 0 {
                return Ok(true);
            }
            if !self.go_on(flow, guide, last)? {
                return Ok(false);
            }
        }
        Ok(false)
    }

    /// The last step.
    fn last(&self) -> WayStep
        requires { 1 ≤ length self.now.steps.items }
        ensures { result ≡ step_at self.now.steps.items (length self.now.steps.items - 1) }
    {
        self.steps[self.steps.len() - 1]
    }

    /// Tries the next way at the last step, or takes that step back where none is left, and returns whether
    /// there was either.
    fn go_on(
        &mut self,
        flow: &Flow<'_>,
        guide: &mut Guide,
        last: WayStep,
    ) -> Result<bool, AllocError>
        requires path { IsPathOf flow.now guide.old.ahead.levels.items self.old.steps.items }
        requires last { last ≡ step_at self.old.steps.items (length self.old.steps.items - 1) }
        ensures path { IfOk result (λ _. IsPathOf flow.now guide.new.ahead.levels.items self.new.steps.items) }
    {
        if let Some(number) = guide.next_way(last.vertex) {
            let graph = flow.drain.graph;
            let (_, end) = graph.range(last.vertex);
            if number < end {
                let neighbour = graph.way(number);
                if !self.take(flow, guide, neighbour.way, last)? {
                    guide.skip(last.vertex);
                }
                return Ok(true);
            }
        }
        if self.steps.len() == 1 {
            return Ok(false);
        }
        self.steps.truncate(self.steps.len() - 1);
        let before = self.last();
        guide.skip(before.vertex);
        Ok(true)
    }

    /// Takes a step along a way, if it leads with room from the last step one level on, and returns whether it
    /// does.
    fn take(
        &mut self,
        flow: &Flow<'_>,
        guide: &Guide,
        way: Way,
        last: WayStep,
    ) -> Result<bool, AllocError>
        requires way { way.edge < length flow.now.drain.graph.now.edges.items }
        requires path { IsPathOf flow.now guide.now.ahead.levels.items self.old.steps.items }
        requires last { last ≡ step_at self.old.steps.items (length self.old.steps.items - 1) }
        ensures { IfOk result (λ _. IsPathOf flow.now guide.now.ahead.levels.items self.new.steps.items) }
    {
        let graph = flow.drain.graph;
        let edge = graph.edges[way.edge];
        let finish = way.finish(edge);
        if way.start(edge) != last.vertex || !guide.leads_on(last.vertex, finish) {
            return Ok(false);
        }
        let room = flow.room(way);
        if room == 0 || !guide.is_wide(room) {
            return Ok(false);
        }
        let parent = self.steps.len() - 1;
        let limit = least(room, last.limit);
        self.steps.push(WayStep {
            vertex: finish,
            parent,
            way,
            limit,
        })?;
        Ok(true)
    }
}
