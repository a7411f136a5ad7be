//! Where to look for ways to where more may end. Only the speed of a flow depends on it, so nothing is
//! promised but levels, and no index is taken for granted.
ghost use Rattle.std.specs.Prelude.{◌≡◌, ◌+◌, IfOk, IsTrue, length};
ghost use Rattle.th_cuts.specs.Inside.Guides.{level_at};

use crate::edges::Way;
use crate::flows::Flow;
use crate::graphs::Graph;
use std::alloc::{AllocError, Global};

/// How many searches come before wide ways are tried first.
const PLAIN_SEARCHES: u32 = 8;

/// A way is wide at first if this part of what is still to flow has room along it.
const FIRST_PART: u32 = 8;

/// A search in breadth along ways with room, a level at a time.
#[derive(Drop)]
struct Wave {
    /// How many ways lead to each vertex, or from it; `u32::MAX` where the search has not been.
    levels: Vec<u32>,
    /// The vertices with a level, in the order in which they got it.
    queue: Vec<u32>,
    /// Where in the queue those of the last level begin.
    front: usize,
    /// The last level.
    last: u32,
    /// The most room along a way on from there that was too narrow.
    narrow: u32,
}

/// Which way a search goes.
#[derive(Clone, Copy, PartialEq, Eq)]
enum Heading {
    /// Along ways, from the source.
    Ahead,
    /// Against ways, from where more may end.
    Back,
}

/// What a search from both ends found.
#[derive(Clone, Copy, PartialEq, Eq)]
pub(crate) enum Aim {
    /// Ways may lead from the source to where more may end.
    Ways,
    /// All that the source reaches.
    FromSource,
    /// All that reaches where more may end.
    ToEnds,
}

/// Levels that lead from the source to where more may end.
#[derive(Drop)]
pub(crate) struct Guide {
    ahead: Wave,
    behind: Wave,
    /// The level at which more may end.
    depth: u32,
    /// The number of the way to be tried next at each vertex.
    cursors: Vec<usize>,
    /// The least room of the ways that are tried.
    least_room: u32,
    /// How many searches there were.
    searches: u32,
    /// How many vertices they reached since the last sweep.
    reached: usize,
    /// How many steps the paths took since then that led to where more may end.
    walked: usize,
    /// Whether a sweep has moved room to vertices that are no ends.
    is_swept: bool,
}

impl Wave {
    /// A search that has not begun.
    fn new(alloc: Global, vertices: usize) -> Result<Wave, AllocError> {
        Ok(Wave {
            levels: vec![in alloc; u32::MAX; vertices]?,
            queue: Vec::new(alloc),
            front: 0,
            last: 0,
            narrow: 0,
        })
    }

    /// Forgets all levels.
    fn clear(&mut self) {
        for place in 0..self.queue.len() {
            if let Some(vertex) = self.nth(place) {
                self.set(vertex, u32::MAX);
            }
        }
        self.queue.clear();
        self.front = 0;
        self.last = 0;
        self.narrow = 0;
    }

    /// The level of a vertex.
    fn level(&self, vertex: u32) -> u32
        ensures { result ≡ level_at self.now.levels.items vertex }
    {
        match self.levels.get(vertex as usize) {
            Some(level) => *level,
            None => u32::MAX,
        }
    }

    /// Sets the level of a vertex.
    fn set(&mut self, vertex: u32, level: u32) {
        if (vertex as usize) < self.levels.len() {
            self.levels[vertex as usize] = level;
        }
    }

    /// Gives a vertex a level.
    fn add(&mut self, vertex: u32, level: u32) -> Result<(), AllocError> {
        self.set(vertex, level);
        self.queue.push(vertex)?;
        Ok(())
    }

    /// The vertex at a place of the queue.
    fn nth(&self, place: usize) -> Option<u32> {
        self.queue.get(place).copied()
    }

    /// How many vertices have the last level.
    fn width(&self) -> usize {
        self.queue.len().saturating_sub(self.front)
    }

    /// Goes one level on from the vertices of the last one, and returns whether that led to where the other
    /// search has been.
    fn advance(
        &mut self,
        flow: &Flow<'_>,
        heading: Heading,
        other: &Wave,
        least_room: u32,
    ) -> Result<bool, AllocError> {
        let begin = self.front;
        let end = self.queue.len();
        let mut has_met = false;
        for place in begin..end {
            if let Some(vertex) = self.nth(place) {
                has_met = self.spread(flow, heading, other, least_room, vertex)? || has_met;
            }
        }
        self.front = end;
        self.last = self.last.saturating_add(1);
        Ok(has_met)
    }

    /// Goes one level on from a vertex, and returns whether that led to where the other search has been.
    fn spread(
        &mut self,
        flow: &Flow<'_>,
        heading: Heading,
        other: &Wave,
        least_room: u32,
        vertex: u32,
    ) -> Result<bool, AllocError> {
        let level = self.last.saturating_add(1);
        let mut has_met = false;
        let graph = flow.drain.graph;
        let (first, end) = graph.range(vertex);
        for number in first..end {
            let neighbour = graph.way(number);
            if self.level(neighbour.finish) == u32::MAX {
                let room = flow.room(heading.along(neighbour.way));
                if room >= least_room {
                    self.add(neighbour.finish, level)?;
                    has_met = has_met || other.level(neighbour.finish) != u32::MAX;
                } else {
                    self.narrow = self.narrow.max(room);
                }
            }
        }
        Ok(has_met)
    }

    /// Whether more may end at a vertex of the last level.
    fn is_at_end(&self, flow: &Flow<'_>) -> bool {
        for place in self.front..self.queue.len() {
            if flow.left_at(self.queue[place]) != 0 {
                return true;
            }
        }
        false
    }
}

impl Heading {
    /// The way that a search takes to where a way leads.
    fn along(self, way: Way) -> Way
        ensures { result.edge ≡ way.edge }
    {
        match self {
            Heading::Ahead => way,
            Heading::Back => way.back(),
        }
    }
}

impl Guide {
    /// A guide that knows nothing.
    pub fn new(alloc: Global, graph: &Graph) -> Result<Guide, AllocError> {
        let vertices = graph.vertices as usize;
        Ok(Guide {
            ahead: Wave::new(alloc, vertices)?,
            behind: Wave::new(alloc, vertices)?,
            depth: 0,
            cursors: vec![in alloc; 0usize; vertices]?,
            least_room: 1,
            searches: 0,
            reached: 0,
            walked: 0,
            is_swept: false,
        })
    }

    /// Searches for ways that more can flow along. After some searches it tries wide ways first, and
    /// narrower ones where those lead nowhere (capacity scaling): most flows are short and need few
    /// searches, and along a long line a few wide ways carry what hundreds of narrow ones would.
    pub fn aim(&mut self, flow: &Flow<'_>, ends: &[u32]) -> Result<Aim, AllocError> {
        if self.searches == PLAIN_SEARCHES {
            self.widen(flow);
        }
        self.searches = self.searches.saturating_add(1);
        let mut aim = self.search(flow, ends)?;
        for _ in 0..u32::BITS {
            if self.least_room <= 1 || aim == Aim::Ways {
                return Ok(aim);
            }
            self.narrow_down(aim);
            aim = self.search(flow, ends)?;
        }
        Ok(aim)
    }

    /// Lets ways be tried that are half as wide, or as wide as the widest one that leads on.
    fn narrow_down(&mut self, aim: Aim) {
        let widest = match aim {
            Aim::ToEnds => self.behind.narrow,
            Aim::FromSource | Aim::Ways => self.ahead.narrow,
        };
        self.least_room = (self.least_room / 2).min(widest).max(1);
    }

    /// Lets wide ways alone be tried.
    fn widen(&mut self, flow: &Flow<'_>) {
        let most = flow.drain.most.saturating_sub(flow.value) / FIRST_PART;
        for _ in 0..u32::BITS {
            if self.least_room <= most / 2 {
                self.least_room *= 2;
            }
        }
    }

    /// Searches from the source and back from some vertices where more may end, a level at a time, always
    /// where fewer vertices have the last level, until both meet or one of them has no way on.
    fn search(&mut self, flow: &Flow<'_>, ends: &[u32]) -> Result<Aim, AllocError> {
        let aim = self.meet(flow, ends)?;
        let both = self
            .ahead
            .queue
            .len()
            .saturating_add(self.behind.queue.len());
        self.reached = self.reached.saturating_add(both);
        Ok(aim)
    }

    /// The search itself.
    fn meet(&mut self, flow: &Flow<'_>, ends: &[u32]) -> Result<Aim, AllocError> {
        self.begin(flow, ends)?;
        let graph = flow.drain.graph;
        for _ in 0..graph.vertices {
            if self.ahead.width() == 0 {
                return Ok(Aim::FromSource);
            }
            if self.behind.width() == 0 {
                return Ok(Aim::ToEnds);
            }
            if self.has_met(flow)? {
                self.open(graph);
                return Ok(Aim::Ways);
            }
        }
        Ok(Aim::FromSource)
    }

    /// Begins again at the source and at the vertices where more may end.
    fn begin(&mut self, flow: &Flow<'_>, ends: &[u32]) -> Result<(), AllocError> {
        self.ahead.clear();
        self.behind.clear();
        self.ahead.add(flow.drain.source, 0)?;
        if self.is_swept {
            return self.begin_everywhere(flow);
        }
        for end in ends {
            if flow.left_at(*end) != 0 && self.behind.level(*end) == u32::MAX {
                self.behind.add(*end, 0)?;
            }
        }
        Ok(())
    }

    /// Begins at all vertices where more may end.
    fn begin_everywhere(&mut self, flow: &Flow<'_>) -> Result<(), AllocError> {
        for vertex in 0..flow.drain.graph.vertices {
            if flow.left_at(vertex) != 0 {
                self.behind.add(vertex, 0)?;
            }
        }
        Ok(())
    }

    /// Whether a sweep takes about as long as the paths since the last one took, or as the searches if there
    /// were many of them.
    pub fn is_long(&self, graph: &Graph) -> bool {
        let has_searched = self.searches >= PLAIN_SEARCHES
            && self.reached >= graph.vertices as usize;
        has_searched || self.has_walked(graph)
    }

    /// Whether the paths since the last sweep took as many steps as there are vertices.
    pub fn has_walked(&self, graph: &Graph) -> bool {
        self.walked >= graph.vertices as usize
    }

    /// Counts the steps of a path.
    pub fn walk(&mut self, steps: usize) {
        self.walked = self.walked.saturating_add(steps);
    }

    /// Searches from wherever more may end from now on, as a sweep moves room to other vertices.
    pub fn follow_sweep(&mut self) {
        self.is_swept = true;
        self.reached = 0;
        self.walked = 0;
    }

    /// Goes one level on, and returns whether ways lead from the source to where more may end.
    fn has_met(&mut self, flow: &Flow<'_>) -> Result<bool, AllocError> {
        let least_room = self.least_room;
        if self.ahead.width() > self.behind.width() {
            let has_met = self
                .behind
                .advance(flow, Heading::Back, &self.ahead, least_room)?;
            if has_met {
                self.join()?;
            }
            return Ok(has_met);
        }
        let has_met = self
            .ahead
            .advance(flow, Heading::Ahead, &self.behind, least_room)?;
        if self.ahead.is_at_end(flow) {
            self.depth = self.ahead.last;
            return Ok(true);
        }
        if has_met {
            self.join()?;
        }
        Ok(has_met)
    }

    /// Gives the vertices that only the search back has reached their levels from the source.
    fn join(&mut self) -> Result<(), AllocError> {
        self.depth = self.ahead.last.saturating_add(self.behind.last);
        for place in 0..self.behind.queue.len() {
            let Some(vertex) = self.behind.nth(place) else {
                return Ok(());
            };
            if self.ahead.level(vertex) == u32::MAX {
                let level = self.depth.saturating_sub(self.behind.level(vertex));
                self.ahead.add(vertex, level)?;
            }
        }
        Ok(())
    }

    /// Lets each way of the vertices with a level be tried.
    fn open(&mut self, graph: &Graph) {
        for place in 0..self.ahead.queue.len() {
            let Some(vertex) = self.ahead.nth(place) else {
                return;
            };
            if (vertex as usize) < self.cursors.len() {
                self.cursors[vertex as usize] = graph.range(vertex).0;
            }
        }
    }

    /// The number of the way to be tried next at a vertex, if its level is below the last one.
    pub fn next_way(&self, vertex: u32) -> Option<usize> {
        if self.ahead.level(vertex) >= self.depth {
            return None;
        }
        self.cursors.get(vertex as usize).copied()
    }

    /// Whether a way between two vertices leads one level on.
    pub fn leads_on(&self, start: u32, finish: u32) -> bool
        ensures { IsTrue result → level_at self.now.ahead.levels.items finish
            ≡ level_at self.now.ahead.levels.items start + 1 }
    {
        u64::from(self.ahead.level(finish)) == u64::from(self.ahead.level(start)) + 1
    }

    /// Whether a way with this much room is tried.
    pub fn is_wide(&self, room: u32) -> bool {
        room >= self.least_room
    }

    /// Goes on to the next way of a vertex.
    pub fn skip(&mut self, vertex: u32)
        ensures { self.new.ahead ≡ self.old.ahead }
    {
        let place = vertex as usize;
        if place < self.cursors.len() {
            self.cursors[place] = self.cursors[place].saturating_add(1);
        }
    }

    /// The side of the source, by what the searches found.
    pub fn side(&self, alloc: Global, graph: &Graph, aim: Aim) -> Result<Vec<bool>, AllocError>
        ensures { IfOk result (λ side. length side.items ≡ graph.now.vertices) }
    {
        let (wave, is_source) = match aim {
            Aim::ToEnds => (&self.behind, false),
            Aim::FromSource | Aim::Ways => (&self.ahead, true),
        };
        let mut side = vec![in alloc; !is_source; graph.vertices as usize]?;
        for vertex in &wave.queue {
            if (*vertex as usize) < side.len() {
                side[*vertex as usize] = is_source;
            }
        }
        Ok(side)
    }
}
