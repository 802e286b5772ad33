ghost use Rattle.std.specs.Prelude.{◌≡◌, ◌<◌, ◌≤◌, ◌+◌, ◌-◌, ◌^◌, ◌++◌, ℕ, true, false, [], ◌∷◌};
ghost use Rattle.std.specs.Prelude.{List, Option, Some, None, IfOk, OnOk, IfSome, IfNone};
ghost use Rattle.std.specs.Prelude.{Contains, length, slice_set, slice_index_or, take, drop};
ghost use Rattle.reachability.specs.Reached.{targets};
ghost use Rattle.supertypes.specs.declared.rings.Standing.TheVariants as standing;
ghost use Rattle.supertypes.specs.Rings.{IsLeastRing};
ghost use Rattle.supertypes.specs.Going.{IsAlong, IsNext, IsOnWay, IsSettled, HasEntered, HasRuns};
ghost use Rattle.supertypes.specs.Going.{HasTaken, HasNoEdge, AreSettled, WereNew, lesser, folded};
ghost use Rattle.supertypes.specs.Going.{joined_runs, last_start_of, first_of, gone_over, work};
ghost use Rattle.supertypes.specs.Going.{standing_in, no_run};

use hdr_core::Memory;
use reachability::Rows;
use std::alloc::Global;

/// How far the search has come with a class.
#[derive(Clone, Copy, Drop)]
enum Standing {
    New,
    /// It is on the way, at this place.
    Open(usize),
    Done,
}

/// Classes on the way that reach each other, from a place up to the next run.
#[derive(Clone, Copy, Drop)]
struct Run {
    start: usize,
    /// The least ring that is known to be reached.
    ring: Option<u32>,
}

/// A class on the way with edges left: its place, and how many are gone over.
#[derive(Clone, Copy, Drop)]
struct Edge {
    place: usize,
    next: usize,
}

/// The search for rings, depth first. The classes on the way lie in runs, each of which leads into
/// the next. An edge back into the way joins runs into one; the last run is left when no class of
/// it has edges left, and then each of its classes reaches the same rings.
#[derive(Drop)]
struct Rings {
    standings: Vec<Standing>,
    /// For each class that is done its least ring.
    labels: Vec<Option<u32>>,
    on_way: Vec<u32>,
    path: Vec<Edge>,
    runs: Vec<Run>,
}

/// For each class the least number of a class that it reaches, or is, and that reaches itself.
/// Each class and each edge is looked at once.
pub fn least_rings(alloc: Global, graph: &Rows) -> Result<Vec<Option<u32>>, Memory>
    requires { length graph.now < 2 ^ 32 }
    ensures length { IfOk result (λ rings. length rings.items ≡ length graph.now) }
    ensures exact { IfOk result (λ rings. (class : ℕ) → class < length graph.now →
        IsLeastRing graph.now class (slice_index_or rings.items class None)) }
{
    let mut rings = Rings::new(alloc, graph)?;
    for class in 0..graph.len() {
        rings.settle_from(graph, class as u32)?;
    }
    let Rings {
        standings: _,
        labels,
        on_way: _,
        path: _,
        runs: _,
    } = rings;
    Ok(labels)
}

/// The lesser of two numbers that may not be there.
fn lesser_of(a: Option<u32>, b: Option<u32>) -> Option<u32>
    ensures { result ≡ lesser a b }
{
    match (a, b) {
        (Some(a), Some(b)) => Some(a.min(b)),
        (Some(a), None) => Some(a),
        (None, b) => b,
    }
}

impl Rings {
    fn new(alloc: Global, graph: &Rows) -> Result<Rings, Memory>
        ensures { IfOk result (λ rings. IsSettled graph.now rings 0) }
    {
        let classes = graph.len();
        Ok(Rings {
            standings: Vec::from_elem(alloc, Standing::New, classes)?,
            labels: Vec::from_elem(alloc, None, classes)?,
            on_way: Vec::with_capacity(alloc, classes)?,
            path: Vec::with_capacity(alloc, classes)?,
            runs: Vec::with_capacity(alloc, classes)?,
        })
    }

    /// Numbers beyond the graph are done with.
    fn standing(&self, class: u32) -> Standing
        ensures { result ≡ standing_in self.now.standings.items class }
    {
        match self.standings.get(class as usize) {
            Some(standing) => *standing,
            None => Standing::Done,
        }
    }

    fn label(&self, class: u32) -> Option<u32>
        ensures { result ≡ slice_index_or self.now.labels.items class None }
    {
        match self.labels.get(class as usize) {
            Some(label) => *label,
            None => None,
        }
    }

    /// Puts a class on the way, as a run of its own.
    fn enter(&mut self, class: u32) -> Result<(), Memory>
        requires { class < length self.old.standings.items }
        ensures { OnOk result (HasEntered self.old self.new class) }
    {
        let place = self.on_way.as_slice().len();
        self.on_way.push(class)?;
        self.path.push(Edge { place, next: 0 })?;
        self.runs.push(Run {
            start: place,
            ring: None,
        })?;
        self.standings[class as usize] = Standing::Open(place);
        Ok(())
    }

    /// The last run, if there is one, knows of one ring more.
    fn fold(&mut self, ring: Option<u32>)
        ensures { HasRuns self.old self.new (folded self.old.runs.items ring) }
    {
        let count = self.runs.as_slice().len();
        if count == 0 {
            return;
        }
        let run = self.runs[count - 1];
        self.runs[count - 1] = Run {
            start: run.start,
            ring: lesser_of(run.ring, ring),
        };
    }

    /// Where the last run starts.
    fn last_start(&self) -> usize
        requires { 0 < length self.now.runs.items }
        ensures { result ≡ last_start_of self.now.runs.items }
    {
        self.runs[self.runs.as_slice().len() - 1].start
    }

    /// The first class of the last run.
    fn last_first(&self) -> u32
        requires some { 0 < length self.now.runs.items }
        requires in_way { last_start_of self.now.runs.items < length self.now.on_way.items }
        ensures { result ≡ first_of self.now }
    {
        self.on_way[self.last_start()]
    }

    /// The last two runs become one, and a ring.
    fn join_last(&mut self)
        requires some { 2 ≤ length self.old.runs.items }
        requires in_way { (run : ℕ) → run < length self.old.runs.items →
            (slice_index_or self.old.runs.items run no_run).start < length self.old.on_way.items }
        ensures { HasRuns self.old self.new (joined_runs self.old) }
    {
        let last = self.runs.as_slice().len() - 1;
        let run = self.runs[last];
        let prior = self.runs[last - 1];
        let firsts = lesser_of(Some(self.on_way[prior.start]), Some(self.on_way[run.start]));
        self.runs.truncate(last);
        self.runs[last - 1] = Run {
            start: prior.start,
            ring: lesser_of(lesser_of(prior.ring, run.ring), firsts),
        };
    }

    /// An edge of the last run leads back to a place on the way: all from there on is one ring.
    fn join(&mut self, graph: &Rows, edge: Edge, target: u32, place: usize)
        requires along { IsAlong graph.now self.old edge }
        requires leads { IsNext graph.now self.old edge target }
        requires back { standing_in self.old.standings.items target ≡ standing.Open place }
        ensures along { IsAlong graph.now self.new (gone_over edge) }
        ensures work { work self.new ≤ work self.old }
        ensures kept { self.new.standings.items ≡ self.old.standings.items }
        ensures on_way { self.new.on_way.items ≡ self.old.on_way.items }
    {
        while place < self.last_start() {
            self.join_last();
        }
        let first = self.last_first();
        self.fold(Some(first));
    }

    /// An edge of the last run leads to a class that is done.
    fn pass(&mut self, graph: &Rows, edge: Edge, target: u32)
        requires along { IsAlong graph.now self.old edge }
        requires leads { IsNext graph.now self.old edge target }
        requires done { standing_in self.old.standings.items target ≡ standing.Done }
        ensures along { IsAlong graph.now self.new (gone_over edge) }
        ensures work { work self.new ≤ work self.old }
        ensures kept { self.new.standings.items ≡ self.old.standings.items }
        ensures on_way { self.new.on_way.items ≡ self.old.on_way.items }
    {
        let ring = self.label(target);
        self.fold(ring);
    }

    /// Goes along an edge, unless it leads to a class that is new, and tells whether it did.
    fn follow(&mut self, graph: &Rows, edge: Edge, target: u32) -> bool
        requires along { IsAlong graph.now self.old edge }
        requires leads { IsNext graph.now self.old edge target }
        ensures along { result ≡ true → IsAlong graph.now self.new (gone_over edge) }
        ensures work { work self.new ≤ work self.old }
        ensures kept { self.new.standings.items ≡ self.old.standings.items }
        ensures on_way { self.new.on_way.items ≡ self.old.on_way.items }
        ensures stays { result ≡ false → self.new ≡ self.old }
        ensures new { result ≡ false →
            standing_in self.old.standings.items target ≡ standing.New }
    {
        match self.standing(target) {
            Standing::New => false,
            Standing::Open(place) => {
                self.join(graph, edge, target, place);
                true
            }
            Standing::Done => {
                self.pass(graph, edge, target);
                true
            }
        }
    }

    /// An edge of the last run leads to a class that is new.
    fn set_out(&mut self, graph: &Rows, edge: Edge, past: Edge, target: u32) -> Result<(), Memory>
        requires along { IsAlong graph.now self.old edge }
        requires leads { IsNext graph.now self.old edge target }
        requires past { past ≡ gone_over edge }
        requires new { standing_in self.old.standings.items target ≡ standing.New }
        ensures on_way { OnOk result (IsOnWay graph.now self.new) }
        ensures work { OnOk result (work self.new ≤ work self.old) }
        ensures new { OnOk result (WereNew self.old self.new) }
    {
        self.path.push(past)?;
        self.enter(target)?;
        Ok(())
    }

    /// Goes along the edges of a class of the last run, up to a class that is new or to the end.
    fn explore(&mut self, graph: &Rows, edge: Edge) -> Result<(), Memory>
        requires { IsAlong graph.now self.old edge }
        ensures on_way { OnOk result (IsOnWay graph.now self.new) }
        ensures work { OnOk result (work self.new ≤ work self.old) }
        ensures new { OnOk result (WereNew self.old self.new) }
    {
        let class = self.on_way[edge.place];
        let row = graph.row(class as usize);
        let mut edge = edge;
        while edge.next < row.len() {
            let target = row[edge.next];
            let past = Edge {
                place: edge.place,
                next: edge.next + 1,
            };
            if !self.follow(graph, edge, target) {
                return self.set_out(graph, edge, past, target);
            }
            edge = past;
        }
        Ok(())
    }

    /// The classes on the way from a place on are done, with this ring.
    fn settle(&mut self, start: usize, ring: Option<u32>)
        requires start { start ≤ length self.old.on_way.items }
        requires level { length self.old.labels.items ≡ length self.old.standings.items }
        requires few { (class : ℕ) → Contains (drop start self.old.on_way.items) class →
            class < length self.old.standings.items }
        ensures settled { AreSettled self.old.standings.items self.new.standings.items
            self.old.labels.items self.new.labels.items (drop start self.old.on_way.items) ring }
        ensures on_way { self.new.on_way.items ≡ self.old.on_way.items }
        ensures path { self.new.path.items ≡ self.old.path.items }
        ensures runs { self.new.runs.items ≡ self.old.runs.items }
    {
        for place in start..self.on_way.as_slice().len() {
            let class = self.on_way[place] as usize;
            self.standings[class] = Standing::Done;
            self.labels[class] = ring;
        }
    }

    /// The last run is left: its classes are done.
    fn leave(&mut self, graph: &Rows)
        requires on_way { IsOnWay graph.now self.old }
        requires some { 0 < length self.old.runs.items }
        requires none { HasNoEdge self.old }
        ensures on_way { IsOnWay graph.now self.new }
        ensures work { work self.new < work self.old }
        ensures new { WereNew self.old self.new }
    {
        let Some(run) = self.runs.pop() else {
            return;
        };
        self.settle(run.start, run.ring);
        self.on_way.truncate(run.start);
        self.fold(run.ring);
    }

    /// The last class on the way that may have edges left, if it lies in the last run.
    fn take_edge(&mut self) -> Option<Edge>
        requires { 0 < length self.old.runs.items }
        ensures some { IfSome result (λ edge. HasTaken self.old self.new edge) }
        ensures none { IfNone result ((self.new ≡ self.old) × HasNoEdge self.old) }
    {
        let start = self.last_start();
        let count = self.path.as_slice().len();
        if count == 0 {
            return None;
        }
        let edge = self.path[count - 1];
        if edge.place < start {
            return None;
        }
        self.path.truncate(count - 1);
        Some(edge)
    }

    /// Goes along the edges of one class, or leaves the last run.
    fn step(&mut self, graph: &Rows) -> Result<(), Memory>
        requires on_way { IsOnWay graph.now self.old }
        requires some { 0 < length self.old.runs.items }
        ensures on_way { OnOk result (IsOnWay graph.now self.new) }
        ensures work { OnOk result (work self.new < work self.old) }
        ensures new { OnOk result (WereNew self.old self.new) }
    {
        match self.take_edge() {
            Some(edge) => {
                self.explore(graph, edge)?;
                Ok(())
            }
            None => {
                self.leave(graph);
                Ok(())
            }
        }
    }

    /// All that a class reaches is done.
    fn settle_from(&mut self, graph: &Rows, class: u32) -> Result<(), Memory>
        requires few { class < length graph.now }
        requires settled { IsSettled graph.now self.old class }
        ensures { OnOk result (IsSettled graph.now self.new (class + 1)) }
    {
        let Standing::New = self.standing(class) else {
            return Ok(());
        };
        self.enter(class)?;
        while self.runs.as_slice().len() > 0 {
            self.step(graph)?;
        }
        Ok(())
    }
}
