ghost use Rattle.std.specs.Prelude.{◌≡◌, ◌<◌, ◌≤◌, ◌^◌, ◌↔◌, ℕ, Bool, true, [], List, Contains};
ghost use Rattle.std.specs.Prelude.{IfOk};
ghost use Rattle.std.specs.Prelude.{length};
ghost use Rattle.std.specs.List.{find};
ghost use Rattle.supertypes.specs.Found.{Found};
ghost use Rattle.supertypes.specs.Ways.{IsAboveSome};
ghost use Rattle.supertypes.specs.Walk.{IsWalk};

use crate::state::State;
use hdr_core::Memory;
use reachability::Rows;
use std::alloc::Global;
use std::marker::Model;

/// Searches along supertypes, with room for all classes. Contracts see for how many classes there
/// is room, and what was gathered. No search takes memory, or touches a class that it doesn't
/// reach.
#[derive(Drop)]
pub struct Search {
    state: State,
}

impl Model for Search {
    ghost use Rattle.supertypes.specs.Found.{Found};
    ghost use Rattle.supertypes.specs.State.{IsRested};
    ghost use Rattle.std.specs.Prelude.{length};

    ghost Value = { Found };

    ghost view = { λ search. record {
      classes = length search.state.marks.items;
      list = search.state.found.items;
    } };

    ghost invariant = { λ search. IsRested search.state };
}

impl Search {
    /// Room for so many classes; nothing is gathered.
    pub fn new(alloc: Global, classes: usize) -> Result<Search, Memory>
        ensures { IfOk result (λ search. search ≡ record { classes = classes; list = [] }) }
    {
        Ok(Search {
            state: State::new(alloc, classes)?,
        })
    }

    /// The first class of a class's walk that is sought. The walk is the class and the walks of
    /// its supertypes, in their order, with repeats (JVMS 5.4.3.2); here each class is entered
    /// once.
    pub fn first<F: Fn(u32) -> bool>(
        &mut self,
        graph: &Rows,
        start: u32,
        is_sought: F,
    ) -> Option<u32>
        requires room { length graph.now ≡ self.old.classes }
        requires rested { self.old.list ≡ [] }
        requires callable { F.IsAlwaysCallable is_sought }
        ensures first { (walk : ℕ → List ℕ) (test : ℕ → Bool) → IsWalk graph.now start walk →
            ((class : ℕ) (is : Bool) → F.post is_sought class is → is ≡ test class) →
            result ≡ find test (walk start) }
        ensures kept { self.new ≡ self.old }
    {
        let first = self.state.first(graph, start, is_sought);
        self.state.clean();
        first
    }

    /// Gathers all classes that lie above some of these, each once, until `forget`.
    pub fn gather(&mut self, graph: &Rows, classes: &[u32])
        requires room { length graph.now ≡ self.old.classes }
        requires rested { self.old.list ≡ [] }
        ensures gathered { (class : ℕ) → Contains self.new.list class ↔
            ((class < length graph.now) × IsAboveSome graph.now classes.now class) }
        ensures few { length self.new.list ≤ self.new.classes }
        ensures room { self.new.classes ≡ self.old.classes }
    {
        self.state.gather(graph, classes);
    }

    /// What was gathered.
    pub fn gathered(&self) -> &[u32]
        ensures { result.now ≡ self.now.list }
    {
        self.state.found()
    }

    /// Whether a class was gathered. Takes one look.
    pub fn has(&self, class: u32) -> bool
        ensures { (result ≡ true) ↔ Contains self.now.list class }
    {
        self.state.has(class)
    }

    /// Forgets what was gathered.
    pub fn forget(&mut self)
        ensures { self.new ≡ record { classes = self.old.classes; list = [] } }
    {
        self.state.clean();
    }
}
