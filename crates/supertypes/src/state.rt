ghost use Rattle.std.specs.Prelude.{◌≡◌, ◌<◌, ◌≤◌, ◌+◌, ◌++◌, ◌↔◌, ℕ, Bool, [], ◌∷◌, List, not};
ghost use Rattle.std.specs.Prelude.{true, false, Contains, IfOk, length, slice_set};
ghost use Rattle.std.specs.Prelude.{slice_index_or, Option, Some, None, IfSome, IfNone, take};
ghost use Rattle.std.specs.Vec.{vec_len, vec_capacity};
ghost use Rattle.std.specs.List.{find};
ghost use Rattle.reachability.specs.Reached.{targets};
ghost use Rattle.supertypes.specs.State.{IsSteady, IsRested, IsClean, Grew};
ghost use Rattle.supertypes.specs.Walk.{IsWalk};
ghost use Rattle.supertypes.specs.Walking.{IsNextNew, AreOld, IsWalking, IsSeeking};
ghost use Rattle.supertypes.specs.Ways.{IsAboveSome};

use hdr_core::Memory;
use reachability::Rows;
use std::alloc::Global;

/// A class on the path of a walk, and how many of its supertypes are gone over.
#[derive(Clone, Copy, Drop)]
pub struct Step {
    class: u32,
    next: usize,
}

/// What a search has found so far. All lists have room for all classes.
#[derive(Drop)]
pub struct State {
    /// For each class whether it was found.
    marks: Vec<bool>,
    /// The classes that were found, in the order in which they were.
    found: Vec<u32>,
    /// The classes in whose walks the one in hand stands, the outermost one first.
    path: Vec<Step>,
}

/// The supertypes of a class; none where no class is.
fn row_of<'a>(graph: &'a Rows, class: u32) -> &'a [u32]
    ensures { result.now ≡ targets graph.now class }
{
    let class = class as usize;
    if class < graph.len() {
        graph.row(class)
    } else {
        &[]
    }
}

impl State {
    pub fn new(alloc: Global, classes: usize) -> Result<State, Memory>
        ensures size { IfOk result (λ state. length state.marks.items ≡ classes) }
        ensures clean { IfOk result (λ state. IsClean state) }
    {
        Ok(State {
            marks: Vec::from_elem(alloc, false, classes)?,
            found: Vec::with_capacity(alloc, classes)?,
            path: Vec::with_capacity(alloc, classes)?,
        })
    }

    /// The classes that were found.
    pub fn found(&self) -> &[u32]
        ensures { result.now ≡ self.now.found.items }
    {
        &self.found
    }

    /// Whether a class was found.
    pub fn has(&self, class: u32) -> bool
        ensures { result ≡ slice_index_or self.now.marks.items class false }
    {
        match self.marks.get(class as usize) {
            Some(mark) => *mark,
            None => false,
        }
    }

    /// Whether there is a class of the number, and it wasn't found yet.
    fn is_new(&self, class: u32) -> bool
        ensures { result ≡ not (slice_index_or self.now.marks.items class true) }
    {
        match self.marks.get(class as usize) {
            Some(mark) => !mark,
            None => false,
        }
    }

    fn mark(&mut self, class: u32)
        requires new { slice_index_or self.old.marks.items class true ≡ false }
        requires steady { IsSteady self.old }
        ensures marks { self.new.marks.items ≡ slice_set self.old.marks.items class true }
        ensures found { self.new.found.items ≡ self.old.found.items ++ class ∷ [] }
        ensures path { self.new.path.items ≡ self.old.path.items }
        ensures room { vec_capacity self.new.path ≡ vec_capacity self.old.path }
        ensures steady { IsSteady self.new }
    {
        self.marks[class as usize] = true;
        self.found.push_reserved(class);
    }

    /// Marks a class, where it is new.
    fn mark_new(&mut self, class: u32)
        requires { IsSteady self.old }
        ensures grew { Grew self.old self.new (class ∷ []) }
        ensures steady { IsSteady self.new }
    {
        if !self.is_new(class) {
            return;
        }
        self.mark(class);
    }

    fn mark_each(&mut self, classes: &[u32])
        requires { IsSteady self.old }
        ensures grew { Grew self.old self.new classes.now }
        ensures steady { IsSteady self.new }
    {
        for class in classes {
            self.mark_new(*class);
        }
    }

    /// The first of these classes, from a place on, that is new.
    fn next_new(&self, classes: &[u32], from: usize) -> Option<usize>
        ensures some { IfSome result (λ at. IsNextNew self.now.marks.items classes.now from at) }
        ensures none { IfNone result
            (AreOld self.now.marks.items classes.now from (length classes.now)) }
    {
        let mut at = from;
        while at < classes.len() {
            if self.is_new(classes[at]) {
                return Some(at);
            }
            at += 1;
        }
        None
    }

    /// The next class of the walk that is new.
    fn onward(&mut self, graph: &Rows) -> Option<u32>
        requires steady { IsSteady self.old }
        requires level { length self.old.marks.items ≡ length graph.now }
        ensures steady { IsSteady self.new }
        ensures marks { self.new.marks.items ≡ self.old.marks.items }
        ensures found { self.new.found.items ≡ self.old.found.items }
        ensures path { length self.new.path.items ≤ length self.old.path.items }
        ensures fresh { IfSome result (λ class.
            slice_index_or self.new.marks.items class true ≡ false) }
        ensures seeks { (start : ℕ) (walk : ℕ → List ℕ) (test : ℕ → Bool) →
            IsWalk graph.now start walk → IsWalking graph.now start walk test self.old →
            IsSeeking graph.now start walk test self.new result }
    {
        while let Some(step) = self.path.pop() {
            let row = row_of(graph, step.class);
            if let Some(at) = self.next_new(row, step.next) {
                self.path.push_reserved(Step {
                    class: step.class,
                    next: at + 1,
                });
                return Some(row[at]);
            }
        }
        None
    }

    /// Goes into the walk of a class that is new.
    fn enter(&mut self, class: u32)
        requires new { slice_index_or self.old.marks.items class true ≡ false }
        requires steady { IsSteady self.old }
        requires short { length self.old.path.items ≤ length self.old.found.items }
        ensures marks { self.new.marks.items ≡ slice_set self.old.marks.items class true }
        ensures path { self.new.path.items
            ≡ self.old.path.items ++ record { class = class; next = 0 } ∷ [] }
        ensures short { length self.new.path.items ≤ length self.new.found.items }
        ensures steady { IsSteady self.new }
    {
        self.mark(class);
        self.path.push_reserved(Step { class, next: 0 });
    }

    /// The first class of a class's walk that is sought. What was found stays, to be forgotten.
    pub fn first<F: Fn(u32) -> bool>(
        &mut self,
        graph: &Rows,
        start: u32,
        is_sought: F,
    ) -> Option<u32>
        requires room { length graph.now ≡ length self.old.marks.items }
        requires clean { IsClean self.old }
        requires callable { F.IsAlwaysCallable is_sought }
        ensures first { (walk : ℕ → List ℕ) (test : ℕ → Bool) → IsWalk graph.now start walk →
            ((class : ℕ) (is : Bool) → F.post is_sought class is → is ≡ test class) →
            result ≡ find test (walk start) }
        ensures room { length self.new.marks.items ≡ length self.old.marks.items }
        ensures steady { IsSteady self.new }
    {
        let mut next = if self.is_new(start) {
            Some(start)
        } else {
            None
        };
        while let Some(class) = next {
            if is_sought(class) {
                return next;
            }
            self.enter(class);
            next = self.onward(graph);
        }
        None
    }

    pub fn gather(&mut self, graph: &Rows, classes: &[u32])
        requires room { length graph.now ≡ length self.old.marks.items }
        requires clean { IsClean self.old }
        ensures gathered { (class : ℕ) → Contains self.new.found.items class ↔
            ((class < length graph.now) × IsAboveSome graph.now classes.now class) }
        ensures few { length self.new.found.items ≤ length self.new.marks.items }
        ensures room { length self.new.marks.items ≡ length self.old.marks.items }
        ensures steady { IsRested self.new }
    {
        for class in classes {
            self.mark_each(row_of(graph, *class));
        }
        let mut at = 0;
        while at < self.found.as_slice().len() {
            let class = self.found[at];
            at += 1;
            self.mark_each(row_of(graph, class));
        }
    }

    /// Forgets what was found.
    pub fn clean(&mut self)
        requires { IsSteady self.old }
        ensures clean { IsClean self.new }
        ensures room { length self.new.marks.items ≡ length self.old.marks.items }
    {
        self.path.clear();
        while let Some(class) = self.found.pop() {
            self.marks[class as usize] = false;
        }
    }
}
