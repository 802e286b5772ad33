ghost use Rattle.std.specs.Prelude.{◌≡◌, ◌<◌, ◌↔◌, ℕ, [], ◌∷◌, not, true, false, IfOk, OnOk};
ghost use Rattle.std.specs.Prelude.{length, slice_index_or};
ghost use Rattle.reachability.specs.Reached.{IsReached};
ghost use Rattle.reachability.specs.Search.{Grew, IsAnew};

use crate::rows::Rows;
use hdr_core::Memory;
use std::alloc::Global;

/// What a search has found so far.
#[derive(Drop)]
struct Search {
    /// For each number whether it was found.
    marks: Vec<bool>,
    /// The numbers that were found, in the order in which they were.
    found: Vec<u32>,
}

impl Search {
    fn new(alloc: Global, numbers: usize) -> Result<Search, Memory>
        ensures { IfOk result (λ search. IsAnew search numbers) }
    {
        Ok(Search {
            marks: Vec::from_elem(alloc, false, numbers)?,
            found: Vec::with_capacity(alloc, numbers)?,
        })
    }

    /// Marks a number, where it is one of the graph's.
    fn mark(&mut self, number: u32) -> Result<(), Memory>
        ensures { OnOk result (Grew self.old self.new (number ∷ [])) }
    {
        if self.is_new(number) {
            self.marks[number as usize] = true;
            self.found.push(number)?;
        }
        Ok(())
    }

    /// Whether the number is one of the graph's that wasn't found yet.
    fn is_new(&self, number: u32) -> bool
        ensures { result ≡ not (slice_index_or self.now.marks.items number true) }
    {
        match self.marks.get(number as usize) {
            Some(mark) => !mark,
            None => false,
        }
    }

    fn mark_each(&mut self, numbers: &[u32]) -> Result<(), Memory>
        ensures { OnOk result (Grew self.old self.new numbers.now) }
    {
        for number in numbers {
            self.mark(*number)?;
        }
        Ok(())
    }
}

/// For each number of the graph whether it is reached from those at which one begins. Other
/// numbers lead nowhere. Each number and each edge is looked at once.
pub fn reached(alloc: Global, graph: &Rows, begin: &[u32]) -> Result<Vec<bool>, Memory>
    ensures length { IfOk result (λ marks. length marks.items ≡ length graph.now) }
    ensures exact { IfOk result (λ marks. (n : ℕ) → n < length graph.now →
        (slice_index_or marks.items n false ≡ true) ↔ IsReached graph.now begin.now n) }
{
    let mut search = Search::new(alloc, graph.len())?;
    search.mark_each(begin)?;
    let mut at = 0;
    while at < search.found.as_slice().len() {
        let number = search.found[at];
        at += 1;
        search.mark_each(graph.row(number as usize))?;
    }
    let Search { marks, found: _ } = search;
    Ok(marks)
}
