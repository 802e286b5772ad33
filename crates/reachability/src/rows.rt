ghost use Rattle.std.specs.Prelude.{◌≡◌, ◌<◌, ◌≤◌, ◌++◌, [], ◌∷◌, IfOk, OnOk, OnErr, length};
ghost use Rattle.std.specs.Prelude.{slice_index_or};
ghost use Rattle.reachability.specs.Flat.{rows_from, AreLaidOut, IsBetween};

use hdr_core::Memory;
use std::alloc::Global;
use std::marker::Model;

/// Lists of numbers, one behind the other in one vector. Contracts see the list of these lists.
#[derive(Drop)]
pub struct Rows {
    numbers: Vec<u32>,
    /// Where each list ends.
    ends: Vec<usize>,
}

impl Model for Rows {
    ghost use Rattle.std.specs.Prelude.{List, ℕ};
    ghost use Rattle.reachability.specs.Flat.{rows_from, AreLaidOut};

    ghost Value = { List (List ℕ) };

    ghost view = { λ rows. rows_from 0 rows.ends.items rows.numbers.items };

    ghost invariant = { λ rows. AreLaidOut 0 rows.ends.items rows.numbers.items };
}

impl Rows {
    /// No lists. Takes no memory.
    pub fn new(alloc: Global) -> Rows
        ensures { result ≡ [] }
    {
        Rows {
            numbers: Vec::new(alloc),
            ends: Vec::new(alloc),
        }
    }

    /// No lists, and room for so many with so many numbers in all.
    pub fn with_capacity(alloc: Global, lists: usize, numbers: usize) -> Result<Rows, Memory>
        ensures { IfOk result (λ rows. rows ≡ []) }
    {
        Ok(Rows {
            numbers: Vec::with_capacity(alloc, numbers)?,
            ends: Vec::with_capacity(alloc, lists)?,
        })
    }

    /// How many lists there are.
    pub fn len(&self) -> usize
        ensures { result ≡ length self.now }
    {
        self.ends.as_slice().len()
    }

    /// Puts a list behind the others. After want of memory there are the lists of before.
    pub fn push(&mut self, row: &[u32]) -> Result<(), Memory>
        ensures ok { OnOk result (self.new ≡ self.old ++ row.now ∷ []) }
        ensures err { OnErr result (self.new ≡ self.old) }
    {
        let end = self.numbers.as_slice().len() + row.len();
        self.ends.reserve(1)?;
        self.numbers.extend_from_slice(row)?;
        self.ends.push(end)?;
        Ok(())
    }

    /// The numbers of a list.
    pub fn row(&self, index: usize) -> &[u32]
        requires { index < length self.now }
        ensures { result.now ≡ slice_index_or self.now index [] }
    {
        row_of(&self.numbers, &self.ends, index)
    }
}

/// The list that lies between two ends.
fn row_of<'a>(numbers: &'a [u32], ends: &[usize], index: usize) -> &'a [u32]
    requires laid { AreLaidOut 0 ends.now numbers.now }
    requires index { index < length ends.now }
    ensures { result.now ≡ slice_index_or (rows_from 0 ends.now numbers.now) index [] }
{
    let (start, end) = ends_of(numbers, ends, index);
    &numbers[start..end]
}

/// Where a list begins, which is where the one before it ends, and where it ends.
fn ends_of(numbers: &[u32], ends: &[usize], index: usize) -> (usize, usize)
    requires laid { AreLaidOut 0 ends.now numbers.now }
    requires index { index < length ends.now }
    ensures below { result.0 ≤ result.1 }
    ensures within { result.1 ≤ length numbers.now }
    ensures is { IsBetween 0 ends.now numbers.now index result.0 result.1 }
{
    (start_of(ends, index), ends[index])
}

fn start_of(ends: &[usize], index: usize) -> usize
    requires { index < length ends.now }
    ensures { slice_index_or (0 ∷ ends.now) index 0 ≡ result }
{
    if index == 0 { 0 } else { ends[index - 1] }
}
