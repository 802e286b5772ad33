//! Workers that fill one table, each its part of the words.
ghost use Rattle.std.specs.Prelude.{◌≡◌, ℕ, ◌<◌, ◌≤◌, true, length, IfOk};
ghost use Rattle.std.specs.Thread.{IsSync};
ghost use Rattle.answer_table.specs.Views.{knows, published};
ghost use Rattle.answer_table_tests.specs.Squares.{square_of, squares_of};

use answer_table::{AnswerTable, Answers, Listing, Seat, Started};
use hdr_core::Memory;
use std::alloc::Global;
use std::marker::Brand;
use std::thread::{Threads, join};

fn square(word: u32) -> u64
    ensures { result ≡ square_of word }
{
    let word = u64::from(word);
    word * word + 1
}

// A table whose list is that of the squares.
pub(crate) fn start<L: Listing>(alloc: Global, words: u32) -> Result<Started<L>, Memory>
    requires some { 1 ≤ words }
    requires listed { L.listed ≡ squares_of words }
    ensures words { IfOk result (λ started. started.table.words ≡ words) }
    ensures seat { IfOk result (λ started. started.seat.table ≡ started.table) }
{
    AnswerTable::start(alloc, words)
}

pub(crate) fn publish<L: Listing>(table: &AnswerTable<L>, seat: &mut Seat<L>, word: u32)
    requires table { seat.old.table ≡ table.now }
    requires word { word < table.now.words }
    requires listed { L.listed ≡ squares_of table.now.words }
    ensures table { seat.new.table ≡ seat.old.table }
    ensures view { seat.new.view ≡ published seat.old.view word }
{
    seat.publish(table, word, square(word));
}

// The answer of the word, as the seat finds it or works it out.
fn answer<L: Listing>(table: &AnswerTable<L>, seat: &mut Seat<L>, word: u32) -> u64
    requires table { seat.old.table ≡ table.now }
    requires word { word < table.now.words }
    requires listed { L.listed ≡ squares_of table.now.words }
    ensures answer { result ≡ square_of word }
    ensures table { seat.new.table ≡ seat.old.table }
    ensures known { knows seat.new.view word ≡ true }
    ensures kept { (i : ℕ) → knows seat.old.view i ≡ true → knows seat.new.view i ≡ true }
{
    if let Some(found) = seat.load(table, word) {
        return found;
    }
    publish(table, seat, word);
    square(word)
}

fn fill_alone<L: Listing>(table: &AnswerTable<L>, seat: &mut Seat<L>, from: u32, to: u32)
    requires table { seat.old.table ≡ table.now }
    requires range { to ≤ table.now.words }
    requires listed { L.listed ≡ squares_of table.now.words }
    ensures table { seat.new.table ≡ seat.old.table }
    ensures filled { (i : ℕ) → from ≤ i → i < to → knows seat.new.view i ≡ true }
{
    for word in from..to {
        answer(table, seat, word);
    }
}

// Halves the range down to the number of workers. The seat comes back, and knows each word of it.
fn fill<L: Listing + Send + Sync, R: Threads + Sync>(
    rt: &R,
    table: &AnswerTable<L>,
    mut seat: Seat<L>,
    from: u32,
    to: u32,
    workers: u32,
) -> Seat<L>
    requires table { seat.table ≡ table.now }
    requires order { from ≤ to }
    requires range { to ≤ table.now.words }
    requires listed { L.listed ≡ squares_of table.now.words }
    ensures table { result.table ≡ table.now }
    ensures filled { (i : ℕ) → from ≤ i → i < to → knows result.view i ≡ true }
{
    if workers < 2 {
        fill_alone(table, &mut seat, from, to);
        return seat;
    }
    let middle = from + (to - from) / 2;
    let theirs = workers / 2;
    let ours = workers - theirs;
    let other = seat.split(table);
    let (other, mut seat) = join(
        rt,
        || -> Seat<L>
            requires { IsSync R.row × (other.table ≡ table.now) × (middle ≤ to)
                × (to ≤ table.now.words) × (L.listed ≡ squares_of table.now.words) }
            ensures { (result.table ≡ table.entry.now)
                × ((i : ℕ) → middle ≤ i → i < to → knows result.view i ≡ true) }
        { fill(rt, table, other, middle, to, theirs) },
        || -> Seat<L>
            requires { IsSync R.row × (seat.table ≡ table.now) × (from ≤ middle)
                × (middle ≤ table.now.words) × (L.listed ≡ squares_of table.now.words) }
            ensures { (result.table ≡ table.entry.now)
                × ((i : ℕ) → from ≤ i → i < middle → knows result.view i ≡ true) }
        { fill(rt, table, seat, from, middle, ours) },
    );
    seat.join(table, other);
    seat
}

fn read_all<L: Listing>(alloc: Global, answers: &Answers<L>, words: u32) -> Result<Vec<u64>, Memory>
    requires count { length answers.now.answers ≡ words }
    requires known { (i : ℕ) → i < words → knows answers.now.closer i ≡ true }
    requires listed { L.listed ≡ squares_of words }
    ensures { IfOk result (λ all. all.items ≡ squares_of words) }
{
    let mut all = Vec::with_capacity(alloc, words as usize)?;
    for word in 0..words {
        let Some(answer) = answers.get(word) else {
            unreachable!()
        };
        all.push(answer)?;
    }
    Ok(all)
}

fn listed_squares<L: Listing + Send + Sync, R: Threads + Sync>(
    rt: &R,
    alloc: Global,
    words: u32,
    workers: u32,
) -> Result<Vec<u64>, Memory>
    requires some { 1 ≤ words }
    requires listed { L.listed ≡ squares_of words }
    ensures { IfOk result (λ all. all.items ≡ squares_of words) }
{
    let Started { table, seat } = start::<L>(alloc, words)?;
    let seat = fill(rt, &table, seat, 0, words, workers);
    let answers = table.close(seat);
    read_all(alloc, &answers, words)
}

/// The square of each number below `words`, and one: worked out by halves for a table that workers
/// share, and read from it when it is closed.
pub fn shared_squares<R: Threads + Sync>(
    rt: &R,
    alloc: Global,
    words: u32,
    workers: u32,
) -> Result<Vec<u64>, Memory>
    requires { 1 ≤ words }
    ensures { IfOk result (λ all. all.items ≡ squares_of words) }
{
    listed_squares::<Brand, R>(rt, alloc, words, workers)
}
