//! The files of rows, one after another.
use crate::error::RowErr;
use crate::pieces::Pieces;
use crate::row::{Asked, Row, Told, named};
use std::alloc::{AllocError, Global};
use std::fs;
use std::io::{self, Write};
use std::rt::Files;

/// What answers questions.
pub trait Subject {
    fn answer(&self, alloc: Global, asked: Asked<'_>) -> Result<Told, RowErr>;
}

/// How many rows there were, and how many of them had another answer.
#[derive(Clone, Copy)]
struct Count {
    rows: u32,
    wrong: u32,
}

impl Count {
    fn add(&mut self, other: Count) {
        self.rows = self.rows.saturating_add(other.rows);
        self.wrong = self.wrong.saturating_add(other.wrong);
    }
}

/// What a row is answered, where that isn't what it wants.
fn other_answer<S: Subject>(
    alloc: Global,
    subject: &S,
    pieces: &Pieces,
    row: Row<'_>,
) -> Result<Option<String>, RowErr> {
    let asked = Asked {
        question: row.question,
        input: row.input,
        pieces,
    };
    let told = subject.answer(alloc, asked)?;
    if told.is(alloc, pieces, row.wanted)? {
        Ok(None)
    } else {
        Ok(Some(told.text(alloc)?))
    }
}

/// Tells that a line has no answer.
fn tell_error<R: Print>(rt: &R, line: &str, error: RowErr) -> io::Result<()> {
    match error {
        RowErr::Memory => Err(io::Error::from(AllocError)),
        _ => println!(rt; "{error}: {line}"),
    }
}

/// Whether the row is answered as it says. Where it isn't, a line tells so.
fn is_right<R: Print + AllocGlobal, S: Subject>(
    rt: &R,
    subject: &S,
    pieces: &Pieces,
    line: &str,
) -> io::Result<bool> {
    let Some(row) = Row::of(line) else {
        tell_error(rt, line, RowErr::NoRow)?;
        return Ok(false);
    };
    match other_answer(rt.alloc(), subject, pieces, row) {
        Ok(None) => return Ok(true),
        Ok(Some(told)) => tell_other(rt, row, &told)?,
        Err(error) => tell_error(rt, line, error)?,
    }
    Ok(false)
}

fn tell_other<R: Print>(rt: &R, row: Row<'_>, told: &String) -> io::Result<()> {
    let (question, name, wanted) = (row.question, row.name, row.wanted);
    println!(rt; "{question} {name}: {told}, and not {wanted}")
}

/// The count of a line.
fn count_line<R: Print + AllocGlobal, S: Subject>(
    rt: &R,
    subject: &S,
    pieces: &mut Pieces,
    line: &str,
) -> io::Result<Count> {
    if line.is_empty() || line.starts_with('#') {
        return Ok(Count { rows: 0, wrong: 0 });
    }
    if let Some((name, words)) = named(line) {
        return match pieces.name(rt.alloc(), name, words) {
            Ok(()) => Ok(Count { rows: 0, wrong: 0 }),
            Err(error) => {
                tell_error(rt, line, error)?;
                Ok(Count { rows: 0, wrong: 1 })
            }
        };
    }
    let wrong = if is_right(rt, subject, pieces, line)? {
        0
    } else {
        1
    };
    Ok(Count { rows: 1, wrong })
}

/// The count of a file.
fn count_file<R: Files + Print + AllocGlobal, S: Subject>(
    rt: &R,
    subject: &S,
    name: &str,
) -> io::Result<Count> {
    let text = fs::read_to_string(rt, name)?;
    let mut pieces = Pieces::new(rt.alloc());
    let mut count = Count { rows: 0, wrong: 0 };
    for line in text.lines() {
        count.add(count_line(rt, subject, &mut pieces, line)?);
    }
    Ok(count)
}

/// The names of the files of rows, in their order. Another file is told.
fn names_of_files<R: Files + Print + AllocGlobal + Clone + Drop>(
    rt: &R,
) -> io::Result<Vec<String>> {
    let mut names = Vec::new(rt.alloc());
    for entry in fs::read_dir(rt, ".")? {
        let entry = entry?;
        let name = entry.file_name();
        if name.ends_with(".rows") {
            names.push(String::from_str(rt.alloc(), name)?)?;
        } else {
            println!(rt; "no rows: {name}")?;
        }
    }
    names.sort()?;
    Ok(names)
}

/// Puts each row of the folder to the subject. Tells each whose answer is another than the one
/// that is wanted, and how many rows each file has.
pub fn tell_rows<R: Files + Print + AllocGlobal + Clone + Drop, S: Subject>(
    rt: &R,
    subject: &S,
) -> io::Result<()> {
    let mut all = Count { rows: 0, wrong: 0 };
    for name in &names_of_files(rt)? {
        let count = count_file(rt, subject, name.as_str())?;
        tell_count(rt, name.as_str(), count)?;
        all.add(count);
    }
    tell_count(rt, "all", all)
}

fn tell_count<R: Print>(rt: &R, name: &str, count: Count) -> io::Result<()> {
    let (rows, wrong) = (count.rows, count.wrong);
    println!(rt; "{name}: {rows} rows, {wrong} wrong")
}
