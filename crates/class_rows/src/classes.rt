//! Class files, and what is read of them.
use class_desc::ClassDesc;
use class_reader::{ReadErr, read_class};
use class_writer::{PoolErr, write_class};
use hdr_core::List;
use rows::{Asked, Pieces, RowErr, Told};
use std::alloc::Global;

/// The most bytes that a class file may have.
const MOST: usize = 16_777_216;

/// What is read of bytes, if they aren't too many.
pub fn read(alloc: Global, bytes: &[u8]) -> Result<ClassDesc, ReadErr> {
    if bytes.len() > MOST {
        return Err(ReadErr::Memory);
    }
    read_class(alloc, bytes)
}

/// The first check that fails, with the offset of its item, or `none`.
pub fn told_fault(alloc: Global, bytes: &[u8]) -> Result<Vec<u8>, RowErr> {
    match read(alloc, bytes) {
        Ok(_) => Ok(Vec::from_slice(alloc, b"none")?),
        Err(ReadErr::Memory) => Err(RowErr::Memory),
        Err(ReadErr::Fault(fault)) => {
            Ok(format!(in alloc; "{:?} {}", fault.kind, fault.offset)?.into_bytes())
        }
    }
}

pub fn fault_of(alloc: Global, asked: Asked<'_>) -> Result<Vec<u8>, RowErr> {
    told_fault(alloc, &asked.pieces.spelled(alloc, asked.input)?)
}

fn spelled_class(alloc: Global, pieces: &Pieces, words: &str) -> Result<ClassDesc, RowErr> {
    match read(alloc, &pieces.spelled(alloc, words)?) {
        Ok(class) => Ok(class),
        Err(ReadErr::Memory) => Err(RowErr::Memory),
        Err(ReadErr::Fault(_)) => Err(RowErr::NoSubject),
    }
}

fn joined<T: Drop>(front: List<T>, behind: List<T>) -> Result<List<T>, RowErr> {
    let mut items = front.into_items();
    for item in behind.into_items() {
        items.push(item)?;
    }
    Ok(List::of(items))
}

/// The class in front, with the members and attributes of the one behind it too.
fn with(front: ClassDesc, behind: ClassDesc) -> Result<ClassDesc, RowErr> {
    Ok(ClassDesc {
        fields: joined(front.fields, behind.fields)?,
        methods: joined(front.methods, behind.methods)?,
        attrs: joined(front.attrs, behind.attrs)?,
        ..front
    })
}

fn joined_class(alloc: Global, pieces: &Pieces, words: &str) -> Result<ClassDesc, RowErr> {
    let mut joined = None;
    for words in words.split(" + ") {
        let class = spelled_class(alloc, pieces, words)?;
        joined = Some(match joined {
            Some(front) => with(front, class)?,
            None => class,
        });
    }
    joined.ok_or(RowErr::NoSubject)
}

pub fn class_of(alloc: Global, asked: Asked<'_>) -> Result<ClassDesc, RowErr> {
    joined_class(alloc, asked.pieces, asked.input)
}

/// The classes of a list, which may be empty.
pub fn classes_of(alloc: Global, asked: Asked<'_>) -> Result<Vec<ClassDesc>, RowErr> {
    let mut classes = Vec::new(alloc);
    if asked.input == "nothing" {
        return Ok(classes);
    }
    for words in asked.input.split(" | ") {
        classes.push(joined_class(alloc, asked.pieces, words)?)?;
    }
    Ok(classes)
}

/// The file that is written of a class.
pub fn file_of(alloc: Global, class: &ClassDesc) -> Result<Told, RowErr> {
    match write_class(alloc, class) {
        Ok(file) => Ok(Told::Bytes(file)),
        Err(PoolErr::Memory) => Err(RowErr::Memory),
        Err(_) => Ok(Told::Text(Vec::from_slice(alloc, b"no file")?)),
    }
}
