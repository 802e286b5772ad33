//! Files that end early, in each of their items.
use crate::classes::told_fault;
use rows::{Asked, RowErr};
use std::alloc::Global;

/// The first cut of an item for which another fault is told than F1 at the item: the number of
/// bytes, and what is told. The item begins behind the first bytes of the file.
fn other_cut(alloc: Global, file: &mut Vec<u8>, item: &[u8]) -> Result<Option<Vec<u8>>, RowErr> {
    let wanted = format!(in alloc; "F1 {}", file.len())?;
    for byte in item {
        let told = told_fault(alloc, file)?;
        if told.as_slice() != wanted.as_bytes() {
            return Ok(Some(told));
        }
        file.push(*byte)?;
    }
    Ok(None)
}

/// `F1`, where each file that ends in an item behind the first is told so at that item, at each
/// of its bytes. The items stand between ` | `.
pub fn cuts_of(alloc: Global, asked: Asked<'_>) -> Result<Vec<u8>, RowErr> {
    let mut file = Vec::new(alloc);
    for (index, words) in asked.input.split(" | ").enumerate() {
        let item = asked.pieces.spelled(alloc, words)?;
        if index == 0 {
            file.extend_from_slice(&item)?;
        } else if let Some(told) = other_cut(alloc, &mut file, &item)? {
            return Ok(told);
        }
    }
    Ok(Vec::from_slice(alloc, b"F1")?)
}
