//! Where initialisers end, and what passes no count.
use crate::lexing::spelled_tokens;
use crate::told::{add, add_number};
use java_grammar::initialiser_extent;
use rows::{Asked, RowErr};
use std::alloc::Global;

/// `fits` or `passes`.
pub fn fits(alloc: Global, fits: bool) -> Result<Vec<u8>, RowErr> {
    let word: &[u8] = if fits { b"fits" } else { b"passes" };
    Ok(Vec::from_slice(alloc, word)?)
}

/// `there`, where the initialiser at the front of the whole text is what stands in front of ` | `;
/// how many tokens it has else.
pub fn ends_at(alloc: Global, asked: Asked<'_>) -> Result<Vec<u8>, RowErr> {
    let Some((initialiser, behind)) = asked.input.split_once(" | ") else {
        return Err(RowErr::NoRow);
    };
    let mut tokens = spelled_tokens(alloc, asked, initialiser)?;
    let wanted = tokens.len();
    tokens.append(&mut spelled_tokens(alloc, asked, behind)?)?;
    if tokens.len() > 1_000_000 {
        return Err(RowErr::NoSubject);
    }
    let extent = initialiser_extent(&tokens) as usize;
    let mut told = Vec::new(alloc);
    if extent == wanted {
        add(&mut told, b"there")?;
    } else {
        add_number(&mut told, extent as u64)?;
    }
    Ok(told)
}
