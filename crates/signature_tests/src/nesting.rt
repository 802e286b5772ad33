//! Texts that repeat a piece, or are nested deep.
use std::alloc::Global;
use std::process::Abort;

/// The text with its middle so many times.
pub fn repeated(
    rt: &impl Abort,
    alloc: Global,
    front: &[u8],
    middle: &[u8],
    times: u32,
    end: &[u8],
) -> Vec<u8> {
    let mut text = Vec::new(alloc);
    add(rt, &mut text, front);
    for _ in 0..times {
        add(rt, &mut text, middle);
    }
    add(rt, &mut text, end);
    text
}

/// A text with type arguments nested so deep.
pub fn nested(
    rt: &impl Abort,
    alloc: Global,
    front: &[u8],
    opening: &[u8],
    depth: u32,
    end: &[u8],
) -> Vec<u8> {
    let open = repeated(rt, alloc, front, opening, depth, b"*");
    repeated(rt, alloc, &open, b">;", depth, end)
}

pub fn add(rt: &impl Abort, text: &mut Vec<u8>, piece: &[u8]) {
    text.extend_from_slice(piece).expect(rt, "memory");
}
