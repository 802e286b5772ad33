//! The copy and the text of a signature that is nested deep. Other trees are written where they
//! are read.
use crate::nesting::repeated;
use crate::trees::check_text;
use hdr_core::{List, Text};
use java_types::{JArg, JPart, JSig, JType};
use std::alloc::Global;
use std::process::Abort;

const LEVELS: u32 = 10_000;

/// The class `A` with these type arguments.
fn class(rt: &impl Abort, alloc: Global, args: Vec<JArg>) -> JType {
    let mut parts = Vec::new(alloc);
    let part = JPart {
        name: Text::of(alloc, b"A").expect(rt, "memory"),
        args: List::of(args),
    };
    parts.push(part).expect(rt, "memory");
    JType::Named(List::of(parts))
}

fn enclosing(rt: &impl Abort, alloc: Global, ty: JType) -> JType {
    let mut args = Vec::new(alloc);
    args.push(JArg::Exact(ty)).expect(rt, "memory");
    class(rt, alloc, args)
}

fn enclosed(rt: &impl Abort, alloc: Global) -> JType {
    let mut ty = class(rt, alloc, Vec::new(alloc));
    for _ in 0..LEVELS {
        ty = enclosing(rt, alloc, ty);
    }
    ty
}

#[test]
fn copies_writes_and_drops_what_is_nested_deep(rt: HostRuntime) {
    let alloc = rt.alloc();
    let open = repeated(&rt, alloc, b"", b"LA<", LEVELS, b"LA;");
    let text = repeated(&rt, alloc, &open, b">;", LEVELS, b"");
    let sig = JSig::OfField(enclosed(&rt, alloc));
    check_text(&rt, alloc, &sig.copy(alloc).expect(&rt, "memory"), &text);
}
