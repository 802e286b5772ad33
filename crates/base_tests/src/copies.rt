use crate::building::text;
use hdr_core::{List, TryCopy};

#[test]
fn copies(rt: HostRuntime) {
    let mut items = Vec::new(rt.alloc());
    for bytes in [b"one".as_slice(), b""] {
        let item = text(&rt, rt.alloc(), bytes);
        items.push(item).expect(&rt, "memory");
    }
    let texts = Some(List::of(items));
    let copy = texts.try_copy(rt.alloc()).expect(&rt, "memory");
    assert!(rt; copy == texts);
}
