use crate::building::text;
use hdr_core::{CallErr, Code, Diag, MemSink, SureSink, print_diags, sort_diags};
use std::alloc::Global;
use std::process::Abort;

/// File, path, line, code and name.
type Row = (u32, &'static [u8], u32, Code, &'static [u8]);

const ROWS: &[Row] = &[
    (0, b"in/A.class", 0, Code::L1, b""),
    (1, b"b", 4_294_967_295, Code::L4, b"p/B"),
];

const PRINTED: &[u8] =
    b"in/A.class:0: L1 file is longer than 16777216 bytes\nb:4294967295: L4 constant pool is full: p/B\n";

fn diagnostic(rt: &impl Abort, alloc: Global, row: &Row) -> Diag {
    let &(file, path, line, code, name) = row;
    Diag {
        file,
        path: text(rt, alloc, path),
        line,
        code,
        name: text(rt, alloc, name),
    }
}

fn diagnostics(rt: &impl Abort, alloc: Global, rows: &[Row]) -> Vec<Diag> {
    let mut list = Vec::new(alloc);
    for row in rows {
        let item = diagnostic(rt, alloc, row);
        list.push(item).expect(rt, "memory");
    }
    list
}

#[test]
fn prints_a_line_for_each(rt: HostRuntime) {
    let list = diagnostics(&rt, rt.alloc(), ROWS);
    let mut sink = SureSink::of(rt.alloc());
    let printed = print_diags(rt.alloc(), &list, &mut sink);
    assert!(rt; printed == Ok(()));
    assert!(rt; sink.told() == PRINTED);
}

#[test]
fn prints_a_front_before_a_fault(rt: HostRuntime) {
    let list = diagnostics(&rt, rt.alloc(), ROWS);
    for call in [0, 1, 52, 95] {
        let failing = vec![in rt.alloc(); call].expect(&rt, "memory");
        let mut sink = MemSink::of(rt.alloc(), 1, failing);
        let printed = print_diags(rt.alloc(), &list, &mut sink);
        assert!(rt; printed == Err(CallErr::Failed));
        assert!(rt; sink.told() == &PRINTED[..call as usize]);
        assert!(rt; sink.calls().made() == call + 1);
    }
}

/// In their order. Each differs from the next in one field that comes earlier in the order than
/// those in which it is greater.
const ORDERED: &[Row] = &[
    (0, b"z", 9, Code::L9, b"z"),
    (1, b"z", 1, Code::L9, b"z"),
    (1, b"z", 2, Code::F2, b"z"),
    (1, b"z", 2, Code::F10, b"z"),
    (1, b"z", 2, Code::B1, b"z"),
    (1, b"z", 2, Code::L2, b"a"),
    (1, b"a", 2, Code::L2, b"b"),
    (1, b"b", 2, Code::L2, b"b"),
];

/// The same, with some of them twice.
const MIXED: &[Row] = &[
    (1, b"b", 2, Code::L2, b"b"),
    (1, b"z", 2, Code::F10, b"z"),
    (1, b"z", 1, Code::L9, b"z"),
    (1, b"a", 2, Code::L2, b"b"),
    (1, b"z", 2, Code::L2, b"a"),
    (0, b"z", 9, Code::L9, b"z"),
    (1, b"b", 2, Code::L2, b"b"),
    (1, b"z", 2, Code::B1, b"z"),
    (0, b"z", 9, Code::L9, b"z"),
    (1, b"z", 2, Code::F2, b"z"),
    (1, b"b", 2, Code::L2, b"b"),
];

#[test]
fn sorts_and_keeps_equal_ones_once(rt: HostRuntime) {
    let mixed = diagnostics(&rt, rt.alloc(), MIXED);
    let sorted = sort_diags(rt.alloc(), mixed).expect(&rt, "memory");
    let ordered = diagnostics(&rt, rt.alloc(), ORDERED);
    assert!(rt; sorted.as_slice() == ordered.as_slice());
}
