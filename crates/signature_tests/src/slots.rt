//! Texts as descriptors, told without a tree: of a field or not, and the slots of a method's
//! parameters (JVMS 4.3.3).
use crate::nesting::repeated;
use descriptor_scan::{is_field_descriptor, parameter_slots};
use std::process::Abort;

/// Texts, whether each is the descriptor of a field, and the slots of the parameters of a method.
const FORMS: [(&[u8], bool, Option<usize>); 46] = [
    (b"", false, None),
    (b"B", true, None),
    (b"C", true, None),
    (b"D", true, None),
    (b"F", true, None),
    (b"I", true, None),
    (b"J", true, None),
    (b"S", true, None),
    (b"Z", true, None),
    (b"V", false, None),
    (b"A", false, None),
    (b"II", false, None),
    (b"[", false, None),
    (b"[I", true, None),
    (b"[[J", true, None),
    (b"[V", false, None),
    (b"LA;", true, None),
    (b"La/B$C;", true, None),
    (b"L<a>:b;", true, None),
    (b"[LA;", true, None),
    (b"L;", false, None),
    (b"LA", false, None),
    (b"La//B;", false, None),
    (b"La.B;", false, None),
    (b"L[A;", false, None),
    (b"LA;I", false, None),
    (b"TT;", false, None),
    (b"()V", false, Some(0)),
    (b"()J", false, Some(0)),
    (b"(I)V", false, Some(1)),
    (b"(J)V", false, Some(2)),
    (b"(D)D", false, Some(2)),
    (b"([J)V", false, Some(1)),
    (b"([[D)[I", false, Some(1)),
    (b"(LA;)LA;", false, Some(1)),
    (b"(LJ;LD;)V", false, Some(2)),
    (b"(BCDFIJSZ)Z", false, Some(10)),
    (b"(IDLjava/lang/Thread;)Ljava/lang/Object;", false, Some(4)),
    (b"(", false, None),
    (b"(I", false, None),
    (b"()", false, None),
    (b"(V)V", false, None),
    (b"()VV", false, None),
    (b"()[V", false, None),
    (b"(()V)V", false, None),
    (b"<T:>()V", false, None),
];

fn expect(rt: &impl Abort, text: &[u8], field: bool, slots: Option<usize>) {
    assert!(rt; is_field_descriptor(text) == field, "{text:?}");
    assert!(rt; parameter_slots(text) == slots, "{text:?}");
}

#[test]
fn tells_descriptors_without_a_tree(rt: HostRuntime) {
    for (text, field, slots) in &FORMS {
        expect(&rt, text, *field, *slots);
    }
}

#[test]
fn counts_dimensions_and_slots(rt: HostRuntime) {
    let alloc = rt.alloc();
    let most = repeated(&rt, alloc, b"", b"[", 255, b"I");
    expect(&rt, &most, true, None);
    let more = repeated(&rt, alloc, b"", b"[", 256, b"I");
    expect(&rt, &more, false, None);
    let longs = repeated(&rt, alloc, b"(", b"J", 128, b")V");
    expect(&rt, &longs, false, Some(256));
}
