//! Descriptors and their trees (JVMS tables 4.3-A and 4.3.3), and texts that are none.
use crate::nesting::repeated;
use crate::trees::check_tree;
use descriptor_sig::{SigErr, read_descriptor};
use hdr_core::Text;
use java_types::JSig;
use std::alloc::Global;
use std::process::Abort;

const DESCRIPTORS: [(&[u8], &[u8]); 24] = [
    (b"B", b"#B"),
    (b"C", b"#C"),
    (b"D", b"#D"),
    (b"F", b"#F"),
    (b"I", b"#I"),
    (b"J", b"#J"),
    (b"S", b"#S"),
    (b"Z", b"#Z"),
    (b"LA;", b"{A}"),
    (b"Ljava/lang/Object;", b"{java/lang/Object}"),
    (b"La$b/C$D;", b"{a$b/C$D}"),
    (b"L<a>:b)(*;", b"{<a>:b)(*}"),
    (b"L\xc3\xa9;", b"{\xc3\xa9}"),
    (b"[I", b"[1]#I"),
    (b"[[[D", b"[3]#D"),
    (b"[Ljava/lang/String;", b"[1]{java/lang/String}"),
    (b"()V", b"gives void"),
    (b"()J", b"gives #J"),
    (b"(I)V", b"#I gives void"),
    (b"(BCDFIJSZ)Z", b"#B #C #D #F #I #J #S #Z gives #Z"),
    (
        b"(IDLjava/lang/Thread;)Ljava/lang/Object;",
        b"#I #D {java/lang/Thread} gives {java/lang/Object}",
    ),
    (b"(LA;LB;)V", b"{A} {B} gives void"),
    (b"([I[[LA;J)[S", b"[1]#I [2]{A} #J gives [1]#S"),
    (b"()[[LA;", b"gives [2]{A}"),
];

/// Texts that are no descriptor, with the length of the longest prefix that begins one.
const BAD: [(&[u8], u32); 46] = [
    (b"", 0),
    (b"V", 0),
    (b"A", 0),
    (b";", 0),
    (b")V", 0),
    (b"TT;", 0),
    (b"<", 0),
    (b"II", 1),
    (b"I;", 1),
    (b"L", 1),
    (b"L;", 1),
    (b"L/a;", 1),
    (b"L.a;", 1),
    (b"L[a;", 1),
    (b"La", 2),
    (b"La.b;", 2),
    (b"La[b;", 2),
    (b"La/", 3),
    (b"La/;", 3),
    (b"La//b;", 3),
    (b"La/b", 4),
    (b"La;b", 3),
    (b"LA;;", 3),
    (b"LA<TT;>;", 6),
    (b"[", 1),
    (b"[[", 2),
    (b"[V", 1),
    (b"[;", 1),
    (b"[(", 1),
    (b"[L", 2),
    (b"[L;", 2),
    (b"[I[", 2),
    (b"I(", 1),
    (b"(", 1),
    (b"(I", 2),
    (b"(V)V", 1),
    (b"(()V)V", 1),
    (b"([)V", 2),
    (b"(LA)V", 5),
    (b"()", 2),
    (b"()A", 2),
    (b"()(", 2),
    (b"()[V", 3),
    (b"()L;", 3),
    (b"()VV", 3),
    (b"(I)V^", 4),
];

fn read(rt: &impl Abort, alloc: Global, text: &[u8]) -> Result<JSig, SigErr> {
    assert!(rt; text.len() < 1_000_000);
    read_descriptor(alloc, &Text::of(alloc, text).expect(rt, "memory"))
}

fn expect_tree(rt: &impl Abort, alloc: Global, text: &[u8], tree: &[u8]) {
    check_tree(rt, alloc, text, read(rt, alloc, text), tree);
}

fn refuses(rt: &impl Abort, alloc: Global, text: &[u8], at: u32) {
    let error = read(rt, alloc, text).err();
    assert!(rt; error == Some(SigErr::BadText { at }), "{text:?}");
}

#[test]
fn reads_copies_and_writes_descriptors(rt: HostRuntime) {
    for (text, tree) in &DESCRIPTORS {
        expect_tree(&rt, rt.alloc(), text, tree);
    }
}

#[test]
fn refuses_other_texts(rt: HostRuntime) {
    for (text, at) in &BAD {
        refuses(&rt, rt.alloc(), text, *at);
    }
}

/// What stands in front of so many `[` and behind, and the place that is refused.
const DIMENSIONS: [(&[u8], u32, &[u8], u32); 4] = [
    (b"", 256, b"I", 255),
    (b"", 1000, b"", 255),
    (b"(I", 256, b"I)V", 257),
    (b"", 255, b"V", 255),
];

#[test]
fn counts_dimensions(rt: HostRuntime) {
    let alloc = rt.alloc();
    let most = repeated(&rt, alloc, b"", b"[", 255, b"I");
    expect_tree(&rt, alloc, &most, b"[255]#I");
    for (front, count, end, at) in &DIMENSIONS {
        let text = repeated(&rt, alloc, front, b"[", *count, end);
        refuses(&rt, alloc, &text, *at);
    }
}
