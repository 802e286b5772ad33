//! Heads of the five kinds of declarations.
use crate::tokens::tokens_of;
use head_parser::read_head;
use java_ast::DeclKind;
use java_grammar::Reader;
use std::process::Abort;

fn kind_of<R: Abort + AllocGlobal>(rt: &R, source: &[u8]) -> DeclKind {
    let tokens = tokens_of(rt, source);
    let mut reader = Reader::of(&tokens);
    let head = read_head(rt.alloc(), &mut reader, 100)
        .ok()
        .expect(rt, "a head");
    assert!(rt; reader.is_at_end());
    head.declared.kind
}

#[test]
fn heads_are_read(rt: HostRuntime) {
    let class = b"public sealed class A<T> extends B implements C, D permits E";
    assert!(rt; kind_of(&rt, class) == DeclKind::Class);
    assert!(rt; kind_of(&rt, b"interface A<T> extends B, C permits D") == DeclKind::Interface);
    assert!(rt; kind_of(&rt, b"enum A implements B") == DeclKind::Enumeration);
    assert!(rt; kind_of(&rt, b"record A<T>(int a) implements B") == DeclKind::Recorded);
    assert!(rt; kind_of(&rt, b"@A public @interface B") == DeclKind::Annotation);
}
