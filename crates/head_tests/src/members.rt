//! Formal parameters, components, methods and constructors.
use crate::tokens::tokens_of;
use head_parser::{compact_constructor, components, constructor, formals, read_method};
use java_ast::MethodKind;
use java_grammar::{Edge, Reader};

#[test]
fn parameters_are_read(rt: HostRuntime) {
    let tokens = tokens_of(&rt, b"(A this, final int a[], B @C ... c)");
    let mut reader = Reader::of(&tokens);
    let formals = formals(rt.alloc(), &mut reader, 100)
        .ok()
        .expect(&rt, "formals");
    assert!(rt; formals.len() == 2);
    assert!(rt; reader.is_at_end());
    let tokens = tokens_of(&rt, b"(@A int a, B... b)");
    let mut reader = Reader::of(&tokens);
    let components = components(rt.alloc(), &mut reader, 100)
        .ok()
        .expect(&rt, "components");
    assert!(rt; components.len() == 2);
    assert!(rt; reader.is_at_end());
}

#[test]
fn methods_are_read(rt: HostRuntime) {
    let tokens = tokens_of(&rt, b"@A <T> @B int m(T a)[] throws C");
    let mut reader = Reader::up_to(&tokens, Edge::Semicolon);
    let method = read_method(rt.alloc(), &mut reader, 100)
        .ok()
        .expect(&rt, "a method");
    assert!(rt; method.mods.anns.len() == 2);
    assert!(rt; method.formals.len() == 1);
    assert!(rt; method.throws.len() == 1);
    assert!(rt; reader.is_at_end());
}

#[test]
fn constructors_are_read(rt: HostRuntime) {
    let tokens = tokens_of(&rt, b"public C(int a)");
    let mut reader = Reader::up_to(&tokens, Edge::Group);
    let made = constructor(rt.alloc(), &mut reader, b"C", 100)
        .ok()
        .expect(&rt, "a constructor");
    assert!(rt; made.kind == MethodKind::Constructor);
    assert!(rt; made.formals.len() == 1);
    let mut reader = Reader::up_to(&tokens, Edge::Group);
    assert!(rt; constructor(rt.alloc(), &mut reader, b"D", 100).is_err());
    let tokens = tokens_of(&rt, b"public C");
    let mut reader = Reader::up_to(&tokens, Edge::Group);
    let made = compact_constructor(rt.alloc(), &mut reader, b"C", 100);
    let made = made.ok().expect(&rt, "a constructor");
    assert!(rt; made.kind == MethodKind::Compact);
    assert!(rt; reader.is_at_end());
}
