//! Packages, imports, modifiers and type parameters.
use crate::tokens::tokens_of;
use head_parser::{
    bounds, implemented, import, modifiers, package, permitted, superclass, superinterfaces,
    throws, type_params,
};
use java_grammar::{Edge, Reader};

#[test]
fn packages_and_imports_are_read(rt: HostRuntime) {
    let tokens = tokens_of(&rt, b"package a.b");
    let mut reader = Reader::up_to(&tokens, Edge::Semicolon);
    let words = package(rt.alloc(), &mut reader, 100)
        .ok()
        .expect(&rt, "a package");
    assert!(rt; words.len() == 2);
    assert!(rt; reader.is_at_end());
    let tokens = tokens_of(&rt, b"import static a.b.*");
    let mut reader = Reader::up_to(&tokens, Edge::Semicolon);
    let import = import(rt.alloc(), &mut reader, 100)
        .ok()
        .expect(&rt, "an import");
    assert!(rt; import.is_static);
    assert!(rt; import.on_demand);
    assert!(rt; import.names.len() == 2);
    assert!(rt; reader.is_at_end());
}

#[test]
fn modifiers_are_read(rt: HostRuntime) {
    let tokens = tokens_of(&rt, b"@A public non-sealed static x");
    let mut reader = Reader::of(&tokens);
    let mods = modifiers(rt.alloc(), &mut reader, 100)
        .ok()
        .expect(&rt, "modifiers");
    assert!(rt; mods.flags == 9);
    assert!(rt; mods.non_sealed);
    assert!(rt; !mods.is_sealed);
    assert!(rt; !mods.is_default);
    assert!(rt; mods.anns.len() == 1);
}

#[test]
fn lists_of_types_are_read(rt: HostRuntime) {
    let tokens = tokens_of(&rt, b"<T extends A & B, U>");
    let mut reader = Reader::of(&tokens);
    let params = type_params(rt.alloc(), &mut reader, 100)
        .ok()
        .expect(&rt, "parameters");
    assert!(rt; params.len() == 2);
    let tokens = tokens_of(&rt, b"extends A & B");
    let mut reader = Reader::of(&tokens);
    let types = bounds(rt.alloc(), &mut reader, 100)
        .ok()
        .expect(&rt, "bounds");
    assert!(rt; types.len() == 2);
    let tokens = tokens_of(&rt, b"throws A, B, C");
    let mut reader = Reader::of(&tokens);
    let types = throws(rt.alloc(), &mut reader, 100)
        .ok()
        .expect(&rt, "types");
    assert!(rt; types.len() == 3);
    let tokens = tokens_of(&rt, b"extends A, B");
    let mut reader = Reader::of(&tokens);
    let types = superclass(rt.alloc(), &mut reader, 100)
        .ok()
        .expect(&rt, "a class");
    assert!(rt; types.len() == 1);
    let mut reader = Reader::of(&tokens);
    let types = superinterfaces(rt.alloc(), &mut reader, 100)
        .ok()
        .expect(&rt, "interfaces");
    assert!(rt; types.len() == 2);
    let tokens = tokens_of(&rt, b"implements A, B permits C");
    let mut reader = Reader::of(&tokens);
    let types = implemented(rt.alloc(), &mut reader, 100)
        .ok()
        .expect(&rt, "interfaces");
    assert!(rt; types.len() == 2);
    let types = permitted(rt.alloc(), &mut reader, 100)
        .ok()
        .expect(&rt, "a class");
    assert!(rt; types.len() == 1);
    assert!(rt; reader.is_at_end());
}
