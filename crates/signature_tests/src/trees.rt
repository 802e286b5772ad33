//! Descriptors and signatures told as trees.
//!
//! `#` is before a primitive type, `$` before a variable, the number of dimensions before an
//! element, and a class is in braces, with its arguments in parentheses. Type parameters stand
//! first, with their class bounds, - for none, and their interface bounds; then the supertypes of
//! a class, or the types of a method's parameters, its result and what it throws.
use crate::nesting::add;
use descriptor_sig::{SigErr, write_signature};
use java_types::{JArg, JParam, JPart, JSig, JType};
use std::alloc::Global;
use std::process::Abort;

#[cycle(tell)]
fn tell_type(rt: &impl Abort, told: &mut Vec<u8>, ty: &JType) {
    match ty {
        JType::Void => add(rt, told, b"void"),
        JType::Prim(letter) => add(rt, told, &[b'#', *letter]),
        JType::Var(name) => {
            add(rt, told, b"$");
            add(rt, told, name.bytes());
        }
        JType::Array { element, dims } => {
            tell_dimensions(rt, told, *dims);
            tell_type(rt, told, element.get());
        }
        JType::Named(parts) => tell_class(rt, told, parts.items()),
    }
}

fn tell_dimensions(rt: &impl Abort, told: &mut Vec<u8>, dims: u32) {
    let dims = format!(in *told.allocator(); "[{dims}]").expect(rt, "memory");
    add(rt, told, dims.as_bytes());
}

#[cycle(tell)]
fn tell_class(rt: &impl Abort, told: &mut Vec<u8>, parts: &[JPart]) {
    let mut before: &[u8] = b"{";
    for part in parts {
        add(rt, told, before);
        add(rt, told, part.name.bytes());
        tell_arguments(rt, told, part.args.items());
        before = b".";
    }
    add(rt, told, b"}");
}

#[cycle(tell)]
fn tell_arguments(rt: &impl Abort, told: &mut Vec<u8>, args: &[JArg]) {
    if args.is_empty() {
        return;
    }
    let mut before: &[u8] = b"(";
    for arg in args {
        add(rt, told, before);
        tell_argument(rt, told, arg);
        before = b",";
    }
    add(rt, told, b")");
}

#[cycle(tell)]
fn tell_argument(rt: &impl Abort, told: &mut Vec<u8>, arg: &JArg) {
    match arg {
        JArg::Exact(ty) => tell_after(rt, told, b"is ", ty),
        JArg::Extends(ty) => tell_after(rt, told, b"extends ", ty),
        JArg::Super(ty) => tell_after(rt, told, b"super ", ty),
        JArg::Any => add(rt, told, b"any"),
    }
}

#[cycle(tell)]
fn tell_after(rt: &impl Abort, told: &mut Vec<u8>, before: &[u8], ty: &JType) {
    add(rt, told, before);
    tell_type(rt, told, ty);
}

fn tell_types(rt: &impl Abort, told: &mut Vec<u8>, before: &[u8], types: &[JType], behind: &[u8]) {
    for ty in types {
        tell_after(rt, told, before, ty);
        add(rt, told, behind);
    }
}

fn tell_params(rt: &impl Abort, told: &mut Vec<u8>, params: &[JParam]) {
    for param in params {
        add(rt, told, param.name.bytes());
        match &param.class_bound {
            Some(bound) => tell_after(rt, told, b":", bound),
            None => add(rt, told, b":-"),
        }
        tell_types(rt, told, b"&", param.interface_bounds.items(), b"");
        add(rt, told, b" ");
    }
}

fn tell(rt: &impl Abort, told: &mut Vec<u8>, sig: &JSig) {
    match sig {
        JSig::OfField(ty) => tell_type(rt, told, ty),
        JSig::OfClass {
            params,
            super_type,
            interfaces,
        } => {
            tell_params(rt, told, params.items());
            tell_after(rt, told, b"extends ", super_type);
            tell_types(rt, told, b" implements ", interfaces.items(), b"");
        }
        JSig::OfMethod {
            params,
            formals,
            ret,
            throws,
        } => {
            tell_params(rt, told, params.items());
            tell_types(rt, told, b"", formals.items(), b" ");
            tell_after(rt, told, b"gives ", ret);
            tell_types(rt, told, b" throws ", throws.items(), b"");
        }
    }
}

/// Checks that a text was read as the tree, that the copy of this is told so, and is written as
/// the text.
pub fn check_tree(
    rt: &impl Abort,
    alloc: Global,
    text: &[u8],
    read: Result<JSig, SigErr>,
    tree: &[u8],
) {
    let sig = read.expect(rt, "what was read");
    let copy = sig.copy(alloc).expect(rt, "memory");
    let mut told = Vec::new(alloc);
    tell(rt, &mut told, &copy);
    assert!(rt; told.as_slice() == tree, "{text:?}");
    check_text(rt, alloc, &copy, text);
}

/// Checks what is written.
pub fn check_text(rt: &impl Abort, alloc: Global, sig: &JSig, text: &[u8]) {
    let written = write_signature(alloc, sig).expect(rt, "memory");
    assert!(rt; written.bytes() == text, "{text:?}");
}
