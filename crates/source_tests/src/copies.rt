//! Copies, of which each contract says that they equal their source. Those of types, annotations
//! and expressions are told by source_rows.
use hdr_core::{List, Text, TryCopy};
use java_ast::{
    AnnTree, DeclKind, ElemTree, EnumConst, Expr, FieldDecl, Import, Init, Lit, Member, MethodDecl,
    MethodKind, Modifiers, Param, TypeDecl, TypeParam, TypeTree, Unit,
};
use java_token::{Kw, LexLit, OpTok, Token, TokenKind};
use sqlite_items::Boxed;
use std::process::Abort;

fn text<R: Abort + AllocGlobal>(rt: &R, bytes: &[u8]) -> Text {
    Text::of(rt.alloc(), bytes).expect(rt, "memory")
}

fn none<R: AllocGlobal, T>(rt: &R) -> List<T> {
    List::of(Vec::new(rt.alloc()))
}

fn list<R: Abort + AllocGlobal, T: Drop, const N: usize>(rt: &R, items: [T; N]) -> List<T> {
    List::of(Vec::from_array(rt.alloc(), items).expect(rt, "memory"))
}

#[test]
fn a_token_of_each_kind_is_copied(rt: HostRuntime) {
    let kinds = [
        TokenKind::Word(text(&rt, b"record")),
        TokenKind::Keyword(Kw::Class),
        TokenKind::Op(OpTok::Arrow),
        TokenKind::Lit(LexLit::Int {
            value: Some(5),
            decimal: true,
            long: false,
        }),
        TokenKind::Lit(LexLit::Int {
            value: None,
            decimal: false,
            long: true,
        }),
        TokenKind::Lit(LexLit::Real { double: true }),
        TokenKind::Lit(LexLit::Char(0xd800)),
        TokenKind::Lit(LexLit::Str(text(&rt, b"text"))),
    ];
    for kind in list(&rt, kinds).into_items() {
        let token = Token { kind, line: 7 };
        assert!(rt; token.copy(rt.alloc()).is_ok());
        assert!(rt; token.try_copy(rt.alloc()).is_ok());
    }
}

fn annotations<R: Abort + AllocGlobal>(rt: &R) -> List<AnnTree> {
    let annotation = AnnTree {
        line: 4,
        names: list(rt, [text(rt, b"p"), text(rt, b"A")]),
        args: none(rt),
    };
    list(rt, [annotation])
}

fn modifiers<R: Abort + AllocGlobal>(rt: &R) -> Modifiers {
    Modifiers {
        flags: 0x0401,
        is_default: true,
        is_sealed: false,
        non_sealed: true,
        anns: annotations(rt),
    }
}

fn param<R: Abort + AllocGlobal>(rt: &R) -> Param {
    Param {
        line: 5,
        mods: modifiers(rt),
        ty: TypeTree::Void,
        name: text(rt, b"rest"),
        varargs: true,
    }
}

fn type_param<R: Abort + AllocGlobal>(rt: &R) -> TypeParam {
    TypeParam {
        name: text(rt, b"T"),
        bounds: list(rt, [TypeTree::Void]),
    }
}

fn field<R: Abort + AllocGlobal>(rt: &R, init: Init) -> Member {
    Member::Field(FieldDecl {
        line: 6,
        mods: modifiers(rt),
        ty: TypeTree::Void,
        name: text(rt, b"field"),
        init,
    })
}

fn method<R: Abort + AllocGlobal>(rt: &R) -> Member {
    Member::Method(MethodDecl {
        line: 7,
        mods: modifiers(rt),
        kind: MethodKind::Compact,
        params: list(rt, [type_param(rt)]),
        ret: TypeTree::Void,
        name: text(rt, b"method"),
        formals: list(rt, [param(rt)]),
        throws: list(rt, [TypeTree::Void]),
        default_value: Some(ElemTree::Value(Expr::Lit(Lit::Null))),
    })
}

fn declaration<R: Abort + AllocGlobal>(rt: &R, kind: DeclKind, members: List<Member>) -> TypeDecl {
    let constant = EnumConst {
        line: 8,
        anns: annotations(rt),
        name: text(rt, b"ONE"),
        has_body: true,
    };
    TypeDecl {
        kind,
        line: 9,
        mods: modifiers(rt),
        name: text(rt, b"Outer"),
        params: list(rt, [type_param(rt)]),
        extends: list(rt, [TypeTree::Void]),
        implements: list(rt, [TypeTree::Void]),
        permits: list(rt, [TypeTree::Void]),
        constants: list(rt, [constant]),
        components: list(rt, [param(rt)]),
        members,
    }
}

fn members<R: Abort + AllocGlobal>(rt: &R) -> List<Member> {
    let nested = declaration(rt, DeclKind::Recorded, none(rt));
    list(
        rt,
        [
            field(rt, Init::Absent),
            field(rt, Init::Other),
            field(rt, Init::Plain(Expr::Lit(Lit::Bool(true)))),
            method(rt),
            Member::Nested(Boxed::new(rt.alloc(), nested).expect(rt, "memory")),
        ],
    )
}

/// A unit with a declaration and a member of each kind.
#[test]
fn a_unit_is_copied(rt: HostRuntime) {
    let import = Import {
        line: 2,
        is_static: true,
        names: list(&rt, [text(&rt, b"p"), text(&rt, b"Q")]),
        on_demand: true,
    };
    let declaration = declaration(&rt, DeclKind::Enumeration, members(&rt));
    let unit = Unit {
        file: 1,
        path: text(&rt, b"p/Outer.java"),
        package: list(&rt, [text(&rt, b"p")]),
        imports: list(&rt, [import]),
        types: list(&rt, [declaration]),
    };
    assert!(rt; unit.copy(rt.alloc()).is_ok());
}
