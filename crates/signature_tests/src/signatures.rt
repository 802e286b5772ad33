//! Texts of signatures, told as trees.
use crate::nesting::{nested, repeated};
use crate::trees::check_tree;
use descriptor_sig::SigPlace::{ClassPlace, FieldPlace, MethodPlace};
use descriptor_sig::{SigErr, SigPlace, read_signature};
use hdr_core::Text;
use java_types::JSig;
use std::alloc::Global;
use std::process::Abort;

/// Fields: `#` is before a primitive type, `$` before a variable, the number of dimensions before
/// an element, and a class is in braces, with its arguments in parentheses.
const FIELDS: [(&str, &str); 41] = [
    ("LA;", "{A}"),
    ("La/b/C;", "{a/b/C}"),
    ("LA$B;", "{A$B}"),
    ("LL;", "{L}"),
    ("L+*^()-;", "{+*^()-}"),
    ("TT;", "$T"),
    ("TTLT;", "$TLT"),
    ("T*;", "$*"),
    ("[B", "[1]#B"),
    ("[C", "[1]#C"),
    ("[D", "[1]#D"),
    ("[F", "[1]#F"),
    ("[I", "[1]#I"),
    ("[J", "[1]#J"),
    ("[S", "[1]#S"),
    ("[Z", "[1]#Z"),
    ("[LA;", "[1]{A}"),
    ("[[LA<*>;", "[2]{A(any)}"),
    ("[[[TT;", "[3]$T"),
    ("LA<*>;", "{A(any)}"),
    ("LA<LB;>;", "{A(is {B})}"),
    ("LA<+LB;>;", "{A(extends {B})}"),
    ("LA<-LB;>;", "{A(super {B})}"),
    ("LA<TT;>;", "{A(is $T)}"),
    ("LA<+TT;>;", "{A(extends $T)}"),
    ("LA<-TT;>;", "{A(super $T)}"),
    ("LA<[I>;", "{A(is [1]#I)}"),
    ("LA<+[[J>;", "{A(extends [2]#J)}"),
    ("LA<-[TT;>;", "{A(super [1]$T)}"),
    (
        "LA<*+LB;-TT;LC;*>;",
        "{A(any,extends {B},super $T,is {C},any)}",
    ),
    ("LA.B;", "{A.B}"),
    ("LA<*>.B;", "{A(any).B}"),
    ("LA.B<*>;", "{A.B(any)}"),
    ("Lp/A<TT;>.B<LC;>.D;", "{p/A(is $T).B(is {C}).D}"),
    (
        "LA<*>.B.C<-LD;>.E.F<*>;",
        "{A(any).B.C(super {D}).E.F(any)}",
    ),
    ("LA<LB<+LC<*>;>;>;", "{A(is {B(extends {C(any)})})}"),
    (
        "LA<LB<*>.C<TT;>;TU;>.D;",
        "{A(is {B(any).C(is $T)},is $U).D}",
    ),
    ("[LA<[LB<[[I>;>;", "[1]{A(is [1]{B(is [2]#I)})}"),
    ("[[J", "[2]#J"),
    ("Lp/Map<-TK;*[B>;", "{p/Map(super $K,any,is [1]#B)}"),
    (
        "Lp/A<Lp/B;+TT;-[[I*>.C;",
        "{p/A(is {p/B},extends $T,super [2]#I,any).C}",
    ),
];

/// Classes: type parameters with their class bounds, - for none, and their interface bounds, then
/// the supertypes.
const CLASSES: [(&str, &str); 21] = [
    ("LA;", "extends {A}"),
    (
        "LA;LB;LC<*>;",
        "extends {A} implements {B} implements {C(any)}",
    ),
    ("LA<TT;>.B;LC.D;", "extends {A(is $T).B} implements {C.D}"),
    ("<T:>LA;", "T:- extends {A}"),
    ("<T:LB;>LA;", "T:{B} extends {A}"),
    ("<T::LI;>LA;", "T:-&{I} extends {A}"),
    (
        "<T:LB;:LI;:LJ<TT;>;>LA;",
        "T:{B}&{I}&{J(is $T)} extends {A}",
    ),
    ("<T::LI;:TU;:[I>LA;", "T:-&{I}&$U&[1]#I extends {A}"),
    ("<T:TU;U:>LA;", "T:$U U:- extends {A}"),
    ("<T:[[J>LA;", "T:[2]#J extends {A}"),
    ("<T:LA<TT;>;>LB;", "T:{A(is $T)} extends {B}"),
    ("<T:LA.B;U:LC/D;>LE;", "T:{A.B} U:{C/D} extends {E}"),
    ("<A:LFoo:La;>La;", "A:- LFoo:{a} extends {a}"),
    ("<L:T:TA:L:L:T:>LA;", "L:- T:- TA:- L:- L:- T:- extends {A}"),
    ("<A:TB:TB;T:LL;>LA;", "A:- TB:$B T:{L} extends {A}"),
    ("<A::LB;L:LL;T:TT;>LT;", "A:-&{B} L:{L} T:$T extends {T}"),
    ("<I:Z:>LA;", "I:- Z:- extends {A}"),
    ("<*:+:>LA;LI;", "*:- +:- extends {A} implements {I}"),
    (
        "Ljava/lang/Enum<Llib/Level;>;Lp/I;Lp/J;",
        "extends {java/lang/Enum(is {lib/Level})} implements {p/I} implements {p/J}",
    ),
    (
        "<T::Ljava/lang/Comparable<TT;>;U:Lp/B;:Lp/I;V:>Ljava/lang/Object;",
        "T:-&{java/lang/Comparable(is $T)} U:{p/B}&{p/I} V:- extends {java/lang/Object}",
    ),
    (
        "<T:Lp/B;:Lp/I;:Lp/A<Lp/B;+TT;-[[I*>.C;E:>Lp/A<Lp/B;+TT;-[[I*>.C;Lp/I;Lp/J;",
        "T:{p/B}&{p/I}&{p/A(is {p/B},extends $T,super [2]#I,any).C} E:- extends {p/A(is {p/B},extends $T,super [2]#I,any).C} implements {p/I} implements {p/J}",
    ),
];

/// Methods: type parameters, then the types of the parameters, the result and what is thrown.
const METHODS: [(&str, &str); 17] = [
    ("()V", "gives void"),
    ("()Z", "gives #Z"),
    ("(BCDFIJSZ)V", "#B #C #D #F #I #J #S #Z gives void"),
    ("([[JTT;LA<*>;)[I", "[2]#J $T {A(any)} gives [1]#I"),
    ("(LA;ILA;)LB<-TT;>;", "{A} #I {A} gives {B(super $T)}"),
    ("()TT;", "gives $T"),
    ("()V^LE;", "gives void throws {E}"),
    (
        "()V^TT;^La/E<*>.F;",
        "gives void throws $T throws {a/E(any).F}",
    ),
    ("<T:>()V", "T:- gives void"),
    ("<T:>(TT;)TT;", "T:- $T gives $T"),
    (
        "<T::LA;>(I[TT;)V^TT;",
        "T:-&{A} #I [1]$T gives void throws $T",
    ),
    (
        "<T:LE;:LI;U:TT;>(TU;)J^TT;^LE;",
        "T:{E}&{I} U:$T $U gives #J throws $T throws {E}",
    ),
    ("<A:LT:TU;>()V", "A:- LT:$U gives void"),
    (
        "()Ljava/util/List<+Llib/Shape;>;",
        "gives {java/util/List(extends {lib/Shape})}",
    ),
    (
        "(I)Llib/Builder<TT;>.Step;",
        "#I gives {lib/Builder(is $T).Step}",
    ),
    (
        "(TT;Z)V^TE;^Lp/X;",
        "$T #Z gives void throws $E throws {p/X}",
    ),
    (
        "<T:Lp/B;:Lp/I;:Lp/A<Lp/B;+TT;-[[I*>.C;E:>(Lp/A<Lp/B;+TT;-[[I*>.C;[[I)V^TE;^Lp/X;",
        "T:{p/B}&{p/I}&{p/A(is {p/B},extends $T,super [2]#I,any).C} E:- {p/A(is {p/B},extends $T,super [2]#I,any).C} [2]#I gives void throws $E throws {p/X}",
    ),
];

/// Texts that spell no signature, with the length of the longest prefix that begins one.
const BAD: [(SigPlace, &str, u32); 12] = [
    (FieldPlace, "", 0),
    (FieldPlace, "I", 0),
    (FieldPlace, "LA<I>;", 3),
    (FieldPlace, "LA<V>;", 3),
    (FieldPlace, "LA;;", 3),
    (FieldPlace, "<T:>LA;", 0),
    (ClassPlace, "TT;", 0),
    (ClassPlace, "<T:I>LA;", 4),
    (ClassPlace, "()V", 0),
    (MethodPlace, "LA;", 0),
    (MethodPlace, "(V)V", 1),
    (MethodPlace, "()V^[LE;", 4),
];

fn read(rt: &impl Abort, alloc: Global, place: SigPlace, text: &[u8]) -> Result<JSig, SigErr> {
    assert!(rt; text.len() < 1_000_000);
    read_signature(alloc, &Text::of(alloc, text).expect(rt, "memory"), place)
}

fn expect_tree(rt: &impl Abort, alloc: Global, place: SigPlace, text: &[u8], tree: &str) {
    check_tree(
        rt,
        alloc,
        text,
        read(rt, alloc, place, text),
        tree.as_bytes(),
    );
}

fn expect_error(rt: &impl Abort, alloc: Global, place: SigPlace, text: &[u8], error: SigErr) {
    assert!(rt;
        read(rt, alloc, place, text).err() == Some(error),
        "{text:?}"
    );
}

fn expect_trees(rt: &impl Abort, alloc: Global, place: SigPlace, rows: &[(&str, &str)]) {
    for (text, tree) in rows {
        expect_tree(rt, alloc, place, text.as_bytes(), tree);
    }
}

#[test]
fn reads_copies_and_writes_each_form(rt: HostRuntime) {
    expect_trees(&rt, rt.alloc(), FieldPlace, &FIELDS);
    expect_trees(&rt, rt.alloc(), ClassPlace, &CLASSES);
    expect_trees(&rt, rt.alloc(), MethodPlace, &METHODS);
}

#[test]
fn refuses_other_texts(rt: HostRuntime) {
    for (place, text, at) in &BAD {
        let error = SigErr::BadText { at: *at };
        expect_error(&rt, rt.alloc(), *place, text.as_bytes(), error);
    }
}

/// Each front of a signature is refused at its end.
#[test]
fn refuses_cut_texts(rt: HostRuntime) {
    let alloc = rt.alloc();
    let text = b"<T:La/A<-TT;>.B;U::TT;LV:>(I[La;)[[J";
    for cut in 0..text.len() {
        let error = SigErr::BadText { at: cut as u32 };
        expect_error(&rt, alloc, MethodPlace, &text[..cut], error);
    }
    let tree = "T:{a/A(super $T).B} U:-&$T LV:- #I [1]{a} gives [2]#J";
    expect_tree(&rt, alloc, MethodPlace, text, tree);
}

/// Numbers of dimensions, of which signatures have no limit.
const DIMENSIONS: [(u32, &str); 4] = [
    (254, "[254]#I"),
    (255, "[255]#I"),
    (256, "[256]#I"),
    (1000, "[1000]#I"),
];

#[test]
fn reads_many_dimensions(rt: HostRuntime) {
    for (dims, tree) in &DIMENSIONS {
        let text = repeated(&rt, rt.alloc(), b"", b"[", *dims, b"I");
        expect_tree(&rt, rt.alloc(), FieldPlace, &text, tree);
    }
}

/// What stands in front and behind, and where the 65th level opens.
const NESTED: [(SigPlace, &[u8], &[u8], u32); 6] = [
    (FieldPlace, b"", b"", 194),
    (FieldPlace, b"[", b"", 195),
    (ClassPlace, b"<T:", b">LA;", 197),
    (ClassPlace, b"<T::", b">LA;", 198),
    (MethodPlace, b"(", b")V", 195),
    (MethodPlace, b"()V^LB<*>;^", b"", 205),
];

#[test]
fn reads_64_levels_of_type_arguments(rt: HostRuntime) {
    let alloc = rt.alloc();
    for (place, front, end, at) in &NESTED {
        let fine = nested(&rt, alloc, front, b"LA<", 64, end);
        assert!(rt; read(&rt, alloc, *place, &fine).is_ok(), "{fine:?}");
        let deep = nested(&rt, alloc, front, b"LA<", 65, end);
        expect_error(&rt, alloc, *place, &deep, SigErr::TooDeep { at: *at });
    }
}
