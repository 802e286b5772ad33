use crate::nesting::nested;
use signature_scan::SigPlace::{ClassPlace, FieldPlace, MethodPlace};
use signature_scan::{SigPlace, Verdict, scan};
use std::process::Abort;

/// Signatures.
const FINE: [(SigPlace, &str); 13] = [
    (FieldPlace, "LA;"),
    (FieldPlace, "TT;"),
    (FieldPlace, "[I"),
    (FieldPlace, "[[TE;"),
    (FieldPlace, "La/b/C<*+[I-TT;LD<LE;>.F;>.G.H<*>;"),
    (ClassPlace, "LA;"),
    (ClassPlace, "LA;LB;LC<*>;"),
    (ClassPlace, "<T:LA;:LB;U:TT;V::LB;W:[I>LA<TT;>;"),
    (ClassPlace, "<A:LFoo:La;>La;"),
    (ClassPlace, "<L:T:TA:L:L:T:>LA;"),
    (ClassPlace, "<A:TB:TB;T:LL;>LA;"),
    (MethodPlace, "()V"),
    (MethodPlace, "<T::LA;>(ITT;[[J)[TT;^LE;^TT;"),
];

/// Other texts, with the length of the longest prefix that begins a signature.
const BAD: [(SigPlace, &str, u32); 35] = [
    (FieldPlace, "", 0),
    (FieldPlace, "I", 0),
    (FieldPlace, "V", 0),
    (FieldPlace, "[V", 1),
    (FieldPlace, "L;", 1),
    (FieldPlace, "T;", 1),
    (FieldPlace, "L/A;", 1),
    (FieldPlace, "LA/;", 3),
    (FieldPlace, "LA//B;", 3),
    (FieldPlace, "LA", 2),
    (FieldPlace, "LA;;", 3),
    (FieldPlace, "LA:;", 2),
    (FieldPlace, "LA.;", 3),
    (FieldPlace, "LA.B/C;", 4),
    (FieldPlace, "LA<>;", 3),
    (FieldPlace, "LA<I>;", 3),
    (FieldPlace, "LA<+*>;", 4),
    (FieldPlace, "LA<*>>;", 5),
    (FieldPlace, "LA<*><*>;", 5),
    (FieldPlace, "TT<*>;", 2),
    (FieldPlace, "<T:>LA;", 0),
    (ClassPlace, "TT;", 0),
    (ClassPlace, "[LA;", 0),
    (ClassPlace, "<>LA;", 1),
    (ClassPlace, "<:>LA;", 1),
    (ClassPlace, "<T>LA;", 2),
    (ClassPlace, "<T:I>LA;", 4),
    (ClassPlace, "<L::T:>LA;", 5),
    (ClassPlace, "<T:L;>LA;", 4),
    (ClassPlace, "<T:TA/B;>LA;", 5),
    (ClassPlace, "<T:LA;LB;>LA;", 8),
    (MethodPlace, "(V)V", 1),
    (MethodPlace, "()", 2),
    (MethodPlace, "()V^I", 4),
    (MethodPlace, "()V^[LE;", 4),
];

#[test]
fn tells_signatures_from_other_texts(rt: HostRuntime) {
    for (place, text) in &FINE {
        expect(&rt, text.as_bytes(), *place, Verdict::Fine);
    }
    for (place, text, at) in &BAD {
        expect(&rt, text.as_bytes(), *place, Verdict::BadText { at: *at });
    }
}

/// Each front of a signature begins one and is none itself.
#[test]
fn wants_more_behind_each_front(rt: HostRuntime) {
    let text = b"<T:La/A<-TT;>.B;U::TT;>(I[La;)V^TT;";
    for cut in 0..text.len() {
        if cut != 31 {
            let verdict = Verdict::BadText { at: cut as u32 };
            expect(&rt, &text[..cut], MethodPlace, verdict);
        }
    }
    expect(&rt, &text[..31], MethodPlace, Verdict::Fine);
    expect(&rt, text, MethodPlace, Verdict::Fine);
}

fn expect(rt: &impl Abort, text: &[u8], place: SigPlace, verdict: Verdict) {
    assert!(rt; text.len() < 1_000_000);
    assert!(rt; scan(text, place) == verdict, "{text:?}");
}

/// What stands in front, for each level and behind, and where the 65th level opens.
const NESTED: [(SigPlace, &[u8], &[u8], &[u8], u32); 5] = [
    (FieldPlace, b"", b"LA<", b"", 194),
    (ClassPlace, b"<T:", b"LA<", b">LA;", 197),
    (ClassPlace, b"<T::", b"[[LA<", b">LA;", 328),
    (FieldPlace, b"", b"LA<*>.B<", b"", 514),
    (MethodPlace, b"<T:TT;>(LA<*>;)V^", b"LA<*-LB;", b"", 531),
];

#[test]
fn allows_64_levels_of_type_arguments(rt: HostRuntime) {
    let alloc = rt.alloc();
    for (place, front, opening, end, at) in &NESTED {
        let fine = nested(&rt, alloc, front, opening, 64, end);
        expect(&rt, &fine, *place, Verdict::Fine);
        let deep = nested(&rt, alloc, front, opening, 65, end);
        expect(&rt, &deep, *place, Verdict::TooDeep { at: *at });
        let deeper = nested(&rt, alloc, front, opening, 70, end);
        expect(&rt, &deeper, *place, Verdict::TooDeep { at: *at });
    }
    let bad = nested(&rt, alloc, b"", b"LA<", 65, b"!");
    expect(&rt, &bad, FieldPlace, Verdict::BadText { at: 326 });
}
