//! Sums with texts (JLS 15.18.1).
use crate::words::outcome;
use const_values::{Constant, NoConstant, Outcome, binary, conditional};
use hdr_core::Text;
use java_ast::BinOp;
use std::process::Abort;

fn sum<R: Abort + AllocGlobal>(rt: &R, left: Outcome, right: Outcome) -> Outcome {
    binary(rt.alloc(), BinOp::Plus, left, right).expect(rt, "memory")
}

fn text<R: Abort + AllocGlobal>(rt: &R, bytes: &[u8]) -> Outcome {
    Ok(Constant::Str(Text::of(rt.alloc(), bytes).expect(rt, "memory")))
}

/// A unit and its bytes (JVMS 4.4.7).
const UNITS: [(u16, &[u8]); 8] = [
    (0, &[0xc0, 0x80]),
    (1, &[0x01]),
    (0x7f, &[0x7f]),
    (0x80, &[0xc2, 0x80]),
    (0x7ff, &[0xdf, 0xbf]),
    (0x800, &[0xe0, 0xa0, 0x80]),
    (0xd800, &[0xed, 0xa0, 0x80]),
    (0xffff, &[0xef, 0xbf, 0xbf]),
];

#[test]
fn chars(rt: HostRuntime) {
    for (unit, bytes) in &UNITS {
        let found = sum(&rt, text(&rt, b""), Ok(Constant::Char(*unit)));
        assert_eq!(rt; found, text(&rt, bytes));
    }
}

/// Surrogates that meet stay two units.
#[test]
fn surrogates_that_meet(rt: HostRuntime) {
    let high = sum(&rt, text(&rt, b""), Ok(Constant::Char(0xd83d)));
    let both = sum(&rt, high, Ok(Constant::Char(0xde00)));
    let expected = text(&rt, &[0xed, 0xa0, 0xbd, 0xed, 0xb8, 0x80]);
    assert_eq!(rt; both, expected);
}

/// A sum is made from the left, and `?:` takes the char's type.
#[test]
fn parts_of_sums(rt: HostRuntime) {
    let numbers = sum(&rt, outcome(&rt, "1"), outcome(&rt, "2"));
    assert_eq!(rt;
        sum(&rt, numbers, outcome(&rt, "\"a\"")),
        outcome(&rt, "\"3a\"")
    );
    let (test, yes, no) = (
        outcome(&rt, "true"),
        outcome(&rt, "98"),
        outcome(&rt, "(char)97"),
    );
    let chosen = conditional(test, yes, no);
    assert_eq!(rt;
        sum(&rt, outcome(&rt, "\"\""), chosen),
        outcome(&rt, "\"b\"")
    );
}

/// A text may have 65,535 bytes, and no more, also on the way.
#[test]
fn long_texts(rt: HostRuntime) {
    let mut long = text(&rt, b"");
    for _ in 0..65_535u32 {
        long = sum(&rt, long, text(&rt, b"x"));
    }
    assert!(rt; long.is_ok());
    let longer = sum(&rt, sum(&rt, long, text(&rt, b"")), text(&rt, b"y"));
    assert_eq!(rt; longer, Err(NoConstant::TooLong));
    let behind = sum(&rt, longer, text(&rt, b""));
    assert_eq!(rt; behind, Err(NoConstant::TooLong));
}
