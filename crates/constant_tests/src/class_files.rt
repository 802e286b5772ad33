//! Constants of class files (JVMS 4.7.2), and what several parts come to.
use crate::words::{outcome, words};
use class_desc::Value;
use const_values::{NoConstant, Outcome, combined, constant_of, written};
use hdr_core::Text;
use std::process::Abort;

/// A descriptor, an Integer, `=`, and the constant that is written as it.
const WRITTEN: &str = "
    Z 1 = true
    Z 0 = false
    B -128 = (byte)-128
    B 127 = (byte)127
    S -32768 = (short)-32768
    S 32767 = (short)32767
    C 0 = (char)0
    C 65535 = (char)65535
    I 0 = 0
    I 98 = 98
    I -1 = -1
    I 2 = 2
    I 2147483647 = 2147483647
    I -2147483648 = -2147483648
";

/// A descriptor, an Integer that isn't written, `=`, and what the field holds.
const HELD: &str = "
    Z 2 = true
    Z -1 = true
    Z 256 = true
    B 128 = NotConst
    B -129 = NotConst
    S 32768 = NotConst
    S -32769 = NotConst
    C -1 = NotConst
    C 65536 = NotConst
    J 1 = NotConst
    F 1 = NotConst
    D 1 = NotConst
    Ljava/lang/String; 1 = NotConst
    Ljava/lang/Integer; 1 = NotConst
    [I 1 = NotConst
";

/// The first reason, or `none`, `=`, and the parts.
const PARTS: &str = r#"
    none =
    none = 1
    none = 1 true "a"
    Unsupported = Unsupported
    TooLong = 1 Unsupported TooLong
    Range = TooLong Range 1
    NotConst = Range Unsupported TooLong NotConst
    NotConst = NotConst Range TooLong Unsupported
    Range = Unsupported Unsupported Range
    TooLong = TooLong 1 Unsupported
"#;

fn held<R: Abort>(rt: &R, descriptor: &str, integer: &str) -> Outcome {
    let integer = integer.parse().expect(rt, integer);
    constant_of(descriptor.as_bytes(), Value::Integer(integer))
}

fn held_row<R: Abort + AllocGlobal>(rt: &R, row: &str) {
    let words = words(rt, row);
    let found = match words.as_slice() {
        [descriptor, integer, _, expected] => {
            held(rt, descriptor, integer) == outcome(rt, expected)
        }
        _ => false,
    };
    assert!(rt; found, "{row}");
}

fn is_integer(value: &Value, integer: i32) -> bool {
    match value {
        Value::Integer(number) => *number == integer,
        _ => false,
    }
}

fn written_row<R: Abort + AllocGlobal>(rt: &R, row: &str) {
    let words = words(rt, row);
    let found = match words.as_slice() {
        [_, integer, _, constant] => match outcome(rt, constant) {
            Ok(constant) => is_integer(&written(constant), integer.parse().expect(rt, integer)),
            Err(_) => false,
        },
        _ => false,
    };
    assert!(rt; found, "{row}");
}

fn parts_row<R: Abort + AllocGlobal>(rt: &R, row: &str) {
    let words = words(rt, row);
    let mut parts = Vec::new(rt.alloc());
    for word in words.iter().skip(2) {
        parts.push(outcome(rt, word)).expect(rt, "memory");
    }
    let found = match (combined(parts.as_slice()), words.as_slice()) {
        (Some(reason), [expected, ..]) => Err(reason) == outcome(rt, expected),
        (None, [expected, ..]) => expected.as_bytes() == b"none".as_slice(),
        _ => false,
    };
    assert!(rt; found, "{row}");
}

fn held_rows<R: Abort + AllocGlobal>(rt: &R, rows: &str) {
    for row in rows.trim().lines() {
        held_row(rt, row);
    }
}

fn written_rows<R: Abort + AllocGlobal>(rt: &R, rows: &str) {
    for row in rows.trim().lines() {
        written_row(rt, row);
    }
}

fn parts_rows<R: Abort + AllocGlobal>(rt: &R, rows: &str) {
    for row in rows.trim().lines() {
        parts_row(rt, row);
    }
}

#[test]
fn written_integers(rt: HostRuntime) {
    written_rows(&rt, WRITTEN);
    held_rows(&rt, WRITTEN);
}

#[test]
fn held_integers(rt: HostRuntime) {
    held_rows(&rt, HELD);
}

#[test]
fn parts(rt: HostRuntime) {
    parts_rows(&rt, PARTS);
}

#[test]
fn other_values(rt: HostRuntime) {
    let text = Text::of(rt.alloc(), b"a").expect(&rt, "memory");
    assert_eq!(rt; constant_of(b"J", Value::Long(-5)), outcome(&rt, "-5L"));
    assert_eq!(rt; constant_of(b"I", Value::Long(5)), outcome(&rt, "NotConst"));
    assert_eq!(rt;
        constant_of(b"F", Value::Raw32(0)),
        outcome(&rt, "Unsupported")
    );
    assert_eq!(rt;
        constant_of(b"D", Value::Raw64(0)),
        outcome(&rt, "Unsupported")
    );
    assert_eq!(rt;
        constant_of(b"D", Value::Raw32(0)),
        outcome(&rt, "NotConst")
    );
    assert_eq!(rt;
        constant_of(b"", Value::Integer(1)),
        outcome(&rt, "NotConst")
    );
    let held = constant_of(b"Ljava/lang/String;", Value::Str(text));
    assert_eq!(rt; held, outcome(&rt, "\"a\""));
}
