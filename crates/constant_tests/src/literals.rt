//! Literals (JLS 3.10).
use crate::words::{outcome, words};
use const_values::literal;
use hdr_core::Text;
use java_ast::Lit;
use std::process::Abort;

/// The value of an integer literal's digits, `none` above 64 bits; whether it is decimal; its
/// type; `=`, what it stands for, and what it stands for with a minus sign before it.
const INTEGERS: &str = "
    0 decimal int = 0 0
    1 decimal int = 1 -1
    2147483647 decimal int = 2147483647 -2147483647
    2147483648 decimal int = Range -2147483648
    2147483649 decimal int = Range Range
    4294967295 decimal int = Range Range
    9223372036854775808 decimal int = Range Range
    none decimal int = Range Range
    2147483647 other int = 2147483647 -2147483647
    2147483648 other int = -2147483648 -2147483648
    2147483649 other int = -2147483647 2147483647
    4294967295 other int = -1 1
    4294967296 other int = Range Range
    18446744073709551615 other int = Range Range
    none other int = Range Range
    0 other int = 0 0
    98304 other int = 98304 -98304
    0 decimal long = 0L 0L
    5 decimal long = 5L -5L
    2147483648 decimal long = 2147483648L -2147483648L
    9223372036854775807 decimal long = 9223372036854775807L -9223372036854775807L
    9223372036854775808 decimal long = Range -9223372036854775808L
    9223372036854775809 decimal long = Range Range
    18446744073709551615 decimal long = Range Range
    none decimal long = Range Range
    0 other long = 0L 0L
    9223372036854775807 other long = 9223372036854775807L -9223372036854775807L
    9223372036854775808 other long = -9223372036854775808L -9223372036854775808L
    9223372036854775809 other long = -9223372036854775807L 9223372036854775807L
    18446744073709551615 other long = -1L 1L
    none other long = Range Range
    4294967295 other long = 4294967295L -4294967295L
    4294967296 other long = 4294967296L -4294967296L
    15 other int = 15 -15
";

fn integer<R: Abort>(rt: &R, digits: &str, radix: &str, ty: &str) -> Lit {
    Lit::Int {
        value: match digits.as_bytes() {
            b"none" => None,
            _ => Some(digits.parse().expect(rt, digits)),
        },
        decimal: radix.as_bytes() == b"decimal".as_slice(),
        long: ty.as_bytes() == b"long".as_slice(),
    }
}

fn integer_row<R: Abort + AllocGlobal>(rt: &R, row: &str) {
    let words = words(rt, row);
    let found = match words.as_slice() {
        [digits, radix, ty, _, plain, negated] => {
            let integer = integer(rt, digits, radix, ty);
            let alone = literal(rt.alloc(), &integer, false).expect(rt, "memory");
            let behind = literal(rt.alloc(), &integer, true).expect(rt, "memory");
            alone == outcome(rt, plain) && behind == outcome(rt, negated)
        }
        _ => false,
    };
    assert!(rt; found, "{row}");
}

fn integer_rows<R: Abort + AllocGlobal>(rt: &R, rows: &str) {
    for row in rows.trim().lines() {
        integer_row(rt, row);
    }
}

#[test]
fn integers(rt: HostRuntime) {
    integer_rows(&rt, INTEGERS);
}

fn stands_for<R: Abort + AllocGlobal>(rt: &R, lit: &Lit, plain: &str, negated: &str) {
    let found = literal(rt.alloc(), lit, false).expect(rt, "memory");
    assert_eq!(rt; found, outcome(rt, plain));
    let found = literal(rt.alloc(), lit, true).expect(rt, "memory");
    assert_eq!(rt; found, outcome(rt, negated));
}

#[test]
fn other_literals(rt: HostRuntime) {
    let text = Text::of(rt.alloc(), b"ab").expect(&rt, "memory");
    stands_for(&rt, &Lit::Bool(true), "true", "NotConst");
    stands_for(&rt, &Lit::Char(97), "(char)97", "-97");
    stands_for(&rt, &Lit::Str(text), "\"ab\"", "NotConst");
    stands_for(&rt, &Lit::Null, "NotConst", "NotConst");
    stands_for(
        &rt,
        &Lit::Real { double: true },
        "Unsupported",
        "Unsupported",
    );
    stands_for(
        &rt,
        &Lit::Real { double: false },
        "Unsupported",
        "Unsupported",
    );
}

/// A text of 65,535 bytes, and of one more.
#[test]
fn long_literals(rt: HostRuntime) {
    let bytes = vec![in rt.alloc(); b'x'; 65_536].expect(&rt, "memory");
    let fits = Lit::Str(Text::of(rt.alloc(), &bytes.as_slice()[1..]).expect(&rt, "memory"));
    let found = literal(rt.alloc(), &fits, false).expect(&rt, "memory");
    assert!(rt; found.is_ok());
    let longer = Lit::Str(Text::from(bytes));
    let found = literal(rt.alloc(), &longer, false).expect(&rt, "memory");
    assert_eq!(rt; found, outcome(&rt, "TooLong"));
    let found = literal(rt.alloc(), &longer, true).expect(&rt, "memory");
    assert_eq!(rt; found, outcome(&rt, "TooLong"));
}
