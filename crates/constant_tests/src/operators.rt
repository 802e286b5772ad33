//! Operators. The values are those of the rules of JLS 15.15 to 15.25.
use crate::words::{binary_operator, outcome, unary_operator, words};
use const_values::{binary, conditional, unary};
use std::process::Abort;

/// The left operand, the operator, the right operand, `=`, and the outcome.
const ARITHMETIC: &str = r#"
    2 * 3 = 6
    -2 * 3 = -6
    -2 * -3 = 6
    2147483647 * 2 = -2
    -2147483648 * -1 = -2147483648
    -2147483648 * -2147483648 = 0
    65536 * 65536 = 0
    46341 * 46341 = -2147479015
    65536L * 65536 = 4294967296L
    2147483647 * 2L = 4294967294L
    9223372036854775807L * 2 = -2L
    -9223372036854775808L * -1 = -9223372036854775808L
    4294967296L * 4294967296L = 0L
    (byte)127 * (byte)127 = 16129
    (char)65535 * (char)65535 = -131071
    5 / 3 = 1
    5 / -3 = -1
    -5 / 3 = -1
    -5 / -3 = 1
    -2147483648 / -1 = -2147483648
    -2147483648 / 1 = -2147483648
    -2147483648 / 2 = -1073741824
    2147483647 / -1 = -2147483647
    -2147483648 / -1L = 2147483648L
    -9223372036854775808L / -1 = -9223372036854775808L
    -9223372036854775808L / -1L = -9223372036854775808L
    9223372036854775807L / -1L = -9223372036854775807L
    7L / 2 = 3L
    (byte)-128 / (byte)-1 = 128
    (char)97 / 2 = 48
    7 / 0 = NotConst
    7L / 0 = NotConst
    7 / 0L = NotConst
    0 / 0 = NotConst
    7 / (char)0 = NotConst
    5 % 3 = 2
    5 % -3 = 2
    -5 % 3 = -2
    -5 % -3 = -2
    -2147483648 % -1 = 0
    -2147483648 % 10 = -8
    2147483647 % -10 = 7
    -9223372036854775808L % -1L = 0L
    -9223372036854775808L % 10 = -8L
    5 % 3L = 2L
    (short)-7 % (byte)4 = -3
    5 % 0 = NotConst
    5L % 0L = NotConst
    1 + 2 = 3
    2147483647 + 1 = -2147483648
    -2147483648 + -1 = 2147483647
    2147483647 + 1L = 2147483648L
    9223372036854775807L + 1 = -9223372036854775808L
    -9223372036854775808L + -1L = 9223372036854775807L
    (char)97 + 1 = 98
    (char)97 + (char)97 = 194
    (byte)127 + (byte)1 = 128
    (short)32767 + (short)1 = 32768
    (char)65535 + 1 = 65536
    (char)65535 + 0L = 65535L
    1 - 2 = -1
    -2147483648 - 1 = 2147483647
    2147483647 - -1 = -2147483648
    0 - -2147483648 = -2147483648
    -9223372036854775808L - 1 = 9223372036854775807L
    0L - -9223372036854775808L = -9223372036854775808L
    (char)0 - (char)1 = -1
    (byte)-128 - (byte)1 = -129
    true + 1 = NotConst
    1 + true = NotConst
    true + true = NotConst
    true - 1 = NotConst
    1 - "a" = NotConst
    "a" - 1 = NotConst
    "a" * 2 = NotConst
    2 * false = NotConst
    true / true = NotConst
    "a" % "a" = NotConst
"#;

const SHIFTS: &str = r#"
    1 << 0 = 1
    1 << 31 = -2147483648
    1 << 32 = 1
    1 << 33 = 2
    1 << -1 = -2147483648
    1 << -31 = 2
    1 << 33L = 2
    1 << 4294967297L = 2
    1 << -9223372036854775808L = 1
    3 << 31 = -2147483648
    -1 << 4 = -16
    1073741824 << 2 = 0
    1L << 31 = 2147483648L
    1L << 33 = 8589934592L
    1L << 63 = -9223372036854775808L
    1L << 64 = 1L
    1L << 65 = 2L
    1L << -1 = -9223372036854775808L
    3L << 63L = -9223372036854775808L
    (byte)1 << 8 = 256
    (char)65535 << 16 = -65536
    1 << (char)33 = 2
    16 >> 2 = 4
    -16 >> 2 = -4
    -1 >> 1 = -1
    -5 >> 1 = -3
    -2147483648 >> 31 = -1
    2147483647 >> 31 = 0
    -2147483648 >> 32 = -2147483648
    7 >> 33 = 3
    -1L >> 63 = -1L
    -9223372036854775808L >> 62 = -2L
    -9223372036854775808L >> 64 = -9223372036854775808L
    (byte)-128 >> 1 = -64
    -1 >>> 1 = 2147483647
    -1 >>> 0 = -1
    -1 >>> 31 = 1
    -1 >>> 32 = -1
    -16 >>> 2 = 1073741820
    16 >>> 2 = 4
    -2147483648 >>> 1 = 1073741824
    -1L >>> 1 = 9223372036854775807L
    -1L >>> 63 = 1L
    -1L >>> 65 = 9223372036854775807L
    (byte)-1 >>> 24 = 255
    -1 >>> 33L = 2147483647
    1 << true = NotConst
    true >> 1 = NotConst
    "a" >>> 1 = NotConst
    1 << "a" = NotConst
"#;

const COMPARISONS: &str = r#"
    1 < 2 = true
    2 < 1 = false
    1 < 1 = false
    -1 < 0 = true
    -2147483648 < 2147483647 = true
    -1 < (char)65535 = true
    9223372036854775807L < -9223372036854775808L = false
    2147483647 < 2147483648L = true
    1 <= 1 = true
    2 <= 1 = false
    -1L <= -1 = true
    2 > 1 = true
    1 > 1 = false
    1L > -1 = true
    (byte)-1 > (char)65535 = false
    1 >= 1 = true
    0 >= 1 = false
    -9223372036854775808L >= -9223372036854775808L = true
    1 == 1 = true
    1 == 2 = false
    1 == 1L = true
    (char)97 == 97 = true
    (byte)-1 == (char)65535 = false
    (byte)-1 == -1L = true
    true == true = true
    true == false = false
    false == false = true
    "ab" == "ab" = true
    "ab" == "ac" = false
    "ab" == "a" = false
    "" == "" = true
    1 != 2 = true
    1L != 1 = false
    true != false = true
    "a" != "a" = false
    "a" != "b" = true
    true < false = NotConst
    "a" < "b" = NotConst
    1 == true = NotConst
    "1" == 1 = NotConst
    true != "true" = NotConst
    1 >= "1" = NotConst
    false <= 1 = NotConst
"#;

const BITS_AND_LOGIC: &str = r#"
    12 & 10 = 8
    -1 & 255 = 255
    -2 & -3 = -4
    -2147483648 & -1 = -2147483648
    -1L & 4294967295L = 4294967295L
    -1 & 4294967296L = 4294967296L
    (byte)-1 & 255 = 255
    (byte)-1 & (char)65535 = 65535
    12 ^ 10 = 6
    -1 ^ 0 = -1
    -1 ^ -1 = 0
    -1 ^ 2147483647 = -2147483648
    -1L ^ 1 = -2L
    -1 ^ 1L = -2L
    (char)65535 ^ (char)1 = 65534
    12 | 10 = 14
    -2147483648 | 1 = -2147483647
    -4 | 3 = -1
    -9223372036854775808L | 1 = -9223372036854775807L
    (short)-32768 | (byte)1 = -32767
    true & true = true
    true & false = false
    false & true = false
    false & false = false
    true ^ true = false
    true ^ false = true
    false ^ true = true
    false ^ false = false
    true | true = true
    true | false = true
    false | true = true
    false | false = false
    true && true = true
    true && false = false
    false && true = false
    false && false = false
    true || true = true
    true || false = true
    false || true = true
    false || false = false
    true & 1 = NotConst
    1 | false = NotConst
    "a" ^ "a" = NotConst
    1 && 1 = NotConst
    true && 1 = NotConst
    "a" || true = NotConst
    false && NotConst = NotConst
    true || Unsupported = Unsupported
    true || Range = Range
    TooLong && false = TooLong
    1L && true = NotConst
"#;

/// Sums with a text on one side.
const SUMS: &str = r#"
    "a" + "b" = "ab"
    "" + "" = ""
    "" + 0 = "0"
    "" + -1 = "-1"
    "" + 2147483647 = "2147483647"
    "" + -2147483648 = "-2147483648"
    "" + 9223372036854775807L = "9223372036854775807"
    "" + -9223372036854775808L = "-9223372036854775808"
    "" + 0L = "0"
    "" + -128 = "-128"
    "" + (byte)-128 = "-128"
    "" + (byte)127 = "127"
    "" + (short)-32768 = "-32768"
    "" + (short)100 = "100"
    "" + (char)97 = "a"
    "x" + (char)33 = "x!"
    "" + true = "true"
    "" + false = "false"
    1 + "a" = "1a"
    -5L + "a" = "-5a"
    (char)97 + "b" = "ab"
    (byte)7 + "" = "7"
    (short)-7 + "" = "-7"
    true + "" = "true"
    false + "!" = "false!"
    "ab3" + true = "ab3true"
    "a" + NotConst = NotConst
    Range + "a" = Range
    "1" + 1 = "11"
    "10" + -0 = "100"
"#;

/// Reasons: the first in the order NotConst, Range, TooLong, Unsupported, before the operands'
/// types.
const REASONS: &str = r#"
    NotConst + 1 = NotConst
    1 + NotConst = NotConst
    Range + NotConst = NotConst
    NotConst + Range = NotConst
    Range * TooLong = Range
    TooLong * Range = Range
    Unsupported - TooLong = TooLong
    TooLong - Unsupported = TooLong
    Unsupported / NotConst = NotConst
    Range % Unsupported = Range
    Unsupported == Unsupported = Unsupported
    TooLong == TooLong = TooLong
    1 / Unsupported = Unsupported
    Unsupported / 0 = Unsupported
    true + Unsupported = Unsupported
    "a" + Unsupported = Unsupported
    "a" * Range = Range
    TooLong + "" = TooLong
"#;

/// The operator, the operand, `=`, and the outcome.
const UNARY: &str = r#"
    + 5 = 5
    + (byte)-5 = -5
    + (char)97 = 97
    + -9223372036854775808L = -9223372036854775808L
    - 5 = -5
    - 0 = 0
    - -2147483648 = -2147483648
    - 2147483647 = -2147483647
    - -9223372036854775808L = -9223372036854775808L
    - 9223372036854775807L = -9223372036854775807L
    - (byte)-128 = 128
    - (short)-32768 = 32768
    - (char)65535 = -65535
    ~ 0 = -1
    ~ -1 = 0
    ~ 2147483647 = -2147483648
    ~ -2147483648 = 2147483647
    ~ 0L = -1L
    ~ 9223372036854775807L = -9223372036854775808L
    ~ (byte)127 = -128
    ~ (char)0 = -1
    ! true = false
    ! false = true
    ! 0 = NotConst
    ! "true" = NotConst
    - true = NotConst
    + "1" = NotConst
    ~ false = NotConst
    - NotConst = NotConst
    ~ Range = Range
    ! TooLong = TooLong
    + Unsupported = Unsupported
"#;

/// The test, `?`, two operands with `:` between them, `=`, and the outcome.
const CONDITIONAL: &str = r#"
    true ? 1 : 2 = 1
    false ? 1 : 2 = 2
    true ? (byte)1 : (byte)2 = (byte)1
    true ? (byte)1 : (short)2 = (short)1
    false ? (byte)1 : (short)2 = (short)2
    true ? (short)-1 : (byte)2 = (short)-1
    true ? (char)97 : (char)98 = (char)97
    true ? (byte)1 : 127 = (byte)1
    false ? (byte)1 : 127 = (byte)127
    true ? (byte)1 : 128 = 1
    false ? (byte)1 : 128 = 128
    false ? (byte)1 : -128 = (byte)-128
    true ? (byte)1 : -129 = 1
    true ? 127 : (byte)1 = (byte)127
    true ? 128 : (byte)1 = 128
    true ? (short)1 : 32767 = (short)1
    true ? (short)1 : 32768 = 1
    false ? -32768 : (short)1 = (short)1
    true ? -32769 : (short)1 = -32769
    true ? 98 : (char)97 = (char)98
    false ? 98 : (char)97 = (char)97
    true ? (char)97 : 65535 = (char)97
    true ? (char)97 : 65536 = 97
    true ? (char)97 : -1 = 97
    true ? 0 : (char)97 = (char)0
    true ? (byte)1 : (char)97 = 1
    true ? (char)97 : (byte)1 = 97
    true ? (short)1 : (char)97 = 1
    false ? (short)-1 : (char)97 = 97
    false ? 1L : 2 = 2L
    true ? 1 : 2L = 1L
    true ? (byte)1 : 2L = 1L
    true ? (char)97 : 2L = 97L
    true ? -2147483648 : 0L = -2147483648L
    true ? "a" : "b" = "a"
    false ? "a" : "b" = "b"
    true ? true : false = true
    false ? true : false = false
    true ? "a" : 1 = NotConst
    false ? 1 : true = NotConst
    true ? true : "a" = NotConst
    1 ? 1 : 2 = NotConst
    "true" ? 1 : 2 = NotConst
    true ? 1 : NotConst = NotConst
    false ? Range : 1 = Range
    TooLong ? Range : Unsupported = Range
    Unsupported ? TooLong : NotConst = NotConst
    1 ? "a" : Unsupported = Unsupported
"#;

fn binary_row<R: Abort + AllocGlobal>(rt: &R, row: &str) {
    let words = words(rt, row);
    let found = match words.as_slice() {
        [left, operator, right, _, expected] => {
            let operator = binary_operator(rt, operator);
            let left = outcome(rt, left);
            let found = binary(rt.alloc(), operator, left, outcome(rt, right));
            found.expect(rt, "memory") == outcome(rt, expected)
        }
        _ => false,
    };
    assert!(rt; found, "{row}");
}

fn unary_row<R: Abort + AllocGlobal>(rt: &R, row: &str) {
    let words = words(rt, row);
    let found = match words.as_slice() {
        [operator, operand, _, expected] => {
            unary(unary_operator(rt, operator), outcome(rt, operand)) == outcome(rt, expected)
        }
        _ => false,
    };
    assert!(rt; found, "{row}");
}

fn conditional_row<R: Abort + AllocGlobal>(rt: &R, row: &str) {
    let words = words(rt, row);
    let found = match words.as_slice() {
        [test, _, yes, _, no, _, expected] => {
            let yes = outcome(rt, yes);
            conditional(outcome(rt, test), yes, outcome(rt, no)) == outcome(rt, expected)
        }
        _ => false,
    };
    assert!(rt; found, "{row}");
}

fn binary_rows<R: Abort + AllocGlobal>(rt: &R, rows: &str) {
    for row in rows.trim().lines() {
        binary_row(rt, row);
    }
}

fn unary_rows<R: Abort + AllocGlobal>(rt: &R, rows: &str) {
    for row in rows.trim().lines() {
        unary_row(rt, row);
    }
}

fn conditional_rows<R: Abort + AllocGlobal>(rt: &R, rows: &str) {
    for row in rows.trim().lines() {
        conditional_row(rt, row);
    }
}

#[test]
fn arithmetic(rt: HostRuntime) {
    binary_rows(&rt, ARITHMETIC);
}

#[test]
fn shifts(rt: HostRuntime) {
    binary_rows(&rt, SHIFTS);
}

#[test]
fn comparisons(rt: HostRuntime) {
    binary_rows(&rt, COMPARISONS);
}

#[test]
fn bits_and_logic(rt: HostRuntime) {
    binary_rows(&rt, BITS_AND_LOGIC);
}

#[test]
fn sums_with_texts(rt: HostRuntime) {
    binary_rows(&rt, SUMS);
}

#[test]
fn reasons(rt: HostRuntime) {
    binary_rows(&rt, REASONS);
}

#[test]
fn unary_operators(rt: HostRuntime) {
    unary_rows(&rt, UNARY);
}

#[test]
fn conditional_operator(rt: HostRuntime) {
    conditional_rows(&rt, CONDITIONAL);
}
