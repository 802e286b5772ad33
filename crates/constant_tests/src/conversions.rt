//! Casts (JLS 5.5) and fields' types (JLS 5.2).
use crate::words::{constant_type, outcome, primitive, words};
use const_values::{cast, converted};
use std::process::Abort;

/// A type, an operand, `=`, and the outcome of the cast.
const CASTS: &str = r#"
    byte 200 = (byte)-56
    byte 127 = (byte)127
    byte 128 = (byte)-128
    byte -128 = (byte)-128
    byte -129 = (byte)127
    byte 256 = (byte)0
    byte (char)65535 = (byte)-1
    byte (char)233 = (byte)-23
    byte 9223372036854775807L = (byte)-1
    byte -9223372036854775808L = (byte)0
    short 98304 = (short)-32768
    short 32767 = (short)32767
    short 32768 = (short)-32768
    short -32769 = (short)32767
    short (char)65535 = (short)-1
    short (byte)-1 = (short)-1
    short 4294967295L = (short)-1
    char -1 = (char)65535
    char (byte)-1 = (char)65535
    char (short)-32768 = (char)32768
    char 65536 = (char)0
    char 97 = (char)97
    char -9223372036854775808L = (char)0
    char 9223372036854775807L = (char)65535
    int 4294967296L = 0
    int 4294967295L = -1
    int 2147483648L = -2147483648
    int -2147483649L = 2147483647
    int -9223372036854775808L = 0
    int (char)65535 = 65535
    int (byte)-128 = -128
    long -1 = -1L
    long (char)65535 = 65535L
    long -2147483648 = -2147483648L
    long 5L = 5L
    boolean true = true
    boolean false = false
    boolean 1 = NotConst
    boolean "true" = NotConst
    int true = NotConst
    int "1" = NotConst
    float 1 = Unsupported
    double (char)97 = Unsupported
    double true = NotConst
    float "1" = NotConst
    int Range = Range
    double TooLong = TooLong
"#;

/// A field's type, the outcome of its initialiser, `=`, and what the field holds; `none` where the
/// constant doesn't fit.
const FIELDS: &str = r#"
    byte -128 = (byte)-128
    byte -129 = none
    byte 127 = (byte)127
    byte 128 = none
    byte (byte)5 = (byte)5
    byte (short)5 = (byte)5
    byte (short)128 = none
    byte (char)127 = (byte)127
    byte (char)128 = none
    byte 1L = none
    byte true = none
    short -32768 = (short)-32768
    short -32769 = none
    short 32767 = (short)32767
    short 32768 = none
    short (byte)-1 = (short)-1
    short (char)32767 = (short)32767
    short (char)32768 = none
    short 1L = none
    char 0 = (char)0
    char -1 = none
    char 65535 = (char)65535
    char 65536 = none
    char (byte)97 = (char)97
    char (byte)-1 = none
    char (short)-1 = none
    char (char)97 = (char)97
    char 97L = none
    int (char)97 = 97
    int (byte)-1 = -1
    int -2147483648 = -2147483648
    int 1L = none
    int true = none
    int "1" = none
    long 1 = 1L
    long (char)65535 = 65535L
    long (byte)-1 = -1L
    long -9223372036854775808L = -9223372036854775808L
    long "1" = none
    boolean true = true
    boolean 1 = none
    boolean "true" = none
    double 1 = Unsupported
    float 1L = Unsupported
    double NotConst = NotConst
    float Range = Range
    byte Unsupported = Unsupported
    byte TooLong = TooLong
    String "a" = "a"
    String "" = ""
    String (char)97 = none
    String 1 = none
    String true = none
    String TooLong = TooLong
"#;

fn cast_row<R: Abort + AllocGlobal>(rt: &R, row: &str) {
    let words = words(rt, row);
    let found = match words.as_slice() {
        [ty, operand, _, expected] => {
            cast(primitive(rt, ty), outcome(rt, operand)) == outcome(rt, expected)
        }
        _ => false,
    };
    assert!(rt; found, "{row}");
}

fn field_row<R: Abort + AllocGlobal>(rt: &R, row: &str) {
    let words = words(rt, row);
    let found = match words.as_slice() {
        [ty, initialiser, _, expected] => {
            match converted(outcome(rt, initialiser), constant_type(rt, ty)) {
                Some(found) => found == outcome(rt, expected),
                None => expected.as_bytes() == b"none".as_slice(),
            }
        }
        _ => false,
    };
    assert!(rt; found, "{row}");
}

fn cast_rows<R: Abort + AllocGlobal>(rt: &R, rows: &str) {
    for row in rows.trim().lines() {
        cast_row(rt, row);
    }
}

fn field_rows<R: Abort + AllocGlobal>(rt: &R, rows: &str) {
    for row in rows.trim().lines() {
        field_row(rt, row);
    }
}

#[test]
fn casts(rt: HostRuntime) {
    cast_rows(&rt, CASTS);
}

#[test]
fn fields(rt: HostRuntime) {
    field_rows(&rt, FIELDS);
}
