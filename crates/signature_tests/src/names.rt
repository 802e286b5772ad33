//! Names and texts that are right in class files, and some that aren't (JVMS 4.2, 4.4.7).
use java_names::{is_class_name, is_field_name, is_method_name, is_modified_utf8};

/// Names, and whether each is one of a class, a field, a method.
const NAMES: [(&[u8], bool, bool, bool); 19] = [
    (b"", false, false, false),
    (b"A", true, true, true),
    (b"a1$_", true, true, true),
    (b"\xc3\xa9", true, true, true),
    (b" ", true, true, true),
    (b"java/lang/Object", true, false, false),
    (b"/a", false, false, false),
    (b"a/", false, false, false),
    (b"a//b", false, false, false),
    (b"/", false, false, false),
    (b"a.b", false, false, false),
    (b"a;", false, false, false),
    (b"[I", false, false, false),
    (b"a:b", true, true, true),
    (b"<init>", true, true, true),
    (b"<clinit>", true, true, true),
    (b"<a>", true, true, false),
    (b"a>", true, true, false),
    (b"<init>x", true, true, false),
];

#[test]
fn tells_names(rt: HostRuntime) {
    for (name, class, field, method) in &NAMES {
        assert!(rt; is_class_name(name) == *class, "class {name:?}");
        assert!(rt; is_field_name(name) == *field, "field {name:?}");
        assert!(rt; is_method_name(name) == *method, "method {name:?}");
    }
}

/// Bytes, and whether they are modified UTF-8.
const ENCODINGS: [(&[u8], bool); 36] = [
    (b"", true),
    (b"A\x01\x7f", true),
    (b"\0", false),
    (b"a\0", false),
    (b"\xc0\x80", true),
    (b"\xc0\x81", false),
    (b"\xc0\xbf", false),
    (b"\xc0", false),
    (b"\xc1\x80", false),
    (b"\xc1\xbf", false),
    (b"\xc2\x80", true),
    (b"\xc2\x7f", false),
    (b"\xc2\xc0", false),
    (b"\xc3\xa9", true),
    (b"\xdf\xbf", true),
    (b"\xdf", false),
    (b"\x80", false),
    (b"\xbf", false),
    (b"\xe0\x80\x80", false),
    (b"\xe0\x9f\xbf", false),
    (b"\xe0\xa0\x80", true),
    (b"\xe0\xa0", false),
    (b"\xe2\x82\xac", true),
    (b"\xe2\x82\xc0", false),
    (b"\xe2\x02\xac", false),
    (b"\xed\x9f\xbf", true),
    // a surrogate of each kind, paired, in the wrong order and alone
    (b"\xed\xa0\xbd\xed\xb8\x80", true),
    (b"\xed\xb8\x80\xed\xa0\xbd", true),
    (b"\xed\xa0\x80", true),
    (b"\xed\xbf\xbf", true),
    (b"\xef\xbf\xbf", true),
    (b"\xef\xbf", false),
    (b"\xf0\x9f\x98\x80", false),
    (b"\xff", false),
    (b"\xc3\xa9\xe2\x82\xaca\xc0\x80", true),
    (b"\xc3\xa9\xe2\x82a", false),
];

#[test]
fn tells_modified_utf8(rt: HostRuntime) {
    for (bytes, want) in &ENCODINGS {
        assert!(rt; is_modified_utf8(bytes) == *want, "{bytes:?}");
    }
}
