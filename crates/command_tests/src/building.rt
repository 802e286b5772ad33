//! Values from which the examples are built. Where memory is wanting, the test ends.
use hdr_core::HeldFile;
use std::alloc::Global;
use std::process::Abort;

/// The words of a line, which stand between spaces.
pub fn words(rt: &impl Abort, alloc: Global, line: &str) -> Vec<String> {
    let mut words = Vec::new(alloc);
    for word in line.split_terminator(' ') {
        let word = String::from_str(alloc, word).expect(rt, "memory");
        words.push(word).expect(rt, "memory");
    }
    words
}

pub fn append(rt: &impl Abort, bytes: &mut Vec<u8>, more: &[u8]) {
    bytes.extend_from_slice(more).expect(rt, "memory");
}

/// A text of the pool, at most 255 bytes long.
fn append_text(rt: &impl Abort, bytes: &mut Vec<u8>, text: &str) {
    append(rt, bytes, b"\x01\0");
    append(rt, bytes, &[u8::try_from(text.len()).unwrap_or(0)]);
    append(rt, bytes, text.as_bytes());
}

/// The public class of a name, of the superclass java/lang/Object: with its texts behind the
/// classes that name them, or, as the product writes it, in front of these.
pub fn class_file(rt: &impl Abort, alloc: Global, name: &str, written: bool) -> Vec<u8> {
    let mut bytes = Vec::new(alloc);
    append(rt, &mut bytes, b"\xca\xfe\xba\xbe\0\0\0\x3d\0\x05");
    if written {
        append_text(rt, &mut bytes, name);
        append(rt, &mut bytes, b"\x07\0\x01");
        append_text(rt, &mut bytes, "java/lang/Object");
        append(rt, &mut bytes, b"\x07\0\x03\0\x21\0\x02\0\x04");
    } else {
        append(rt, &mut bytes, b"\x07\0\x02");
        append_text(rt, &mut bytes, name);
        append(rt, &mut bytes, b"\x07\0\x04");
        append_text(rt, &mut bytes, "java/lang/Object");
        append(rt, &mut bytes, b"\0\x21\0\x01\0\x03");
    }
    append(rt, &mut bytes, b"\0\0\0\0\0\0\0\0");
    bytes
}

/// A file of this path that holds the class of a name, or nothing where the name is empty.
pub fn held_class(rt: &impl Abort, alloc: Global, path: &str, name: &str) -> HeldFile {
    let bytes = if name.is_empty() {
        Vec::new(alloc)
    } else {
        class_file(rt, alloc, name, false)
    };
    HeldFile {
        path: String::from_str(alloc, path).expect(rt, "memory"),
        bytes,
    }
}
