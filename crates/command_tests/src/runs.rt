//! Words and files, and what comes of them.
use crate::building::append;
use crate::running::{Ran, run_sure, words_of};
use commands::Status;
use hdr_core::HeldFile;
use std::alloc::Global;
use std::process::Abort;
use std::thread::Threads;

/// The public class A of the superclass java/lang/Object, its texts behind the classes that name
/// them.
const PLAIN: &[u8] = b"\xca\xfe\xba\xbe\0\0\0\x3d\0\x05\
    \x07\0\x02\x01\0\x01A\x07\0\x04\x01\0\x10java/lang/Object\
    \0\x21\0\x01\0\x03\0\0\0\0\0\0\0\0";

/// The same as the product writes it.
const PLAIN_STRIPPED: &[u8] = b"\xca\xfe\xba\xbe\0\0\0\x3d\0\x05\
    \x01\0\x01A\x07\0\x01\x01\0\x10java/lang/Object\x07\0\x03\
    \0\x21\0\x02\0\x04\0\0\0\0\0\0\0\0";

/// A with a private field, a private method, a class initialiser and a public method, each method
/// with its code.
const MEMBERS: &[u8] = b"\xca\xfe\xba\xbe\0\0\0\x3d\0\x0c\
    \x07\0\x02\x01\0\x01A\x07\0\x04\x01\0\x10java/lang/Object\x01\0\x01f\x01\0\x01I\x01\0\x01p\
    \x01\0\x03()V\x01\0\x04Code\x01\0\x08<clinit>\x01\0\x01m\
    \0\x21\0\x01\0\x03\0\0\
    \0\x01\0\x02\0\x05\0\x06\0\0\
    \0\x03\
    \0\x02\0\x07\0\x08\0\x01\0\x09\0\0\0\x0d\0\0\0\x01\0\0\0\x01\xb1\0\0\0\0\
    \0\x08\0\x0a\0\x08\0\x01\0\x09\0\0\0\x0d\0\0\0\0\0\0\0\x01\xb1\0\0\0\0\
    \0\x01\0\x0b\0\x08\0\x01\0\x09\0\0\0\x0d\0\0\0\x01\0\0\0\x01\xb1\0\0\0\0\
    \0\0";

/// The public method alone.
const MEMBERS_STRIPPED: &[u8] = b"\xca\xfe\xba\xbe\0\0\0\x3d\0\x07\
    \x01\0\x01A\x07\0\x01\x01\0\x10java/lang/Object\x07\0\x03\x01\0\x01m\x01\0\x03()V\
    \0\x21\0\x02\0\x04\0\0\0\0\0\x01\0\x01\0\x05\0\x06\0\0\0\0";

/// A of the superclass B and the superinterfaces P and Q, with the fields f and g.
const WIDE: &[u8] = b"\xca\xfe\xba\xbe\0\0\0\x3d\0\x0d\
    \x07\0\x02\x01\0\x01A\x07\0\x04\x01\0\x01B\x07\0\x06\x01\0\x01P\x07\0\x08\x01\0\x01Q\
    \x01\0\x01f\x01\0\x01I\x01\0\x01g\x01\0\x01J\
    \0\x21\0\x01\0\x03\0\x02\0\x05\0\x07\
    \0\x02\0\x01\0\x09\0\x0a\0\0\0\x04\0\x0b\0\x0c\0\0\
    \0\0\0\0";

/// The same, each text in front of what first names it.
const WIDE_STRIPPED: &[u8] = b"\xca\xfe\xba\xbe\0\0\0\x3d\0\x0d\
    \x01\0\x01A\x07\0\x01\x01\0\x01B\x07\0\x03\x01\0\x01P\x07\0\x05\x01\0\x01Q\x07\0\x07\
    \x01\0\x01f\x01\0\x01I\x01\0\x01g\x01\0\x01J\
    \0\x21\0\x02\0\x04\0\x02\0\x06\0\x08\
    \0\x02\0\x01\0\x09\0\x0a\0\0\0\x04\0\x0b\0\x0c\0\0\
    \0\0\0\0";

/// The words of a job.
const JOB: &[&str] = &["ijar", "--input", "in", "--output", "out"];

/// Files of these paths and bytes.
fn held(rt: &impl Abort, alloc: Global, paths: &[&str], bytes: &[u8]) -> Vec<HeldFile> {
    let mut files = Vec::new(alloc);
    for path in paths {
        let file = HeldFile {
            path: String::from_str(alloc, path).expect(rt, "memory"),
            bytes: Vec::from_slice(alloc, bytes).expect(rt, "memory"),
        };
        files.push(file).expect(rt, "memory");
    }
    files
}

/// Runs these words on one file.
fn run_on<R: Abort + Threads + Sync>(
    rt: &R,
    alloc: Global,
    words: &[&str],
    path: &str,
    bytes: &[u8],
) -> Ran {
    let words = words_of(rt, alloc, words);
    run_sure(rt, alloc, &words, held(rt, alloc, &[path], bytes))
}

/// The one file that was written is that of this path and these bytes, and nothing was told.
fn check_done<R: Abort>(rt: &R, ran: &Ran, path: &str, stripped: &[u8]) {
    assert!(rt; ran.status == Status::Done);
    let [file] = ran.outs.written() else {
        panic!(rt; "other than one file was written")
    };
    assert!(rt; file.path.as_str() == path);
    assert!(rt; file.bytes.as_slice() == stripped);
    assert!(rt; ran.err.told().is_empty());
}

/// The text was told under its status, and nothing was written.
fn check_told<R: Abort>(rt: &R, ran: &Ran, status: Status, told: &str) {
    assert!(rt; ran.status == status);
    assert!(rt; ran.err.told() == told.as_bytes());
    assert!(rt; ran.outs.written().is_empty());
}

#[test]
fn strips_class_files(rt: HostRuntime) {
    let rows = [
        (PLAIN, PLAIN_STRIPPED),
        (PLAIN_STRIPPED, PLAIN_STRIPPED),
        (MEMBERS, MEMBERS_STRIPPED),
        (WIDE, WIDE_STRIPPED),
    ];
    for (bytes, stripped) in rows {
        let ran = run_on(&rt, rt.alloc(), JOB, "in/A.class", bytes);
        check_done(&rt, &ran, "out/A.class", stripped);
    }
}

/// A class of this name as the product writes it.
fn class_named<R: Abort + AllocGlobal>(rt: &R, name: &[u8]) -> Vec<u8> {
    let length = [0, (name.len() % 256) as u8];
    let mut file = Vec::new(rt.alloc());
    for part in [
        b"\xca\xfe\xba\xbe\0\0\0\x3d\0\x05\x01".as_slice(),
        &length,
        name,
        b"\x07\0\x01\x01\0\x10java/lang/Object\x07\0\x03",
        b"\0\x21\0\x02\0\x04\0\0\0\0\0\0\0\0",
    ] {
        file.extend_from_slice(part).expect(rt, "memory");
    }
    file
}

/// Names are modified UTF-8, paths UTF-8: a character above U+FFFF has two units in a name.
#[test]
fn writes_classes_under_the_paths_of_their_names(rt: HostRuntime) {
    let rows: [(&[u8], &str); 4] = [
        (b"p/q/A", "out/p/q/A.class"),
        (b"\xc3\xa9", "out/\u{e9}.class"),
        (b"\xed\xa0\xb5\xed\xb5\x8f", "out/\u{1d54f}.class"),
        (b"a b<", "out/a b<.class"),
    ];
    for (name, path) in rows {
        let class = class_named(&rt, name);
        let ran = run_on(&rt, rt.alloc(), JOB, "in/A.class", &class);
        check_done(&rt, &ran, path, &class);
    }
}

#[test]
fn tells_names_that_are_those_of_no_file(rt: HostRuntime) {
    let class = class_named(&rt, b"\xed\xa0\xb5");
    let ran = run_on(&rt, rt.alloc(), JOB, "in/A.class", &class);
    assert!(rt; ran.status == Status::Diagnosed);
    let told = b"in/A.class:0: L6 class name is no file name: \xed\xa0\xb5\n";
    assert!(rt; ran.err.told() == told.as_slice());
    assert!(rt; ran.outs.written().is_empty());
}

#[test]
fn tells_words_that_are_no_job(rt: HostRuntime) {
    let usage = "usage: jheader turbine|ijar|ask options\n";
    let rows: [(&[&str], &str); 3] = [
        (&[], usage),
        (&["ijar", "--input", "in"], usage),
        (
            &["ijar", "--output", "out", "--input", "lib.jar"],
            "archives are not read: lib.jar\n",
        ),
    ];
    for (words, told) in rows {
        let ran = run_on(&rt, rt.alloc(), words, "in/A.class", PLAIN);
        check_told(&rt, &ran, Status::Usage, told);
    }
}

/// Fronts of a class file are told at the item that isn't whole.
#[test]
fn tells_fronts_of_class_files(rt: HostRuntime) {
    let rows = [
        (0, "in/A.class:0: F1 class file is cut short\n"),
        (3, "in/A.class:0: F1 class file is cut short\n"),
        (4, "in/A.class:4: F1 class file is cut short\n"),
        (5, "in/A.class:4: F1 class file is cut short\n"),
        (30, "in/A.class:23: F1 class file is cut short\n"),
        (40, "in/A.class:39: F1 class file is cut short\n"),
        (52, "in/A.class:51: F1 class file is cut short\n"),
    ];
    for (length, told) in rows {
        let ran = run_on(&rt, rt.alloc(), JOB, "in/A.class", &PLAIN[..length]);
        check_told(&rt, &ran, Status::Diagnosed, told);
    }
}

/// One byte of a class is another one: what fails first is told, at its item.
#[test]
fn tells_the_first_check_that_fails(rt: HostRuntime) {
    let rows = [
        (0, 0xcb, "in/A.class:0: F2 not a class file\n"),
        (7, 0x3e, "in/A.class:6: F3 unsupported version\n"),
        (10, 0x02, "in/A.class:10: F4 unknown pool tag\n"),
        (42, 0x02, "in/A.class:41: F5 wrong pool entry\n"),
        (16, 0x00, "in/A.class:41: F6 malformed text\n"),
        (
            16,
            0x3b,
            "in/A.class:41: F7 malformed name, descriptor, signature or value tag\n",
        ),
        (
            39,
            0x80,
            "in/A.class:39: F11 wrong superclass or module flag\n",
        ),
    ];
    for (at, byte, told) in rows {
        let mut bytes = Vec::from_slice(rt.alloc(), PLAIN).expect(&rt, "memory");
        bytes[at] = byte;
        let ran = run_on(&rt, rt.alloc(), JOB, "in/A.class", &bytes);
        check_told(&rt, &ran, Status::Diagnosed, told);
    }
}

/// A class with zeros behind it is no class, up to the length at which it isn't read any more.
#[test]
fn tells_files_that_are_too_long(rt: HostRuntime) {
    let rows = [
        (PLAIN.len() + 1, "in/A.class:53: F10 bytes after the end\n"),
        (16_777_216, "in/A.class:53: F10 bytes after the end\n"),
        (
            16_777_217,
            "in/A.class:0: L1 file is longer than 16777216 bytes\n",
        ),
    ];
    for (length, told) in rows {
        let mut bytes = Vec::from_slice(rt.alloc(), PLAIN).expect(&rt, "memory");
        bytes.resize(length, 0).expect(&rt, "memory");
        let ran = run_on(&rt, rt.alloc(), JOB, "in/A.class", &bytes);
        check_told(&rt, &ran, Status::Diagnosed, told);
    }
}

/// The class A, which names one class of 65,535 letters as often as that as a superinterface.
fn naming(rt: &impl Abort, alloc: Global, times: u16) -> Vec<u8> {
    let mut bytes = Vec::from_slice(alloc, &PLAIN[..8]).expect(rt, "memory");
    let parts: [(&[u8], usize); 8] = [
        (b"\0\x07", 1),
        (&PLAIN[10..39], 1),
        (b"\x01\xff\xff", 1),
        (b"x", 65_535),
        (b"\x07\0\x05\0\x21\0\x01\0\x03", 1),
        (&times.to_be_bytes(), 1),
        (b"\0\x06", usize::from(times)),
        (b"\0", 6),
    ];
    for (part, count) in parts {
        for _ in 0..count {
            append(rt, &mut bytes, part);
        }
    }
    bytes
}

/// As many namings of a long text as there is room for, and one more.
#[test]
fn tells_too_much_text(rt: HostRuntime) {
    let ran = run_on(
        &rt,
        rt.alloc(),
        JOB,
        "in/A.class",
        &naming(&rt, rt.alloc(), 1_024),
    );
    assert!(rt; ran.status == Status::Done);
    let ran = run_on(
        &rt,
        rt.alloc(),
        JOB,
        "in/A.class",
        &naming(&rt, rt.alloc(), 1_025),
    );
    let told = "in/A.class:67636: F13 too much text\n";
    check_told(&rt, &ran, Status::Diagnosed, told);
}
