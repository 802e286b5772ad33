//! Words with an archive.
use crate::building::{Row, check_jobs};

/// The first of them is told, wherever it stands, and whatever the others ask for.
const ARCHIVES: [Row; 16] = [
    ("ijar --input in --output a.jar b.zip", b"archive a.jar"),
    ("lib.jmod", b"archive lib.jmod"),
    ("a.jar/ .zip ijar", b"archive .zip"),
    (
        "ijar --input a --input b.jar --output out",
        b"archive b.jar",
    ),
    // as a root, as the client, as the value of a question
    ("ask --classes lib.jar --type A", b"archive lib.jar"),
    ("ask --classes c --from p.zip --type A", b"archive p.zip"),
    ("ask --classes c --under A.jmod --type A", b"archive A.jmod"),
    ("ask --classes c --type A.jar", b"archive A.jar"),
    ("ask --classes c --constant A#x.zip", b"archive A#x.zip"),
    // as the number of workers, as an option, as the command, behind all
    ("ask --classes c --type A --workers 4.jar", b"archive 4.jar"),
    ("ask --classes c --x.jmod A", b"archive --x.jmod"),
    ("ask.zip --classes c --type A", b"archive ask.zip"),
    ("ask --classes c --type A a.jar", b"archive a.jar"),
    ("ask --classes b.zip --type a.jar", b"archive b.zip"),
    // another ending
    (
        "ask --classes a.JAR --type A",
        b"a.JAR from  under -, A type A",
    ),
    (
        "ask --classes a.jar/c --type A",
        b"a.jar/c from  under -, A type A",
    ),
];

#[test]
fn tells_the_first_archive(rt: HostRuntime) {
    check_jobs(&rt, rt.alloc(), &ARCHIVES);
}
