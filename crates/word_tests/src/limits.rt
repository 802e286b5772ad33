//! Descriptors at their limits (JVMS 4.3.2, 4.3.3).
use crate::building::asked_of_value;
use std::alloc::Global;
use std::process::Abort;

/// An option, what stands before a piece, the piece, how often it stands there, what stands behind,
/// and whether that is a job.
type Row = (
    &'static str,
    &'static str,
    &'static str,
    u32,
    &'static str,
    bool,
);

const LIMITS: [Row; 12] = [
    ("--field", "A#x:", "[", 255, "I", true),
    ("--field", "A#x:", "[", 256, "I", false),
    ("--method", "A#m:(", "[", 255, "I)V", true),
    ("--method", "A#m:(", "[", 256, "I)V", false),
    ("--method", "A#m:()", "[", 256, "I", false),
    // slots, of which this has none here; a long and a double have two each
    ("--method", "A#m:(", "I", 255, ")V", true),
    ("--method", "A#m:(", "I", 256, ")V", false),
    ("--method", "A#m:(I", "J", 127, ")V", true),
    ("--method", "A#m:(", "D", 128, ")V", false),
    ("--imethod", "A#m:(", "LA;", 255, ")V", true),
    ("--annotations", "A#m:(", "I", 255, ")V", true),
    ("--annotations", "A#m:(", "I", 256, ")V", false),
];

fn repeated(rt: &impl Abort, alloc: Global, row: &Row) -> String {
    let (_, front, piece, times, end, _) = *row;
    let mut text = String::from_str(alloc, front).expect(rt, "memory");
    for _ in 0..times {
        text.push_str(piece).expect(rt, "memory");
    }
    text.push_str(end).expect(rt, "memory");
    text
}

#[test]
fn reads_long_descriptors(rt: HostRuntime) {
    for row in &LIMITS {
        let value = repeated(&rt, rt.alloc(), row);
        let found = asked_of_value(&rt, rt.alloc(), row.0, value.as_str());
        assert!(rt; found.is_empty() != row.5, "{} {}", row.0, value);
    }
}
