//! The texts of errors.
use hdr_core::{CallErr, FileErr, Memory};
use std::error::Error;
use std::process::Abort;

fn check_text<R: Abort + AllocGlobal, E: Error>(rt: &R, error: &E, text: &str) {
    let told = format!(in rt.alloc(); "{error}").expect(rt, "memory");
    assert!(rt; told.as_str() == text);
}

#[test]
fn say_what_failed(rt: HostRuntime) {
    check_text(&rt, &Memory, "out of memory");
    check_text(&rt, &CallErr::Failed, "input or output failed");
    check_text(&rt, &CallErr::Memory, "out of memory");
    check_text(&rt, &FileErr::Failed, "input failed");
    check_text(&rt, &FileErr::Memory, "out of memory");
    check_text(&rt, &FileErr::TooLong, "file is longer than 16777216 bytes");
}
