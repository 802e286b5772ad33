//! Values from which the examples are built. Where memory is wanting, the test ends.
use hdr_core::Text;
use std::alloc::Global;
use std::process::Abort;
use std::{env, fs, io, process};

pub fn text(rt: &impl Abort, alloc: Global, bytes: &[u8]) -> Text {
    Text::of(alloc, bytes).expect(rt, "memory")
}

/// An empty folder of the test's own, by a name that no other test has.
pub fn make_folder(rt: &HostRuntime, name: &str) -> io::Result<String> {
    let above = env::temp_dir(rt)?;
    let number = process::id(rt.process());
    let folder = format!(in rt.alloc(); "{}/base_tests_{name}_{number}", above.as_str())?;
    fs::create_dir(rt, folder.as_str())?;
    Ok(folder)
}

pub fn below(rt: &impl Abort, alloc: Global, folder: &str, rest: &str) -> String {
    format!(in alloc; "{folder}/{rest}").expect(rt, "memory")
}
