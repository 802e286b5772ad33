ghost use Rattle.std.specs.Prelude.{◌≡◌, IsSome, codes, string_bytes};
ghost use Rattle.hdr_core.specs.Held.{held_at};
ghost use Rattle.hdr_core.specs.InMemory.{held_files};

use hdr_core::{CallErr, FileErr, Files, HeldFile, MemFiles, MemOuts, Outs, SureFiles, SureOuts};
use std::alloc::Global;
use std::process::Abort;

fn file(rt: &impl Abort, alloc: Global, path: &str, bytes: &[u8]) -> HeldFile
    ensures { string_bytes result.path ≡ path.now }
{
    HeldFile {
        path: String::from_str(alloc, path).expect(rt, "memory"),
        bytes: Vec::from_slice(alloc, bytes).expect(rt, "memory"),
    }
}

const FOUR: &[(&str, &[u8])] = &[("r/a", b"1"), ("r", b"2"), ("r.a", b"3"), ("r/a", b"4")];

fn four_files(rt: &impl Abort, alloc: Global) -> Vec<HeldFile> {
    let mut files = Vec::new(alloc);
    for &(path, bytes) in FOUR {
        let item = file(rt, alloc, path, bytes);
        files.push(item).expect(rt, "memory");
    }
    files
}

fn one_file(rt: &impl Abort, alloc: Global) -> Vec<HeldFile>
    ensures { IsSome (held_at (held_files result.items) (codes "r/a")) }
{
    let mut files = Vec::new(alloc);
    let item = file(rt, alloc, "r/a", b"1");
    files.push(item).expect(rt, "memory");
    files
}

#[test]
fn lists_each_path_under_a_root_once(rt: HostRuntime) {
    let mut files = SureFiles::of(four_files(&rt, rt.alloc()));
    for (root, count) in [("r", 2), ("r/a", 1), ("r/", 0), ("s", 0)] {
        let listed = files.list(rt.alloc(), root).expect(&rt, "memory");
        assert!(rt; listed.len() == count, "{root}");
    }
}

#[test]
fn reads_but_at_the_listed_call(rt: HostRuntime) {
    let failing = vec![in rt.alloc(); 1].expect(&rt, "memory");
    let mut files = MemFiles::of(one_file(&rt, rt.alloc()), failing);
    let mut bytes = Vec::new(rt.alloc());
    let listed = files.list(rt.alloc(), "r").expect(&rt, "a listing");
    assert!(rt; listed.len() == 1);
    assert!(rt; files.read("r/a", &mut bytes) == Err(FileErr::Failed));
    files.read("r/a", &mut bytes).expect(&rt, "a file");
    assert!(rt; bytes.as_slice() == b"1".as_slice());
    assert!(rt; files.calls().made() == 3);
}

#[test]
fn puts_but_at_the_listed_call(rt: HostRuntime) {
    let failing = vec![in rt.alloc(); 0].expect(&rt, "memory");
    let mut outs = MemOuts::of(rt.alloc(), failing);
    assert!(rt; outs.put("o/a", b"1") == Err(CallErr::Failed));
    outs.put("o/b", b"2").expect(&rt, "a file");
    let [file] = outs.written() else {
        panic!(rt; "other than one file was written")
    };
    assert!(rt; file.path.as_str() == "o/b");
    assert!(rt; file.bytes.as_slice() == b"2".as_slice());
}

#[test]
fn puts_for_sure(rt: HostRuntime) {
    let mut outs = SureOuts::of(rt.alloc());
    outs.put("o/a", b"1").expect(&rt, "memory");
    assert!(rt; outs.written().len() == 1);
}
