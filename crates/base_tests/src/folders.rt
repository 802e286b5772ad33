use crate::building::{below, make_folder};
use hdr_core::{CallErr, DirFiles, DirOuts, Files, Outs};
use std::os::unix::fs::symlink;
use std::process::Abort;
use std::{fs, rt};

const FILES: &[(&str, &[u8])] = &[("deep/er/b", b"beta"), ("a", b"alpha")];

fn put_files<R: Abort + rt::Files + AllocGlobal + Copy + Drop>(rt: &R, folder: &str) {
    let mut outs = DirOuts::of(*rt);
    for &(rest, bytes) in FILES {
        let path = below(rt, rt.alloc(), folder, rest);
        outs.put(path.as_str(), bytes).expect(rt, "a file");
    }
}

/// Links to a file, to a folder and in a ring, each with what it leads to.
const LINKS: &[(&str, &str)] = &[
    ("link", "a"),
    ("deep/up", ".."),
    ("ring", "gnir"),
    ("gnir", "ring"),
];

fn make_links<R: Abort + rt::Files + AllocGlobal>(rt: &R, folder: &str) {
    for &(rest, target) in LINKS {
        let path = below(rt, rt.alloc(), folder, rest);
        symlink(rt, target, path.as_str()).expect(rt, "a link");
    }
}

/// Roots of every kind.
const ROOTS: [&str; 6] = ["a", "link", "deep", "deep/up", "nothing", "a/below"];

/// How many files are listed below each root.
fn list_roots<R: Abort + rt::Files + AllocGlobal + Copy + Drop>(
    rt: &R,
    folder: &str,
) -> [usize; 6] {
    let mut files = DirFiles::of(*rt);
    let mut counts = [0; 6];
    for (count, rest) in counts.iter_mut().zip(ROOTS) {
        let root = below(rt, rt.alloc(), folder, rest);
        let listed = files.list(rt.alloc(), root.as_str());
        *count = listed.expect(rt, "a listing").len();
    }
    counts
}

/// The files below the folder, in their order, each with its bytes.
fn read_all<R: Abort + rt::Files + AllocGlobal + Copy + Drop>(rt: &R, folder: &str) -> String {
    let mut files = DirFiles::of(*rt);
    let mut paths = files.list(rt.alloc(), folder).expect(rt, "a listing");
    paths.sort_unstable();
    let mut told = String::new(rt.alloc());
    let mut bytes = Vec::new(rt.alloc());
    for path in &paths {
        files.read(path.as_str(), &mut bytes).expect(rt, "a file");
        let text = str::from_utf8(&bytes).expect(rt, "UTF-8");
        let rest = path.as_str().trim_start_matches(folder);
        told.push_str(rest).expect(rt, "memory");
        told.push_str(text).expect(rt, "memory");
    }
    told
}

#[test]
fn lists_and_reads_what_was_put(rt: HostRuntime) {
    let folder = make_folder(&rt, "listed").expect(&rt, "a folder");
    let folder = folder.as_str();
    put_files(&rt, folder);
    make_links(&rt, folder);
    let counts = list_roots(&rt, folder);
    let told = read_all(&rt, folder);
    let ring = below(&rt, rt.alloc(), folder, "ring");
    let in_a_ring = DirFiles::of(rt).list(rt.alloc(), ring.as_str());
    fs::remove_dir_all(&rt, folder).expect(&rt, "a folder removed");
    assert!(rt; counts == [1, 1, 1, 2, 0, 0]);
    assert!(rt; told.as_str() == "/aalpha/deep/er/bbeta");
    assert!(rt; in_a_ring.err() == Some(CallErr::Failed));
}
