//! Files that are put into a real folder, and read back.
use crate::building::{below, make_folder};
use hdr_core::{CallErr, DirFiles, DirOuts, FileErr, Files, LONGEST_FILE, Outs};
use std::alloc::Global;
use std::fs::{self, File};
use std::os::unix::fs::symlink;
use std::process::Abort;
use std::rt;
use std::time::SystemTime;

/// Bytes of every kind, so many that they are read in several pieces.
const MANY: usize = 200_000;

fn many_bytes(rt: &impl Abort, alloc: Global) -> Vec<u8> {
    let mut bytes = Vec::new(alloc);
    for at in 0..MANY {
        bytes.push((at % 251) as u8).expect(rt, "memory");
    }
    bytes
}

#[test]
fn reads_back_many_bytes(rt: HostRuntime) {
    let folder = make_folder(&rt, "many").expect(&rt, "a folder");
    let path = below(&rt, rt.alloc(), folder.as_str(), "a");
    let bytes = many_bytes(&rt, rt.alloc());
    let put = DirOuts::of(rt).put(path.as_str(), &bytes);
    let mut back = Vec::new(rt.alloc());
    let read = DirFiles::of(rt).read(path.as_str(), &mut back);
    fs::remove_dir_all(&rt, folder.as_str()).expect(&rt, "a folder removed");
    put.expect(&rt, "a file put");
    read.expect(&rt, "a file read");
    assert!(rt; back.as_slice() == bytes.as_slice());
}

#[test]
fn keeps_the_time_of_a_file_that_does_not_change(rt: HostRuntime) {
    let folder = make_folder(&rt, "time").expect(&rt, "a folder");
    let path = below(&rt, rt.alloc(), folder.as_str(), "deep/a");
    let path = path.as_str();
    let mut outs = DirOuts::of(rt);
    outs.put(path, b"one").expect(&rt, "a file put");
    let file = File::options().write(true).open(&rt, path);
    let aged = file
        .expect(&rt, "a file")
        .set_modified(SystemTime::UNIX_EPOCH);
    aged.expect(&rt, "a time");
    let mut kept = [false; 3];
    for (kept, bytes) in kept.iter_mut().zip([b"one".as_slice(), b"two", b"three"]) {
        outs.put(path, bytes).expect(&rt, "a file put");
        let about = fs::metadata(&rt, path).expect(&rt, "a file");
        *kept = about.modified().expect(&rt, "a time") == SystemTime::UNIX_EPOCH;
    }
    fs::remove_dir_all(&rt, folder.as_str()).expect(&rt, "a folder removed");
    assert!(rt; kept == [true, false, false]);
}

#[test]
fn refuses_a_file_that_is_too_long(rt: HostRuntime) {
    let folder = make_folder(&rt, "long").expect(&rt, "a folder");
    let path = below(&rt, rt.alloc(), folder.as_str(), "a");
    let file = File::create(&rt, path.as_str()).expect(&rt, "a file");
    let mut files = DirFiles::of(rt);
    let mut bytes = Vec::new(rt.alloc());
    let mut answers = [Ok(()); 2];
    for (answer, length) in answers.iter_mut().zip([LONGEST_FILE, LONGEST_FILE + 1]) {
        file.set_len(length as u64).expect(&rt, "a length");
        *answer = files.read(path.as_str(), &mut bytes);
    }
    fs::remove_dir_all(&rt, folder.as_str()).expect(&rt, "a folder removed");
    assert!(rt; answers == [Ok(()), Err(FileErr::TooLong)]);
}

/// What is read at a path.
fn text_at<R: Abort + rt::Files + AllocGlobal>(rt: &R, path: &str) -> String {
    fs::read_to_string(rt, path).expect(rt, "a file")
}

#[test]
fn replaces_a_link_and_leaves_what_it_leads_to(rt: HostRuntime) {
    let folder = make_folder(&rt, "link").expect(&rt, "a folder");
    let target = below(&rt, rt.alloc(), folder.as_str(), "a");
    let link = below(&rt, rt.alloc(), folder.as_str(), "b");
    let (target, link) = (target.as_str(), link.as_str());
    let mut outs = DirOuts::of(rt);
    outs.put(target, b"one").expect(&rt, "a file put");
    symlink(&rt, "a", link).expect(&rt, "a link");
    outs.put(link, b"two").expect(&rt, "a file put");
    let about = fs::symlink_metadata(&rt, link).expect(&rt, "a file");
    let texts = [text_at(&rt, target), text_at(&rt, link)];
    fs::remove_dir_all(&rt, folder.as_str()).expect(&rt, "a folder removed");
    assert!(rt; about.is_file());
    let [old, new] = &texts;
    assert!(rt; old.as_str() == "one");
    assert!(rt; new.as_str() == "two");
}

#[test]
fn refuses_a_path_of_a_folder(rt: HostRuntime) {
    let folder = make_folder(&rt, "folder").expect(&rt, "a folder");
    let put = DirOuts::of(rt).put(folder.as_str(), b"one");
    let left = fs::symlink_metadata(&rt, folder.as_str());
    fs::remove_dir_all(&rt, folder.as_str()).expect(&rt, "a folder removed");
    assert!(rt; put == Err(CallErr::Failed));
    assert!(rt; left.expect(&rt, "a folder").is_dir());
}

#[test]
fn leaves_what_another_run_left_beside_the_place(rt: HostRuntime) {
    let folder = make_folder(&rt, "part").expect(&rt, "a folder");
    let part = below(&rt, rt.alloc(), folder.as_str(), ".jheader-0.part");
    let path = below(&rt, rt.alloc(), folder.as_str(), "a");
    let mut outs = DirOuts::of(rt);
    outs.put(part.as_str(), b"left").expect(&rt, "a file put");
    outs.put(path.as_str(), b"one").expect(&rt, "a file put");
    let texts = [text_at(&rt, part.as_str()), text_at(&rt, path.as_str())];
    let listed = DirFiles::of(rt).list(rt.alloc(), folder.as_str());
    fs::remove_dir_all(&rt, folder.as_str()).expect(&rt, "a folder removed");
    let [left, new] = &texts;
    assert!(rt; left.as_str() == "left");
    assert!(rt; new.as_str() == "one");
    assert!(rt; listed.expect(&rt, "a listing").len() == 2);
}
