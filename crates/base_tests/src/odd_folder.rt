use hdr_core::{CallErr, DirFiles, Files};
use std::alloc::{Allocator, Global};
use std::fs::{File, Metadata, OpenOptions};
use std::io::{self, Error, ErrorKind, Read};
use std::rt;

/// A system with one folder, in which links of one name stand many times.
#[derive(Clone, Copy)]
struct OddFolder {
    alloc: Global,
    name: &'static [u8],
    times: u32,
    /// Why the folder can't be looked at.
    hidden: Option<ErrorKind>,
    /// Why it can't be entered.
    closed: Option<ErrorKind>,
}

/// The name, with the NUL that ends it, at each reading.
#[derive(Drop)]
struct Names {
    name: &'static [u8],
    left: u32,
}

impl Read for Names {
    fn read(&mut self, buffer: &mut [u8]) -> io::Result<usize> {
        if self.left == 0 {
            return Ok(0);
        }
        self.left -= 1;
        let mut name = self.name;
        name.read(buffer)
    }
}

impl Alloc for OddFolder {
    type A = Global;

    fn alloc(&self) -> Global {
        self.alloc
    }
}

fn unsupported<T>() -> io::Result<T> {
    Err(Error::from(ErrorKind::Unsupported))
}

impl rt::Files for OddFolder {
    type File = File;

    type Dir = Names;

    fn open_file(&self, _how: &OpenOptions, _path: &str) -> io::Result<File> {
        unsupported()
    }

    fn open_dir(&self, _path: &str) -> io::Result<Names> {
        match self.closed {
            Some(kind) => Err(Error::from(kind)),
            None => Ok(Names {
                name: self.name,
                left: self.times,
            }),
        }
    }

    fn metadata(&self, _path: &str) -> io::Result<Metadata> {
        match self.hidden {
            Some(kind) => Err(Error::from(kind)),
            None => Ok(Metadata::of_dir()),
        }
    }

    fn symlink_metadata(&self, _path: &str) -> io::Result<Metadata> {
        Ok(Metadata::of_symlink(0))
    }

    fn copy(&self, _from: &str, _to: &str) -> io::Result<u64> {
        unsupported()
    }

    fn rename(&self, _from: &str, _to: &str) -> io::Result<()> {
        unsupported()
    }

    fn remove_file(&self, _path: &str) -> io::Result<()> {
        unsupported()
    }

    fn create_dir(&self, _path: &str) -> io::Result<()> {
        unsupported()
    }

    fn remove_dir(&self, _path: &str) -> io::Result<()> {
        unsupported()
    }

    fn remove_dir_all<B: Allocator>(&self, _alloc: B, _path: &str) -> io::Result<()> {
        unsupported()
    }
}

#[test]
fn refuses_a_name_that_is_not_utf8_and_too_many_entries(rt: HostRuntime) {
    let table = [
        (b"a\0".as_slice(), 4_194_304, None),
        (b"a\0", 4_194_305, Some(CallErr::Failed)),
        (b"a\xff\0", 1, Some(CallErr::Failed)),
    ];
    for (name, times, refusal) in table {
        let folder = OddFolder {
            alloc: rt.alloc(),
            name,
            times,
            hidden: None,
            closed: None,
        };
        let listed = DirFiles::of(folder).list(rt.alloc(), "root");
        assert!(rt; listed.err() == refusal, "{times}");
    }
}

#[test]
fn refuses_a_root_that_the_system_forbids(rt: HostRuntime) {
    let table = [
        (
            Some(ErrorKind::PermissionDenied),
            None,
            Some(CallErr::Failed),
        ),
        (
            None,
            Some(ErrorKind::PermissionDenied),
            Some(CallErr::Failed),
        ),
        (Some(ErrorKind::OutOfMemory), None, Some(CallErr::Memory)),
        // a root that isn't there
        (Some(ErrorKind::NotFound), None, None),
        (Some(ErrorKind::NotADirectory), None, None),
    ];
    for (hidden, closed, refusal) in table {
        let folder = OddFolder {
            alloc: rt.alloc(),
            name: b"a\0",
            times: 1,
            hidden,
            closed,
        };
        let listed = DirFiles::of(folder).list(rt.alloc(), "root");
        assert!(rt; listed.err() == refusal);
    }
}
