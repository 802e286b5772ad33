//! Files that give and take three bytes at a time.
use hdr_core::{CallErr, DirFiles, DirOuts, Files, Outs};
use std::alloc::{Allocator, Global};
use std::fs::{Metadata, OpenFile, OpenOptions};
use std::io::{self, Error, ErrorKind, Read, Seek, SeekFrom, Write};
use std::rt;

const STEP: usize = 3;

/// A file of any path.
#[derive(Clone, Copy, Drop)]
struct SlowFile {
    /// What is still to be read.
    held: &'static [u8],
    /// What is still to be written. All else is refused.
    wanted: &'static [u8],
}

impl Read for SlowFile {
    fn read(&mut self, buffer: &mut [u8]) -> io::Result<usize> {
        let count = buffer.len().min(STEP);
        self.held.read(&mut buffer[..count])
    }
}

impl Write for SlowFile {
    fn write(&mut self, piece: &[u8]) -> io::Result<usize> {
        let count = piece.len().min(STEP);
        match self.wanted.strip_prefix(&piece[..count]) {
            Some(rest) => {
                self.wanted = rest;
                Ok(count)
            }
            None => Err(Error::from(ErrorKind::Unsupported)),
        }
    }

    fn flush(&mut self) -> io::Result<()> {
        if self.wanted.is_empty() {
            Ok(())
        } else {
            unsupported()
        }
    }
}

impl Seek for SlowFile {
    fn seek(&mut self, _to: SeekFrom) -> io::Result<u64> {
        unsupported()
    }
}

impl OpenFile for SlowFile {
    fn metadata(&self) -> io::Result<Metadata> {
        unsupported()
    }

    fn set_len(&self, _size: u64) -> io::Result<()> {
        unsupported()
    }

    fn sync_all(&self) -> io::Result<()> {
        unsupported()
    }

    fn sync_data(&self) -> io::Result<()> {
        unsupported()
    }
}

fn unsupported<T>() -> io::Result<T> {
    Err(Error::from(ErrorKind::Unsupported))
}

/// A system in which the file is at every path, each may be renamed, and no folder can be made.
#[derive(Clone, Copy)]
struct SlowSystem {
    alloc: Global,
    file: SlowFile,
}

impl Alloc for SlowSystem {
    type A = Global;

    fn alloc(&self) -> Global {
        self.alloc
    }
}

impl rt::Files for SlowSystem {
    type File = SlowFile;

    type Dir = SlowFile;

    fn open_file(&self, _how: &OpenOptions, _path: &str) -> io::Result<SlowFile> {
        Ok(self.file)
    }

    fn open_dir(&self, _path: &str) -> io::Result<SlowFile> {
        unsupported()
    }

    fn metadata(&self, _path: &str) -> io::Result<Metadata> {
        unsupported()
    }

    fn symlink_metadata(&self, _path: &str) -> io::Result<Metadata> {
        Ok(Metadata::of_file(self.file.held.len() as u64))
    }

    fn copy(&self, _from: &str, _to: &str) -> io::Result<u64> {
        unsupported()
    }

    fn rename(&self, _from: &str, _to: &str) -> io::Result<()> {
        Ok(())
    }

    fn remove_file(&self, _path: &str) -> io::Result<()> {
        unsupported()
    }

    fn create_dir(&self, _path: &str) -> io::Result<()> {
        unsupported()
    }

    fn remove_dir(&self, _path: &str) -> io::Result<()> {
        unsupported()
    }

    fn remove_dir_all<B: Allocator>(&self, _alloc: B, _path: &str) -> io::Result<()> {
        unsupported()
    }
}

#[test]
fn reads_three_bytes_at_a_time(rt: HostRuntime) {
    let file = SlowFile {
        held: b"seventy",
        wanted: b"",
    };
    let system = SlowSystem {
        alloc: rt.alloc(),
        file,
    };
    let mut bytes = Vec::new(rt.alloc());
    let read = DirFiles::of(system).read("a", &mut bytes);
    read.expect(&rt, "a file");
    assert!(rt; bytes.as_slice() == b"seventy".as_slice());
}

/// What is held, what is put and what is to be written, with the answer.
type Put = (
    &'static [u8],
    &'static [u8],
    &'static [u8],
    Result<(), CallErr>,
);

const PUTS: &[Put] = &[
    // left alone
    (b"seventy", b"seventy", b"", Ok(())),
    (b"", b"", b"", Ok(())),
    // of the same length
    (b"seventy", b"seventh", b"seventh", Ok(())),
    (b"seventy", b"eleven!", b"eleven!", Ok(())),
    // shorter and longer
    (b"seventy", b"seven", b"seven", Ok(())),
    (b"seven", b"seventy", b"seventy", Ok(())),
    // a write that is refused
    (b"seventy", b"sixteen", b"sixty", Err(CallErr::Failed)),
    // a flush that is refused, behind writes that are not
    (b"seventy", b"six", b"sixteen", Err(CallErr::Failed)),
];

#[test]
fn puts_three_bytes_at_a_time_where_the_bytes_are_others(rt: HostRuntime) {
    for &(held, bytes, wanted, answer) in PUTS {
        let file = SlowFile { held, wanted };
        let system = SlowSystem {
            alloc: rt.alloc(),
            file,
        };
        assert!(rt; DirOuts::of(system).put("o/a", bytes) == answer);
    }
}
