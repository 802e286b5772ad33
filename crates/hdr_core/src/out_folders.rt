ghost use Rattle.std.specs.Prelude.{◌≡◌, None, IfSome, IsTrue, OnOk};
ghost use Rattle.std.specs.Io.KnownBytes.{Appends};
ghost use Rattle.hdr_core.specs.Faults.{fault_count};

use crate::errors::CallErr;
use crate::faults::Faults;
use crate::outs::Outs;
use std::fs::{self, File};
use std::io::{self, Error, ErrorKind, Read, Write};
use std::path::{Path, PathBuf};
use std::rt;

// How many bytes are compared at once. They lie on the stack.
const COMPARED: usize = 4_096;

// How many names are tried for a file that is written beside its place.
const MOST_PARTS: u32 = 1_024;

/// Writes files into the system's folders, and makes the folders that a path needs. It doesn't say
/// what was written.
///
/// A file that has the same bytes already is left alone, so that its time stays. Any other is
/// written beside its place, as `.jheader-0.part` or by the next number that is free, and then
/// renamed, so that where a write fails what stood there stays. A symbolic link is replaced and
/// not followed. What is neither a file nor a link, as a folder or a pipe, is a fault.
#[derive(Drop)]
pub struct DirOuts<R> {
    rt: R,
    faults: Faults,
}

impl<R: rt::Files + AllocGlobal + Drop> DirOuts<R> {
    pub fn of(rt: R) -> DirOuts<R>
        ensures { ⟦<DirOuts<R> as Outs>⟧.faults result ≡ 0 }
    {
        DirOuts {
            rt,
            faults: Faults::none(),
        }
    }
}

impl<R: rt::Files + AllocGlobal + Drop> Outs for DirOuts<R> {
    ghost written = { λ _. None };

    ghost faults = { λ outs. fault_count outs.faults };

    fn put(&mut self, path: &str, bytes: &[u8]) -> Result<(), CallErr> {
        match write_file(&self.rt, path, bytes) {
            Ok(()) => Ok(()),
            Err(error) => Err(self.faults.refuse(&error)),
        }
    }
}

fn write_file<R: rt::Files + AllocGlobal>(rt: &R, path: &str, bytes: &[u8]) -> io::Result<()> {
    match fs::symlink_metadata(rt, path) {
        Ok(about) if about.is_file() => {
            if about.len() == bytes.len() as u64 && holds_bytes(rt, path, bytes) {
                return Ok(());
            }
        }
        Ok(about) if about.is_symlink() => {}
        Ok(_) => return Err(Error::from(ErrorKind::AlreadyExists)),
        // Nothing is there, or making a file tells what is wrong.
        Err(_) => {}
    }
    replace_file(rt, path, bytes)
}

// Whether a file can be read and has these bytes.
fn holds_bytes<R: rt::Files>(rt: &R, path: &str, bytes: &[u8]) -> bool {
    match File::open(rt, path) {
        Ok(file) => gives_bytes(file, bytes),
        Err(_) => false,
    }
}

// Whether readings give these bytes and then end. Where one fails, they don't.
fn gives_bytes<R: Read + Drop>(mut file: R, bytes: &[u8]) -> bool
    ensures { IsTrue result → IfSome (R.remaining file) (λ held. held ≡ bytes.now) }
{
    let mut buffer = [0; COMPARED];
    let mut at = 0;
    loop {
        let Ok(count) = file.read(&mut buffer) else {
            return false;
        };
        if count == 0 {
            return at == bytes.len();
        }
        if !bytes[at..].starts_with(&buffer[..count]) {
            return false;
        }
        at += count;
    }
}

// Writes a file beside its place, and puts it there once it is whole.
fn replace_file<R: rt::Files + AllocGlobal>(rt: &R, path: &str, bytes: &[u8]) -> io::Result<()> {
    let (part, mut file) = create_part(rt, path)?;
    let placed = match write_bytes(&mut file, bytes) {
        Ok(()) => fs::rename(rt, part.as_str(), path),
        Err(error) => Err(error),
    };
    if placed.is_err() {
        let _ = fs::remove_file(rt, part.as_str());
    }
    placed
}

// A new file in the folder of a path, with its own path.
fn create_part<R: rt::Files + AllocGlobal>(rt: &R, path: &str) -> io::Result<(PathBuf, R::File)> {
    for number in 0..MOST_PARTS {
        let name = format!(in rt.alloc(); ".jheader-{number}.part")?;
        let part = Path::new(path).with_file_name(rt.alloc(), name.as_str())?;
        match create_file(rt, part.as_str()) {
            Ok(file) => return Ok((part, file)),
            Err(error) if error.kind() == ErrorKind::AlreadyExists => {}
            Err(error) => return Err(error),
        }
    }
    Err(Error::from(ErrorKind::AlreadyExists))
}

// A new file. The folders that its path needs are made only where one is missing.
fn create_file<R: rt::Files>(rt: &R, path: &str) -> io::Result<R::File> {
    match File::create_new(rt, path) {
        Err(error) if error.kind() == ErrorKind::NotFound => {}
        made => return made,
    }
    if let Some(folder) = Path::new(path).parent() {
        fs::create_dir_all(rt, folder)?;
    }
    File::create_new(rt, path)
}

fn write_bytes<W: Write>(file: &mut W, bytes: &[u8]) -> io::Result<()>
    ensures { OnOk result (Appends (W.contents file.old) (W.contents file.new) bytes.now) }
{
    let mut at = 0;
    while at < bytes.len() {
        match file.write(&bytes[at..])? {
            0 => return Err(Error::from(ErrorKind::WriteZero)),
            count => at += count,
        }
    }
    file.flush()
}
