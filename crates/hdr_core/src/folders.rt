ghost use Rattle.std.specs.Prelude.{◌≡◌, ℕ, ◌≤◌, ◌<◌, ◌+◌, List, Option, None, length, nat_le};
ghost use Rattle.std.specs.Prelude.{vec_len, IfOk, IfSome, OnOk};
ghost use Rattle.std.specs.Io.KnownBytes.{Consumes, IsAtEnd};
ghost use Rattle.hdr_core.specs.Faults.{fault_count};
ghost use Rattle.hdr_core.specs.Readings.{IsRead};

use crate::errors::{CallErr, FileErr};
use crate::faults::Faults;
use crate::files::{Files, LONGEST_FILE};
use std::alloc::{AllocError, Global};
use std::fs::{self, File, FileType};
use std::io::{self, Error, ErrorKind, Read};
use std::rt;

// How many entries may be met below a root.
const MOST_ENTRIES: usize = 4_194_304;

// How many bytes are asked for at once.
const PIECE: usize = 65_536;

/// The files of the system's folders. It doesn't say what they hold.
///
/// A root that is a symbolic link is followed, since the user named it. Below a
/// root symbolic links are passed over, and so is all that is neither a file nor
/// a folder. A root that isn't there has no files. A name that isn't UTF-8 is a
/// fault, and so is a root below which more than 4,194,304 entries are met.
#[derive(Drop)]
pub struct DirFiles<R> {
    rt: R,
    faults: Faults,
    // What is read goes through it. The first reading makes it.
    buffer: Vec<u8>,
}

impl<R: rt::Files + AllocGlobal + Clone + Drop> DirFiles<R> {
    pub fn of(rt: R) -> DirFiles<R>
        ensures { ⟦<DirFiles<R> as Files>⟧.faults result ≡ 0 }
    {
        let buffer = Vec::new(rt.alloc());
        DirFiles {
            rt,
            faults: Faults::none(),
            buffer,
        }
    }
}

impl<R: rt::Files + AllocGlobal + Clone + Drop> Files for DirFiles<R> {
    ghost held = { λ _. None };

    ghost faults = { λ files. fault_count files.faults };

    fn list(&mut self, alloc: Global, root: &str) -> Result<Vec<String>, CallErr> {
        match list_below(&self.rt, alloc, root, MOST_ENTRIES) {
            Ok(paths) => Ok(paths),
            Err(error) => Err(self.faults.refuse(&error)),
        }
    }

    fn read(&mut self, path: &str, into: &mut Vec<u8>) -> Result<(), FileErr> {
        match read_file(&self.rt, path, &mut self.buffer, into) {
            Ok(true) => Ok(()),
            Ok(false) => Err(FileErr::TooLong),
            Err(error) => match self.faults.refuse(&error) {
                CallErr::Failed => Err(FileErr::Failed),
                CallErr::Memory => Err(FileErr::Memory),
            },
        }
    }
}

// The files that were met, the folders that are still
// to be entered, and how many more entries may be met.
#[derive(Drop)]
struct Walk {
    files: Vec<String>,
    folders: Vec<String>,
    left: usize,
}

fn list_below<R: rt::Files + AllocGlobal + Clone + Drop>(
    rt: &R,
    alloc: Global,
    root: &str,
    most: usize,
) -> io::Result<Vec<String>> {
    let mut walk = Walk {
        files: Vec::new(alloc),
        folders: Vec::new(alloc),
        left: most,
    };
    match fs::metadata(rt, root) {
        Ok(about) if about.is_dir() => walk.folders.push(String::from_str(alloc, root)?)?,
        Ok(about) if about.is_file() => walk.files.push(String::from_str(alloc, root)?)?,
        Ok(_) => {}
        Err(error) if is_absent(&error) => {}
        Err(error) => return Err(error),
    }
    while let Some(folder) = walk.folders.pop() {
        walk.enter(rt, alloc, folder.as_str())?;
    }
    Ok(walk.files)
}

fn is_absent(error: &Error) -> bool {
    let kind = error.kind();
    kind == ErrorKind::NotFound || kind == ErrorKind::NotADirectory
}

impl Walk {
    fn enter<R: rt::Files + AllocGlobal + Clone + Drop>(
        &mut self,
        rt: &R,
        alloc: Global,
        folder: &str,
    ) -> io::Result<()>
        ensures { OnOk result (self.new.left + vec_len self.new.folders
            ≤ self.old.left + vec_len self.old.folders) }
    {
        for entry in fs::read_dir(rt, folder)? {
            let entry = entry?;
            self.count_entry()?;
            self.keep(alloc, entry.path().as_str(), entry.file_type()?)?;
        }
        Ok(())
    }

    fn count_entry(&mut self) -> io::Result<()>
        ensures fewer { OnOk result (self.new.left + 1 ≡ self.old.left) }
        ensures folders { self.new.folders ≡ self.old.folders }
    {
        if self.left == 0 {
            return Err(Error::from(ErrorKind::FileTooLarge));
        }
        self.left -= 1;
        Ok(())
    }

    // Keeps the path of a file or of a folder. All else is passed over.
    fn keep(&mut self, alloc: Global, path: &str, kind: FileType) -> Result<(), AllocError>
        ensures left { self.new.left ≡ self.old.left }
        ensures folders { vec_len self.new.folders ≤ vec_len self.old.folders + 1 }
    {
        if kind.is_dir() {
            self.folders.push(String::from_str(alloc, path)?)?;
        } else if kind.is_file() {
            self.files.push(String::from_str(alloc, path)?)?;
        }
        Ok(())
    }
}

// Reads a whole file, and says whether it is short enough. Of
// a longer one no more is read than shows that it is longer.
fn read_file<R: rt::Files>(
    rt: &R,
    path: &str,
    buffer: &mut Vec<u8>,
    into: &mut Vec<u8>,
) -> io::Result<bool>
    ensures { IfOk result (λ fits. fits ≡ nat_le (length into.new.items) LONGEST_FILE) }
{
    let file = File::open(rt, path)?;
    buffer.resize(PIECE, 0)?;
    read_pieces(file, buffer, into)
}

fn read_pieces<R: Read + Drop>(
    mut file: R,
    buffer: &mut [u8],
    into: &mut Vec<u8>,
) -> io::Result<bool>
    requires { 0 < length buffer.old }
    ensures fits { IfOk result (λ fits. fits ≡ nat_le (length into.new.items) LONGEST_FILE) }
    ensures bytes { IfOk result (λ fits. IfSome (R.remaining file)
        (λ held. IsRead held fits into.new.items)) }
{
    into.clear();
    while into.len() <= LONGEST_FILE {
        let room = buffer.len().min(LONGEST_FILE + 1 - into.len());
        if read_piece(&mut file, &mut buffer[..room], into)? == 0 {
            return Ok(true);
        }
    }
    Ok(false)
}

// Reads once into the buffer, puts what was read behind
// what is there, and says how many bytes it was.
fn read_piece<R: Read>(file: &mut R, buffer: &mut [u8], into: &mut Vec<u8>) -> io::Result<usize>
    ensures within { IfOk result (λ count. count ≤ length buffer.old) }
    ensures behind { IfOk result (λ count. vec_len into.new ≡ vec_len into.old + count) }
    ensures bytes { OnOk result ((first : Option (List ℕ)) →
        Consumes first (R.remaining file.old) into.old.items →
        Consumes first (R.remaining file.new) into.new.items) }
    ensures end { IfOk result (λ count.
        count ≡ 0 → 0 < length buffer.old → IsAtEnd (R.remaining file.new)) }
{
    let count = file.read(buffer)?;
    into.extend_from_slice(&buffer[..count])?;
    Ok(count)
}
