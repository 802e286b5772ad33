ghost use Rattle.std.specs.Prelude.{◌≡◌};
ghost use Rattle.run_ends.specs.Statuses.{status_number};

/// How a run ended. The number is the status of the process.
#[derive(Clone, Copy, PartialEq, Eq)]
pub enum Status {
    /// The files are written, or the lines are told.
    Done,
    /// The input has faults, which were told. No file is written.
    Diagnosed,
    /// The words are no job.
    Usage,
    /// The files could not be listed or read. No file is written.
    ReadFault,
    /// A file could not be written, or a text could not be told.
    WriteFault,
    /// Want of memory.
    Memory,
}

impl Status {
    /// The status of the process.
    pub fn number(self) -> u8
        ensures { result ≡ status_number self }
    {
        match self {
            Status::Done => 0,
            Status::Diagnosed => 1,
            Status::Usage => 2,
            Status::ReadFault => 3,
            Status::WriteFault => 4,
            Status::Memory => 5,
        }
    }
}
