ghost use Rattle.std.specs.Prelude.{◌≡◌, ◌≢◌, ◌≤◌, ◌<◌, ◌^◌, ◌↔◌};
ghost use Rattle.std.specs.IoError.{error_kind};

use crate::errors::CallErr;
use std::io::{Error, ErrorKind};

/// How many calls of an adapter failed.
#[derive(Drop)]
pub(crate) struct Faults {
    count: u64,
    ghost bounded: { count < 2 ^ 64 },
}

impl Faults {
    ghost use Rattle.hdr_core.specs.Causes.{Rose};
    ghost use Rattle.hdr_core.specs.Faults.{fault_count};

    pub(crate) fn none() -> Faults
        ensures { fault_count result ≡ 0 }
    {
        Faults { count: 0 }
    }

    /// What a call answers after an error of the system. Each but that memory ran out is counted.
    pub(crate) fn refuse(&mut self, error: &Error) -> CallErr
        ensures memory { (result ≡ CallErr.Memory)
            ↔ (error_kind error.now ≡ ErrorKind.OutOfMemory) }
        ensures failed { result ≡ CallErr.Failed
            → Rose (fault_count self.old) (fault_count self.new) }
        ensures kept { result ≢ CallErr.Failed → fault_count self.new ≡ fault_count self.old }
        ensures later { fault_count self.old ≤ fault_count self.new }
    {
        if error.kind() == ErrorKind::OutOfMemory {
            return CallErr::Memory;
        }
        self.count = self.count.saturating_add(1);
        CallErr::Failed
    }
}
