ghost use Rattle.std.specs.Prelude.{◌≡◌, ℕ, ◌<◌, ◌^◌, List, Option, OnOk, OnErr};
ghost use Rattle.hdr_core.specs.Causes.{CountsFault};
ghost use Rattle.hdr_core.specs.Held.{with_file};

use crate::errors::CallErr;

/// Where files are written.
pub trait Outs {
    /// The files that were written, in the order of the calls, where the object tells them.
    ghost written: { Self → Option (List (List ℕ × List ℕ)) };

    /// How many of its calls failed. The count stands still at the end of 64 bits.
    ghost faults: { Self → ℕ };

    /// Writes a file. After a refusal there may be any bytes at the path.
    fn put(&mut self, path: &str, bytes: &[u8]) -> Result<(), CallErr>
        ensures ok { OnOk result
            (written self.new ≡ with_file (written self.old) path.now bytes.now) }
        ensures err { OnErr result (written self.new ≡ written self.old) }
        ensures faults { CountsFault faults self.old self.new result CallErr.Failed }
        ensures bounded { faults self.new < 2 ^ 64 };
}
