ghost use Rattle.std.specs.Prelude.{◌≡◌, ℕ, ◌<◌, ◌^◌, List, Option, map, string_bytes, IfOk};
ghost use Rattle.std.specs.Prelude.{IsErrOf, OnOk};
ghost use Rattle.hdr_core.specs.Causes.{CountsFault};
ghost use Rattle.hdr_core.specs.Held.{ListsWhereTold, HoldsPath, HoldsBytes, HoldsWithin};
ghost use Rattle.hdr_core.specs.Held.{HoldsBeyond};

use crate::errors::{CallErr, FileErr};
use std::alloc::Global;

/// How many bytes a file may have.
pub const LONGEST_FILE: usize = 16_777_216;

/// Files that can be listed and read.
pub trait Files {
    /// The files, each a path and bytes, where the object tells them. Of a path that stands twice
    /// the first counts.
    ghost held: { Self → Option (List (List ℕ × List ℕ)) };

    /// How many of its calls failed. The count stands still at the end of 64 bits.
    ghost faults: { Self → ℕ };

    /// The paths of the files that are the root or lie below it.
    fn list(&mut self, alloc: Global, root: &str) -> Result<Vec<String>, CallErr>
        ensures paths { IfOk result (λ paths.
            ListsWhereTold (held self.old) root.now (map string_bytes paths.items)) }
        ensures held { held self.new ≡ held self.old }
        ensures faults { CountsFault faults self.old self.new result CallErr.Failed }
        ensures bounded { faults self.new < 2 ^ 64 };

    /// Makes `into` the bytes of a file. After a refusal nothing is known of `into`.
    ///
    /// Where the files are told the path is one of theirs, so
    /// no caller can bring a fault about by a strange path.
    fn read(&mut self, path: &str, into: &mut Vec<u8>) -> Result<(), FileErr>
        requires { HoldsPath (held self.old) path.now }
        ensures bytes { OnOk result (HoldsBytes (held self.old) path.now into.new.items) }
        ensures fits { OnOk result (HoldsWithin (held self.old) path.now LONGEST_FILE) }
        ensures too_long { IsErrOf result FileErr.TooLong →
            HoldsBeyond (held self.old) path.now LONGEST_FILE }
        ensures held { held self.new ≡ held self.old }
        ensures faults { CountsFault faults self.old self.new result FileErr.Failed }
        ensures bounded { faults self.new < 2 ^ 64 };
}
