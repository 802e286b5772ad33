//! Which values workers may share, and which they may hand over.
ghost use Rattle.std.specs.Thread.{IsSync, IsSend};

use crate::calls::Calls;
use crate::code::Code;
use crate::diagnostics::Diag;
use crate::errors::{CallErr, FileErr};
use crate::failing::{MemFiles, MemOuts, MemSink};
use crate::gate::NoGate;
use crate::held::HeldFile;
use crate::list::List;
use crate::memory::Memory;
use crate::sure::{SureFiles, SureOuts, SureSink};
use crate::text::Text;

/// Shows that workers may share and hand over the values of a type: a crate calls this at each
/// such type of its own.
pub fn crosses_threads<T: Sync + Send>() {
    is_shared::<T>();
    is_handed_over::<T>();
}

fn is_shared<T: Sync>()
    requires { IsSync T.row }
{}

fn is_handed_over<T: Send>()
    requires { IsSend T.row }
{}

// A list crosses where its items do.
fn lists_cross<T: Sync + Send>() {
    crosses_threads::<List<T>>();
}

fn values_cross() {
    crosses_threads::<Text>();
    crosses_threads::<Memory>();
    crosses_threads::<CallErr>();
    crosses_threads::<FileErr>();
    crosses_threads::<Code>();
    crosses_threads::<Diag>();
    crosses_threads::<HeldFile>();
    crosses_threads::<NoGate>();
}

fn objects_in_memory_cross() {
    crosses_threads::<Calls>();
    crosses_threads::<MemFiles>();
    crosses_threads::<MemOuts>();
    crosses_threads::<MemSink>();
    crosses_threads::<SureFiles>();
    crosses_threads::<SureOuts>();
    crosses_threads::<SureSink>();
}
