//! Texts, lists and the outside world: what every crate of jheader stands on.
#![tactic(auto)]

mod calls;
mod code;
mod compared;
mod copies;
mod diagnostics;
mod errors;
mod failing;
mod faults;
mod files;
mod folders;
mod gate;
mod held;
mod list;
mod memory;
mod out_folders;
mod outs;
mod sink;
mod stream;
mod sure;
mod text;
mod threads;
mod try_copy;

pub use calls::Calls;
pub use code::{CODES, Code};
pub use copies::copy_three;
pub use diagnostics::{Diag, print_diags, sort_diags};
pub use errors::{CallErr, FileErr};
pub use failing::{MemFiles, MemOuts, MemSink};
pub use files::{Files, LONGEST_FILE};
pub use folders::DirFiles;
pub use gate::{Gate, NoGate};
pub use held::HeldFile;
pub use list::List;
pub use memory::Memory;
pub use out_folders::DirOuts;
pub use outs::Outs;
pub use sink::{Sink, write_whole};
pub use stream::StdSink;
pub use sure::{SureFiles, SureOuts, SureSink};
pub use text::Text;
pub use threads::crosses_threads;
pub use try_copy::TryCopy;
