//! Where a reading of a file stands, and the constant pool (JVMS 4.4): what class files and module
//! files share. What fails is told by its kind and the offset of its item.
#![tactic(auto)]

mod entry;
mod fault;
mod pool;
mod reader;

pub use fault::{ClassFault, ClassKind, ReadErr};
pub use pool::{Pool, PoolEntry};
pub use reader::Reader;
