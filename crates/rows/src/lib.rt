//! Examples as data: files of rows that a person can read, put to a program.
//!
//! A line of a file ending in `.rows` is empty, or one of
//!
//! ```text
//! # a comment
//! $NAME: WORDS                         bytes that have a name behind it
//! QUESTION NAME: INPUT => ANSWER       a row
//! ```
//!
//! Bytes are spelled by words: hexadecimal digits, `` `TEXT` `` for characters, `$NAME` for those
//! of a name. In front of one, `5*` says how often it stands, and `utf` in front of characters
//! makes an entry of a constant pool of them (JVMS 4.4.7): its tag, its length and the text. The
//! word `nothing` spells no bytes, and as an answer is none.
//!
//! Each file of the folder is read, so none can be forgotten, and the rows of each are counted. A
//! line is printed for each row whose answer is another than the one that is wanted.
#![tactic(auto)]

mod error;
mod pieces;
mod row;
mod run;

pub use error::RowErr;
pub use pieces::Pieces;
pub use row::{Asked, Told};
pub use run::{Subject, tell_rows};
