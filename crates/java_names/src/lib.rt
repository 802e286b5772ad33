//! Names of Java that sources and class files share: their forms (JVMS 4.2), modified UTF-8
//! (JVMS 4.4.7) both ways, and names as paths.
#![tactic(auto)]

mod laws;
mod modified;
mod names;
mod paths;
mod units;

pub use laws::{a_path_is_that_of_its_name, units_spell_their_text};
pub use modified::modified_utf8;
pub use names::{is_class_name, is_field_name, is_identifier, is_method_name};
pub use paths::{name_of_path, path_of_name, utf16_units};
pub use units::{is_modified_utf8, units_of};
