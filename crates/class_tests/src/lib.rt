//! What no row of class_rows can say of class_desc, class_reader, class_writer and ijar_strip:
//! descriptions that no file spells, limits, and copies.
#![tactic(auto)]

#[cfg(test)]
mod building;
#[cfg(test)]
mod copies;
#[cfg(test)]
mod long_lists;
#[cfg(test)]
mod many_methods;
#[cfg(test)]
mod refusals;
#[cfg(test)]
mod stripping;
