//! Class files as rows of data: which fault they have, what is read of them, what is written of
//! what was read, what stripping leaves, and what clients find in several.
//!
//! In front of ` | ` and behind it stand classes of a list. A class behind ` + ` adds its members
//! and attributes to the class in front: no file has two members of one name and descriptor.
#![tactic(auto)]

mod attributes;
mod classes;
mod cuts;
mod members;
mod stripping;
mod words;
mod worlds;

use attributes::{attributes_of, class_with_attributes};
use classes::{class_of, classes_of, fault_of, file_of};
use cuts::cuts_of;
use members::members_of;
use rows::{Asked, RowErr, Subject, Told, tell_rows};
use std::alloc::Global;
use std::io;
use stripping::{all_stripped, stripped};
use words::text;
use worlds::{line_of, repeat_of};

/// The questions of class files.
struct ClassFiles;

impl Subject for ClassFiles {
    fn answer(&self, alloc: Global, asked: Asked<'_>) -> Result<Told, RowErr> {
        match asked.question {
            "fault" => text(fault_of(alloc, asked)),
            "cuts" => text(cuts_of(alloc, asked)),
            "class" => text(members_of(alloc, &class_of(alloc, asked)?)),
            "attributes" => text(attributes_of(alloc, &class_of(alloc, asked)?)),
            "members" => text(class_with_attributes(alloc, &class_of(alloc, asked)?)),
            "file" => file_of(alloc, &class_of(alloc, asked)?),
            "strip" => text(stripped(alloc, class_of(alloc, asked)?)),
            "left" => text(all_stripped(alloc, classes_of(alloc, asked)?)),
            "repeat" => text(repeat_of(alloc, classes_of(alloc, asked)?)),
            "ask" => text(line_of(alloc, asked)),
            _ => Err(RowErr::NoQuestion),
        }
    }
}

fn main(rt: HostRuntime) -> io::Result<()> {
    tell_rows(&rt, &ClassFiles)
}
