ghost use Rattle.std.specs.Prelude.{◌≡◌, IfOk};
ghost use Rattle.member_index.specs.Index.{HaveFewMembers, IsIndexOf, fields_by, names_by};
ghost use Rattle.member_index.specs.Index.{methods_by};

use crate::key::MemberKey;
use crate::kind::Kind;
use crate::order::orders;
use crate::range::places_in;
use class_desc::ClassDesc;
use hdr_core::{Memory, Text};
use reachability::Rows;
use std::alloc::Global;

/// Where the fields and methods of classes stand among those of their class. It holds places
/// alone, so it is asked together with the classes that it was made of.
#[derive(Drop)]
pub struct MemberIndex {
    /// For each class its fields by name and descriptor.
    pub(crate) fields: Rows,
    /// Its fields by name alone.
    pub(crate) names: Rows,
    /// Its methods by name and descriptor.
    pub(crate) methods: Rows,
}

impl MemberIndex {
    /// The index of all members of these classes.
    pub fn of(alloc: Global, classes: &[ClassDesc]) -> Result<MemberIndex, Memory>
        requires { HaveFewMembers classes.now }
        ensures { IfOk result (λ index. IsIndexOf index classes.now) }
    {
        Ok(MemberIndex {
            fields: orders(alloc, classes, Kind::Fields)?,
            names: orders(alloc, classes, Kind::Names)?,
            methods: orders(alloc, classes, Kind::Methods)?,
        })
    }

    /// The places of the fields of a name and a descriptor that a class declares, in their order.
    pub fn fields(
        &self,
        classes: &[ClassDesc],
        class: u32,
        name: &Text,
        descriptor: &Text,
    ) -> &[u32]
        ensures { IsIndexOf self.now classes.now →
            result.now ≡ fields_by classes.now class (name.now, descriptor.now) }
    {
        let key = MemberKey {
            name: name.bytes(),
            descriptor: descriptor.bytes(),
        };
        places_in(&self.fields, classes, class as usize, Kind::Fields, &key)
    }

    /// The places of the fields of a name that a class declares, in their order.
    pub fn fields_named(&self, classes: &[ClassDesc], class: u32, name: &Text) -> &[u32]
        ensures { IsIndexOf self.now classes.now →
            result.now ≡ names_by classes.now class name.now }
    {
        let key = MemberKey {
            name: name.bytes(),
            descriptor: &[],
        };
        places_in(&self.names, classes, class as usize, Kind::Names, &key)
    }

    /// The places of the methods of a name and a descriptor that a class declares, in their order.
    pub fn methods(
        &self,
        classes: &[ClassDesc],
        class: u32,
        name: &Text,
        descriptor: &Text,
    ) -> &[u32]
        ensures { IsIndexOf self.now classes.now →
            result.now ≡ methods_by classes.now class (name.now, descriptor.now) }
    {
        let key = MemberKey {
            name: name.bytes(),
            descriptor: descriptor.bytes(),
        };
        places_in(&self.methods, classes, class as usize, Kind::Methods, &key)
    }
}
