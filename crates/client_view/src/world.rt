ghost use Rattle.std.specs.Prelude.{◌≡◌, ◌<◌, ◌^◌, ℕ, IfOk, OnOk, Err, Some, IfSome, length};
ghost use Rattle.std.specs.Prelude.{slice_get, slice_index_or, option_and_then, List, None};
ghost use Rattle.class_views.specs.View.{View};
ghost use Rattle.class_views.specs.World.{ring_of};
ghost use Rattle.class_views.specs.Access.{is_accessible_class};
ghost use Rattle.class_views.specs.Access.{is_in_package as lies_in_package};
ghost use Rattle.class_views.specs.Query.{ask, ClassQuery, SupersQuery};
ghost use Rattle.client_view.specs.Indexed.{HaveFewMembers};
ghost use Rattle.client_view.specs.Numbers.{views, number_of, AreApart, IsFirstRepeat};
ghost use Rattle.client_view.specs.Refusals.{Starts};
ghost use Rattle.client_view.specs.Replies.{client_seen, Says, IsClassFound};
ghost use Rattle.client_view.specs.declared.refused.ViewErr.TheVariants.{Repeated};

mod access;
mod annotations;
mod constants;
mod fields;
mod methods;

use crate::asked::Client;
use crate::flags::{PUBLIC, has_flag};
use crate::numbers::{numbers_of, object_number, superclass_rows, supertype_rows};
use crate::package::is_in_package;
use crate::refusal::Refusal;
use crate::refused::ViewErr;
use crate::reply::Reply;
use class_desc::ClassDesc;
use hdr_core::Text;
use member_index::MemberIndex;
use reachability::Rows;
use std::alloc::Global;
use std::collections::BTreeMap;
use std::marker::Model;
use supertypes::{Search, least_rings};

/// The classes that a client sees, each under its own name. Contracts see the list of classes.
#[derive(Drop)]
pub struct ClientWorld {
    classes: Vec<ClassDesc>,
    numbers: BTreeMap<Text, u32>,
    /// The supertypes of each class, in the order of a walk (JVMS 5.4.3.2).
    supertypes: Rows,
    superclasses: Rows,
    /// For each class the least one that it reaches, or is, and that reaches itself.
    rings: Vec<Option<u32>>,
    /// Where the members of each class stand.
    members: MemberIndex,
    search: Search,
    /// The number of java/lang/Object.
    object: Option<u32>,
    /// Room for all classes; empty between questions.
    candidates: Vec<u32>,
}

impl Model for ClientWorld {
    ghost use Rattle.std.specs.Prelude.{List};
    ghost use Rattle.class_desc.specs.declared.class.ClassDesc.{ClassDesc as Described};
    ghost use Rattle.client_view.specs.Indexed.{IsIndexed};
    ghost use Rattle.class_desc.specs.contracts.class.ClassDesc.{the_row};
    ghost use Rattle.std.specs.Coded.{coded_list};

    ghost Value = { List Described };

    ghost coded = { coded_list the_row.coded };

    ghost view = { λ world. world.classes.items };

    ghost invariant = { IsIndexed };
}

impl ClientWorld {
    /// A world of these classes, with room for all searches.
    pub fn of(alloc: Global, classes: Vec<ClassDesc>) -> Result<ClientWorld, ViewErr>
        requires few { length classes.items < 2 ^ 32 }
        requires members { HaveFewMembers classes.items }
        ensures classes { IfOk result (λ world. world ≡ classes.items) }
        ensures apart { OnOk result (AreApart (views classes.items)) }
        ensures repeated { (first second : ℕ) → result ≡ Err (Repeated first second) →
            IsFirstRepeat (views classes.items) first second }
    {
        let numbers = numbers_of(alloc, &classes)?;
        let supertypes = supertype_rows(alloc, &numbers, &classes)?;
        let superclasses = superclass_rows(alloc, &numbers, &classes)?;
        let rings = least_rings(alloc, &supertypes)?;
        let members = MemberIndex::of(alloc, &classes)?;
        let search = Search::new(alloc, classes.len())?;
        let object = object_number(alloc, &numbers)?;
        let candidates = Vec::with_capacity(alloc, classes.len())?;
        Ok(ClientWorld {
            classes,
            numbers,
            supertypes,
            superclasses,
            rings,
            members,
            search,
            object,
            candidates,
        })
    }

    /// The description of a class.
    pub fn desc(&self, class: u32) -> &ClassDesc
        requires { class < length self.now }
        ensures { slice_get self.now class ≡ Some result.now }
    {
        &self.classes[class as usize]
    }

    /// The class of a name.
    pub fn class_at(&self, client: &Client, name: &Text) -> Reply<u32>
        ensures { Says (views self.now) (IsClassFound (views self.now)) result
            (ask (views self.now) (client_seen client.now) (ClassQuery name.now)) }
    {
        match self.number(name) {
            Some(number) => {
                if self.is_accessible(client, number) {
                    Reply::Found(number)
                } else {
                    Reply::NotAccessible { declarer: number }
                }
            }
            None => Reply::NotFound,
        }
    }

    /// The class of a name, whose description has the supertypes.
    pub fn supers(&self, client: &Client, name: &Text) -> Reply<u32>
        ensures { Says (views self.now) (IsClassFound (views self.now)) result
            (ask (views self.now) (client_seen client.now) (SupersQuery name.now)) }
    {
        self.class_at(client, name)
    }

    fn number(&self, name: &Text) -> Option<u32>
        ensures { result ≡ number_of (views self.now) name.now }
    {
        self.numbers.get(name).copied()
    }

    /// Whether a client may access a class (JVMS 5.4.4).
    fn is_accessible(&self, client: &Client, class: u32) -> bool
        requires { class < length self.now }
        ensures { (c : View) → slice_get (views self.now) class ≡ Some c →
            result ≡ is_accessible_class (client_seen client.now) c }
    {
        has_flag(PUBLIC, self.classes[class as usize].flags) || self.is_in_package(client, class)
    }

    /// Whether a class lies in the client's package.
    fn is_in_package(&self, client: &Client, class: u32) -> bool
        requires { class < length self.now }
        ensures { (c : View) → slice_get (views self.now) class ≡ Some c →
            result ≡ lies_in_package client.now.package c.name }
    {
        is_in_package(&client.package, &self.classes[class as usize].name)
    }

    /// The least class that a class reaches, or is, and that reaches itself.
    fn ring(&self, class: u32) -> Option<u32>
        requires { class < length self.now }
        ensures is { (c : View) → slice_get (views self.now) class ≡ Some c →
            ring_of (views self.now) c.name ≡ option_and_then (slice_get (views self.now)) result }
        ensures there { IfSome result (λ ring. ring < length self.now) }
    {
        ring_at(&self.rings, class)
    }

    /// The class of a name, if a question goes into it.
    fn start(&self, client: &Client, name: &Text) -> Result<u32, Refusal>
        ensures { Starts (views self.now) (client_seen client.now) name.now result }
    {
        match self.number(name) {
            Some(number) => self.enter(client, number),
            None => Err(Refusal::NoClass),
        }
    }

    fn enter(&self, client: &Client, class: u32) -> Result<u32, Refusal>
        requires { class < length self.now }
        ensures { (name : List ℕ) → number_of (views self.now) name ≡ Some class →
            Starts (views self.now) (client_seen client.now) name result }
    {
        if self.is_accessible(client, class) {
            match self.ring(class) {
                Some(ring) => Err(Refusal::Ring(ring)),
                None => Ok(class),
            }
        } else {
            Err(Refusal::Hidden(class))
        }
    }
}

fn ring_at(rings: &[Option<u32>], class: u32) -> Option<u32>
    ensures { result ≡ slice_index_or rings.now class None }
{
    match rings.get(class as usize) {
        Some(ring) => *ring,
        None => None,
    }
}
