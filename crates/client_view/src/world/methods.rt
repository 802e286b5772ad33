//! Methods (JVMS 5.4.3.3, 5.4.3.4).
ghost use Rattle.std.specs.Prelude.{◌≡◌, ◌<◌, ℕ, Some, IfSome, length, slice_get, [], List};
ghost use Rattle.std.specs.Prelude.{option_to_list};
ghost use Rattle.std.specs.Option.{option_or};
ghost use Rattle.class_desc.specs.ClassFile.{object_name};
ghost use Rattle.member_index.specs.Index.{IsIndexOf};
ghost use Rattle.class_views.specs.View.{View};
ghost use Rattle.class_views.specs.World.{chain, class_of, is_interface as is_an_interface};
ghost use Rattle.class_views.specs.Query.{ask, answer_in, MethodQuery, InterfaceMethodQuery};
ghost use Rattle.class_views.specs.Resolution.{first_declared, method_in, object_method_in};
ghost use Rattle.class_views.specs.Resolution.{method_resolution, interface_method_resolution};
ghost use Rattle.class_views.specs.Resolution.{from_superinterfaces as from_interfaces};
ghost use Rattle.client_view.specs.Indexed.{HaveFewMembers, superclasses as superclasses_of};
ghost use Rattle.client_view.specs.Members.{Meets, named};
ghost use Rattle.client_view.specs.Numbers.{views, AreApart, IsGraphOf};
ghost use Rattle.client_view.specs.Refusals.{IsFree};
ghost use Rattle.client_view.specs.Replies.{client_seen, methods_of, Says, IsMemberFound};
ghost use Rattle.client_view.specs.Sought.{meant};

use crate::asked::Client;
use crate::flags::{INTERFACE, has_flag};
use crate::members::{Met, has_method, method_at, object_method_of};
use crate::reply::{MemberAt, Reply};
use crate::sought::Sought;
use crate::superinterfaces::from_superinterfaces;
use crate::world::ClientWorld;
use class_desc::ClassDesc;
use hdr_core::Text;
use member_index::MemberIndex;
use reachability::Rows;
use supertypes::Search;

/// The method of the first class of a chain of superclasses that declares it.
fn method_in_chain(
    search: &mut Search,
    graph: &Rows,
    classes: &[ClassDesc],
    index: &MemberIndex,
    start: u32,
    sought: &Sought<'_>,
) -> Option<Met>
    requires room { search.old ≡ record { classes = length classes.now; list = [] } }
    requires few { HaveFewMembers classes.now }
    requires indexed { IsIndexOf index.now classes.now }
    requires apart { AreApart (views classes.now) }
    requires graph { IsGraphOf (views classes.now) superclasses_of graph.now }
    requires free { IsFree (views classes.now) start }
    ensures met { (c : View) → slice_get (views classes.now) start ≡ Some c →
        Meets (views classes.now) methods_of result
        (first_declared (method_in (meant sought.now))
        (chain (views classes.now) c.name)) }
    ensures there { IfSome result (λ met. met.at.class < length classes.now) }
    ensures kept { search.new ≡ search.old }
{
    match search.first(
        graph,
        start,
        |class| has_method(classes, index, class, sought),
    ) {
        Some(class) => method_at(classes, index, class, sought),
        None => None,
    }
}

impl ClientWorld {
    /// The method of a name and descriptor in a class (JVMS 5.4.3.3).
    pub fn method(
        &mut self,
        client: &Client,
        class: &Text,
        name: &Text,
        descriptor: &Text,
    ) -> Reply<MemberAt>
        ensures says { Says (views self.old) (IsMemberFound (views self.old) methods_of) result
            (ask (views self.old) (client_seen client.now)
            (MethodQuery class.now (named name.now descriptor.now))) }
        ensures kept { self.new ≡ self.old }
    {
        match self.start(client, class) {
            Ok(number) => self.class_method(client, number, name, descriptor),
            Err(refusal) => refusal.reply(),
        }
    }

    /// The method of a name and descriptor in an interface (JVMS 5.4.3.4).
    pub fn interface_method(
        &mut self,
        client: &Client,
        class: &Text,
        name: &Text,
        descriptor: &Text,
    ) -> Reply<MemberAt>
        ensures says { Says (views self.old) (IsMemberFound (views self.old) methods_of) result
            (ask (views self.old) (client_seen client.now)
            (InterfaceMethodQuery class.now (named name.now descriptor.now))) }
        ensures kept { self.new ≡ self.old }
    {
        match self.start(client, class) {
            Ok(number) => self.interface_method_of(client, number, name, descriptor),
            Err(refused) => refused.reply(),
        }
    }

    fn is_interface(&self, class: u32) -> bool
        requires { class < length self.now }
        ensures { (c : View) → slice_get (views self.now) class ≡ Some c →
            result ≡ is_an_interface c }
    {
        has_flag(INTERFACE, self.classes[class as usize].flags)
    }

    fn class_method(
        &mut self,
        client: &Client,
        class: u32,
        name: &Text,
        descriptor: &Text,
    ) -> Reply<MemberAt>
        requires { IsFree (views self.old) class }
        ensures says { (c : View) → slice_get (views self.old) class ≡ Some c →
            Says (views self.old) (IsMemberFound (views self.old) methods_of) result
            (answer_in (views self.old) (client_seen client.now) c
            (MethodQuery c.name (named name.now descriptor.now))) }
        ensures kept { self.new ≡ self.old }
    {
        if self.is_interface(class) {
            Reply::WrongKind
        } else {
            let met = self.resolved_method(class, name, descriptor);
            self.reply(client, met)
        }
    }

    fn interface_method_of(
        &mut self,
        client: &Client,
        class: u32,
        name: &Text,
        descriptor: &Text,
    ) -> Reply<MemberAt>
        requires { IsFree (views self.old) class }
        ensures says { (c : View) → slice_get (views self.old) class ≡ Some c →
            Says (views self.old) (IsMemberFound (views self.old) methods_of) result
            (answer_in (views self.old) (client_seen client.now) c
            (InterfaceMethodQuery c.name (named name.now descriptor.now))) }
        ensures kept { self.new ≡ self.old }
    {
        if self.is_interface(class) {
            let met = self.resolved_interface_method(class, name, descriptor);
            self.reply(client, met)
        } else {
            Reply::WrongKind
        }
    }

    /// First in the class and its superclasses, then in the superinterfaces.
    fn resolved_method(&mut self, class: u32, name: &Text, descriptor: &Text) -> Option<Met>
        requires { IsFree (views self.old) class }
        ensures met { (c : View) → slice_get (views self.old) class ≡ Some c →
            Meets (views self.old) methods_of result
            (method_resolution (views self.old) c.name (named name.now descriptor.now)) }
        ensures there { IfSome result (λ met. met.at.class < length self.old) }
        ensures kept { self.new ≡ self.old }
    {
        match self.chain_method(class, name, descriptor) {
            Some(met) => Some(met),
            None => self.superinterface_method(class, name, descriptor),
        }
    }

    fn chain_method(&mut self, class: u32, name: &Text, descriptor: &Text) -> Option<Met>
        requires { IsFree (views self.old) class }
        ensures met { (c : View) → slice_get (views self.old) class ≡ Some c →
            Meets (views self.old) methods_of result
            (first_declared (method_in (named name.now descriptor.now))
            (chain (views self.old) c.name)) }
        ensures there { IfSome result (λ met. met.at.class < length self.old) }
        ensures kept { self.new ≡ self.old }
    {
        let sought = Sought::of(name, descriptor);
        method_in_chain(
            &mut self.search,
            &self.superclasses,
            &self.classes,
            &self.members,
            class,
            &sought,
        )
    }

    /// First in the interface, then in java/lang/Object, then in the superinterfaces.
    fn resolved_interface_method(
        &mut self,
        class: u32,
        name: &Text,
        descriptor: &Text,
    ) -> Option<Met>
        requires { IsFree (views self.old) class }
        ensures met { (c : View) → slice_get (views self.old) class ≡ Some c →
            Meets (views self.old) methods_of result
            (interface_method_resolution (views self.old) c.name
            (named name.now descriptor.now)) }
        ensures there { IfSome result (λ met. met.at.class < length self.old) }
        ensures kept { self.new ≡ self.old }
    {
        match self.method_in_itself(class, name, descriptor) {
            Some(met) => Some(met),
            None => self.inherited_interface_method(class, name, descriptor),
        }
    }

    fn method_in_itself(&self, class: u32, name: &Text, descriptor: &Text) -> Option<Met>
        ensures met { (c : View) → slice_get (views self.now) class ≡ Some c →
            Meets (views self.now) methods_of result
            (first_declared (method_in (named name.now descriptor.now))
            (option_to_list (class_of (views self.now) c.name))) }
        ensures there { IfSome result (λ met. met.at.class < length self.now) }
    {
        let sought = Sought::of(name, descriptor);
        method_at(&self.classes, &self.members, class, &sought)
    }

    fn inherited_interface_method(
        &mut self,
        class: u32,
        name: &Text,
        descriptor: &Text,
    ) -> Option<Met>
        requires { IsFree (views self.old) class }
        ensures met { (c : View) → slice_get (views self.old) class ≡ Some c →
            Meets (views self.old) methods_of result (option_or
            (first_declared (object_method_in (named name.now descriptor.now))
            (option_to_list (class_of (views self.old) object_name)))
            (from_interfaces (views self.old) c.name (named name.now descriptor.now))) }
        ensures there { IfSome result (λ met. met.at.class < length self.old) }
        ensures kept { self.new ≡ self.old }
    {
        match self.object_method(name, descriptor) {
            Some(met) => Some(met),
            None => self.superinterface_method(class, name, descriptor),
        }
    }

    fn object_method(&self, name: &Text, descriptor: &Text) -> Option<Met>
        ensures met { Meets (views self.now) methods_of result
            (first_declared (object_method_in (named name.now descriptor.now))
            (option_to_list (class_of (views self.now) object_name))) }
        ensures there { IfSome result (λ met. met.at.class < length self.now) }
    {
        let sought = Sought::of(name, descriptor);
        object_method_of(&self.classes, &self.members, self.object, &sought)
    }

    fn superinterface_method(&mut self, class: u32, name: &Text, descriptor: &Text) -> Option<Met>
        requires { IsFree (views self.old) class }
        ensures met { (c : View) → slice_get (views self.old) class ≡ Some c →
            Meets (views self.old) methods_of result
            (from_interfaces (views self.old) c.name (named name.now descriptor.now)) }
        ensures there { IfSome result (λ met. met.at.class < length self.old) }
        ensures kept { self.new ≡ self.old }
    {
        let sought = Sought::of(name, descriptor);
        from_superinterfaces(
            &mut self.search,
            &self.supertypes,
            &self.classes,
            &self.members,
            &mut self.candidates,
            class,
            &sought,
        )
    }
}
