//! Annotations of a class and of what it itself declares.
ghost use Rattle.std.specs.Prelude.{◌≡◌, ◌<◌, Some, IfSome, length, slice_get};
ghost use Rattle.class_views.specs.View.{View};
ghost use Rattle.class_views.specs.Query.{ask, AnnotationsQuery, annotations_at};
ghost use Rattle.class_views.specs.Query.{FieldPart, MethodPart};
ghost use Rattle.class_views.specs.Resolution.{method_in};
ghost use Rattle.client_view.specs.Members.{Meets, declared_at, field_named_in, named};
ghost use Rattle.client_view.specs.Numbers.{views};
ghost use Rattle.client_view.specs.Replies.{client_seen, part_seen, fields_of, methods_of, Says};
ghost use Rattle.client_view.specs.Replies.{IsAnnotationsFound};

use crate::asked::{Client, Part};
use crate::members::{Met, field_named_at, method_at};
use crate::reply::Reply;
use crate::sought::Sought;
use crate::world::ClientWorld;
use hdr_core::Text;

impl ClientWorld {
    /// The class, if it and the member that is asked of are there and accessible. The caller reads
    /// the annotations in its description.
    pub fn annotations(&mut self, client: &Client, class: &Text, part: &Part) -> Reply<u32>
        ensures says { Says (views self.old)
            (IsAnnotationsFound (views self.old) class.now (part_seen part.now)) result
            (ask (views self.old) (client_seen client.now)
            (AnnotationsQuery class.now (part_seen part.now))) }
        ensures kept { self.new ≡ self.old }
    {
        match self.start(client, class) {
            Ok(number) => self.annotations_at(client, number, part),
            Err(refusal) => refusal.reply(),
        }
    }

    fn annotations_at(&mut self, client: &Client, class: u32, part: &Part) -> Reply<u32>
        ensures says { (c : View) → slice_get (views self.old) class ≡ Some c →
            Says (views self.old)
            (IsAnnotationsFound (views self.old) c.name (part_seen part.now)) result
            (annotations_at (views self.old) (client_seen client.now) c (part_seen part.now)) }
        ensures kept { self.new ≡ self.old }
    {
        match part {
            Part::Whole => Reply::Found(class),
            Part::FieldPart(name) => self.field_annotations(client, class, name),
            Part::MethodPart { name, descriptor } => {
                self.method_annotations(client, class, name, descriptor)
            }
        }
    }

    fn field_annotations(&mut self, client: &Client, class: u32, name: &Text) -> Reply<u32>
        ensures says { (c : View) → slice_get (views self.old) class ≡ Some c →
            Says (views self.old)
            (IsAnnotationsFound (views self.old) c.name (FieldPart name.now)) result
            (annotations_at (views self.old) (client_seen client.now) c (FieldPart name.now)) }
        ensures kept { self.new ≡ self.old }
    {
        let met = self.own_field(class, name);
        self.reply(client, met).class()
    }

    fn method_annotations(
        &mut self,
        client: &Client,
        class: u32,
        name: &Text,
        descriptor: &Text,
    ) -> Reply<u32>
        ensures says { (c : View) → slice_get (views self.old) class ≡ Some c →
            Says (views self.old) (IsAnnotationsFound (views self.old) c.name
            (MethodPart (named name.now descriptor.now))) result
            (annotations_at (views self.old) (client_seen client.now) c
            (MethodPart (named name.now descriptor.now))) }
        ensures kept { self.new ≡ self.old }
    {
        let met = self.own_method(class, name, descriptor);
        self.reply(client, met).class()
    }

    fn own_field(&self, class: u32, name: &Text) -> Option<Met>
        ensures met { Meets (views self.now) fields_of result
            (declared_at (views self.now) (field_named_in name.now) class) }
        ensures there { IfSome result (λ met. met.at.class < length self.now) }
    {
        field_named_at(&self.classes, &self.members, class, name)
    }

    fn own_method(&self, class: u32, name: &Text, descriptor: &Text) -> Option<Met>
        ensures met { Meets (views self.now) methods_of result
            (declared_at (views self.now) (method_in (named name.now descriptor.now)) class) }
        ensures there { IfSome result (λ met. met.at.class < length self.now) }
    {
        let sought = Sought::of(name, descriptor);
        method_at(&self.classes, &self.members, class, &sought)
    }
}
