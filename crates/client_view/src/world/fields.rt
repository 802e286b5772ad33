//! Fields (JVMS 5.4.3.2).
ghost use Rattle.std.specs.Prelude.{◌≡◌, ◌<◌, ℕ, Some, length, slice_get, [], IfSome};
ghost use Rattle.member_index.specs.Index.{IsIndexOf};
ghost use Rattle.class_views.specs.View.{View};
ghost use Rattle.class_views.specs.World.{supertypes as supertypes_of};
ghost use Rattle.class_views.specs.Query.{ask, FieldQuery};
ghost use Rattle.class_views.specs.Resolution.{field_resolution};
ghost use Rattle.client_view.specs.Indexed.{HaveFewMembers};
ghost use Rattle.client_view.specs.Members.{Meets, named};
ghost use Rattle.client_view.specs.Numbers.{views, AreApart, IsGraphOf};
ghost use Rattle.client_view.specs.Refusals.{IsFree};
ghost use Rattle.client_view.specs.Replies.{client_seen, fields_of, Says, IsMemberFound};
ghost use Rattle.client_view.specs.Sought.{meant};

use crate::asked::Client;
use crate::members::{Met, field_at, has_field};
use crate::reply::{MemberAt, Reply};
use crate::sought::Sought;
use crate::world::ClientWorld;
use class_desc::ClassDesc;
use hdr_core::Text;
use member_index::MemberIndex;
use reachability::Rows;
use supertypes::Search;

/// The field of the first class of a walk that declares it.
fn field_in_walk(
    search: &mut Search,
    graph: &Rows,
    classes: &[ClassDesc],
    index: &MemberIndex,
    start: u32,
    sought: &Sought<'_>,
) -> Option<Met>
    requires room { search.old ≡ record { classes = length classes.now; list = [] } }
    requires few { HaveFewMembers classes.now }
    requires indexed { IsIndexOf index.now classes.now }
    requires apart { AreApart (views classes.now) }
    requires graph { IsGraphOf (views classes.now) supertypes_of graph.now }
    requires free { IsFree (views classes.now) start }
    ensures met { (c : View) → slice_get (views classes.now) start ≡ Some c →
        Meets (views classes.now) fields_of result
        (field_resolution (views classes.now) c.name (meant sought.now)) }
    ensures there { IfSome result (λ met. met.at.class < length classes.now) }
    ensures kept { search.new ≡ search.old }
{
    match search.first(
        graph,
        start,
        |class| has_field(classes, index, class, sought),
    ) {
        Some(class) => field_at(classes, index, class, sought),
        None => None,
    }
}

impl ClientWorld {
    /// The field of a name and descriptor (JVMS 5.4.3.2).
    pub fn field(
        &mut self,
        client: &Client,
        class: &Text,
        name: &Text,
        descriptor: &Text,
    ) -> Reply<MemberAt>
        ensures says { Says (views self.old) (IsMemberFound (views self.old) fields_of) result
            (ask (views self.old) (client_seen client.now)
            (FieldQuery class.now (named name.now descriptor.now))) }
        ensures kept { self.new ≡ self.old }
    {
        match self.start(client, class) {
            Ok(number) => {
                let met = self.first_field(number, name, descriptor);
                self.reply(client, met)
            }
            Err(refusal) => refusal.reply(),
        }
    }

    fn first_field(&mut self, class: u32, name: &Text, descriptor: &Text) -> Option<Met>
        requires { IsFree (views self.old) class }
        ensures met { (c : View) → slice_get (views self.old) class ≡ Some c →
            Meets (views self.old) fields_of result
            (field_resolution (views self.old) c.name (named name.now descriptor.now)) }
        ensures there { IfSome result (λ met. met.at.class < length self.old) }
        ensures kept { self.new ≡ self.old }
    {
        let sought = Sought::of(name, descriptor);
        field_in_walk(
            &mut self.search,
            &self.supertypes,
            &self.classes,
            &self.members,
            class,
            &sought,
        )
    }
}
