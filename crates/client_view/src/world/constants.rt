//! Constants of fields that a class itself declares.
ghost use Rattle.std.specs.Prelude.{◌≡◌, ◌<◌, IfSome, length};
ghost use Rattle.class_views.specs.Query.{ask, ConstantQuery};
ghost use Rattle.client_view.specs.Members.{Meets, declared_at, constant_in_class};
ghost use Rattle.client_view.specs.Numbers.{views};
ghost use Rattle.client_view.specs.Replies.{client_seen, fields_of, Says, IsConstantFound};

use crate::asked::Client;
use crate::members::{Met, constant_at};
use crate::reply::{MemberAt, Reply};
use crate::world::ClientWorld;
use hdr_core::Text;

impl ClientWorld {
    /// The first final field of a name that the class itself declares with a constant, which the
    /// caller reads in its description.
    pub fn constant(&mut self, client: &Client, class: &Text, name: &Text) -> Reply<MemberAt>
        ensures says { Says (views self.old)
            (IsConstantFound (views self.old) class.now name.now) result
            (ask (views self.old) (client_seen client.now) (ConstantQuery class.now name.now)) }
        ensures kept { self.new ≡ self.old }
    {
        match self.start(client, class) {
            Ok(number) => {
                let met = self.own_constant(number, name);
                self.reply(client, met)
            }
            Err(refusal) => refusal.reply(),
        }
    }

    fn own_constant(&self, class: u32, name: &Text) -> Option<Met>
        ensures met { Meets (views self.now) fields_of result
            (declared_at (views self.now) (constant_in_class name.now) class) }
        ensures there { IfSome result (λ met. met.at.class < length self.now) }
    {
        constant_at(&self.classes, &self.members, class, name)
    }
}
