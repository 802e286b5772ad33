//! Which members a client may access (JVMS 5.4.4).
ghost use Rattle.std.specs.Prelude.{◌≡◌, ◌<◌, ◌↔◌, ℕ, true, [], None, Some, IfSome, length};
ghost use Rattle.std.specs.Prelude.{slice_get};
ghost use Rattle.supertypes.specs.Ways.{IsBelow, Reaches};
ghost use Rattle.class_views.specs.View.{View};
ghost use Rattle.class_views.specs.World.{is_among, chain};
ghost use Rattle.class_views.specs.Flags.{access_of};
ghost use Rattle.class_views.specs.Access.{may_access as may_be_accessed, is_above_client};
ghost use Rattle.client_view.specs.Members.{replied};
ghost use Rattle.client_view.specs.Numbers.{views, number_of};
ghost use Rattle.client_view.specs.Replies.{client_seen};
ghost use Rattle.client_view.specs.declared.members.Met.{Met as Place};
ghost use Rattle.client_view.specs.declared.reply.Reply.TheVariants as replies;

use crate::asked::Client;
use crate::flags::{PRIVATE, PROTECTED, PUBLIC, has_flag};
use crate::members::Met;
use crate::reply::{MemberAt, Reply};
use crate::world::ClientWorld;
use hdr_core::Text;
use reachability::Rows;
use supertypes::Search;

/// Whether a class lies above another one.
fn is_strictly_above(search: &mut Search, graph: &Rows, lower: u32, upper: u32) -> bool
    requires { search.old ≡ record { classes = length graph.now; list = [] } }
    ensures is { (result ≡ true) ↔ ((upper < length graph.now) × IsBelow graph.now lower upper) }
    ensures kept { search.new ≡ search.old }
{
    search.gather(graph, &[lower]);
    let is_above = search.has(upper);
    search.forget();
    is_above
}

/// Whether a class is another one or lies above it.
fn reaches(search: &mut Search, graph: &Rows, lower: u32, upper: u32) -> bool
    requires room { search.old ≡ record { classes = length graph.now; list = [] } }
    requires few { upper < length graph.now }
    ensures is { (result ≡ true) ↔ Reaches graph.now lower upper }
    ensures kept { search.new ≡ search.old }
{
    if lower == upper {
        return true;
    }
    is_strictly_above(search, graph, lower, upper)
}

impl ClientWorld {
    /// Whether a class is the lower one, or a superclass of it, or of that one, and so on.
    fn is_on_chain(&mut self, lower: u32, upper: u32) -> bool
        requires lower { lower < length self.old }
        requires upper { upper < length self.old }
        ensures is { (c d : View) → slice_get (views self.old) lower ≡ Some c →
            slice_get (views self.old) upper ≡ Some d →
            result ≡ is_among d.name (chain (views self.old) c.name) }
        ensures kept { self.new ≡ self.old }
    {
        reaches(&mut self.search, &self.superclasses, lower, upper)
    }

    fn is_above_client(&mut self, client: &Client, class: u32) -> bool
        requires { class < length self.old }
        ensures is { (c : View) → slice_get (views self.old) class ≡ Some c →
            result ≡ is_above_client (views self.old) (client_seen client.now) c.name }
        ensures kept { self.new ≡ self.old }
    {
        match &client.super_name {
            Some(name) => self.is_above(name, class),
            None => false,
        }
    }

    /// Whether a class stands on the chain of the one of a name.
    fn is_above(&mut self, name: &Text, class: u32) -> bool
        requires { class < length self.old }
        ensures is { (c : View) → slice_get (views self.old) class ≡ Some c →
            result ≡ is_among c.name (chain (views self.old) name.now) }
        ensures kept { self.new ≡ self.old }
    {
        match self.number(name) {
            Some(lower) => self.is_on_chain(lower, class),
            None => false,
        }
    }

    /// Whether a client may access a member of these flags that the class declares.
    pub(super) fn may_access(&mut self, client: &Client, class: u32, flags: u16) -> bool
        requires { class < length self.old }
        ensures is { (c : View) → slice_get (views self.old) class ≡ Some c →
            result ≡ may_be_accessed (views self.old) (client_seen client.now) c.name
            (access_of flags) }
        ensures kept { self.new ≡ self.old }
    {
        if has_flag(PRIVATE, flags) {
            return false;
        }
        if has_flag(PUBLIC, flags) {
            return true;
        }
        if self.is_in_package(client, class) {
            return true;
        }
        has_flag(PROTECTED, flags) && self.is_above_client(client, class)
    }

    /// The member that was met, if a client may access it.
    pub(super) fn reply(&mut self, client: &Client, met: Option<Met>) -> Reply<MemberAt>
        requires { IfSome met (λ met. met.at.class < length self.old) }
        ensures none { met ≡ None → result ≡ replies.NotFound }
        ensures some { (one : Place) (c : View) → met ≡ Some one →
            slice_get (views self.old) one.at.class ≡ Some c →
            result ≡ replied (views self.old) (client_seen client.now) c one }
        ensures kept { self.new ≡ self.old }
    {
        let Some(met) = met else {
            return Reply::NotFound;
        };
        if self.may_access(client, met.at.class, met.flags) {
            Reply::Found(met.at)
        } else {
            Reply::NotAccessible {
                declarer: met.at.class,
            }
        }
    }
}
