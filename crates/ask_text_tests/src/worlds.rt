//! What a client finds of each kind, by its place: the lines of `ask` have names alone.
ghost use Rattle.std.specs.Prelude.{◌≡◌, true};
ghost use Rattle.client_view.specs.Indexed.{HaveFewMembers};

use crate::building::{class, field, method, text};
use class_desc::{Attr, ClassDesc, FieldDesc, MethodDesc, Value};
use client_view::{Client, ClientWorld, MemberAt, Part, Reply};
use std::alloc::Global;
use std::process::Abort;

fn have_few_members(classes: &[ClassDesc]) -> bool
    ensures { result ≡ true → HaveFewMembers classes.now }
{
    for class in classes {
        if class.fields.len() > 100 || class.methods.len() > 100 {
            return false;
        }
    }
    true
}

/// A constant x.
fn fields(rt: &impl Abort, alloc: Global) -> Vec<FieldDesc> {
    let mut attributes = Vec::new(alloc);
    attributes
        .push(Attr::ConstantValue(Value::Integer(7)))
        .expect(rt, "memory");
    let mut fields = Vec::new(alloc);
    let x = field(rt, alloc, 0x0019, b"x", b"I", attributes);
    fields.push(x).expect(rt, "memory");
    fields
}

fn methods(rt: &impl Abort, alloc: Global) -> Vec<MethodDesc> {
    let mut methods = Vec::new(alloc);
    let m = method(rt, alloc, 0x0001, b"()V", Vec::new(alloc));
    methods.push(m).expect(rt, "memory");
    methods
}

/// An interface N with a method m, and a class A with a constant x and a method m.
fn world(rt: &impl Abort, alloc: Global) -> ClientWorld {
    let mut classes = Vec::new(alloc);
    let of_interface = methods(rt, alloc);
    let interface = class(
        rt,
        alloc,
        (0x0601, b"N", None, &[]),
        Vec::new(alloc),
        of_interface,
        Vec::new(alloc),
    );
    classes.push(interface).expect(rt, "memory");
    let (of_class, constants) = (methods(rt, alloc), fields(rt, alloc));
    let named = class(
        rt,
        alloc,
        (0x0021, b"A", None, &[]),
        constants,
        of_class,
        Vec::new(alloc),
    );
    classes.push(named).expect(rt, "memory");
    assert!(rt; classes.len() < 100);
    if have_few_members(&classes) {
        match ClientWorld::of(alloc, classes) {
            Ok(world) => world,
            Err(_) => { panic!(rt; "two of one name") }
        }
    } else {
        panic!(rt; "members")
    }
}

fn is_found(reply: Reply<MemberAt>, class: u32) -> bool {
    match reply {
        Reply::Found(at) => at.class == class && at.index == 0,
        _ => false,
    }
}

#[test]
fn each_kind_is_found(rt: HostRuntime) {
    let alloc = rt.alloc();
    let mut world = world(&rt, alloc);
    let client = Client {
        package: text(&rt, alloc, b""),
        super_name: None,
    };
    let (a, n) = (text(&rt, alloc, b"A"), text(&rt, alloc, b"N"));
    let (x, int) = (text(&rt, alloc, b"x"), text(&rt, alloc, b"I"));
    let (m, unit) = (text(&rt, alloc, b"m"), text(&rt, alloc, b"()V"));
    assert!(rt; matches!(world.class_at(&client, &a), Reply::Found(1)));
    assert!(rt; matches!(world.supers(&client, &a), Reply::Found(1)));
    assert!(rt; is_found(world.field(&client, &a, &x, &int), 1));
    assert!(rt; is_found(world.method(&client, &a, &m, &unit), 1));
    assert!(rt; is_found(world.interface_method(&client, &n, &m, &unit), 0));
    assert!(rt; is_found(world.constant(&client, &a, &x), 1));
    assert!(rt;
        matches!(
            world.annotations(&client, &a, &Part::Whole),
            Reply::Found(1)
        )
    );
    let part = Part::FieldPart(x);
    assert!(rt; matches!(world.annotations(&client, &a, &part), Reply::Found(1)));
    let part = Part::MethodPart {
        name: m,
        descriptor: unit,
    };
    assert!(rt; matches!(world.annotations(&client, &a, &part), Reply::Found(1)));
}
