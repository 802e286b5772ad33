//! Questions about classes of as many members as a class file can have (JVMS 4.1).
ghost use Rattle.std.specs.Prelude.{◌≡◌, true};
ghost use Rattle.client_view.specs.Indexed.{HaveFewMembers};

use class_desc::{ClassDesc, FieldDesc, MethodDesc};
use client_view::{Client, ClientWorld, MemberAt, Reply};
use hdr_core::{List, Text};
use std::alloc::Global;
use std::process::Abort;

/// How many members there are.
const MOST: u32 = 65_535;

/// The members that are asked for, by their places.
const PLACES: [u32; 8] = [0, 1, 9, 10, 32_767, 32_768, 65_533, 65_534];

fn text(rt: &impl Abort, alloc: Global, bytes: &[u8]) -> Text {
    Text::of(alloc, bytes).expect(rt, "memory")
}

/// The digits of a number, the least one first: names are in another order than members.
fn name_of(rt: &impl Abort, alloc: Global, number: u32) -> Text {
    let mut bytes = Vec::new(alloc);
    let mut rest = number;
    for _ in 0..5 {
        bytes.push(b'a' + (rest % 10) as u8).expect(rt, "memory");
        rest /= 10;
    }
    text(rt, alloc, &bytes)
}

fn fields(rt: &impl Abort, alloc: Global) -> List<FieldDesc> {
    let mut fields = Vec::new(alloc);
    for number in 0..MOST {
        let field = FieldDesc {
            flags: 0x0001,
            name: name_of(rt, alloc, number),
            descriptor: text(rt, alloc, b"I"),
            attrs: List::of(Vec::new(alloc)),
        };
        fields.push(field).expect(rt, "memory");
    }
    List::of(fields)
}

fn methods(rt: &impl Abort, alloc: Global) -> List<MethodDesc> {
    let mut methods = Vec::new(alloc);
    for number in 0..MOST {
        let method = MethodDesc {
            flags: 0x0001,
            name: name_of(rt, alloc, number),
            descriptor: text(rt, alloc, b"()V"),
            attrs: List::of(Vec::new(alloc)),
        };
        methods.push(method).expect(rt, "memory");
    }
    List::of(methods)
}

fn class(
    rt: &impl Abort,
    alloc: Global,
    name: &[u8],
    fields: List<FieldDesc>,
    methods: List<MethodDesc>,
) -> ClassDesc {
    ClassDesc {
        minor: 0,
        major: 61,
        flags: 0x0021,
        name: text(rt, alloc, name),
        super_name: None,
        interfaces: List::of(Vec::new(alloc)),
        fields,
        methods,
        attrs: List::of(Vec::new(alloc)),
    }
}

/// A class of fields, and one of methods.
fn classes(rt: &impl Abort, alloc: Global) -> Vec<ClassDesc> {
    let no_methods = List::of(Vec::new(alloc));
    let no_fields = List::of(Vec::new(alloc));
    let mut classes = Vec::new(alloc);
    classes
        .push(class(rt, alloc, b"F", fields(rt, alloc), no_methods))
        .expect(rt, "memory");
    classes
        .push(class(rt, alloc, b"M", no_fields, methods(rt, alloc)))
        .expect(rt, "memory");
    classes
}

fn have_few_members(classes: &[ClassDesc]) -> bool
    ensures { result ≡ true → HaveFewMembers classes.now }
{
    for class in classes {
        if class.fields.len() > 65_535 || class.methods.len() > 65_535 {
            return false;
        }
    }
    true
}

fn world_of(rt: &impl Abort, alloc: Global, classes: Vec<ClassDesc>) -> ClientWorld {
    assert!(rt; classes.len() < 100);
    if have_few_members(&classes) {
        match ClientWorld::of(alloc, classes) {
            Ok(world) => world,
            Err(_) => { panic!(rt; "no world") }
        }
    } else {
        panic!(rt; "members")
    }
}

/// Whether the member at this place of a class is found.
fn is_found(reply: Reply<MemberAt>, class: u32, place: u32) -> bool {
    match reply {
        Reply::Found(member) => member.class == class && member.index == place,
        _ => false,
    }
}

#[test]
fn wide_classes_are_asked(rt: HostRuntime) {
    let alloc = rt.alloc();
    let mut world = world_of(&rt, alloc, classes(&rt, alloc));
    let client = Client {
        package: text(&rt, alloc, b""),
        super_name: None,
    };
    let (fields, methods) = (text(&rt, alloc, b"F"), text(&rt, alloc, b"M"));
    let (int, void) = (text(&rt, alloc, b"I"), text(&rt, alloc, b"()V"));
    for place in PLACES {
        let name = name_of(&rt, alloc, place);
        let field = world.field(&client, &fields, &name, &int);
        assert!(rt; is_found(field, 0, place));
        let method = world.method(&client, &methods, &name, &void);
        assert!(rt; is_found(method, 1, place));
    }
    let absent = name_of(&rt, alloc, MOST);
    let field = world.field(&client, &fields, &absent, &int);
    assert!(rt; matches!(field, Reply::NotFound));
    let method = world.method(&client, &methods, &absent, &void);
    assert!(rt; matches!(method, Reply::NotFound));
    let first = name_of(&rt, alloc, 0);
    let field = world.field(&client, &fields, &first, &void);
    assert!(rt; matches!(field, Reply::NotFound));
    let method = world.method(&client, &methods, &first, &int);
    assert!(rt; matches!(method, Reply::NotFound));
}
