//! Class files of a few lines: the bytes of a class with its supertypes and members.
use crate::building::append;
use hdr_core::HeldFile;
use std::alloc::Global;
use std::process::Abort;

/// The flags, the name and the descriptor of a field or a method.
pub type Member = (u16, &'static str, &'static str);

/// A class, as far as clients look at it here.
pub struct Shape {
    pub flags: u16,
    pub name: &'static str,
    /// The superclass, and behind it the superinterfaces.
    pub above: &'static [&'static str],
    pub fields: &'static [Member],
    pub methods: &'static [Member],
}

/// A class file: the entries of its pool, their count, and what stands behind the pool.
#[derive(Drop)]
struct Writer {
    pool: Vec<u8>,
    count: u16,
    body: Vec<u8>,
}

impl Writer {
    fn number(&mut self, rt: &impl Abort, number: u16) {
        append(rt, &mut self.body, &number.to_be_bytes());
    }

    /// Puts a text of at most 255 bytes into the pool, and answers its number.
    fn text(&mut self, rt: &impl Abort, text: &str) -> u16 {
        append(rt, &mut self.pool, b"\x01\0");
        append(rt, &mut self.pool, &[u8::try_from(text.len()).unwrap_or(0)]);
        append(rt, &mut self.pool, text.as_bytes());
        self.count = self.count.wrapping_add(1);
        self.count
    }

    /// Names a class behind the pool.
    fn class(&mut self, rt: &impl Abort, name: &str) {
        let text = self.text(rt, name);
        append(rt, &mut self.pool, b"\x07");
        append(rt, &mut self.pool, &text.to_be_bytes());
        self.count = self.count.wrapping_add(1);
        self.number(rt, self.count);
    }

    fn length(&mut self, rt: &impl Abort, length: usize) {
        self.number(rt, u16::try_from(length).unwrap_or(0));
    }

    /// Fields or methods, without attributes.
    fn members(&mut self, rt: &impl Abort, members: &[Member]) {
        self.length(rt, members.len());
        for (flags, name, descriptor) in members {
            self.number(rt, *flags);
            let name = self.text(rt, name);
            self.number(rt, name);
            let descriptor = self.text(rt, descriptor);
            self.number(rt, descriptor);
            self.number(rt, 0);
        }
    }
}

/// The bytes of the class file.
pub fn shape_bytes(rt: &impl Abort, alloc: Global, shape: &Shape) -> Vec<u8> {
    let mut file = Writer {
        pool: Vec::new(alloc),
        count: 0,
        body: Vec::new(alloc),
    };
    file.number(rt, shape.flags);
    file.class(rt, shape.name);
    if let [super_name, interfaces @ ..] = shape.above {
        file.class(rt, super_name);
        file.length(rt, interfaces.len());
        for name in interfaces {
            file.class(rt, name);
        }
    }
    file.members(rt, shape.fields);
    file.members(rt, shape.methods);
    file.number(rt, 0);
    let mut bytes = Vec::new(alloc);
    append(rt, &mut bytes, b"\xca\xfe\xba\xbe\0\0\0\x3d");
    append(rt, &mut bytes, &file.count.wrapping_add(1).to_be_bytes());
    append(rt, &mut bytes, &file.pool);
    append(rt, &mut bytes, &file.body);
    bytes
}

/// The files of classes in a folder, each under its name.
pub fn shape_files(
    rt: &impl Abort,
    alloc: Global,
    folder: &str,
    shapes: &[Shape],
) -> Vec<HeldFile> {
    let mut files = Vec::new(alloc);
    for shape in shapes {
        let mut path = String::from_str(alloc, folder).expect(rt, "memory");
        for part in ["/", shape.name, ".class"] {
            path.push_str(part).expect(rt, "memory");
        }
        let bytes = shape_bytes(rt, alloc, shape);
        files.push(HeldFile { path, bytes }).expect(rt, "memory");
    }
    files
}
