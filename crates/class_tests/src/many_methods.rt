//! As many methods as a file may have.
use crate::building::{class_of, method, none, text};
use class_desc::{ClassDesc, MethodDesc};
use class_reader::{ClassFault, ClassKind, ReadErr, read_class};
use class_writer::{PoolErr, write_class};
use hdr_core::List;
use std::process::Abort;

fn add<R: Abort>(rt: &R, file: &mut Vec<u8>, bytes: &[u8]) {
    file.extend_from_slice(bytes).expect(rt, "memory");
}

/// A file to the end of its pool, which has one class, A, and the 65,533 texts A, ()V, m00000,
/// m00001 and so on.
fn pool_of_names<R: Abort + AllocGlobal>(rt: &R) -> Vec<u8> {
    let mut file = Vec::new(rt.alloc());
    add(
        rt,
        &mut file,
        b"\xca\xfe\xba\xbe\0\0\0\x3d\xff\xff\x07\0\x02\x01\0\x01A\x01\0\x03()V",
    );
    for number in 0..65_531u32 {
        let entry = format!(in rt.alloc(); "\x01\0\x06m{number:05}").expect(rt, "memory");
        add(rt, &mut file, entry.as_bytes());
    }
    file
}

/// A class with as many methods as `count`, whose names are the texts of this pool from first to
/// last, and then again. The class is its own superclass, since no pool has more names.
fn file_of_methods<R: Abort + AllocGlobal>(rt: &R, pool: &[u8], count: u16) -> Vec<u8> {
    let mut file = Vec::new(rt.alloc());
    add(rt, &mut file, pool);
    add(rt, &mut file, b"\0\x21\0\x01\0\x01\0\0\0\0");
    add(rt, &mut file, &count.to_be_bytes());
    for number in 0..count {
        let name = 2 + number % 65_533;
        add(rt, &mut file, b"\0\x01");
        add(rt, &mut file, &name.to_be_bytes());
        add(rt, &mut file, b"\0\x03\0\0");
    }
    add(rt, &mut file, b"\0\0");
    file
}

#[test]
fn reads_many_methods(rt: HostRuntime) {
    let repeated = ReadErr::Fault(ClassFault {
        offset: 1_114_080,
        kind: ClassKind::F9,
    });
    let pool = pool_of_names(&rt);
    for (count, want) in [(65_533, Ok(65_533)), (65_535, Err(repeated))] {
        let file = file_of_methods(&rt, &pool, count);
        assert!(rt; file.len() <= 16_777_216);
        let read = read_class(rt.alloc(), &file).map(|class| class.methods.items().len());
        assert!(rt; read == want);
    }
}

/// Methods of the names m0, m1 and so on.
fn numbered_methods<R: Abort + AllocGlobal>(rt: &R, count: u32) -> List<MethodDesc> {
    let mut methods = Vec::new(rt.alloc());
    for number in 0..count {
        let name = format!(in rt.alloc(); "m{number}").expect(rt, "memory");
        let method = method(rt, name.as_bytes(), none(rt));
        methods.push(method).expect(rt, "memory");
    }
    List::of(methods)
}

/// What is written of a class whose pool needs five entries and one for each method.
fn written_methods<R: Abort + AllocGlobal>(rt: &R, count: u32) -> Result<Vec<u8>, PoolErr> {
    let class = ClassDesc {
        super_name: Some(text(rt, b"java/lang/Object")),
        methods: numbered_methods(rt, count),
        ..class_of(rt, none(rt))
    };
    write_class(rt.alloc(), &class)
}

#[test]
fn fills_pools(rt: HostRuntime) {
    let file = written_methods(&rt, 65_529).expect(&rt, "a file");
    assert!(rt; file.get(8..10) == Some(b"\xff\xff".as_slice()));
    let refused = written_methods(&rt, 65_530).err();
    assert!(rt; refused == Some(PoolErr::PoolFull { needed: 65_535 }));
}
