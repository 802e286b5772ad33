ghost use Rattle.std.specs.Prelude.{◌≡◌, ℕ, ◌≤◌, ◌^◌, List, length, IfOk, Ok};
ghost use Rattle.class_desc.specs.ClassFile.{ClassSpells};
ghost use Rattle.pool_reader.specs.Reading.{Gives, Answers, AreBytes};
ghost use Rattle.class_reader.specs.Reading.{version_at, class_over_at, file_at, class_of};

use crate::head::class_head;
use crate::member::{fields, methods};
use attribute_reader::attributes;
use class_desc::{ClassDesc, Place};
use pool_reader::{ClassKind, Pool, ReadErr, Reader};
use std::alloc::Global;

const MAGIC: u32 = 0xcafe_babe;

/// The magic, the minor and the major version.
#[tactic(auto, unfolding(crate::specs::Reading::version_at))]
fn version(reader: &mut Reader<'_>) -> Result<(u16, u16), ReadErr>
    ensures { Gives (λ version. version) result reader.new (version_at reader.old) }
{
    let magic_at = reader.offset();
    if reader.u32()? != MAGIC {
        return Err(ClassKind::F2.at(magic_at));
    }
    let minor = reader.u16()?;
    let major_at = reader.offset();
    let major = reader.u16()?;
    if major < 45 || major > 61 {
        return Err(ClassKind::F3.at(major_at));
    }
    Ok((minor, major))
}

/// The class over its pool, to the end of its attributes.
#[tactic(auto, unfolding(crate::specs::Reading::class_over_at))]
fn class_over(
    reader: &mut Reader<'_>,
    alloc: Global,
    pool: &Pool<'_>,
    minor: u16,
    major: u16,
) -> Result<ClassDesc, ReadErr>
    ensures { Gives (λ d. d) result reader.new
        (class_over_at (minor, major) pool.now reader.old) }
{
    let head = class_head(reader, alloc, pool)?;
    let fields = fields(reader, alloc, pool)?;
    let methods = methods(reader, alloc, pool)?;
    let attrs = attributes(reader, alloc, pool, Place::Class, b"")?;
    Ok(ClassDesc {
        minor,
        major,
        flags: head.flags,
        name: head.name,
        super_name: head.super_name,
        interfaces: head.interfaces,
        fields,
        methods,
        attrs,
    })
}

/// The class, to the end of its attributes.
#[tactic(auto, unfolding(crate::specs::Reading::file_at))]
fn class(reader: &mut Reader<'_>, alloc: Global) -> Result<ClassDesc, ReadErr>
    ensures { Gives (λ d. d) result reader.new (file_at reader.old) }
{
    let (minor, major) = version(reader)?;
    let pool = reader.pool(alloc)?;
    class_over(reader, alloc, &pool, minor, major)
}

/// The class that the bytes spell, or the first check that fails.
#[tactic(auto, unfolding(crate::specs::Reading::class_of))]
fn class_from(alloc: Global, bytes: &[u8]) -> Result<ClassDesc, ReadErr>
    requires { length bytes.now ≤ 2 ^ 24 }
    ensures { Answers (λ d. d) result (class_of bytes.now) }
{
    let mut reader = Reader::of(bytes);
    let class = class(&mut reader, alloc)?;
    reader.finish()?;
    Ok(class)
}

/// Reads a class file (JVMS 4.1) of JDK 1.0.2 to Java SE 17.
///
/// A fault comes just where the bytes spell no description, and is the first check that fails,
/// from front to back, at the offset of its item's first byte: where the body of an attribute is
/// shorter or longer than its items, at the offset of its length.
pub fn read_class(alloc: Global, bytes: &[u8]) -> Result<ClassDesc, ReadErr>
    requires { length bytes.now ≤ 2 ^ 24 }
    // What is read is spelled.
    ensures found { IfOk result (λ d. ClassSpells d bytes.now) }
    // What is spelled is read, unless memory runs out.
    ensures only { (d : ClassDesc) → ClassSpells d bytes.now → Answers (λ d. d) result (Ok d) }
    // Which fault it is.
    ensures exact { Answers (λ d. d) result (class_of bytes.now) }
{
    class_from(alloc, bytes)
}

/// At most one description has given bytes as a spelling.
pub fn one_description()
    ensures { (bytes : List ℕ) (d e : ClassDesc)
        → ClassSpells d bytes
        → ClassSpells e bytes
        → d ≡ e }
{}

/// Reading from front to back gives just the descriptions that the bytes spell.
pub fn reads_what_is_spelled()
    ensures spelled { (bytes : List ℕ) (d : ClassDesc)
        → AreBytes bytes
        → class_of bytes ≡ Ok d
        → ClassSpells d bytes }
    ensures read { (bytes : List ℕ) (d : ClassDesc)
        → ClassSpells d bytes
        → class_of bytes ≡ Ok d }
{}
