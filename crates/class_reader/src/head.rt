//! What stands between the pool and the fields: flags, name, superclass and superinterfaces.
ghost use Rattle.std.specs.Prelude.{◌≡◌};
ghost use Rattle.java_names.specs.Names.{is_text};
ghost use Rattle.class_desc.specs.ClassFile.{object_name};
ghost use Rattle.pool_reader.specs.Reading.{Gives};
ghost use Rattle.attribute_reader.specs.Items.{class_at};
ghost use Rattle.class_reader.specs.Reading.{class_flags_at, super_at, interfaces_at, head_at};

use attribute_reader::{class_name, class_names, class_of_number};
use hdr_core::{List, Text};
use pool_reader::{ClassKind, Pool, ReadErr, Reader};
use std::alloc::Global;

/// The flag of a module (JVMS 4.1).
const MODULE: u16 = 0x8000;

/// What stands between the pool and the fields.
#[derive(Drop)]
pub struct Head {
    pub flags: u16,
    pub name: Text,
    pub super_name: Option<Text>,
    pub interfaces: List<Text>,
}

fn is_object(name: &[u8]) -> bool
    ensures { result ≡ is_text name.now object_name }
{
    name == b"java/lang/Object".as_slice()
}

#[tactic(auto, unfolding(crate::specs::Reading::class_flags_at))]
fn class_flags(reader: &mut Reader<'_>) -> Result<u16, ReadErr>
    ensures { Gives (λ flags. flags) result reader.new (class_flags_at reader.old) }
{
    let at = reader.offset();
    let flags = reader.u16()?;
    if flags >= MODULE {
        return Err(ClassKind::F11.at(at));
    }
    Ok(flags)
}

/// The superclass of the class of this name: java/lang/Object alone has none.
#[tactic(auto, unfolding(crate::specs::Reading::super_at))]
fn super_name(
    reader: &mut Reader<'_>,
    alloc: Global,
    pool: &Pool<'_>,
    name: &[u8],
) -> Result<Option<Text>, ReadErr>
    ensures { Gives (λ super. super) result reader.new (super_at pool.now name.now reader.old) }
{
    let at = reader.offset();
    let number = reader.u16()?;
    if number == 0 {
        if is_object(name) {
            return Ok(None);
        }
        return Err(ClassKind::F11.at(at));
    }
    let super_name = class_of_number(pool, at, number)?;
    if is_object(name) {
        return Err(ClassKind::F11.at(at));
    }
    reader.spend(at, super_name.len())?;
    Ok(Some(Text::of(alloc, super_name)?))
}

/// The superinterfaces, their count first.
#[tactic(auto, unfolding(crate::specs::Reading::interfaces_at))]
fn interfaces(
    reader: &mut Reader<'_>,
    alloc: Global,
    pool: &Pool<'_>,
) -> Result<List<Text>, ReadErr>
    ensures { Gives (λ names. names) result reader.new (interfaces_at pool.now reader.old) }
{
    class_names(reader, alloc, pool)
}

/// The flags, the name, the superclass and the superinterfaces.
#[tactic(auto, unfolding(crate::specs::Reading::head_at))]
pub fn class_head(reader: &mut Reader<'_>, alloc: Global, pool: &Pool<'_>) -> Result<Head, ReadErr>
    ensures { Gives (λ head. head) result reader.new (head_at pool.now reader.old) }
{
    let flags = class_flags(reader)?;
    let name = class_name(reader, pool)?;
    let super_name = super_name(reader, alloc, pool, name)?;
    let interfaces = interfaces(reader, alloc, pool)?;
    Ok(Head {
        flags,
        name: Text::of(alloc, name)?,
        super_name,
        interfaces,
    })
}
