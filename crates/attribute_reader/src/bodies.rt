//! Entries of InnerClasses and of MethodParameters (JVMS 4.7.6, 4.7.24).
ghost use Rattle.std.specs.Prelude.{◌≡◌, [], ◌∷◌, ◌++◌, map, IfOk, OnOk};
ghost use Rattle.pool_reader.specs.Reading.{Answers, Gives};
ghost use Rattle.attribute_reader.specs.Items.{growing, text_checked, class_checked, or_zero};
ghost use Rattle.attribute_reader.specs.Forms.{form_fault};
ghost use Rattle.attribute_reader.specs.Attributes.{unseen, HaveSame};
ghost use Rattle.attribute_reader.specs.Attributes.{name_or_zero_at, class_or_zero_at};
ghost use Rattle.attribute_reader.specs.Attributes.{inner_name_at, inner_class_at};
ghost use Rattle.attribute_reader.specs.Attributes.{next_inner_class_at, inner_classes_at};
ghost use Rattle.attribute_reader.specs.Attributes.{parameter_at};

use crate::forms::{Form, class_of_number};
use crate::lists::FromReader;
use class_desc::{InnerEntry, ParamEntry};
use hdr_core::{List, Text};
use pool_reader::{ClassKind, Pool, ReadErr, Reader};
use std::alloc::Global;
use std::collections::BTreeSet;
use std::marker::Model;

/// The bytes of an entry of InnerClasses.
const INNER_CLASS: usize = 8;

/// The number of a text, or 0.
#[tactic(auto, unfolding(crate::specs::Items::numbered_at))]
fn name_or_zero(
    reader: &mut Reader<'_>,
    alloc: Global,
    pool: &Pool<'_>,
) -> Result<Option<Text>, ReadErr>
    ensures { Gives (λ name. name) result reader.new (name_or_zero_at pool.now reader.old) }
{
    let at = reader.offset();
    let number = reader.u16()?;
    if number == 0 {
        reader.spend(at, 0)?;
        return Ok(None);
    }
    let text = Form::AnyText.of_number(pool, at, number)?;
    reader.spend(at, text.len())?;
    Ok(Some(Text::of(alloc, text)?))
}

/// The number of a class, or 0.
#[tactic(auto, unfolding(crate::specs::Items::numbered_at))]
fn class_or_zero(
    reader: &mut Reader<'_>,
    alloc: Global,
    pool: &Pool<'_>,
) -> Result<Option<Text>, ReadErr>
    ensures { Gives (λ name. name) result reader.new (class_or_zero_at pool.now reader.old) }
{
    let at = reader.offset();
    let number = reader.u16()?;
    if number == 0 {
        reader.spend(at, 0)?;
        return Ok(None);
    }
    let name = class_of_number(pool, at, number)?;
    reader.spend(at, name.len())?;
    Ok(Some(Text::of(alloc, name)?))
}

/// What tells the entries of InnerClasses apart.
#[derive(Clone, Copy, PartialEq, Eq, PartialOrd, Ord)]
struct InnerKey<'a> {
    name: &'a [u8],
}

/// The inner classes so far, in the order of their names: a table by hashes would be slow for
/// names that are picked so that theirs collide.
#[derive(Drop)]
struct SeenClasses<'a> {
    keys: BTreeSet<InnerKey<'a>>,
}

impl<'a> Model for SeenClasses<'a> {
    ghost use Rattle.std.specs.Prelude.{ℕ, List, map};

    ghost Value = { List (List ℕ) };

    ghost view = { λ seen. map (λ key. key.name.now) seen.keys.keys };
}

impl<'a> SeenClasses<'a> {
    fn new(alloc: Global) -> SeenClasses<'a>
        ensures { result ≡ [] }
    {
        SeenClasses {
            keys: BTreeSet::new(alloc),
        }
    }

    /// Adds a class, whose number stands at this offset. It is a fault where it was added before.
    fn add(&mut self, at: u32, name: &'a [u8]) -> Result<(), ReadErr>
        ensures unseen { Answers (λ _. tt) result (unseen at name.now self.old) }
        ensures seen { OnOk result (HaveSame self.new (self.old ++ name.now ∷ [])) }
    {
        if self.keys.insert(InnerKey { name })? {
            Ok(())
        } else {
            Err(ClassKind::F9.at(at))
        }
    }
}

/// The class of an entry, which none before it has.
#[tactic(auto, unfolding(crate::specs::Items::numbered_at))]
fn inner_name<'a>(
    reader: &mut Reader<'_>,
    pool: &Pool<'a>,
    seen: &mut SeenClasses<'a>,
) -> Result<&'a [u8], ReadErr>
    ensures name { Gives (λ name. name.now) result reader.new
        (inner_name_at pool.now seen.old reader.old) }
    ensures seen { IfOk result (λ name. HaveSame seen.new (seen.old ++ name.now ∷ [])) }
{
    let at = reader.offset();
    let number = reader.u16()?;
    let name = class_of_number(pool, at, number)?;
    seen.add(at, name)?;
    reader.spend(at, name.len())?;
    Ok(name)
}

/// An entry of another class than those before it.
#[tactic(auto, unfolding(crate::specs::Attributes::inner_class_at))]
fn inner_class<'a>(
    reader: &mut Reader<'_>,
    alloc: Global,
    pool: &Pool<'a>,
    seen: &mut SeenClasses<'a>,
) -> Result<InnerEntry, ReadErr>
    ensures entry { Gives (λ entry. entry) result reader.new
        (inner_class_at pool.now seen.old reader.old) }
    ensures seen { IfOk result (λ entry. HaveSame seen.new (seen.old ++ entry.inner ∷ [])) }
{
    let inner = inner_name(reader, pool, seen)?;
    let outer = class_or_zero(reader, alloc, pool)?;
    let name = name_or_zero(reader, alloc, pool)?;
    let flags = reader.u16()?;
    Ok(InnerEntry {
        inner: Text::of(alloc, inner)?,
        outer,
        name,
        flags,
    })
}

/// As many entries as that, of which none is of the class of another.
fn inner_class_list(
    reader: &mut Reader<'_>,
    alloc: Global,
    pool: &Pool<'_>,
    count: u16,
) -> Result<List<InnerEntry>, ReadErr>
    ensures { Gives (λ entries. entries) result reader.new
        (growing (next_inner_class_at pool.now) [] count reader.old) }
{
    let most = reader.len() / INNER_CLASS;
    let mut seen = SeenClasses::new(alloc);
    let mut entries = Vec::with_capacity(alloc, usize::from(count).min(most))?;
    for _ in 0..count {
        let next = inner_class(reader, alloc, pool, &mut seen)?;
        entries.push(next)?;
    }
    Ok(List::of(entries))
}

/// The entries of InnerClasses, their count first.
#[tactic(auto, unfolding(crate::specs::Attributes::inner_classes_at))]
pub fn inner_classes(
    reader: &mut Reader<'_>,
    alloc: Global,
    pool: &Pool<'_>,
) -> Result<List<InnerEntry>, ReadErr>
    ensures { Gives (λ entries. entries) result reader.new
        (inner_classes_at pool.now reader.old) }
{
    let count = reader.u16()?;
    inner_class_list(reader, alloc, pool, count)
}

impl FromReader for ParamEntry {
    ghost read_at = { parameter_at };

    #[tactic(auto, unfolding(crate::specs::Attributes::parameter_at))]
    fn read(
        reader: &mut Reader<'_>,
        alloc: Global,
        pool: &Pool<'_>,
    ) -> Result<ParamEntry, ReadErr> {
        let name = name_or_zero(reader, alloc, pool)?;
        let flags = reader.u16()?;
        Ok(ParamEntry { name, flags })
    }
}
