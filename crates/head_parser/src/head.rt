//! Heads of the five kinds of declarations of types (JLS 8.1, 8.9, 8.10, 9.1, 9.6).
ghost use Rattle.type_expr_parser.specs.Reading.{Gives};
ghost use Rattle.head_parser.specs.Heads.{class_head as class_line};
ghost use Rattle.head_parser.specs.Heads.{interface_head as interface_line};
ghost use Rattle.head_parser.specs.Heads.{enum_head as enum_line, record_head as record_line};
ghost use Rattle.head_parser.specs.Heads.{annotation_head as annotation_line, declared_line};
ghost use Rattle.head_parser.specs.Heads.{head_line};

use crate::formal::components;
use crate::modifier::modifiers;
use crate::types::{implemented, permitted, superclass, superinterfaces, type_params};
use hdr_core::{List, Text};
use java_ast::{DeclKind, Modifiers, Param, TypeParam, TypeTree};
use java_grammar::{Reader, Sign};
use productions::{the_word, word_on_line};
use std::alloc::Global;
use type_expr_parser::{Unread, comes, sign};

/// The word before the name of a record (JLS 8.10).
const RECORD: &[u8] = b"record";

/// What a head declares behind its modifiers. What its kind can't have is empty.
#[derive(Drop)]
pub struct Declared {
    pub kind: DeclKind,
    pub line: u32,
    pub name: Text,
    pub params: List<TypeParam>,
    /// The superclass, or the superinterfaces of an interface.
    pub extends: List<TypeTree>,
    pub implements: List<TypeTree>,
    pub permits: List<TypeTree>,
    pub components: List<Param>,
}

/// The head of a declaration of a class or an interface.
#[derive(Drop)]
pub struct Head {
    pub mods: Modifiers,
    pub declared: Declared,
}

#[tactic(auto, unfolding(crate::specs::Heads::class_head))]
fn class_head(alloc: Global, reader: &mut Reader<'_>, depth: u32) -> Result<Declared, Unread>
    ensures { Gives (λ x. x) result reader.new (class_line.read depth reader.old) }
{
    sign(reader, Sign::Class)?;
    let (line, name) = word_on_line(alloc, reader)?;
    let params = type_params(alloc, reader, depth)?;
    let extends = superclass(alloc, reader, depth)?;
    let implements = implemented(alloc, reader, depth)?;
    let permits = permitted(alloc, reader, depth)?;
    Ok(Declared {
        kind: DeclKind::Class,
        line,
        name,
        params,
        extends,
        implements,
        permits,
        components: List::of(Vec::new(alloc)),
    })
}

#[tactic(auto, unfolding(crate::specs::Heads::interface_head))]
fn interface_head(alloc: Global, reader: &mut Reader<'_>, depth: u32) -> Result<Declared, Unread>
    ensures { Gives (λ x. x) result reader.new (interface_line.read depth reader.old) }
{
    sign(reader, Sign::Interface)?;
    let (line, name) = word_on_line(alloc, reader)?;
    let params = type_params(alloc, reader, depth)?;
    let extends = superinterfaces(alloc, reader, depth)?;
    let permits = permitted(alloc, reader, depth)?;
    Ok(Declared {
        kind: DeclKind::Interface,
        line,
        name,
        params,
        extends,
        implements: List::of(Vec::new(alloc)),
        permits,
        components: List::of(Vec::new(alloc)),
    })
}

#[tactic(auto, unfolding(crate::specs::Heads::enum_head))]
fn enum_head(alloc: Global, reader: &mut Reader<'_>, depth: u32) -> Result<Declared, Unread>
    ensures { Gives (λ x. x) result reader.new (enum_line.read depth reader.old) }
{
    sign(reader, Sign::Enum)?;
    let (line, name) = word_on_line(alloc, reader)?;
    let implements = implemented(alloc, reader, depth)?;
    Ok(Declared {
        kind: DeclKind::Enumeration,
        line,
        name,
        params: List::of(Vec::new(alloc)),
        extends: List::of(Vec::new(alloc)),
        implements,
        permits: List::of(Vec::new(alloc)),
        components: List::of(Vec::new(alloc)),
    })
}

#[tactic(auto, unfolding(crate::specs::Heads::annotation_head))]
fn annotation_head(alloc: Global, reader: &mut Reader<'_>) -> Result<Declared, Unread>
    ensures { Gives (λ x. x) result reader.new (annotation_line.read 0 reader.old) }
{
    sign(reader, Sign::At)?;
    sign(reader, Sign::Interface)?;
    let (line, name) = word_on_line(alloc, reader)?;
    Ok(Declared {
        kind: DeclKind::Annotation,
        line,
        name,
        params: List::of(Vec::new(alloc)),
        extends: List::of(Vec::new(alloc)),
        implements: List::of(Vec::new(alloc)),
        permits: List::of(Vec::new(alloc)),
        components: List::of(Vec::new(alloc)),
    })
}

#[tactic(auto, unfolding(crate::specs::Heads::record_head))]
fn record_head(alloc: Global, reader: &mut Reader<'_>, depth: u32) -> Result<Declared, Unread>
    ensures { Gives (λ x. x) result reader.new (record_line.read depth reader.old) }
{
    the_word(reader, RECORD)?;
    let (line, name) = word_on_line(alloc, reader)?;
    let params = type_params(alloc, reader, depth)?;
    let components = components(alloc, reader, depth)?;
    let implements = implemented(alloc, reader, depth)?;
    Ok(Declared {
        kind: DeclKind::Recorded,
        line,
        name,
        params,
        extends: List::of(Vec::new(alloc)),
        implements,
        permits: List::of(Vec::new(alloc)),
        components,
    })
}

#[tactic(auto, unfolding(crate::specs::Heads::declared_line, crate::specs::Heads::annotation_head))]
fn behind_modifiers(alloc: Global, reader: &mut Reader<'_>, depth: u32) -> Result<Declared, Unread>
    ensures { Gives (λ x. x) result reader.new (declared_line.read depth reader.old) }
{
    if comes(reader, Sign::Class) {
        class_head(alloc, reader, depth)
    } else if comes(reader, Sign::Interface) {
        interface_head(alloc, reader, depth)
    } else if comes(reader, Sign::Enum) {
        enum_head(alloc, reader, depth)
    } else if comes(reader, Sign::At) {
        annotation_head(alloc, reader)
    } else {
        record_head(alloc, reader, depth)
    }
}

/// The head of a declaration, with its modifiers.
#[tactic(auto, unfolding(crate::specs::Heads::head_line))]
pub fn read_head(alloc: Global, reader: &mut Reader<'_>, depth: u32) -> Result<Head, Unread>
    ensures { Gives (λ x. x) result reader.new (head_line.read depth reader.old) }
{
    let mods = modifiers(alloc, reader, depth)?;
    let declared = behind_modifiers(alloc, reader, depth)?;
    Ok(Head { mods, declared })
}
