//! Modifiers (JLS 8.1.1, 8.3.1, 8.4.3, 8.8.3, 9.1.1, 9.4): in any order, each word once, at most
//! one of `public`, `protected` and `private`.
ghost use Rattle.std.specs.Prelude.{◌≡◌, ◌≤◌, ◌<◌, true, length, count_by, sum_by};
ghost use Rattle.std.specs.List.{list_any, flat_map};
ghost use Rattle.java_grammar.specs.Modifiers.{is_annotation, is_access, flag_of, item_flag};
ghost use Rattle.java_grammar.specs.Modifiers.{is_default_word, is_sealed_item, is_non_sealed};
ghost use Rattle.java_grammar.specs.Modifiers.{annotation_of, modifiers_of};
ghost use Rattle.type_expr_parser.specs.Reading.{Gives, Makes, Found};
ghost use Rattle.head_parser.specs.Modifiers.{keyword as keyword_line, modifier_line, each_once};
ghost use Rattle.head_parser.specs.Modifiers.{modifiers as modifiers_line, number, word_number};
ghost use Rattle.head_parser.specs.Modifiers.{has_number, is_repeated, may_be, flag_in};
ghost use Rattle.head_parser.specs.Modifiers.{checked_modifiers};

use hdr_core::List;
use java_ast::{
    ABSTRACT, AnnTree, FINAL, Modifiers, NATIVE, PRIVATE, PROTECTED, PUBLIC, STATIC, SYNCHRONIZED,
    TRANSIENT, VOLATILE,
};
use java_grammar::{Modifier, ModifierWord, Part, Reader, Sign};
use productions::{Item, annotation_comes, keyword_comes, row, sealed_comes, the_word};
use std::alloc::Global;
use type_expr_parser::{Unread, read_annotation, sign, token};

const SEALED: &[u8] = b"sealed";

const NON: &[u8] = b"non";

const SEALED_NUMBER: u32 = 12;

const NON_SEALED_NUMBER: u32 = 13;

/// A keyword that is a modifier.
#[tactic(auto, unfolding(crate::specs::Modifiers::keyword, crate::specs::Modifiers::keyword_at))]
fn keyword(reader: &mut Reader<'_>) -> Result<ModifierWord, Unread>
    ensures { Gives (λ word. word) result reader.new (keyword_line.read 0 reader.old) }
{
    match reader.part() {
        Some(Part::Modifier(word)) => {
            token(reader)?;
            Ok(word)
        }
        _ => Err(Unread::NotSpelled),
    }
}

/// A modifier.
pub struct OneModifier;

impl Item for OneModifier {
    type Tree = Modifier;

    ghost line = { modifier_line };

    #[tactic(auto, unfolding(crate::specs::Modifiers::modifier_line, crate::specs::Modifiers::keyword, crate::specs::Modifiers::sealed_line, crate::specs::Modifiers::non_sealed_line))]
    fn read(alloc: Global, reader: &mut Reader<'_>, depth: u32) -> Result<Modifier, Unread> {
        if annotation_comes(reader) {
            Ok(Modifier::Annotation(read_annotation(alloc, reader, depth)?))
        } else if keyword_comes(reader) {
            Ok(Modifier::Keyword(keyword(reader)?))
        } else if sealed_comes(reader) {
            the_word(reader, SEALED)?;
            Ok(Modifier::Sealed)
        } else {
            the_word(reader, NON)?;
            sign(reader, Sign::Minus)?;
            the_word(reader, SEALED)?;
            Ok(Modifier::NonSealed)
        }
    }
}

fn word_number(word: ModifierWord) -> u32
    ensures { result ≡ word_number word }
{
    match word {
        ModifierWord::Public => 0,
        ModifierWord::Protected => 1,
        ModifierWord::Private => 2,
        ModifierWord::Abstract => 3,
        ModifierWord::Static => 4,
        ModifierWord::Final => 5,
        ModifierWord::Transient => 6,
        ModifierWord::Volatile => 7,
        ModifierWord::Synchronized => 8,
        ModifierWord::Native => 9,
        ModifierWord::Strictfp => 10,
        ModifierWord::Default => 11,
    }
}

/// Each word has a number of its own.
fn number(modifier: &Modifier) -> u32
    ensures { result ≡ number modifier.now }
{
    match modifier {
        Modifier::Keyword(word) => word_number(*word),
        Modifier::Sealed => SEALED_NUMBER,
        Modifier::NonSealed => NON_SEALED_NUMBER,
        Modifier::Annotation(_) => 14,
    }
}

fn has_number(of: u32, items: &[Modifier]) -> bool
    ensures { result ≡ has_number of items.now }
{
    for at in 0..items.len() {
        if of == number(&items[at]) {
            return true;
        }
    }
    false
}

fn is_annotation(modifier: &Modifier) -> bool
    ensures { result ≡ is_annotation modifier.now }
{
    matches!(modifier, Modifier::Annotation(_))
}

fn is_repeated(modifier: &Modifier, behind: &[Modifier]) -> bool
    ensures { result ≡ is_repeated modifier.now behind.now }
{
    !is_annotation(modifier) && has_number(number(modifier), behind)
}

/// No word stands twice. There are fourteen words, so this looks at the items at most that often.
fn are_each_once(items: &[Modifier]) -> bool
    ensures { result ≡ each_once items.now }
{
    for at in 0..items.len() {
        if is_repeated(&items[at], &items[at + 1..]) {
            return false;
        }
    }
    true
}

fn is_access(modifier: &Modifier) -> bool
    ensures { result ≡ is_access modifier.now }
{
    match modifier {
        Modifier::Keyword(word) => matches!(
            word,
            ModifierWord::Public | ModifierWord::Protected | ModifierWord::Private
        ),
        _ => false,
    }
}

fn access_words(items: &[Modifier]) -> usize
    ensures counted { result ≡ count_by is_access items.now }
    ensures few { result ≤ length items.now }
{
    let mut count: usize = 0;
    for at in 0..items.len() {
        if is_access(&items[at]) {
            count += 1;
        }
    }
    count
}

/// The words may stand together.
fn may_be(items: &[Modifier]) -> bool
    ensures { result ≡ may_be items.now }
{
    are_each_once(items) && access_words(items) <= 1
}

/// The flag, where the word is among the items.
fn flag_in(items: &[Modifier], word: ModifierWord, flag: u16) -> u16
    ensures flag { result ≡ flag_in items.now (word_number word) flag }
    ensures few { result ≤ flag }
{
    if has_number(word_number(word), items) {
        flag
    } else {
        0
    }
}

/// The access flags of the words (JVMS 4.1, 4.5, 4.6).
#[tactic(auto, using(crate::proofs::Flags::flags_are))]
fn flags(items: &[Modifier]) -> u16
    requires { each_once items.now ≡ true }
    ensures { result ≡ sum_by item_flag items.now }
{
    let access = flag_in(items, ModifierWord::Public, PUBLIC)
        + flag_in(items, ModifierWord::Protected, PROTECTED)
        + flag_in(items, ModifierWord::Private, PRIVATE);
    let common = flag_in(items, ModifierWord::Abstract, ABSTRACT)
        + flag_in(items, ModifierWord::Static, STATIC)
        + flag_in(items, ModifierWord::Final, FINAL);
    let others = flag_in(items, ModifierWord::Transient, TRANSIENT)
        + flag_in(items, ModifierWord::Volatile, VOLATILE)
        + flag_in(items, ModifierWord::Synchronized, SYNCHRONIZED)
        + flag_in(items, ModifierWord::Native, NATIVE);
    access + common + others
}

/// The annotations among the items, which take their place.
fn annotations(alloc: Global, items: List<Modifier>) -> Result<List<AnnTree>, Unread>
    ensures { Makes result (flat_map annotation_of items) }
{
    let mut anns = Vec::new(alloc);
    for item in items.into_items() {
        if let Modifier::Annotation(annotation) = item {
            anns.push(annotation)?;
        }
    }
    Ok(List::of(anns))
}

/// What the items come to.
#[tactic(auto, using(crate::proofs::Flags::default_is, crate::proofs::Flags::sealed_is, crate::proofs::Flags::non_sealed_is))]
fn collected(alloc: Global, items: List<Modifier>) -> Result<Modifiers, Unread>
    requires { each_once items ≡ true }
    ensures { Makes result (modifiers_of items) }
{
    let flags = flags(items.items());
    let is_default = has_number(word_number(ModifierWord::Default), items.items());
    let is_sealed = has_number(SEALED_NUMBER, items.items());
    let non_sealed = has_number(NON_SEALED_NUMBER, items.items());
    let anns = annotations(alloc, items)?;
    Ok(Modifiers {
        flags,
        is_default,
        is_sealed,
        non_sealed,
        anns,
    })
}

/// What the items come to, where they may stand together.
pub fn checked(alloc: Global, items: List<Modifier>) -> Result<Modifiers, Unread>
    ensures { Found result (checked_modifiers items) }
{
    if !may_be(items.items()) {
        return Err(Unread::NotSpelled);
    }
    collected(alloc, items)
}

/// Modifiers, as many as come.
#[tactic(auto, unfolding(crate::specs::Modifiers::modifiers))]
pub fn modifiers(alloc: Global, reader: &mut Reader<'_>, depth: u32) -> Result<Modifiers, Unread>
    ensures { Gives (λ modifiers. modifiers) result reader.new
        (modifiers_line.read depth reader.old) }
{
    let items = row::<OneModifier>(alloc, reader, depth)?;
    checked(alloc, items)
}
