//! The numbers of classes by their names, and of the supertypes of each.
ghost use Rattle.std.specs.Prelude.{◌≡◌, ◌<◌, ◌^◌, ◌++◌, [], ◌∷◌, ℕ, List, IfOk, OnOk, None, Some};
ghost use Rattle.std.specs.Prelude.{Err, map};
ghost use Rattle.std.specs.Prelude.{length, option_to_list};
ghost use Rattle.std.specs.List.{filter_map};
ghost use Rattle.std.specs.BTreeMap.{get};
ghost use Rattle.std.specs.Cmp.Lexicographic.{slice_cmp};
ghost use Rattle.std.specs.Ordering.{nat_cmp};
ghost use Rattle.java_names.specs.Names.{is_text};
ghost use Rattle.class_desc.specs.ClassFile.{object_name};
ghost use Rattle.class_views.specs.World.{World, supertypes as supertypes_of};
ghost use Rattle.class_views.specs.View.{view_of_desc};
ghost use Rattle.client_view.specs.Indexed.{superclasses as superclasses_of};
ghost use Rattle.client_view.specs.Numbers.{views, number_of, noted, row_of, AreApart};
ghost use Rattle.client_view.specs.Numbers.{IsFirstRepeat};
ghost use Rattle.client_view.specs.declared.refused.ViewErr.TheVariants.{Repeated};

use crate::refused::ViewErr;
use class_desc::ClassDesc;
use hdr_core::{Memory, Text};
use reachability::Rows;
use std::alloc::Global;
use std::collections::BTreeMap;

/// The name of the class that has no superclass.
const OBJECT: &[u8] = b"java/lang/Object";

/// Notes the number of a name that isn't there yet.
fn note(
    alloc: Global,
    numbers: &mut BTreeMap<Text, u32>,
    name: &Text,
    number: u32,
) -> Result<(), ViewErr>
    ensures noted { OnOk result ((other : List ℕ) → get (slice_cmp nat_cmp) numbers.new other
        ≡ noted (get (slice_cmp nat_cmp) numbers.old other) (is_text name.now other) number) }
    ensures new { OnOk result (get (slice_cmp nat_cmp) numbers.old name.now ≡ None) }
    ensures repeated { (first second : ℕ) → result ≡ Err (Repeated first second) →
        (get (slice_cmp nat_cmp) numbers.old name.now ≡ Some first) × (second ≡ number) }
{
    if let Some(first) = numbers.get(name).copied() {
        return Err(ViewErr::Repeated {
            first,
            second: number,
        });
    }
    numbers.insert(name.copy(alloc)?, number)?;
    Ok(())
}

/// The number of each name.
pub fn numbers_of(alloc: Global, classes: &[ClassDesc]) -> Result<BTreeMap<Text, u32>, ViewErr>
    requires { length classes.now < 2 ^ 32 }
    ensures numbers { IfOk result (λ numbers. (name : List ℕ) →
        get (slice_cmp nat_cmp) numbers name ≡ number_of (views classes.now) name) }
    ensures apart { OnOk result (AreApart (views classes.now)) }
    ensures repeated { (first second : ℕ) → result ≡ Err (Repeated first second) →
        IsFirstRepeat (views classes.now) first second }
{
    let mut numbers = BTreeMap::new(alloc);
    for (index, class) in classes.iter().enumerate() {
        note(alloc, &mut numbers, &class.name, index as u32)?;
    }
    Ok(numbers)
}

/// The number of java/lang/Object, if the class is there.
pub fn object_number(alloc: Global, numbers: &BTreeMap<Text, u32>) -> Result<Option<u32>, Memory>
    ensures { IfOk result (λ object. object ≡ get (slice_cmp nat_cmp) numbers.now object_name) }
{
    let name = Text::of(alloc, OBJECT)?;
    Ok(numbers.get(&name).copied())
}

/// Puts the number of a name behind the others, if the class is there.
fn push_number(numbers: &BTreeMap<Text, u32>, name: &Text, row: &mut Vec<u32>) -> Result<(), Memory>
    ensures { OnOk result ((world : World) →
        ((name : List ℕ) → get (slice_cmp nat_cmp) numbers.now name ≡ number_of world name) →
        row.new.items ≡ row.old.items ++ filter_map (number_of world) (name.now ∷ [])) }
{
    if let Some(number) = numbers.get(name).copied() {
        row.push(number)?;
    }
    Ok(())
}

fn push_superclass(
    numbers: &BTreeMap<Text, u32>,
    class: &ClassDesc,
    row: &mut Vec<u32>,
) -> Result<(), Memory>
    ensures { OnOk result ((world : World) →
        ((name : List ℕ) → get (slice_cmp nat_cmp) numbers.now name ≡ number_of world name) →
        row.new.items ≡ row.old.items
        ++ filter_map (number_of world) (option_to_list class.now.super_name)) }
{
    match &class.super_name {
        Some(name) => push_number(numbers, name, row),
        None => Ok(()),
    }
}

fn push_superinterfaces(
    numbers: &BTreeMap<Text, u32>,
    class: &ClassDesc,
    row: &mut Vec<u32>,
) -> Result<(), Memory>
    ensures { OnOk result ((world : World) →
        ((name : List ℕ) → get (slice_cmp nat_cmp) numbers.now name ≡ number_of world name) →
        row.new.items ≡ row.old.items ++ filter_map (number_of world) class.now.interfaces) }
{
    for name in class.interfaces.items() {
        push_number(numbers, name, row)?;
    }
    Ok(())
}

/// The supertypes of each class that are there: superinterfaces first, as in a walk.
pub fn supertype_rows(
    alloc: Global,
    numbers: &BTreeMap<Text, u32>,
    classes: &[ClassDesc],
) -> Result<Rows, Memory>
    ensures { IfOk result (λ rows. (world : World) →
        ((name : List ℕ) → get (slice_cmp nat_cmp) numbers.now name ≡ number_of world name) →
        rows ≡ map (λ c. row_of world supertypes_of (view_of_desc c)) classes.now) }
{
    let mut rows = Rows::new(alloc);
    let mut row = Vec::new(alloc);
    for class in classes {
        row.clear();
        push_superinterfaces(numbers, class, &mut row)?;
        push_superclass(numbers, class, &mut row)?;
        rows.push(&row)?;
    }
    Ok(rows)
}

/// The superclass of each class, if it is there.
pub fn superclass_rows(
    alloc: Global,
    numbers: &BTreeMap<Text, u32>,
    classes: &[ClassDesc],
) -> Result<Rows, Memory>
    ensures { IfOk result (λ rows. (world : World) →
        ((name : List ℕ) → get (slice_cmp nat_cmp) numbers.now name ≡ number_of world name) →
        rows ≡ map (λ c. row_of world superclasses_of (view_of_desc c)) classes.now) }
{
    let mut rows = Rows::new(alloc);
    let mut row = Vec::new(alloc);
    for class in classes {
        row.clear();
        push_superclass(numbers, class, &mut row)?;
        rows.push(&row)?;
    }
    Ok(rows)
}
