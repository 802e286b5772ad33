//! What stays of a list, by the names of its items.
ghost use Rattle.std.specs.Prelude.{◌≡◌, ◌++◌, [], None, IfOk, OnOk, length, map, option_to_list};
ghost use Rattle.class_views.specs.Staying.{stays_in};
ghost use Rattle.ijar_strip.specs.Places.{last_place};
ghost use Rattle.ijar_strip.specs.Links.{AreValues, link_seen, begins, leads_to, names_of};
ghost use Rattle.ijar_strip.specs.Links.{places_of, begun_places, first_places, before_of, row_of};

use crate::places::Places;
use hdr_core::{Memory, Text};
use reachability::{Rows, reached};
use std::alloc::Global;

/// An item that has a name and leads to the items of other names.
#[derive(Clone, Copy)]
pub struct Link<'a> {
    /// Whether it stays, whichever items lead to it.
    pub begins: bool,
    pub name: &'a [u8],
    pub first: &'a Option<Text>,
    pub others: &'a [Text],
}

/// Writes the last place of a name, if it has one.
fn push_place(places: &Places<'_>, name: &Text, out: &mut Vec<u32>) -> Result<(), Memory>
    ensures { OnOk result (out.new.items ≡ out.old.items
        ++ option_to_list (last_place places.now name.now)) }
{
    if let Some(place) = places.last(name.bytes()) {
        out.push(place)?;
    }
    Ok(())
}

fn push_others(places: &Places<'_>, names: &[Text], out: &mut Vec<u32>) -> Result<(), Memory>
    ensures { OnOk result (out.new.items ≡ out.old.items ++ places_of places.now names.now) }
{
    for name in names {
        push_place(places, name, out)?;
    }
    Ok(())
}

/// Writes the last places of the names to which an item leads.
fn push_places(places: &Places<'_>, link: &Link<'_>, out: &mut Vec<u32>) -> Result<(), Memory>
    ensures { OnOk result (out.new.items ≡ out.old.items
        ++ places_of places.now (link_seen link.now).leads) }
{
    if let Some(first) = link.first {
        push_place(places, first, out)?;
    }
    push_others(places, link.others, out)
}

/// Writes the place before of an item's name, and the places to which the item leads.
fn push_row(
    places: &Places<'_>,
    before: Option<u32>,
    link: &Link<'_>,
    row: &mut Vec<u32>,
) -> Result<(), Memory>
    ensures { OnOk result (row.new.items ≡ option_to_list before
        ++ places_of places.now (link_seen link.now).leads) }
{
    row.clear();
    if let Some(before) = before {
        row.push(before)?;
    }
    push_places(places, link, row)
}

/// The names of all items, and for each item the place before of its name.
fn placed<'a>(alloc: Global, links: &[Link<'a>]) -> Result<(Places<'a>, Vec<Option<u32>>), Memory>
    ensures names { IfOk result (λ r. r.0 ≡ names_of (map link_seen links.now)) }
    ensures befores { IfOk result (λ r.
        AreValues (before_of (map link_seen links.now)) None (length links.now) r.1.items) }
{
    let mut places = Places::new(alloc);
    let mut befores = Vec::with_capacity(alloc, links.len())?;
    for link in links {
        befores.push(places.push(link.name)?)?;
    }
    Ok((places, befores))
}

/// Writes the places to which an item leads that begins.
fn push_begun(places: &Places<'_>, link: &Link<'_>, out: &mut Vec<u32>) -> Result<(), Memory>
    ensures { OnOk result (out.new.items ≡ out.old.items
        ++ begun_places places.now (link_seen link.now)) }
{
    if link.begins {
        push_places(places, link, out)?;
    }
    Ok(())
}

/// The graph over the places of the items, and the places to which items lead that begin.
///
/// An item leads to the last places of the names, and each place to the one before of its name.
fn graph(alloc: Global, links: &[Link<'_>]) -> Result<(Rows, Vec<u32>), Memory>
    ensures rows { IfOk result (λ g.
        AreValues (row_of (map link_seen links.now)) [] (length links.now) g.0) }
    ensures begun { IfOk result (λ g. g.1.items ≡ first_places (map link_seen links.now)) }
{
    let (places, befores) = placed(alloc, links)?;
    let mut rows = Rows::new(alloc);
    let mut row = Vec::new(alloc);
    let mut begun = Vec::new(alloc);
    for (index, link) in links.iter().enumerate() {
        push_row(&places, befores[index], link, &mut row)?;
        rows.push(&row)?;
        push_begun(&places, link, &mut begun)?;
    }
    Ok((rows, begun))
}

/// For each item whether it stays: whether it begins, or one that stays leads to its name.
pub fn staying(alloc: Global, links: &[Link<'_>]) -> Result<Vec<bool>, Memory>
    ensures { IfOk result (λ stays.
        stays.items ≡ map (stays_in begins leads_to (map link_seen links.now))
        (map link_seen links.now)) }
{
    let (rows, begun) = graph(alloc, links)?;
    let marks = reached(alloc, &rows, &begun)?;
    let mut stays = Vec::with_capacity(alloc, links.len())?;
    for (index, link) in links.iter().enumerate() {
        let marked = marks[index];
        stays.push(link.begins || marked)?;
    }
    Ok(stays)
}
