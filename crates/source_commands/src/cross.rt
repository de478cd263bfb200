//! The table of the symbols of a source, with what its statements do with them. This is tested, not proved.

use crate::mentions::{Mention, Role, Site};
use command_parts::sentence::Argument::Number;
use command_parts::sentence::push_sentence;
use labels::Tags;
use pal_acts::{Name, SymbolTable};
use std::alloc::{AllocError, Allocator};
use word12::Word;

/// A symbol of a source, and its value.
#[derive(Clone, Copy)]
pub struct Entry {
    /// The symbol.
    pub name: Name,
    /// Its value.
    pub value: Word,
}

/// What may be done with a symbol, in the order in which a line shows it, and the text before the first place where it
/// is done.
const ROLES: [(Role, &str); 9] = [
    (Role::Defines, "  line "),
    (Role::Calls, "; called "),
    (Role::JumpsTo, "; jump "),
    (Role::Points, "; pointer "),
    (Role::Sets, "; set "),
    (Role::Counts, "; counted "),
    (Role::Reads, "; read "),
    (Role::Holds, "; word "),
    (Role::Computes, "; used in line "),
];

/// What is needed to name places: the source's own symbols, its tags, and how many parts it has.
#[derive(Clone, Copy)]
pub struct PlaceNames<'s, A: Allocator + Copy> {
    /// The symbols.
    pub own: &'s SymbolTable<A>,
    /// The tags.
    pub tags: &'s Tags<A>,
    /// How many parts there are.
    pub parts: usize,
}

/// Adds where something is done: the number of the line, with that of its part if there are several, or the address by
/// its tag.
fn push_site<A: Allocator + Copy>(
    alloc: A,
    places: &PlaceNames<'_, A>,
    site: Site,
    text: &mut Vec<u8, A>,
) -> Result<(), AllocError> {
    match site {
        Site::Line(place) => {
            let is_one = places.parts <= 1;
            let template = if is_one { "{}" } else { "{} of part {}" };
            push_sentence(text, template, &[Number(place.line), Number(place.part)])
        }
        Site::Word(at) => places.tags.push_name(alloc, places.own, at, text),
    }
}

/// Adds the places where one thing is done with a symbol, each place once; nothing if there are none.
fn push_role<A: Allocator + Copy>(
    alloc: A,
    places: &PlaceNames<'_, A>,
    role: Role,
    title: &str,
    mentions: &[Mention],
    text: &mut Vec<u8, A>,
) -> Result<(), AllocError> {
    let mut before = title.as_bytes();
    let mut last = None;
    for mention in mentions {
        if mention.role == role && last != Some(mention.site) {
            text.extend_from_slice(before)?;
            push_site(alloc, places, mention.site, text)?;
            before = b", ";
            last = Some(mention.site);
        }
    }
    Ok(())
}

/// The mentions of this symbol.
fn mentions_with<A: Allocator + Copy>(
    alloc: A,
    name: Name,
    mentions: &[Mention],
) -> Result<Vec<Mention, A>, AllocError> {
    let mut found = Vec::new(alloc);
    for mention in mentions {
        if mention.name == name {
            found.push(*mention)?;
        }
    }
    Ok(found)
}

/// What a line of the table says about a symbol after its value.
fn told_of<A: Allocator + Copy>(
    alloc: A,
    places: &PlaceNames<'_, A>,
    name: Name,
    mentions: &[Mention],
) -> Result<Vec<u8, A>, AllocError> {
    let own = mentions_with(alloc, name, mentions)?;
    let mut text = Vec::new(alloc);
    for (role, title) in &ROLES {
        push_role(alloc, places, *role, title, &own, &mut text)?;
    }
    Ok(text)
}

/// The symbols of a source as entries, in the order of their definition.
fn entries_of<A: Allocator + Copy>(
    alloc: A,
    own: &SymbolTable<A>,
) -> Result<Vec<Entry, A>, AllocError> {
    let mut entries = Vec::new(alloc);
    for at in 0..own.len() {
        if let Some((name, value)) = own.get_index(at) {
            entries.push(Entry {
                name: *name,
                value: *value,
            })?;
        }
    }
    Ok(entries)
}

/// The table of the symbols of a source, sorted by name: for each symbol its value, and where the statements define and
/// use it.
///
/// # Errors
///
/// `AllocError` if memory was refused.
pub fn table_of<A: Allocator + Copy>(
    alloc: A,
    places: &PlaceNames<'_, A>,
    mentions: &[Mention],
) -> Result<Vec<u8, A>, AllocError> {
    let mut entries = entries_of(alloc, places.own)?;
    entries.sort_by_key(|entry| entry.name.letters)?;
    let mut text = Vec::new(alloc);
    for entry in &entries {
        text.extend_from_slice(&entry.name.letters)?;
        text.extend_from_slice(b"  ")?;
        text.extend_from_slice(&entry.value.to_octal())?;
        text.extend_from_slice(&told_of(alloc, places, entry.name, mentions)?)?;
        text.extend_from_slice(b"\n")?;
    }
    Ok(text)
}
