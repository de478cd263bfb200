//! Addresses by the tags of a source.

ghost use Rattle.std.specs.Prelude.{◌≡◌, true, OnOk, Ok};
ghost use Rattle.labels.specs.Addresses.{cells_of};
ghost use Rattle.labels.specs.Tagged.{AddsName};
ghost use Rattle.labels.specs.declared.address.Cells.TheVariants.{One};

use crate::address::{Cells, cells_of};
use crate::naming::{Tag, by_tag, push_spelling, tags_of};
use pal_acts::SymbolTable;
use std::alloc::{AllocError, Allocator};
use word12::Word;

/// The tags of a source with their addresses.
#[derive(Drop)]
pub struct Tags<A: Allocator> {
    list: Vec<Tag, A>,
}

/// Whether cells are this one alone.
fn is_one(cells: Cells, at: Word) -> bool
    ensures { result ≡ true → cells ≡ One at }
{
    match cells {
        Cells::One(found) => found == at,
        Cells::Range(_, _) => false,
    }
}

/// Whether a declaration of a source with these symbols reads a word as this address.
fn names<S: Allocator + Copy>(own: &SymbolTable<S>, piece: &[u8], at: Word) -> bool
    ensures { result ≡ true → cells_of own.now.entries piece.now ≡ Ok (One at) }
{
    match cells_of(own, piece) {
        Ok(cells) => is_one(cells, at),
        Err(_) => false,
    }
}

impl<A: Allocator + Copy> Tags<A> {
    /// The tags of the parts of a source, whose own symbols these are. Which they are is only tested.
    ///
    /// # Errors
    ///
    /// Memory was refused.
    pub fn of<S: Allocator + Copy>(
        alloc: A,
        own: &SymbolTable<S>,
        parts: &[&[u8]],
    ) -> Result<Tags<A>, AllocError> {
        Ok(Tags {
            list: tags_of(alloc, own, parts)?,
        })
    }

    /// Adds an address as the last tag at it or at most 77 cells before it, of several there the first, with `+` and
    /// a number after it; without such a tag in digits.
    ///
    /// # Errors
    ///
    /// Memory was refused.
    pub fn push_name<S: Allocator + Copy>(
        &self,
        alloc: A,
        own: &SymbolTable<S>,
        at: Word,
        text: &mut Vec<u8, A>,
    ) -> Result<(), AllocError>
        // What is added is read as this address by a declaration of the source, or is the address in digits.
        ensures { OnOk result (AddsName own.now.entries at text.old.items text.new.items) }
    {
        if let Some(spelling) = by_tag(&self.list, at.index()) {
            let mut piece = Vec::new(alloc);
            push_spelling(&spelling, false, &mut piece)?;
            if names(own, &piece, at) {
                return text.extend_from_slice(&piece);
            }
        }
        text.extend_from_slice(&at.to_octal())
    }
}
