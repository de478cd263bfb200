//! The facts among which a run lands: those at an address, and the exits of a routine for an offset.

ghost use Rattle.std.specs.Prelude.{◌<◌};

use word12::Word;
use wordset::WordSet;

/// The facts at an address of a body, with the sites that they have by the rules.
///
/// Contracts see them as the list that `facts_of` gives.
#[derive(Drop)]
pub struct AddressFacts<'a, C> {
    pub claims: &'a C,
    pub at: Word,
    /// The sites of the routine whose body has the address.
    pub sites: &'a WordSet,
    /// The line that is looked at first.
    pub near: usize,
}

/// The exits of a routine for an offset, with the sites that they have by the rules.
///
/// Contracts see them as the list that `exits_for` gives.
#[derive(Drop)]
pub struct OffsetExits<'a, C> {
    pub claims: &'a C,
    pub entry: Word,
    pub offset: usize,
    /// The sites of the routine.
    pub sites: &'a WordSet,
    ghost small: { offset < 64 },
}
