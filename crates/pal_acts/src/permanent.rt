//! The permanent symbols of both profiles.

ghost use Rattle.std.specs.Prelude.{◌≡◌, IfOk, OnOk, [], map};
ghost use Rattle.indexmap.specs.IndexMap.{insert_all};
ghost use Rattle.pal_acts.specs.Values.{same};
ghost use Rattle.pal_acts.specs.Permanent.{permanent_symbols, listed};

use crate::act::Name;
use crate::symbols::SymbolTable;
use indexmap::IndexMap;
use instruct::Profile;
use std::alloc::{AllocError, Allocator};
use word12::Word;

/// How many permanent symbols the PDP-8/I has.
const COMMON: usize = 49;

/// How many the PDP-8/E has.
const ALL: usize = 56;

/// The characters and the value of each symbol, those of the PDP-8/I first.
const SYMBOLS: [([u8; 6], usize); ALL] = [
    (*b"AND   ", 0o0000),
    (*b"TAD   ", 0o1000),
    (*b"ISZ   ", 0o2000),
    (*b"DCA   ", 0o3000),
    (*b"JMS   ", 0o4000),
    (*b"JMP   ", 0o5000),
    (*b"I     ", 0o0400),
    (*b"Z     ", 0o0000),
    (*b"NOP   ", 0o7000),
    (*b"CLA   ", 0o7200),
    (*b"CLL   ", 0o7100),
    (*b"CMA   ", 0o7040),
    (*b"CML   ", 0o7020),
    (*b"RAR   ", 0o7010),
    (*b"RTR   ", 0o7012),
    (*b"RAL   ", 0o7004),
    (*b"RTL   ", 0o7006),
    (*b"IAC   ", 0o7001),
    (*b"SMA   ", 0o7500),
    (*b"SZA   ", 0o7440),
    (*b"SPA   ", 0o7510),
    (*b"SNA   ", 0o7450),
    (*b"SNL   ", 0o7420),
    (*b"SZL   ", 0o7430),
    (*b"SKP   ", 0o7410),
    (*b"OSR   ", 0o7404),
    (*b"HLT   ", 0o7402),
    (*b"CIA   ", 0o7041),
    (*b"LAS   ", 0o7604),
    (*b"STL   ", 0o7120),
    (*b"STA   ", 0o7240),
    (*b"GLK   ", 0o7204),
    (*b"ION   ", 0o6001),
    (*b"IOF   ", 0o6002),
    (*b"RSF   ", 0o6011),
    (*b"RRB   ", 0o6012),
    (*b"RFC   ", 0o6014),
    (*b"PSF   ", 0o6021),
    (*b"PCF   ", 0o6022),
    (*b"PPC   ", 0o6024),
    (*b"PLS   ", 0o6026),
    (*b"KSF   ", 0o6031),
    (*b"KCC   ", 0o6032),
    (*b"KRS   ", 0o6034),
    (*b"KRB   ", 0o6036),
    (*b"TSF   ", 0o6041),
    (*b"TCF   ", 0o6042),
    (*b"TPC   ", 0o6044),
    (*b"TLS   ", 0o6046),
    (*b"MQL   ", 0o7421),
    (*b"MQA   ", 0o7501),
    (*b"SWP   ", 0o7521),
    (*b"CAM   ", 0o7621),
    (*b"BSW   ", 0o7002),
    (*b"KCF   ", 0o6030),
    (*b"TFL   ", 0o6040),
];

/// Puts symbols with their values as words into a table, one after another.
#[inline(always)]
fn fill<A: Allocator + Copy>(
    table: &mut SymbolTable<A>,
    symbols: &[([u8; 6], usize)],
) -> Result<(), AllocError>
    ensures { OnOk result (table.new.entries ≡
        insert_all same table.old.entries (map listed symbols.now)) }
{
    for (letters, value) in symbols {
        table.insert(Name { letters: *letters }, Word::from_index(*value % 4096))?;
    }
    Ok(())
}

/// A table of symbols with their values as words.
fn table_of<A: Allocator + Copy>(
    alloc: A,
    symbols: &[([u8; 6], usize)],
) -> Result<SymbolTable<A>, AllocError>
    ensures { IfOk result (λ table. table.entries ≡ insert_all same [] (map listed symbols.now)) }
{
    let mut table = IndexMap::with_capacity(alloc, symbols.len())?;
    fill(&mut table, symbols)?;
    Ok(table)
}

/// The permanent symbols of a profile, each with its value.
///
/// # Errors
///
/// Memory was refused.
pub fn permanent_table<A: Allocator + Copy>(
    alloc: A,
    profile: Profile,
) -> Result<SymbolTable<A>, AllocError>
    ensures { IfOk result (λ table. table.entries ≡ permanent_symbols profile) }
{
    match profile {
        Profile::Pdp8I => table_of(alloc, &SYMBOLS[..COMMON]),
        Profile::Pdp8E => table_of(alloc, &SYMBOLS),
    }
}
