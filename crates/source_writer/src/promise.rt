//! A declaration as the lines of comments in a source.

use declaration::writing::{push_address, push_ranges};
use declaration::{Assertion, Declaration, PlaceAssertion, ReturnAssertion, Routine, Subject};
use instruct::Profile;
use std::alloc::{AllocError, Allocator};
use word12::Word;
use wordset::WordSet;

/// How many offsets there are, 0 to 77.
const OFFSETS: usize = 0o100;

/// Begins a line of this name.
fn begin_line<A: Allocator>(text: &mut Vec<u8, A>, name: &[u8]) -> Result<(), AllocError> {
    text.extend_from_slice(b"/: ")?;
    text.extend_from_slice(name)
}

/// Ends a line.
fn end_line<A: Allocator>(text: &mut Vec<u8, A>) -> Result<(), AllocError> {
    text.extend_from_slice(b"\n")
}

/// Adds an offset after a space, in one digit or two.
fn push_offset<A: Allocator>(text: &mut Vec<u8, A>, offset: Word) -> Result<(), AllocError> {
    let [_, _, tens, ones] = offset.to_octal();
    text.extend_from_slice(b" ")?;
    if tens != b'0' {
        text.extend_from_slice(&[tens])?;
    }
    text.extend_from_slice(&[ones])
}

/// Adds the words of a set, each after a space.
fn push_addresses<A: Allocator>(text: &mut Vec<u8, A>, set: &WordSet) -> Result<(), AllocError> {
    for at in set.iter() {
        push_address(text, at)?;
    }
    Ok(())
}

/// Adds offsets, each after a space.
fn push_offsets<A: Allocator>(text: &mut Vec<u8, A>, set: &WordSet) -> Result<(), AllocError> {
    for offset in set.iter() {
        push_offset(text, offset)?;
    }
    Ok(())
}

/// Adds a line of ranges, if there is one.
fn push_range_line<A: Allocator>(
    text: &mut Vec<u8, A>,
    name: &[u8],
    set: &WordSet,
) -> Result<(), AllocError> {
    if set.is_empty() {
        return Ok(());
    }
    begin_line(text, name)?;
    push_ranges(text, set)?;
    end_line(text)
}

/// Adds a line of addresses, if there is one.
fn push_address_line<A: Allocator>(
    text: &mut Vec<u8, A>,
    name: &[u8],
    set: &WordSet,
) -> Result<(), AllocError> {
    if set.is_empty() {
        return Ok(());
    }
    begin_line(text, name)?;
    push_addresses(text, set)?;
    end_line(text)
}

/// Adds the start, and the machine where it is not the 8/I.
fn push_start<A: Allocator>(
    text: &mut Vec<u8, A>,
    start: Word,
    profile: Profile,
) -> Result<(), AllocError> {
    begin_line(text, b"start")?;
    push_address(text, start)?;
    end_line(text)?;
    match profile {
        Profile::Pdp8I => Ok(()),
        Profile::Pdp8E => text.extend_from_slice(b"/: profile 8e\n"),
    }
}

/// Adds the lines of routines.
fn push_routines<A: Allocator>(
    text: &mut Vec<u8, A>,
    routines: &[Routine],
) -> Result<(), AllocError> {
    for routine in routines {
        begin_line(text, b"sub")?;
        push_address(text, routine.entry())?;
        text.extend_from_slice(b" body")?;
        push_ranges(text, routine.body())?;
        text.extend_from_slice(b" returns")?;
        push_own_offsets(text, routine)?;
        end_line(text)?;
    }
    Ok(())
}

/// Adds the offsets of a routine's own line.
fn push_own_offsets<A: Allocator>(
    text: &mut Vec<u8, A>,
    routine: &Routine,
) -> Result<(), AllocError> {
    for index in 0..8usize {
        let offset = Word::from_index(index);
        if routine.offsets().contains(offset) {
            push_offset(text, offset)?;
        }
    }
    Ok(())
}

/// Adds the lines of further offsets.
fn push_skips<A: Allocator, D: Allocator>(
    text: &mut Vec<u8, A>,
    declaration: &Declaration<D>,
) -> Result<(), AllocError> {
    for skips in declaration.skips() {
        begin_line(text, b"skips")?;
        push_address(text, skips.entry())?;
        push_offsets(text, skips.offsets())?;
        end_line(text)?;
    }
    Ok(())
}

/// Ends a line with an assertion.
fn end_assertion<A: Allocator>(
    text: &mut Vec<u8, A>,
    assertion: &Assertion,
) -> Result<(), AllocError> {
    match assertion.subject() {
        Subject::Accumulator => text.extend_from_slice(b" ac")?,
        Subject::Mq => text.extend_from_slice(b" mq")?,
        Subject::Link => {
            text.extend_from_slice(b" link")?;
            push_offsets(text, assertion.words())?;
            return end_line(text);
        }
        Subject::Cell(cell) => {
            text.extend_from_slice(b" cell")?;
            push_address(text, *cell)?;
        }
    }
    push_ranges(text, assertion.words())?;
    end_line(text)
}

/// Adds the lines of what is to hold at places.
fn push_holds<A: Allocator>(
    text: &mut Vec<u8, A>,
    holds: &[PlaceAssertion],
) -> Result<(), AllocError> {
    for held in holds {
        begin_line(text, b"holds")?;
        push_addresses(text, held.places())?;
        end_assertion(text, held.assertion())?;
    }
    Ok(())
}

/// Adds the lines of what is to hold at returns.
fn push_returns<A: Allocator>(
    text: &mut Vec<u8, A>,
    returns: &[ReturnAssertion],
) -> Result<(), AllocError> {
    for held in returns {
        begin_line(text, b"returns")?;
        push_address(text, held.entry())?;
        if held.offsets().count() != OFFSETS {
            push_offsets(text, held.offsets())?;
        }
        end_assertion(text, held.assertion())?;
    }
    Ok(())
}

/// Adds a declaration as lines of comments that begin with `/:`.
pub(crate) fn push_promise<A: Allocator, D: Allocator>(
    text: &mut Vec<u8, A>,
    declaration: &Declaration<D>,
) -> Result<(), AllocError> {
    push_start(text, declaration.start(), declaration.profile())?;
    push_range_line(text, b"main", declaration.main())?;
    push_routines(text, declaration.routines())?;
    push_skips(text, declaration)?;
    push_address_line(text, b"moves", declaration.moves())?;
    push_address_line(text, b"abandon", declaration.abandons())?;
    push_range_line(text, b"var", declaration.variables())?;
    push_address_line(text, b"stop", declaration.stops())?;
    push_address_line(text, b"pause", declaration.pauses())?;
    if let Some(cells) = declaration.reads() {
        begin_line(text, b"read")?;
        push_ranges(text, cells)?;
        end_line(text)?;
    }
    push_holds(text, declaration.holds())?;
    push_returns(text, declaration.returns())
}
