//! Reads sources and their declarations. This is tested, not proved.

use crate::files::open_input;
use crate::hints::CommandFiles;
use crate::of_sources::ignored::report_ignored_lines;
use crate::telling::tell_misuse;
use command_line::{Misuse, ProgramRequest, Task};
use command_parts::status::{Fault, Status};
use instruct::Profile;
use labels::declaration_within;
use std::alloc::{AllocError, Global};
use std::rt::Files;
use streams::read_at_most;
use streams::text::{Lines, Words};

/// One byte more than a part of a source may have.
const PART_READ_LIMIT: usize = 65_537;

/// One byte more than a declaration may have.
const DECLARATION_READ_LIMIT: usize = 16_385;

/// What a command does with the declaration of a source.
#[derive(Clone, Copy)]
pub(crate) enum DeclarationUse {
    /// It has none. The program is for this machine.
    Unused(Profile),
    /// It needs one.
    Needed,
    /// It proposes one for this machine if there is none, which is required if a start or a machine is named.
    Proposable { profile: Profile, is_required: bool },
    /// It only writes it, so that the source may assemble to no words.
    Written,
}

impl DeclarationUse {
    /// What a request on a program does with it.
    pub(crate) fn of(request: &ProgramRequest<'_>) -> DeclarationUse {
        let profile = match &request.task {
            Task::Verify { options, .. } => options.profile,
            Task::Declare { options, .. } => options.profile,
            Task::Place { .. } => return DeclarationUse::Written,
            _ => return DeclarationUse::Needed,
        };
        DeclarationUse::Proposable {
            profile,
            is_required: request.asked,
        }
    }
}

/// Where a declaration comes from.
#[derive(Clone, Copy, PartialEq, Eq, Debug)]
pub enum DeclarationOrigin {
    /// From a file.
    File,
    /// From lines within the source.
    Within,
    /// From nowhere: it is to be proposed.
    Proposed,
}

/// A source and its declaration with symbols, as they were read.
#[derive(Drop)]
pub struct SourceInput {
    /// The parts of the source.
    pub parts: Vec<Vec<u8>>,
    /// The declaration with its symbols.
    pub text: Vec<u8>,
    /// Where the declaration comes from.
    pub origin: DeclarationOrigin,
}

/// Reads the parts of a source in order.
fn read_parts<R: Files + Input>(
    rt: &R,
    alloc: Global,
    names: &[&str],
) -> Result<Vec<Vec<u8>>, Fault> {
    let mut parts = Vec::new(alloc);
    for name in names {
        let mut input = open_input(rt, name)?;
        let part = read_at_most(alloc, &mut input, PART_READ_LIMIT)?;
        parts.push(part).map_err(|_| Fault::NoMemory)?;
    }
    Ok(parts)
}

/// The bytes of the parts, as slices.
///
/// # Errors
///
/// `AllocError` if memory was refused.
pub fn byte_slices<'t>(alloc: Global, parts: &'t [Vec<u8>]) -> Result<Vec<&'t [u8]>, AllocError> {
    parts.iter().map(|part| part.as_slice()).collect(alloc)
}

/// Whether a declaration has anything in it besides comments.
pub(crate) fn says_something(declaration: &[u8]) -> bool {
    Lines::of(declaration).any(|line| Words::of(line).next().is_some())
}

/// A declaration that is to be proposed, in which so far only the machine is known.
fn unknown_declaration(
    alloc: Global,
    profile: Profile,
) -> Result<(Vec<u8>, DeclarationOrigin), AllocError> {
    let text: &[u8] = match profile {
        Profile::Pdp8I => b"profile 8i\n",
        Profile::Pdp8E => b"profile 8e\n",
    };
    Ok((text.to_vec(alloc)?, DeclarationOrigin::Proposed))
}

/// The declaration of a source for which no file is named, and where it comes from: its lines within the source, or one
/// that is to be proposed.
fn unnamed_declaration(
    alloc: Global,
    declared: DeclarationUse,
    parts: &[Vec<u8>],
) -> Result<(Vec<u8>, DeclarationOrigin), AllocError> {
    if let DeclarationUse::Unused(profile) = declared {
        return unknown_declaration(alloc, profile);
    }
    let text = declaration_within(alloc, &byte_slices(alloc, parts)?)?;
    match declared {
        DeclarationUse::Proposable { profile, .. } if !says_something(&text) => {
            unknown_declaration(alloc, profile)
        }
        _ => Ok((text, DeclarationOrigin::Within)),
    }
}

/// Reads the declaration of a source, that of the file if one is named, and returns where it comes from.
fn read_declaration<R: Files + Input>(
    rt: &R,
    alloc: Global,
    files: &CommandFiles<'_, '_>,
    declared: DeclarationUse,
    parts: &[Vec<u8>],
) -> Result<(Vec<u8>, DeclarationOrigin), Fault> {
    let Some(name) = files.names.declaration else {
        return Ok(unnamed_declaration(alloc, declared, parts)?);
    };
    let mut input = open_input(rt, name)?;
    let text = read_at_most(alloc, &mut input, DECLARATION_READ_LIMIT)?;
    Ok((text, DeclarationOrigin::File))
}

/// Reads a source and its declaration, or returns the status of the problem that was reported: a start or a machine is
/// named although there is a declaration.
///
/// # Errors
///
/// `Device` if a file cannot be opened or read, and `NoMemory` if memory was refused.
#[inline(never)]
pub(crate) fn read_source<R: Files + Input + Eprint>(
    rt: &R,
    alloc: Global,
    files: &CommandFiles<'_, '_>,
    declared: DeclarationUse,
) -> Result<Result<SourceInput, Status>, Fault> {
    let parts = read_parts(rt, alloc, files.parts)?;
    let (text, origin) = read_declaration(rt, alloc, files, declared, &parts)?;
    match declared {
        DeclarationUse::Proposable {
            is_required: true,
            ..
        } if origin == DeclarationOrigin::Within => {
            return Ok(Err(tell_misuse(rt, &Misuse::DeclarationAndStart)));
        }
        DeclarationUse::Unused(_) => {}
        _ => report_ignored_lines(rt, alloc, &parts, origin)?,
    }
    Ok(Ok(SourceInput {
        parts,
        text,
        origin,
    }))
}
