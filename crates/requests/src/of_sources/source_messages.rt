//! What is reported about a source once its command has been carried out. This is tested, not proved.

use crate::hints::CommandFiles;
use crate::of_sources::assembled::AssembledSource;
use crate::of_sources::part_lines::{DeclarationLine, fault_line, on_line};
use crate::of_sources::reading::{DeclarationOrigin, byte_slices};
use crate::telling::tell_with;
use command_parts::status::{Fault, Status};
use declaration::DeclarationFault;
use diagnostics::inputs::push_fault;
use pal_text::{Ending, statements};
use std::alloc::{AllocError, Global};

/// Reports the fault of a declaration within a source, and below it where it lies and why, with the faulty line as it
/// stands there.
fn report_declaration_fault<R: Eprint>(
    rt: &R,
    alloc: Global,
    fault: &DeclarationFault,
    files: &CommandFiles<'_, '_>,
    parts: &[&[u8]],
    text: &[u8],
) -> Result<Status, AllocError> {
    let place = DeclarationLine::of(alloc, files, parts, text, fault_line(*fault))?;
    let shown = Fault::Declared(on_line(*fault, place.line));
    let mut lines = String::new(alloc);
    let _ = push_fault(&mut lines, shown, &place.file());
    Ok(tell_with(rt, Fault::Declared(*fault), &lines))
}

/// The index of the first part that ends the program with `$`.
fn ending_part(alloc: Global, parts: &[&[u8]]) -> Option<usize> {
    for (index, part) in parts.iter().enumerate() {
        if let Ok(read) = statements(alloc, part) {
            if read.ending == Ending::Dollar {
                return Some(index);
            }
        }
    }
    None
}

/// Says on standard error which parts, of which these are the names as they are shown, are ignored, because the program
/// ends before them.
fn report_ignored_parts<R: Eprint>(rt: &R, alloc: Global, names: &[String], parts: &[&[u8]]) {
    if names.len() < 2 {
        return;
    }
    let Some(index) = ending_part(alloc, parts) else {
        return;
    };
    let [name, unread, more @ ..] = names.get(index..).unwrap_or(&[]) else {
        return;
    };
    let _ = if more.is_empty() {
        eprintln!(rt; "{name} ends the program with $: {unread} is ignored")
    } else {
        eprintln!(rt; "{name} ends the program with $: {unread} and what follows are ignored")
    };
}

/// Reports which parts of a source are ignored by a command that had no fault, or in which line of the source a fault
/// lies that is to be explained. Any other fault is returned.
///
/// # Errors
///
/// The fault of the command, and `NoMemory` if memory was refused.
pub(crate) fn report_source<R: Eprint>(
    rt: &R,
    alloc: Global,
    files: &CommandFiles<'_, '_>,
    source: &AssembledSource,
    answer: Result<Status, Fault>,
) -> Result<Status, Fault> {
    let given = &source.given;
    let parts = byte_slices(alloc, &given.parts)?;
    let is_shown = files.explained && given.origin == DeclarationOrigin::Within;
    match &answer {
        Ok(_) => report_ignored_parts(rt, alloc, &source.names, &parts),
        Err(Fault::Declared(fault)) if is_shown => {
            return Ok(report_declaration_fault(rt, alloc, fault, files, &parts, &given.text)?);
        }
        Err(_) => {}
    }
    answer
}
