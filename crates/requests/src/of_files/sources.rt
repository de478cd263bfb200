//! Assembles and lists sources, and reports their faults.

use crate::files::{ResultSink, finish, open_output, open_parts};
use crate::hints::{CommandFiles, hint_line};
use crate::source_faults::{name_slices, report_size_fault, visible_names};
use crate::telling::{tell_lines, tell_with};
use command_line::Destination;
use command_parts::status::{Fault, Status};
use instruct::Profile;
use pal_asm::PalFault;
use source_commands::assembling::{assemble, list};
use std::alloc::Global;
use std::rt::Files;
use streams::standard::StdWriter;

/// What is made of a source.
#[derive(Clone, Copy)]
pub enum Product {
    /// A tape.
    Tape,
    /// A listing.
    Listing {
        /// Whether it has a table of the symbols.
        crossed: bool,
    },
}

/// Names, if they are needed.
fn names_if<'n, 's>(is_needed: bool, names: &'n [&'s str]) -> Option<&'n [&'s str]> {
    if is_needed { Some(names) } else { None }
}

/// Reports a fault of the source whose parts have these names, as they are shown, with these lines below it.
fn report_fault<R: Files + Input + Eprint>(
    rt: &R,
    alloc: Global,
    fault: PalFault,
    files: &CommandFiles<'_, '_>,
    shown: &[&str],
    lines: &str,
) -> Status {
    let status = if fault.line == 0 {
        report_size_fault(rt, alloc, fault, shown)
    } else {
        tell_with(rt, Fault::Source(fault), lines)
    };
    tell_lines(rt, &hint_line(rt, alloc, &Fault::Source(fault), files));
    status
}

/// Makes a tape or a listing of the source whose parts are in the files of a command. A fault of the source that is to be
/// explained is reported, and its status is returned, which is never `Done`.
fn translate<R: Files + Input + Print + Eprint>(
    rt: &R,
    alloc: Global,
    files: &CommandFiles<'_, '_>,
    product: Product,
    profile: Profile,
    file: &mut ResultSink<'_, R>,
) -> Result<Status, Fault> {
    let shown = visible_names(alloc, files.parts)?;
    let shown = name_slices(alloc, &shown)?;
    let mut parts = Vec::new(alloc);
    open_parts(rt, files.parts, &mut parts)?;
    let names = names_if(files.explained, &shown);
    let mut lines = String::new(alloc);
    let mut out = StdWriter::new(&mut *file);
    let answer = match product {
        Product::Tape => assemble(alloc, &mut parts, profile, names, &mut lines, &mut out),
        Product::Listing { crossed } => {
            list(
                alloc, &mut parts, profile, crossed, names, &mut lines, &mut out,
            )
        }
    };
    match &answer {
        Err(Fault::Source(fault)) if files.explained => {
            return Ok(report_fault(rt, alloc, *fault, files, &shown, &lines));
        }
        _ => {}
    }
    answer
}

/// Makes a tape or a listing of the source whose parts are in the files of a command. The file for it is opened first.
///
/// # Errors
///
/// As for `assemble` and `list`, and `Device` if a file cannot be opened, created or put in its place.
#[inline(never)]
pub fn translate_to<R: Files + Input + Print + Eprint>(
    rt: &R,
    alloc: Global,
    files: &CommandFiles<'_, '_>,
    product: Product,
    profile: Profile,
    out: Destination<'_>,
) -> Result<Status, Fault> {
    let mut file = open_output(rt, alloc, out)?;
    let status = translate(rt, alloc, files, product, profile, &mut file)?;
    if status == Status::Done {
        return finish(&mut file, status);
    }
    Ok(status)
}
