//! Carries out the requests that work on a program and its declaration, whether the program is given as a tape or as a
//! source. This is tested, not proved.

mod open;
mod searches;
mod tasks;

use crate::hints::CommandFiles;
use crate::of_programs::open::OpenProgram;
use crate::of_sources::assembled::assemble_source;
use crate::of_sources::reading::DeclarationUse;
use crate::of_sources::source_messages::report_source;
use command_line::{ProgramNames, ProgramRequest};
use command_parts::status::{Fault, Status};
use either::Either;
use std::alloc::Global;
use std::rt::Files;

/// Carries out a command on a program that is given as a source. What is known about the source has a stack frame of
/// its own, which a command on a tape does not need.
#[inline(never)]
fn answer_source<'a, R: Files + Input + Print + Eprint>(
    rt: &R,
    alloc: Global,
    files: &CommandFiles<'_, 'a>,
    request: &ProgramRequest<'a>,
) -> Result<Status, Fault> {
    let source = match assemble_source(rt, alloc, files, DeclarationUse::of(request))? {
        Ok(source) => source,
        Err(status) => return Ok(status),
    };
    let mut program: OpenProgram<'_, '_, R, Either<R::Reader, R::File>> = OpenProgram::of_source(
        rt, alloc, files, request, &source,
    );
    let answer = program.carry_out();
    report_source(rt, alloc, files, &source, answer)
}

/// Carries out a command on a program and its declaration. The tape or the parts of the source are opened first, then
/// the declaration, and then the other files of the command.
///
/// # Errors
///
/// The fault of the program, of its declaration, of another file or of the command.
#[inline(never)]
pub fn answer_program<'a, R: Files + Input + Print + Eprint>(
    rt: &R,
    alloc: Global,
    files: &CommandFiles<'_, 'a>,
    request: &ProgramRequest<'a>,
) -> Result<Status, Fault> {
    match &request.program {
        ProgramNames::Tape(tape) => {
            let mut program = OpenProgram::of_tape(rt, alloc, files, request, tape)?;
            program.carry_out()
        }
        ProgramNames::Source(_) => answer_source(rt, alloc, files, request),
    }
}
