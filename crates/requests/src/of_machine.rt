//! The commands that run the program of a source, or list its words, with the symbols of the source. They are tested,
//! not proved.

pub(crate) mod places;
pub(crate) mod words;

use crate::faults::UNSUPPORTED;
use crate::hints::CommandFiles;
use crate::of_files::session_files::{hold_session_on, hold_teletype_session_on};
use crate::of_files::tapes::run_on;
use crate::of_machine::places::{ResolvedPlaces, resolve_places};
use crate::of_machine::words::{SourceStatements, words_of};
use crate::of_sources::assembled::{AssembledSource, assemble_source};
use crate::of_sources::reading::DeclarationUse;
use crate::of_sources::source_messages::report_source;
use crate::telling::{tell_lines, tell_misuse};
use command_line::{MachineTask, RunRequest, Session, SourceProgramRequest, TeletypeSession};
use command_parts::options::{RunOptions, SessionOptions, TeletypeOptions};
use command_parts::status::{Fault, Status};
use std::alloc::Global;
use std::io;
use std::rt::Files;
use streams::put;
use streams::standard::{StdReader, StdWriter};

/// The same run, with these cells shown and these stops.
fn run_of<'a>(run: &RunRequest<'a>, places: &ResolvedPlaces) -> RunRequest<'a> {
    RunRequest {
        options: RunOptions {
            show: places.show,
            ..run.options
        },
        stopping: places.stopping,
        ..*run
    }
}

/// The same run with an operator, with these cells shown and these stops.
fn session_of<'a>(session: &Session<'a>, places: &ResolvedPlaces) -> Session<'a> {
    Session {
        options: SessionOptions {
            run: RunOptions {
                show: places.show,
                ..session.options.run
            },
            ..session.options
        },
        stopping: places.stopping,
        ..*session
    }
}

/// The same session at the teletype, with these cells shown and these stops.
fn teletype_of<'a>(session: &TeletypeSession<'a>, places: &ResolvedPlaces) -> TeletypeSession<'a> {
    TeletypeSession {
        options: TeletypeOptions {
            show: places.show,
            ..session.options
        },
        stopping: places.stopping,
        ..*session
    }
}

/// Carries out the request on the program of an assembled source, with the cells and the stops that its symbols name.
#[inline(never)]
fn carry_out_machine_task<R: Files + Input + Print + Eprint>(
    rt: &R,
    alloc: Global,
    source: &AssembledSource,
    request: &SourceProgramRequest<'_>,
    at_terminal: bool,
) -> Result<Status, Fault> {
    let places = match resolve_places(source.numbered.program.symbols(), &request.places) {
        Ok(places) => places,
        Err(misuse) => return Ok(tell_misuse(rt, &misuse)),
    };
    let mut frames = StdReader::new(source.numbered.tape.as_slice());
    match &request.task {
        MachineTask::Run(run) => {
            let profile = run.options.profile;
            let statements = SourceStatements { source, profile };
            run_on(rt, alloc, &run_of(run, &places), &mut frames, &statements)
        }
        MachineTask::Session(session) => {
            hold_session_on(rt, alloc, &session_of(session, &places), &mut frames)
        }
        MachineTask::Teletype(session) => {
            let session = teletype_of(session, &places);
            hold_teletype_session_on(rt, alloc, &session, at_terminal, &mut frames)
        }
        MachineTask::Dump(dump) => {
            let image = source.numbered.program.image();
            let text = words_of(alloc, image, dump.profile, Some(&source.notes))?;
            put(&mut StdWriter::new(io::writer(rt)), &text)?;
            Ok(Status::Done)
        }
    }
}

/// Runs the program of a source, or lists its words. The parts are opened and read in order, and then the other files of
/// the command are opened.
///
/// # Errors
///
/// The fault of the source, of another file or of the command.
#[inline(never)]
pub fn answer_sourced<R: Files + Input + Print + Eprint>(
    rt: &R,
    alloc: Global,
    files: &CommandFiles<'_, '_>,
    request: &SourceProgramRequest<'_>,
    at_terminal: bool,
) -> Result<Status, Fault> {
    let declared = DeclarationUse::Unused(request.task.profile());
    let source = match assemble_source(rt, alloc, files, declared)? {
        Ok(source) => source,
        Err(status) => return Ok(status),
    };
    let status = carry_out_machine_task(rt, alloc, &source, request, at_terminal)?;
    if files.explained && status == Status::Refused {
        tell_lines(rt, UNSUPPORTED);
    }
    report_source(rt, alloc, files, &source, Ok(status))
}
