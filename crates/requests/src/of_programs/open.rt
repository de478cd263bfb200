//! Programs whose files are open, and the only way to read a program and its declaration.

use crate::files::{input_of, is_read_once};
use crate::hints::CommandFiles;
use crate::of_sources::assembled::AssembledSource;
use bin_tape::Image;
use command_line::{ProgramRequest, Task};
use command_parts::inputs::tape_from;
use command_parts::programs::{ProgramWithDeclaration, program_from};
use command_parts::status::{DeviceFault, Fault};
use either::Either;
use std::alloc::Global;
use std::io::Read;
use std::rt::Files;
use streams::standard::StdReader;

/// An input that comes from a file, or from memory.
pub(crate) type ProgramInput<'x, I> = Either<I, &'x [u8]>;

/// The contents of a declaration that is left out.
static NOTHING: &[u8] = b"";

/// A program that is open, and the request that is carried out on it. Its tape and its declaration come from files or
/// from a source that was assembled.
#[derive(Drop)]
pub(crate) struct OpenProgram<'x, 'a, R, I> {
    pub(crate) rt: &'x R,
    pub(crate) alloc: Global,
    pub(crate) files: &'x CommandFiles<'x, 'a>,
    pub(crate) request: &'x ProgramRequest<'a>,
    /// The frames of the tape.
    pub(crate) frames: ProgramInput<'x, I>,
    /// The declaration in numbers.
    pub(crate) text: ProgramInput<'x, I>,
    /// Whether there is a declaration; otherwise one is to be proposed.
    pub(crate) is_declared: bool,
    /// The source, if the program is given as one.
    pub(crate) source: Option<&'x AssembledSource>,
}

impl<'x, 'a, R, I: Read + Drop> OpenProgram<'x, 'a, R, I> {
    /// The program of a source that was assembled.
    pub(crate) fn of_source(
        rt: &'x R,
        alloc: Global,
        files: &'x CommandFiles<'x, 'a>,
        request: &'x ProgramRequest<'a>,
        source: &'x AssembledSource,
    ) -> OpenProgram<'x, 'a, R, I> {
        let text = match &request.task {
            Task::Declare { .. } => &source.shown,
            _ => &source.numbered.declaration,
        };
        OpenProgram {
            rt,
            alloc,
            files,
            request,
            frames: Either::Right(source.numbered.tape.as_slice()),
            text: Either::Right(text.as_slice()),
            is_declared: source.is_declared(),
            source: Some(source),
        }
    }

    /// The source, if an explanation is to show what it says about addresses.
    pub(crate) fn labels(&self, explained: bool) -> Option<&'x AssembledSource> {
        if explained { self.source } else { None }
    }

    /// Reads the tape and, if it has no fault, the declaration.
    ///
    /// # Errors
    ///
    /// As for `program_from`.
    pub(crate) fn read(&mut self) -> Result<ProgramWithDeclaration<Global>, Fault> {
        let mut frames = StdReader::new(&mut self.frames);
        let mut text = StdReader::new(&mut self.text);
        program_from(self.alloc, &mut frames, &mut text)
    }

    /// Reads the tape alone.
    ///
    /// # Errors
    ///
    /// As for `tape_from`.
    pub(crate) fn read_tape(&mut self) -> Result<Image, Fault> {
        tape_from(&mut StdReader::new(&mut self.frames))
    }
}

impl<'x, 'a, R: Files + Input> OpenProgram<'x, 'a, R, Either<R::Reader, R::File>> {
    /// Opens a tape, and then its declaration if there is one. A search with a report requires that both can be read
    /// twice.
    ///
    /// # Errors
    ///
    /// `Device` if a file cannot be opened, or can be read only once.
    pub(crate) fn of_tape(
        rt: &'x R,
        alloc: Global,
        files: &'x CommandFiles<'x, 'a>,
        request: &'x ProgramRequest<'a>,
        tape: &str,
    ) -> Result<OpenProgram<'x, 'a, R, Either<R::Reader, R::File>>, Fault> {
        let declaration = request.declaration;
        let is_reread = matches!(
            &request.task,
            Task::Guess {
                report: Some(_),
                ..
            }
        );
        if is_reread && (is_read_once(rt, tape) || is_read_once(rt, declaration.unwrap_or("-"))) {
            return Err(Fault::Device(DeviceFault::Read));
        }
        let frames = Either::Left(input_of(rt, tape)?);
        let text = match declaration {
            Some(name) => Either::Left(input_of(rt, name)?),
            None => Either::Right(NOTHING),
        };
        Ok(OpenProgram {
            rt,
            alloc,
            files,
            request,
            frames,
            text,
            is_declared: declaration.is_some(),
            source: None,
        })
    }
}
