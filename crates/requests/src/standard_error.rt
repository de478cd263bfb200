//! Streams that a command line may leave out, and standard error as a sink.

ghost use Rattle.std.specs.Prelude.{◌≡◌, false, IfOk};

use crate::files::input_of;
use command_parts::status::Fault;
use either::Either;
use std::io::{self, Printer};
use std::rt::Files;
use streams::standard::{StdReader, StdWriter};

/// The contents of an input that is left out.
static NOTHING: &[u8] = b"";

/// A sink that discards the bytes it is given.
#[derive(Clone, Copy)]
pub struct NullSink;

impl io::Write for NullSink {
    fn write(&mut self, buf: &[u8]) -> io::Result<usize> {
        Ok(buf.len())
    }

    fn flush(&mut self) -> io::Result<()> {
        Ok(())
    }
}

/// Standard error as a writer of text.
#[derive(Drop)]
pub struct StandardError<'r, R> {
    to: &'r R,
}

impl<R: Eprint> io::Write for StandardError<'_, R> {
    fn write(&mut self, buf: &[u8]) -> io::Result<usize> {
        match str::from_utf8(buf) {
            Ok(text) => self.to.eprint(text)?,
            Err(_) => return Err(io::Error::from(io::ErrorKind::InvalidData)),
        }
        Ok(buf.len())
    }

    fn flush(&mut self) -> io::Result<()> {
        Ok(())
    }
}

/// Standard error, as a sink of text.
pub fn tell_to<'r, R: Eprint>(rt: &'r R) -> StdWriter<StandardError<'r, R>>
    ensures { result.failed ≡ false }
{
    StdWriter::new(StandardError { to: rt })
}

/// Opens an input that may be left out. One that is left out gives no bytes.
///
/// # Errors
///
/// As for `open_input`.
pub fn open_input_if<R: Files + Input>(
    rt: &R,
    name: Option<&str>,
) -> Result<StdReader<Either<Either<R::Reader, R::File>, &'static [u8]>>, Fault>
    ensures { IfOk result (λ input. input.failed ≡ false) }
{
    match name {
        Some(name) => Ok(StdReader::new(Either::Left(input_of(rt, name)?))),
        None => Ok(StdReader::new(Either::Right(NOTHING))),
    }
}

/// The sink for a report: standard error if standard output is taken by something else, otherwise standard output.
pub fn report_to<'r, R: Print + Eprint>(
    rt: &'r R,
    is_taken: bool,
) -> StdWriter<Either<Printer<'r, R>, StandardError<'r, R>>>
    ensures { result.failed ≡ false }
{
    if is_taken {
        StdWriter::new(Either::Right(StandardError { to: rt }))
    } else {
        StdWriter::new(Either::Left(io::writer(rt)))
    }
}
