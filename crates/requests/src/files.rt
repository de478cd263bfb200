//! The files and streams that the commands work on.

ghost use Rattle.std.specs.Prelude.{◌≡◌, false, IfOk};
ghost use Rattle.std.specs.List.{AllByRecursion};

use crate::replacing::ResultFile;
use command_line::Destination;
use command_parts::status::{DeviceFault, Fault, Status};
use either::Either;
use std::alloc::Global;
use std::fs;
use std::io::{self, ErrorKind, Printer, Read};
use std::rt::Files;
use streams::standard::{StdReader, StdWriter};
use streams::{put, read_at_most};

/// The most bytes of a file that are read at once: one more than any input may have.
pub(crate) const READ_LIMIT: usize = 1_048_577;

/// The input that a name on the command line stands for: standard input for `-`, otherwise a file.
pub(crate) fn input_of<R: Files + Input>(
    rt: &R,
    name: &str,
) -> Result<Either<R::Reader, R::File>, Fault> {
    if name == "-" {
        return Ok(Either::Left(rt.reader()));
    }
    match fs::open(rt, name) {
        Ok(file) => Ok(Either::Right(file)),
        Err(_) => Err(Fault::Device(DeviceFault::Read)),
    }
}

/// Opens the input that a name on the command line stands for: standard input for `-`, otherwise a file.
///
/// # Errors
///
/// `Device` with `Read` if the file cannot be opened, as if it could not be read.
pub fn open_input<R: Files + Input>(
    rt: &R,
    name: &str,
) -> Result<StdReader<Either<R::Reader, R::File>>, Fault>
    ensures { IfOk result (λ input. input.failed ≡ false) }
{
    Ok(StdReader::new(input_of(rt, name)?))
}

/// Whether an input can be read only once: standard input, a pipe, or anything else that is neither a plain file nor a
/// folder. A file that does not exist does not count.
pub fn is_read_once<R: Files>(rt: &R, name: &str) -> bool {
    if name == "-" {
        return true;
    }
    match fs::metadata(rt, name) {
        Ok(found) => !found.is_file() && !found.is_dir(),
        Err(_) => false,
    }
}

/// The bytes of an input, of which at most `READ_LIMIT` are read.
pub(crate) fn bytes_of<R: Files + Input>(
    rt: &R,
    alloc: Global,
    name: &str,
) -> Result<Vec<u8>, Fault> {
    let mut input = open_input(rt, name)?;
    Ok(read_at_most(alloc, &mut input, READ_LIMIT)?)
}

/// The bytes of the plain file with this name, of which at most `READ_LIMIT` are read: none if there is no such file,
/// and `None` if it cannot be read.
pub(crate) fn old_bytes<R: Files + Input>(rt: &R, alloc: Global, name: &str) -> Option<Vec<u8>> {
    let is_plain = fs::metadata(rt, name).is_ok_and(|found| found.is_file());
    if is_plain {
        bytes_of(rt, alloc, name).ok()
    } else {
        Some(Vec::new(alloc))
    }
}

/// Whether a plain file with this name exists, is not empty and, as far as its bytes show, was not written by this
/// program: it does not begin with this prefix, and differs from this text. A file that cannot be read counts too.
pub(crate) fn is_foreign<R: Files + Input>(
    rt: &R,
    alloc: Global,
    name: &str,
    prefix: &[u8],
    text: &[u8],
) -> bool {
    match old_bytes(rt, alloc, name) {
        Some(old) => !old.is_empty() && !old.starts_with(prefix) && *old != *text,
        None => true,
    }
}

/// Why a file cannot be opened or read, if that is so. At most `READ_LIMIT` bytes of it are read.
pub(crate) fn read_error<R: Files>(rt: &R, alloc: Global, name: &str) -> Option<io::Error> {
    let mut bytes = Vec::new(alloc);
    match fs::open(rt, name) {
        Ok(file) => {
            let mut input = file.take(READ_LIMIT as u64);
            input.read_to_end(&mut bytes).err()
        }
        Err(error) => Some(error),
    }
}

/// Opens the parts of a source in order, up to the first that cannot be opened, and appends them to the parts that are
/// already open.
///
/// # Errors
///
/// As for [`open_input`], and `NoMemory` if memory was refused.
pub fn open_parts<R: Files + Input>(
    rt: &R,
    names: &[&str],
    parts: &mut Vec<StdReader<Either<R::Reader, R::File>>>,
) -> Result<(), Fault>
    requires { AllByRecursion (λ input. input.failed ≡ false) parts.old.items }
    ensures { AllByRecursion (λ input. input.failed ≡ false) parts.new.items }
{
    for name in names {
        let input = open_input(rt, name)?;
        parts.push(input).map_err(|_| Fault::NoMemory)?;
    }
    Ok(())
}

/// Where a result goes: standard output, or a file.
pub type ResultSink<'r, R> = Either<Printer<'r, R>, ResultFile<'r, R>>;

/// The fault of a result that cannot be written.
pub(crate) fn write_fault(error: &io::Error) -> Fault {
    if error.kind() == ErrorKind::OutOfMemory {
        Fault::NoMemory
    } else {
        Fault::Device(DeviceFault::Write)
    }
}

/// Opens the output for a result; `-` is standard output. The output operand of `assemble`, `guess` or `migrate` is
/// created or emptied at once. For that of any other command, it is only checked at once that it can be written. The
/// file of `-o` is not touched before its first byte is written. What is written to a file is in place after
/// [`finish`].
///
/// # Errors
///
/// `Device` with `Write` if the file cannot be created or written, and `NoMemory` if memory was refused.
pub fn open_output<'r, R: Files + Print>(
    rt: &'r R,
    alloc: Global,
    out: Destination<'r>,
) -> Result<ResultSink<'r, R>, Fault> {
    let name = out.name();
    if name == "-" {
        return Ok(Either::Left(io::writer(rt)));
    }
    let mut file = ResultFile::new(rt, alloc, name)?;
    let opened = match out {
        Destination::EmptiedFirst(_) => file.make_empty(),
        Destination::CheckedFirst(_) => file.check(),
        Destination::MadeLast(_) => Ok(()),
    };
    opened.map_err(|error| write_fault(&error))?;
    Ok(Either::Right(file))
}

/// Puts a completely written result in its place, and returns the given status. If nothing was written, nothing is done
/// to the file.
///
/// # Errors
///
/// `Device` with `Write` if the result cannot be put there, and `NoMemory` if memory was refused.
pub fn finish<R: Files + Print>(
    out: &mut ResultSink<'_, R>,
    status: Status,
) -> Result<Status, Fault> {
    if let Either::Right(file) = out {
        file.finish().map_err(|error| write_fault(&error))?;
    }
    Ok(status)
}

/// Opens an output, writes this text as the result, and puts it in its place.
///
/// # Errors
///
/// As for [`open_output`] and [`finish`], and `Device` with `Write` if the text cannot be written.
pub(crate) fn write_result<R: Files + Print>(
    rt: &R,
    alloc: Global,
    out: Destination<'_>,
    text: &[u8],
) -> Result<Status, Fault> {
    let mut file = open_output(rt, alloc, out)?;
    put(&mut StdWriter::new(&mut file), text)?;
    finish(&mut file, Status::Done)
}
