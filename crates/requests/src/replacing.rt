//! A file for a result. What is written is kept in memory until it is complete. Then it goes to a temporary file beside
//! the old one, which it replaces, so that neither a full disk nor a fault halfway loses the old contents. A file that
//! cannot be replaced is written in place, and gets its old contents back if that fails. All of this is tested, not
//! proved.

use std::alloc::{AllocError, Global};
use std::fmt::Write;
use std::fs::{self, Metadata, OpenFile, OpenOptions, Permissions};
use std::io::{self, ErrorKind, Read, Seek, Write as _};
use std::os::unix::fs::{MetadataExt, OpenOptionsExt, PermissionsExt};
use std::path::Path;
use std::rt::Files;

/// How many symbolic links are followed from one to the next.
const MAX_LINKS: u32 = 40;

/// The mode of a temporary file that is to get the mode of an old file: nobody else may open it before.
const PRIVATE_MODE: u32 = 0o600;

/// The mode of a new file, from which the system takes what the user withholds.
const NEW_MODE: u32 = 0o666;

/// Where the system gives random bytes.
static RANDOM_PATH: &str = "/dev/urandom";

/// A temporary file beside another file, which is removed unless it has replaced that file.
struct TemporaryFile<'r, R: Files> {
    rt: &'r R,
    /// Its name, which is empty once it has replaced the other file.
    name: String,
}

impl<R: Files> Drop for TemporaryFile<'_, R> {
    fn drop(self) {
        if !self.name.is_empty() {
            let _ = fs::remove_file(self.rt, &self.name);
        }
        let TemporaryFile { rt: _, name: _ } = self;
    }
}

/// The I/O error for memory that was refused.
fn no_memory(_refused: AllocError) -> io::Error {
    io::Error::from(ErrorKind::OutOfMemory)
}

/// A number that nobody can foresee; 0 if the system gives none.
fn random_number<R: Files>(rt: &R) -> u64 {
    let mut bytes = [0; 8];
    if let Ok(mut source) = fs::open(rt, RANDOM_PATH) {
        let _ = source.read(&mut bytes);
    }
    u64::from_le_bytes(bytes)
}

/// Creates a temporary file of this mode beside the file at this path, under a name that nobody can foresee.
fn make_beside<'r, R: Files>(
    rt: &'r R,
    alloc: Global,
    path: &str,
    mode: u32,
) -> io::Result<(R::File, TemporaryFile<'r, R>)> {
    let number = random_number(rt);
    let mut name = String::new(alloc);
    write!(name, ".pdp8-{number:016x}").map_err(|_| no_memory(AllocError))?;
    let name = Path::new(path)
        .with_file_name(alloc, &name)
        .map_err(no_memory)?
        .into_string();
    let file = OpenOptions::new()
        .write(true)
        .create_new(true)
        .mode(mode)
        .open(rt, &name)?;
    Ok((file, TemporaryFile { rt, name }))
}

/// Whether a file at this path may be replaced, as far as the path tells: it is not a name that Linux gives to an open
/// stream, and does not end as that of a folder.
fn is_replaceable(path: &str) -> bool {
    let last = path.split('/').last().unwrap_or("");
    let is_stream = path.starts_with("/dev/fd/") || path.starts_with("/proc/");
    !is_stream && !last.is_empty() && last != "." && last != ".."
}

/// The path of the plain file with this name, or of nothing yet, after all symbolic links; `None` if no temporary file
/// may replace what is there.
fn place_of<R: Files>(rt: &R, alloc: Global, name: &str) -> Result<Option<String>, AllocError> {
    let mut path = String::from_str(alloc, name)?;
    for _ in 0..MAX_LINKS {
        if !is_replaceable(&path) {
            return Ok(None);
        }
        match fs::symlink_metadata(rt, &path) {
            Ok(found) if found.is_symlink() => {}
            Ok(found) if !found.is_file() => return Ok(None),
            _ => return Ok(Some(path)),
        }
        let Ok(target) = rt.read_link(alloc, &path) else {
            return Ok(None);
        };
        let target = target.into_string();
        path = Path::new(&path)
            .with_file_name(alloc, &target)?
            .into_string();
    }
    Ok(None)
}

/// What is known of the file with this name, which must be one that can be written; `None` if there is no such file.
fn old_file<R: Files>(rt: &R, name: &str) -> io::Result<Option<Metadata>> {
    match OpenOptions::new().write(true).open(rt, name) {
        Ok(file) => Ok(Some(file.metadata()?)),
        Err(error) if error.kind() == ErrorKind::NotFound => Ok(None),
        Err(error) => Err(error),
    }
}

/// Why the file with this name cannot be created or written, if that is so and a temporary file may replace it.
pub(crate) fn write_error<R: Files>(rt: &R, alloc: Global, name: &str) -> Option<io::Error> {
    let mut file = ResultFile::new(rt, alloc, name).ok()?;
    if name == "-" || file.path.is_none() {
        return None;
    }
    file.check().err()
}

/// Gives an open temporary file the permissions of the file that it is to replace. It must already have the same owner
/// and group.
fn copy_permissions<F: OpenFile>(file: &F, old: &Metadata) -> io::Result<()> {
    let made = file.metadata()?;
    if made.uid() != old.uid() || made.gid() != old.gid() {
        return Err(io::Error::from(ErrorKind::PermissionDenied));
    }
    file.set_permissions(Permissions::from_mode(old.mode() & 0o7777))
}

/// Replaces the file at this path, if there is one, by a file with these bytes, which are on the disk by then.
fn replace<R: Files>(
    rt: &R,
    alloc: Global,
    path: &str,
    old: &Option<Metadata>,
    bytes: &[u8],
) -> io::Result<()> {
    let mode = if old.is_some() {
        PRIVATE_MODE
    } else {
        NEW_MODE
    };
    let (mut file, mut beside) = make_beside(rt, alloc, path, mode)?;
    if let Some(old) = old {
        copy_permissions(&file, old)?;
    }
    file.write_all(bytes)?;
    file.sync_all()?;
    drop(file);
    fs::rename(rt, &beside.name, path)?;
    beside.name.clear();
    Ok(())
}

/// Writes these bytes over the contents of an open file.
fn overwrite<F: io::Write + Seek + OpenFile>(file: &mut F, bytes: &[u8]) -> io::Result<()> {
    file.rewind()?;
    file.write_all(bytes)?;
    file.set_len(bytes.len() as u64)?;
    file.sync_all()
}

/// Writes these bytes over the contents of the file with this name, which gets them back if that fails.
fn write_in_place<R: Files>(rt: &R, alloc: Global, name: &str, bytes: &[u8]) -> io::Result<()> {
    let mut file = OpenOptions::new().read(true).write(true).open(rt, name)?;
    let mut old = Vec::new(alloc);
    let _ = file.read_to_end(&mut old)?;
    let written = overwrite(&mut file, bytes);
    if written.is_err() {
        let _ = overwrite(&mut file, &old);
    }
    written
}

/// Whether an error says that a file cannot be replaced, so that it is to be written in place: the folder cannot be
/// written, the temporary file has another owner, or the file is a mount point.
fn is_irreplaceable(error: &io::Error) -> bool {
    matches!(
        error.kind(),
        ErrorKind::PermissionDenied | ErrorKind::ReadOnlyFilesystem | ErrorKind::ResourceBusy
    )
}

/// Puts a result in the place of the plain file with this name, which is at this path, or of nothing.
fn put_at<R: Files>(rt: &R, alloc: Global, name: &str, path: &str, bytes: &[u8]) -> io::Result<()> {
    let old = old_file(rt, name)?;
    let replaced = replace(rt, alloc, path, &old, bytes);
    let is_refused = matches!(&replaced, Err(error) if is_irreplaceable(error));
    if old.is_some() && is_refused {
        return write_in_place(rt, alloc, name, bytes);
    }
    replaced
}

/// A file for a result.
#[derive(Drop)]
pub struct ResultFile<'r, R: Files> {
    rt: &'r R,
    alloc: Global,
    name: &'r str,
    /// Its path after all symbolic links, if a temporary file may replace it.
    path: Option<String>,
    /// The open file, if it may not be replaced and is open already.
    file: Option<R::File>,
    /// What was written.
    bytes: Vec<u8>,
    /// Whether the result is written in one piece, which is put in its place at once.
    pub(crate) comes_whole: bool,
    /// Whether memory was refused, which is an error of `finish`, since a write has no such error.
    lacks_memory: bool,
}

impl<'r, R: Files> ResultFile<'r, R> {
    /// The file with this name, which is not touched yet.
    ///
    /// # Errors
    ///
    /// `AllocError` if memory was refused.
    pub fn new(rt: &'r R, alloc: Global, name: &'r str) -> Result<ResultFile<'r, R>, AllocError> {
        Ok(ResultFile {
            rt,
            alloc,
            name,
            path: place_of(rt, alloc, name)?,
            file: None,
            bytes: Vec::new(alloc),
            comes_whole: false,
            lacks_memory: false,
        })
    }

    /// Creates or empties the file. If it may not be replaced, it stays open for writing.
    ///
    /// # Errors
    ///
    /// Any error from creating the file.
    pub fn make_empty(&mut self) -> io::Result<()> {
        let file = fs::create(self.rt, self.name)?;
        if self.path.is_none() {
            self.file = Some(file);
        }
        Ok(())
    }

    /// Checks that the file can be created or written, and leaves it as it is. If it may not be replaced, it is opened
    /// for writing.
    ///
    /// # Errors
    ///
    /// Any error from opening or creating the file, or from creating a temporary file beside it.
    pub fn check(&mut self) -> io::Result<()> {
        let Some(path) = &self.path else {
            return self.make_empty();
        };
        if old_file(self.rt, self.name)?.is_none() {
            let _made = make_beside(self.rt, self.alloc, path, PRIVATE_MODE)?;
        }
        Ok(())
    }

    /// Notes that memory was refused, if that is the error. Any other error is returned.
    fn note_memory(&mut self, done: io::Result<()>) -> io::Result<()> {
        if matches!(&done, Err(error) if error.kind() == ErrorKind::OutOfMemory) {
            self.lacks_memory = true;
            return Ok(());
        }
        done
    }

    /// Puts the completely written result in its place. If nothing was written, nothing is done.
    ///
    /// # Errors
    ///
    /// Any error from writing the result, and `OutOfMemory` if memory was refused.
    pub fn finish(&mut self) -> io::Result<()> {
        if self.lacks_memory {
            return Err(no_memory(AllocError));
        }
        if self.bytes.is_empty() {
            return Ok(());
        }
        if let Some(path) = &self.path {
            return put_at(self.rt, self.alloc, self.name, path, &self.bytes);
        }
        if self.file.is_none() {
            self.make_empty()?;
        }
        match &mut self.file {
            Some(file) => file.write_all(&self.bytes),
            None => Ok(()),
        }
    }

    /// Creates or empties the file if nothing was written.
    ///
    /// # Errors
    ///
    /// As for `make_empty`, and `OutOfMemory` if memory was refused for what was written.
    pub fn empty_if_unwritten(&mut self) -> io::Result<()> {
        if self.lacks_memory {
            return Err(no_memory(AllocError));
        }
        if self.bytes.is_empty() && self.file.is_none() {
            return self.make_empty();
        }
        Ok(())
    }
}

impl<R: Files> io::Write for ResultFile<'_, R> {
    fn write(&mut self, buf: &[u8]) -> io::Result<usize> {
        let kept = self.bytes.extend_from_slice(buf).map_err(no_memory);
        self.note_memory(kept)?;
        if self.comes_whole {
            let done = self.finish();
            self.note_memory(done)?;
        }
        Ok(buf.len())
    }

    fn flush(&mut self) -> io::Result<()> {
        Ok(())
    }
}
