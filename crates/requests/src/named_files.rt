//! What a report says about a program and its files. This is tested, not proved.

use crate::files::{READ_LIMIT, bytes_of};
use crate::hints::CommandFiles;
use crate::source_faults::input_name;
use command_parts::visible::visible_text;
use jiff::Timestamp;
use jiff::civil::Date;
use jiff::tz::TimeZone;
use reports::reporting::PageNames;
use std::alloc::{AllocError, Global};
use std::fmt::Write;
use std::fs::{self, Metadata};
use std::path::Path;
use std::rt::Files;

/// The sentence after the names of the files, which says what their sums and dates mean.
const UNITS: &str =
    ". A sum is that of the file's bytes, in octal, modulo 200000; a date is that of its last change, in UTC.";

/// The sum of the bytes of a file, modulo 65536, if the file can be read and is not longer than any input may be.
fn sum_of<R: Files + Input>(rt: &R, alloc: Global, name: &str) -> Option<u16> {
    let bytes = bytes_of(rt, alloc, name).ok()?;
    let sum = bytes
        .iter()
        .fold(0u16, |sum, byte| sum.wrapping_add(u16::from(*byte)));
    (bytes.len() < READ_LIMIT).then_some(sum)
}

/// The date of a file's last change, if it is known.
fn date_of(found: &Metadata) -> Option<Date> {
    let changed = Timestamp::try_from(found.modified().ok()?).ok()?;
    Some(changed.to_zoned(TimeZone::UTC).date())
}

/// Adds the name of a file and, for a plain file, the sum of its bytes and the date of its last change.
fn push_file<R: Files + Input>(
    rt: &R,
    alloc: Global,
    text: &mut String,
    name: &str,
) -> Result<(), AllocError> {
    text.push_str(&visible_text(alloc, input_name(name))?)?;
    let Ok(found) = fs::metadata(rt, name) else {
        return Ok(());
    };
    if name == "-" || !found.is_file() {
        return Ok(());
    }
    if let Some(sum) = sum_of(rt, alloc, name) {
        write!(text, ", sum {sum:06o}").map_err(|_| AllocError)?;
    }
    if let Some(date) = date_of(&found) {
        write!(text, ", changed {date}").map_err(|_| AllocError)?;
    }
    Ok(())
}

/// The name of a program without its folder and its ending.
fn title_of(name: &str) -> &str {
    if name == "-" {
        return input_name(name);
    }
    Path::new(name).file_stem().unwrap_or(name)
}

/// What a page says about a program and its files.
#[derive(Drop)]
pub(crate) struct NamedFiles {
    program: String,
    files: String,
}

impl NamedFiles {
    /// The names of a program's files, of its declaration and of the other inputs of a command. The plain files among
    /// them are read again for the sums of their bytes.
    pub(crate) fn of<R: Files + Input>(
        rt: &R,
        alloc: Global,
        command: &CommandFiles<'_, '_>,
    ) -> Result<NamedFiles, AllocError> {
        let inputs = command.inputs(alloc)?;
        let first = inputs.first().copied().unwrap_or("-");
        let program = visible_text(alloc, title_of(first))?;
        let mut files = String::new(alloc);
        for name in &inputs {
            files.push_str(if files.is_empty() { "Files: " } else { "; " })?;
            push_file(rt, alloc, &mut files, name)?;
        }
        files.push_str(UNITS)?;
        Ok(NamedFiles { program, files })
    }

    /// The names as a page shows them.
    pub(crate) fn names(&self) -> PageNames<'_> {
        PageNames {
            program: self.program.as_bytes(),
            files: self.files.as_bytes(),
        }
    }
}
