//! Where the lines of a declaration lie in the files of a source. Those within the source are numbered on from part to
//! part.

use crate::hints::CommandFiles;
use command_parts::visible::visible_text;
use declaration::DeclarationFault;
use diagnostics::inputs::FaultyFile;
use labels::declared_lines;
use std::alloc::{AllocError, Global};

/// A line of a declaration, as it stands in its file.
#[derive(Drop)]
pub(crate) struct DeclarationLine<'t> {
    /// The name of the file as it is shown, or a phrase for all parts of a source together.
    pub(crate) name: String,
    /// The line's number in the file, from 1; 0 if no line is meant.
    pub(crate) line: usize,
    /// The declaration, from the lines of that file on.
    bytes: &'t [u8],
}

/// The name that is given if no line, and so none of several parts, is meant.
const ALL_PARTS: &str = "the source";

/// The name of the part, and the line in it, that this line number of the declaration within a source stands for. Number 0 stands for
/// no line and, if there are several parts, for the whole source.
fn part_line<'n>(
    alloc: Global,
    names: &[&'n str],
    parts: &[&[u8]],
    number: usize,
) -> Result<(&'n str, usize), AllocError> {
    if number == 0 && names.len() > 1 {
        return Ok((ALL_PARTS, 0));
    }
    let mut line = number;
    for (name, part) in names.iter().zip(parts) {
        let lines = declared_lines(alloc, &[*part])?;
        let count = lines.iter().filter(|byte| **byte == b'\n').count();
        if line <= count {
            return Ok((*name, line));
        }
        line = line.saturating_sub(count);
    }
    Ok((names.first().copied().unwrap_or("-"), number))
}

/// A text without its first `count` lines.
fn after_lines(text: &[u8], count: usize) -> &[u8] {
    let mut rest = text;
    for _ in 0..count {
        match rest.iter().position(|byte| *byte == b'\n') {
            Some(end) => rest = &rest[end + 1..],
            None => return &[],
        }
    }
    rest
}

impl<'t> DeclarationLine<'t> {
    /// The line with this number of the declaration with this text, which a file or the parts of a source have.
    pub(crate) fn of(
        alloc: Global,
        files: &CommandFiles<'_, '_>,
        parts: &[&[u8]],
        text: &'t [u8],
        number: usize,
    ) -> Result<DeclarationLine<'t>, AllocError> {
        let (name, line) = match files.names.declaration {
            Some(name) => (name, number),
            None => part_line(alloc, files.parts, parts, number)?,
        };
        Ok(DeclarationLine {
            name: visible_text(alloc, name)?,
            line,
            bytes: after_lines(text, number.saturating_sub(line)),
        })
    }

    /// The file, as messages about its lines need it.
    pub(crate) fn file(&self) -> FaultyFile<'_> {
        FaultyFile {
            name: &self.name,
            bytes: self.bytes,
        }
    }
}

/// The number of the line that a fault is about; 0 if it is not about a line.
pub(crate) fn fault_line(fault: DeclarationFault) -> usize {
    match fault {
        DeclarationFault::BadLine(number)
        | DeclarationFault::TwoStarts(number)
        | DeclarationFault::TwoProfiles(number) => number,
        _ => 0,
    }
}

/// The same fault with another line number, if it is about a line.
pub(crate) fn on_line(fault: DeclarationFault, number: usize) -> DeclarationFault {
    match fault {
        DeclarationFault::BadLine(_) => DeclarationFault::BadLine(number),
        DeclarationFault::TwoStarts(_) => DeclarationFault::TwoStarts(number),
        DeclarationFault::TwoProfiles(_) => DeclarationFault::TwoProfiles(number),
        other => other,
    }
}
