//! Messages about the faults of a source.

use crate::telling::tell;
use command_parts::status::{Fault, Status};
use command_parts::visible::visible_text;
use instruct::Profile;
use pal_asm::PalFault;
use pal_diagnostics::push_faults;
use std::alloc::{AllocError, Global};

/// The message about a source that assembles to no words.
pub const NO_WORD: &str = "the source generates no word: `pdp8 list` shows what it contains
";

/// Names of files as they are shown to people.
///
/// # Errors
///
/// `AllocError` if memory was refused.
pub fn visible_names(alloc: Global, names: &[&str]) -> Result<Vec<String>, AllocError> {
    let mut shown = Vec::new(alloc);
    for name in names {
        shown
            .push(visible_text(alloc, name)?)
            .map_err(|_| AllocError)?;
    }
    Ok(shown)
}

/// The same names as slices.
///
/// # Errors
///
/// `AllocError` if memory was refused.
pub fn name_slices<'n>(alloc: Global, names: &'n [String]) -> Result<Vec<&'n str>, AllocError> {
    names.iter().map(|name| name.as_str()).collect(alloc)
}

/// An input as it is named in a sentence.
pub fn input_name<'n>(name: &'n str) -> &'n str {
    if name == "-" { "standard input" } else { name }
}

/// An output as it is named in a sentence.
pub fn output_name<'n>(name: &'n str) -> &'n str {
    if name == "-" { "standard output" } else { name }
}

/// Writes the line of a fault about a size to standard error, and below it what is too large: the number of parts, or
/// one of the parts. Returns the status of the fault.
pub fn report_size_fault<R: Eprint>(
    rt: &R,
    alloc: Global,
    fault: PalFault,
    names: &[&str],
) -> Status {
    let status = tell(rt, Fault::Source(fault));
    let count = names.len();
    let Some(name) = names.get(fault.part.wrapping_sub(1)) else {
        let _ = eprintln!(rt;
            "TL: the source has {count} parts, and the maximum is 16\njoin some of them, without the PAUSE between them"
        );
        return status;
    };
    if let Ok(name) = visible_text(alloc, name) {
        let _ = eprintln!(rt;
            "{name}: TL: the part has more than 65536 bytes\nsplit it into parts, in order, and end each part except the last with PAUSE"
        );
    }
    status
}

/// Adds what is wrong with a source whose parts have these names.
pub(crate) fn push_source_faults(
    alloc: Global,
    lines: &mut String,
    names: &[&str],
    parts: &[&[u8]],
    profile: Profile,
) -> Result<(), AllocError> {
    let shown = visible_names(alloc, names)?;
    push_faults(alloc, lines, &name_slices(alloc, &shown)?, parts, profile)
}
