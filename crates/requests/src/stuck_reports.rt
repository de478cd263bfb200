//! The report on a search for a certificate that is stuck.

use crate::files::write_result;
use crate::hints::CommandFiles;
use crate::named_files::NamedFiles;
use crate::of_sources::assembled::AssembledSource;
use crate::of_sources::source_lines::push_details;
use crate::stuck::{StuckSearch, stuck_explanation};
use command_line::Destination;
use command_parts::status::Fault;
use reports::drafting::draft_page;
use reports::reporting::ReportForm;
use std::alloc::Global;
use std::rt::Files;

/// The page about what a search had found when it got stuck, with what the source, if there is one, says about the
/// addresses.
fn stuck_page<R: Files + Input>(
    rt: &R,
    alloc: Global,
    files: &CommandFiles<'_, '_>,
    stuck: &StuckSearch<'_>,
    source: Option<&AssembledSource>,
) -> Result<Vec<u8>, Fault> {
    let mut lines = Vec::new(alloc);
    push_details(alloc, &mut lines, source, &stuck_explanation(alloc, stuck)?)?;
    let names = NamedFiles::of(rt, alloc, files)?;
    Ok(draft_page(
        alloc,
        stuck.image,
        stuck.declaration,
        stuck.draft,
        stuck.at,
        ReportForm::Page,
        names.names(),
        source.map(|source| &source.notes),
        &lines,
    )?)
}

/// Writes to a file what a search had found when it got stuck, with what the source, if there is one, says about the
/// addresses.
///
/// # Errors
///
/// `Device` if the file cannot be written, and `NoMemory` if memory was refused.
#[inline(never)]
pub fn write_stuck_report<R: Files + Input + Print>(
    rt: &R,
    alloc: Global,
    files: &CommandFiles<'_, '_>,
    stuck: &StuckSearch<'_>,
    name: &str,
    source: Option<&AssembledSource>,
) -> Result<(), Fault> {
    let page = stuck_page(rt, alloc, files, stuck, source)?;
    let _status = write_result(rt, alloc, Destination::MadeLast(name), &page)?;
    Ok(())
}
