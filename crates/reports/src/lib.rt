//! The reports: what a certificate says, or what a search for one had found, as plain text or as a page of HTML.
#![tactic(auto)]

ghost use Rattle.reports.specs.Findings.{IsFindingTrue};

mod access;
mod cases;
mod fact_context;
mod graph;
mod items;
mod known_fact;
mod listing;
mod map;
mod page;
mod promises;
mod report;
mod routines;
mod source_notes;
mod style;
mod variables;
mod writer;

use listing::ClaimCache;
pub use page::page_below;
pub use report::{Finding, Report};
pub use source_notes::{LinePlace, SourceNote, SourceNotes};
use std::alloc::{AllocError, Allocator};
pub use style::{opening, stuck_opening};
pub use writer::ReportForm;
use writer::ReportWriter;

/// What a page says about a program and its files.
#[derive(Clone, Copy)]
pub struct PageNames<'a> {
    /// The name of the program.
    pub program: &'a [u8],
    /// A line on its files.
    pub files: &'a [u8],
}

/// The listing as plain text, as it stands below the verdict and its reason.
///
/// # Errors
///
/// Memory was refused.
pub fn listing_below<A: Allocator + Copy, D: Allocator, C: Allocator>(
    alloc: A,
    report: &Report<'_, A, D, C>,
) -> Result<Vec<u8, A>, AllocError>
    requires { IsFindingTrue report.now }
{
    let mut writer = ReportWriter::new(alloc, ReportForm::Text, &report.lines(), report.notes);
    let mut cache = ClaimCache::boxed(alloc)?;
    report.push_listing(&mut writer, &mut cache);
    writer.into_bytes()
}

pub mod drafting;
pub mod laws;
pub mod reporting;
