//! The command that writes what a search for a certificate had found when it was stuck.

ghost use Rattle.std.specs.Prelude.{IfOk};
ghost use Rattle.reports.specs.Pages.{HasLine, stuck_line};

use crate::reporting::below_lines;
use crate::style::push_head;
use crate::{Finding, PageNames, Report, ReportForm, SourceNotes, stuck_opening};
use bin_tape::Image;
use certificate::Certificate;
use command_parts::text::push_place;
use declaration::Declaration;
use diagnostics::verdicts::verdict::condition_name;
use reasons::{ReasonWorkspace, why_stuck};
use std::alloc::{AllocError, Allocator};
use word12::Word;

/// The line of a search that is stuck, with what comes before and right after it in a form, and the rest.
fn joined<A: Allocator>(
    alloc: A,
    form: ReportForm,
    name: &[u8],
    at: Word,
    rest: &[u8],
) -> Result<Vec<u8, A>, AllocError>
    ensures { IfOk result (λ page. HasLine (stuck_line at) page.items) }
{
    let mut page = Vec::new(alloc);
    push_head(&mut page, form, name)?;
    push_place(&mut page, b"not known: stuck at ", at)?;
    page.extend_from_slice(b"\n")?;
    page.extend_from_slice(stuck_opening(form))?;
    page.extend_from_slice(rest)?;
    Ok(page)
}

/// The report of a draft for a program that has these names, with the lines that say why the search is stuck.
///
/// # Errors
///
/// Memory was refused.
pub fn draft_page<A: Allocator + Copy, D: Allocator, C: Allocator>(
    alloc: A,
    image: &Image,
    declaration: &Declaration<D>,
    draft: &Certificate<C>,
    at: Word,
    form: ReportForm,
    names: PageNames<'_>,
    notes: Option<&SourceNotes<A>>,
    lines: &[u8],
) -> Result<Vec<u8, A>, AllocError>
    ensures { IfOk result (λ page. HasLine (stuck_line at) page.items) }
{
    let mut rooms = ReasonWorkspace::boxed(alloc)?;
    let told = why_stuck(image, declaration, draft, at, &mut rooms);
    let failing = match &told {
        None => "",
        Some((refusal, _)) => condition_name(refusal.condition),
    };
    let report = Report::new(
        alloc,
        image,
        declaration,
        draft,
        Finding::Stuck(at),
        failing,
        names.files,
        notes,
    )?;
    let rest = below_lines(alloc, &report, lines, form)?;
    joined(alloc, form, names.program, at, &rest)
}
