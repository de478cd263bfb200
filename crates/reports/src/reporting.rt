//! The command that writes what a certificate says.

ghost use Rattle.std.specs.Prelude.{◌≡◌, false, IfErr, IfOk};
ghost use Rattle.certificate_lines.specs.CertificateInCode.{meaning as text_of};
ghost use Rattle.declaration.specs.DeclarationInCode.{meaning};
ghost use Rattle.command_parts.specs.Answers.{IsMemoryFault};
ghost use Rattle.command_parts.specs.Faults.{fails_to_write};
ghost use Rattle.reports.specs.Findings.{IsFindingTrue, failing_of, finding_of};
ghost use Rattle.reports.specs.Pages.{HasLine, IsReportOf};

use crate::style::push_head;
use crate::{Finding, Report, listing_below, opening, page_below};
pub use crate::{LinePlace, PageNames, ReportForm, SourceNote, SourceNotes};
use bin_tape::Image;
use certificate::Certificate;
use command_parts::outcome::CommandResult;
use command_parts::status::Fault;
use declaration::Declaration;
use diagnostics::verdicts::certificates::ProgramWithCertificate;
use diagnostics::verdicts::reason_text::push_why;
use diagnostics::verdicts::verdict::{condition_name, verdict_line, verdict_status};
use judge::{JudgeWorkspace, Refusal, judge};
use reasons::{ReasonWorkspace, why};
use std::alloc::{AllocError, Allocator};

/// Why a verdict is no, as lines; of a yes there are none.
fn why_lines<A: Allocator + Copy, D: Allocator, C: Allocator>(
    alloc: A,
    image: &Image,
    declaration: &Declaration<D>,
    certificate: &Certificate<C>,
    verdict: &Result<(), Refusal>,
) -> Result<Vec<u8, A>, AllocError> {
    let mut text = Vec::new(alloc);
    if let Err(refusal) = verdict {
        let mut rooms = ReasonWorkspace::boxed(alloc)?;
        let reason = why(image, declaration, certificate, refusal, &mut rooms);
        push_why(&mut text, image, declaration, certificate, refusal, &reason)?;
    }
    Ok(text)
}

/// What stands below the line of a verdict: these lines, and the rest of the report.
pub(crate) fn below_lines<A: Allocator + Copy, D: Allocator, C: Allocator>(
    alloc: A,
    report: &Report<'_, A, D, C>,
    lines: &[u8],
    form: ReportForm,
) -> Result<Vec<u8, A>, AllocError>
    requires { IsFindingTrue report.now }
{
    match form {
        ReportForm::Page => page_below(alloc, report, lines),
        ReportForm::Text => {
            let mut text = Vec::new(alloc);
            text.extend_from_slice(lines)?;
            text.extend_from_slice(&listing_below(alloc, report)?)?;
            Ok(text)
        }
    }
}

/// What is known about a certificate of which this is the verdict, and the name of the condition that fails, or nothing.
fn finding_of(verdict: &Result<(), Refusal>) -> (Finding, &'static str)
    ensures finding { result.0 ≡ finding_of verdict.now }
    ensures failing { result.1.now ≡ failing_of verdict.now }
{
    match verdict {
        Ok(()) => (Finding::Shown, ""),
        Err(refusal) => (
            Finding::Refused(refusal.address),
            condition_name(refusal.condition),
        ),
    }
}

/// The line of a verdict, with what comes before and right after it in a form, and the rest.
fn joined<A: Allocator>(
    alloc: A,
    form: ReportForm,
    name: &[u8],
    verdict: &Result<(), Refusal>,
    line: &[u8],
    rest: &[u8],
) -> Result<Vec<u8, A>, AllocError>
    ensures { IfOk result (λ page. HasLine line.now page.items) }
{
    let mut page = Vec::new(alloc);
    push_head(&mut page, form, name)?;
    page.extend_from_slice(line)?;
    page.extend_from_slice(opening(form, verdict))?;
    page.extend_from_slice(rest)?;
    Ok(page)
}

/// The report on a certificate of a program that has these names, and the status of its verdict.
///
/// # Errors
///
/// Memory was refused.
pub fn report_of<A: Allocator + Copy>(
    alloc: A,
    certified: &ProgramWithCertificate<A>,
    form: ReportForm,
    names: PageNames<'_>,
    notes: Option<&SourceNotes<A>>,
) -> Result<CommandResult<A>, Fault>
    ensures page { IfOk result (λ page. IsReportOf certified.now.program.image
        (meaning certified.now.program.declaration) (text_of certified.now.certificate)
        page.status page.text.items) }
    ensures faults { IfErr result IsMemoryFault }
    ensures unwritten { fails_to_write result ≡ false }
{
    let program = &certified.program;
    let (image, declaration) = (&program.image, &program.declaration);
    let mut rooms = JudgeWorkspace::boxed(alloc)?;
    let verdict = judge(image, declaration, &certified.certificate, &mut rooms);
    let line = verdict_line(alloc, declaration, &verdict)?;
    let lines = why_lines(alloc, image, declaration, &certified.certificate, &verdict)?;
    let (finding, failing) = finding_of(&verdict);
    let report = Report::new(
        alloc,
        image,
        declaration,
        &certified.certificate,
        finding,
        failing,
        names.files,
        notes,
    )?;
    let rest = below_lines(alloc, &report, &lines, form)?;
    let text = joined(alloc, form, names.program, &verdict, &line, &rest)?;
    let status = verdict_status(&verdict);
    Ok(CommandResult { text, status })
}
