//! A verdict on a certificate, and why, with the addresses of what is told marked, for whoever has the program's
//! source.

ghost use Rattle.std.specs.Prelude.{IfOk};
ghost use Rattle.certificate_lines.specs.CertificateInCode.{meaning as text_of};
ghost use Rattle.declaration.specs.DeclarationInCode.{meaning};
ghost use Rattle.diagnostics.specs.CheckText.{IsVerdictOf};

use crate::verdicts::explanation::explanation_of;
use crate::verdicts::surplus_text::surplus_message;
use crate::verdicts::verdict::{verdict_line, verdict_status};
use bin_tape::Image;
use certificate::Certificate;
use command_parts::message::Message;
use command_parts::status::Status;
use declaration::Declaration;
use judge::{JudgeWorkspace, judge};
use std::alloc::{AllocError, Allocator};

/// What is said about a certificate, and how the command ends.
#[derive(Drop)]
pub struct VerdictMessage<A: Allocator> {
    /// The line of the verdict.
    pub line: Vec<u8, A>,
    /// What is told below it: why the verdict is no, or what more is told after a yes.
    pub details: Message<A>,
    /// How the command ends.
    pub status: Status,
}

/// What `check` says about a certificate, and why the verdict is no; or, after a yes, what of the declaration is wider than need
/// be and what routines return with. What is said below the line of the verdict is tested, not proved.
///
/// # Errors
///
/// Memory was refused.
#[inline(never)]
pub fn check_message<A: Allocator + Copy, D: Allocator, C: Allocator>(
    alloc: A,
    image: &Image,
    declaration: &Declaration<D>,
    certificate: &Certificate<C>,
) -> Result<VerdictMessage<A>, AllocError>
    // The line and the status are those of the verdict.
    ensures { IfOk result (λ message. IsVerdictOf image.now (meaning declaration.now)
        (text_of certificate.now) message.status message.line.items) }
{
    let mut rooms = JudgeWorkspace::boxed(alloc)?;
    let verdict = judge(image, declaration, certificate, &mut rooms);
    let line = verdict_line(alloc, declaration, &verdict)?;
    let details = match &verdict {
        Ok(()) => surplus_message(alloc, image, declaration, certificate)?,
        Err(refusal) => explanation_of(alloc, image, declaration, certificate, refusal)?,
    };
    let status = verdict_status(&verdict);
    Ok(VerdictMessage {
        line,
        details,
        status,
    })
}
