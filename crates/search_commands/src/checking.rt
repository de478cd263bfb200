//! The command that checks a certificate.

ghost use Rattle.std.specs.Prelude.{◌≡◌, false, IfOk, IfErr};
ghost use Rattle.certificate_lines.specs.CertificateInCode.{meaning as lines_of};
ghost use Rattle.declaration.specs.DeclarationInCode.{meaning};
ghost use Rattle.command_parts.specs.Answers.{IsLaterFault, IsMemoryFault, WritesAnswer, output};
ghost use Rattle.command_parts.specs.Faults.{fails_to_write};
ghost use Rattle.command_parts.specs.Inputs.{input};
ghost use Rattle.diagnostics.specs.CertificateFaults.{ReadsCertified};
ghost use Rattle.diagnostics.specs.CertificateInputs.{OfCertified};
ghost use Rattle.diagnostics.specs.CheckText.{IsVerdictOf};

use command_parts::outcome::{CommandResult, deliver};
use command_parts::status::{Fault, Status};
use diagnostics::verdicts::certificates::{ProgramWithCertificate, certified_from};
use diagnostics::verdicts::verdict::{verdict_line, verdict_status};
use judge::{JudgeWorkspace, judge};
use std::alloc::Allocator;
use streams::{ByteSink, ByteSource};

/// The verdict on a certificate for a program: its line, and its status.
///
/// # Errors
///
/// `NoMemory` if memory was refused.
pub fn verdict_of<A: Allocator + Copy>(
    alloc: A,
    certified: &ProgramWithCertificate<A>,
) -> Result<CommandResult<A>, Fault>
    ensures verdict { IfOk result (λ verdict. IsVerdictOf certified.now.program.image
        (meaning certified.now.program.declaration) (lines_of certified.now.certificate)
        verdict.status verdict.text.items) }
    ensures faults { IfErr result IsMemoryFault }
    ensures unwritten { fails_to_write result ≡ false }
{
    let program = &certified.program;
    let mut rooms = JudgeWorkspace::boxed(alloc)?;
    let verdict = judge(
        &program.image,
        &program.declaration,
        &certified.certificate,
        &mut rooms,
    );
    let text = verdict_line(alloc, &program.declaration, &verdict)?;
    let status = verdict_status(&verdict);
    Ok(CommandResult { text, status })
}

/// Checks a certificate for a tape and a declaration, and writes the verdict. A yes comes with the numbers of cells in
/// bodies, of variables, of entries, of declared halts and, if reads are listed, of cells that may be read. Otherwise
/// the verdict is the first condition that fails and its address, and the status is `Refused`. After a yes, the program
/// complies with its declaration in every run.
///
/// # Errors
///
/// The fault of the tape, of the declaration or of the certificate's text: each of them is read and, if it has a fault,
/// refused before the next is read; `Device` if a read failed, or if a write failed after a prefix of the line had gone
/// out; `NoMemory` if memory was refused.
pub fn check<A: Allocator + Copy, R: ByteSource, D: ByteSource, C: ByteSource, W: ByteSink>(
    alloc: A,
    tape: &mut R,
    declaration: &mut D,
    certificate: &mut C,
    out: &mut W,
) -> Result<Status, Fault>
    requires readable { R.mark tape.old ≡ false }
    requires declaration_readable { D.mark declaration.old ≡ false }
    requires certificate_readable { C.mark certificate.old ≡ false }
    requires writable { W.mark out.old ≡ false }
    // What is written is the verdict.
    ensures checked { WritesAnswer
        (OfCertified (R.remaining tape.old) (D.remaining declaration.old)
        (C.remaining certificate.old) IsVerdictOf)
        (output (W.mark out.new) (W.taken out.old) (W.taken out.new)) result }
    // The inputs are read in order. If all of them are good, a write may fail, or memory may be refused.
    ensures reads { ReadsCertified (IsLaterFault IsMemoryFault)
        (input (R.mark tape.new) (R.remaining tape.old) (R.remaining tape.new))
        (input (D.mark declaration.new) (D.remaining declaration.old) (D.remaining declaration.new))
        (input (C.mark certificate.new) (C.remaining certificate.old) (C.remaining certificate.new))
        (declaration.new ≡ declaration.old) (certificate.new ≡ certificate.old) result }
{
    match certified_from(alloc, tape, declaration, certificate) {
        Ok(certified) => deliver(verdict_of(alloc, &certified), out),
        Err(fault) => Err(fault),
    }
}
