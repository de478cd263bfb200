//! The certificates that commands read and write.

ghost use Rattle.std.specs.Prelude.{◌≡◌, false, IfOk, IfErr};
ghost use Rattle.certificate_lines.specs.CertificateInCode.{meaning as text_of};
ghost use Rattle.certificate_lines.specs.Laws.{bytes_of};
ghost use Rattle.declaration.specs.DeclarationInCode.{meaning};
ghost use Rattle.command_parts.specs.Answers.{NeverFails, WritesAnswer, output};
ghost use Rattle.command_parts.specs.Faults.{IsWriteFault, fails_to_read, fails_to_write};
ghost use Rattle.command_parts.specs.Inputs.{HasDeclaration, HasImage, input};
ghost use Rattle.command_parts.specs.declared.status.Status.TheVariants.{Done};
ghost use Rattle.diagnostics.specs.CertificateFaults.{IsCertificateInputFault, ReadsCertified};
ghost use Rattle.diagnostics.specs.CertificateInputs.{HasCertificate, TakesCertificate};

use certificate::Certificate;
use command_parts::programs::{ProgramWithDeclaration, program_from};
use command_parts::status::{Fault, Status};
use std::alloc::Allocator;
use streams::{ByteSink, ByteSource};

/// A program with its declaration, and a certificate for it.
#[derive(Drop)]
pub struct ProgramWithCertificate<A: Allocator> {
    /// The program with its declaration.
    pub program: ProgramWithDeclaration<A>,
    /// The certificate.
    pub certificate: Certificate<A>,
}

/// Reads a certificate.
pub fn certificate_from<A: Allocator + Copy, R: ByteSource>(
    alloc: A,
    source: &mut R,
) -> Result<Certificate<A>, Fault>
    requires { R.mark source.old ≡ false }
    ensures claims { IfOk result (λ c. HasCertificate (R.remaining source.old) (text_of c)) }
    ensures faults { IfErr result (IsCertificateInputFault
        (input (R.mark source.new) (R.remaining source.old) (R.remaining source.new))) }
    ensures marks { R.mark source.new ≡ fails_to_read result }
    ensures takes { TakesCertificate (R.remaining source.old) (R.remaining source.new) }
{
    match Certificate::read_from(alloc, source) {
        Ok(certificate) => Ok(certificate),
        Err(fault) => Err(Fault::from(fault)),
    }
}

/// Reads a tape, after a good one a declaration, and after that a certificate.
pub fn certified_from<A: Allocator + Copy, R: ByteSource, D: ByteSource, C: ByteSource>(
    alloc: A,
    tape: &mut R,
    declaration: &mut D,
    certificate: &mut C,
) -> Result<ProgramWithCertificate<A>, Fault>
    requires readable { R.mark tape.old ≡ false }
    requires declaration_readable { D.mark declaration.old ≡ false }
    requires certificate_readable { C.mark certificate.old ≡ false }
    ensures image { IfOk result (λ c. HasImage (R.remaining tape.old) c.program.image) }
    ensures declares { IfOk result (λ c.
        HasDeclaration (D.remaining declaration.old) (meaning c.program.declaration)) }
    ensures claims { IfOk result (λ c.
        HasCertificate (C.remaining certificate.old) (text_of c.certificate)) }
    ensures reads { ReadsCertified NeverFails
        (input (R.mark tape.new) (R.remaining tape.old) (R.remaining tape.new))
        (input (D.mark declaration.new) (D.remaining declaration.old) (D.remaining declaration.new))
        (input (C.mark certificate.new) (C.remaining certificate.old) (C.remaining certificate.new))
        (declaration.new ≡ declaration.old) (certificate.new ≡ certificate.old) result }
    // Nothing is written.
    ensures unwritten { fails_to_write result ≡ false }
{
    let program = program_from(alloc, tape, declaration)?;
    let certificate = certificate_from(alloc, certificate)?;
    Ok(ProgramWithCertificate {
        program,
        certificate,
    })
}

/// Writes the text of a certificate.
pub fn write_certificate<A: Allocator, W: ByteSink>(
    certificate: &Certificate<A>,
    out: &mut W,
) -> Result<Status, Fault>
    requires { W.mark out.old ≡ false }
    ensures writes { WritesAnswer
        (λ status text. (status ≡ Done) × (text ≡ bytes_of (text_of certificate.now)))
        (output (W.mark out.new) (W.taken out.old) (W.taken out.new)) result }
    ensures faults { IfErr result IsWriteFault }
{
    certificate.write(out)?;
    Ok(Status::Done)
}
