//! A certificate read from a source, a piece at a time.

ghost use Rattle.std.specs.Prelude.{◌≡◌, ◌⊎◌, ◌≤◌, Ok, Err, IfErr, IfOk, IfSome, false, length};
ghost use Rattle.streams.specs.Bytes.{Gave};
ghost use Rattle.certificate_lines.specs.declared.CertificateFault.TheVariants.{NoMemory, ReadFault};
ghost use Rattle.certificate_lines.specs.Reading.{reading};
ghost use Rattle.certificate_lines.specs.CertificateInCode.{meaning};
ghost use Rattle.certificate_lines.specs.ReadFaults.{failed_to_read};
ghost use Rattle.certificate_lines.specs.Serving.{IsPrompt, IsUnanswered, AsksForMemory};
ghost use Rattle.certificate.specs.Parser.{Serves};

use crate::Certificate;
use crate::parser::Parser;
use certificate_lines::CertificateFault;
use std::alloc::Allocator;
use streams::ByteSource;

/// How many bytes are requested in all at most: one more than a certificate may have.
const LIMIT: usize = 1_048_577;

/// How many bytes one read asks for at most.
const PIECE: usize = 512;

/// The answer of the bytes that a source gives.
fn read_source<A: Allocator + Copy, R: ByteSource>(
    alloc: A,
    source: &mut R,
) -> Result<Certificate<A>, CertificateFault>
    requires { R.mark source.old ≡ false }
    ensures serves { Serves (R.remaining source.old) (R.remaining source.new) result }
    ensures marks { R.mark source.new ≡ failed_to_read result }
{
    let mut parser = Parser::new(alloc);
    let mut piece = [0u8; PIECE];
    let mut at = 0;
    loop {
        let room = (LIMIT - at).min(PIECE);
        match source.read(&mut piece[..room]) {
            Err(_) => return Err(CertificateFault::ReadFault),
            Ok(0) => return parser.finish(),
            Ok(count) => {
                if let Err(fault) = parser.take_all(&piece[..count]) {
                    return Err(fault);
                }
                at += count;
            }
        }
    }
}

impl<A: Allocator + Copy> Certificate<A> {
    /// The certificate whose text a source gives, as [`Certificate::parse`] has it of all its bytes: a
    /// byte that follows the text is a fault. At most one byte more is taken than a certificate may
    /// have, and at most 511 past the one that brings the answer.
    ///
    /// # Errors
    ///
    /// `ReadFault` where a read failed before the bytes brought an answer; else the first fault, as
    /// `parse` has it.
    pub fn read_from<R: ByteSource>(
        alloc: A,
        source: &mut R,
    ) -> Result<Certificate<A>, CertificateFault>
        requires unmarked { R.mark source.old ≡ false }
        // The certificate that the source's bytes are read as,
        ensures read { IfOk result (λ c.
            IfSome (R.remaining source.old) (λ bytes. reading bytes ≡ Ok (meaning c))) }
        // or the fault that they are read as, unless memory is refused or a read fails.
        ensures refused { IfErr result (λ fault. (fault ≡ NoMemory) ⊎ ((fault ≡ ReadFault) ⊎
            IfSome (R.remaining source.old) (λ bytes. reading bytes ≡ Err fault))) }
        // ReadFault comes if and only if a read failed,
        ensures failed { R.mark source.new ≡ failed_to_read result }
        // and the bytes given before it bring no answer.
        ensures unanswered { result ≡ Err ReadFault →
            Gave (R.remaining source.old) (R.remaining source.new) IsUnanswered }
        // Memory is refused only if the bytes that were given have a line to keep.
        ensures memory { result ≡ Err NoMemory →
            Gave (R.remaining source.old) (R.remaining source.new) AsksForMemory }
        // At most 1,048,577 bytes are taken, and at most 511 past the one that brings the answer.
        ensures limit { Gave (R.remaining source.old) (R.remaining source.new)
            (λ given. length given ≤ 1048577) }
        ensures prompt { Gave (R.remaining source.old) (R.remaining source.new) (IsPrompt 511) }
    {
        read_source(alloc, source)
    }
}
