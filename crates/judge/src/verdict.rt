//! Certified programs: a tape, a declaration and a certificate of any version that meets every condition.

ghost use Rattle.std.specs.Prelude.{◌≡◌, ◌≢◌, ◌⊎◌, Ok, Err, IfOk, IfErr, IsErrAnd, OnErr};
ghost use Rattle.bin_tape.specs.Refuses.{Refuses};
ghost use Rattle.bin_tape.specs.declared.fault.TapeFault.{TapeFault as TapesFault};
ghost use Rattle.declaration.specs.Text.{Fails};
ghost use Rattle.declaration.specs.declared.DeclarationFault.{DeclarationFault as DeclarationsFault};
ghost use Rattle.declaration.specs.declared.DeclarationFault.TheVariants as declaration_fault;
ghost use Rattle.certificate_lines.specs.declared.CertificateFault.{CertificateFault as CertificatesFault};
ghost use Rattle.certificate_lines.specs.Reading.{Text, reading};
ghost use Rattle.judge.specs.declared.judging.Refusal.{Refusal as Refusals};
ghost use Rattle.judge.specs.declared.verdict.CertifyFault.TheVariants as fault;
ghost use Rattle.peripherals.specs.World.{view, profile_of};
ghost use Rattle.policy.specs.Runs.{IsSafe};
ghost use Rattle.policy.specs.Watching.{IsClean, LeadsTo, StepPutsOut, begun};
ghost use Rattle.judge.specs.Conditions.{IsValid};
ghost use Rattle.judge.specs.Certifying.{AreRead, AreValid, FailFirst, IsRefused, IsRefusal, IsSomeTape, DeclaresSomething, case_of, declaration_of, words_of};

use crate::case::JudgeWorkspace;
use crate::judging::{Refusal, judge};
use bin_tape::{Image, TapeFault, read_tape};
use certificate::Certificate;
use certificate_lines::CertificateFault;
use declaration::{Declaration, DeclarationFault};
use peripherals::{Event, NoMemory, Start, World};
use policy::run_declared;
use std::alloc::Allocator;
use std::marker::Model;
use thiserror::Error;

/// Why a program is not certified: the first part that is not good, in this order.
#[derive(Clone, Copy, PartialEq, Eq, Debug, Error)]
pub enum CertifyFault {
    /// The bytes are no tape.
    #[error("tape: {0}")]
    Tape(TapeFault),
    /// The text is not a declaration.
    #[error("declaration: {0}")]
    Declaration(DeclarationFault),
    /// The text is not a certificate.
    #[error("certificate: {0}")]
    Certificate(CertificateFault),
    /// A condition fails.
    #[error("{0}")]
    Refused(Refusal),
    /// A growth was refused while the declaration was read, or the certificate, which has a line that is
    /// kept.
    #[error("NoMemory")]
    NoMemory,
}

/// A program that keeps its declaration in every run: its tape's words, its declaration, and a
/// certificate that meets every condition.
#[derive(Drop)]
pub struct Certified<A: Allocator> {
    image: Image,
    declaration: Declaration<A>,
    certificate: Certificate<A>,
}

impl<A: Allocator> Model for Certified<A> {
    ghost use Rattle.judge.specs.Conditions.{IsValid};
    ghost use Rattle.judge.specs.Certifying.{Parts, case_of};

    ghost Value = { Parts };

    ghost view = { λ c. record {
      image = c.image;
      declaration = c.declaration;
      certificate = c.certificate;
    } };

    // Every condition holds.
    ghost invariant = { λ c. IsValid (case_of (record {
      image = c.image;
      declaration = c.declaration;
      certificate = c.certificate;
    })) };
}

impl<A: Allocator> Certified<A> {
    /// The tape's words.
    pub fn image(&self) -> &Image
        ensures { result.now ≡ self.now.image }
    {
        &self.image
    }

    /// The declaration.
    pub fn declaration(&self) -> &Declaration<A>
        ensures { result.now ≡ self.now.declaration }
    {
        &self.declaration
    }

    /// The certificate.
    pub fn certificate(&self) -> &Certificate<A>
        ensures { result.now ≡ self.now.certificate }
    {
        &self.certificate
    }

    /// Shows that every condition holds, and that the program is safe.
    pub fn is_safe(&self)
        ensures valid { IsValid (case_of self.now) }
        ensures safe { IsSafe (words_of self.now) (declaration_of self.now) }
    {
        self.declaration.is_declared();
    }

    /// The world after the declared run by a list of events, from the declared start, with the
    /// tape's words over the given start. No rule can be broken.
    ///
    /// # Errors
    ///
    /// `NoMemory` where room for a byte that is printed or punched was refused.
    pub fn run<B: Allocator + Copy>(
        &self,
        alloc: B,
        start: &Start,
        events: &[Event],
    ) -> Result<World<B>, NoMemory>
        ensures run { let d = declaration_of self.now in IfOk result (λ world.
            LeadsTo d events.now (begun (words_of self.now) d start.now) (view world)) }
        // The world is on the declared machine.
        ensures profile { let d = declaration_of self.now in IfOk result (λ world.
            profile_of world ≡ d.profile) }
        // Each enabled step was legal.
        ensures legal { let d = declaration_of self.now in
            IsClean (words_of self.now) d events.now (begun (words_of self.now) d start.now) }
        // Only a step that prints or punches can be refused.
        ensures only_output { let d = declaration_of self.now in OnErr result
            (StepPutsOut d events.now (begun (words_of self.now) d start.now)) }
    {
        self.is_safe();
        run_declared(alloc, &self.image, &self.declaration, start, events)
    }
}

/// Certifies a program, by the bytes of its tape, of its declaration and of a certificate. A yes
/// says: in every run from the declared start, whatever unset memory holds and however keys, tape
/// frames, completions and switches interleave with instructions, control stays in the current
/// routine's body, writes hit only declared cells, fixed code words never change, each return
/// reaches a declared place after its own call, halts are declared, and listed reads are kept.
///
/// The bytes alone decide: a yes comes if and only if every condition holds of what they say, and each
/// fault if and only if it is the first that there is, unless memory is refused.
///
/// # Errors
///
/// The first part that is not good, in the order tape, declaration, certificate and conditions, with
/// its fault; `NoMemory` where memory was refused, while the declaration or the certificate was read, or
/// for the rooms of the judgement.
pub fn certify<A: Allocator + Copy>(
    alloc: A,
    tape: &[u8],
    declaration: &[u8],
    certificate: &[u8],
) -> Result<Certified<A>, CertifyFault>
    // It holds the three as read,
    ensures read { IfOk result (AreRead tape.now declaration.now certificate.now) }
    // which meet every condition,
    ensures valid { IfOk result (λ c. IsValid (case_of c)) }
    // and the program is safe.
    ensures safe { IfOk result (λ c. IsSafe (words_of c) (declaration_of c)) }
    ensures refused { IfErr result (IsRefused tape.now declaration.now certificate.now) }
    // Whichever fault the tape has is told.
    ensures tape_told { (f : TapesFault) → Refuses 65536 tape.now f → result ≡ Err (fault.Tape f) }
    // Whichever fault the declaration of a good tape has is told, unless memory is refused.
    ensures declaration_told { (f : DeclarationsFault) → IsSomeTape tape.now →
        Fails declaration.now f → f ≢ declaration_fault.NoMemory →
        IsErrAnd result (λ g. (g ≡ fault.NoMemory) ⊎ (g ≡ fault.Declaration f)) }
    // Whichever fault the certificate has is told where the others are good, unless memory is refused.
    ensures certificate_told { (f : CertificatesFault) → IsSomeTape tape.now →
        DeclaresSomething declaration.now → reading certificate.now ≡ Err f →
        IsErrAnd result (λ g. (g ≡ fault.NoMemory) ⊎ (g ≡ fault.Certificate f)) }
    // Where all three are good only a condition refuses, unless memory is.
    ensures judged { (text : Text) → IsSomeTape tape.now → DeclaresSomething declaration.now →
        reading certificate.now ≡ Ok text → IfErr result (λ g. (g ≡ fault.NoMemory) ⊎ IsRefusal g) }
    // Whichever condition fails first of three that are good is told, unless memory is refused.
    ensures refusal_told { (r : Refusals) →
        FailFirst tape.now declaration.now certificate.now r →
        IsErrAnd result (λ g. (g ≡ fault.NoMemory) ⊎ (g ≡ fault.Refused r)) }
    // Where every condition holds the answer is yes, unless memory is refused.
    ensures valid_told { AreValid tape.now declaration.now certificate.now →
        IfErr result (λ g. g ≡ fault.NoMemory) }
{
    let image = match read_tape(tape) {
        Ok(image) => image,
        Err(fault) => return Err(CertifyFault::Tape(fault)),
    };
    let declaration = match Declaration::parse(alloc, declaration) {
        Ok(declaration) => declaration,
        Err(DeclarationFault::NoMemory) => return Err(CertifyFault::NoMemory),
        Err(fault) => return Err(CertifyFault::Declaration(fault)),
    };
    let certificate = match Certificate::parse(alloc, certificate) {
        Ok(certificate) => certificate,
        Err(CertificateFault::NoMemory) => return Err(CertifyFault::NoMemory),
        Err(fault) => return Err(CertifyFault::Certificate(fault)),
    };
    let mut rooms = match JudgeWorkspace::boxed(alloc) {
        Ok(rooms) => rooms,
        Err(_) => return Err(CertifyFault::NoMemory),
    };
    match judge(&image, &declaration, &certificate, &mut rooms) {
        Ok(()) => Ok(Certified {
            image,
            declaration,
            certificate,
        }),
        Err(refusal) => Err(CertifyFault::Refused(refusal)),
    }
}
