//! Searches about a program that is open: for a certificate, for a run that violates its declaration, and for a
//! declaration.

ghost use Rattle.std.specs.Prelude.{◌≡◌, true, false, IfOk};
ghost use Rattle.analyser.specs.Attempts.{IsAcceptedIfFound, IsDraftIfStuck, claimed_by, is_found};
ghost use Rattle.certificate.specs.Exact.{AreLines};
ghost use Rattle.certificate_lines.specs.CertificateInCode.{meaning};
ghost use Rattle.declaration.specs.DeclarationInCode.{meaning as declared};
ghost use Rattle.requests.specs.Searches.{HasRequestedVersion};

use crate::files::{finish, open_output};
use crate::of_programs::open::OpenProgram;
use crate::of_sources::source_lines::{answer_text, push_details};
use crate::standard_error::{report_to, tell_to};
use crate::stuck::{StuckSearch, stuck_details, stuck_line};
use crate::stuck_reports::write_stuck_report;
use crate::telling::tell_lines;
use analyser::{Attempt, guess, guess_or_draft, guess_version, guess_version_or_draft};
use bin_tape::Image;
use certificate_lines::Version;
use command_line::Destination;
use command_parts::options::{DeclareOptions, Refinements, RefuteOptions};
use command_parts::outcome::CommandResult;
use command_parts::programs::ProgramWithDeclaration;
use command_parts::status::{Fault, Status};
use diagnostics::verdicts::certificates::write_certificate;
use machine_commands::messages::refute_message;
use search_commands::completing::{complete, given_from};
use search_commands::declaring::proposed;
use search_commands::refining::{Refinement, tightened, with_returns};
use std::alloc::{AllocError, Global};
use std::io::Read;
use std::rt::Files;
use streams::put;
use streams::standard::{StdReader, StdWriter};
use turns::GuessFault;

/// The message if cells that may be read are to be listed, but the declaration that is completed has no list of them.
const NO_LIST: &str =
    "--reads adds nothing: the declaration has no `read` line, so any cell may be read; to have a list, first add a `read` line\n";

/// Searches for a certificate, of the requested version if there is one. If the search is stuck, it returns the draft,
/// if that is requested.
fn search(
    alloc: Global,
    program: &ProgramWithDeclaration<Global>,
    version: Option<Version>,
    is_drafted: bool,
) -> Result<Attempt<Global>, GuessFault>
    // The judge accepts a certificate that is found.
    ensures accepted { IfOk result
        (IsAcceptedIfFound program.now.image program.now.declaration) }
    // A draft is returned only if that is requested. It has lines where the search is stuck, and all its lines are where
    // those of a certificate may be.
    ensures unasked { is_drafted ≡ false → IfOk result (λ attempt. is_found attempt ≡ true) }
    ensures draft { IfOk result (IsDraftIfStuck (declared program.now.declaration)) }
    ensures lines { IfOk result (λ attempt. AreLines (meaning (claimed_by attempt))) }
    ensures version { IfOk result
        (HasRequestedVersion (declared program.now.declaration).profile version) }
{
    let ProgramWithDeclaration { image, declaration } = program;
    match version {
        None if is_drafted => guess_or_draft(alloc, image, declaration),
        None => Ok(Attempt::Found(guess(alloc, image, declaration)?)),
        Some(version) if is_drafted => guess_version_or_draft(alloc, image, declaration, version),
        Some(version) => Ok(Attempt::Found(guess_version(alloc, image, declaration, version)?)),
    }
}

/// Whether a declaration lists the cells that may be read.
fn lists_reads(text: &[u8]) -> bool {
    text.split(|byte| *byte == b'\n')
        .any(|line| line.trim_ascii().starts_with(b"read"))
}

impl<'x, R: Files + Input + Print + Eprint, I: Read + Drop> OpenProgram<'x, '_, R, I> {
    /// Reports on standard error why a search is stuck, and writes a report on its draft, each if it is requested.
    #[inline(never)]
    fn report_stuck_search(
        &self,
        stuck: &StuckSearch<'_>,
        report: Option<&str>,
    ) -> Result<Status, Fault> {
        let (rt, alloc, source) = (self.rt, self.alloc, self.source);
        let explained = self.request.explained;
        if explained {
            let (line, details) = (stuck_line(alloc, stuck.at)?, stuck_details(alloc, stuck)?);
            let _ = put(
                &mut tell_to(rt),
                &answer_text(alloc, source, &line, &details)?,
            );
        }
        if let Some(name) = report {
            write_stuck_report(rt, alloc, self.files, stuck, name, source)?;
        }
        if explained {
            return Ok(Status::Refused);
        }
        Err(Fault::Guess(GuessFault::Stuck(stuck.at)))
    }

    /// Searches for a certificate, of the requested version if there is one. If the search is stuck, it says why on
    /// standard error and writes a report, each if it is requested. One search serves all of these.
    #[inline(never)]
    pub(crate) fn guess(
        &mut self,
        out: Destination<'x>,
        report: Option<&str>,
        version: Option<Version>,
    ) -> Result<Status, Fault> {
        let (rt, alloc) = (self.rt, self.alloc);
        let mut file = open_output(rt, alloc, out)?;
        let program = self.read()?;
        let is_drafted = self.request.explained || report.is_some();
        match &search(alloc, &program, version, is_drafted)? {
            Attempt::Found(found) => {
                let status = write_certificate(found, &mut StdWriter::new(&mut file))?;
                finish(&mut file, status)
            }
            Attempt::Stuck(at, draft) => {
                let ProgramWithDeclaration { image, declaration } = &program;
                let stuck = StuckSearch {
                    image,
                    declaration,
                    at: *at,
                    draft,
                };
                self.report_stuck_search(&stuck, report)
            }
        }
    }

    /// Searches for a run that violates the declaration. The events of the run are in their place before the line about
    /// them is written.
    #[inline(never)]
    pub(crate) fn refute(
        &mut self,
        out: Destination<'x>,
        options: &RefuteOptions,
    ) -> Result<Status, Fault> {
        let (rt, alloc) = (self.rt, self.alloc);
        let mut file = open_output(rt, alloc, out)?;
        let source = self.labels(options.explained);
        let ProgramWithDeclaration { image, declaration } = self.read()?;
        let found = refute_message(alloc, &image, &declaration, options)?;
        let lines = answer_text(alloc, source, &found.line, &found.why)?;
        put(&mut StdWriter::new(&mut file), &found.events)?;
        let status = finish(&mut file, found.status)?;
        put(&mut report_to(rt, out.name() == "-"), &lines)?;
        Ok(status)
    }

    /// The declaration that is proposed for the words of a tape or, if the program has a declaration, that declaration
    /// completed.
    fn proposal(
        &mut self,
        image: &Image,
        options: &DeclareOptions,
    ) -> Result<CommandResult<Global>, Fault> {
        if !self.is_declared {
            return proposed(self.alloc, image, options);
        }
        let given = given_from(self.alloc, &mut StdReader::new(&mut self.text))?;
        complete(self.alloc, image, given, options.reads)
    }

    /// A refined declaration. Adds the message about how it was refined.
    fn refined(
        &self,
        refined: Refinement<Global>,
        message: &mut Vec<u8>,
    ) -> Result<Vec<u8>, AllocError> {
        let Refinement { text, told } = refined;
        push_details(self.alloc, message, self.source, &told)?;
        Ok(text)
    }

    /// A declaration, refined as requested: without what is not needed, and with what the routines return with. Adds
    /// the messages about that.
    fn refine(
        &self,
        image: &Image,
        refinements: Refinements,
        given: Vec<u8>,
        message: &mut Vec<u8>,
    ) -> Result<Vec<u8>, Fault> {
        let mut text = given;
        if refinements.tight {
            text = self.refined(tightened(self.alloc, image, &text)?, message)?;
        }
        if refinements.exits {
            text = self.refined(with_returns(self.alloc, image, &text)?, message)?;
        }
        Ok(text)
    }

    /// Writes the declaration that is proposed for the program or, if it has a declaration, that declaration completed,
    /// refined as requested; for a source, it is written with its symbols. Says what is left out, and if no reads are
    /// added although they were requested.
    #[inline(never)]
    pub(crate) fn declare(
        &mut self,
        out: Destination<'x>,
        options: DeclareOptions,
        refinements: Refinements,
    ) -> Result<Status, Fault> {
        let (rt, alloc) = (self.rt, self.alloc);
        let (is_completed, adds_reads) = (self.is_declared, options.reads);
        let mut file = open_output(rt, alloc, out)?;
        let image = self.read_tape()?;
        let CommandResult { mut text, status } = self.proposal(&image, &options)?;
        let mut message = Vec::new(alloc);
        if refinements.tight || refinements.exits {
            text = self.refine(&image, refinements, text, &mut message)?;
        }
        if let Some(source) = self.source {
            text = source.with_symbols(alloc, &text)?;
        }
        put(&mut StdWriter::new(&mut file), &text)?;
        let status = finish(&mut file, status)?;
        let _ = put(&mut tell_to(rt), &message);
        if is_completed && adds_reads && !lists_reads(&text) {
            tell_lines(rt, NO_LIST);
        }
        Ok(status)
    }
}
