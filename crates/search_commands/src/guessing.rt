//! The command that searches for a certificate.

ghost use Rattle.std.specs.Prelude.{◌≡◌, false};
ghost use Rattle.command_parts.specs.Answers.{IsLaterFault, OfProgram, ReadsTwo, WritesAnswer, output};
ghost use Rattle.command_parts.specs.Inputs.{input};
ghost use Rattle.search_commands.specs.GuessText.{IsGuessOf};
ghost use Rattle.search_commands.specs.SearchFaults.{IsSearchFault};

use command_parts::programs::program_from;
use command_parts::status::{Fault, Status};
use diagnostics::verdicts::certificates::write_certificate;
use std::alloc::Allocator;
use streams::{ByteSink, ByteSource};

/// Searches for a certificate that shows that no run of a tape violates its declaration, and writes its text: of
/// version 1 for a PDP-8/I, of version 2 for a PDP-8/E, or of version 3 if none of these is found. Every condition
/// holds for it, so `check` says yes to it. It is not promised that a certificate is found.
///
/// # Errors
///
/// The fault of the tape or of the declaration: each of them is read and, if it has a fault, refused before the next is
/// read; `Guess` if nothing is found; `Device` if a read failed, or if a write failed after a prefix of the text had
/// gone out; `NoMemory` if memory was refused. Nothing is written unless a write failed.
pub fn guess<A: Allocator + Copy, R: ByteSource, D: ByteSource, W: ByteSink>(
    alloc: A,
    tape: &mut R,
    declaration: &mut D,
    out: &mut W,
) -> Result<Status, Fault>
    requires readable { R.mark tape.old ≡ false }
    requires declaration_readable { D.mark declaration.old ≡ false }
    requires writable { W.mark out.old ≡ false }
    // What is written is the text of a certificate, in the version of the declared machine or in version 3, for which
    // every condition holds.
    ensures guessed { WritesAnswer
        (OfProgram (R.remaining tape.old) (D.remaining declaration.old) IsGuessOf)
        (output (W.mark out.new) (W.taken out.old) (W.taken out.new)) result }
    // The inputs are read in order. If both are good, nothing may be found, or a write may fail.
    ensures reads { ReadsTwo (IsLaterFault IsSearchFault)
        (input (R.mark tape.new) (R.remaining tape.old) (R.remaining tape.new))
        (input (D.mark declaration.new) (D.remaining declaration.old) (D.remaining declaration.new))
        (declaration.new ≡ declaration.old) result }
{
    let program = program_from(alloc, tape, declaration)?;
    let claims = analyser::guess(alloc, &program.image, &program.declaration)?;
    write_certificate(&claims, out)
}
