//! Laws that follow from the definitions alone. Each is the contract of a function that does nothing.

ghost use Rattle.std.specs.Prelude.{◌≡◌, false, Result, ⊤};
ghost use Rattle.command_parts.specs.Answers.{FailsBy, ReadsOne, ReadsRun, ReadsTwo};
ghost use Rattle.command_parts.specs.Inputs.{Input, input};
ghost use Rattle.command_parts.specs.declared.status.Fault.{Fault};
ghost use Rattle.diagnostics.specs.CertificateFaults.{ReadsCertificate, ReadsCertified};
ghost use Rattle.command_laws.specs.InOrder.{CertificateInOrder, CertifiedInOrder, RunInOrder, TapeInOrder, TwoInOrder, Work, later_fault};
ghost use Rattle.command_laws.specs.Laws.{AssembledIsWritten, ChecksAreOne, EmptyHasNoTape, FaultIsNotWritten, FaultIsTheOne, FaultIsTold, FollowsTheTable, GuessIsAccepted, GuessIsRead, MeantIsListed, MeantIsRead, MeantIsWritten, MigratedIsCheckedAlike, ReadIsMeant, RunsAreOne, RunsEnd, SessionsAreOne, SessionsEnd, TapeIsOne, TapeIsThere, TypedAreOne, WrittenIsAssembled};

use pal_asm::laws::{meant_are_words, sources_have_one_answer};
use peripherals::laws::events_are_runs;
use streams::ByteSource;

/// From every image, each list of events has exactly one run, with its text and its status. So the text and the status
/// that a run is said to have exist, whatever is on the tape.
pub fn runs_end()
    ensures end { RunsEnd }
    ensures one { RunsAreOne }
{}

/// Whatever tape an operator puts into the reader and whatever keys are struck, a run of a given number of rounds comes
/// to exactly one end. So what a run with an operator is said to write exists.
pub fn sessions_end()
    ensures end { SessionsEnd }
    ensures one { SessionsAreOne }
{}

/// A session at the teletype comes to at most one end, whatever frames are in the reader and whatever keys are struck.
pub fn typed_sessions_are_one()
    ensures { TypedAreOne }
{}

/// A run is a run of the instruction table, whether it is driven by rounds, by a list of events, by an operator or by a
/// session at the teletype: as many steps of the table as it counts lead to its end.
pub fn runs_follow_the_table()
    ensures { FollowsTheTable }
{
    events_are_runs();
}

/// A source, its tape and the image that is read from the tape determine one another in both directions. A source that
/// means an image with at least one word has a tape, and one without words has none. `assemble` writes only one tape;
/// the image that the source means is read from it, and every image that is read from it is the one that the source
/// means.
pub fn sources_are_read_back()
    ensures there { TapeIsThere }
    ensures empty { EmptyHasNoTape }
    ensures tape { TapeIsOne }
    ensures read { MeantIsRead }
    ensures meant { ReadIsMeant }
{
    sources_have_one_answer();
    meant_are_words();
}

/// A tape and the source that is written for it belong together: from the source that `source` writes for a tape,
/// `assemble` makes the tape that is written for the image of the first tape, and no other.
pub fn written_sources_come_back()
    ensures there { WrittenIsAssembled }
    ensures only { AssembledIsWritten }
{
    sources_have_one_answer();
    meant_are_words();
}

/// The answers of `assemble` and `list` are exact in both directions. A source that means an image gets no tape only if
/// the image has no words, memory was refused or a device failed. For a source with a fault, that fault is reported, or
/// that memory was refused or a device failed, and nothing is written.
pub fn assemblies_are_exact()
    ensures meant { MeantIsWritten }
    ensures told { FaultIsTold }
    ensures unwritten { FaultIsNotWritten }
    ensures listed { MeantIsListed }
    ensures one { FaultIsTheOne }
{
    sources_have_one_answer();
}

/// The bytes of a tape, a declaration and a certificate have at most one verdict. For what `guess` writes it is yes,
/// and for what `migrate` writes it is the verdict on the certificate that was migrated, unless the text is longer than
/// what is read.
pub fn checks_are_one()
    ensures one { ChecksAreOne }
    ensures guessed { GuessIsAccepted }
    ensures read { GuessIsRead }
    ensures migrated { MigratedIsCheckedAlike }
{}

/// For a command that reads one input and then does its work: a fault is one of the input or, after a good input, one
/// of the work; a read failed if and only if the answer says so; and the input is not read past its limit.
pub fn single_inputs_are_told<T>()
    ensures tape { (work : Work) (tape : Input) (result : Result T Fault) →
        ReadsOne (later_fault work) tape result → TapeInOrder (later_fault work) tape result }
    ensures certificate { (work : Work) (certificate : Input) (result : Result T Fault) →
        ReadsCertificate certificate ⊤ (FailsBy (later_fault work)) result →
        CertificateInOrder (later_fault work) certificate result }
{}

/// For a command that reads a tape and a declaration and then does its work: a fault is that of the first input that
/// has one or, if both are good, one of the work; a read failed if and only if the answer says so; the declaration is
/// not touched after a tape that is refused or whose read failed, and is read only after a good one; and no input is
/// read past its limit.
pub fn two_inputs_are_read_in_order<D: ByteSource, T>()
    ensures { (work : Work) (tape : Input) (old new : D) (result : Result T Fault) →
        D.mark old ≡ false →
        ReadsTwo (later_fault work) tape
        (input (D.mark new) (D.remaining old) (D.remaining new)) (new ≡ old) result →
        TwoInOrder (later_fault work) tape
        (input (D.mark new) (D.remaining old) (D.remaining new)) (new ≡ old) result }
{}

/// The same for a command that then reads a certificate or a text of events.
pub fn three_inputs_are_read_in_order<D: ByteSource, E: ByteSource, T>()
    ensures certified { (work : Work) (tape : Input) (old new : D) (old_third new_third : E)
        (result : Result T Fault) → D.mark old ≡ false → E.mark old_third ≡ false →
        ReadsCertified (later_fault work) tape
        (input (D.mark new) (D.remaining old) (D.remaining new))
        (input (E.mark new_third) (E.remaining old_third) (E.remaining new_third))
        (new ≡ old) (new_third ≡ old_third) result →
        CertifiedInOrder (later_fault work) tape
        (input (D.mark new) (D.remaining old) (D.remaining new))
        (input (E.mark new_third) (E.remaining old_third) (E.remaining new_third))
        (new ≡ old) (new_third ≡ old_third) result }
    ensures run { (work : Work) (tape : Input) (old new : D) (old_third new_third : E)
        (result : Result T Fault) → D.mark old ≡ false → E.mark old_third ≡ false →
        ReadsRun (later_fault work) tape
        (input (D.mark new) (D.remaining old) (D.remaining new))
        (input (E.mark new_third) (E.remaining old_third) (E.remaining new_third))
        (new ≡ old) (new_third ≡ old_third) result →
        RunInOrder (later_fault work) tape
        (input (D.mark new) (D.remaining old) (D.remaining new))
        (input (E.mark new_third) (E.remaining old_third) (E.remaining new_third))
        (new ≡ old) (new_third ≡ old_third) result }
{}
