//! What commands write.

ghost use Rattle.std.specs.Prelude.{◌≡◌, ◌⊎◌, false, Err, IfErr, IsOkAnd};
ghost use Rattle.command_parts.specs.Answers.{WritesAnswer, output};
ghost use Rattle.command_parts.specs.Faults.{IsWriteFault, fails_to_write};

use crate::status::{Fault, Status};
use std::alloc::Allocator;
use streams::{ByteSink, put};

/// What a command answers: the text that it writes, and the status that it ends with.
#[derive(Drop)]
pub struct CommandResult<A: Allocator> {
    /// The text that goes to the output.
    pub text: Vec<u8, A>,
    /// The status.
    pub status: Status,
}

/// Writes a text.
pub fn write_text<W: ByteSink>(out: &mut W, text: &[u8]) -> Result<(), Fault>
    requires { W.mark out.old ≡ false }
    ensures writes { WritesAnswer (λ done written. written ≡ text.now)
        (output (W.mark out.new) (W.taken out.old) (W.taken out.new)) result }
    ensures faults { IfErr result IsWriteFault }
{
    Ok(put(out, text)?)
}

impl<A: Allocator> CommandResult<A> {
    /// Writes the text, and gives the status.
    pub fn write<W: ByteSink>(&self, out: &mut W) -> Result<Status, Fault>
        requires { W.mark out.old ≡ false }
        ensures writes { WritesAnswer
            (λ status written. (status ≡ self.now.status) × (written ≡ self.now.text.items))
            (output (W.mark out.new) (W.taken out.old) (W.taken out.new)) result }
        ensures faults { IfErr result IsWriteFault }
    {
        write_text(out, &self.text)?;
        Ok(self.status)
    }
}

/// Writes what a command has to tell, if its work had no fault.
pub fn deliver<A: Allocator, W: ByteSink>(
    told: Result<CommandResult<A>, Fault>,
    out: &mut W,
) -> Result<Status, Fault>
    requires writable { W.mark out.old ≡ false }
    requires unwritten { fails_to_write told ≡ false }
    ensures writes { WritesAnswer (λ status written.
        IsOkAnd told (λ o. (status ≡ o.status) × (written ≡ o.text.items)))
        (output (W.mark out.new) (W.taken out.old) (W.taken out.new)) result }
    ensures faults { IfErr result (λ fault. (told ≡ Err fault) ⊎ IsWriteFault fault) }
{
    match told {
        Ok(outcome) => outcome.write(out),
        Err(fault) => Err(fault),
    }
}
