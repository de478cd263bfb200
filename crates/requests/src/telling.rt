//! Messages on standard error about faults and about misuse of the command line.

ghost use Rattle.std.specs.Prelude.{◌≡◌};
ghost use Rattle.command_parts.specs.Statuses.{status_of_fault};
ghost use Rattle.command_parts.specs.declared.status.Status.TheVariants.{Usage};

use command_line::Misuse;
use command_parts::status::{Fault, Status};

/// Writes the line of a fault to standard error, and returns the status of the fault.
pub fn tell<R: Eprint>(rt: &R, fault: Fault) -> Status
    ensures { result ≡ status_of_fault fault }
{
    let _ = eprintln!(rt; "{fault}");
    fault.status()
}

/// Writes the line of a fault to standard error, with these lines below it, and returns the status of the fault.
pub fn tell_with<R: Eprint>(rt: &R, fault: Fault, lines: &str) -> Status
    ensures { result ≡ status_of_fault fault }
{
    let status = tell(rt, fault);
    tell_lines(rt, lines);
    status
}

/// Writes these lines to standard error. A failure to write them is ignored.
pub fn tell_lines<R: Eprint>(rt: &R, lines: &str) {
    let _ = rt.eprint(lines);
}

/// Writes to standard error what is wrong with the command line, and returns `Usage`.
pub fn tell_misuse<R: Eprint>(rt: &R, misuse: &Misuse) -> Status
    ensures { result ≡ Usage }
{
    let text = misuse.text();
    let _ = eprintln!(rt; "error: {text}");
    Status::Usage
}
