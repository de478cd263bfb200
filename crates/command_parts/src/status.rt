//! How a command ends.

ghost use Rattle.std.specs.Prelude.{◌≡◌, ◌≤◌};
ghost use Rattle.command_parts.specs.declared.status.Fault.TheVariants.{Device, NoMemory};
ghost use Rattle.command_parts.specs.declared.status.DeviceFault.TheVariants.{Write};
ghost use Rattle.command_parts.specs.Faults.{fault_of_certificate, fault_of_declaration, fault_of_events, fault_of_guess, fault_of_input, fault_of_proposal, fault_of_tape};
ghost use Rattle.command_parts.specs.Statuses.{code_of, status_of_fault};

use bin_tape::TapeFault;
use certificate::WriteFault;
use certificate_lines::CertificateFault;
use declaration::DeclarationFault;
use pal_asm::PalFault;
use peripherals::{EventsFault, NoMemory};
use std::alloc::AllocError;
use streams::{Failed, InputFault};
use thiserror::Error;
use turns::{GuessFault, ProposeFault};

/// The statuses of the program.
#[derive(Clone, Copy, PartialEq, Eq, Debug)]
pub enum Status {
    /// Done.
    Done = 0,
    /// An input was refused, a run ended at an unsupported word, a watched run violated a rule, a
    /// condition fails, a search found nothing, or a proposal is not shown to be kept.
    Refused = 1,
    /// The command line is bad.
    Usage = 2,
    /// A file or a stream failed.
    Device = 3,
    /// Memory was wanted.
    Memory = 4,
}

impl Status {
    /// The status as the system sees it.
    pub fn code(self) -> u8
        ensures code { result ≡ code_of self }
        ensures small { result ≤ 4 }
    {
        self as u8
    }
}

/// What went wrong with a file or a stream.
#[derive(Clone, Copy, PartialEq, Eq, Debug, Error)]
pub enum DeviceFault {
    /// It could not be opened or read.
    #[error("ReadFault")]
    Read,
    /// It could not be made or written.
    #[error("WriteFault")]
    Write,
}

/// Why a command has no result. Its text is the line for standard error.
#[derive(Clone, Copy, PartialEq, Eq, Debug, Error)]
pub enum Fault {
    /// The tape is refused.
    #[error("pdp8: tape: {0}")]
    Tape(TapeFault),
    /// The source is assembled to no word, so there is no tape.
    #[error("pdp8: tape: EmptyImage")]
    EmptyImage,
    /// The source is refused.
    #[error("pdp8: source: {0}")]
    Source(PalFault),
    /// The declaration is refused.
    #[error("pdp8: declaration: {0}")]
    Declared(DeclarationFault),
    /// The certificate's text is refused.
    #[error("pdp8: certificate: {0}")]
    Certificate(CertificateFault),
    /// The text of events is refused.
    #[error("pdp8: events: {0}")]
    Events(EventsFault),
    /// No certificate is found.
    #[error("pdp8: guess: {0}")]
    Guess(GuessFault),
    /// No declaration is proposed.
    #[error("pdp8: declare: {0}")]
    Declare(ProposeFault),
    /// A device failed.
    #[error("pdp8: device: {0}")]
    Device(DeviceFault),
    /// Memory was refused.
    #[error("pdp8: memory: NoMemory")]
    NoMemory,
}

impl Fault {
    /// The status that the program ends with.
    pub fn status(self) -> Status
        ensures { result ≡ status_of_fault self }
    {
        match self {
            Fault::Tape(_)
            | Fault::EmptyImage
            | Fault::Source(_)
            | Fault::Declared(_)
            | Fault::Certificate(_)
            | Fault::Events(_)
            | Fault::Guess(_)
            | Fault::Declare(_) => Status::Refused,
            Fault::Device(_) => Status::Device,
            Fault::NoMemory => Status::Memory,
        }
    }
}

impl From<TapeFault> for Fault {
    ghost from_gives = { λ fault result. result ≡ fault_of_tape fault };

    /// A read that failed is the device's fault, and not the tape's.
    fn from(fault: TapeFault) -> Fault {
        match fault {
            TapeFault::ReadFault => Fault::Device(DeviceFault::Read),
            _ => Fault::Tape(fault),
        }
    }
}

impl From<EventsFault> for Fault {
    ghost from_gives = { λ fault result. result ≡ fault_of_events fault };

    /// A want of memory is not the text's fault.
    fn from(fault: EventsFault) -> Fault {
        match fault {
            EventsFault::NoMemory => Fault::NoMemory,
            _ => Fault::Events(fault),
        }
    }
}

impl From<DeclarationFault> for Fault {
    ghost from_gives = { λ fault result. result ≡ fault_of_declaration fault };

    /// A want of memory is not the text's fault.
    fn from(fault: DeclarationFault) -> Fault {
        match fault {
            DeclarationFault::NoMemory => Fault::NoMemory,
            _ => Fault::Declared(fault),
        }
    }
}

impl From<CertificateFault> for Fault {
    ghost from_gives = { λ fault result. result ≡ fault_of_certificate fault };

    /// A want of memory and a read that failed are not the text's fault.
    fn from(fault: CertificateFault) -> Fault {
        match fault {
            CertificateFault::NoMemory => Fault::NoMemory,
            CertificateFault::ReadFault => Fault::Device(DeviceFault::Read),
            _ => Fault::Certificate(fault),
        }
    }
}

impl From<GuessFault> for Fault {
    ghost from_gives = { λ fault result. result ≡ fault_of_guess fault };

    /// A want of memory is not the program's fault.
    fn from(fault: GuessFault) -> Fault {
        match fault {
            GuessFault::NoMemory => Fault::NoMemory,
            _ => Fault::Guess(fault),
        }
    }
}

impl From<ProposeFault> for Fault {
    ghost from_gives = { λ fault result. result ≡ fault_of_proposal fault };

    /// A want of memory is not the program's fault.
    fn from(fault: ProposeFault) -> Fault {
        match fault {
            ProposeFault::NoMemory => Fault::NoMemory,
            _ => Fault::Declare(fault),
        }
    }
}

impl From<InputFault> for Fault {
    ghost from_gives = { λ fault result. result ≡ fault_of_input fault };

    fn from(fault: InputFault) -> Fault {
        match fault {
            InputFault::ReadFailed => Fault::Device(DeviceFault::Read),
            InputFault::NoMemory => Fault::NoMemory,
        }
    }
}

impl From<NoMemory> for Fault {
    ghost from_gives = { λ _ result. result ≡ NoMemory };

    fn from(_: NoMemory) -> Fault {
        Fault::NoMemory
    }
}

impl From<AllocError> for Fault {
    ghost from_gives = { λ _ result. result ≡ NoMemory };

    fn from(_: AllocError) -> Fault {
        Fault::NoMemory
    }
}

impl From<Failed> for Fault {
    ghost from_gives = { λ _ result. result ≡ Device Write };

    /// Commands convert the failures of their output so; their inputs tell their own faults.
    fn from(_: Failed) -> Fault {
        Fault::Device(DeviceFault::Write)
    }
}

impl From<WriteFault> for Fault {
    ghost from_gives = { λ _ result. result ≡ Device Write };

    fn from(_: WriteFault) -> Fault {
        Fault::Device(DeviceFault::Write)
    }
}
