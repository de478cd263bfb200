//! The lines for people below the line of a fault: which file, which place or line, and what may stand there; and
//! what a declaration leaves out. How they read is tested, not proved.

mod declarations;
mod forms;
mod lines;
mod omissions;
mod tapes;

use crate::inputs::declarations::told_of_declaration;
use crate::inputs::forms::{certificate_form, event_form};
use crate::inputs::tapes::told_of_tape;
use certificate_lines::CertificateFault;
use command_parts::message::Written;
use command_parts::status::Fault;
use lines::line_of;
pub use lines::push_numbered;
pub(crate) use omissions::is_in_body;
pub use omissions::{push_omissions, push_stuck_remedy};
use peripherals::EventsFault;
use std::alloc::Allocator;
use word12::Word;

/// What is said of a line of a certificate that is out of order.
const ORDER: &str =
    "out of order, or a duplicate: routines come first, then facts, then exits, each by ascending address; under a fact or an exit come its cells, then its equations, or in version 3 its `sum` lines and then its `func` lines";

/// A file with a fault: its name, and what it holds.
#[derive(Drop)]
pub struct FaultyFile<'a> {
    /// Its name.
    pub name: &'a str,
    /// Its bytes, as far as they were read.
    pub bytes: &'a [u8],
}

/// What is said about a fault of a file.
#[derive(Clone, Copy)]
pub(crate) enum FaultText {
    /// Nothing: the fault is not about an input.
    Nothing,
    /// This of the file.
    File(&'static str),
    /// This of the line with this number, which is shown.
    Line(usize, &'static str),
    /// This of the frame at this place.
    Frame(usize, &'static str),
    /// This of an address, with what comes before it.
    Address(&'static str, Word, &'static str),
    /// This of a checksum that was read, the first word, where another one was counted.
    Checksum(Word, Word, &'static str),
}

/// What is said about a fault of a certificate with these bytes.
fn told_of_certificate(fault: CertificateFault, bytes: &[u8]) -> FaultText {
    match fault {
        CertificateFault::Version if bytes.is_empty() => {
            FaultText::File("it is empty: is it a certificate?")
        }
        CertificateFault::Version => FaultText::File(
            "its first line is not `PDP8-CERTIFICATE 1`, `2` or `3`: is it a certificate?",
        ),
        CertificateFault::BadLine(number) => {
            FaultText::Line(number, certificate_form(line_of(bytes, number)))
        }
        CertificateFault::Order(number) => FaultText::Line(number, ORDER),
        CertificateFault::TooMany => FaultText::File(
            "it has more than 64 routines or more than 1048576 bytes; or one of its facts or exits has more than 64 cells, more than 32 equations or `sum` lines, or more than 4 `func` lines",
        ),
        CertificateFault::NoMemory | CertificateFault::ReadFault => FaultText::Nothing,
    }
}

/// What is said about a fault of a list of events with these bytes.
fn told_of_events(fault: EventsFault, bytes: &[u8]) -> FaultText {
    match fault {
        EventsFault::BadLine(number) => {
            FaultText::Line(number, event_form(line_of(bytes, number)))
        }
        EventsFault::TooMany => {
            FaultText::File("it has more than 1000000 events or more than 65536 bytes")
        }
        EventsFault::NoMemory => FaultText::Nothing,
    }
}

/// Adds the lines on a fault of this file. For a fault that is not about an input it adds none.
///
/// # Errors
///
/// Memory was refused.
pub fn push_fault<A: Allocator>(
    text: &mut String<A>,
    fault: Fault,
    file: &FaultyFile<'_>,
) -> Written {
    let told = match fault {
        Fault::Tape(fault) => told_of_tape(fault),
        Fault::Declared(fault) => told_of_declaration(fault, file.bytes),
        Fault::Certificate(fault) => told_of_certificate(fault, file.bytes),
        Fault::Events(fault) => told_of_events(fault, file.bytes),
        _ => FaultText::Nothing,
    };
    push_told(text, file, &told)
}

/// Adds what is said about a fault of a file.
fn push_told<A: Allocator>(
    text: &mut String<A>,
    file: &FaultyFile<'_>,
    told: &FaultText,
) -> Written {
    let name = file.name;
    match told {
        FaultText::Nothing => Ok(()),
        FaultText::File(said) => write!(text, "{name}: {said}\n"),
        FaultText::Line(number, said) => {
            push_numbered(text, file, *number)?;
            write!(text, "{said}\n")
        }
        FaultText::Frame(place, said) => match file.bytes.get(*place) {
            Some(frame) => write!(
                text,
                "{name}: frame {place}, counted from 0, is {frame:03o}: {said}\n"
            ),
            None => write!(text, "{name}: frame {place}, counted from 0: {said}\n"),
        },
        FaultText::Address(before, at, said) => {
            let cell = at.value();
            write!(text, "{name}: {before}{cell:04o}{said}\n")
        }
        FaultText::Checksum(read, counted, said) => {
            let (read, counted) = (read.value(), counted.value());
            write!(
                text,
                "{name}: its last word, the checksum, is {read:04o}, and the frames of the words before it add up to {counted:04o}: {said}\n"
            )
        }
    }
}
