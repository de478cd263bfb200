//! What is said about a declaration that is refused.

use crate::inputs::FaultText;
use crate::inputs::forms::declaration_form;
use crate::inputs::lines::line_of;
use declaration::DeclarationFault;

/// What is said about a fault of a declaration with these bytes.
pub(crate) fn told_of_declaration(fault: DeclarationFault, bytes: &[u8]) -> FaultText {
    match fault {
        DeclarationFault::BadLine(number) => {
            FaultText::Line(number, declaration_form(line_of(bytes, number)))
        }
        DeclarationFault::TwoStarts(number) => {
            FaultText::Line(number, "duplicate start line: only one is allowed")
        }
        DeclarationFault::TwoProfiles(number) => {
            FaultText::Line(number, "duplicate profile line: only one is allowed")
        }
        DeclarationFault::NoStart => FaultText::File(
            "a line such as `start 0200` is missing; in a source, write it as `/: start 0200`",
        ),
        DeclarationFault::Overlap(at) => FaultText::Address(
            "",
            at,
            " has two roles that exclude each other. Either it is in two bodies; or it is an entry and also a variable, a cell of a body or the entry of another routine; or it is both a stop and a pause. Remove one of the roles",
        ),
        DeclarationFault::EntryInAutoIndex(at) => FaultText::Address(
            "the entry ",
            at,
            " is one of the cells 0010 to 0017, which an indirect reference increments; a routine must begin elsewhere",
        ),
        DeclarationFault::StartNotInMain => {
            FaultText::File("the start is not in any `main` line: add it there")
        }
        DeclarationFault::HaltNotInBody(at) => FaultText::Address(
            "the stop or pause ",
            at,
            " is not in any body: add it to the `main` line or to a routine's body",
        ),
        DeclarationFault::Misplaced(at) => FaultText::Address(
            "",
            at,
            " is named where it may not be: `skips`, `moves` and `returns` name entries, `abandon` names cells of main, and `holds` names cells of bodies",
        ),
        DeclarationFault::TooMany => FaultText::File(
            "it has more than 64 `sub` lines, 64 `skips` lines or 256 `holds` and `returns` lines, or more than 16384 bytes",
        ),
        DeclarationFault::NoMemory => FaultText::Nothing,
    }
}
