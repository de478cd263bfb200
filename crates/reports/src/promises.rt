//! What a declaration promises beyond bodies, variables, halts and reads: how its routines return, and what holds where.

use crate::writer::ReportWriter;
use command_parts::sentence::Argument::{Address, Addresses, Offset, Offsets, Text, Words};
use declaration::{Assertion, Declaration, PlaceAssertion, ReturnAssertion, Subject};
use diagnostics::verdicts::surplus_text::OFFSETS;
use std::alloc::Allocator;

/// Writes an assertion: a link has one digit.
fn write_assertion<A: Allocator>(writer: &mut ReportWriter<'_, A>, assertion: &Assertion) {
    let words = assertion.words();
    let (name, subject) = match assertion.subject() {
        Subject::Accumulator => ("AC", Text("")),
        Subject::Link => ("the link", Text("")),
        Subject::Mq => ("MQ", Text("")),
        Subject::Cell(cell) => ("the cell ", Address(*cell)),
    };
    let is_link = matches!(assertion.subject(), Subject::Link);
    let (template, held) = match words.only() {
        Some(word) if is_link => ("{}{} is {}\n", Offset(word.index() % 2)),
        Some(_) => ("{}{} is {}\n", Words(words)),
        None => ("{}{} is one of {}\n", Words(words)),
    };
    writer.fill(template, &[Text(name), subject, held]);
}

/// Writes what holds whenever control is at some places.
fn write_place_assertion<A: Allocator>(writer: &mut ReportWriter<'_, A>, holding: &PlaceAssertion) {
    writer.fill(
        "<li>whenever control is at {}, ",
        &[Addresses(holding.places())],
    );
    write_assertion(writer, holding.assertion());
}

/// Writes what holds whenever a routine returns, by some offsets or by any.
fn write_return_assertion<A: Allocator>(
    writer: &mut ReportWriter<'_, A>,
    returning: &ReturnAssertion,
) {
    let template = if returning.offsets().count() < OFFSETS {
        "<li>whenever the routine {} returns by {}, "
    } else {
        "<li>whenever the routine {} returns, "
    };
    writer.fill(
        template,
        &[Address(returning.entry()), Offsets(returning.offsets())],
    );
    write_assertion(writer, returning.assertion());
}

/// Writes what is declared to hold, a point for each line of the declaration.
pub(crate) fn write_assertions<A: Allocator, D: Allocator>(
    writer: &mut ReportWriter<'_, A>,
    declaration: &Declaration<D>,
) {
    for holding in declaration.holds() {
        write_place_assertion(writer, holding);
    }
    for returning in declaration.returns() {
        write_return_assertion(writer, returning);
    }
}

/// Writes which routines may store their return word, if there are such.
pub(crate) fn write_moves<A: Allocator, D: Allocator>(
    writer: &mut ReportWriter<'_, A>,
    declaration: &Declaration<D>,
) {
    if declaration.moves().is_empty() {
        return;
    }
    writer.fill(
        "<li>of these, a routine itself may store its return word, by a DCA, only in: {}\n",
        &[Addresses(declaration.moves())],
    );
}

/// Writes where returns lead, and for which places all calls may be abandoned, if there are such.
pub(crate) fn write_returns<A: Allocator, D: Allocator>(
    writer: &mut ReportWriter<'_, A>,
    declaration: &Declaration<D>,
) {
    if declaration.abandons().is_empty() {
        return writer.put(
            b"<li>each routine returns to the address after its own call plus a declared offset\n",
        );
    }
    writer.fill(
        "<li>each return reaches a declared place after its own call, or all calls are abandoned for a declared place: {}\n",
        &[Addresses(declaration.abandons())],
    );
}
