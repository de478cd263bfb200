//! Why a verdict is no. What is said of it is tested, not proved.

use crate::verdicts::reason_context::place_of;
use crate::verdicts::reason_text::push_why;
use bin_tape::Image;
use certificate::Certificate;
use command_parts::message::{Message, MessageWriter, Written};
use command_parts::text_sink::TextSink;
use declaration::Declaration;
use judge::{Claims, Refusal};
use reasons::{Reason, ReasonWorkspace, why};
use std::alloc::{AllocError, Allocator};
use word12::Word;

/// Adds the lines that a certificate has on the fact of which a reason speaks, or else on the only fact at the address of a refusal.
fn push_fact<A: Allocator + Copy, C: Allocator>(
    alloc: A,
    text: &mut Message<A>,
    certificate: &Certificate<C>,
    at: Word,
    reason: &Option<Reason>,
) -> Written {
    let index = match place_of(reason) {
        Some(index) => index,
        None if certificate.count_facts(at, 0) == 1 => 0,
        None => return Ok(()),
    };
    let mut lines = TextSink::new(alloc);
    match certificate.write_fact(at, index, &mut lines) {
        Ok(()) => text.push_text(&lines.text),
        Err(_) => Err(AllocError),
    }
}

/// Why a verdict is no, and the lines of the fact by which it is no.
///
/// # Errors
///
/// Memory was refused.
pub fn explanation_of<A: Allocator + Copy, D: Allocator, C: Allocator>(
    alloc: A,
    image: &Image,
    declaration: &Declaration<D>,
    certificate: &Certificate<C>,
    refusal: &Refusal,
) -> Result<Message<A>, AllocError> {
    let mut rooms = ReasonWorkspace::boxed(alloc)?;
    let reason = why(image, declaration, certificate, refusal, &mut rooms);
    let mut text = Message::new(alloc);
    push_why(&mut text, image, declaration, certificate, refusal, &reason)?;
    push_fact(alloc, &mut text, certificate, refusal.address, &reason)?;
    Ok(text)
}
