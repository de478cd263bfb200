//! Why a search for a certificate is stuck.

use bin_tape::Image;
use certificate::Certificate;
use command_parts::message::Message;
use declaration::Declaration;
use diagnostics::verdicts::reason_text::push_why;
use reasons::{ReasonWorkspace, why_stuck};
use std::alloc::{AllocError, Allocator};
use word12::Word;

/// Why a search is stuck at an address, given the draft of a certificate that it found. This is tested, not proved.
///
/// # Errors
///
/// `AllocError` if memory was refused.
pub fn draft_message<A: Allocator + Copy, D: Allocator, C: Allocator>(
    alloc: A,
    image: &Image,
    declaration: &Declaration<D>,
    draft: &Certificate<C>,
    at: Word,
) -> Result<Message<A>, AllocError> {
    let mut rooms = ReasonWorkspace::boxed(alloc)?;
    let mut text = Message::new(alloc);
    let Some((refusal, reason)) = why_stuck(image, declaration, draft, at, &mut rooms) else {
        return Ok(text);
    };
    let reason = Some(reason);
    push_why(&mut text, image, declaration, draft, &refusal, &reason)?;
    Ok(text)
}
