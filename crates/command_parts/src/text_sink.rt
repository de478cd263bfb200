//! A sink that collects a text.

ghost use Rattle.std.specs.Prelude.{◌≡◌, [], false};

use std::alloc::Allocator;
use streams::{ByteSink, Failed};

/// Collects a text, and fails if memory is refused.
#[derive(Drop)]
pub struct TextSink<A: Allocator> {
    /// What was written.
    pub text: Vec<u8, A>,
    /// Whether memory was refused.
    pub failed: bool,
}

impl<A: Allocator> TextSink<A> {
    /// A sink to which nothing is written yet.
    pub fn new(alloc: A) -> TextSink<A>
        ensures text { result.text.items ≡ [] }
        ensures unmarked { result.failed ≡ false }
    {
        TextSink {
            text: Vec::new(alloc),
            failed: false,
        }
    }

    /// What was written.
    pub fn into_text(self) -> Vec<u8, A>
        ensures { result.items ≡ self.text.items }
    {
        let TextSink { text, .. } = self;
        text
    }
}

impl<A: Allocator> ByteSink for TextSink<A> {
    ghost use Rattle.std.specs.Prelude.{Some};

    ghost taken = { λ sink. Some sink.text.items };

    ghost mark = { λ sink. sink.failed };

    fn write(&mut self, piece: &[u8]) -> Result<usize, Failed> {
        match self.text.extend_from_slice(piece) {
            Ok(()) => Ok(piece.len()),
            Err(_) => {
                self.failed = true;
                Err(Failed)
            }
        }
    }

    fn failed(&self) -> bool {
        self.failed
    }
}
