//! Lines that say what routines return with.

ghost use Rattle.std.specs.Prelude.{◌<◌};

use crate::merging::end_line;
use declaration::writing::push_range;
use declaration::{Declaration, ReturnAssertion, Subject};
use diagnostics::verdicts::surplus_text::{OFFSETS, Shown};
use std::alloc::{AllocError, Allocator};
use usage::Register;
use word12::Word;
use wordset::WordSet;

/// A register at a return of a routine.
#[derive(Clone, Copy)]
struct RegisterAtReturn {
    entry: Word,
    offset: Word,
    register: Register,
}

impl RegisterAtReturn {
    /// The register as a declaration names it.
    fn name(&self) -> &'static [u8] {
        match self.register {
            Register::Accumulator => b" ac",
            Register::Link => b" link",
        }
    }

    /// Whether these words are all that the register can hold.
    fn is_free(&self, words: &WordSet) -> bool {
        match self.register {
            Register::Accumulator => words.is_all(),
            Register::Link => words.count() > 1,
        }
    }

    /// Whether a line says that the register holds only words from this set at this return.
    fn is_asserted_by(&self, line: &ReturnAssertion, words: &WordSet) -> bool {
        let assertion = line.assertion();
        let subject = match self.register {
            Register::Accumulator => Subject::Accumulator,
            Register::Link => Subject::Link,
        };
        *assertion.subject() == subject
            && line.entry() == self.entry
            && line.offsets().contains(self.offset)
            && assertion.words().is_subset(words)
    }
}

/// Adds a separator and an offset or a link, as one digit or two.
pub(crate) fn push_spaced_digits<A: Allocator>(
    text: &mut Vec<u8, A>,
    before: &[u8],
    word: Word,
) -> Result<(), AllocError> {
    text.extend_from_slice(before)?;
    let digits = word.to_octal();
    if word.index() < 8 {
        text.extend_from_slice(&digits[3..])
    } else {
        text.extend_from_slice(&digits[2..])
    }
}

/// Adds the words that a register holds; the link is written as a digit.
fn push_words<A: Allocator>(
    text: &mut Vec<u8, A>,
    register: Register,
    words: &WordSet,
) -> Result<(), AllocError> {
    for (first, last) in words.ranges() {
        match register {
            Register::Accumulator => push_range(text, first, last)?,
            Register::Link => push_spaced_digits(text, b" ", first)?,
        }
    }
    Ok(())
}

/// Whether a declaration already says that a register holds only words from this set.
fn is_asserted<D: Allocator>(
    declaration: &Declaration<D>,
    place: &RegisterAtReturn,
    words: &WordSet,
) -> bool {
    declaration
        .returns()
        .iter()
        .any(|line| place.is_asserted_by(line, words))
}

/// Adds the line that says what a register holds at a return, unless the routine never returns there, the register may
/// hold any word, or the declaration already says it.
fn push_register<A: Allocator, D: Allocator, C: Allocator>(
    text: &mut Vec<u8, A>,
    shown: &Shown<'_, D, C>,
    entry: Word,
    offset: usize,
    register: Register,
) -> Result<(), AllocError>
    requires { offset < 64 }
{
    let words = shown.returned(register, entry, offset);
    let place = RegisterAtReturn {
        entry,
        offset: Word::from_index(offset),
        register,
    };
    if words.is_empty() || place.is_free(&words) || is_asserted(shown.declaration, &place, &words) {
        return Ok(());
    }
    text.extend_from_slice(b"returns")?;
    push_range(text, entry, entry)?;
    push_spaced_digits(text, b" ", place.offset)?;
    text.extend_from_slice(place.name())?;
    push_words(text, register, &words)?;
    end_line(text)
}

/// Adds the lines about the returns of a routine.
fn push_returns<A: Allocator, D: Allocator, C: Allocator>(
    text: &mut Vec<u8, A>,
    shown: &Shown<'_, D, C>,
    entry: Word,
) -> Result<(), AllocError> {
    for offset in 0..OFFSETS {
        push_register(text, shown, entry, offset, Register::Accumulator)?;
        push_register(text, shown, entry, offset, Register::Link)?;
    }
    Ok(())
}

/// Adds to a text, whose last line has ended, a line for each return of a routine at any offset that says which words
/// AC may hold according to the certificate, and a line that says what the link may be.
pub(crate) fn push_all_returns<A: Allocator, D: Allocator, C: Allocator>(
    text: &mut Vec<u8, A>,
    shown: &Shown<'_, D, C>,
) -> Result<(), AllocError> {
    for routine in shown.declaration.routines() {
        push_returns(text, shown, routine.entry())?;
    }
    Ok(())
}
