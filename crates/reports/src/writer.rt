//! What writes: templates, sentences and items, as plain text or as HTML.

use crate::source_notes::{SourceNotes, label_in};
use command_parts::message::{MessageWriter, Written};
use command_parts::sentence::Argument::Number;
use command_parts::sentence::{Argument, push_argument};
use instruct::{Profile, name};
use std::alloc::{AllocError, Allocator};
use word12::Word;
use wordset::WordSet;

/// How many items of a line are shown that are the same as on the line above.
const MOST_SAME: usize = 8;

/// Adds a text that is not markup.
///
/// # Errors
///
/// Memory was refused.
pub(crate) fn push_escaped<A: Allocator>(
    bytes: &mut Vec<u8, A>,
    text: &[u8],
) -> Result<(), AllocError> {
    for byte in text {
        match *byte {
            b'"' => bytes.extend_from_slice(b"&quot;")?,
            b'&' => bytes.extend_from_slice(b"&amp;")?,
            b'\'' => bytes.extend_from_slice(b"&#39;")?,
            b'<' => bytes.extend_from_slice(b"&lt;")?,
            b'>' => bytes.extend_from_slice(b"&gt;")?,
            _ => bytes.push(*byte)?,
        }
    }
    Ok(())
}

/// In which form a report is written.
#[derive(Clone, Copy)]
pub enum ReportForm {
    /// Plain text.
    Text,
    /// A page of HTML.
    Page,
}

/// The bytes of a report as far as they are written.
#[derive(Drop)]
pub(crate) struct ReportWriter<'a, A: Allocator> {
    bytes: Vec<u8, A>,
    /// Whether memory was refused; from there on nothing more is written.
    written: Result<(), AllocError>,
    is_page: bool,
    /// The addresses that have a line of the listing, to which links may lead.
    lines: WordSet,
    /// What the source says about addresses, where one is known.
    notes: Option<&'a SourceNotes<A>>,
    /// How many blanks stand before the first item of the line.
    indent: usize,
    /// Whether the line has an item.
    has_item: bool,
    /// How many items of the line are the same as on the line above.
    same: usize,
}

impl<'a, A: Allocator> ReportWriter<'a, A> {
    /// A writer that has written nothing, for a listing with lines at these addresses, of a program about which a source says this.
    pub(crate) fn new(
        alloc: A,
        form: ReportForm,
        lines: &WordSet,
        notes: Option<&'a SourceNotes<A>>,
    ) -> ReportWriter<'a, A> {
        ReportWriter {
            bytes: Vec::new(alloc),
            written: Ok(()),
            is_page: matches!(form, ReportForm::Page),
            lines: *lines,
            notes,
            indent: 0,
            has_item: false,
            same: 0,
        }
    }

    /// What was written, unless memory was refused.
    pub(crate) fn into_bytes(self) -> Result<Vec<u8, A>, AllocError> {
        let ReportWriter { bytes, written, .. } = self;
        written?;
        Ok(bytes)
    }

    /// Whether an address has a line of the listing.
    pub(crate) fn has_line(&self, at: Word) -> bool {
        self.lines.contains(at)
    }

    /// Writes bytes as they are.
    pub(crate) fn put(&mut self, bytes: &[u8]) {
        if self.written.is_ok() {
            self.written = self.bytes.extend_from_slice(bytes);
        }
    }

    /// Writes markup, in a page alone.
    pub(crate) fn mark(&mut self, markup: &[u8]) {
        if self.is_page {
            self.put(markup);
        }
    }

    /// Writes a text that is not markup.
    pub(crate) fn say(&mut self, text: &[u8]) {
        if !self.is_page {
            self.put(text);
        } else if self.written.is_ok() {
            self.written = push_escaped(&mut self.bytes, text);
        }
    }

    /// Writes a template, which in a page may have markup, with an argument in place of each `{}`, which has none.
    pub(crate) fn fill(&mut self, template: &str, arguments: &[Argument<'_>]) {
        let mut rest = template;
        for argument in arguments {
            let Some((before, behind)) = rest.split_once("{}") else {
                break;
            };
            self.put(before.as_bytes());
            let _ = push_argument(self, argument);
            rest = behind;
        }
        self.put(rest.as_bytes());
    }

    /// Writes in a page the beginning of a link to the line of an address.
    pub(crate) fn link(&mut self, at: Word) {
        self.mark(b"<a href=#a");
        self.mark(&at.to_octal());
        self.mark(b">");
    }

    /// Writes in a page the label of an address, if there is one, with what stands before it and behind it.
    fn label(&mut self, before: &[u8], at: Word, behind: &[u8]) {
        let label = label_in(self.notes, at);
        if self.is_page && !label.is_empty() {
            self.put(before);
            self.say(label);
            self.put(behind);
        }
    }

    /// Writes an address without a link, in a page with its label.
    pub(crate) fn named(&mut self, at: Word) {
        self.put(&at.to_octal());
        self.label(b" ", at, b"");
    }

    /// Writes in plain text what comes before a note after the items, and its label, if there is one. In a page the label
    /// stands after the address.
    pub(crate) fn begin_note(&mut self, label: &[u8]) {
        if !self.is_page {
            self.put(b"  / ");
            self.put(label);
            self.put(if label.is_empty() { b"" } else { b", " });
        }
    }

    /// Begins the items of a line, of which the first stands after some blanks.
    pub(crate) fn begin_items(&mut self, indent: usize) {
        self.indent = indent;
        self.has_item = false;
        self.same = 0;
    }

    /// Writes what stands between an item and what is before it: in plain text, blanks before the first one.
    pub(crate) fn separate(&mut self) {
        if self.has_item {
            return self.put(b"; ");
        }
        self.has_item = true;
        if !self.is_page {
            for _blank in 0..self.indent {
                self.put(b" ");
            }
        }
    }

    /// Counts an item that is the same as on the line above, and says whether it is written.
    pub(crate) fn shows_same(&mut self) -> bool {
        self.same = self.same.saturating_add(1);
        self.is_page && self.same <= MOST_SAME
    }

    /// Writes in a page how many items that are the same as on the line above were left out.
    pub(crate) fn end_same(&mut self) {
        let more = self.same.saturating_sub(MOST_SAME);
        if self.is_page && more > 0 {
            self.item("<i>and {} more as above</i>", &[Number(more)]);
        }
    }

    /// Writes an item that has nothing to do with the line above.
    pub(crate) fn item(&mut self, template: &str, arguments: &[Argument<'_>]) {
        self.separate();
        self.fill(template, arguments);
    }

    /// Writes an item that has nothing to do with the line above, if it is told.
    pub(crate) fn item_if(&mut self, is_told: bool, text: &str) {
        if is_told {
            self.item(text, &[]);
        }
    }
}

/// A report takes a sentence as text that is not markup, and each address with a link to its line, if it has one, and with
/// its label. A call never fails: where memory is refused, nothing more is written.
impl<A: Allocator> MessageWriter for ReportWriter<'_, A> {
    fn push_text(&mut self, piece: &[u8]) -> Written {
        self.say(piece);
        Ok(())
    }

    fn push_address(&mut self, at: Word) -> Written {
        if self.has_line(at) {
            self.link(at);
            self.put(&at.to_octal());
            self.mark(b"</a>");
            self.label(b" (", at, b")");
            Ok(())
        } else {
            self.push_cell(at)
        }
    }

    fn push_cell(&mut self, at: Word) -> Written {
        self.put(&at.to_octal());
        self.label(b" (", at, b")");
        Ok(())
    }

    fn push_advised_address(&mut self, at: Word) -> Written {
        self.push_address(at)
    }

    fn push_instruction(&mut self, at: Word, word: Option<Word>, profile: Profile) -> Written {
        if let Some(word) = word {
            self.push_address(at)?;
            self.put(b" ");
            self.put(&word.to_octal());
            self.put(b" ");
            self.say(name(word, profile).as_str().as_bytes());
            self.put(b"\n");
        }
        Ok(())
    }
}
