//! What a file seems to contain, as far as its bytes show. This is tested, not proved.

use command_parts::inputs::tape_from;
use streams::standard::StdReader;

/// What a file seems to contain.
#[derive(Clone, Copy, PartialEq, Eq)]
pub(crate) enum Kind {
    Tape,
    Source,
    Declaration,
    Certificate,
    Events,
    OtherText,
    OtherBytes,
}

impl Kind {
    /// What such a file is called.
    pub(crate) fn text(&self) -> &'static str {
        match self {
            Kind::Tape => "a tape",
            Kind::Source => "a source",
            Kind::Declaration => "a declaration",
            Kind::Certificate => "a certificate",
            Kind::Events => "a list of events",
            Kind::OtherText => "text",
            Kind::OtherBytes => "something else",
        }
    }
}

/// The words that a line of a declaration can begin with.
const DECLARATION_KEYWORDS: [&[u8]; 13] = [
    b"start", b"main", b"sub", b"var", b"stop", b"pause", b"profile", b"read", b"skips", b"moves",
    b"abandon", b"holds", b"returns",
];

/// The words that a line of a list of events can begin with.
const EVENT_KEYWORDS: [&[u8]; 7] = [
    b"step",
    b"key",
    b"reader",
    b"printer",
    b"punch",
    b"switches",
    b"continue",
];

/// Whether all these bytes are printable ASCII characters or white space, as those of a source are and those of a tape
/// are not.
fn is_text(bytes: &[u8]) -> bool {
    bytes
        .iter()
        .all(|byte| matches!(*byte, b'\t'..=b'\r' | b' '..=b'~'))
}

/// Whether a word, if there is one, is one of these.
fn is_one_of(word: Option<&[u8]>, keywords: &[&[u8]]) -> bool {
    word.is_some_and(|word| keywords.iter().any(|keyword| *keyword == word))
}

/// Whether a line begins like a line of a declaration.
fn is_declaration_line(line: &[u8]) -> bool {
    let line = line.trim_ascii();
    let mut words = line.split(|byte| matches!(*byte, b' ' | b'\t' | b'/'));
    is_one_of(words.next(), &DECLARATION_KEYWORDS)
}

/// Whether a line looks like an event: a word that an event can begin with, followed only by words that consist of
/// digits.
fn is_event_line(line: &[u8]) -> bool {
    let event = line
        .split(|byte| *byte == b'/')
        .next()
        .unwrap_or(line)
        .trim_ascii();
    let mut words = event.split(|byte| matches!(*byte, b' ' | b'\t'));
    is_one_of(words.next(), &EVENT_KEYWORDS)
        && words.all(|word| word.iter().all(|byte| byte.is_ascii_digit()))
}

/// Whether a line begins with `$`, which ends a source, or with `*`, which sets the current location.
fn is_source_line(line: &[u8]) -> bool {
    let line = line.trim_ascii();
    line.starts_with(b"$") || line.starts_with(b"*")
}

/// Whether these bytes can be read as a tape.
#[inline(never)]
fn is_tape(bytes: &[u8]) -> bool {
    let mut frames = StdReader::new(bytes);
    tape_from(&mut frames).is_ok()
}

/// What a file that is not empty seems to contain.
pub(crate) fn kind_of(bytes: &[u8]) -> Kind {
    if !is_text(bytes) {
        return if is_tape(bytes) {
            Kind::Tape
        } else {
            Kind::OtherBytes
        };
    }
    if bytes.starts_with(b"PDP8-CERTIFICATE") {
        return Kind::Certificate;
    }
    for line in bytes.split(|byte| *byte == b'\n') {
        if is_source_line(line) {
            return Kind::Source;
        }
        if is_declaration_line(line) {
            return Kind::Declaration;
        }
        if is_event_line(line) {
            return Kind::Events;
        }
    }
    Kind::OtherText
}
