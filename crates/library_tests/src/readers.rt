//! Tapes and certificates that come in pieces, from readers that fail, and from readers that never end.

use crate::fixtures::{HELLO_CERTIFICATE, HELLO_TAPE, HELLO_WORDS, SEVERAL, image};
use bin_tape::{ByteSource, Failed, TapeFault, read_from, read_tape};
use certificate::Certificate;
use certificate_lines::CertificateFault;
use std::alloc::Global;
use testing::memory::MemorySource;

/// How many bytes a read gives at most.
const PIECES: [usize; 3] = [1, 7, 512];

/// Whether frames are told of so, whole and in pieces of each size; and where they are a tape, whether all give the
/// same words.
fn are_told(frames: &[u8], wanted: Option<TapeFault>) -> bool {
    let whole = read_tape(frames);
    for piece in PIECES {
        let mut source = MemorySource::new(frames).in_pieces(piece.max(1));
        if read_from(&mut source) != whole {
            return false;
        }
    }
    whole.err() == wanted
}

#[test]
fn a_tape_that_is_cut_anywhere_is_told(rt: HostRuntime) {
    for count in 0..=88usize {
        let wanted = match count {
            0..=16 => Some(TapeFault::NoWord),
            17..=72 => Some(TapeFault::Truncated),
            _ => None,
        };
        assert!(rt; are_told(&HELLO_TAPE[..count], wanted), "{count}");
    }
    assert!(rt; read_tape(HELLO_TAPE) == Ok(image(&HELLO_WORDS)));
    let long = [0o200; 65_537];
    assert!(rt; are_told(&long, Some(TapeFault::TooLong)));
    assert!(rt; are_told(&long[..65_536], Some(TapeFault::NoWord)));
}

#[test]
fn a_read_of_a_tape_that_fails_is_told(rt: HostRuntime) {
    for reads in 0..73usize {
        let mut source = MemorySource::new(HELLO_TAPE)
            .in_pieces(1)
            .failing_after(reads);
        assert!(rt;
            read_from(&mut source) == Err(TapeFault::ReadFault),
            "{reads}"
        );
        assert!(rt; source.failed());
    }
    // The 73rd frame begins the trailer, so the 74th is not read.
    let mut source = MemorySource::new(HELLO_TAPE).in_pieces(1).failing_after(73);
    assert!(rt; read_from(&mut source).is_ok());
    assert!(rt; !source.failed());
}

/// The fault of a certificate that comes in pieces of this size, of which a read fails after so many.
fn told_of(
    heap: Global,
    text: &[u8],
    piece: usize,
    reads: usize,
) -> (Option<CertificateFault>, bool) {
    let mut source = MemorySource::new(text)
        .in_pieces(piece.max(1))
        .failing_after(reads);
    let fault = Certificate::read_from(heap, &mut source).err();
    (fault, source.failed())
}

/// How many lines a certificate has, if it is told of each front of it, in pieces of each size, which line is lacking.
fn lines_if_told(heap: Global, text: &[u8]) -> Option<usize> {
    let mut lines = 0usize;
    for (cut, byte) in text.iter().enumerate() {
        let wanted = match lines {
            0 => CertificateFault::Version,
            _ => CertificateFault::BadLine(lines.saturating_add(1)),
        };
        for piece in PIECES {
            if told_of(heap, &text[..cut], piece, usize::MAX) != (Some(wanted), false) {
                return None;
            }
        }
        if *byte == b'\n' {
            lines = lines.saturating_add(1);
        }
    }
    Some(lines)
}

#[test]
fn a_certificate_that_is_cut_anywhere_is_told(rt: HostRuntime) {
    assert_eq!(rt; lines_if_told(rt.alloc(), HELLO_CERTIFICATE), Some(35));
    assert_eq!(rt; lines_if_told(rt.alloc(), SEVERAL), Some(12));
}

/// Whether it is told of a certificate that a read fails, after any number of reads, and nothing is told where none does.
fn failures_are_told(heap: Global, text: &[u8]) -> bool {
    for reads in 0..=text.len() {
        if told_of(heap, text, 1, reads) != (Some(CertificateFault::ReadFault), true) {
            return false;
        }
    }
    for piece in PIECES {
        if told_of(heap, text, piece, text.len().saturating_add(1)) != (None, false) {
            return false;
        }
    }
    true
}

#[test]
fn a_read_of_a_certificate_that_fails_is_told(rt: HostRuntime) {
    assert!(rt; failures_are_told(rt.alloc(), HELLO_CERTIFICATE));
    assert!(rt; failures_are_told(rt.alloc(), SEVERAL));
    // A fault is reported before a failure.
    let told = told_of(rt.alloc(), b"PDP8-CERTIFICATE 4\nmore", 1, 19);
    assert_eq!(rt; told, (Some(CertificateFault::Version), false));
}

/// Gives some bytes and then one for ever, and counts what it gave.
#[derive(Drop)]
struct EndlessReader {
    front: &'static [u8],
    byte: u8,
    given: usize,
}

impl ByteSource for EndlessReader {
    ghost use Rattle.std.specs.Prelude.{None, false};

    ghost remaining = { λ _. None };

    ghost mark = { λ _. false };

    ghost ended = { λ _. false };

    fn read(&mut self, piece: &mut [u8]) -> Result<usize, Failed> {
        piece.fill(self.byte);
        let (front, rest) = self.front.split_at(self.front.len().min(piece.len()));
        piece[..front.len()].copy_from_slice(front);
        self.front = rest;
        self.given = self.given.saturating_add(piece.len());
        Ok(piece.len())
    }

    fn failed(&self) -> bool {
        false
    }
}

impl EndlessReader {
    fn new(front: &'static [u8], byte: u8) -> EndlessReader {
        EndlessReader {
            front,
            byte,
            given: 0,
        }
    }
}

/// Texts that never end, their faults, and how many bytes are read of them.
const ENDLESS: [(&[u8], CertificateFault, usize); 4] = [
    (b"PDP8-CERTIFICATE 4\n", CertificateFault::Version, 512),
    (
        b"PDP8-CERTIFICATE 1\nmore\n",
        CertificateFault::BadLine(2),
        512,
    ),
    (
        b"PDP8-CERTIFICATE 1\n",
        CertificateFault::TooMany,
        1_048_577,
    ),
    (
        b"PDP8-CERTIFICATE 3\n",
        CertificateFault::TooMany,
        1_048_577,
    ),
];

#[test]
fn no_more_is_read_than_the_answer_needs(rt: HostRuntime) {
    let mut source = EndlessReader::new(b"", 0o200);
    assert!(rt; read_from(&mut source) == Err(TapeFault::TooLong));
    assert_eq!(rt; source.given, 65_537);
    for (front, fault, given) in &ENDLESS {
        let mut source = EndlessReader::new(front, b'x');
        let told = Certificate::read_from(rt.alloc(), &mut source).err();
        assert_eq!(rt; told, Some(*fault));
        assert_eq!(rt; source.given, *given, "{fault}");
    }
}
