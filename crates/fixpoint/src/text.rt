//! The text of a certificate, written piece by piece.

use crate::fault::SearchFault;
use certificate_lines::Version;
use domain::{BriefSet, Chain, Location, Relation, ReturnOffsets, Step, Sum, Summand, Term};
use std::alloc::Allocator;
use word12::{Link, Word};
use wordset::{Links, WordSet};

/// The most bytes of a certificate that is read.
const MOST_BYTES: usize = 1_048_576;

/// A text of a version that grows.
#[derive(Drop)]
pub(crate) struct CertificateText<A: Allocator> {
    pub(crate) version: Version,
    bytes: Vec<u8, A>,
}

/// The offsets as a set of words.
pub(crate) fn words_of(offsets: ReturnOffsets) -> WordSet {
    let mut set = WordSet::empty();
    for offset in 0..64usize {
        if offsets.contains(offset) {
            set.insert(Word::from_index(offset));
        }
    }
    set
}

impl<A: Allocator> CertificateText<A> {
    /// No text.
    pub(crate) fn new(alloc: A, version: Version) -> CertificateText<A> {
        CertificateText {
            version,
            bytes: Vec::new(alloc),
        }
    }

    /// Adds the first line.
    pub(crate) fn push_version(&mut self) -> Result<(), SearchFault> {
        match self.version {
            Version::One => self.push(b"PDP8-CERTIFICATE 1\n"),
            Version::Two => self.push(b"PDP8-CERTIFICATE 2\n"),
            Version::Three => self.push(b"PDP8-CERTIFICATE 3\n"),
        }
    }

    /// Whether it has the form of version 3.
    pub(crate) fn is_of_sums(&self) -> bool {
        matches!(self.version, Version::Three)
    }

    /// Whether it has more bytes than are read.
    pub(crate) fn is_long(&self) -> bool {
        self.bytes.len() > MOST_BYTES
    }

    /// The text.
    pub(crate) fn as_bytes(&self) -> &[u8] {
        self.bytes.as_slice()
    }

    /// Adds a piece.
    pub(crate) fn push(&mut self, piece: &[u8]) -> Result<(), SearchFault> {
        match self.bytes.extend_from_slice(piece) {
            Ok(()) => Ok(()),
            Err(_) => Err(SearchFault::NoMemory),
        }
    }

    /// Adds a word in four digits.
    pub(crate) fn push_word(&mut self, word: Word) -> Result<(), SearchFault> {
        let [a, b, c, d] = word.to_octal();
        self.push(&[a, b, c, d])
    }

    /// Adds a small number in two digits.
    pub(crate) fn push_two_digits(&mut self, word: Word) -> Result<(), SearchFault> {
        let [_, _, c, d] = word.to_octal();
        self.push(&[c, d])
    }

    /// Adds a set of words.
    pub(crate) fn push_set(&mut self, set: &WordSet) -> Result<(), SearchFault> {
        if set.is_empty() {
            return self.push(b"-");
        }
        let mut comma: &[u8] = b"";
        for (low, high) in set.ranges() {
            self.push(comma)?;
            comma = b",";
            self.push_word(low)?;
            if high != low {
                self.push(b"-")?;
                self.push_word(high)?;
            }
        }
        Ok(())
    }

    /// Adds a set of words that is kept briefly.
    pub(crate) fn push_brief_set(&mut self, set: &BriefSet) -> Result<(), SearchFault> {
        let mut words = WordSet::empty();
        set.put(&mut words);
        self.push_set(&words)
    }

    /// Adds an offset: in versions 1 and 2 in one digit.
    pub(crate) fn push_offset(&mut self, offset: usize) -> Result<(), SearchFault> {
        let [_, _, c, d] = Word::from_index(offset.min(63)).to_octal();
        if self.is_of_sums() {
            self.push(&[c, d])
        } else {
            self.push(&[d])
        }
    }

    /// Adds offsets.
    pub(crate) fn push_offsets(&mut self, offsets: ReturnOffsets) -> Result<(), SearchFault> {
        let set = words_of(offsets);
        if set.is_empty() {
            return self.push(b"-");
        }
        if self.is_of_sums() {
            self.push_offset_rows(&set)
        } else {
            self.push_offset_digits(&set)
        }
    }

    /// Adds a digit for each offset.
    fn push_offset_digits(&mut self, set: &WordSet) -> Result<(), SearchFault> {
        for offset in set.iter() {
            self.push_offset(offset.index())?;
        }
        Ok(())
    }

    /// Adds rows of offsets.
    fn push_offset_rows(&mut self, set: &WordSet) -> Result<(), SearchFault> {
        let mut comma: &[u8] = b"";
        for (low, high) in set.ranges() {
            self.push(comma)?;
            comma = b",";
            self.push_two_digits(low)?;
            if high != low {
                self.push(b"-")?;
                self.push_two_digits(high)?;
            }
        }
        Ok(())
    }

    /// Adds links.
    pub(crate) fn push_links(&mut self, links: Links) -> Result<(), SearchFault> {
        if links.contains(Link::CLEAR) {
            self.push(b"0")?;
        }
        if links.contains(Link::SET) {
            self.push(b"1")?;
        }
        Ok(())
    }

    /// Adds the line of an equation, as versions 1 and 2 have it, if a relation is one.
    pub(crate) fn push_equation(
        &mut self,
        relation: &Relation,
        at: Word,
    ) -> Result<(), SearchFault> {
        let [left, right] = relation.sum.summands() else {
            return Err(SearchFault::Stuck(at));
        };
        let Some(more) = relation.set.only() else {
            return Err(SearchFault::Stuck(at));
        };
        self.push(b"equal ")?;
        self.push_term(&left.term)?;
        self.push(b" ")?;
        self.push_term(&right.term)?;
        self.push(b" ")?;
        self.push_word(more)?;
        self.push(b"\n")
    }

    /// Adds a term.
    fn push_term(&mut self, term: &Term) -> Result<(), SearchFault> {
        match term {
            Term::Holding(Location::Accumulator) => self.push(b"AC"),
            Term::Holding(Location::Cell(cell)) => self.push_word(*cell),
            Term::Behind { cell, more } => {
                self.push(b"[")?;
                self.push_word(*cell)?;
                self.push(b"+")?;
                self.push_word(*more)?;
                self.push(b"]")
            }
        }
    }

    /// Adds a summand after the first one.
    fn push_summand(&mut self, summand: &Summand) -> Result<(), SearchFault> {
        match summand.coefficient.index() {
            1 => self.push(b" + ")?,
            4095 => self.push(b" - ")?,
            _ => {
                self.push(b" ")?;
                self.push_word(summand.coefficient)?;
                self.push(b" ")?;
            }
        }
        self.push_term(&summand.term)
    }

    /// Adds a sum, whose first coefficient is 1.
    pub(crate) fn push_sum(&mut self, sum: &Sum) -> Result<(), SearchFault> {
        let mut is_first = true;
        for summand in sum.summands() {
            if is_first {
                self.push_term(&summand.term)?;
                is_first = false;
            } else {
                self.push_summand(summand)?;
            }
        }
        Ok(())
    }

    /// Adds a step of a chain.
    fn push_step(&mut self, step: &Step) -> Result<(), SearchFault> {
        match step {
            Step::Operates(word) => {
                self.push(b" ")?;
                self.push_word(*word)
            }
            Step::Ands(word) => {
                self.push(b" AND ")?;
                self.push_word(*word)
            }
            Step::Adds(word) => {
                self.push(b" TAD ")?;
                self.push_word(*word)
            }
        }
    }

    /// Adds the line of a chain.
    pub(crate) fn push_chain(&mut self, chain: &Chain) -> Result<(), SearchFault> {
        self.push(b"func ")?;
        self.push_word(chain.cell())?;
        self.push(b" ")?;
        self.push_word(chain.more())?;
        self.push(b" link ")?;
        self.push_links(chain.links())?;
        for step in chain.steps() {
            self.push_step(step)?;
        }
        self.push(b"\n")
    }
}
