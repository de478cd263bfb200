//! Words of twelve bits and the link: the numbers that a PDP-8 computes with.
//!
//! The machine counts bits from the most significant one, bit 0, to the least, bit 11. Contracts
//! see a word as a number below 4096 and a link as 0 or 1.
#![tactic(auto)]

ghost use Rattle.std.specs.Prelude.{◌≡◌, true, ◌+◌, ◌-◌, ◌*◌, ◌/◌, ◌%◌, ◌<◌, ◌≤◌, ◌↔◌, IsTrue, nat_le};
ghost use Rattle.std.specs.Option.{SomeIff};
ghost use Rattle.std.specs.List.{list_all};
ghost use Rattle.std.specs.Int.RustNames.{bit_and, bit_or};
ghost use Rattle.word12.specs.Words.{left_word, left_link, right_word, right_link, octal_text};
ghost use Rattle.word12.specs.Octal.{octal_reading, octal_value, is_octal_digit};

pub mod laws;

use std::fmt;
use std::marker::Model;
use thiserror::Error;

/// A word of twelve bits: a number from 0 to 4095.
#[derive(Clone, Copy, PartialEq, Eq, PartialOrd, Ord, Hash, Debug)]
pub struct Word {
    value: u16,
}

impl Model for Word {
    ghost use Rattle.std.specs.Prelude.{ℕ, ◌<◌};

    ghost Value = { ℕ };

    ghost view = { λ w. w.value };

    ghost invariant = { λ w. w.value < 4096 };

    ghost inverse = { λ n. record { value = n } };
}

/// The link: the single bit above the accumulator, which a carry complements and rotates pass
/// through.
#[derive(Clone, Copy, PartialEq, Eq, PartialOrd, Ord, Hash, Debug)]
pub struct Link {
    bit: u16,
}

impl Model for Link {
    ghost use Rattle.std.specs.Prelude.{ℕ, ◌<◌};

    ghost Value = { ℕ };

    ghost view = { λ l. l.bit };

    ghost invariant = { λ l. l.bit < 2 };

    ghost inverse = { λ n. record { bit = n } };
}

/// Why a text spells no word.
#[derive(Clone, Copy, PartialEq, Eq, Debug, Error)]
pub enum OctalFault {
    /// There is no character.
    #[error("a word has at least one octal digit")]
    Empty,
    /// A character is none of the digits 0 to 7.
    #[error("a word has octal digits alone, 0 to 7")]
    NotOctal,
    /// The digits spell a number above 7777 octal.
    #[error("a word is at most 7777")]
    TooLarge,
}

impl Link {
    /// The link that is 0.
    pub const CLEAR: Link = Link { bit: 0 };

    /// The link that is 1.
    pub const SET: Link = Link { bit: 1 };

    /// Whether the link is 1.
    pub fn is_set(self) -> bool
        ensures { IsTrue result ↔ (self ≡ 1) }
    {
        self.bit == 1
    }

    /// The other link.
    pub fn complement(self) -> Link
        ensures { result ≡ 1 - self }
    {
        Link { bit: 1 - self.bit }
    }
}

impl fmt::Display for Link {
    /// Writes `0` or `1`.
    fn fmt<W: fmt::Write>(&self, f: &mut fmt::Formatter<W>) -> fmt::Result {
        let bit = self.bit;
        write!(f, "{bit}")
    }
}

impl Word {
    /// The word 0.
    pub const ZERO: Word = Word { value: 0 };

    /// The word of a number, if the number is below 4096.
    pub fn new(value: u16) -> Option<Word>
        ensures { SomeIff result (value < 4096) value }
    {
        if value < 4096 {
            Some(Word { value })
        } else {
            None
        }
    }

    /// The word of an index that is known to be below 4096, as into the cells of a memory.
    pub fn from_index(index: usize) -> Word
        requires { index < 4096 }
        ensures { result ≡ index }
    {
        Word {
            value: index as u16,
        }
    }

    /// The word of a byte: its eight bits are the low ones, and the four above are clear.
    pub fn from_byte(byte: u8) -> Word
        ensures same { result ≡ byte }
        ensures small { result < 256 }
    {
        Word {
            value: u16::from(byte),
        }
    }

    /// The word of two halves of six bits, as the frames of a paper tape carry it.
    pub fn from_halves(high: u8, low: u8) -> Word
        requires high { high < 64 }
        requires low { low < 64 }
        ensures { result ≡ 64 * high + low }
    {
        Word {
            value: 64 * u16::from(high) + u16::from(low),
        }
    }

    /// The number of the word.
    pub fn value(self) -> u16
        ensures same { result ≡ self }
        ensures small { result < 4096 }
    {
        self.value
    }

    /// The number of the word, as an index.
    pub fn index(self) -> usize
        ensures same { result ≡ self }
        ensures small { result < 4096 }
    {
        usize::from(self.value)
    }

    /// The low eight bits, as a device takes them from the accumulator.
    pub fn low_byte(self) -> u8
        ensures { result ≡ self % 256 }
    {
        (self.value & 0o377) as u8
    }

    /// The high six bits.
    pub fn high_half(self) -> u8
        ensures same { result ≡ self / 64 }
        ensures small { result < 64 }
    {
        (self.value >> 6) as u8
    }

    /// The low six bits.
    pub fn low_half(self) -> u8
        ensures same { result ≡ self % 64 }
        ensures small { result < 64 }
    {
        (self.value & 0o77) as u8
    }

    /// The sum modulo 4096.
    pub fn add(self, other: Word) -> Word
        ensures { result ≡ (self + other) % 4096 }
    {
        Word {
            value: (self.value + other.value) % 4096,
        }
    }

    /// Whether the sum with another word carries out of the twelve bits.
    pub fn carries(self, other: Word) -> bool
        ensures { IsTrue result ↔ (4096 ≤ self + other) }
    {
        self.value + other.value >= 4096
    }

    /// The next word; 0000 comes after 7777.
    pub fn increment(self) -> Word
        ensures { result ≡ (self + 1) % 4096 }
    {
        Word {
            value: (self.value + 1) % 4096,
        }
    }

    /// The bitwise and.
    pub fn and(self, other: Word) -> Word
        ensures { result ≡ bit_and self other }
    {
        Word {
            value: self.value & other.value,
        }
    }

    /// The bitwise inclusive or.
    #[tactic(auto, using(crate::proofs::Bits::or_below))]
    pub fn or(self, other: Word) -> Word
        ensures { result ≡ bit_or self other }
    {
        Word {
            value: self.value | other.value,
        }
    }

    /// The word with each bit complemented.
    pub fn complement(self) -> Word
        ensures { result ≡ 4095 - self }
    {
        Word {
            value: 0o7777 - self.value,
        }
    }

    /// Whether bit 0 is set, which is the sign where a word stands for a signed number.
    pub fn is_negative(self) -> bool
        ensures { result ≡ nat_le 2048 self }
    {
        self.value >= 0o4000
    }

    /// Each bit moves up by one place: the link comes in at the lowest, and the highest goes out
    /// into the link.
    pub fn rotate_left(self, link: Link) -> (Word, Link)
        ensures { result ≡ (left_word self link, left_link self) }
    {
        (
            Word {
                value: (self.value << 1 | link.bit) & 0o7777,
            },
            Link {
                bit: self.value >> 11,
            },
        )
    }

    /// Each bit moves down by one place: the link comes in at the highest, and the lowest goes
    /// out into the link.
    pub fn rotate_right(self, link: Link) -> (Word, Link)
        ensures { result ≡ (right_word self link, right_link self) }
    {
        (
            Word {
                value: link.bit << 11 | self.value >> 1,
            },
            Link {
                bit: self.value & 1,
            },
        )
    }

    /// The word with its high and its low six bits exchanged.
    #[tactic(auto, using(crate::proofs::Bits::exchanged_halves))]
    pub fn exchange_halves(self) -> Word
        ensures { result ≡ self % 64 * 64 + self / 64 }
    {
        Word {
            value: (self.value & 0o77) << 6 | self.value >> 6,
        }
    }

    /// The number of the page that an address lies in, 0 to 37 octal; a page has 128 cells.
    pub fn page(self) -> Word
        ensures { result ≡ self / 128 }
    {
        Word {
            value: self.value >> 7,
        }
    }

    /// The place of an address in its page, 0 to 177 octal.
    pub fn place(self) -> Word
        ensures { result ≡ self % 128 }
    {
        Word {
            value: self.value & 0o177,
        }
    }

    /// The address with this word's place in the page of another address.
    #[tactic(auto, using(crate::proofs::Bits::page_or_place))]
    pub fn in_page_of(self, at: Word) -> Word
        ensures { result ≡ at / 128 * 128 + self % 128 }
    {
        Word {
            value: (at.value & 0o7600) | (self.value & 0o177),
        }
    }

    /// The four octal digits of the word, as characters, the most significant first.
    pub fn to_octal(self) -> [u8; 4]
        ensures { result ≡ octal_text self }
    {
        [
            b'0' + (self.value >> 9) as u8,
            b'0' + (self.value >> 6 & 7) as u8,
            b'0' + (self.value >> 3 & 7) as u8,
            b'0' + (self.value & 7) as u8,
        ]
    }

    /// The word that octal digits spell, the most significant first; leading zeros are taken.
    ///
    /// # Errors
    ///
    /// In this order: `Empty` for no character, `NotOctal` where a character is not one of 0 to 7,
    /// `TooLarge` for a number above 7777 octal.
    pub fn from_octal(text: &[u8]) -> Result<Word, OctalFault>
        ensures { result ≡ octal_reading text.now }
    {
        if text.is_empty() {
            return Err(OctalFault::Empty);
        }
        if !is_octal(text) {
            return Err(OctalFault::NotOctal);
        }
        match octal_number(text) {
            Some(value) => Ok(Word { value }),
            None => Err(OctalFault::TooLarge),
        }
    }
}

impl fmt::Display for Word {
    /// Writes four octal digits.
    fn fmt<W: fmt::Write>(&self, f: &mut fmt::Formatter<W>) -> fmt::Result {
        let value = self.value;
        write!(f, "{value:04o}")
    }
}

fn is_octal(text: &[u8]) -> bool
    ensures { result ≡ list_all is_octal_digit text.now }
{
    text.iter().all(|digit| b'0' <= *digit && *digit <= b'7')
}

/// The number that octal digits spell, if it is below 4096.
#[tactic(auto, using(crate::proofs::OctalLemmas::octal_steps))]
fn octal_number(text: &[u8]) -> Option<u16>
    requires { list_all is_octal_digit text.now ≡ true }
    ensures { SomeIff result (octal_value text.now < 4096) (octal_value text.now) }
{
    let mut value = 0u16;
    for digit in text {
        value = value * 8 + u16::from(*digit - b'0');
        if value >= 4096 {
            return None;
        }
    }
    Some(value)
}
