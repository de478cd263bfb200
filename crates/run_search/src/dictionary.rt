//! Values for inputs: those of which the tape's words speak, a few usual ones, and any other.

use crate::input_request::InputRequest;
use crate::random::Random;
use bin_tape::Image;
use peripherals::NoMemory;
use std::alloc::Allocator;
use word12::Word;

/// Bytes that many programs look for: return, line feed, space, rub out and A.
const USUAL: [u16; 5] = [0o215, 0o212, 0o240, 0o377, 0o301];

/// The digit 0, with channel 8.
const DIGIT: u16 = 0o260;

/// Channel 8 of a byte.
const CHANNEL_8: u16 = 0o200;

/// The values that are likely as inputs.
#[derive(Drop)]
pub(crate) struct Dictionary<A: Allocator> {
    bytes: Vec<u16, A>,
    words: Vec<u16, A>,
    /// Bytes at which failed tests hint.
    learned: Vec<u16, A>,
    /// Words for the switches at which failed tests hint.
    learned_words: Vec<u16, A>,
}

impl<A: Allocator + Copy> Dictionary<A> {
    /// What a tape speaks of: its words, and each byte that is a word or the negative of one, with its
    /// neighbours.
    pub(crate) fn of(alloc: A, image: &Image) -> Result<Dictionary<A>, NoMemory> {
        let mut dictionary = Dictionary {
            bytes: Vec::new(alloc),
            words: Vec::new(alloc),
            learned: Vec::new(alloc),
            learned_words: Vec::new(alloc),
        };
        for byte in USUAL {
            dictionary.bytes.push(byte).map_err(|_| NoMemory)?;
        }
        dictionary.words.push(0).map_err(|_| NoMemory)?;
        dictionary.add_tape(image)?;
        Ok(dictionary)
    }

    /// Adds what the words of a tape speak of.
    fn add_tape(&mut self, image: &Image) -> Result<(), NoMemory> {
        for index in 0..4096usize {
            if let Some(word) = image.get(Word::from_index(index)) {
                self.words.push(word.value()).map_err(|_| NoMemory)?;
                self.add_near(word.value())?;
                self.add_near(word.complement().increment().value())?;
            }
        }
        Ok(())
    }

    /// Adds a value and its neighbours, if it is a byte.
    fn add_near(&mut self, value: u16) -> Result<(), NoMemory> {
        if value > 0o377 {
            return Ok(());
        }
        for byte in [value, value.wrapping_add(1), value.wrapping_sub(1)] {
            self.bytes.push(byte & 0o377).map_err(|_| NoMemory)?;
        }
        Ok(())
    }

    /// Forgets all bytes that were learned.
    pub(crate) fn forget(&mut self) {
        self.learned.clear();
    }

    /// Learns a byte.
    pub(crate) fn learn(&mut self, byte: u16) -> Result<(), NoMemory> {
        if self.learned.contains(&byte) {
            return Ok(());
        }
        self.learned.push(byte).map_err(|_| NoMemory)
    }

    /// Learns a word for the switches.
    pub(crate) fn learn_word(&mut self, word: u16) -> Result<(), NoMemory> {
        if self.learned_words.contains(&word) {
            return Ok(());
        }
        self.learned_words.push(word).map_err(|_| NoMemory)
    }

    /// A byte: mostly one that was learned, or one of which the tape speaks.
    pub(crate) fn byte(&self, random: &mut Random) -> u16 {
        match random.below(8) {
            0 => any_byte(random),
            1 | 2 => random.pick(&self.bytes).unwrap_or(0),
            _ => match random.pick(&self.learned) {
                Some(byte) => byte,
                None => random.pick(&self.bytes).unwrap_or(0),
            },
        }
    }

    /// A word for the switches: one that was learned, one of the tape, or another.
    fn word(&self, random: &mut Random) -> u16 {
        match random.below(8) {
            0 | 1 => match random.pick(&self.learned_words) {
                Some(word) => word,
                None => random.pick(&self.words).unwrap_or(0),
            },
            2 | 3 => any_word(random),
            4 | 5 => random.pick(&self.words).unwrap_or(0),
            6 => self.byte(random),
            _ => high_bits(random.below(12)),
        }
    }

    /// A value for what is asked.
    pub(crate) fn value(&self, random: &mut Random, ask: InputRequest) -> u16 {
        match ask {
            InputRequest::Key | InputRequest::Frame => self.byte(random),
            InputRequest::Switches => self.word(random),
        }
    }

    /// One to five bytes, from which all inputs of a run are to be taken: so a long line of the same few
    /// characters is as likely as a short one.
    pub(crate) fn few(&self, alloc: A, random: &mut Random) -> Result<Vec<u16, A>, NoMemory> {
        let mut few = Vec::new(alloc);
        for _ in 0..1 + random.below(4) {
            let byte = if random.once_in(4) {
                any_byte(random)
            } else {
                self.byte(random)
            };
            few.push(byte).map_err(|_| NoMemory)?;
        }
        if random.once_in(2) {
            few.push(digit(random)).map_err(|_| NoMemory)?;
        }
        Ok(few)
    }
}

/// Any byte.
fn any_byte(random: &mut Random) -> u16 {
    any_word(random) & 0o377
}

/// Any word.
fn any_word(random: &mut Random) -> u16 {
    (random.below(4096) & 0o7777) as u16
}

/// A digit from 0 to 9.
fn digit(random: &mut Random) -> u16 {
    DIGIT + ((random.below(10) & 0o17) as u16)
}

/// All bits of a word but so many low ones.
fn high_bits(low: usize) -> u16 {
    let ones = 0o7777u16;
    (ones << (low & 0o17)) & ones
}
