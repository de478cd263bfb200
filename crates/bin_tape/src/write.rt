//! Writing a tape.

ghost use Rattle.std.specs.Prelude.{◌≡◌, ◌↔◌, ◌+◌, ◌%◌, ◌≤◌, ◌<◌, ◌++◌, ◌∷◌, [], false, Err, length, replicate, sum, OnOk, IfSome, IsNone};
ghost use Rattle.std.specs.Io.KnownBytes.{Appends};
ghost use Rattle.streams.specs.Bytes.{AppendsFront};
ghost use Rattle.bin_tape.specs.Image.{IsEmptyImage};
ghost use Rattle.bin_tape.specs.Tape.{frames, IsTape};
ghost use Rattle.bin_tape.specs.Written.{cell_words, words_below, word_frames, written_tape, failed_to_write};
ghost use Rattle.bin_tape.specs.declared.fault.WriteTapeFault.TheVariants.{EmptyImage, WriteFault};

use crate::fault::WriteTapeFault;
use crate::image::Image;
use crate::laws::written_tapes_read_back;
use crate::word::TapeWord;
use std::marker::Model;
use streams::{ByteSink, put};
use word12::Word;

/// How many frames 0200 stand before the first word, and after the checksum.
const LEADER: usize = 16;

/// How many frames a tape has at most: those of 4096 words and one origin, the checksum and both
/// leaders. Where runs are more, words are fewer.
const ROOM: usize = 2 * 4097 + 2 + 2 * LEADER;

/// The frames of a tape, gathered before they go out.
#[derive(Drop)]
struct Frames {
    bytes: [u8; ROOM],
    count: usize,
}

impl Model for Frames {
    ghost use Rattle.std.specs.Prelude.{List, ℕ, take, ◌≤◌};

    ghost Value = { List ℕ };

    ghost view = { λ frames. take frames.count frames.bytes };

    ghost invariant = { λ frames. frames.count ≤ 8228 };
}

impl Frames {
    fn new() -> Frames
        ensures { result ≡ [] }
    {
        Frames {
            bytes: [0; ROOM],
            count: 0,
        }
    }

    fn as_slice(&self) -> &[u8]
        ensures { result.now ≡ self.now }
    {
        &self.bytes[..self.count]
    }

    fn push(&mut self, frame: u8)
        requires { length self.old < 8228 }
        ensures { self.new ≡ self.old ++ frame ∷ [] }
    {
        self.bytes[self.count] = frame;
        self.count += 1;
    }

    fn push_word(&mut self, word: TapeWord)
        requires { length self.old + 2 ≤ 8228 }
        ensures { self.new ≡ self.old ++ frames word }
    {
        let [first, second] = word.frames();
        self.push(first);
        self.push(second);
    }

    fn push_leader(&mut self)
        requires { length self.old + 16 ≤ 8228 }
        ensures { self.new ≡ self.old ++ replicate 16 128 }
    {
        for _ in 0..LEADER {
            self.push(0o200);
        }
    }

    /// The words that an address brings: its word, after an origin where a run begins.
    #[tactic(auto, unfolding(crate::specs::Written::word_frames))]
    fn push_cell(&mut self, address: Word, begins: bool, cell: Option<Word>)
        requires { length self.old + 4 ≤ 8228 }
        ensures { self.new ≡ self.old ++ word_frames (cell_words address begins cell) }
    {
        let Some(word) = cell else {
            return;
        };
        if begins {
            self.push_word(TapeWord::Origin(address));
        }
        self.push_word(TapeWord::Data(word));
    }

    /// The words of an image, with an origin where a run of consecutive addresses begins.
    fn push_image(&mut self, image: &Image)
        requires { length self.old ≤ 16 }
        ensures words { self.new ≡ self.old ++ word_frames (words_below image.now 4096) }
        ensures fits { length self.new ≤ length self.old + 8194 }
    {
        let mut begins = true;
        for at in 0..4096usize {
            let address = Word::from_index(at);
            let cell = image.get(address);
            self.push_cell(address, begins, cell);
            begins = cell.is_none();
        }
    }
}

/// The sum of frames, modulo 4096.
fn frame_sum(frames: &[u8]) -> Word
    ensures { result ≡ sum frames.now % 4096 }
{
    let mut sum = Word::ZERO;
    for frame in frames {
        sum = sum.add(Word::from_byte(*frame));
    }
    sum
}

/// The whole tape of an image, or nothing if it has no word.
fn tape_of(image: &Image) -> Option<Frames>
    ensures empty { IsNone result ↔ IsEmptyImage image.now }
    ensures tape { IfSome result (λ tape. tape ≡ written_tape image.now) }
{
    let mut tape = Frames::new();
    tape.push_leader();
    tape.push_image(image);
    let words = &tape.as_slice()[LEADER..];
    if words.is_empty() {
        return None;
    }
    let sum = frame_sum(words);
    tape.push_word(TapeWord::Data(sum));
    tape.push_leader();
    Some(tape)
}

/// Writes the tape of an image: 16 frames 0200, for each run of consecutive addresses in rising
/// order an origin and its words, the checksum, and 16 frames 0200.
///
/// # Errors
///
/// `EmptyImage` where the image has no word; nothing is written then. `WriteFault` where a write
/// failed or took nothing, which the mark shows; a prefix of the tape went out before it.
pub fn write_tape<W: ByteSink>(image: &Image, sink: &mut W) -> Result<(), WriteTapeFault>
    requires unmarked { W.mark sink.old ≡ false }
    ensures whole { OnOk result
        (Appends (W.taken sink.old) (W.taken sink.new) (written_tape image.now)) }
    // What went out is a tape with this image.
    ensures tape { OnOk result (IsTape (written_tape image.now) image.now) }
    ensures empty { (result ≡ Err EmptyImage) ↔ IsEmptyImage image.now }
    ensures nothing { result ≡ Err EmptyImage → sink.new ≡ sink.old }
    ensures front { result ≡ Err WriteFault →
        AppendsFront (W.taken sink.old) (W.taken sink.new) (written_tape image.now) }
    ensures marks { W.mark sink.new ≡ failed_to_write result }
{
    let Some(tape) = tape_of(image) else {
        return Err(WriteTapeFault::EmptyImage);
    };
    written_tapes_read_back(image);
    match put(sink, tape.as_slice()) {
        Ok(()) => Ok(()),
        Err(_) => Err(WriteTapeFault::WriteFault),
    }
}
