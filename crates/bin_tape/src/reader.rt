//! The one core that reads a tape, a frame at a time.

ghost use Rattle.std.specs.Prelude.{◌≡◌, ◌+◌, ◌<◌, ◌^◌, length, ◌∷◌, [], List, Err, false};
ghost use Rattle.bin_tape.specs.Tape.{Part, words};
ghost use Rattle.bin_tape.specs.Reading.{Progress, Between, begun, ended, next, run, Answers};
ghost use Rattle.bin_tape.specs.Serving.{is_read_fault};
ghost use Rattle.bin_tape.specs.Holds.{Settles, Holds, Shows, Tells, EndsAs, IsOpen};
ghost use Rattle.bin_tape.specs.declared.word.TapeWord.{TapeWord};

use crate::fault::TapeFault;
use crate::image::Image;
use crate::word::TapeWord;
use word12::Word;

/// What the next frame is.
#[derive(Clone, Copy, PartialEq, Eq, Debug)]
pub enum ReaderState {
    /// It begins a word, or is skipped.
    Between,
    /// It is the second frame of a word, after this one.
    Second(u8),
    /// It is skipped, up to the next rubout.
    Skipping,
}

/// What a frame brought.
#[derive(Clone, Copy, PartialEq, Eq, Debug)]
pub enum FrameResult {
    /// No answer: another frame is wanted.
    More,
    /// The trailer, where the tape ends.
    End,
    /// A frame that ends every tape.
    Fault(TapeFault),
}

/// Reads a tape frame by frame. The last word that came is kept apart, since it may be the
/// checksum; all the others are in the image and in the sum.
#[derive(Drop)]
pub struct TapeParser {
    pub(crate) image: Image,
    pub(crate) location: Word,
    pub(crate) sum: Word,
    pub(crate) last: Option<TapeWord>,
    pub(crate) place: ReaderState,
}

impl TapeParser {
    /// No frame has come.
    pub(crate) fn new() -> TapeParser
        ensures { Shows (Between []) result }
    {
        TapeParser {
            image: Image::empty(),
            location: Word::ZERO,
            sum: Word::ZERO,
            last: None,
            place: ReaderState::Between,
        }
    }

    /// The word is no checksum, since another follows.
    fn settle(&mut self, word: TapeWord)
        ensures settled { (before : List TapeWord) →
            Settles before self.old → Settles (word ∷ before) self.new }
        ensures place { self.new.place ≡ self.old.place }
        ensures last { self.new.last ≡ self.old.last }
    {
        match word {
            TapeWord::Origin(origin) => self.location = origin,
            TapeWord::Data(value) => {
                self.image.set(self.location, value);
                self.location = self.location.increment();
            }
        }
        let [first, second] = word.frames();
        self.sum = self.sum.add(Word::from_byte(first));
        self.sum = self.sum.add(Word::from_byte(second));
    }

    /// A whole word has come.
    fn take(&mut self, word: TapeWord)
        ensures held { (before : List TapeWord) →
            Holds before self.old → Holds (word ∷ before) self.new }
        ensures place { self.new.place ≡ self.old.place }
    {
        if let Some(last) = self.last {
            self.settle(last);
        }
        self.last = Some(word);
    }

    /// What the frame 0200 is: `false` where no word came before it, and it is skipped; `true`
    /// where it is the trailer after a checksum.
    fn end(&self) -> Result<bool, TapeFault>
        ensures { (parts : List Part) →
            Holds (words parts) self.now → EndsAs (ended parts (words parts)) result }
    {
        match self.last {
            None => Ok(false),
            Some(TapeWord::Origin(_)) => Err(TapeFault::NoChecksum),
            Some(TapeWord::Data(read)) => {
                if read == self.sum {
                    Ok(true)
                } else {
                    Err(TapeFault::Checksum(read, self.sum))
                }
            }
        }
    }

    /// A frame that begins a word, or is skipped.
    fn begin(&mut self, at: usize, frame: u8) -> FrameResult
        requires { self.old.place ≡ ReaderState.Between }
        ensures { (parts : List Part) → Holds (words parts) self.old →
            Shows (begun at parts frame) self.new × Tells (begun at parts frame) result }
    {
        match frame {
            0 if self.last.is_none() => {}
            0..=0o77 if self.last.is_none() => return FrameResult::Fault(TapeFault::NoOrigin),
            0..=0o177 => self.place = ReaderState::Second(frame),
            0o200 => match self.end() {
                Ok(false) => {}
                Ok(true) => return FrameResult::End,
                Err(fault) => return FrameResult::Fault(fault),
            },
            0o300 => {}
            0o377 => self.place = ReaderState::Skipping,
            0o310..=0o370 if frame % 8 == 0 => return FrameResult::Fault(TapeFault::WrongField(at)),
            _ => return FrameResult::Fault(TapeFault::BadFrame(at)),
        }
        FrameResult::More
    }

    /// Takes the frame at this place of the tape.
    pub(crate) fn feed(&mut self, at: usize, frame: u8) -> FrameResult
        ensures { (p : Progress) → Shows p self.old → IsOpen p →
            Shows (next at p frame) self.new × Tells (next at p frame) result }
    {
        match self.place {
            ReaderState::Between => return self.begin(at, frame),
            ReaderState::Second(first) => {
                if frame >= 0o100 {
                    return FrameResult::Fault(TapeFault::BadFrame(at));
                }
                self.take(TapeWord::of_frames(first, frame));
                self.place = ReaderState::Between;
            }
            ReaderState::Skipping => {
                if frame == 0o377 {
                    self.place = ReaderState::Between;
                }
            }
        }
        FrameResult::More
    }

    /// Takes all these frames, the first of them at this place of the tape, up to the one that
    /// brings an answer.
    pub(crate) fn feed_all(&mut self, at: usize, frames: &[u8]) -> FrameResult
        requires { at + length frames.now < 2 ^ 32 }
        ensures { (p : Progress) → Shows p self.old → IsOpen p →
            Shows (run at p frames.now) self.new × Tells (run at p frames.now) result }
    {
        for (i, frame) in frames.iter().enumerate() {
            match self.feed(at + i, *frame) {
                FrameResult::More => {}
                answer => return answer,
            }
        }
        FrameResult::More
    }

    /// The fault of a list that ends here.
    pub(crate) fn unfinished(&self) -> TapeFault
        ensures answer { (p : Progress) →
            Shows p self.now → IsOpen p → Answers false p (Err result) }
        ensures no_read { is_read_fault result ≡ false }
    {
        match (self.place, self.last) {
            (ReaderState::Between, None) => TapeFault::NoWord,
            _ => TapeFault::Truncated,
        }
    }
}
