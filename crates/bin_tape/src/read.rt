//! Reading a tape, whole or in pieces.

ghost use Rattle.std.specs.Prelude.{◌≡◌, ◌≤◌, List, Option, ℕ, length, take, nat_lt, IfOk, IfErr, IfSome, Ok, Err, false};
ghost use Rattle.bin_tape.specs.Tape.{IsTape};
ghost use Rattle.bin_tape.specs.Written.{IsWrittenTape};
ghost use Rattle.bin_tape.specs.Refuses.{Refuses};
ghost use Rattle.streams.specs.Bytes.{Gave};
ghost use Rattle.bin_tape.specs.Serving.{IsUnanswered, IsPrompt, failed_to_read};
ghost use Rattle.bin_tape.specs.Reading.{Answers, reads};
ghost use Rattle.bin_tape.specs.Served.{Serves};
ghost use Rattle.bin_tape.specs.declared.fault.TapeFault.{TapeFault};
ghost use Rattle.bin_tape.specs.declared.fault.TapeFault.TheVariants.{ReadFault};

use crate::fault::TapeFault;
use crate::image::Image;
use crate::reader::{FrameResult, TapeParser};
use streams::ByteSource;

/// How many frames are looked at.
pub const LIMIT: usize = 65_536;

/// How many frames one read asks for at most.
const PIECE: usize = 512;

/// The answer of the frames, by the reading frame by frame.
fn read_whole(frames: &[u8]) -> Result<Image, TapeFault>
    ensures { Answers (nat_lt 65536 (length frames.now)) (reads (take 65536 frames.now)) result }
{
    let mut reader = TapeParser::new();
    for (at, frame) in frames.iter().enumerate() {
        if at == LIMIT {
            return Err(TapeFault::TooLong);
        }
        match reader.feed(at, *frame) {
            FrameResult::More => {}
            FrameResult::End => return Ok(reader.image),
            FrameResult::Fault(fault) => return Err(fault),
        }
    }
    Err(reader.unfinished())
}

/// The image of a tape. At most 65,536 frames are looked at, and none after the trailer.
///
/// # Errors
///
/// The first fault in the order of the frames, and never `ReadFault`.
pub fn read_tape(frames: &[u8]) -> Result<Image, TapeFault>
    // What is read is a tape, whose trailer is within the limit, with this image.
    ensures tape { IfOk result (IsTape (take 65536 frames.now)) }
    // Each such tape is read.
    ensures only { (image : List (Option ℕ)) →
        IsTape (take 65536 frames.now) image → result ≡ Ok image }
    // So the tape that is written of an image is read, as that image.
    ensures written { (image : List (Option ℕ)) →
        IsWrittenTape frames.now image → result ≡ Ok image }
    // A fault comes where it is the tape's,
    ensures refused { IfErr result (Refuses 65536 frames.now) }
    // and whichever is the tape's comes.
    ensures exact { (fault : TapeFault) →
        Refuses 65536 frames.now fault → result ≡ Err fault }
{
    read_whole(frames)
}

/// The answer of the frames that a source gives, by the reading frame by frame.
fn read_source<R: ByteSource>(source: &mut R) -> Result<Image, TapeFault>
    requires unmarked { R.mark source.old ≡ false }
    ensures serves { Serves (R.remaining source.old) (R.remaining source.new) result }
    ensures marks { R.mark source.new ≡ failed_to_read result }
{
    let mut reader = TapeParser::new();
    let mut piece = [0u8; PIECE];
    let mut at = 0;
    while at < LIMIT {
        let room = (LIMIT - at).min(PIECE);
        match source.read(&mut piece[..room]) {
            Err(_) => return Err(TapeFault::ReadFault),
            Ok(count) => {
                if count == 0 {
                    return Err(reader.unfinished());
                }
                match reader.feed_all(at, &piece[..count]) {
                    FrameResult::More => at += count,
                    FrameResult::End => return Ok(reader.image),
                    FrameResult::Fault(fault) => return Err(fault),
                }
            }
        }
    }
    match source.read(&mut piece[..1]) {
        Err(_) => Err(TapeFault::ReadFault),
        Ok(0) => Err(reader.unfinished()),
        Ok(_) => Err(TapeFault::TooLong),
    }
}

/// The image of the tape that a source gives, as [`read_tape`] reads it. It reads only while it
/// needs frames: in all no more than are looked at and one, which tells that another follows.
///
/// # Errors
///
/// `ReadFault` where a read failed before the frames brought an answer; else the first fault in
/// the order of the frames.
pub fn read_from<R: ByteSource>(source: &mut R) -> Result<Image, TapeFault>
    requires unmarked { R.mark source.old ≡ false }
    // What is read is the tape of the source's bytes, whose trailer is within the limit.
    ensures tape { IfOk result (λ image. IfSome (R.remaining source.old)
        (λ bytes. IsTape (take 65536 bytes) image)) }
    // Each such tape is read, unless a read fails.
    ensures only { IfSome (R.remaining source.old) (λ bytes. (image : List (Option ℕ)) →
        IsTape (take 65536 bytes) image → R.mark source.new ≡ false → result ≡ Ok image) }
    // So the tape that is written of an image is read, as that image.
    ensures written { IfSome (R.remaining source.old) (λ bytes. (image : List (Option ℕ)) →
        IsWrittenTape bytes image → R.mark source.new ≡ false → result ≡ Ok image) }
    // If no read failed, a fault comes where it is that of the source's bytes,
    ensures refused { R.mark source.new ≡ false → IfErr result (λ fault.
        IfSome (R.remaining source.old) (λ bytes. Refuses 65536 bytes fault)) }
    // and whichever is that of the bytes comes.
    ensures exact { IfSome (R.remaining source.old) (λ bytes. (fault : TapeFault) →
        Refuses 65536 bytes fault → R.mark source.new ≡ false → result ≡ Err fault) }
    // ReadFault comes if and only if a read failed,
    ensures failed { R.mark source.new ≡ failed_to_read result }
    // and the bytes given before it bring no answer: no trailer has come, and they are no more than
    // are looked at.
    ensures unanswered { result ≡ Err ReadFault →
        Gave (R.remaining source.old) (R.remaining source.new) IsUnanswered }
    // At most 65,537 bytes are taken, and at most 511 past the one that brings the answer.
    ensures limit { Gave (R.remaining source.old) (R.remaining source.new)
        (λ given. length given ≤ 65537) }
    ensures prompt { Gave (R.remaining source.old) (R.remaining source.new) (IsPrompt 511) }
{
    read_source(source)
}
