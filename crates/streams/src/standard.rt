//! std's readers and writers as sources and sinks.

ghost use Rattle.std.specs.Prelude.{◌≡◌, [], false, true};
ghost use Rattle.std.specs.Option.{ForSome};

use crate::bytes::{ByteSink, ByteSource, Failed};
use std::io;

/// A reader of std, and whether a read of it failed or found the end. An interrupted read is tried
/// again, and no read is made after one that found the end.
#[derive(Drop)]
pub struct StdReader<R: io::Read> {
    inner: R,
    failed: bool,
    ended: bool,
    ghost nothing_left: { ended ≡ true → ForSome (R.remaining inner) (λ bytes. bytes ≡ []) },
}

impl<R: io::Read> StdReader<R> {
    /// Reads from this reader.
    pub fn new(inner: R) -> StdReader<R>
        ensures inner { result.inner ≡ inner }
        ensures unmarked { result.failed ≡ false }
        ensures not_ended { result.ended ≡ false }
    {
        StdReader {
            inner,
            failed: false,
            ended: false,
        }
    }
}

impl<R: io::Read> ByteSource for StdReader<R> {
    ghost remaining = { λ source. R.remaining source.inner };

    ghost mark = { λ source. source.failed };

    ghost ended = { λ source. source.ended };

    #[tactic(auto, using(crate::proofs::EndLemmas::known_end, crate::proofs::EndLemmas::end_known))]
    fn read(&mut self, piece: &mut [u8]) -> Result<usize, Failed> {
        if self.ended {
            return Ok(0);
        }
        for _ in 0..u64::MAX {
            match self.inner.read(piece) {
                Ok(count) => {
                    if count == 0 && !piece.is_empty() {
                        self.ended = true;
                    }
                    return Ok(count);
                }
                Err(error) if error.kind() == io::ErrorKind::Interrupted => {}
                Err(_) => break,
            }
        }
        self.failed = true;
        Err(Failed)
    }

    fn failed(&self) -> bool {
        self.failed
    }
}

/// A writer of std, and whether a write to it failed. An interrupted write is tried again.
#[derive(Drop)]
pub struct StdWriter<W> {
    inner: W,
    failed: bool,
}

impl<W> StdWriter<W> {
    /// Writes to this writer.
    pub fn new(inner: W) -> StdWriter<W>
        ensures inner { result.inner ≡ inner }
        ensures unmarked { result.failed ≡ false }
    {
        StdWriter {
            inner,
            failed: false,
        }
    }
}

impl<W: io::Write> ByteSink for StdWriter<W> {
    ghost taken = { λ sink. W.contents sink.inner };

    ghost mark = { λ sink. sink.failed };

    fn write(&mut self, piece: &[u8]) -> Result<usize, Failed> {
        for _ in 0..u64::MAX {
            match self.inner.write(piece) {
                Ok(count) => {
                    if count == 0 && !piece.is_empty() {
                        self.failed = true;
                    }
                    return Ok(count);
                }
                Err(error) if error.kind() == io::ErrorKind::Interrupted => {}
                Err(_) => break,
            }
        }
        self.failed = true;
        Err(Failed)
    }

    fn failed(&self) -> bool {
        self.failed
    }
}
