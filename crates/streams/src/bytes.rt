//! Where bytes come from and go to: sources and sinks that remember a call that failed.

ghost use Rattle.std.specs.Prelude.{◌≡◌, ◌≤◌, ◌||◌, ℕ, List, Option, Bool, Ok, false, true, is_err, length, IfOk, OnOk, OnErr};
ghost use Rattle.std.specs.Io.KnownBytes.{Appends, ReadConsumes, WriteAppends};
ghost use Rattle.streams.specs.Bytes.{finds_end, write_fails, AppendsFront};

use thiserror::Error;

/// A read or a write failed.
#[derive(Clone, Copy, PartialEq, Eq, Debug, Error)]
#[error("a read or a write failed")]
pub struct Failed;

/// A reader of bytes.
pub trait ByteSource {
    /// The bytes still to give, where the source tells them.
    ghost remaining: { Self → Option (List ℕ) };

    /// Whether a read failed.
    ghost mark: { Self → Bool };

    /// Whether a read found the end of input.
    ghost ended: { Self → Bool };

    /// Fills the front of a piece, and says how much of it. To fill nothing of a piece that is not
    /// empty is the end of input, and after it there is nothing to read and nothing that can fail.
    /// Nobody reads on after a read that failed.
    ///
    /// # Errors
    ///
    /// `Failed`, and then the mark is set; no byte that was still to come is lost.
    fn read(&mut self, piece: &mut [u8]) -> Result<usize, Failed>
        requires { mark self.old ≡ false }
        ensures count { IfOk result (λ n. n ≤ length piece.new) }
        ensures bytes { ReadConsumes (remaining self.old) (remaining self.new) result piece.new }
        ensures marks { mark self.new ≡ (mark self.old || is_err result) }
        ensures ends { ended self.new ≡ (ended self.old || finds_end result piece.old) }
        // Whoever reads on past the end finds it again.
        ensures stays { ended self.old ≡ true → result ≡ Ok 0 };

    /// Whether a read failed. No call clears this mark.
    fn failed(&self) -> bool
        ensures { result ≡ mark self.now };
}

/// A writer of bytes.
pub trait ByteSink {
    /// The bytes taken so far, where the sink tells them.
    ghost taken: { Self → Option (List ℕ) };

    /// Whether a write failed, or took nothing of a piece that is not empty.
    ghost mark: { Self → Bool };

    /// Takes the front of a piece, and says how much of it. To take nothing of a piece that is not
    /// empty counts as a failure, and sets the mark. Nobody writes on after a write that failed.
    ///
    /// # Errors
    ///
    /// `Failed`, and then nothing of the piece was taken and the mark is set.
    fn write(&mut self, piece: &[u8]) -> Result<usize, Failed>
        requires { mark self.old ≡ false }
        ensures count { IfOk result (λ n. n ≤ length piece.now) }
        ensures bytes { WriteAppends (taken self.old) (taken self.new) result piece.now }
        ensures marks { mark self.new ≡ (mark self.old || write_fails result piece.now) };

    /// Whether a write failed or took nothing. No call clears this mark.
    fn failed(&self) -> bool
        ensures { result ≡ mark self.now };
}

/// What is lent is read as it is.
impl<S: ByteSource> ByteSource for &mut S {
    ghost remaining = { λ source. S.remaining source.now };

    ghost mark = { λ source. S.mark source.now };

    ghost ended = { λ source. S.ended source.now };

    #[inline(always)]
    fn read(&mut self, piece: &mut [u8]) -> Result<usize, Failed> {
        (**self).read(piece)
    }

    #[inline(always)]
    fn failed(&self) -> bool {
        (**self).failed()
    }
}

/// What is lent is written as it is.
impl<W: ByteSink> ByteSink for &mut W {
    ghost taken = { λ sink. W.taken sink.now };

    ghost mark = { λ sink. W.mark sink.now };

    #[inline(always)]
    fn write(&mut self, piece: &[u8]) -> Result<usize, Failed> {
        (**self).write(piece)
    }

    #[inline(always)]
    fn failed(&self) -> bool {
        (**self).failed()
    }
}

/// Writes a whole piece, in as many writes as it needs.
///
/// # Errors
///
/// `Failed` where a write failed or took nothing, which the mark shows; a prefix of the piece went
/// out before it, and never the whole.
pub fn put<W: ByteSink>(sink: &mut W, piece: &[u8]) -> Result<(), Failed>
    requires unmarked { W.mark sink.old ≡ false }
    ensures whole { OnOk result (Appends (W.taken sink.old) (W.taken sink.new) piece.now) }
    ensures front { OnErr result (AppendsFront (W.taken sink.old) (W.taken sink.new) piece.now) }
    ensures marks { W.mark sink.new ≡ is_err result }
{
    let mut done = 0;
    while done < piece.len() {
        let count = sink.write(&piece[done..])?;
        if count == 0 {
            return Err(Failed);
        }
        done += count;
    }
    Ok(())
}
