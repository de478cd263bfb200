//! All the bytes of a source, up to a limit.

ghost use Rattle.std.specs.Prelude.{◌≡◌, ◌<◌, ◌≤◌, true, false, length, take, Err, IfOk, IfSome};
ghost use Rattle.std.specs.Io.KnownBytes.{Consumes};
ghost use Rattle.streams.specs.Bytes.{Gave};
ghost use Rattle.streams.specs.Input.{read_fails};
ghost use Rattle.streams.specs.declared.input.InputFault.TheVariants.{NoMemory};

use crate::bytes::ByteSource;
use std::alloc::{AllocError, Allocator};
use thiserror::Error;

/// How many bytes one read asks for at most.
const PIECE: usize = 512;

/// Why the bytes of a source were not gathered.
#[derive(Clone, Copy, PartialEq, Eq, Debug, Error)]
pub enum InputFault {
    /// A read failed.
    #[error("a read failed")]
    ReadFailed,
    /// A growth of the list of bytes was refused.
    #[error("out of memory")]
    NoMemory,
}

impl From<AllocError> for InputFault {
    ghost use Rattle.streams.specs.declared.input.InputFault.TheVariants.{NoMemory};

    ghost from_gives = { λ error fault. fault ≡ NoMemory };

    fn from(_error: AllocError) -> InputFault {
        InputFault::NoMemory
    }
}

/// The bytes that a source still gives, `limit` of them at most. What it has past the limit is not
/// read: who wants to know whether there is more asks for one byte more than is taken.
///
/// # Errors
///
/// `ReadFailed` where a read failed before so many bytes had come, which the source's mark shows;
/// `NoMemory` where a growth was refused, once a byte had come. The bytes that had come until then are lost.
pub fn read_at_most<A: Allocator, R: ByteSource>(
    alloc: A,
    source: &mut R,
    limit: usize,
) -> Result<Vec<u8, A>, InputFault>
    requires { R.mark source.old ≡ false }
    ensures text { IfOk result (λ text.
        IfSome (R.remaining source.old) (λ bytes. text.items ≡ take limit bytes)) }
    // The source gave those bytes and no more.
    ensures taken { IfOk result (λ text.
        Consumes (R.remaining source.old) (R.remaining source.new) text.items) }
    // A read failed if and only if the answer says so, and then fewer bytes had come than the
    // limit.
    ensures marks { R.mark source.new ≡ read_fails result }
    ensures short { R.mark source.new ≡ true →
        Gave (R.remaining source.old) (R.remaining source.new) (λ given. length given < limit) }
    // No memory is wanted before a byte has come.
    ensures wanted { result ≡ Err NoMemory →
        Gave (R.remaining source.old) (R.remaining source.new) (λ given. 0 < length given) }
    // Whatever the answer, the source gave no more bytes than the limit.
    ensures bounded { Gave (R.remaining source.old) (R.remaining source.new)
        (λ given. length given ≤ limit) }
{
    let mut text = Vec::new(alloc);
    let mut piece = [0u8; PIECE];
    while text.len() < limit {
        let room = (limit - text.len()).min(PIECE);
        match source.read(&mut piece[..room]) {
            Err(_) => return Err(InputFault::ReadFailed),
            Ok(0) => return Ok(text),
            Ok(count) => text.extend_from_slice(&piece[..count])?,
        }
    }
    Ok(text)
}
