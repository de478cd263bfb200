//! How many parts there are, and how long they are.

ghost use Rattle.std.specs.Prelude.{◌≡◌};
ghost use Rattle.pal_asm.specs.Sources.{first_long, size_fault, texts};

use crate::fault::PalFault;
use pal_acts::FaultCode;
use pal_text::LONGEST;

/// How many parts a source may have.
const MOST_PARTS: usize = 16;

/// The fault of the first part that is too long.
fn long_part(parts: &[&[u8]]) -> Option<PalFault>
    ensures { result ≡ first_long 1 (texts parts.now) }
{
    for (at, part) in parts.iter().enumerate() {
        if part.len() > LONGEST {
            return Some(PalFault {
                code: FaultCode::TooLong,
                part: at + 1,
                line: 0,
            });
        }
    }
    None
}

/// The fault of the number of parts, and then of their lengths.
pub(crate) fn fault_of_sizes(parts: &[&[u8]]) -> Option<PalFault>
    ensures { result ≡ size_fault (texts parts.now) }
{
    if parts.is_empty() || parts.len() > MOST_PARTS {
        return Some(PalFault {
            code: FaultCode::TooLong,
            part: 0,
            line: 0,
        });
    }
    long_part(parts)
}
