//! Laws over the definitions alone. Each is the contract of a function that does nothing.

ghost use Rattle.labels.specs.Programs.{NumberedIsMeant, NumberedIsTape};

use bin_tape::laws::tapes_have_one_answer;
use pal_asm::laws::meant_are_words;

/// What is read of the tape of a source and of its declaration in numbers is what the source and the
/// declaration mean: the image of the source, and the declaration that the numbers declare. The tape is not
/// refused.
pub fn numbered_programs_are_meant()
    ensures meant { NumberedIsMeant }
    ensures tape { NumberedIsTape }
{
    tapes_have_one_answer();
    meant_are_words();
}
