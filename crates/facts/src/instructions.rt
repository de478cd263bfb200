//! What a word does as an instruction, whatever the fact at its address.

ghost use Rattle.std.specs.Prelude.{◌≡◌};
ghost use Rattle.instruct.specs.Instructions.{operation_of};
ghost use Rattle.processor.specs.Machine.{steps_pointer};
ghost use Rattle.facts.specs.Instructions.{reads_operand, stores, counts, deposits, calls, jumps};

use instruct::Operation;
use processor::is_auto_index;
use word12::Word;

/// Whether a memory reference reads its operand.
pub(crate) fn reads_operand(word: Word) -> bool
    ensures { result ≡ reads_operand (operation_of word) }
{
    matches!(
        Operation::of(word),
        Operation::And | Operation::Tad | Operation::Isz
    )
}

/// Whether a memory reference stores where it refers to: ISZ and DCA.
pub(crate) fn stores(word: Word) -> bool
    ensures { result ≡ stores (operation_of word) }
{
    matches!(Operation::of(word), Operation::Isz | Operation::Dca)
}

/// Whether a memory reference is ISZ.
pub(crate) fn counts(word: Word) -> bool
    ensures { result ≡ counts (operation_of word) }
{
    matches!(Operation::of(word), Operation::Isz)
}

/// Whether a memory reference is DCA.
pub(crate) fn deposits(word: Word) -> bool
    ensures { result ≡ deposits (operation_of word) }
{
    matches!(Operation::of(word), Operation::Dca)
}

/// Whether a memory reference is JMS.
pub(crate) fn is_jms(word: Word) -> bool
    ensures { result ≡ calls (operation_of word) }
{
    matches!(Operation::of(word), Operation::Jms)
}

/// Whether a memory reference is JMP.
pub(crate) fn is_jmp(word: Word) -> bool
    ensures { result ≡ jumps (operation_of word) }
{
    matches!(Operation::of(word), Operation::Jmp)
}

/// Whether a reference steps the pointer in its named cell.
pub(crate) fn steps_pointer(indirect: bool, named: Word) -> bool
    ensures { result ≡ steps_pointer indirect named }
{
    indirect && is_auto_index(named)
}
