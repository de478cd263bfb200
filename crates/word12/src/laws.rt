//! Laws over the definitions alone. Each is the contract of a function that does nothing.

ghost use Rattle.word12.specs.Laws.{OctalReadsBack};

/// What [`Word::to_octal`](crate::Word::to_octal) writes, [`Word::from_octal`](crate::Word::from_octal)
/// reads as the same word.
pub fn octal_reads_back()
    ensures { OctalReadsBack }
{}
