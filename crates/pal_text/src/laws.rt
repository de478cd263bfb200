//! Laws over the definitions alone. Each is the contract of a function that does nothing.

ghost use Rattle.pal_text.specs.Laws.{ReadingIsOne, IllegalIsOne, ReadingIsNotIllegal, EachPartIsAnswered};

/// Each part has one answer, however long it is: it has one reading, or one first line with a
/// statement that has no form, and not both.
pub fn parts_have_one_answer()
    ensures reading { ReadingIsOne }
    ensures illegal { IllegalIsOne }
    ensures either { ReadingIsNotIllegal }
    ensures some { EachPartIsAnswered }
{}
