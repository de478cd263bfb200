//! Laws over the definitions alone. Each is the contract of a function that does nothing.

ghost use Rattle.declaration.specs.Laws.{DeclarationFaultIsOne, DeclarationIsNoFault, DeclarationIsOne, EachTextIsAnswered};

/// Each text has one answer: it has one declaration, or it has one fault, and not both.
pub fn texts_have_one_answer()
    ensures declaration { DeclarationIsOne }
    ensures fault { DeclarationFaultIsOne }
    ensures either { DeclarationIsNoFault }
    ensures some { EachTextIsAnswered }
{}
