//! Laws over the definitions alone. Each is the contract of a function that does nothing.

ghost use Rattle.pal_asm.specs.Laws.{MeaningIsOne, FaultIsOne, MeaningIsNoFault, EachSourceIsAnswered, MeantAreWords, ListingIsOne, WordsAreListed};

/// Each source has one answer: it means one image with its symbols, or it has one fault, and not both.
pub fn sources_have_one_answer()
    ensures meaning { MeaningIsOne }
    ensures fault { FaultIsOne }
    ensures either { MeaningIsNoFault }
    ensures some { EachSourceIsAnswered }
{}

/// What a source means holds words that a tape can have.
pub fn meant_are_words()
    ensures { MeantAreWords }
{}

/// A source has at most one listing with the same symbols of its own.
pub fn listings_are_one()
    ensures { ListingIsOne }
{}

/// Each word of a listing stands on one of its lines, so the listing leaves none out.
pub fn words_are_listed()
    ensures { WordsAreListed }
{}
