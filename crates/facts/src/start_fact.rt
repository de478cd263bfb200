//! The fact of all starts as it is kept.

ghost use Rattle.std.specs.Prelude.{◌≡◌};
ghost use Rattle.wordset.specs.Words.{all_words, nothing};
ghost use Rattle.wordset.specs.Lanes.{words};
ghost use Rattle.domain.specs.Brief.{brief_words};
ghost use Rattle.domain.specs.Offsets.{offsets_in};

use bin_tape::Image;
use domain::{BriefSet, Location, ReturnOffsets};
use wordset::{Links, WordSet};

/// The fact of all starts with some links, of which one name may have fewer words.
///
/// Contracts see it as the fact that `start_in_code` gives.
#[derive(Drop)]
pub struct StartFact<'a> {
    pub(crate) image: &'a Image,
    pub(crate) links: Links,
    pub(crate) name: Location,
    pub(crate) set: WordSet,
    pub(crate) every: WordSet,
    pub(crate) none: BriefSet,
    pub(crate) offsets: ReturnOffsets,
    ghost every_word: { words every ≡ all_words },
    ghost no_site: { brief_words none ≡ nothing },
    ghost no_offset: { offsets_in offsets ≡ nothing },
}
