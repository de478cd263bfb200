//! Small questions of sets of words.

ghost use Rattle.std.specs.Prelude.{ℕ, false, ◌≡◌, ◌<◌, ◌==◌, ◌&&◌, ◌||◌};
ghost use Rattle.wordset.specs.Words.{has_some, only, one};
ghost use Rattle.wordset.specs.Lanes.{words};
ghost use Rattle.peripherals.specs.Loading.{image_of};

use bin_tape::Image;
use word12::Word;
use wordset::WordSet;

/// Whether a set has a word.
#[tactic(auto, using(crate::proofs::OutcomeLemmas::not_empty))]
pub fn has_some(set: &WordSet) -> bool
    ensures { result ≡ has_some (words set.now) }
{
    !set.is_empty()
}

/// Puts one word into a place for a set.
pub fn put_one(word: Word, place: &mut WordSet)
    ensures { words place.new ≡ one word }
{
    *place = WordSet::empty();
    place.insert(word);
}

/// The words of a set, and those of another where it is chosen.
pub(crate) fn union_if(chosen: bool, set: &WordSet, more: &WordSet) -> WordSet
    ensures { (v : ℕ) → words result v ≡ (words set.now v || (chosen && words more.now v)) }
{
    if chosen { set.union(more) } else { *set }
}

/// The cell that a memory reference names, where it is meant.
pub fn named_if(chosen: bool, named: Word) -> WordSet
    ensures { (a : ℕ) → words result a ≡ (chosen && (a == named)) }
{
    if chosen {
        WordSet::one(named)
    } else {
        WordSet::empty()
    }
}

/// The one target of a reference, where it has one and no other: the named cell of a direct one.
pub fn single_target(indirect: bool, named: Word, targets: &WordSet) -> Option<Word>
    requires { indirect ≡ false → words targets.now ≡ one named }
    ensures { result ≡ only (words targets.now) }
{
    if indirect {
        return targets.only();
    }
    let _index = named.index();
    Some(named)
}

/// The word of an image at an address, if there is one.
pub fn word_of(image: &Image, at: Word) -> Option<Word>
    ensures word { result ≡ image_of image.now at }
    ensures small { at < 4096 }
{
    image.get(at)
}
