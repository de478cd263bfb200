//! The words of the accumulator for which a word of group 2 skips.

ghost use Rattle.std.specs.Prelude.{ℕ, ◌≡◌, ◌<◌, ◌==◌, ◌&&◌, not, if◌then◌else◌};
ghost use Rattle.wordset.specs.Lanes.{words};
ghost use Rattle.instruct.specs.Bits.{has_bit};
ghost use Rattle.instruct.specs.Operates.{any_test_holds, skips_of};

use crate::sets::union_if;
use instruct::{is_reversed, tests_link, tests_sign, tests_zero};
use word12::{Link, Word};
use wordset::WordSet;

/// Whether a word has SNL and the link is 1.
fn passes_by_link(word: Word, link: Link) -> bool
    ensures { result ≡ (has_bit 4 word && (link == 1)) }
{
    tests_link(word) && link.is_set()
}

/// The words of the accumulator for which some test of a word holds.
fn passing(word: Word, link: Link) -> WordSet
    ensures { (v : ℕ) → v < 4096 → words result v ≡ any_test_holds word v link }
{
    let negative = WordSet::range(Word::from_index(0o4000), Word::from_index(0o7777));
    let zero = WordSet::one(Word::ZERO);
    let by_sign = union_if(tests_sign(word), &WordSet::empty(), &negative);
    let by_words = union_if(tests_zero(word), &by_sign, &zero);
    union_if(passes_by_link(word, link), &by_words, &WordSet::all())
}

/// Whether the words for which a test holds are those that skip, or those that do not.
fn takes_passing(word: Word, skip: bool) -> bool
    ensures { result ≡ (if has_bit 3 word then not skip else skip) }
{
    if is_reversed(word) { !skip } else { skip }
}

/// The words that skip, or those that do not, in a place for them.
#[inline(never)]
#[tactic(auto, using(crate::proofs::SkipLemmas::part_passing, crate::proofs::SkipLemmas::part_failing))]
pub(crate) fn put_part<'b>(
    word: Word,
    link: Link,
    skip: bool,
    held: &WordSet,
    place: &'b mut WordSet,
) -> &'b WordSet
    ensures { (v : ℕ) → v < 4096 → words result.now v ≡
        (words held.now v && (if skips_of word v link then skip else not skip)) }
{
    let passing = passing(word, link);
    if takes_passing(word, skip) {
        *place = held.meet(&passing);
    } else {
        *place = held.minus(&passing);
    }
    place
}
