//! Sums of words of two sets, by the carry with which they come.

ghost use Rattle.std.specs.Prelude.{◌≡◌, ◌&&◌, ℕ};
ghost use Rattle.wordset.specs.Words.{all_words, union};
ghost use Rattle.wordset.specs.Lanes.{words};
ghost use Rattle.wordset.specs.Links.{links_of};
ghost use Rattle.transfer.specs.Additions.{sums_carrying, sums_under};
ghost use Rattle.transfer.specs.Shaped.{sums_with};

use word12::{Link, Word};
use wordset::{Links, WordSet};

/// Adds the sums without a carry of a word and each word of a set.
fn add_without_carry(word: Word, set: &WordSet, found: &mut WordSet)
    ensures { words found.new ≡ union (words found.old) (sums_with 0 word (words set.now)) }
{
    // The proof needs the number to be a word.
    let _index = word.index();
    let high = WordSet::range(word, Word::from_index(0o7777));
    *found = found.union(&set.shift(word).meet(&high));
}

/// Adds the sums with a carry, less 10000, of a word and each word of a set.
fn add_with_carry(word: Word, set: &WordSet, found: &mut WordSet)
    ensures { words found.new ≡ union (words found.old) (sums_with 1 word (words set.now)) }
{
    // The proof needs the number to be a word.
    let _index = word.index();
    let high = WordSet::range(word, Word::from_index(0o7777));
    *found = found.union(&set.shift(word).minus(&high));
}

/// The sums without a carry, by a shift of the second set for each word of the first.
#[inline(never)]
fn each_without_carry(a: &WordSet, b: &WordSet) -> WordSet
    ensures { words result ≡ sums_carrying 0 (words a.now) (words b.now) }
{
    let mut found = WordSet::empty();
    for word in a.iter() {
        add_without_carry(word, b, &mut found);
    }
    found
}

/// The sums with a carry, less 10000, by a shift of the second set for each word of the first.
#[inline(never)]
fn each_with_carry(a: &WordSet, b: &WordSet) -> WordSet
    ensures { words result ≡ sums_carrying 1 (words a.now) (words b.now) }
{
    let mut found = WordSet::empty();
    for word in a.iter() {
        add_with_carry(word, b, &mut found);
    }
    found
}

/// The words from the least of a set on: its sums with all words that come without a carry.
fn from_least(set: &WordSet) -> WordSet
    ensures { words result ≡ sums_carrying 0 (words set.now) all_words }
{
    match set.first_from(0) {
        None => WordSet::empty(),
        Some(word) => WordSet::range(word, Word::from_index(0o7777)),
    }
}

/// The words below the greatest of a set: its sums with all words that come with a carry, less 10000.
fn below_greatest(set: &WordSet) -> WordSet
    ensures { words result ≡ sums_carrying 1 (words set.now) all_words }
{
    match set.greatest() {
        None => WordSet::empty(),
        Some(word) => WordSet::all().minus(&WordSet::range(word, Word::from_index(0o7777))),
    }
}

/// The sums x + y of words of two sets that come without a carry: quick where one of the sets is all words.
fn without_carry(a: &WordSet, b: &WordSet) -> WordSet
    ensures { words result ≡ sums_carrying 0 (words a.now) (words b.now) }
{
    if b.is_all() {
        return from_least(a);
    }
    if a.is_all() {
        return from_least(b);
    }
    if a.count() <= b.count() {
        each_without_carry(a, b)
    } else {
        each_without_carry(b, a)
    }
}

/// The sums x + y, less 10000, of words of two sets that come with a carry: quick where one of the sets is all words.
fn with_carry(a: &WordSet, b: &WordSet) -> WordSet
    ensures { words result ≡ sums_carrying 1 (words a.now) (words b.now) }
{
    if b.is_all() {
        return below_greatest(a);
    }
    if a.is_all() {
        return below_greatest(b);
    }
    if a.count() <= b.count() {
        each_with_carry(a, b)
    } else {
        each_with_carry(b, a)
    }
}

/// The sums without a carry, where they are chosen, and else no word.
fn without_carry_if(chosen: bool, a: &WordSet, b: &WordSet) -> WordSet
    ensures { (v : ℕ) → words result v ≡ (chosen && sums_carrying 0 (words a.now) (words b.now) v) }
{
    if chosen {
        without_carry(a, b)
    } else {
        WordSet::empty()
    }
}

/// The sums with a carry, where they are chosen, and else no word.
fn with_carry_if(chosen: bool, a: &WordSet, b: &WordSet) -> WordSet
    ensures { (v : ℕ) → words result v ≡ (chosen && sums_carrying 1 (words a.now) (words b.now) v) }
{
    if chosen {
        with_carry(a, b)
    } else {
        WordSet::empty()
    }
}

/// The sums of words of two sets that leave the link so: those without a carry where the link was so before, and those with a
/// carry where it was the other one.
pub(crate) fn sums_under(links: Links, a: &WordSet, b: &WordSet, link: Link) -> WordSet
    ensures { words result ≡ sums_under (links_of links) (words a.now) (words b.now) link }
{
    let same = without_carry_if(links.contains(link), a, b);
    same.union(&with_carry_if(links.contains(link.complement()), a, b))
}
