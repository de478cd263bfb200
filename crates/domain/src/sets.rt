//! Products and differences of the words of sets, and what cells may have held at the start.

ghost use Rattle.std.specs.Prelude.{◌≡◌, ◌*◌, ◌%◌, ◌&&◌, ◌||◌, ℕ};
ghost use Rattle.wordset.specs.Words.{meet, plus, some_below};
ghost use Rattle.wordset.specs.Lanes.{words};
ghost use Rattle.peripherals.specs.Loading.{image_of};
ghost use Rattle.domain.specs.Locations.{tape_word};
ghost use Rattle.domain.specs.Adding.{times, differences};
ghost use Rattle.domain.specs.Knowing.{at_start};

use crate::terms::product;
use bin_tape::Image;
use word12::Word;
use wordset::WordSet;

/// The products c·a, modulo 4096, of the words a of a set. For 1 and 7777, the usual coefficients, no word is looked at.
pub fn times(c: Word, set: &WordSet) -> WordSet
    ensures { words result ≡ times c (words set.now) }
{
    if c.index() == 1 {
        return *set;
    }
    if c.index() == 4095 {
        return negatives(set);
    }
    products(c, set)
}

/// The negatives of the words of a set: one more than their complements.
fn negatives(set: &WordSet) -> WordSet
    ensures { words result ≡ times 4095 (words set.now) }
{
    set.complements().shift(Word::from_index(1))
}

/// The products, word by word.
#[inline(never)]
fn products(c: Word, set: &WordSet) -> WordSet
    ensures { words result ≡ times c (words set.now) }
{
    let mut found = WordSet::empty();
    for word in set.iter() {
        found.insert(product(c, word));
    }
    found
}

/// The differences a - b, modulo 4096, of the words a of one set and b of another.
pub fn differences(a: &WordSet, b: &WordSet) -> WordSet
    ensures { words result ≡ differences (words a.now) (words b.now) }
{
    let (found, _) = a.sums(&negatives(b));
    found
}

/// Keeps the words v of a set for which c·v is in another. For 1 and 7777, the usual coefficients, no word is looked at.
pub fn keep_divided(c: Word, set: &WordSet, place: &mut WordSet)
    ensures { words place.new ≡ meet (words place.old) (λ v. words set.now ((c * v) % 4096)) }
{
    if c.index() == 1 {
        *place = place.meet(set);
        return;
    }
    if c.index() == 4095 {
        *place = place.meet(&negatives(set));
        return;
    }
    keep_each_divided(c, set, place);
}

/// Keeps of the place's words those whose multiple is in the set, word by word.
#[inline(never)]
fn keep_each_divided(c: Word, set: &WordSet, place: &mut WordSet)
    ensures { words place.new ≡ meet (words place.old) (λ v. words set.now ((c * v) % 4096)) }
{
    let mut found = WordSet::empty();
    for word in place.iter() {
        if set.contains(product(c, word)) {
            found.insert(word);
        }
    }
    *place = found;
}

/// The word of the tape at an address, if there is one.
fn word_of(image: &Image, at: Word) -> Option<Word>
    ensures { result ≡ image_of image.now at }
{
    image.get(at)
}

/// Adds the words that a cell may have held at the start to a set: the tape's word, or all words if the tape has none.
fn add_start(image: &Image, cell: Word, set: &mut WordSet)
    ensures { (v : ℕ) → words set.new v ≡ (words set.old v || tape_word (image_of image.now cell) v) }
{
    match word_of(image, cell) {
        None => *set = WordSet::all(),
        Some(word) => set.insert(word),
    }
}

/// The words that some cells may have held at the start.
pub fn at_start(image: &Image, cells: &WordSet) -> WordSet
    ensures { words result ≡ at_start (image_of image.now) (words cells.now) }
{
    let mut found = WordSet::empty();
    for cell in cells.iter() {
        add_start(image, cell, &mut found);
    }
    found
}

/// Whether a cell may have held a word w at the start for which c·w is in a set.
fn may_start_within(image: &Image, cell: Word, c: Word, set: &WordSet) -> bool
    ensures { result ≡ some_below 4096 (λ w. tape_word (image_of image.now cell) w && words set.now ((c * w) % 4096)) }
{
    match word_of(image, cell) {
        None => {
            let mut left = WordSet::all();
            keep_divided(c, set, &mut left);
            !left.is_empty()
        }
        Some(word) => {
            // The proof needs the tape's word to be a word.
            let _index = word.index();
            set.contains(product(c, word))
        }
    }
}

/// Keeps the words v of a set for which the cell at v + k may have held a word w at the start for which c·w is in another set.
pub fn keep_pointing(image: &Image, k: Word, c: Word, set: &WordSet, place: &mut WordSet)
    ensures { words place.new ≡ meet (words place.old)
        (λ v. some_below 4096 (λ w. tape_word (image_of image.now (plus v k)) w && words set.now ((c * w) % 4096))) }
{
    let mut found = WordSet::empty();
    for word in place.iter() {
        if may_start_within(image, word.add(k), c, set) {
            found.insert(word);
        }
    }
    *place = found;
}
