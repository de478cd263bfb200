//! The fact of all starts, and whether it lands among some facts.
//!
//! It tells of every cell on the tape, so there is no room for it; but it has neither relations nor chains, and its sets are
//! the tape's words.

ghost use Rattle.std.specs.Prelude.{ℕ, ◌≡◌, ◌<◌, ◌↔◌, IsTrue, drop, map};
ghost use Rattle.wordset.specs.Words.{one};
ghost use Rattle.wordset.specs.Lanes.{words};
ghost use Rattle.wordset.specs.Links.{links_of};
ghost use Rattle.bin_tape.specs.Image.{HoldsWords};
ghost use Rattle.peripherals.specs.Loading.{image_of};
ghost use Rattle.domain.specs.Locations.{Cell, tape_word};
ghost use Rattle.domain.specs.LocationsInCode.{location_of};
ghost use Rattle.domain.specs.Adding.{set_of_shape, set_of_sum, set_of_term, with_name};
ghost use Rattle.domain.specs.InCode.{sum_of, term_of};
ghost use Rattle.domain.specs.Knowing.{said_of, words_of_term};
ghost use Rattle.facts.specs.Entailment.{Lands, PartLands, with_one_link};
ghost use Rattle.facts.specs.PlaceInCode.{place_in_code};
ghost use Rattle.facts.specs.StartInCode.{start_in_code, start_part_in_code};
ghost use Rattle.facts.specs.Starts.{start_fact, words_at_start};

use crate::fact_parts::{FactPart, has_facts};
use crate::fact_sizes::Fact;
use crate::known_fact::KnownFact;
use crate::place::Place;
use crate::source::FactSource;
use crate::start_fact::StartFact;
use bin_tape::Image;
use domain::{
    BriefSet, Chain, Location, Relation, ReturnOffsets, Rules, Sum, Term, at_start,
    is_same_location, spelled, times,
};
use std::alloc::Allocator;
use word12::{Link, Word};
use wordset::{Links, WordSet};

/// The word of the tape at an address, if there is one.
fn tape_at(image: &Image, cell: Word) -> Option<Word>
    ensures { result ≡ image_of image.now cell }
{
    image.get(cell)
}

/// Puts the words that a cell may hold at a start into a place for them: the tape's word, or all words if the tape has none.
fn put_tape_word(image: &Image, cell: Word, place: &mut WordSet)
    ensures { words place.new ≡ tape_word (image_of image.now cell) }
{
    match tape_at(image, cell) {
        None => *place = WordSet::all(),
        Some(word) => *place = WordSet::one(word),
    }
}

/// Puts the words that a name may hold at a start into a place for them.
fn put_words_at_start(image: &Image, name: &Location, place: &mut WordSet)
    ensures { words place.new ≡ words_at_start (image_of image.now) (location_of name.now) }
{
    match name {
        Location::Accumulator => *place = WordSet::all(),
        Location::Cell(cell) => put_tape_word(image, *cell, place),
    }
}

impl<'a> StartFact<'a> {
    /// The fact of all starts with some links, where a name has the words of a set.
    pub fn with_name(
        image: &'a Image,
        links: Links,
        name: &Location,
        set: &WordSet,
    ) -> StartFact<'a>
        ensures { start_in_code result ≡ with_name (location_of name.now) (words set.now)
            (record (start_fact (image_of image.now)) { link = links_of links }) }
    {
        StartFact {
            image,
            links,
            name: *name,
            set: *set,
            every: WordSet::all(),
            none: BriefSet::none(),
            offsets: ReturnOffsets::none(),
        }
    }

    /// The fact of all starts with some links.
    pub fn new(image: &'a Image, links: Links) -> StartFact<'a>
        ensures { start_in_code result ≡ record (start_fact (image_of image.now)) { link = links_of links } }
    {
        StartFact::with_name(image, links, &Location::Accumulator, &WordSet::all())
    }
}

impl StartFact<'_> {
    /// Puts the words that a term may be into a place for them.
    fn put_words_of_term(&self, image: &Image, term: &Term, place: &mut WordSet)
        ensures { words place.new ≡ words_of_term (image_of image.now) (start_in_code self.now) (term_of term.now) }
    {
        match term {
            Term::Holding(name) => self.put_set_of(name, place),
            Term::Behind { cell, more } => {
                self.put_set_of(&Location::Cell(*cell), place);
                *place = at_start(image, &place.shift(*more));
            }
        }
    }

    /// Puts the words that a name may hold into a place for them, and all words for a term that is not a
    /// name.
    fn put_set_of_term(&self, term: &Term, place: &mut WordSet)
        ensures { words place.new ≡ set_of_term (start_in_code self.now) (term_of term.now) }
    {
        match term {
            Term::Holding(name) => self.put_set_of(name, place),
            Term::Behind { .. } => *place = WordSet::all(),
        }
    }

    /// Puts the set that the fact gives for a sum of one of the shapes into a place for it: that of a name alone, and all words
    /// for any other, since there are no relations.
    fn put_set_of_shape(&self, sum: &Sum, place: &mut WordSet)
        ensures { words place.new ≡ set_of_shape (start_in_code self.now) (sum_of sum.now) }
    {
        if sum.len() != 1 {
            *place = WordSet::all();
            return;
        }
        self.put_set_of_term(&sum.get(0).term, place);
    }

    /// Puts what the fact says of the terms of a sum from a place on into a place for it.
    fn put_said_from(&self, image: &Image, sum: &Sum, start: usize, place: &mut WordSet)
        ensures { words place.new ≡ said_of (image_of image.now) (start_in_code self.now) (drop start (sum_of sum.now)) }
    {
        let len = sum.len();
        if start >= len {
            *place = WordSet::one(Word::ZERO);
            return;
        }
        let summand = sum.get(start);
        let mut first = WordSet::all();
        self.put_words_of_term(image, &summand.term, &mut first);
        let first = times(summand.coefficient, &first);
        if start + 1 == len {
            *place = first;
            return;
        }
        let mut rest = WordSet::all();
        self.put_said_from(image, sum, start + 1, &mut rest);
        let (both, _) = first.sums(&rest);
        let mut part = Sum::zero();
        part.push_from(sum, start);
        self.put_set_of_sum(&part, place);
        *place = place.meet(&both);
    }
}

impl KnownFact for StartFact<'_> {
    ghost known = { start_in_code };

    fn accumulator(&self) -> &WordSet {
        match &self.name {
            Location::Accumulator => &self.set,
            Location::Cell(_) => &self.every,
        }
    }

    fn mq(&self) -> &WordSet {
        &self.every
    }

    fn link(&self) -> Links {
        self.links
    }

    fn sites(&self) -> &BriefSet {
        &self.none
    }

    fn offsets(&self) -> ReturnOffsets {
        self.offsets
    }

    fn relations(&self) -> &[Relation] {
        &[]
    }

    fn chains(&self) -> &[Chain] {
        &[]
    }

    fn has_within_at(&self, _at: usize, _cell: Word, _set: &BriefSet) -> bool {
        false
    }

    fn has_plainly_within(&self, _cell: Word, _set: &BriefSet) -> bool {
        false
    }

    fn put_set_of(&self, name: &Location, place: &mut WordSet) {
        if is_same_location(name, &self.name) {
            *place = self.set;
        } else {
            put_words_at_start(self.image, name, place);
        }
    }

    fn put_narrowed(&self, _image: &Image, name: &Location, place: &mut WordSet) {
        self.put_set_of(name, place);
    }

    fn put_set_of_sum(&self, sum: &Sum, place: &mut WordSet) {
        match spelled(sum) {
            None => *place = WordSet::all(),
            Some(found) => {
                self.put_set_of_shape(&found.sum, place);
                *place = times(found.sign, place);
            }
        }
    }

    fn put_said_of(&self, image: &Image, sum: &Sum, place: &mut WordSet) {
        self.put_said_from(image, sum, 0, place);
    }
}

/// The fact of all starts with some links, as a part that may be split by the words of a name.
///
/// Contracts see it as the fact that `start_part_in_code` gives.
#[derive(Drop)]
pub struct StartPart<'a> {
    image: &'a Image,
    links: Links,
}

/// The proof needs the image as a value, since it then holds words.
fn look_at_words(image: Image)
    ensures { HoldsWords image }
{
    let _word = image.get(Word::ZERO);
}

/// An image that is lent holds words too.
fn look_into(image: &Image)
    ensures { HoldsWords image.now }
{
    look_at_words(*image);
}

/// The proof needs the cell of a name to be looked at, since it is a word.
fn look_at(name: &Location)
    ensures { (a : ℕ) → location_of name.now ≡ Cell a → a < 4096 }
{
    match name {
        Location::Accumulator => {}
        Location::Cell(cell) => {
            let _index = cell.index();
        }
    }
}

impl FactPart for StartPart<'_> {
    ghost part = { start_part_in_code };

    fn has_words(&self) {
        look_into(self.image);
    }

    fn is_none(&self) -> bool {
        look_into(self.image);
        self.links.is_empty()
    }

    fn put_set_of(&self, name: &Location, place: &mut WordSet) {
        put_words_at_start(self.image, name, place);
    }

    fn entails_one<A: Allocator, F: FactSource>(
        &self,
        place: &Place<'_, A>,
        among: &F,
        given: &mut Fact,
    ) -> bool {
        place.entails_one(&StartFact::new(self.image, self.links), among, given)
    }

    fn is_taken<A: Allocator>(
        &mut self,
        place: &Place<'_, A>,
        name: &Location,
        other: &Fact,
    ) -> bool {
        look_into(self.image);
        look_at(name);
        let mut set = WordSet::all();
        other.put_set_of(name, &mut set);
        let mut starts = WordSet::all();
        put_words_at_start(self.image, name, &mut starts);
        let both = starts.meet(&set);
        if self.links.is_empty() {
            return true;
        }
        if both.is_empty() {
            return true;
        }
        place.entails(
            &StartFact::with_name(self.image, self.links, name, &both),
            other,
        )
    }

    fn is_taken_whole<A: Allocator, F: FactSource>(
        &mut self,
        place: &Place<'_, A>,
        among: &F,
        given: &mut Fact,
    ) -> bool {
        look_into(self.image);
        if self.links.is_empty() {
            return has_facts(among);
        }
        place.entails_one(&StartFact::new(self.image, self.links), among, given)
    }
}

/// The part of all starts with one link.
pub fn start_part(image: &Image, link: Link) -> StartPart<'_>
    ensures { start_part_in_code result ≡ record (start_fact (image_of image.now)) { link = one link } }
{
    StartPart {
        image,
        links: Links::one(link),
    }
}

impl<A: Allocator> Place<'_, A> {
    /// Whether the fact of all starts with one link lands among some facts.
    pub fn starts_land_under<F: FactSource>(&self, link: Link, among: &F, given: &mut Fact) -> bool
        ensures { IsTrue result ↔ PartLands (place_in_code self.now)
            (with_one_link (place_in_code self.now) link (start_fact (place_in_code self.now).image)) (F.facts among.now) }
    {
        let mut part = start_part(self.image, link);
        self.part_lands(&mut part, among, given)
    }

    /// Whether the fact of all starts lands among some facts: whatever the accumulator, MQ, the link and the cells hold that
    /// are not on the tape, one of them holds.
    pub fn starts_land<F: FactSource>(&self, among: &F, given: &mut Fact) -> bool
        ensures { IsTrue result ↔
            Lands (place_in_code self.now) (start_fact (place_in_code self.now).image) (F.facts among.now) }
    {
        match &self.rules {
            Rules::OfEquations => self.entails_one(
                &StartFact::new(self.image, Links::both()),
                among,
                given,
            ),
            Rules::OfSums => {
                if !self.starts_land_under(Link::CLEAR, among, given) {
                    return false;
                }
                self.starts_land_under(Link::SET, among, given)
            }
        }
    }
}
