//! What is declared to hold, by a fact.

ghost use Rattle.std.specs.Prelude.{◌≡◌, ◌==◌, ◌&&◌, ◌↔◌, true, IfNone, IfSome, IsTrue, map};
ghost use Rattle.wordset.specs.Words.{SameWords};
ghost use Rattle.wordset.specs.Lanes.{words};
ghost use Rattle.wordset.specs.Links.{links_of};
ghost use Rattle.declaration.specs.DeclarationInCode.{assertion_of, place_assertion_of, return_assertion_of};
ghost use Rattle.domain.specs.FactInCode.{fact_in_code};
ghost use Rattle.facts.specs.Conditions.{link_words, may_be, IsAsserted, IsDenied, EachIsHeld, EachIsHeldBy};
ghost use Rattle.facts.specs.PlaceInCode.{place_in_code};

use crate::place::Place;
use declaration::{Assertion, PlaceAssertion, ReturnAssertion, Subject};
use domain::{Location, SumFact};
use std::alloc::Allocator;
use word12::{Link, Word};
use wordset::{Links, WordSet};

/// The set of one word, if it is to have it, and else of none.
fn one_if(has: bool, word: Word) -> WordSet
    ensures { words result ≡ (λ v. has && (v == word)) }
{
    if has {
        WordSet::one(word)
    } else {
        WordSet::empty()
    }
}

/// Some links as words.
fn words_of(links: Links) -> WordSet
    ensures { SameWords (words result) (link_words (links_of links)) }
{
    let clear = one_if(links.contains(Link::CLEAR), Word::from_index(0));
    let set = one_if(links.contains(Link::SET), Word::from_index(1));
    clear.union(&set)
}

impl<A: Allocator> Place<'_, A> {
    /// Lets a set be the words that the subject of an assertion may have by a fact.
    fn put_may_be<const C: usize, const R: usize>(
        &self,
        fact: &SumFact<C, R>,
        subject: &Subject,
        place: &mut WordSet,
    )
        ensures { SameWords (words place.new)
            (may_be (place_in_code self.now) (fact_in_code fact.now) subject.now) }
    {
        match subject {
            Subject::Accumulator => self.put_words_known(fact, &Location::Accumulator, place),
            Subject::Link => *place = words_of(fact.link()),
            Subject::Mq => *place = *fact.mq(),
            Subject::Cell(cell) => self.put_words_in(fact, *cell, place),
        }
    }

    /// The least word that the subject of an assertion may have by a fact and that is not asserted.
    pub fn denied_word<const C: usize, const R: usize>(
        &self,
        fact: &SumFact<C, R>,
        assertion: &Assertion,
    ) -> Option<Word>
        ensures denied { IfSome result (IsDenied (place_in_code self.now) (fact_in_code fact.now)
            (assertion_of assertion.now)) }
        ensures none { IfNone result (IsAsserted (place_in_code self.now) (fact_in_code fact.now)
            (assertion_of assertion.now)) }
    {
        let mut possible = WordSet::empty();
        self.put_may_be(fact, assertion.subject(), &mut possible);
        possible.minus(assertion.words()).first_from(0)
    }

    /// Whether by a fact what is asserted is so.
    fn is_asserted<const C: usize, const R: usize>(
        &self,
        fact: &SumFact<C, R>,
        assertion: &Assertion,
    ) -> bool
        ensures { IsTrue result ↔ IsAsserted (place_in_code self.now) (fact_in_code fact.now)
            (assertion_of assertion.now) }
    {
        match self.denied_word(fact, assertion) {
            None => true,
            Some(_) => false,
        }
    }

    /// Whether by a fact at an address it is so what is to hold at some places, if the address is one of them.
    fn is_held<const C: usize, const R: usize>(
        &self,
        fact: &SumFact<C, R>,
        at: Word,
        holding: &PlaceAssertion,
    ) -> bool
        ensures { let h = place_assertion_of holding.now in IsTrue result ↔ (h.places at ≡ true →
            IsAsserted (place_in_code self.now) (fact_in_code fact.now) h.assertion) }
    {
        if !holding.places().contains(at) {
            return true;
        }
        self.is_asserted(fact, holding.assertion())
    }

    /// Whether by a fact at an address all is so that is to hold there, of some that is to hold.
    fn each_is_held<const C: usize, const R: usize>(
        &self,
        fact: &SumFact<C, R>,
        at: Word,
        holds: &[PlaceAssertion],
    ) -> bool
        ensures { IsTrue result ↔ EachIsHeld (place_in_code self.now) (fact_in_code fact.now) at
            (map place_assertion_of holds.now) }
    {
        for holding in holds {
            if !self.is_held(fact, at, holding) {
                return false;
            }
        }
        true
    }

    /// Whether by a fact at an address all is so that is declared to hold there.
    pub fn holds_as_declared<const C: usize, const R: usize>(
        &self,
        fact: &SumFact<C, R>,
        at: Word,
    ) -> bool
        ensures { let pl = place_in_code self.now in
            IsTrue result ↔ EachIsHeld pl (fact_in_code fact.now) at pl.declaration.holds }
    {
        self.each_is_held(fact, at, self.declaration.holds())
    }

    /// Whether by an exit of a routine for an offset it is so what is to hold at some returns, if this is one of them.
    fn is_held_by<const C: usize, const R: usize>(
        &self,
        exit: &SumFact<C, R>,
        entry: Word,
        offset: Word,
        returning: &ReturnAssertion,
    ) -> bool
        ensures { let r = return_assertion_of returning.now in IsTrue result ↔ (r.entry ≡ entry → r.offsets offset ≡ true →
            IsAsserted (place_in_code self.now) (fact_in_code exit.now) r.assertion) }
    {
        if returning.entry() != entry {
            return true;
        }
        if !returning.offsets().contains(offset) {
            return true;
        }
        self.is_asserted(exit, returning.assertion())
    }

    /// Whether by an exit of a routine for an offset all is so that is to hold then, of some that is to hold.
    fn each_is_held_by<const C: usize, const R: usize>(
        &self,
        exit: &SumFact<C, R>,
        entry: Word,
        offset: Word,
        returns: &[ReturnAssertion],
    ) -> bool
        ensures { IsTrue result ↔ EachIsHeldBy (place_in_code self.now) (fact_in_code exit.now) entry offset
            (map return_assertion_of returns.now) }
    {
        for returning in returns {
            if !self.is_held_by(exit, entry, offset, returning) {
                return false;
            }
        }
        true
    }

    /// Whether by an exit of a routine for an offset all is so that is declared to hold then.
    pub fn returns_as_declared<const C: usize, const R: usize>(
        &self,
        exit: &SumFact<C, R>,
        entry: Word,
        offset: Word,
    ) -> bool
        ensures { let pl = place_in_code self.now in
            IsTrue result ↔ EachIsHeldBy pl (fact_in_code exit.now) entry offset pl.declaration.returns }
    {
        self.each_is_held_by(exit, entry, offset, self.declaration.returns())
    }
}
