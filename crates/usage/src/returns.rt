//! What routines return with by the exits of a certificate.

ghost use Rattle.std.specs.Prelude.{◌<◌};

use bin_tape::Image;
use certificate::Certificate;
use declaration::Declaration;
use facts::{Fact, Location, NarrowedFact, Place};
use judge::{Claims, place_of, put_asked, put_sites};
use std::alloc::Allocator;
use word12::{Link, Word};
use wordset::{Links, WordSet};

/// A register with which a routine returns.
#[derive(Clone, Copy, PartialEq, Eq, Debug)]
pub enum Register {
    /// The accumulator.
    Accumulator,
    /// The link, whose words are 0 and 1.
    Link,
}

/// Some links as words.
fn words_of(links: Links) -> WordSet {
    let mut words = WordSet::empty();
    if links.contains(Link::CLEAR) {
        words.insert(Word::from_index(0));
    }
    if links.contains(Link::SET) {
        words.insert(Word::from_index(1));
    }
    words
}

impl Register {
    /// The words that it may hold by a fact.
    fn held<D: Allocator>(self, place: &Place<'_, D>, fact: &NarrowedFact) -> WordSet {
        match self {
            Register::Accumulator => {
                let mut words = WordSet::empty();
                place.put_words_known(fact, &Location::Accumulator, &mut words);
                words
            }
            Register::Link => words_of(fact.link()),
        }
    }
}

/// The sites of the routine of an entry, none if it is not listed.
fn sites_of<A: Allocator>(certificate: &Certificate<A>, entry: Word) -> WordSet {
    match Claims::routine(certificate, entry) {
        Some(routine) => routine.sites,
        None => WordSet::empty(),
    }
}

/// The words that a register may hold by some exit of the routine of an entry for an offset, of those for which conditions are
/// checked: after a yes the register holds one of them whenever the routine returns so. There are none if the routine never returns
/// so.
pub fn returned<A: Allocator, D: Allocator>(
    register: Register,
    image: &Image,
    declaration: &Declaration<D>,
    certificate: &Certificate<A>,
    entry: Word,
    offset: usize,
) -> WordSet
    requires { offset < 64 }
{
    let rules = Claims::rules(certificate);
    let sites = sites_of(certificate, entry);
    let place = place_of(image, declaration, &Some(entry), rules);
    let mut claimed = Fact::any();
    let mut asked = NarrowedFact::any();
    let mut words = WordSet::empty();
    for index in 0..Claims::count_exits(certificate, entry, offset) {
        Claims::put_exit(certificate, entry, offset, index, &mut claimed);
        put_sites(&rules, &sites, &mut claimed);
        if put_asked(&rules, image, &claimed, &mut asked) {
            words = words.union(&register.held(&place, &asked));
        }
    }
    words
}
