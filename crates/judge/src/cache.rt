//! Facts kept with their addresses, so that the one at the next address is read once.

ghost use Rattle.std.specs.Prelude.{◌≡◌, None, Some, [], ◌∷◌, true, false, IsTrue};
ghost use Rattle.wordset.specs.Lanes.{words};
ghost use Rattle.domain.specs.FactInCode.{fact_in_code};
ghost use Rattle.certificate_lines.specs.Certificate as said;
ghost use Rattle.judge.specs.Shapes.{HasShape};
ghost use Rattle.judge.specs.Caches.{Shows, StandsAhead};

use crate::claims::Claims;
use domain::{BriefSet, Rules};
use facts::Fact;
use word12::Word;
use wordset::WordSet;

/// The fact of an address at which there is no other, or of none. Two are made, for the address that is looked at and for the
/// next one, by turns: the fact among which a run mostly lands is then the one that is looked at next, and is read once.
#[derive(Drop)]
pub struct FactCache {
    pub(crate) fact: Fact,
    /// Its sites as they are claimed, since others may be given to it.
    sites: BriefSet,
    address: Option<Word>,
    end: usize,
}

impl FactCache {
    /// The fact of no address.
    #[inline]
    pub fn new() -> FactCache
        ensures { (c : said.Certificate) → Shows c result }
    {
        FactCache {
            fact: Fact::any(),
            sites: BriefSet::none(),
            address: None,
            end: 0,
        }
    }

    /// The fact.
    pub fn fact(&self) -> &Fact
        ensures { result.now ≡ self.now.fact }
    {
        &self.fact
    }

    /// The line after the fact's own, which is a good one to look at first for what comes next.
    pub fn end(&self) -> usize
        ensures { result ≡ self.now.end }
    {
        self.end
    }

    /// Whether the fact is that of an address.
    pub fn is_of(&self, at: Word) -> bool
        ensures { IsTrue result → self.now.address ≡ Some at }
    {
        match &self.address {
            None => false,
            Some(address) => *address == at,
        }
    }

    /// Lets it be the fact of no address.
    pub fn forget(&mut self)
        ensures forgotten { self.new.address ≡ None }
        ensures fact { self.new.fact ≡ self.old.fact }
    {
        self.address = None;
    }

    /// Whether there is one fact alone at an address, which then stands here as it is claimed. One that stands here already is
    /// not read again, and another is looked for first at a line.
    pub fn turn_to<C: Claims>(&mut self, claims: &C, at: Word, near: usize) -> bool
        requires { Shows (C.claims claims.now) self.old }
        ensures alone { result ≡ true →
            (C.claims claims.now).facts at ≡ fact_in_code self.new.fact ∷ [] }
        ensures shape { result ≡ true → HasShape (fact_in_code self.new.fact) }
        ensures there { result ≡ true → self.new.address ≡ Some at }
        ensures nowhere { result ≡ false → self.new.address ≡ None }
        ensures shows { Shows (C.claims claims.now) self.new }
    {
        if self.is_of(at) {
            self.fact.copy_sites(&self.sites);
            return true;
        }
        self.read(claims, at, near)
    }

    /// The same, where it is read.
    fn read<C: Claims>(&mut self, claims: &C, at: Word, near: usize) -> bool
        ensures alone { result ≡ true →
            (C.claims claims.now).facts at ≡ fact_in_code self.new.fact ∷ [] }
        ensures shape { result ≡ true → HasShape (fact_in_code self.new.fact) }
        ensures there { result ≡ true → self.new.address ≡ Some at }
        ensures nowhere { result ≡ false → self.new.address ≡ None }
        ensures shows { Shows (C.claims claims.now) self.new }
    {
        self.address = None;
        match claims.put_only_fact(at, near, &mut self.fact) {
            None => false,
            Some(end) => {
                self.sites.copy_from(self.fact.sites());
                self.end = end;
                self.address = Some(at);
                true
            }
        }
    }

    /// Lets it be the fact at an address with the sites of a body, where it is read by the rules of equations and there is no
    /// other; else that of no address. By the rules of sums facts land among others part by part.
    pub fn look_ahead<C: Claims>(&mut self, claims: &C, at: Word, near: usize, sites: &WordSet)
        requires { Shows (C.claims claims.now) self.old }
        ensures ahead { StandsAhead (C.claims claims.now) (words sites.now) self.new }
        ensures shows { Shows (C.claims claims.now) self.new }
    {
        match claims.rules() {
            Rules::OfSums => self.forget(),
            Rules::OfEquations => {
                if self.turn_to(claims, at, near) {
                    self.fact.set_sites(sites);
                }
            }
        }
    }
}
