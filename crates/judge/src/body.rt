//! The body that has an address, and what is claimed of it.

ghost use Rattle.std.specs.Prelude.{◌≡◌, ◌↔◌, None, Some, true, IsTrue};
ghost use Rattle.domain.specs.FactInCode.{fact_in_code, rules_of};
ghost use Rattle.certificate_lines.specs.Certificate as said;
ghost use Rattle.judge.specs.Conditions.{IsOfMain, IsOfRoutine};
ghost use Rattle.judge.specs.Bodies.{Tells, IsOfBody};

use crate::claims::Claims;
use certificate_lines::RoutineClaim;
use domain::Rules;
use facts::Fact;
use word12::Word;
use wordset::WordSet;

/// A body: main's, or that of the routine of an entry, with what is claimed of it; nothing is claimed of main.
#[derive(Clone, Copy)]
pub struct Body {
    pub routine: Option<Word>,
    pub claim: RoutineClaim,
}

impl Body {
    /// Main's body.
    pub fn main() -> Body
        ensures main { result.routine ≡ None }
        ensures tells { (c : said.Certificate) → Tells c result }
    {
        Body {
            routine: None,
            claim: RoutineClaim {
                rank: 0,
                sites: WordSet::empty(),
                writes: WordSet::empty(),
            },
        }
    }

    /// Whether it is that of the routine of an entry.
    fn is_of(&self, entry: Word) -> bool
        ensures { IsTrue result → self.now.routine ≡ Some entry }
    {
        match &self.routine {
            None => false,
            Some(own) => *own == entry,
        }
    }

    /// Lets main's body stand here.
    pub fn turn_to_main(&mut self)
        ensures main { self.new.routine ≡ None }
        ensures tells { (c : said.Certificate) → Tells c self.old → Tells c self.new }
    {
        if self.routine.is_some() {
            *self = Body::main();
        }
    }

    /// Whether the routine of an entry is listed, whose body then stands here, with what is claimed of
    /// it. One that stands here already is not read again.
    pub fn turn_to<C: Claims>(&mut self, claims: &C, entry: Word) -> bool
        requires { Tells (C.claims claims.now) self.old }
        ensures listed { result ≡ (C.claims claims.now).listed entry }
        ensures body { result ≡ true → self.new.routine ≡ Some entry }
        ensures tells { Tells (C.claims claims.now) self.new }
    {
        if self.is_of(entry) {
            return true;
        }
        self.read(claims, entry)
    }

    /// Reads the body of the routine of an entry, and says whether the routine is listed; the room for it is made here alone.
    #[inline(never)]
    fn read<C: Claims>(&mut self, claims: &C, entry: Word) -> bool
        requires { Tells (C.claims claims.now) self.old }
        ensures listed { result ≡ (C.claims claims.now).listed entry }
        ensures body { result ≡ true → self.new.routine ≡ Some entry }
        ensures tells { Tells (C.claims claims.now) self.new }
    {
        match claims.routine(entry) {
            None => false,
            Some(claim) => {
                *self = Body {
                    routine: Some(entry),
                    claim,
                };
                true
            }
        }
    }

    /// Whether a fact has sites and offsets as it must have in this body: none in main's, and in a
    /// routine's some offset, and by the rules of sums some site.
    pub fn allows(&self, rules: &Rules, fact: &Fact) -> bool
        ensures { IsTrue result ↔
            IsOfBody (rules_of rules.now) self.now.routine (fact_in_code fact.now) }
    {
        match &self.routine {
            None => is_of_main(fact),
            Some(_) => is_of_routine(rules, fact),
        }
    }
}

/// Whether a fact has no site and no offset.
fn is_of_main(fact: &Fact) -> bool
    ensures { IsTrue result ↔ IsOfMain (fact_in_code fact.now) }
{
    if !fact.sites().is_empty() {
        return false;
    }
    fact.offsets().is_empty()
}

/// Whether a fact has some offset, and by the rules of sums some site.
fn is_of_routine(rules: &Rules, fact: &Fact) -> bool
    ensures { IsTrue result ↔ IsOfRoutine (rules_of rules.now) (fact_in_code fact.now) }
{
    if fact.offsets().is_empty() {
        return false;
    }
    match rules {
        Rules::OfEquations => true,
        Rules::OfSums => !fact.sites().is_empty(),
    }
}
