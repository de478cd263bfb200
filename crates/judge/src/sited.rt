//! Facts with the sites that they have by the rules: their own, or by the rules of equations those of their routine.

ghost use Rattle.std.specs.Prelude.{◌≡◌};
ghost use Rattle.wordset.specs.Lanes.{words};
ghost use Rattle.domain.specs.FactInCode.{fact_in_code, rules_of};
ghost use Rattle.judge.specs.Sources.{sited_one, facts_of, exits_for};

use crate::claims::Claims;
use crate::sources::{AddressFacts, OffsetExits};
use domain::Rules;
use facts::{Fact, FactSource};
use wordset::WordSet;

/// Gives a fact the sites that it has by the rules.
pub fn put_sites(rules: &Rules, sites: &WordSet, fact: &mut Fact)
    ensures { fact_in_code fact.new ≡
        sited_one (rules_of rules.now) (words sites.now) (fact_in_code fact.old) }
{
    match rules {
        Rules::OfSums => {}
        Rules::OfEquations => fact.set_sites(sites),
    }
}

impl<C: Claims> FactSource for AddressFacts<'_, C> {
    ghost facts = { facts_of C.claims };

    fn len(&self) -> usize {
        self.claims.count_facts(self.at, self.near)
    }

    fn put(&self, at: usize, fact: &mut Fact) {
        let _line = self.claims.put_fact(self.at, self.near, at, fact);
        put_sites(&self.claims.rules(), self.sites, fact);
    }
}

impl<C: Claims> FactSource for OffsetExits<'_, C> {
    ghost facts = { exits_for C.claims };

    fn len(&self) -> usize {
        self.claims.count_exits(self.entry, self.offset)
    }

    fn put(&self, at: usize, fact: &mut Fact) {
        self.claims.put_exit(self.entry, self.offset, at, fact);
        put_sites(&self.claims.rules(), self.sites, fact);
    }
}
