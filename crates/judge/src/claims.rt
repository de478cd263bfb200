//! What the checker asks of a certificate whose facts have sums.

ghost use Rattle.std.specs.Prelude.{◌≡◌, ◌<◌, [], ◌∷◌, is_some, length, IfSome, IfNone, MatchOption};
ghost use Rattle.wordset.specs.Words.{nothing, HasNoneFrom, IsFirstFrom};
ghost use Rattle.wordset.specs.Lanes.{words};
ghost use Rattle.domain.specs.FactInCode.{fact_in_code, rules_of};
ghost use Rattle.facts.specs.Landing.{fact_at};
ghost use Rattle.certificate_lines.specs.Certificate as said;
ghost use Rattle.certificate_lines.specs.Certificate.{names_routine, claimed, has_any};
ghost use Rattle.certificate_lines.specs.CertificateInCode.{claims};
ghost use Rattle.judge.specs.Shapes.{HasShape};

use certificate::Certificate;
use certificate_lines::{RoutineClaim, Version};
use domain::Rules;
use facts::Fact;
use std::alloc::Allocator;
use word12::Word;

/// What is claimed of a program: its routines, facts at addresses, and what holds at returns.
pub trait Claims {
    /// The certificate that is meant.
    ghost claims: { Self → said.Certificate };

    /// The rules by which its facts are taken further.
    fn rules(&self) -> Rules
        ensures { rules_of result ≡ (claims self.now).rules };

    /// What is claimed of the routine of an entry, if it is listed. One that is not has rank 0, no
    /// sites and no written set.
    fn routine(&self, entry: Word) -> Option<RoutineClaim>
        ensures listed { is_some result ≡ (claims self.now).listed entry }
        ensures rank { IfSome result (λ r. r.rank ≡ (claims self.now).rank entry) }
        ensures sites { IfSome result (λ r. words r.sites ≡ (claims self.now).sites entry) }
        ensures writes { IfSome result (λ r. words r.writes ≡ (claims self.now).writes entry) }
        ensures no_rank { IfNone result ((claims self.now).rank entry ≡ 0) }
        ensures no_sites { IfNone result ((claims self.now).sites entry ≡ nothing) }
        ensures no_writes { IfNone result ((claims self.now).writes entry ≡ nothing) };

    /// Whether a routine of this entry is listed, or it is claimed what holds when it returns
    /// by some offset.
    fn names(&self, entry: Word) -> bool
        ensures { result ≡ names_routine (claims self.now) entry };

    /// The least entry from a number on that is named.
    fn next_named(&self, from: usize) -> Option<Word>
        ensures { MatchOption result
            (HasNoneFrom from (names_routine (claims self.now)))
            (λ w. IsFirstFrom from (names_routine (claims self.now)) w) };

    /// The least address from a number on at which something is claimed: that of a fact, or the entry
    /// of a routine that is named. It is looked first at one line, as below.
    fn next_claimed(&self, from: usize, near: usize) -> Option<Word>
        ensures { MatchOption result
            (HasNoneFrom from (claimed (claims self.now)))
            (λ w. IsFirstFrom from (claimed (claims self.now)) w) };

    /// How many facts there are at an address. It is looked first at one line, here and below. Any
    /// number serves for that: it only spares a search.
    fn count_facts(&self, at: Word, near: usize) -> usize
        ensures { result ≡ length ((claims self.now).facts at) };

    /// Lets the lent fact say what one of those at an address says, and tells the line after it, which
    /// is a good one to look at first for what comes next.
    fn put_fact(&self, at: Word, near: usize, index: usize, fact: &mut Fact) -> usize
        requires { index < length ((claims self.now).facts at) }
        ensures fact { fact_in_code fact.new ≡ fact_at ((claims self.now).facts at) index }
        ensures shape { HasShape (fact_in_code fact.new) };

    /// The line behind the fact at an address, if there is one fact alone, which the lent one then says. It is looked first at
    /// one line.
    fn put_only_fact(&self, at: Word, near: usize, fact: &mut Fact) -> Option<usize>
        ensures { MatchOption result
            (length ((claims self.now).facts at) ≡ 1 → ⊥)
            (λ line. ((claims self.now).facts at ≡ fact_in_code fact.new ∷ []) ×
            HasShape (fact_in_code fact.new)) };

    /// How many exits a routine has for an offset.
    fn count_exits(&self, entry: Word, offset: usize) -> usize
        requires { offset < 64 }
        ensures { result ≡ length ((claims self.now).exits entry offset) };

    /// Lets the lent fact say what one of the exits of a routine for an offset says.
    fn put_exit(&self, entry: Word, offset: usize, index: usize, exit: &mut Fact)
        requires offset { offset < 64 }
        requires index { index < length ((claims self.now).exits entry offset) }
        ensures fact { fact_in_code exit.new ≡ fact_at ((claims self.now).exits entry offset) index }
        ensures shape { HasShape (fact_in_code exit.new) };

    /// The least offset from a number on for which a routine has an exit.
    fn next_offset(&self, entry: Word, from: usize) -> Option<usize>
        ensures { MatchOption result
            (HasNoneFrom from (λ o. has_any ((claims self.now).exits entry o)))
            (λ o. (o < 64) × IsFirstFrom from (λ o. has_any ((claims self.now).exits entry o)) o) };
}

impl<A: Allocator> Claims for Certificate<A> {
    ghost claims = { claims };

    fn rules(&self) -> Rules {
        match self.version() {
            Version::One | Version::Two => Rules::OfEquations,
            Version::Three => Rules::OfSums,
        }
    }

    fn routine(&self, entry: Word) -> Option<RoutineClaim> {
        self.routine(entry)
    }

    fn names(&self, entry: Word) -> bool {
        self.names(entry)
    }

    fn next_named(&self, from: usize) -> Option<Word> {
        self.next_named(from)
    }

    fn next_claimed(&self, from: usize, near: usize) -> Option<Word> {
        self.next_claimed(from, near)
    }

    fn count_facts(&self, at: Word, near: usize) -> usize {
        let mut line = self.facts_from(at, near);
        let mut count = 0usize;
        while self.skip_fact(at, &mut line) {
            count += 1;
        }
        count
    }

    fn put_fact(&self, at: Word, near: usize, index: usize, fact: &mut Fact) -> usize {
        let mut line = self.facts_from(at, near);
        for _before in 0..index {
            let _is_passed = self.skip_fact(at, &mut line);
        }
        let _is_there = self.next_fact(at, &mut line, fact);
        line
    }

    fn put_only_fact(&self, at: Word, near: usize, fact: &mut Fact) -> Option<usize> {
        let mut line = self.facts_from(at, near);
        if !self.next_fact(at, &mut line, fact) {
            return None;
        }
        let mut further = line;
        if self.skip_fact(at, &mut further) {
            return None;
        }
        Some(line)
    }

    fn count_exits(&self, entry: Word, offset: usize) -> usize {
        let mut line = self.exits_from(entry, offset);
        let mut count = 0usize;
        while self.skip_exit(entry, offset, &mut line) {
            count += 1;
        }
        count
    }

    fn put_exit(&self, entry: Word, offset: usize, index: usize, exit: &mut Fact) {
        let mut line = self.exits_from(entry, offset);
        for _before in 0..index {
            let _is_passed = self.skip_exit(entry, offset, &mut line);
        }
        let _is_there = self.next_exit(entry, offset, &mut line, exit);
    }

    fn next_offset(&self, entry: Word, from: usize) -> Option<usize> {
        self.next_offset(entry, from)
    }
}
