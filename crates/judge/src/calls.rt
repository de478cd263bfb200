//! What is asked of calls and returns.

ghost use Rattle.std.specs.Prelude.{◌≡◌, ◌<◌, ◌↔◌, Some, true, IsTrue};
ghost use Rattle.wordset.specs.Lanes.{words};
ghost use Rattle.instruct.specs.Instructions.{meaning_of};
ghost use Rattle.domain.specs.Facts.{last_site};
ghost use Rattle.domain.specs.FactInCode.{fact_in_code, rules_of};
ghost use Rattle.facts.specs.declared.Condition.TheVariants.{V7, V8, V9, V10, V11, V12};
ghost use Rattle.judge.specs.Landing.{called_from, LandsAfter};
ghost use Rattle.judge.specs.Conditions.{EachTarget, MayCall, CoversCallee, MayReturn};
ghost use Rattle.judge.specs.Callees.{HoldsOfCallee, IsBelow, LandsBy, LandsWith, ReturnsBy, ReturnsThrough};
ghost use Rattle.judge.specs.Points.{IsPoint, HoldsHere, case_of, fact_asked};

use crate::claims::Claims;
use crate::point::{ComparisonWorkspace, Point};
use crate::sources::OffsetExits;
use certificate_lines::RoutineClaim;
use domain::{ReturnOffsets, Rules};
use facts::{Condition, FactSource};
use std::alloc::Allocator;
use transfer::NextFact;
use word12::Word;
use wordset::WordSet;

/// The last address that may be a site of a call by the rules.
fn last_site(rules: &Rules) -> usize
    ensures { result ≡ last_site (rules_of rules.now) }
{
    match rules {
        Rules::OfEquations => 0o7767,
        Rules::OfSums => 0o7776,
    }
}

impl<A: Allocator, C: Claims, const K: usize, const S: usize> Point<'_, A, C, K, S> {
    /// Whether a word calls listed entries of lower rank alone, and not through an auto-index cell.
    pub(crate) fn may_call<M: Allocator>(
        &self,
        word: Word,
        others: &mut ComparisonWorkspace<M>,
    ) -> bool
        requires { IsPoint C.claims self.now }
        ensures { IsTrue result ↔ HoldsHere C.claims self.now V7 word }
    {
        if self.place.steps_call_pointer(self.at, word) {
            return false;
        }
        self.callees_pass(Condition::V7, word, others)
    }

    /// Whether the routine, if it is not main, covers all that a word calls.
    pub(crate) fn covers_callees<M: Allocator>(
        &self,
        word: Word,
        others: &mut ComparisonWorkspace<M>,
    ) -> bool
        requires { IsPoint C.claims self.now }
        ensures { IsTrue result ↔ HoldsHere C.claims self.now V8 word }
    {
        self.callees_pass(Condition::V8, word, others)
    }

    /// Whether the address is a site of all that a word calls.
    pub(crate) fn calls_from_sites<M: Allocator>(
        &self,
        word: Word,
        others: &mut ComparisonWorkspace<M>,
    ) -> bool
        requires { IsPoint C.claims self.now }
        ensures { IsTrue result ↔ HoldsHere C.claims self.now V9 word }
    {
        self.callees_pass(Condition::V9, word, others)
    }

    /// Whether the fact lands at the first address of all that a word calls.
    pub(crate) fn enters_callees<M: Allocator>(
        &self,
        word: Word,
        others: &mut ComparisonWorkspace<M>,
    ) -> bool
        requires { IsPoint C.claims self.now }
        ensures { IsTrue result ↔ HoldsHere C.claims self.now V10 word }
    {
        self.callees_pass(Condition::V10, word, others)
    }

    /// Whether the run lands after each return of all that a word calls.
    pub(crate) fn lands_after_calls<M: Allocator>(
        &self,
        word: Word,
        others: &mut ComparisonWorkspace<M>,
    ) -> bool
        requires { IsPoint C.claims self.now }
        ensures { IsTrue result ↔ HoldsHere C.claims self.now V11 word }
    {
        self.callees_pass(Condition::V11, word, others)
    }

    /// Whether a word that returns does so from its own routine, at declared offsets among whose exits the
    /// fact lands.
    pub(crate) fn returns_well<M: Allocator>(
        &self,
        word: Word,
        others: &mut ComparisonWorkspace<M>,
    ) -> bool
        requires { IsPoint C.claims self.now }
        ensures { IsTrue result ↔ HoldsHere C.claims self.now V12 word }
    {
        match self.place.returned_entry(self.at, word) {
            None => true,
            Some(entry) => self.returns_through(entry, others),
        }
    }

    /// Whether a condition on calls holds of each callee of a word.
    fn callees_pass<M: Allocator>(
        &self,
        condition: Condition,
        word: Word,
        others: &mut ComparisonWorkspace<M>,
    ) -> bool
        requires { IsPoint C.claims self.now }
        ensures { IsTrue result ↔
            EachTarget (case_of C.claims self.now) self.now.place.routine (fact_asked self.now)
            (meaning_of (case_of C.claims self.now).declaration.profile self.now.at word)
            (HoldsOfCallee (case_of C.claims self.now) condition self.now.place.routine self.now.at
            (fact_asked self.now)) }
    {
        if !self.place.is_call(word) {
            return true;
        }
        self.each_callee_passes(condition, word, others)
    }

    /// Whether a condition on calls holds of each callee of a word; the room for them is made here
    /// alone.
    #[inline(never)]
    fn each_callee_passes<M: Allocator>(
        &self,
        condition: Condition,
        word: Word,
        others: &mut ComparisonWorkspace<M>,
    ) -> bool
        requires { IsPoint C.claims self.now }
        ensures { IsTrue result ↔
            EachTarget (case_of C.claims self.now) self.now.place.routine (fact_asked self.now)
            (meaning_of (case_of C.claims self.now).declaration.profile self.now.at word)
            (HoldsOfCallee (case_of C.claims self.now) condition self.now.place.routine self.now.at
            (fact_asked self.now)) }
    {
        let mut callees = WordSet::empty();
        self.place
            .put_called(self.fact, self.at, word, &mut callees);
        for entry in callees.iter() {
            if !self.callee_passes(condition, entry, others) {
                return false;
            }
        }
        true
    }

    /// Whether a condition on calls holds of a callee.
    pub fn callee_passes<M: Allocator>(
        &self,
        condition: Condition,
        entry: Word,
        others: &mut ComparisonWorkspace<M>,
    ) -> bool
        requires { IsPoint C.claims self.now }
        ensures { IsTrue result ↔
            HoldsOfCallee (case_of C.claims self.now) condition self.now.place.routine self.now.at
            (fact_asked self.now) entry }
    {
        match condition {
            Condition::V7 => self.may_call_entry(entry),
            Condition::V8 => self.covers(entry),
            Condition::V9 => self.is_site_of(entry),
            Condition::V10 => self.enters(entry, others),
            Condition::V11 => self.lands_after(entry, others),
            _ => true,
        }
    }

    /// What is claimed of the routine of an entry, and nothing if it is not listed.
    pub fn claimed(&self, entry: Word) -> RoutineClaim
        ensures rank { result.rank ≡ (case_of C.claims self.now).certificate.rank entry }
        ensures sites { words result.sites ≡ (case_of C.claims self.now).certificate.sites entry }
        ensures writes { words result.writes ≡
            (case_of C.claims self.now).certificate.writes entry }
    {
        match self.claims.routine(entry) {
            Some(routine) => routine,
            None => RoutineClaim {
                rank: 0,
                sites: WordSet::empty(),
                writes: WordSet::empty(),
            },
        }
    }

    /// Whether an entry is listed and of lower rank.
    #[inline(never)]
    fn may_call_entry(&self, entry: Word) -> bool
        ensures { IsTrue result ↔
            MayCall (case_of C.claims self.now) self.now.place.routine entry }
    {
        if !self.place.declaration.is_entry(entry) {
            return false;
        }
        match self.claims.routine(entry) {
            None => false,
            Some(callee) => self.is_below(callee.rank),
        }
    }

    /// Whether a rank is below the routine's, if it is not main.
    fn is_below(&self, rank: usize) -> bool
        ensures { IsTrue result ↔
            IsBelow (case_of C.claims self.now).certificate self.now.place.routine rank }
    {
        match &self.place.routine {
            None => true,
            Some(running) => rank < self.claimed(*running).rank,
        }
    }

    /// Whether the routine, if it is not main, has an entry and what the entry's routine writes in
    /// its written set, and is not written there itself.
    #[inline(never)]
    fn covers(&self, entry: Word) -> bool
        requires { IsPoint C.claims self.now }
        ensures { IsTrue result ↔
            CoversCallee (case_of C.claims self.now).certificate self.now.place.routine entry }
    {
        let Some(running) = &self.place.routine else {
            return true;
        };
        let callee = self.claimed(entry);
        if callee.writes.contains(*running) {
            return false;
        }
        if !self.body.claim.writes.contains(entry) {
            return false;
        }
        callee.writes.is_subset(&self.body.claim.writes)
    }

    /// Whether the address is a site of an entry.
    #[inline(never)]
    fn is_site_of(&self, entry: Word) -> bool
        requires { IsPoint C.claims self.now }
        ensures { IsTrue result ↔
            HoldsOfCallee (case_of C.claims self.now) V9 self.now.place.routine self.now.at
            (fact_asked self.now) entry }
    {
        if self.at.index() > last_site(&self.place.rules) {
            return false;
        }
        self.claimed(entry).sites.contains(self.at)
    }

    /// Puts the fact that holds behind the entry of a routine that is called from here into room for it.
    pub fn put_called_from(&self, next: &mut NextFact)
        requires { IsPoint C.claims self.now }
        ensures { fact_in_code next.new ≡ called_from self.now.at (fact_asked self.now) }
    {
        next.copy_from(self.fact);
        next.set_sites(&WordSet::one(self.at));
        let mut offsets = ReturnOffsets::none();
        offsets.insert(0);
        next.set_offsets(offsets);
    }

    /// Whether the fact lands at the first address after an entry, with the return word not counted
    /// up, and this address as the only site.
    #[inline(never)]
    fn enters<M: Allocator>(&self, entry: Word, others: &mut ComparisonWorkspace<M>) -> bool
        requires { IsPoint C.claims self.now }
        ensures { IsTrue result ↔
            HoldsOfCallee (case_of C.claims self.now) V10 self.now.place.routine self.now.at
            (fact_asked self.now) entry }
    {
        let callee = self.claimed(entry);
        self.put_called_from(&mut others.next);
        self.lands(
            &Some(entry),
            &callee.sites,
            entry.increment(),
            &mut others.next,
            &mut others.landing,
        )
    }

    /// Whether the run lands after each return that is claimed of an entry.
    fn lands_after<M: Allocator>(&self, entry: Word, others: &mut ComparisonWorkspace<M>) -> bool
        requires { IsPoint C.claims self.now }
        ensures { IsTrue result ↔
            LandsAfter (case_of C.claims self.now) self.now.place.routine self.now.at entry
            (fact_asked self.now) }
    {
        let callee = self.claimed(entry);
        let mut from = 0usize;
        while let Some(offset) = self.claims.next_offset(entry, from) {
            if !self.lands_by(entry, offset, &callee, others) {
                return false;
            }
            from = offset + 1;
        }
        true
    }

    /// Whether the run lands after a return by an offset with each exit that is claimed for it.
    pub fn lands_by<M: Allocator>(
        &self,
        entry: Word,
        offset: usize,
        callee: &RoutineClaim,
        others: &mut ComparisonWorkspace<M>,
    ) -> bool
        requires point { IsPoint C.claims self.now }
        requires offset { offset < 64 }
        requires sites { words callee.now.sites ≡
            (case_of C.claims self.now).certificate.sites entry }
        requires writes { words callee.now.writes ≡
            (case_of C.claims self.now).certificate.writes entry }
        ensures { IsTrue result ↔
            LandsBy (case_of C.claims self.now) self.now.place.routine self.now.at entry offset
            (fact_asked self.now) }
    {
        let exits = OffsetExits {
            claims: self.claims,
            entry,
            offset,
            sites: &callee.sites,
        };
        for index in 0..exits.len() {
            exits.put(index, &mut others.exit);
            if !self.lands_with(offset, &callee.writes, others) {
                return false;
            }
        }
        true
    }

    /// Whether the run lands after a return by an offset with what the exit at hand says, if the address
    /// is one of its sites.
    #[inline(never)]
    pub fn lands_with<M: Allocator>(
        &self,
        offset: usize,
        written: &WordSet,
        others: &mut ComparisonWorkspace<M>,
    ) -> bool
        requires point { IsPoint C.claims self.now }
        requires offset { offset < 64 }
        ensures { IsTrue result ↔
            LandsWith (case_of C.claims self.now) self.now.place.routine self.now.at
            (words written.now) offset (fact_asked self.now) (fact_in_code others.old.exit) }
    {
        let mut sites = WordSet::empty();
        others.exit.sites().put(&mut sites);
        if !sites.contains(self.at) {
            return true;
        }
        others.exit.is_within_room();
        others
            .next
            .take_joined(&self.place.rules, self.fact, &others.exit, written);
        let at = self.at.increment().add(Word::from_index(offset));
        self.lands_here(at, &mut others.next, &mut others.landing)
    }

    /// Whether a return through an entry is the routine's own, and each offset of the fact passes.
    fn returns_through<M: Allocator>(
        &self,
        entry: Word,
        others: &mut ComparisonWorkspace<M>,
    ) -> bool
        requires { IsPoint C.claims self.now }
        ensures { IsTrue result ↔
            ReturnsThrough (case_of C.claims self.now) self.now.place.routine entry
            (fact_asked self.now) }
    {
        if !self.is_own(entry) {
            return false;
        }
        for offset in 0..64usize {
            if !self.returns_by(entry, offset, others) {
                return false;
            }
        }
        true
    }

    /// Whether an entry is the routine's.
    pub fn is_own(&self, entry: Word) -> bool
        ensures { IsTrue result ↔ (self.now.place.routine ≡ Some entry) }
    {
        match &self.place.routine {
            None => false,
            Some(running) => *running == entry,
        }
    }

    /// Whether the routine may return by an offset, if the fact has that.
    fn returns_by<M: Allocator>(
        &self,
        entry: Word,
        offset: usize,
        others: &mut ComparisonWorkspace<M>,
    ) -> bool
        requires point { IsPoint C.claims self.now }
        requires own { self.now.place.routine ≡ Some entry }
        requires offset { offset < 64 }
        ensures { IsTrue result ↔
            ReturnsBy (case_of C.claims self.now) entry (fact_asked self.now) offset }
    {
        if !self.fact.offsets().contains(offset) {
            return true;
        }
        self.may_return(entry, offset, others)
    }

    /// Whether the routine may return by an offset with what the fact says.
    pub fn may_return<M: Allocator>(
        &self,
        entry: Word,
        offset: usize,
        others: &mut ComparisonWorkspace<M>,
    ) -> bool
        requires point { IsPoint C.claims self.now }
        requires own { self.now.place.routine ≡ Some entry }
        requires offset { offset < 64 }
        ensures { IsTrue result ↔
            MayReturn (case_of C.claims self.now) entry (fact_asked self.now) offset }
    {
        if !self
            .place
            .declaration
            .has_offset(entry, Word::from_index(offset))
        {
            return false;
        }
        others.next.copy_from(self.fact);
        let exits = OffsetExits {
            claims: self.claims,
            entry,
            offset,
            sites: &self.body.claim.sites,
        };
        self.place
            .lands(&mut others.next, &exits, &mut others.landing)
    }
}
