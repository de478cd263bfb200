//! Where a run goes on after a word: whether what is known then lands among the facts there.

ghost use Rattle.std.specs.Prelude.{ℕ, ◌≡◌, ◌<◌, ◌↔◌, true, Some, None, IsTrue};
ghost use Rattle.instruct.specs.Instructions.{meaning_of};
ghost use Rattle.wordset.specs.Lanes.{words};
ghost use Rattle.domain.specs.Brief.{brief_words};
ghost use Rattle.domain.specs.FactInCode.{fact_in_code};
ghost use Rattle.transfer.specs.OutcomesInCode.{outcome_in, outcomes_in};
ghost use Rattle.facts.specs.declared.Condition.TheVariants.{V4};
ghost use Rattle.judge.specs.Landing.{LandsAt, LandsBeyond, EachSuccessor, sites_of};
ghost use Rattle.judge.specs.Jumps.{SuccessorLandsHere, SuccessorLandsBeyond, AbandonsIf};
ghost use Rattle.judge.specs.Caches.{StandsAhead};
ghost use Rattle.judge.specs.Points.{IsPoint, case_of, HoldsHere};

use crate::cache::FactCache;
use crate::claims::Claims;
use crate::point::{ComparisonWorkspace, Point, place_of};
use crate::sources::AddressFacts;
use domain::{BriefSet, ReturnOffsets};
use facts::LandingWorkspace;
use std::alloc::Allocator;
use transfer::{FactOutcome, NextFact, OutcomeKind, Outcomes};
use word12::Word;
use wordset::WordSet;

impl<A: Allocator, C: Claims, const K: usize, const S: usize> Point<'_, A, C, K, S> {
    /// Whether a routine's body has an address.
    pub fn is_inside(&self, owner: &Option<Word>, at: Word) -> bool
        ensures { result ≡ (case_of C.claims self.now).declaration.body owner.now at }
    {
        match owner {
            None => self.place.declaration.in_main(at),
            Some(entry) => self.place.declaration.in_body(*entry, at),
        }
    }

    /// Whether what is known lands at an address of a routine's body, with the sites of that routine. It
    /// stays as it is.
    pub fn lands(
        &self,
        owner: &Option<Word>,
        sites: &WordSet,
        at: Word,
        known: &mut NextFact,
        rooms: &mut LandingWorkspace,
    ) -> bool
        requires point { IsPoint C.claims self.now }
        requires sites { words sites.now ≡ sites_of (case_of C.claims self.now).certificate owner.now }
        ensures lands { IsTrue result ↔
            LandsAt (case_of C.claims self.now) owner.now at (fact_in_code known.old) }
        ensures kept { fact_in_code known.new ≡ fact_in_code known.old }
    {
        let place = place_of(
            self.place.image,
            self.place.declaration,
            owner,
            self.place.rules,
        );
        if !self.is_inside(owner, at) {
            return place.is_idle(known, rooms);
        }
        let among = AddressFacts {
            claims: self.claims,
            at,
            sites,
            near: self.near,
        };
        place.lands(known, &among, rooms)
    }

    /// Whether what comes next lands at the address of a fact that is kept, in the same body.
    fn lands_ahead(&self, at: Word, kept: &FactCache, known: &NextFact) -> bool
        requires point { IsPoint C.claims self.now }
        requires ahead { StandsAhead (C.claims self.now.claims.now) (words self.now.body.now.claim.sites) kept.now }
        requires there { kept.now.address ≡ Some at }
        ensures { IsTrue result ↔
            LandsAt (case_of C.claims self.now) self.now.place.routine at (fact_in_code known.now) }
    {
        if !self.is_inside(&self.place.routine, at) {
            return false;
        }
        self.place.entails(known, kept.fact())
    }

    /// Whether what is known lands at an address of the same body.
    pub fn lands_here(&self, at: Word, known: &mut NextFact, rooms: &mut LandingWorkspace) -> bool
        requires { IsPoint C.claims self.now }
        ensures lands { IsTrue result ↔
            LandsAt (case_of C.claims self.now) self.now.place.routine at (fact_in_code known.old) }
        ensures kept { fact_in_code known.new ≡ fact_in_code known.old }
    {
        if let Some(kept) = self.following {
            if kept.is_of(at) {
                return self.lands_ahead(at, kept, known);
            }
        }
        self.lands(
            &self.place.routine,
            &self.body.claim.sites,
            at,
            known,
            rooms,
        )
    }

    /// Whether what is known lands in the same body at each of some addresses.
    fn lands_at_each(
        &self,
        addresses: &WordSet,
        known: &mut NextFact,
        rooms: &mut LandingWorkspace,
    ) -> bool
        requires { IsPoint C.claims self.now }
        ensures lands { IsTrue result ↔ ((a : ℕ) → a < 4096 → words addresses.now a ≡ true →
            LandsAt (case_of C.claims self.now) self.now.place.routine a (fact_in_code known.old)) }
        ensures kept { fact_in_code known.new ≡ fact_in_code known.old }
    {
        for at in addresses.iter() {
            if !self.lands_here(at, known, rooms) {
                return false;
            }
        }
        true
    }

    /// Whether what is known lands in the same body at each of some addresses, which stand in a brief
    /// set.
    fn lands_at_brief(
        &self,
        targets: &BriefSet,
        known: &mut NextFact,
        rooms: &mut LandingWorkspace,
    ) -> bool
        requires { IsPoint C.claims self.now }
        ensures { IsTrue result ↔ ((a : ℕ) → a < 4096 → brief_words targets.now a ≡ true →
            LandsAt (case_of C.claims self.now) self.now.place.routine a (fact_in_code known.old)) }
    {
        match targets.only() {
            Some(at) => self.lands_here(at, known, rooms),
            None => self.lands_at_several(targets, known, rooms),
        }
    }

    /// Whether what comes next lands at each target, where there may be several; the room for them is made here alone.
    #[inline(never)]
    fn lands_at_several(
        &self,
        targets: &BriefSet,
        known: &mut NextFact,
        rooms: &mut LandingWorkspace,
    ) -> bool
        requires { IsPoint C.claims self.now }
        ensures { IsTrue result ↔ ((a : ℕ) → a < 4096 → brief_words targets.now a ≡ true →
            LandsAt (case_of C.claims self.now) self.now.place.routine a (fact_in_code known.old)) }
    {
        let mut addresses = WordSet::empty();
        targets.put(&mut addresses);
        self.lands_at_each(&addresses, known, rooms)
    }

    /// Whether an outcome of a word that abandons no calls lands wherever it goes, if it is there and goes on.
    fn outcome_lands(&self, outcome: &mut FactOutcome, rooms: &mut LandingWorkspace) -> bool
        requires { IsPoint C.claims self.now }
        ensures { IsTrue result ↔
            EachSuccessor (SuccessorLandsHere (case_of C.claims self.now) self.now.place.routine)
            (outcome_in outcome.old) }
    {
        match &outcome.kind {
            OutcomeKind::Nothing | OutcomeKind::Calls | OutcomeKind::Returns => true,
            OutcomeKind::Goes => self.lands_at_brief(&outcome.targets, &mut outcome.fact, rooms),
        }
    }

    /// Whether the running routine may abandon all open calls by a word: it is not main, the word is a JMP and no return, and there
    /// are places for which calls may be abandoned.
    fn may_abandon(&self, word: Word) -> bool
        ensures { AbandonsIf result (case_of C.claims self.now) self.now.place.routine
            (meaning_of (case_of C.claims self.now).declaration.profile self.now.at word) }
    {
        if self.place.routine.is_none() {
            return false;
        }
        if !self.place.is_jump(word) {
            return false;
        }
        if self.place.returned_entry(self.at, word).is_some() {
            return false;
        }
        !self.place.declaration.abandons().is_empty()
    }

    /// Whether an outcome of a JMP in a routine that is not a return lands wherever it goes, if it is there and goes on: in
    /// main's body as one of main's facts, where calls may be abandoned for the address; else in the routine's.
    #[inline(never)]
    fn jump_lands(&self, outcome: &mut FactOutcome, rooms: &mut LandingWorkspace) -> bool
        requires { IsPoint C.claims self.now }
        ensures { IsTrue result ↔ EachSuccessor
            (SuccessorLandsBeyond (case_of C.claims self.now) self.now.place.routine)
            (outcome_in outcome.old) }
    {
        match &outcome.kind {
            OutcomeKind::Nothing | OutcomeKind::Calls | OutcomeKind::Returns => true,
            OutcomeKind::Goes => self.lands_beyond(&outcome.targets, &mut outcome.fact, rooms),
        }
    }

    /// Whether what is known lands at each of some addresses, which stand in a brief set: in main's body as one of main's facts,
    /// where calls may be abandoned for the address; else in the routine's.
    fn lands_beyond(
        &self,
        targets: &BriefSet,
        known: &mut NextFact,
        rooms: &mut LandingWorkspace,
    ) -> bool
        requires { IsPoint C.claims self.now }
        ensures { IsTrue result ↔ ((a : ℕ) → a < 4096 → brief_words targets.now a ≡ true →
            LandsBeyond ((case_of C.claims self.now).declaration.abandon a)
            (case_of C.claims self.now) self.now.place.routine a (fact_in_code known.old)) }
    {
        let mut addresses = WordSet::empty();
        targets.put(&mut addresses);
        let abandons = self.place.declaration.abandons();
        if !self.lands_at_each(&addresses.minus(abandons), known, rooms) {
            return false;
        }
        known.set_sites(&WordSet::empty());
        known.set_offsets(ReturnOffsets::none());
        self.lands_in_main(&addresses.meet(abandons), known, rooms)
    }

    /// Whether what is known lands in main's body at each of some addresses.
    fn lands_in_main(
        &self,
        addresses: &WordSet,
        known: &mut NextFact,
        rooms: &mut LandingWorkspace,
    ) -> bool
        requires { IsPoint C.claims self.now }
        ensures { IsTrue result ↔ ((a : ℕ) → a < 4096 → words addresses.now a ≡ true →
            LandsAt (case_of C.claims self.now) None a (fact_in_code known.old)) }
    {
        for at in addresses.iter() {
            if !self.lands(&None, &WordSet::empty(), at, known, rooms) {
                return false;
            }
        }
        true
    }

    /// Whether each of some outcomes of a word that abandons no calls lands wherever it goes.
    fn each_lands(&self, outcomes: &mut Outcomes, rooms: &mut LandingWorkspace) -> bool
        requires { IsPoint C.claims self.now }
        ensures { IsTrue result ↔
            EachSuccessor (SuccessorLandsHere (case_of C.claims self.now) self.now.place.routine)
            (outcomes_in outcomes.old) }
    {
        if !self.outcome_lands(&mut outcomes.first, rooms) {
            return false;
        }
        if !self.outcome_lands(&mut outcomes.second, rooms) {
            return false;
        }
        if !self.outcome_lands(&mut outcomes.third, rooms) {
            return false;
        }
        self.outcome_lands(&mut outcomes.fourth, rooms)
    }

    /// Whether each of some outcomes of a JMP in a routine that is not a return lands wherever it
    /// goes.
    fn each_jumps(&self, outcomes: &mut Outcomes, rooms: &mut LandingWorkspace) -> bool
        requires { IsPoint C.claims self.now }
        ensures { IsTrue result ↔ EachSuccessor
            (SuccessorLandsBeyond (case_of C.claims self.now) self.now.place.routine)
            (outcomes_in outcomes.old) }
    {
        if !self.jump_lands(&mut outcomes.first, rooms) {
            return false;
        }
        if !self.jump_lands(&mut outcomes.second, rooms) {
            return false;
        }
        if !self.jump_lands(&mut outcomes.third, rooms) {
            return false;
        }
        self.jump_lands(&mut outcomes.fourth, rooms)
    }

    /// Whether each outcome of a word that goes on lands wherever it goes. Those of a call go on in the
    /// routine, so they are not worked out.
    pub(crate) fn outcomes_land<M: Allocator>(
        &self,
        word: Word,
        others: &mut ComparisonWorkspace<M>,
    ) -> bool
        requires { IsPoint C.claims self.now }
        ensures { IsTrue result ↔ HoldsHere C.claims self.now V4 word }
    {
        if self.place.is_call(word) {
            return true;
        }
        let outcomes = others.outcomes.as_mut();
        self.place.put_outcomes(self.fact, self.at, word, outcomes);
        if self.may_abandon(word) {
            return self.each_jumps(outcomes, &mut others.landing);
        }
        self.each_lands(outcomes, &mut others.landing)
    }
}
