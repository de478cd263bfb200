//! What is judged, and which condition fails first at an address.

ghost use Rattle.std.specs.Prelude.{◌≡◌, ◌<◌, ◌≤◌, ◌↔◌, [], ◌∷◌, None, true, false, if◌then◌else◌, IsTrue, IfSome, MatchResult, length};
ghost use Rattle.peripherals.specs.Loading.{image_of};
ghost use Rattle.wordset.specs.Lanes.{words};
ghost use Rattle.domain.specs.Facts as said;
ghost use Rattle.domain.specs.FactInCode.{fact_in_code, rules_of};
ghost use Rattle.facts.specs.Landing.{fact_at};
ghost use Rattle.facts.specs.declared.Condition.TheVariants.{V1};
ghost use Rattle.certificate_lines.specs.Certificate.{names_routine};
ghost use Rattle.judge.specs.Landing.{asked, sited};
ghost use Rattle.judge.specs.Conditions.{HoldsAt, IsPlaced};
ghost use Rattle.judge.specs.Bodies.{Tells};
ghost use Rattle.judge.specs.Judged.{case_kept};
ghost use Rattle.judge.specs.Caches.{Shows, StandsAhead};
ghost use Rattle.judge.specs.Shapes.{HasShape, IsRoomy};
ghost use Rattle.judge.specs.Asked.{HoldsBetween, FailsAtLine, IsLeastOf, IsLeastOfAll, IsLeastPlace, HoldsOfFact, RoutinesArePlaced};
ghost use Rattle.judge.specs.Conditions.{ExitsAreHeld};
ghost use Rattle.judge.specs.Asked.{ExitIsHeld, ExitsAreHeldBy};

use crate::body::Body;
use crate::cache::FactCache;
use crate::claims::Claims;
use crate::point::{ComparisonWorkspace, Point, boxed_landing, boxed_outcomes, place_of};
use crate::sited::put_sites;
use crate::sources::AddressFacts;
use crate::words::nth;
use bin_tape::Image;
use declaration::{Declaration, Owner};
use domain::{Rules, SumFact};
use facts::{Condition, Fact, LandingWorkspace, NarrowedFact};
use std::alloc::{AllocError, Allocator};
use transfer::{NextFact, Outcomes};
use word12::Word;
use wordset::WordSet;

/// The place of V2 among the conditions that are asked at an address.
const OF_LINES: usize = 1;

/// The place behind those of all conditions that are asked at an address.
const PAST_ALL: usize = 16;

/// What is judged: a tape's words, a declaration and what is claimed.
///
/// Contracts see it as `case_kept` gives it.
#[derive(Drop)]
pub struct Case<'a, A: Allocator, C: Claims> {
    pub image: &'a Image,
    pub declaration: &'a Declaration<A>,
    pub claims: &'a C,
}

/// Room for a fact as it is claimed, for the same fact as it is asked, and for others.
#[derive(Drop)]
pub(crate) struct CheckWorkspace<M: Allocator> {
    claimed: Fact,
    fact: NarrowedFact,
    others: ComparisonWorkspace<M>,
}

/// Room for all that is judged: for a fact for which conditions are checked and what it is compared with, and for the only facts
/// at even and at odd addresses.
#[derive(Drop)]
pub struct JudgeWorkspace<M: Allocator> {
    pub(crate) checks: CheckWorkspace<M>,
    pub(crate) even: FactCache,
    pub(crate) odd: FactCache,
}

impl<M: Allocator + Copy> JudgeWorkspace<M> {
    /// Room that nothing stands in, in memory that an allocator gives, since it takes 4 MB.
    ///
    /// # Errors
    ///
    /// `AllocError` where the room was refused.
    #[inline(never)]
    pub fn boxed(memory: M) -> Result<Box<JudgeWorkspace<M>, M>, AllocError> {
        let outcomes = boxed_outcomes(memory)?;
        let landing = boxed_landing(memory)?;
        JudgeWorkspace::boxed_around(memory, outcomes, landing)
    }

    /// The same around its largest parts.
    #[inline(never)]
    fn boxed_around(
        memory: M,
        outcomes: Box<Outcomes, M>,
        landing: Box<LandingWorkspace, M>,
    ) -> Result<Box<JudgeWorkspace<M>, M>, AllocError> {
        Ok(Box::new(
            memory,
            JudgeWorkspace {
                checks: CheckWorkspace {
                    claimed: Fact::any(),
                    fact: NarrowedFact::any(),
                    others: ComparisonWorkspace {
                        exit: Fact::any(),
                        next: NextFact::any(),
                        outcomes,
                        landing,
                    },
                },
                even: FactCache::new(),
                odd: FactCache::new(),
            },
        )?)
    }
}

/// Lets a fact be the one for which conditions are checked: by the rules of sums narrowed, and by those
/// of equations as it stands. Tells whether they are asked of it: by the rules of sums they are not where
/// no state satisfies it.
pub fn put_asked(rules: &Rules, image: &Image, claimed: &Fact, fact: &mut NarrowedFact) -> bool
    requires { HasShape (fact_in_code claimed.now) }
    ensures asked { asked (rules_of rules.now) (image_of image.now) (fact_in_code claimed.now ∷ []) ≡
        (if result then fact_in_code fact.new ∷ [] else []) }
    ensures roomy { IsRoomy fact.new }
{
    claimed.is_within_room();
    match rules {
        Rules::OfEquations => {
            fact.copy_from(claimed);
            true
        }
        Rules::OfSums => {
            fact.narrow(image, claimed);
            !fact.is_void()
        }
    }
}

impl<A: Allocator, C: Claims> Case<'_, A, C> {
    /// Whether one of the facts at the start holds of every start.
    pub fn starts_well<M: Allocator>(&self, rooms: &mut JudgeWorkspace<M>) -> bool
        ensures starts { IsTrue result ↔
            HoldsAt (case_kept C.claims self.now) V1 (case_kept C.claims self.now).declaration.start }
        ensures even { rooms.new.even ≡ rooms.old.even }
        ensures odd { rooms.new.odd ≡ rooms.old.odd }
    {
        self.declaration.is_declared();
        let place = place_of(self.image, self.declaration, &None, self.claims.rules());
        let among = AddressFacts {
            claims: self.claims,
            at: self.declaration.start(),
            sites: &WordSet::empty(),
            near: 0,
        };
        place.starts_land(&among, &mut rooms.checks.claimed)
    }

    /// Whether facts may stand at an address: in main's body or in a listed routine's. That body then
    /// stands in the place of the one that is lent.
    pub fn finds_body(&self, at: Word, body: &mut Body) -> bool
        requires { Tells (C.claims self.now.claims.now) body.old }
        ensures found { result ≡ true →
            (case_kept C.claims self.now).declaration.body body.new.routine at ≡ true }
        ensures nowhere { result ≡ false → (f : said.Fact) →
            IsPlaced (case_kept C.claims self.now) at f → ⊥ }
        ensures tells { Tells (C.claims self.now.claims.now) body.new }
    {
        let Some(owner) = self.declaration.owner_of(at) else {
            return false;
        };
        match owner {
            Owner::Main => {
                body.turn_to_main();
                true
            }
            Owner::Routine(entry) => body.turn_to(self.claims, entry),
        }
    }

    /// The first condition that fails at an address, if one does; it is told whether a routine of that
    /// entry is named, and which line is looked at first.
    pub fn check_at<M: Allocator>(
        &self,
        at: Word,
        is_named: bool,
        near: &mut usize,
        body: &mut Body,
        rooms: &mut JudgeWorkspace<M>,
    ) -> Result<(), Condition>
        requires named { is_named ≡ names_routine (C.claims self.now.claims.now) at }
        requires body { Tells (C.claims self.now.claims.now) body.old }
        requires even { Shows (C.claims self.now.claims.now) rooms.old.even }
        requires odd { Shows (C.claims self.now.claims.now) rooms.old.odd }
        ensures checked { MatchResult result
            (λ _. HoldsBetween (case_kept C.claims self.now) 1 16 at)
            (λ v. FailsAtLine (case_kept C.claims self.now) at v) }
        ensures body { Tells (C.claims self.now.claims.now) body.new }
        ensures even { Shows (C.claims self.now.claims.now) rooms.new.even }
        ensures odd { Shows (C.claims self.now.claims.now) rooms.new.odd }
    {
        if is_named && !self.declaration.is_entry(at) {
            return Err(Condition::V2);
        }
        let JudgeWorkspace { checks, even, odd } = rooms;
        if at.index() % 2 == 0 {
            return self.check_here(at, near, body, even, odd, checks);
        }
        self.check_here(at, near, body, odd, even, checks)
    }

    /// The same, where its routine and exit lines are where they may be, with what is kept for the address
    /// and for the next one.
    fn check_here<M: Allocator>(
        &self,
        at: Word,
        near: &mut usize,
        body: &mut Body,
        here: &mut FactCache,
        following: &mut FactCache,
        rooms: &mut CheckWorkspace<M>,
    ) -> Result<(), Condition>
        requires placed { RoutinesArePlaced (case_kept C.claims self.now) at }
        requires body { Tells (C.claims self.now.claims.now) body.old }
        requires here { Shows (C.claims self.now.claims.now) here.old }
        requires following { Shows (C.claims self.now.claims.now) following.old }
        ensures checked { MatchResult result
            (λ _. HoldsBetween (case_kept C.claims self.now) 1 16 at)
            (λ v. FailsAtLine (case_kept C.claims self.now) at v) }
        ensures body { Tells (C.claims self.now.claims.now) body.new }
        ensures here { Shows (C.claims self.now.claims.now) here.new }
        ensures following { Shows (C.claims self.now.claims.now) following.new }
    {
        if !here.turn_to(self.claims, at, *near) {
            return self.check_several(at, near, body, rooms);
        }
        *near = here.end();
        if !self.finds_body(at, body) {
            return Err(Condition::V2);
        }
        self.check_alone(at, body, here, following, rooms)
    }

    /// The same, where there is one fact alone in a body, which stands here.
    fn check_alone<M: Allocator>(
        &self,
        at: Word,
        body: &Body,
        here: &mut FactCache,
        following: &mut FactCache,
        rooms: &mut CheckWorkspace<M>,
    ) -> Result<(), Condition>
        requires placed { RoutinesArePlaced (case_kept C.claims self.now) at }
        requires alone { (C.claims self.now.claims.now).facts at ≡ fact_in_code here.old.fact ∷ [] }
        requires shape { HasShape (fact_in_code here.old.fact) }
        requires stands { (case_kept C.claims self.now).declaration.body body.now.routine at ≡ true }
        requires body { Tells (C.claims self.now.claims.now) body.now }
        requires following { Shows (C.claims self.now.claims.now) following.old }
        ensures checked { MatchResult result
            (λ _. HoldsBetween (case_kept C.claims self.now) 1 16 at)
            (λ v. FailsAtLine (case_kept C.claims self.now) at v) }
        ensures here { Shows (C.claims self.now.claims.now) here.new }
        ensures following { Shows (C.claims self.now.claims.now) following.new }
    {
        let near = here.end();
        here.forget();
        following.look_ahead(self.claims, at.increment(), near, &body.claim.sites);
        let CheckWorkspace { fact, others, .. } = rooms;
        let place = self.check_claimed(
            at,
            PAST_ALL,
            near,
            body,
            Some(&*following),
            &mut here.fact,
            fact,
            others,
        );
        self.tell(at, place, body)
    }

    /// Checks the facts at an address at which there may be several.
    fn check_several<M: Allocator>(
        &self,
        at: Word,
        near: &mut usize,
        body: &mut Body,
        rooms: &mut CheckWorkspace<M>,
    ) -> Result<(), Condition>
        requires placed { RoutinesArePlaced (case_kept C.claims self.now) at }
        requires body { Tells (C.claims self.now.claims.now) body.old }
        ensures checked { MatchResult result
            (λ _. HoldsBetween (case_kept C.claims self.now) 1 16 at)
            (λ v. FailsAtLine (case_kept C.claims self.now) at v) }
        ensures body { Tells (C.claims self.now.claims.now) body.new }
    {
        let count = self.claims.count_facts(at, *near);
        if count == 0 {
            return self.check_exits(at, *near, rooms);
        }
        if !self.finds_body(at, body) {
            return Err(Condition::V2);
        }
        let place = self.first_place(at, count, near, body, rooms);
        self.tell(at, place, body)
    }

    /// Checks an address at which there is no fact: the exits of the routine of this entry, if there are some.
    fn check_exits<M: Allocator>(
        &self,
        at: Word,
        near: usize,
        rooms: &mut CheckWorkspace<M>,
    ) -> Result<(), Condition>
        requires placed { RoutinesArePlaced (case_kept C.claims self.now) at }
        requires none { (C.claims self.now.claims.now).facts at ≡ [] }
        ensures { MatchResult result
            (λ _. HoldsBetween (case_kept C.claims self.now) 1 16 at)
            (λ v. FailsAtLine (case_kept C.claims self.now) at v) }
    {
        if self.declaration.returns().is_empty() {
            return Ok(());
        }
        let CheckWorkspace { claimed, fact, .. } = rooms;
        if self.exits_are_held(at, near, claimed, fact) {
            Ok(())
        } else {
            Err(Condition::V16)
        }
    }

    /// Whether by each exit of the routine of an entry all is so that is to hold when it returns so.
    fn exits_are_held(
        &self,
        entry: Word,
        near: usize,
        claimed: &mut Fact,
        fact: &mut NarrowedFact,
    ) -> bool
        ensures { IsTrue result ↔ ExitsAreHeld (case_kept C.claims self.now) entry }
    {
        let mut from = 0usize;
        while let Some(offset) = self.claims.next_offset(entry, from) {
            if !self.exits_are_held_by(entry, offset, claimed, fact) {
                return false;
            }
            from = offset + 1;
        }
        true
    }

    /// Whether the exits of the routine of an entry for one offset are held.
    fn exits_are_held_by(
        &self,
        entry: Word,
        offset: usize,
        claimed: &mut Fact,
        fact: &mut NarrowedFact,
    ) -> bool
        requires { offset < 64 }
        ensures { IsTrue result ↔ ExitsAreHeldBy (case_kept C.claims self.now) entry offset }
    {
        let sites = self.sites_of(entry);
        for index in 0..self.claims.count_exits(entry, offset) {
            self.put_exit(entry, offset, index, &sites, claimed);
            if !self.exit_is_held(entry, offset, claimed, fact) {
                return false;
            }
        }
        true
    }

    /// Lets a fact be one of the exits of a routine for an offset, with the sites that it has by the rules.
    fn put_exit(
        &self,
        entry: Word,
        offset: usize,
        index: usize,
        sites: &WordSet,
        claimed: &mut Fact,
    )
        requires offset { offset < 64 }
        requires index { index < length ((C.claims self.now.claims.now).exits entry offset) }
        ensures fact { fact_in_code claimed.new ≡ fact_at (sited (C.claims self.now.claims.now).rules
            (words sites.now) ((C.claims self.now.claims.now).exits entry offset)) index }
        ensures shape { HasShape (fact_in_code claimed.new) }
    {
        self.claims.put_exit(entry, offset, index, claimed);
        put_sites(&self.claims.rules(), sites, claimed);
    }

    /// The sites of the routine of an entry, none if it is not listed.
    fn sites_of(&self, entry: Word) -> WordSet
        ensures { words result ≡ (C.claims self.now.claims.now).sites entry }
    {
        match self.claims.routine(entry) {
            Some(routine) => routine.sites,
            None => WordSet::empty(),
        }
    }

    /// Whether one exit is held, if conditions are checked for it.
    fn exit_is_held(
        &self,
        entry: Word,
        offset: usize,
        claimed: &Fact,
        fact: &mut NarrowedFact,
    ) -> bool
        requires shape { HasShape (fact_in_code claimed.now) }
        requires offset { offset < 64 }
        ensures { IsTrue result ↔
            ExitIsHeld (case_kept C.claims self.now) entry offset (fact_in_code claimed.now) }
    {
        let rules = self.claims.rules();
        if !put_asked(&rules, self.image, claimed, fact) {
            return true;
        }
        place_of(self.image, self.declaration, &Some(entry), rules).returns_as_declared(
            fact,
            entry,
            Word::from_index(offset),
        )
    }

    /// The condition at the place of the first one that fails of some fact at an address of a body, if one
    /// does.
    fn tell(&self, at: Word, place: usize, body: &Body) -> Result<(), Condition>
        requires placed { RoutinesArePlaced (case_kept C.claims self.now) at }
        requires some { 0 < length ((C.claims self.now.claims.now).facts at) }
        requires stands { (case_kept C.claims self.now).declaration.body body.now.routine at ≡ true }
        requires body { Tells (C.claims self.now.claims.now) body.now }
        requires least { IsLeastOfAll (case_kept C.claims self.now) body.now.routine at place }
        ensures { MatchResult result
            (λ _. HoldsBetween (case_kept C.claims self.now) 1 16 at)
            (λ v. FailsAtLine (case_kept C.claims self.now) at v) }
    {
        self.declaration.is_declared();
        if place == OF_LINES {
            return Err(Condition::V2);
        }
        if place >= PAST_ALL {
            return Ok(());
        }
        Err(nth(place))
    }

    /// The place of the first condition that fails of some fact at an address, and the one behind all if
    /// none does.
    fn first_place<M: Allocator>(
        &self,
        at: Word,
        count: usize,
        near: &mut usize,
        body: &Body,
        rooms: &mut CheckWorkspace<M>,
    ) -> usize
        requires count { count ≡ length ((C.claims self.now.claims.now).facts at) }
        requires stands { (case_kept C.claims self.now).declaration.body body.now.routine at ≡ true }
        requires body { Tells (C.claims self.now.claims.now) body.now }
        ensures { IsLeastOfAll (case_kept C.claims self.now) body.now.routine at result }
    {
        let mut limit = PAST_ALL;
        for index in 0..count {
            limit = self.check_fact(at, index, limit, near, body, rooms);
            if limit == OF_LINES {
                return OF_LINES;
            }
        }
        limit
    }

    /// The place of the first condition before a limit that fails of one of the facts at an address, and
    /// the limit if none does.
    fn check_fact<M: Allocator>(
        &self,
        at: Word,
        index: usize,
        limit: usize,
        near: &mut usize,
        body: &Body,
        rooms: &mut CheckWorkspace<M>,
    ) -> usize
        requires index { index < length ((C.claims self.now.claims.now).facts at) }
        requires low { 2 ≤ limit }
        requires high { limit ≤ 16 }
        requires stands { (case_kept C.claims self.now).declaration.body body.now.routine at ≡ true }
        requires body { Tells (C.claims self.now.claims.now) body.now }
        ensures { IsLeastOf (case_kept C.claims self.now) body.now.routine at
            (fact_at ((C.claims self.now.claims.now).facts at) index) limit result }
    {
        let CheckWorkspace {
            claimed,
            fact,
            others,
        } = rooms;
        *near = self.claims.put_fact(at, *near, index, claimed);
        self.check_claimed(at, limit, *near, body, None, claimed, fact, others)
    }

    /// The place of the first condition before a limit that fails of a claimed fact, which gets the sites of
    /// the body by the rules of equations, and the limit if none does.
    fn check_claimed<M: Allocator>(
        &self,
        at: Word,
        limit: usize,
        near: usize,
        body: &Body,
        following: Option<&FactCache>,
        claimed: &mut Fact,
        fact: &mut NarrowedFact,
        others: &mut ComparisonWorkspace<M>,
    ) -> usize
        requires shape { HasShape (fact_in_code claimed.old) }
        requires low { 2 ≤ limit }
        requires high { limit ≤ 16 }
        requires stands { (case_kept C.claims self.now).declaration.body body.now.routine at ≡ true }
        requires body { Tells (C.claims self.now.claims.now) body.now }
        requires ahead { IfSome following (λ f.
            StandsAhead (C.claims self.now.claims.now) (words body.now.claim.sites) f.now) }
        ensures { IsLeastOf (case_kept C.claims self.now) body.now.routine at
            (fact_in_code claimed.old) limit result }
    {
        let rules = self.claims.rules();
        if !body.allows(&rules, claimed) {
            return OF_LINES;
        }
        put_sites(&rules, &body.claim.sites, claimed);
        match rules {
            Rules::OfEquations => {
                claimed.is_within_room();
                self.check_asked(at, limit, near, body, following, claimed, others)
            }
            Rules::OfSums => {
                if !put_asked(&rules, self.image, claimed, fact) {
                    return limit;
                }
                self.check_asked(at, limit, near, body, following, fact, others)
            }
        }
    }

    /// The place of the first condition on words before a limit that fails of a fact of which they are asked, and the limit if
    /// none does.
    fn check_asked<M: Allocator, const K: usize, const S: usize>(
        &self,
        at: Word,
        limit: usize,
        near: usize,
        body: &Body,
        following: Option<&FactCache>,
        fact: &SumFact<K, S>,
        others: &mut ComparisonWorkspace<M>,
    ) -> usize
        requires roomy { IsRoomy fact.now }
        requires cells { K ≤ 132 }
        requires relations { S ≤ 68 }
        requires low { 2 ≤ limit }
        requires high { limit ≤ 16 }
        requires stands { (case_kept C.claims self.now).declaration.body body.now.routine at ≡ true }
        requires body { Tells (C.claims self.now.claims.now) body.now }
        requires ahead { IfSome following (λ f.
            StandsAhead (C.claims self.now.claims.now) (words body.now.claim.sites) f.now) }
        ensures { IsLeastPlace (λ v. HoldsOfFact (case_kept C.claims self.now) v body.now.routine at
            (fact_in_code fact.now)) limit result }
    {
        Point::of(
            self.image,
            self.declaration,
            self.claims,
            body,
            at,
            fact,
            following,
            near,
        )
        .first_failing(limit, others)
    }
}
