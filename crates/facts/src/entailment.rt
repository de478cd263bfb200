//! Whether one fact says at least as much as another.

ghost use Rattle.std.specs.Prelude.{ℕ, ◌≡◌, ◌<◌, ◌+◌, ◌↔◌, IsTrue, MatchOption, true, false, drop, map};
ghost use Rattle.wordset.specs.Words.{IsWithin, SameWords, only};
ghost use Rattle.wordset.specs.Lanes.{words};
ghost use Rattle.wordset.specs.Links.{links_of};
ghost use Rattle.peripherals.specs.Loading.{image_of};
ghost use Rattle.domain.specs.Locations as names;
ghost use Rattle.domain.specs.Locations.{Ac, Cell};
ghost use Rattle.domain.specs.LocationsInCode.{location_of};
ghost use Rattle.domain.specs.Brief.{brief_words};
ghost use Rattle.domain.specs.CellsInCode.{cell_set_of};
ghost use Rattle.domain.specs.Chains.{gives};
ghost use Rattle.domain.specs.ChainsInCode.{chain_of, gives_from};
ghost use Rattle.domain.specs.FactInCode.{fact_in_code};
ghost use Rattle.domain.specs.Facts.{OfEquations};
ghost use Rattle.domain.specs.InCode.{sum_of};
ghost use Rattle.domain.specs.Knowing.{said_of};
ghost use Rattle.domain.specs.Narrowing.{words_known};
ghost use Rattle.domain.specs.RelationsInCode.{relation_of};
ghost use Rattle.domain.specs.Terms.{difference_of};
ghost use Rattle.facts.specs.Entailing.{EachWithin, EntailsRegisters, GivesAllowed, GivesIfAllowed, ShowsOfNames};
ghost use Rattle.facts.specs.Entailment.{Among, EachGives, Entails, KnowsAll, KnowsBy, ShowsChain, ShowsChains, ShowsDifference};
ghost use Rattle.facts.specs.PlaceInCode.{place_in_code};

use crate::known_fact::KnownFact;
use crate::place::Place;
use domain::{BriefSet, CellSet, Chain, Location, Relation, Rules, Sum, SumFact, Term, negated};
use std::alloc::Allocator;
use word12::{Link, Word};
use wordset::{Links, WordSet};

/// Whether two relations have one sum and the same words.
fn is_same_relation(a: &Relation, b: &Relation) -> bool
    ensures { IsTrue result ↔ ((sum_of a.now.sum ≡ sum_of b.now.sum) ×
        SameWords (brief_words a.now.set) (brief_words b.now.set)) }
{
    if !a.sum.is_same(&b.sum) {
        return false;
    }
    a.set.is_same(&b.set)
}

/// Whether the relation at a place of some is this one.
fn is_at(relation: &Relation, relations: &[Relation], at: usize) -> bool
    ensures found { IsTrue result → Among (relation_of relation.now) (map relation_of relations.now) }
    ensures other { result ≡ false → Among (relation_of relation.now) (map relation_of (drop at relations.now)) →
        Among (relation_of relation.now) (map relation_of (drop (at + 1) relations.now)) }
{
    if at >= relations.len() {
        return false;
    }
    is_same_relation(&relations[at], relation)
}

/// Where a relation stands among some, if it is one of them. One place is looked at first: any serves, and it only spares a
/// search.
fn place_among(relation: &Relation, relations: &[Relation], near: usize) -> Option<usize>
    ensures { MatchOption result
        (Among (relation_of relation.now) (map relation_of relations.now) → ⊥)
        (λ at. Among (relation_of relation.now) (map relation_of relations.now)) }
{
    if is_at(relation, relations, near) {
        return Some(near);
    }
    for at in 0..relations.len() {
        if is_at(relation, relations, at) {
            return Some(at);
        }
    }
    None
}

/// The two names of which a sum is the difference, if it is one.
fn subtracted_names(sum: &Sum) -> Option<(Location, Location)>
    ensures { MatchOption result
        ((m n : names.Location) → sum_of sum.now ≡ difference_of m n → ⊥)
        (λ found. sum_of sum.now ≡ difference_of (location_of found.0) (location_of found.1)) }
{
    if sum.len() != 2 {
        return None;
    }
    let first = sum.get(0);
    let second = sum.get(1);
    if first.coefficient.index() != 1 {
        return None;
    }
    if second.coefficient.index() != 4095 {
        return None;
    }
    match first.term {
        Term::Behind { .. } => None,
        Term::Holding(left) => match second.term {
            Term::Behind { .. } => None,
            Term::Holding(right) => Some((left, right)),
        },
    }
}

/// Whether a set has a word.
fn has_word(set: &BriefSet, word: Word) -> bool
    ensures { result ≡ brief_words set.now word }
{
    let mut all = WordSet::all();
    set.put(&mut all);
    all.contains(word)
}

/// Whether a chain gives a pair of a cell's word, if it is on the cell.
fn gives_if_on(chain: &Chain, cell: Word, word: Word, ac: Word, link: Link) -> bool
    ensures { IsTrue result ↔ ((chain_of chain.now).cell ≡ cell → gives (chain_of chain.now) word ac link ≡ true) }
{
    if chain.cell() != cell {
        return true;
    }
    chain.gives(word, ac, link)
}

/// Whether each chain on a cell gives a pair of the cell's word.
fn each_gives(chains: &[Chain], cell: Word, word: Word, ac: Word, link: Link) -> bool
    ensures { IsTrue result ↔ EachGives cell word ac link (map chain_of chains.now) }
{
    for chain in chains {
        if !gives_if_on(chain, cell, word, ac, link) {
            return false;
        }
    }
    true
}

/// What is allowed beside a word of a cell: words of the accumulator, links, and what chains give.
#[derive(Drop)]
pub struct AllowedValues<'a> {
    /// The words of the accumulator.
    pub accumulators: &'a WordSet,
    /// The links.
    pub links: Links,
    /// The chains that are true.
    pub chains: &'a [Chain],
}

impl AllowedValues<'_> {
    /// Whether a chain gives a pair of a word of its cell, or the pair is not allowed beside the word.
    pub fn permits(&self, chain: &Chain, word: Word, ac: Word, link: Link) -> bool
        ensures { IsTrue result ↔ GivesIfAllowed (words self.now.accumulators.now) (links_of self.now.links)
            (map chain_of self.now.chains.now) (chain_of chain.now) word ac link }
    {
        if !self.accumulators.contains(ac) {
            return true;
        }
        if !self.links.contains(link) {
            return true;
        }
        if chain.gives(word, ac, link) {
            return true;
        }
        if each_gives(self.chains, chain.cell(), word, ac, link) {
            return false;
        }
        true
    }
    /// Whether a chain gives the pair of an accumulator and either link, or that pair is not allowed beside the word.
    fn permits_both(&self, chain: &Chain, word: Word, ac: Word) -> bool
        ensures { IsTrue result ↔ ((l : ℕ) → l < 2 → GivesIfAllowed (words self.now.accumulators.now)
            (links_of self.now.links) (map chain_of self.now.chains.now) (chain_of chain.now) word ac l) }
    {
        if !self.permits(chain, word, ac, Link::CLEAR) {
            return false;
        }
        self.permits(chain, word, ac, Link::SET)
    }

    /// Whether a chain gives each pair that is allowed beside a word of its cell.
    fn permits_each(&self, chain: &Chain, word: Word) -> bool
        ensures { IsTrue result ↔ GivesAllowed (words self.now.accumulators.now) (links_of self.now.links)
            (map chain_of self.now.chains.now) (chain_of chain.now) word }
    {
        for ac in self.accumulators.iter() {
            if !self.permits_both(chain, word, ac) {
                return false;
            }
        }
        true
    }

    /// Whether a chain gives the pair that another chain on its cell makes of a word and a link with which it may begin, or
    /// that pair is not allowed.
    fn permits_from(&self, other: &Chain, first: Link, chain: &Chain, word: Word) -> bool
        ensures { IsTrue result ↔ ((w l : ℕ) → gives_from (chain_of other.now) first word w l ≡ true →
            GivesIfAllowed (words self.now.accumulators.now) (links_of self.now.links) (map chain_of self.now.chains.now)
            (chain_of chain.now) word w l) }
    {
        if !other.links().contains(first) {
            return true;
        }
        let (ac, link) = other.after_steps(word.add(other.more()), first);
        self.permits(chain, word, ac, link)
    }

    /// Whether a chain gives each pair that another chain on its cell makes of a word with either first link, or the pair is not
    /// allowed.
    fn permits_by(&self, other: &Chain, chain: &Chain, word: Word) -> bool
        ensures { IsTrue result ↔ ((w l : ℕ) → gives (chain_of other.now) word w l ≡ true →
            GivesIfAllowed (words self.now.accumulators.now) (links_of self.now.links) (map chain_of self.now.chains.now)
            (chain_of chain.now) word w l) }
    {
        if !self.permits_from(other, Link::CLEAR, chain, word) {
            return false;
        }
        self.permits_from(other, Link::SET, chain, word)
    }

    /// Whether a chain gives each pair that is allowed beside a word of its cell. Where another chain is on the cell, only the
    /// two pairs are tried that it gives.
    pub fn permits_word(&self, chain: &Chain, word: Word) -> bool
        ensures { IsTrue result ↔ GivesAllowed (words self.now.accumulators.now) (links_of self.now.links)
            (map chain_of self.now.chains.now) (chain_of chain.now) word }
    {
        let cell = chain.cell();
        for other in self.chains {
            if other.cell() == cell {
                return self.permits_by(other, chain, word);
            }
        }
        self.permits_each(chain, word)
    }

    /// Whether a chain gives an allowed pair of each word of a set.
    fn permits_words(&self, chain: &Chain, cells: &WordSet) -> bool
        ensures { IsTrue result ↔ ((v : ℕ) → v < 4096 → words cells.now v ≡ true →
            GivesAllowed (words self.now.accumulators.now) (links_of self.now.links) (map chain_of self.now.chains.now)
            (chain_of chain.now) v) }
    {
        for word in cells.iter() {
            if !self.permits_word(chain, word) {
                return false;
            }
        }
        true
    }
}

/// Whether a chain gives each pair that is allowed beside a word of a set, where these are allowed: words of the accumulator,
/// links, and what chains give.
fn permits_all<'a>(
    chain: &Chain,
    cells: &WordSet,
    accumulators: &'a WordSet,
    links: Links,
    chains: &'a [Chain],
) -> bool
    ensures { IsTrue result ↔ ((v : ℕ) → v < 4096 → words cells.now v ≡ true →
        GivesAllowed (words accumulators.now) (links_of links) (map chain_of chains.now) (chain_of chain.now) v) }
{
    let allowed = AllowedValues {
        accumulators,
        links,
        chains,
    };
    allowed.permits_words(chain, cells)
}

impl<A: Allocator> Place<'_, A> {
    /// Puts the words that a name may hold, by a fact for which something is checked, into a place for them. By the rules of
    /// sums the fact is narrowed already; by those of equations it stands as it was told.
    pub fn put_known<K: KnownFact>(&self, fact: &K, name: &Location, place: &mut WordSet)
        ensures { words place.new ≡
            words_known (place_in_code self.now) (K.known fact.now) (location_of name.now) }
    {
        match &self.rules {
            Rules::OfSums => fact.put_set_of(name, place),
            Rules::OfEquations => fact.put_narrowed(self.image, name, place),
        }
    }

    /// Whether a name has no word outside a set.
    fn has_within<K: KnownFact>(&self, fact: &K, name: &Location, set: &BriefSet) -> bool
        ensures { IsTrue result ↔
            IsWithin (words_known (place_in_code self.now) (K.known fact.now) (location_of name.now)) (brief_words set.now) }
    {
        let mut known = WordSet::all();
        self.put_known(fact, name, &mut known);
        set.has_all(&known)
    }

    /// The one word that a name may hold, if there is one and no other.
    fn only_known<K: KnownFact>(&self, fact: &K, name: &Location) -> Option<Word>
        ensures { result ≡
            only (words_known (place_in_code self.now) (K.known fact.now) (location_of name.now)) }
    {
        let mut known = WordSet::all();
        self.put_known(fact, name, &mut known);
        known.only()
    }

    /// Whether a cell has no word that another fact's entry excludes; its set as it stands is tried first, and before that its
    /// entry at a place.
    fn has_cell_within<K: KnownFact>(&self, fact: &K, near: usize, entry: &CellSet) -> bool
        ensures { IsTrue result ↔
            IsWithin (words_known (place_in_code self.now) (K.known fact.now) (Cell entry.now.cell)) (brief_words entry.now.set) }
    {
        if fact.has_within_at(near, entry.cell, &entry.set) {
            return true;
        }
        if fact.has_plainly_within(entry.cell, &entry.set) {
            return true;
        }
        self.has_within(fact, &Location::Cell(entry.cell), &entry.set)
    }

    /// Whether no cell has a word that another fact's entries exclude.
    fn has_each_within<K: KnownFact>(&self, fact: &K, cells: &[CellSet]) -> bool
        ensures { IsTrue result ↔
            EachWithin (place_in_code self.now) (K.known fact.now) (map cell_set_of cells.now) }
    {
        let mut near = 0usize;
        for entry in cells {
            if !self.has_cell_within(fact, near, entry) {
                return false;
            }
            near = near.wrapping_add(1);
        }
        true
    }

    /// Whether the accumulator has no word outside a set; its set as it stands is tried first.
    fn has_accumulator_within<K: KnownFact>(&self, fact: &K, set: &WordSet) -> bool
        ensures { IsTrue result ↔
            IsWithin (words_known (place_in_code self.now) (K.known fact.now) Ac) (words set.now) }
    {
        if fact.accumulator().is_subset(set) {
            return true;
        }
        let mut known = WordSet::all();
        self.put_known(fact, &Location::Accumulator, &mut known);
        known.is_subset(set)
    }

    /// Whether another fact allows what is known of the link, MQ, offsets, sites and the accumulator.
    fn entails_registers<K: KnownFact, const C: usize, const R: usize>(
        &self,
        fact: &K,
        other: &SumFact<C, R>,
    ) -> bool
        ensures { IsTrue result ↔
            EntailsRegisters (place_in_code self.now) (K.known fact.now) (fact_in_code other.now) }
    {
        if !fact.link().is_subset(other.link()) {
            return false;
        }
        if !fact.offsets().is_subset(other.offsets()) {
            return false;
        }
        if !fact.mq().is_subset(other.mq()) {
            return false;
        }
        if !fact.sites().is_subset(other.sites()) {
            return false;
        }
        self.has_accumulator_within(fact, other.accumulator())
    }

    /// Whether a fact's own relations of a sum of several terms leave it no word outside a set.
    fn tells_within<K: KnownFact>(&self, fact: &K, relation: &Relation) -> bool
        ensures { IsTrue result →
            IsWithin (said_of (image_of self.now.image.now) (K.known fact.now) (sum_of relation.now.sum)) (brief_words relation.now.set) }
    {
        if relation.sum.len() < 2 {
            return false;
        }
        let mut given = WordSet::all();
        fact.put_set_of_sum(&relation.sum, &mut given);
        relation.set.has_all(&given)
    }

    /// Whether what a fact says of a relation's sum is within the relation's set; what its own relations say is tried first.
    fn says_within<K: KnownFact>(&self, fact: &K, relation: &Relation) -> bool
        ensures { IsTrue result ↔
            IsWithin (said_of (image_of self.now.image.now) (K.known fact.now) (sum_of relation.now.sum)) (brief_words relation.now.set) }
    {
        if self.tells_within(fact, relation) {
            return true;
        }
        let mut said = WordSet::all();
        fact.put_said_of(self.image, &relation.sum, &mut said);
        relation.set.has_all(&said)
    }

    /// Whether one word is left to each of two names, and their difference is in a set.
    fn shows_of_names<K: KnownFact>(
        &self,
        fact: &K,
        left: &Location,
        right: &Location,
        set: &BriefSet,
    ) -> bool
        ensures { IsTrue result ↔
            ShowsOfNames (place_in_code self.now) (K.known fact.now) (location_of left.now) (location_of right.now) (brief_words set.now) }
    {
        let Some(x) = self.only_known(fact, left) else {
            return false;
        };
        let Some(y) = self.only_known(fact, right) else {
            return false;
        };
        has_word(set, x.add(negated(y)))
    }

    /// Whether one word is left to each of two names, of which a relation gives the difference, and these fulfil it.
    fn shows_difference<K: KnownFact>(&self, fact: &K, relation: &Relation) -> bool
        ensures { IsTrue result ↔
            ShowsDifference (place_in_code self.now) (K.known fact.now) (relation_of relation.now) }
    {
        match subtracted_names(&relation.sum) {
            None => false,
            Some((left, right)) => self.shows_of_names(fact, &left, &right, &relation.set),
        }
    }

    /// Whether a fact knows a relation by the rules of equations: it is one of its own, or one word for each of two names
    /// shows it.
    pub fn knows_equation<K: KnownFact>(&self, fact: &K, relation: &Relation) -> bool
        ensures { IsTrue result ↔ KnowsBy OfEquations (place_in_code self.now) (K.known fact.now) (relation_of relation.now) }
    {
        self.knows_equation_near(fact, relation, &mut 0)
    }

    /// Whether a fact knows a relation by the rules of equations, where its own relation at a place is looked at first. The place
    /// becomes the next one.
    fn knows_equation_near<K: KnownFact>(
        &self,
        fact: &K,
        relation: &Relation,
        near: &mut usize,
    ) -> bool
        ensures { IsTrue result ↔ KnowsBy OfEquations (place_in_code self.now) (K.known fact.now) (relation_of relation.now) }
    {
        match place_among(relation, fact.relations(), *near) {
            Some(at) => {
                *near = at.wrapping_add(1);
                true
            }
            None => self.shows_difference(fact, relation),
        }
    }

    /// Whether a fact knows a relation, by the rules of the place.
    fn knows<K: KnownFact>(&self, fact: &K, relation: &Relation, near: &mut usize) -> bool
        ensures { IsTrue result ↔ KnowsBy (place_in_code self.now).rules (place_in_code self.now) (K.known fact.now)
            (relation_of relation.now) }
    {
        match &self.rules {
            Rules::OfSums => self.says_within(fact, relation),
            Rules::OfEquations => self.knows_equation_near(fact, relation, near),
        }
    }

    /// Whether a fact knows all of some relations.
    fn knows_all<K: KnownFact>(&self, fact: &K, relations: &[Relation]) -> bool
        ensures { IsTrue result ↔
            KnowsAll (place_in_code self.now) (K.known fact.now) (map relation_of relations.now) }
    {
        let mut near = 0usize;
        for relation in relations {
            if !self.knows(fact, relation, &mut near) {
                return false;
            }
        }
        true
    }

    /// Whether a fact shows that a chain is true: whatever word of the chain's cell, whatever word of the accumulator and
    /// whatever link it allows together, the chain gives the two of the cell's word.
    fn shows_chain<K: KnownFact>(&self, fact: &K, chain: &Chain) -> bool
        ensures { IsTrue result ↔
            ShowsChain (place_in_code self.now) (K.known fact.now) (chain_of chain.now) }
    {
        let mut cells = WordSet::all();
        self.put_known(fact, &Location::Cell(chain.cell()), &mut cells);
        let mut accumulators = WordSet::all();
        self.put_known(fact, &Location::Accumulator, &mut accumulators);
        permits_all(chain, &cells, &accumulators, fact.link(), fact.chains())
    }

    /// Whether it shows all of some chains.
    fn shows_chains<K: KnownFact>(&self, fact: &K, chains: &[Chain]) -> bool
        ensures { IsTrue result ↔
            ShowsChains (place_in_code self.now) (K.known fact.now) (map chain_of chains.now) }
    {
        for chain in chains {
            if !self.shows_chain(fact, chain) {
                return false;
            }
        }
        true
    }

    /// Whether a fact entails another: what the one leaves possible the other allows. By the rules of sums the first one is
    /// narrowed already.
    pub fn entails<K: KnownFact, const C: usize, const R: usize>(
        &self,
        fact: &K,
        other: &SumFact<C, R>,
    ) -> bool
        ensures { IsTrue result ↔
            Entails (place_in_code self.now) (K.known fact.now) (fact_in_code other.now) }
    {
        if !self.entails_registers(fact, other) {
            return false;
        }
        if !self.has_each_within(fact, other.cells().as_slice()) {
            return false;
        }
        if !self.knows_all(fact, other.relations().as_slice()) {
            return false;
        }
        self.shows_chains(fact, other.chains())
    }
}
