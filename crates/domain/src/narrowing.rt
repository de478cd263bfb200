//! Narrowing: each set of a fact is met once with what the relations and chains say of it, by the other sets as they stand.
//!
//! A relation with a set of n words in a row costs two sums of sets; so a narrowed fact takes some microseconds for each relation,
//! and none if all is one word.

ghost use Rattle.std.specs.Prelude.{◌≡◌, ◌<◌, ◌≤◌, ◌+◌, ◌*◌, ◌%◌, ◌&&◌, length, map, ℕ};
ghost use Rattle.wordset.specs.Words.{some_below, plus};
ghost use Rattle.std.specs.List.{list_all};
ghost use Rattle.wordset.specs.Lanes.{words};
ghost use Rattle.wordset.specs.Links.{links_of};
ghost use Rattle.peripherals.specs.Loading.{image_of};
ghost use Rattle.domain.specs.Facts.{OfSums};
ghost use Rattle.domain.specs.Adding.{adding, adding_all};
ghost use Rattle.domain.specs.Narrowing.{of_term, of_part, parts_of, may_give, parts_of_chain, links_of_chain, narrowed};
ghost use Rattle.domain.specs.InCode.{term_of, sum_of};
ghost use Rattle.domain.specs.Brief.{brief_words};
ghost use Rattle.domain.specs.CellsInCode.{cell_sets_of};
ghost use Rattle.domain.specs.RelationsInCode.{relations_of, relation_of};
ghost use Rattle.domain.specs.ChainsInCode.{chain_of};
ghost use Rattle.domain.specs.Given.{IsEmpty, is_allowed_pair, gives_allowed_from, gives_allowed, gives_link_from, gives_link, AddsGiven, AddsAllGiven};
ghost use Rattle.domain.specs.Locations.{Cell};
ghost use Rattle.domain.specs.Terms.{Behind, sum_of_name};
ghost use Rattle.domain.specs.LocationsInCode.{location_of};
ghost use Rattle.domain.specs.FactInCode.{fact_in_code, all_parts, all_parts_of_chains};

use crate::chains::Chain;
use crate::location::{Location, negated};
use crate::relations::Relation;
use crate::sets::{differences, keep_divided, keep_pointing};
use crate::sum_fact::{Rules, SumFact};
use crate::terms::{Sum, Term};
use arrayvec::ArrayVec;
use bin_tape::Image;
use word12::{Link, Word};
use wordset::{Links, WordSet};

/// What a chain and a fact's sets allow: the words of the chain's cell, those of the accumulator, those of the accumulator less
/// the cell, and the links.
pub struct ChainWords {
    /// The words of its cell.
    pub cells: WordSet,
    /// The words of the accumulator.
    pub accumulators: WordSet,
    /// The words of the accumulator less the cell.
    pub differences: WordSet,
    /// The links.
    pub links: Links,
}

impl ChainWords {
    /// No word and no link.
    fn none() -> ChainWords
        ensures { IsEmpty result }
    {
        ChainWords {
            cells: WordSet::empty(),
            accumulators: WordSet::empty(),
            differences: WordSet::empty(),
            links: Links::none(),
        }
    }
}

/// Adds an accumulator and a link that a chain gives of a word of its cell, where a fact allows both of them.
fn add_pair(word: Word, made: Word, after: Link, ac: &WordSet, links: Links, found: &mut ChainWords)
    ensures { AddsGiven (is_allowed_pair (words ac.now) (links_of links) made after) word found.old found.new }
{
    // The proof needs the words to be words.
    let _word = word.index();
    let _made = made.index();
    if !ac.contains(made) {
        return;
    }
    if !links.contains(after) {
        return;
    }
    found.cells.insert(word);
    found.accumulators.insert(made);
    found.differences.insert(made.add(negated(word)));
    found.links = found.links.with(after);
}

/// Adds what a chain gives of one word of its cell and of one link, where a fact allows it.
fn add_given_from(
    chain: &Chain,
    word: Word,
    first: Link,
    ac: &WordSet,
    links: Links,
    found: &mut ChainWords,
)
    ensures { AddsGiven (gives_allowed_from (words ac.now) (links_of links) (chain_of chain.now) first word) word
        found.old found.new }
{
    if !chain.links().contains(first) {
        return;
    }
    let (made, after) = chain.after_steps(word.add(chain.more()), first);
    add_pair(word, made, after, ac, links, found);
}

/// Adds what a chain gives of one word of its cell, where a fact allows it.
fn add_given(chain: &Chain, word: Word, ac: &WordSet, links: Links, found: &mut ChainWords)
    ensures { AddsGiven (gives_allowed (words ac.now) (links_of links) (chain_of chain.now) word) word found.old found.new }
{
    add_given_from(chain, word, Link::CLEAR, ac, links, found);
    add_given_from(chain, word, Link::SET, ac, links, found);
}

/// Adds what a chain gives of the words of a set, where a fact allows it.
fn add_all_given(chain: &Chain, set: &WordSet, ac: &WordSet, links: Links, found: &mut ChainWords)
    ensures { AddsAllGiven (gives_allowed (words ac.now) (links_of links) (chain_of chain.now)) (words set.now)
        found.old found.new }
{
    for word in set.iter() {
        add_given(chain, word, ac, links, found);
    }
}

/// Whether a chain gives a link of one word of its cell and of one link, with an accumulator that a fact allows.
fn gives_link_from(chain: &Chain, word: Word, first: Link, ac: &WordSet, link: Link) -> bool
    ensures { result ≡ gives_link_from (words ac.now) (chain_of chain.now) first word link }
{
    if !chain.links().contains(first) {
        return false;
    }
    let (made, after) = chain.after_steps(word.add(chain.more()), first);
    // The proof needs the accumulator to be a word.
    let _made = made.index();
    after == link && ac.contains(made)
}

/// Whether a chain gives a link of one word of its cell, with an accumulator that a fact allows.
fn gives_link_of(chain: &Chain, word: Word, ac: &WordSet, link: Link) -> bool
    ensures { result ≡ gives_link (words ac.now) (chain_of chain.now) word link }
{
    gives_link_from(chain, word, Link::SET, ac, link)
        || gives_link_from(chain, word, Link::CLEAR, ac, link)
}

/// Whether a chain gives a link of some word of a set, with an accumulator that a fact allows.
fn gives_link(chain: &Chain, set: &WordSet, ac: &WordSet, link: Link) -> bool
    ensures { result ≡ some_below 4096 (λ x. words set.now x && gives_link (words ac.now) (chain_of chain.now) x link) }
{
    for word in set.iter() {
        if gives_link_of(chain, word, ac, link) {
            return true;
        }
    }
    false
}

/// Whether both are so.
fn are_both(one: bool, other: bool) -> bool
    ensures { result ≡ (one && other) }
{
    one && other
}

/// The links that two sets of links have in common.
fn met_links(one: Links, other: Links) -> Links
    ensures { (l : ℕ) → links_of result l ≡ (links_of one l && links_of other l) }
{
    let clear = are_both(one.clear, other.clear);
    let set = are_both(one.set, other.set);
    Links { clear, set }
}

/// Copies chains.
pub(crate) fn copy_chains(from: &[Chain], to: &mut ArrayVec<Chain, 72>)
    requires { length from.now ≤ 72 }
    ensures { map chain_of to.new.items ≡ map chain_of from.now }
{
    to.clear();
    for chain in from {
        to.push(*chain);
    }
}

impl<const C: usize, const R: usize> SumFact<C, R> {
    /// Says what another fact says.
    pub fn copy_from<const D: usize, const S: usize>(&mut self, other: &SumFact<D, S>)
        requires cells { length (cell_sets_of other.now.cells) ≤ C }
        requires relations { length (relations_of other.now.relations) ≤ R }
        ensures fact { fact_in_code self.new ≡ fact_in_code other.now }
        ensures cells { cell_sets_of self.new.cells ≡ cell_sets_of other.now.cells }
        ensures relations { relations_of self.new.relations ≡ relations_of other.now.relations }
    {
        self.ac = other.ac;
        self.mq = other.mq;
        self.link = other.link;
        self.cells.clear();
        self.cells.push_all(other.cells.as_slice());
        self.relations.clear();
        self.relations.push_all(other.relations.as_slice());
        copy_chains(other.chains.as_slice(), &mut self.chains);
        self.sites.copy_from(&other.sites);
        self.offsets = other.offsets;
    }

    /// Keeps those words of a name for which c times the word is in a set.
    fn keep_name(&mut self, c: Word, name: &Location, set: &WordSet)
        requires { length (cell_sets_of self.old.cells) < C }
        ensures fact { fact_in_code self.new ≡ adding OfSums
            (record { sum = sum_of_name (location_of name.now); set = λ v. words set.now ((c * v) % 4096) }) (fact_in_code self.old) }
        ensures cells { length (cell_sets_of self.new.cells) ≤ length (cell_sets_of self.old.cells) + 1 }
        ensures relations { self.new.relations ≡ self.old.relations }
    {
        let mut place = WordSet::all();
        self.put_set_of(name, &mut place);
        keep_divided(c, set, &mut place);
        self.set_name(name, &place);
    }

    /// Keeps those words of a cell for which c times the word that stood at the start where they point, a number further, may be
    /// in a set.
    fn keep_pointer(&mut self, image: &Image, c: Word, cell: Word, more: Word, set: &WordSet)
        requires { length (cell_sets_of self.old.cells) < C }
        ensures fact { fact_in_code self.new ≡ adding OfSums
            (of_term (image_of image.now) c (Behind cell more) (words set.now)) (fact_in_code self.old) }
        ensures cells { length (cell_sets_of self.new.cells) ≤ length (cell_sets_of self.old.cells) + 1 }
        ensures relations { self.new.relations ≡ self.old.relations }
    {
        let mut place = WordSet::all();
        self.put_set_of(&Location::Cell(cell), &mut place);
        keep_pointing(image, more, c, set, &mut place);
        self.set_name(&Location::Cell(cell), &place);
    }

    /// Keeps those words of a term's name for which c times the term may be in a set.
    fn keep_term(&mut self, image: &Image, c: Word, term: &Term, set: &WordSet)
        requires { length (cell_sets_of self.old.cells) < C }
        ensures fact { fact_in_code self.new ≡ adding OfSums
            (of_term (image_of image.now) c (term_of term.now) (words set.now)) (fact_in_code self.old) }
        ensures cells { length (cell_sets_of self.new.cells) ≤ length (cell_sets_of self.old.cells) + 1 }
        ensures relations { self.new.relations ≡ self.old.relations }
    {
        match term {
            Term::Holding(name) => self.keep_name(c, name, set),
            Term::Behind { cell, more } => self.keep_pointer(image, c, *cell, *more, set),
        }
    }

    /// Adds that a part of a relation's sum is in a set.
    fn add_part(&mut self, image: &Image, part: &Sum, set: &WordSet)
        requires cells { length (cell_sets_of self.old.cells) < C }
        requires relations { length (relations_of self.old.relations) < R }
        ensures fact { fact_in_code self.new ≡ adding_all OfSums
            (of_part (image_of image.now) (sum_of part.now) (words set.now)) (fact_in_code self.old) }
        ensures cells { length (cell_sets_of self.new.cells) ≤ length (cell_sets_of self.old.cells) + 1 }
        ensures relations { length (relations_of self.new.relations) ≤ length (relations_of self.old.relations) + 1 }
    {
        let len = part.len();
        if len == 0 {
            return;
        }
        if len == 1 {
            let summand = part.get(0);
            self.keep_term(image, summand.coefficient, &summand.term, set);
            return;
        }
        self.add(&Rules::OfSums, part, set);
    }

    /// Adds what a relation of another fact says of its first term and of the rest.
    fn add_parts<const D: usize, const S: usize>(
        &mut self,
        image: &Image,
        fact: &SumFact<D, S>,
        relation: &Relation,
    )
        requires cells { length (cell_sets_of self.old.cells) + 2 ≤ C }
        requires relations { length (relations_of self.old.relations) < R }
        ensures fact { fact_in_code self.new ≡ adding_all OfSums
            (parts_of (image_of image.now) (fact_in_code fact.now) (sum_of relation.now.sum) (brief_words relation.now.set))
            (fact_in_code self.old) }
        ensures cells { length (cell_sets_of self.new.cells) ≤ length (cell_sets_of self.old.cells) + 2 }
        ensures relations { length (relations_of self.new.relations) ≤ length (relations_of self.old.relations) + 1 }
    {
        if relation.sum.len() == 0 {
            return;
        }
        let summand = relation.sum.get(0);
        let mut first = Sum::zero();
        first.push(summand);
        let mut rest = Sum::zero();
        rest.push_from(&relation.sum, 1);
        let mut set = WordSet::all();
        relation.set.put(&mut set);
        let mut said = WordSet::all();
        fact.put_said_of(image, &rest, &mut said);
        self.keep_term(
            image,
            summand.coefficient,
            &summand.term,
            &differences(&set, &said),
        );
        fact.put_said_of(image, &first, &mut said);
        self.add_part(image, &rest, &differences(&set, &said));
    }

    /// What a chain and the fact's sets allow.
    pub fn words_of_chain(&self, chain: &Chain) -> ChainWords
        ensures cells { (v : ℕ) → v < 4096 → words result.cells v ≡
            some_below 4096 (λ w. some_below 2 (λ l. may_give (fact_in_code self.now) (chain_of chain.now) v w l)) }
        ensures accumulators { (w : ℕ) → w < 4096 → words result.accumulators w ≡
            some_below 4096 (λ v. some_below 2 (λ l. may_give (fact_in_code self.now) (chain_of chain.now) v w l)) }
        ensures differences { (d : ℕ) → d < 4096 → words result.differences d ≡
            some_below 4096 (λ v. some_below 2 (λ l. may_give (fact_in_code self.now) (chain_of chain.now) v (plus v d) l)) }
        ensures links { (l : ℕ) → l < 2 → links_of result.links l ≡ links_of_chain (fact_in_code self.now) (chain_of chain.now) l }
    {
        let mut found = ChainWords::none();
        let mut set = WordSet::all();
        self.put_set_of(&Location::Cell(chain.cell()), &mut set);
        add_all_given(chain, &set, self.accumulator(), self.link(), &mut found);
        found
    }

    /// Whether a chain and the fact's sets allow a link.
    fn allows_link(&self, chain: &Chain, set: &WordSet, link: Link) -> bool
        ensures { words set.now ≡ (fact_in_code self.now).set (Cell (chain_of chain.now).cell)
            → result ≡ links_of_chain (fact_in_code self.now) (chain_of chain.now) link }
    {
        self.link().contains(link) && gives_link(chain, set, self.accumulator(), link)
    }

    /// The links that a chain and the fact's sets allow.
    fn links_given(&self, chain: &Chain) -> Links
        ensures { (l : ℕ) → l < 2 → links_of result l ≡ links_of_chain (fact_in_code self.now) (chain_of chain.now) l }
    {
        let mut words = WordSet::all();
        self.put_set_of(&Location::Cell(chain.cell()), &mut words);
        let clear = self.allows_link(chain, &words, Link::CLEAR);
        let set = self.allows_link(chain, &words, Link::SET);
        Links { clear, set }
    }

    /// Keeps those links that a chain of the fact allows.
    fn keep_links_of_chain(&self, chain: &Chain, links: &mut Links)
        ensures { (l : ℕ) → links_of links.new l ≡
            (links_of links.old l && links_of_chain (fact_in_code self.now) (chain_of chain.now) l) }
    {
        let given = self.links_given(chain);
        *links = met_links(*links, given);
    }

    /// Keeps those links that each of some chains of the fact allows.
    fn keep_links_of(&self, chains: &[Chain], links: &mut Links)
        ensures { (l : ℕ) → links_of links.new l ≡
            (links_of links.old l && list_all (λ c. links_of_chain (fact_in_code self.now) c l) (map chain_of chains.now)) }
    {
        for chain in chains {
            self.keep_links_of_chain(chain, links);
        }
    }

    /// Adds what a chain of another fact says of its cell, of the accumulator, and of the accumulator less the cell.
    fn add_parts_of_chain<const D: usize, const S: usize>(
        &mut self,
        fact: &SumFact<D, S>,
        chain: &Chain,
    )
        requires cells { length (cell_sets_of self.old.cells) + 1 ≤ C }
        requires relations { length (relations_of self.old.relations) < R }
        ensures fact { fact_in_code self.new ≡ adding_all OfSums
            (parts_of_chain (fact_in_code fact.now) (chain_of chain.now)) (fact_in_code self.old) }
        ensures cells { length (cell_sets_of self.new.cells) ≤ length (cell_sets_of self.old.cells) + 1 }
        ensures relations { length (relations_of self.new.relations) ≤ length (relations_of self.old.relations) + 1 }
    {
        let found = fact.words_of_chain(chain);
        let cell = Location::Cell(chain.cell());
        self.meet_name(&cell, &found.cells);
        self.meet_accumulator(&found.accumulators);
        self.relations.add_longer(
            &Sum::difference(Location::Accumulator, cell),
            &found.differences,
        );
        let ChainWords {
            cells: _,
            accumulators: _,
            differences: _,
            links: _,
        } = found;
    }

    /// Keeps those links that each chain of another fact allows.
    fn keep_links_of_chains<const D: usize, const S: usize>(&mut self, fact: &SumFact<D, S>)
        ensures fact { fact_in_code self.new ≡ record (fact_in_code self.old) {
          link = λ l. links_of self.old.link l &&
              list_all (λ c. links_of_chain (fact_in_code fact.now) c l) (fact_in_code fact.now).chains;
        } }
        ensures cells { self.new.cells ≡ self.old.cells }
        ensures relations { self.new.relations ≡ self.old.relations }
    {
        fact.keep_links_of(fact.chains.as_slice(), &mut self.link);
    }

    /// Adds what some relations of another fact say of their first terms and of the rest.
    fn add_all_parts<const D: usize, const S: usize>(
        &mut self,
        image: &Image,
        fact: &SumFact<D, S>,
        relations: &[Relation],
    )
        requires cells { length (cell_sets_of self.old.cells) + 2 * length relations.now ≤ C }
        requires relations { length (relations_of self.old.relations) + length relations.now ≤ R }
        ensures fact { fact_in_code self.new ≡ adding_all OfSums
            (all_parts (image_of image.now) (fact_in_code fact.now) (map relation_of relations.now)) (fact_in_code self.old) }
        ensures cells { length (cell_sets_of self.new.cells) ≤ length (cell_sets_of self.old.cells) + 2 * length relations.now }
        ensures more { length (relations_of self.new.relations) ≤ length (relations_of self.old.relations) + length relations.now }
    {
        for relation in relations {
            self.add_parts(image, fact, relation);
        }
    }

    /// Adds what some chains of another fact say.
    fn add_all_parts_of_chains<const D: usize, const S: usize>(
        &mut self,
        fact: &SumFact<D, S>,
        chains: &[Chain],
    )
        requires cells { length (cell_sets_of self.old.cells) + length chains.now ≤ C }
        requires relations { length (relations_of self.old.relations) + length chains.now ≤ R }
        ensures fact { fact_in_code self.new ≡ adding_all OfSums
            (all_parts_of_chains (fact_in_code fact.now) (map chain_of chains.now)) (fact_in_code self.old) }
        ensures cells { length (cell_sets_of self.new.cells) ≤ length (cell_sets_of self.old.cells) + length chains.now }
        ensures more { length (relations_of self.new.relations) ≤ length (relations_of self.old.relations) + length chains.now }
    {
        for chain in chains {
            self.add_parts_of_chain(fact, chain);
        }
    }

    /// Lets this fact be another, narrowed. It takes at most two cells and one relation more for each of its relations, and one
    /// of each for each chain.
    pub fn narrow<const D: usize, const S: usize>(&mut self, image: &Image, fact: &SumFact<D, S>)
        requires cells { length (cell_sets_of fact.now.cells) + 2 * length (relations_of fact.now.relations) + length fact.now.chains.items ≤ C }
        requires relations { 2 * length (relations_of fact.now.relations) + length fact.now.chains.items ≤ R }
        ensures fact { fact_in_code self.new ≡ narrowed (image_of image.now) (fact_in_code fact.now) }
        ensures cells { length (cell_sets_of self.new.cells) ≤
            length (cell_sets_of fact.now.cells) + 2 * length (relations_of fact.now.relations) + length fact.now.chains.items }
        ensures relations { length (relations_of self.new.relations) ≤
            2 * length (relations_of fact.now.relations) + length fact.now.chains.items }
    {
        self.copy_from(fact);
        self.keep_links_of_chains(fact);
        self.add_all_parts(image, fact, fact.relations.as_slice());
        self.add_all_parts_of_chains(fact, fact.chains.as_slice());
    }
}
