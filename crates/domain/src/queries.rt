//! What is asked of a fact as it stands: the words that narrowing leaves to one name.
//!
//! By the rules of equations facts are not narrowed as a whole, since most of what they say is never asked.

ghost use Rattle.std.specs.Prelude.{◌≡◌, true, map, IfSome, Some};
ghost use Rattle.wordset.specs.Words.{Words, SameWords, only, shifted};
ghost use Rattle.wordset.specs.Lanes.{words};
ghost use Rattle.peripherals.specs.Loading.{image_of};
ghost use Rattle.domain.specs.LocationsInCode.{location_of};
ghost use Rattle.domain.specs.Facts as said;
ghost use Rattle.domain.specs.Facts.{OfSums};
ghost use Rattle.processor.specs.Runs as runs;
ghost use Rattle.domain.specs.Adding.{times, adding, adding_all, differences, with_shape_in, with_term_in};
ghost use Rattle.domain.specs.Knowing.{said_of};
ghost use Rattle.domain.specs.Narrowing.{narrowed, words_by, of_term, of_part, parts_of, parts_of_chain};
ghost use Rattle.domain.specs.Terms.{sum_of_name, difference_of};
ghost use Rattle.domain.specs.InCode.{term_of, sum_of};
ghost use Rattle.domain.specs.Brief.{brief_words};
ghost use Rattle.domain.specs.ChainsInCode.{chain_of, met_with_found};
ghost use Rattle.domain.specs.FactInCode.{fact_in_code, rules_of, all_parts, all_parts_of_chains};
ghost use Rattle.domain.specs.RelationsInCode.{relation_of};

use crate::brief::BriefSet;
use crate::chains::Chain;
use crate::location::{Location, is_same_location, negated};
use crate::narrowing::ChainWords;
use crate::relations::Relation;
use crate::sets::{differences, keep_divided, keep_pointing, times};
use crate::shapes::{SpelledSum, spelled};
use crate::sum_fact::{Rules, SumFact};
use crate::terms::{Sum, Term};
use bin_tape::Image;
use word12::Word;
use wordset::WordSet;

/// Leaves in a set of a name what is left to it when a fact is told that c times a term is in another set.
fn keep_for_term(
    image: &Image,
    c: Word,
    term: &Term,
    set: &WordSet,
    name: &Location,
    place: &mut WordSet,
)
    ensures { (f : said.Fact) → words place.old ≡ f.set (location_of name.now) → words place.new ≡
        (adding OfSums (of_term (image_of image.now) c (term_of term.now) (words set.now)) f).set (location_of name.now) }
{
    if !is_same_location(name, &term.name()) {
        return;
    }
    match term {
        Term::Holding(_) => keep_divided(c, set, place),
        Term::Behind { more, .. } => keep_pointing(image, *more, c, set, place),
    }
}

/// Leaves in a set of a name what is left to it when a fact is told that a sum is in another set.
fn keep_for_sum(sum: &Sum, set: &WordSet, name: &Location, place: &mut WordSet)
    ensures { (f : said.Fact) → words place.old ≡ f.set (location_of name.now) → words place.new ≡
        (adding OfSums (record { sum = sum_of sum.now; set = words set.now }) f).set (location_of name.now) }
{
    match spelled(sum) {
        None => {}
        Some(found) => keep_for_shape(&found, set, name, place),
    }
}

/// Leaves in a set of a name what is left to it when a fact is told that a term is in another set.
fn keep_for_name(term: &Term, set: &WordSet, name: &Location, place: &mut WordSet)
    ensures { (f : said.Fact) → words place.old ≡ f.set (location_of name.now) → words place.new ≡
        (with_term_in (term_of term.now) (words set.now) f).set (location_of name.now) }
{
    match term {
        Term::Holding(one) => {
            if !is_same_location(name, one) {
                return;
            }
            *place = place.meet(set);
        }
        Term::Behind { .. } => {}
    }
}

/// Leaves in a set of a name what is left to it when a fact is told that a sum, which is spelled as one of the shapes, is in
/// another set.
fn keep_for_shape(found: &SpelledSum, set: &WordSet, name: &Location, place: &mut WordSet)
    ensures { (f : said.Fact) → words place.old ≡ f.set (location_of name.now) → words place.new ≡
        (with_shape_in OfSums (sum_of found.now.sum) (times found.now.sign (words set.now)) f).set (location_of name.now) }
{
    if found.sum.len() != 1 {
        return;
    }
    keep_for_name(&found.sum.get(0).term, &times(found.sign, set), name, place);
}

/// Leaves in a set of a name what is left to it when a fact is told that a part of a relation's sum is in another set.
fn keep_for_part(image: &Image, part: &Sum, set: &WordSet, name: &Location, place: &mut WordSet)
    ensures { (f : said.Fact) → words place.old ≡ f.set (location_of name.now) → words place.new ≡
        (adding_all OfSums (of_part (image_of image.now) (sum_of part.now) (words set.now)) f).set (location_of name.now) }
{
    let len = part.len();
    if len == 0 {
        return;
    }
    if len == 1 {
        let summand = part.get(0);
        keep_for_term(image, summand.coefficient, &summand.term, set, name, place);
        return;
    }
    keep_for_sum(part, set, name, place);
}

/// Whether a part of a relation's sum says nothing of a name that is seen at once: it is one term that does not speak of it.
fn is_idle(part: &Sum, name: &Location) -> bool
    ensures { (image : runs.Image) (set : Words) (f : said.Fact) → result ≡ true →
        (adding_all OfSums (of_part image (sum_of part.now) set) f).set (location_of name.now) ≡ f.set (location_of name.now) }
{
    if part.len() != 1 {
        return false;
    }
    !is_same_location(name, &part.get(0).term.name())
}

/// Keeps those words of a name's set that a chain on a cell allows: the accumulator's, or the cell's.
fn keep_found(found: &ChainWords, cell: Word, name: &Location, place: &mut WordSet)
    ensures { words place.new ≡ met_with_found (words found.now.cells) (words found.now.accumulators) cell
        (location_of name.now) (words place.old) }
{
    match name {
        Location::Accumulator => *place = place.meet(&found.accumulators),
        Location::Cell(other) => {
            if *other != cell {
                return;
            }
            *place = place.meet(&found.cells);
        }
    }
}

/// The two names of which a sum is the difference, if it is one.
fn subtracted_names(sum: &Sum) -> Option<(Location, Location)>
    ensures { IfSome result (λ found. sum_of sum.now ≡ difference_of (location_of found.0) (location_of found.1)) }
{
    if sum.len() != 2 {
        return None;
    }
    let first = sum.get(0);
    let second = sum.get(1);
    if first.coefficient.index() != 1 {
        return None;
    }
    if second.coefficient.index() != 4095 {
        return None;
    }
    match first.term {
        Term::Behind { .. } => None,
        Term::Holding(left) => match second.term {
            Term::Behind { .. } => None,
            Term::Holding(right) => Some((left, right)),
        },
    }
}

impl<const C: usize, const R: usize> SumFact<C, R> {
    /// Leaves in a set of a name what is left to it when a fact is told that one name is a word of another by this fact, and so
    /// much more.
    fn keep_moved(
        &self,
        one: &Location,
        other: &Location,
        by: Word,
        name: &Location,
        place: &mut WordSet,
    )
        ensures { (f : said.Fact) (set : Words) →
            SameWords set (shifted ((fact_in_code self.now).set (location_of other.now)) by) →
            words place.old ≡ f.set (location_of name.now) → words place.new ≡
            (adding OfSums (record { sum = sum_of_name (location_of one.now); set = set }) f).set (location_of name.now) }
    {
        if !is_same_location(name, one) {
            return;
        }
        let mut others = WordSet::all();
        self.put_set_of(other, &mut others);
        place.keep_shifted(&others, by);
    }

    /// Leaves in a set of a name what is left to it when a fact is told what an equation of this fact says of its two names:
    /// each holds a word of the other that is so much more or less, and no difference of sets is needed.
    fn keep_for_equation(
        &self,
        left: &Location,
        right: &Location,
        by: Word,
        name: &Location,
        place: &mut WordSet,
    )
        ensures { (image : runs.Image) (set : Words) (f : said.Fact) → only set ≡ Some by →
            words place.old ≡ f.set (location_of name.now) → words place.new ≡ (adding_all OfSums (parts_of image (fact_in_code self.now)
            (difference_of (location_of left.now) (location_of right.now)) set) f).set (location_of name.now) }
    {
        // The proof needs the number to be a word.
        let _index = by.index();
        self.keep_moved(left, right, by, name, place);
        self.keep_moved(right, left, negated(by), name, place);
    }

    /// Leaves in a set of a name what is left to it when a fact is told what a relation of this fact, whose sum is the
    /// difference of two names, says of them.
    fn keep_for_difference(
        &self,
        image: &Image,
        relation: &Relation,
        left: &Location,
        right: &Location,
        name: &Location,
        place: &mut WordSet,
    )
        requires { sum_of relation.now.sum ≡ difference_of (location_of left.now) (location_of right.now) }
        ensures { (f : said.Fact) → words place.old ≡ f.set (location_of name.now) → words place.new ≡
            (adding_all OfSums (parts_of (image_of image.now) (fact_in_code self.now) (sum_of relation.now.sum)
            (brief_words relation.now.set)) f).set (location_of name.now) }
    {
        if !is_same_location(name, left) && !is_same_location(name, right) {
            return;
        }
        match relation.set.only() {
            None => self.keep_for_both(image, relation, name, place),
            Some(by) => self.keep_for_equation(left, right, by, name, place),
        }
    }

    /// Leaves in a set of a name what is left to it when a fact is told that a part of the sum of one of this fact's relations
    /// is what the relation's set leaves to it, where this fact says as much of the rest.
    fn keep_for_rest(
        &self,
        image: &Image,
        part: &Sum,
        rest: &Sum,
        set: &BriefSet,
        name: &Location,
        place: &mut WordSet,
    )
        ensures { (f : said.Fact) → words place.old ≡ f.set (location_of name.now) → words place.new ≡
            (adding_all OfSums (of_part (image_of image.now) (sum_of part.now)
            (differences (brief_words set.now) (said_of (image_of image.now) (fact_in_code self.now) (sum_of rest.now)))) f).set
            (location_of name.now) }
    {
        if is_idle(part, name) {
            return;
        }
        let mut all = WordSet::all();
        set.put(&mut all);
        let mut said = WordSet::all();
        self.put_said_of(image, rest, &mut said);
        keep_for_part(image, part, &differences(&all, &said), name, place);
    }

    /// Leaves in a set of a name what is left to it when a fact is told what a relation of this fact says of its first term
    /// and of the rest.
    fn keep_for_parts(
        &self,
        image: &Image,
        relation: &Relation,
        name: &Location,
        place: &mut WordSet,
    )
        ensures { (f : said.Fact) → words place.old ≡ f.set (location_of name.now) → words place.new ≡
            (adding_all OfSums (parts_of (image_of image.now) (fact_in_code self.now) (sum_of relation.now.sum)
            (brief_words relation.now.set)) f).set (location_of name.now) }
    {
        match subtracted_names(&relation.sum) {
            None => self.keep_for_both(image, relation, name, place),
            Some((left, right)) => {
                self.keep_for_difference(image, relation, &left, &right, name, place);
            }
        }
    }

    /// Keeps what a relation of any sum leaves of the name's words, by the differences of sets.
    fn keep_for_both(
        &self,
        image: &Image,
        relation: &Relation,
        name: &Location,
        place: &mut WordSet,
    )
        ensures { (f : said.Fact) → words place.old ≡ f.set (location_of name.now) → words place.new ≡
            (adding_all OfSums (parts_of (image_of image.now) (fact_in_code self.now) (sum_of relation.now.sum)
            (brief_words relation.now.set)) f).set (location_of name.now) }
    {
        if relation.sum.len() == 0 {
            return;
        }
        let mut first = Sum::zero();
        first.push(relation.sum.get(0));
        let mut rest = Sum::zero();
        rest.push_from(&relation.sum, 1);
        self.keep_for_rest(image, &first, &rest, &relation.set, name, place);
        self.keep_for_rest(image, &rest, &first, &relation.set, name, place);
    }

    /// Leaves in a set of a name what is left to it when a fact is told what a chain of this fact says.
    fn keep_for_chain(&self, chain: &Chain, name: &Location, place: &mut WordSet)
        ensures { (f : said.Fact) → words place.old ≡ f.set (location_of name.now) → words place.new ≡
            (adding_all OfSums (parts_of_chain (fact_in_code self.now) (chain_of chain.now)) f).set (location_of name.now) }
    {
        let found = self.words_of_chain(chain);
        keep_found(&found, chain.cell(), name, place);
        let ChainWords {
            cells: _,
            accumulators: _,
            differences: _,
            links: _,
        } = found;
    }

    /// Leaves in a set of a name what is left to it when a fact is told what some relations of this fact say of their first
    /// terms and of the rest.
    fn keep_for_all_parts(
        &self,
        image: &Image,
        relations: &[Relation],
        name: &Location,
        place: &mut WordSet,
    )
        ensures { (f : said.Fact) → words place.old ≡ f.set (location_of name.now) → words place.new ≡ (adding_all OfSums
            (all_parts (image_of image.now) (fact_in_code self.now) (map relation_of relations.now)) f).set (location_of name.now) }
    {
        for relation in relations {
            self.keep_for_parts(image, relation, name, place);
        }
    }

    /// Leaves in a set of a name what is left to it when a fact is told what some chains of this fact say.
    fn keep_for_chains(&self, chains: &[Chain], name: &Location, place: &mut WordSet)
        ensures { (f : said.Fact) → words place.old ≡ f.set (location_of name.now) → words place.new ≡ (adding_all OfSums
            (all_parts_of_chains (fact_in_code self.now) (map chain_of chains.now)) f).set (location_of name.now) }
    {
        for chain in chains {
            self.keep_for_chain(chain, name, place);
        }
    }

    /// Puts the words that narrowing leaves to a name into a place for them.
    pub fn put_narrowed(&self, image: &Image, name: &Location, place: &mut WordSet)
        ensures { words place.new ≡ (narrowed (image_of image.now) (fact_in_code self.now)).set (location_of name.now) }
    {
        self.put_set_of(name, place);
        self.keep_for_all_parts(image, self.relations.as_slice(), name, place);
        self.keep_for_chains(self.chains.as_slice(), name, place);
    }

    /// Puts the words that a name may hold by a fact for which something is checked into a place for them. By the rules of
    /// sums the fact is narrowed already; by those of equations it stands as it was told.
    pub fn put_words_by(&self, rules: &Rules, image: &Image, name: &Location, place: &mut WordSet)
        ensures { words place.new ≡
            words_by (rules_of rules.now) (image_of image.now) (fact_in_code self.now) (location_of name.now) }
    {
        match rules {
            Rules::OfSums => self.put_set_of(name, place),
            Rules::OfEquations => self.put_narrowed(image, name, place),
        }
    }
}
