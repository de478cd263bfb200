//! What is known after TAD.
//!
//! By the rules of sums each relation makes at most two, and the words of the accumulator two more; by those of equations the
//! relations of the accumulator move by a known word, or go.

ghost use Rattle.std.specs.Prelude.{◌≡◌, ◌<◌, ◌≤◌, ◌+◌, ◌*◌, ◌++◌, ◌∷◌, [], Some, None, Option, length, map, flat_map, ℕ};
ghost use Rattle.wordset.specs.Words.{only};
ghost use Rattle.wordset.specs.Lanes.{words};
ghost use Rattle.domain.specs.Locations.{Ac};
ghost use Rattle.domain.specs.LocationsInCode.{location_of};
ghost use Rattle.domain.specs.Facts.{OfSums};
ghost use Rattle.domain.specs.Adding.{with_name, adding_all};
ghost use Rattle.domain.specs.InCode.{term_of, summand_of, sum_of};
ghost use Rattle.domain.specs.CellsInCode.{cell_sets_of};
ghost use Rattle.domain.specs.RelationsInCode.{relation_of, relations_of};
ghost use Rattle.domain.specs.ChainsInCode.{AreShort};
ghost use Rattle.domain.specs.FactInCode.{fact_in_code};
ghost use Rattle.transfer.specs.Additions.{names, has_ac, less, ac_with_rest, brought_by, brought, after_tad, summed, ac_is, equations_moved, equations_after_tad, chains_after_tad};
ghost use Rattle.transfer.specs.Outcomes.{added_under, added};
ghost use Rattle.transfer.specs.Shaped.{HaveFewTerms, term_if, told, moved_after_tad};

use crate::carrying::sums_under;
use domain::{
    Location, Names, Relation, Rules, Step, Sum, SumFact, Summand, Term, is_same_location, is_sign,
    times,
};
use word12::{Link, Word};
use wordset::{Links, WordSet};

/// Whether one of some summands speaks of a name.
fn are_naming(name: &Location, summands: &[Summand]) -> bool
    ensures { result ≡ names (location_of name.now) (map summand_of summands.now) }
{
    for summand in summands {
        if is_same_location(&summand.term.name(), name) {
            return true;
        }
    }
    false
}

/// Whether a sum speaks of a name.
pub(crate) fn names(name: &Location, sum: &Sum) -> bool
    ensures { result ≡ names (location_of name.now) (sum_of sum.now) }
{
    are_naming(name, sum.summands())
}

/// Whether a sum is the accumulator plus a rest.
pub(crate) fn has_accumulator(sum: &Sum) -> bool
    ensures { result ≡ has_ac (sum_of sum.now) }
{
    let accumulator = Term::Holding(Location::Accumulator);
    sum.coefficient_of(&accumulator).index() == 1
}

/// Lets the accumulator hold the words of a set; what else a fact says stays.
pub(crate) fn put_accumulator<const C: usize, const R: usize>(
    set: &WordSet,
    fact: &mut SumFact<C, R>,
)
    ensures fact { fact_in_code fact.new ≡ with_name Ac (words set.now) (fact_in_code fact.old) }
    ensures cells { cell_sets_of fact.new.cells ≡ cell_sets_of fact.old.cells }
{
    fact.set_accumulator(set);
}

/// A sum less a term.
fn less(sum: &Sum, term: &Term) -> Sum
    requires { length (sum_of sum.now) < 4 }
    ensures { sum_of result ≡ less (sum_of sum.now) (term_of term.now) }
{
    let mut found = *sum;
    found.push(Summand {
        coefficient: Word::from_index(0o7777),
        term: *term,
    });
    found
}

/// The accumulator plus the rest of a sum: one term of it is left out, and the others are multiplied by a number.
pub(crate) fn accumulator_with_rest(c: Word, term: &Term, sum: &Sum) -> Sum
    requires { length (sum_of sum.now) < 4 }
    ensures { sum_of result ≡ ac_with_rest c (term_of term.now) (sum_of sum.now) }
{
    let mut found = Sum::of_name(Location::Accumulator);
    found.push_from(&sum.without_term(term).multiplied(c), 0);
    found
}

/// Adds what a sum without the accumulator, which has a term so many times, says of the accumulator after TAD of the term.
fn add_brought_by<const C: usize, const R: usize>(
    c: Word,
    term: &Term,
    ac: &WordSet,
    sum: &Sum,
    set: &WordSet,
    after: &mut SumFact<C, R>,
)
    requires terms { length (sum_of sum.now) < 4 }
    requires cells { length (cell_sets_of after.old.cells) < C }
    requires room { length (relations_of after.old.relations) < R }
    ensures fact { fact_in_code after.new ≡ adding_all OfSums
        (brought_by c (term_of term.now) (words ac.now) (told (sum_of sum.now) (words set.now))) (fact_in_code after.old) }
    ensures cells { length (cell_sets_of after.new.cells) ≤ length (cell_sets_of after.old.cells) + 1 }
    ensures more { length (relations_of after.new.relations) ≤ length (relations_of after.old.relations) + 1 }
{
    if !is_sign(c) {
        return;
    }
    let (found, _) = times(c, set).sums(ac);
    after.add(&Rules::OfSums, &accumulator_with_rest(c, term, sum), &found);
}

/// Adds what a sum says besides after TAD of a word of a term.
fn add_brought_of<const C: usize, const R: usize>(
    term: &Term,
    ac: &WordSet,
    sum: &Sum,
    set: &WordSet,
    after: &mut SumFact<C, R>,
)
    requires terms { length (sum_of sum.now) < 4 }
    requires cells { length (cell_sets_of after.old.cells) < C }
    requires room { length (relations_of after.old.relations) < R }
    ensures fact { fact_in_code after.new ≡ adding_all OfSums
        (brought (words ac.now) (Some (term_of term.now)) (told (sum_of sum.now) (words set.now))) (fact_in_code after.old) }
    ensures cells { length (cell_sets_of after.new.cells) ≤ length (cell_sets_of after.old.cells) + 1 }
    ensures more { length (relations_of after.new.relations) ≤ length (relations_of after.old.relations) + 1 }
{
    if has_accumulator(sum) {
        after.add(&Rules::OfSums, &less(sum, term), set);
        return;
    }
    if names(&Location::Accumulator, sum) {
        return;
    }
    add_brought_by(sum.coefficient_of(term), term, ac, sum, set, after);
}

/// Adds what a sum says besides after TAD, where the word that is added is that of a term, if there is one.
fn add_brought<const C: usize, const R: usize>(
    term: &Option<Term>,
    ac: &WordSet,
    sum: &Sum,
    set: &WordSet,
    after: &mut SumFact<C, R>,
)
    requires terms { length (sum_of sum.now) < 4 }
    requires cells { length (cell_sets_of after.old.cells) < C }
    requires room { length (relations_of after.old.relations) < R }
    ensures fact { fact_in_code after.new ≡ adding_all OfSums
        (brought (words ac.now) (term_if term.now) (told (sum_of sum.now) (words set.now))) (fact_in_code after.old) }
    ensures cells { length (cell_sets_of after.new.cells) ≤ length (cell_sets_of after.old.cells) + 1 }
    ensures more { length (relations_of after.new.relations) ≤ length (relations_of after.old.relations) + 1 }
{
    match term {
        None => {}
        Some(term) => add_brought_of(term, ac, sum, set, after),
    }
}

/// Adds what a sum says after TAD of a word of a set: with the accumulator it is so much more, and without it the same.
fn add_moved<const C: usize, const R: usize>(
    operand: &WordSet,
    sum: &Sum,
    set: &WordSet,
    after: &mut SumFact<C, R>,
)
    requires cells { length (cell_sets_of after.old.cells) < C }
    requires room { length (relations_of after.old.relations) < R }
    ensures fact { fact_in_code after.new ≡ adding_all OfSums
        (moved_after_tad (words operand.now) (told (sum_of sum.now) (words set.now))) (fact_in_code after.old) }
    ensures cells { length (cell_sets_of after.new.cells) ≤ length (cell_sets_of after.old.cells) + 1 }
    ensures more { length (relations_of after.new.relations) ≤ length (relations_of after.old.relations) + 1 }
{
    if has_accumulator(sum) {
        let (found, _) = set.sums(operand);
        after.add(&Rules::OfSums, sum, &found);
        return;
    }
    if names(&Location::Accumulator, sum) {
        return;
    }
    after.add(&Rules::OfSums, sum, set);
}

/// Adds all that a sum says after TAD.
fn add_after_tad<const C: usize, const R: usize>(
    operand: &WordSet,
    term: &Option<Term>,
    ac: &WordSet,
    sum: &Sum,
    set: &WordSet,
    after: &mut SumFact<C, R>,
)
    requires terms { length (sum_of sum.now) < 4 }
    requires cells { length (cell_sets_of after.old.cells) + 2 ≤ C }
    requires room { length (relations_of after.old.relations) + 2 ≤ R }
    ensures fact { fact_in_code after.new ≡ adding_all OfSums
        (after_tad (words ac.now) (words operand.now) (term_if term.now) (told (sum_of sum.now) (words set.now)))
        (fact_in_code after.old) }
    ensures cells { length (cell_sets_of after.new.cells) ≤ length (cell_sets_of after.old.cells) + 2 }
    ensures more { length (relations_of after.new.relations) ≤ length (relations_of after.old.relations) + 2 }
{
    add_moved(operand, sum, set, after);
    add_brought(term, ac, sum, set, after);
}

/// Adds all that some relations say after TAD.
fn add_each_after_tad<const C: usize, const R: usize>(
    operand: &WordSet,
    term: &Option<Term>,
    ac: &WordSet,
    relations: &[Relation],
    after: &mut SumFact<C, R>,
)
    requires terms { HaveFewTerms (map relation_of relations.now) }
    requires cells { length (cell_sets_of after.old.cells) + 2 * length relations.now ≤ C }
    requires room { length (relations_of after.old.relations) + 2 * length relations.now ≤ R }
    ensures fact { fact_in_code after.new ≡ adding_all OfSums
        (flat_map (after_tad (words ac.now) (words operand.now) (term_if term.now)) (map relation_of relations.now))
        (fact_in_code after.old) }
    ensures cells { length (cell_sets_of after.new.cells) ≤ length (cell_sets_of after.old.cells) + 2 * length relations.now }
{
    let mut set = WordSet::empty();
    for relation in relations {
        relation.set.put(&mut set);
        add_after_tad(operand, term, ac, &relation.sum, &set, after);
    }
}

/// Lets a fact be what another one is after TAD by the rules of sums, except for the link and chains. `operand` are the words
/// that may be added, and `term` is what has the added word, if there is one.
fn put_summed<const C: usize, const R: usize, const D: usize, const S: usize>(
    operand: &WordSet,
    term: &Option<Term>,
    fact: &SumFact<D, S>,
    after: &mut SumFact<C, R>,
)
    requires terms { HaveFewTerms (fact_in_code fact.now).relations }
    requires cells { length (cell_sets_of fact.now.cells) + 2 * length (relations_of fact.now.relations) + 3 ≤ C }
    requires room { 2 * length (relations_of fact.now.relations) + 2 ≤ R }
    ensures fact { fact_in_code after.new ≡ summed (words operand.now) (term_if term.now) (fact_in_code fact.now) }
    ensures cells { length (cell_sets_of after.new.cells) ≤
        length (cell_sets_of fact.now.cells) + 2 * length (relations_of fact.now.relations) + 3 }
{
    after.take_over(fact);
    put_accumulator(&WordSet::all(), after);
    let ac = fact.accumulator();
    add_after_tad(
        operand,
        term,
        ac,
        &Sum::of_name(Location::Accumulator),
        ac,
        after,
    );
    add_each_after_tad(operand, term, ac, fact.relations().as_slice(), after);
}

/// Lets a fact have the chains of another after TAD of a word of a set: one word is a step more, and else they go.
fn put_chains_after_tad<const C: usize, const R: usize, const D: usize, const S: usize>(
    operand: &WordSet,
    fact: &SumFact<D, S>,
    after: &mut SumFact<C, R>,
)
    requires { AreShort (fact_in_code fact.now).chains }
    ensures { fact_in_code after.new ≡ record (fact_in_code after.old) {
      chains = chains_after_tad (only (words operand.now)) (fact_in_code fact.now).chains;
    } }
{
    match operand.only() {
        None => after.clear_chains(),
        Some(word) => after.lengthen_chains(fact, &Step::Adds(word)),
    }
}

/// Lets a fact be what another one is after TAD by the rules of sums, where the link is this one then. `operand` are the words
/// that may be added, and `term` is what has the added word, if there is one.
///
/// Each relation takes room for at most two cells and two relations.
pub fn put_added_under<const C: usize, const R: usize, const D: usize, const S: usize>(
    operand: &WordSet,
    term: &Option<Term>,
    fact: &SumFact<D, S>,
    link: Link,
    after: &mut SumFact<C, R>,
)
    requires terms { HaveFewTerms (fact_in_code fact.now).relations }
    requires short { AreShort (fact_in_code fact.now).chains }
    requires cells { length (cell_sets_of fact.now.cells) + 2 * length (relations_of fact.now.relations) + 4 ≤ C }
    requires room { 2 * length (relations_of fact.now.relations) + 2 ≤ R }
    ensures { fact_in_code after.new ≡
        added_under (words operand.now) (term_if term.now) (fact_in_code fact.now) link }
{
    put_summed(operand, term, fact, after);
    after.meet_name(
        &Location::Accumulator,
        &sums_under(fact.link(), fact.accumulator(), operand, link),
    );
    put_chains_after_tad(operand, fact, after);
    after.set_link(Links::one(link));
}

/// A term of which the accumulator is known to be a word more.
fn accumulator_less(term: &Term) -> Sum
    ensures { (a : ℕ) → sum_of result ≡ (ac_is (term_of term.now) a).sum }
{
    let mut sum = Sum::of_name(Location::Accumulator);
    sum.push(Summand {
        coefficient: Word::from_index(0o7777),
        term: *term,
    });
    sum
}

/// Adds what a relation says after a known word was added to the accumulator, of which equations are known.
fn push_equation_moved<const C: usize, const R: usize>(
    word: Word,
    relation: &Relation,
    place: &mut Relation,
    after: &mut SumFact<C, R>,
)
    requires { length (relations_of after.old.relations) < R }
    ensures fact { fact_in_code after.new ≡ record (fact_in_code after.old) {
      relations = (fact_in_code after.old).relations ++ equations_moved word (relation_of relation.now ∷ []);
    } }
    ensures cells { after.new.cells ≡ after.old.cells }
    ensures more { length (relations_of after.new.relations) ≤ length (relations_of after.old.relations) + 1 }
{
    if has_accumulator(&relation.sum) {
        place.copy_from(relation);
        place.set.shift(word);
        after.push_relation_copy(place);
        return;
    }
    if names(&Location::Accumulator, &relation.sum) {
        return;
    }
    after.push_relation_copy(relation);
}

/// Adds what some relations say after a known word was added to the accumulator, of which equations are known.
fn push_equations_moved<const C: usize, const R: usize>(
    word: Word,
    relations: &[Relation],
    after: &mut SumFact<C, R>,
)
    requires { length (relations_of after.old.relations) + length relations.now ≤ R }
    ensures fact { fact_in_code after.new ≡ record (fact_in_code after.old) {
      relations = (fact_in_code after.old).relations ++ equations_moved word (map relation_of relations.now);
    } }
    ensures cells { after.new.cells ≡ after.old.cells }
{
    let mut place = Relation::none();
    for relation in relations {
        push_equation_moved(word, relation, &mut place, after);
    }
}

/// Adds that the accumulator is a term and a known word more, and the relations without the accumulator.
fn push_equation_of<const C: usize, const R: usize>(
    term: &Term,
    more: Word,
    relations: &[Relation],
    after: &mut SumFact<C, R>,
)
    requires { length (relations_of after.old.relations) + length relations.now + 1 ≤ R }
    ensures fact { (w : Option ℕ) → (fact_in_code after.old).relations ≡ [] →
        fact_in_code after.new ≡ record (fact_in_code after.old) {
          relations = equations_after_tad (Some (term_of term.now)) (Some more) w (map relation_of relations.now);
        } }
    ensures cells { after.new.cells ≡ after.old.cells }
{
    after.push_one_relation(&accumulator_less(term), more);
    after.push_relations_free_of(relations, &Names::One(Location::Accumulator));
}

/// Adds the relations after TAD by the rules of equations, where no term is known that has the added word, or the accumulator
/// may be several words.
fn push_equations_by<const C: usize, const R: usize>(
    word: &Option<Word>,
    relations: &[Relation],
    after: &mut SumFact<C, R>,
)
    requires { length (relations_of after.old.relations) + length relations.now ≤ R }
    ensures fact { (a : Option ℕ) → (fact_in_code after.old).relations ≡ [] →
        fact_in_code after.new ≡ record (fact_in_code after.old) {
          relations = equations_after_tad None a word.now (map relation_of relations.now);
        } }
    ensures cells { after.new.cells ≡ after.old.cells }
{
    match word {
        None => after.push_relations_free_of(relations, &Names::One(Location::Accumulator)),
        Some(word) => push_equations_moved(*word, relations, after),
    }
}

/// Adds the relations after TAD by the rules of equations. `known` is the accumulator's one word, and `word` the one word that is
/// added.
fn push_equations<const C: usize, const R: usize>(
    term: &Option<Term>,
    known: &Option<Word>,
    word: &Option<Word>,
    relations: &[Relation],
    after: &mut SumFact<C, R>,
)
    requires { length (relations_of after.old.relations) + length relations.now + 1 ≤ R }
    ensures fact { (fact_in_code after.old).relations ≡ [] → fact_in_code after.new ≡ record (fact_in_code after.old) {
      relations = equations_after_tad (term_if term.now) known.now word.now (map relation_of relations.now);
    } }
    ensures cells { after.new.cells ≡ after.old.cells }
{
    match term {
        None => push_equations_by(word, relations, after),
        Some(term) => match known {
            None => push_equations_by(word, relations, after),
            Some(more) => push_equation_of(term, *more, relations, after),
        },
    }
}

/// Lets a fact be what another one is after TAD by the rules of equations. `known` are the accumulator's words, `operand` those
/// that may be added, and `term` is the one target, if there is one.
pub fn put_added<const C: usize, const R: usize, const D: usize, const S: usize>(
    known: &WordSet,
    operand: &WordSet,
    term: &Option<Term>,
    fact: &SumFact<D, S>,
    after: &mut SumFact<C, R>,
)
    requires cells { length (cell_sets_of fact.now.cells) < C }
    requires room { length (relations_of fact.now.relations) < R }
    ensures { fact_in_code after.new ≡
        added (words known.now) (words operand.now) (term_if term.now) (fact_in_code fact.now) }
{
    after.take_over(fact);
    push_equations(
        term,
        &known.only(),
        &operand.only(),
        fact.relations().as_slice(),
        after,
    );
    let (sums, carries) = known.sums(operand);
    after.set_name(&Location::Accumulator, &sums);
    after.set_link(fact.link().toggled(carries));
}
