//! What is known after words of groups 1 and 2.

ghost use Rattle.std.specs.Prelude.{◌≡◌, ◌<◌, ◌≤◌, ◌+◌, ◌*◌, ◌++◌, ◌&&◌, ◌||◌, ◌==◌, ◌∷◌, [], if◌then◌else◌, filter, IsTrue, length, map, not, ℕ};
ghost use Rattle.instruct.specs.declared.Profile.TheVariants.{Pdp8E};
ghost use Rattle.instruct.specs.declared.Instruction.TheVariants.{Operate1};
ghost use Rattle.instruct.specs.Bits.{has_bit};
ghost use Rattle.instruct.specs.Instructions.{instruction_of};
ghost use Rattle.wordset.specs.Words.{one, images, has_some};
ghost use Rattle.wordset.specs.Lanes.{words};
ghost use Rattle.wordset.specs.Links.{links_of};
ghost use Rattle.peripherals.specs.Loading.{image_of};
ghost use Rattle.domain.specs.Locations.{Ac};
ghost use Rattle.domain.specs.Adding.{with_name, is_kept};
ghost use Rattle.domain.specs.Narrowing.{asked_by};
ghost use Rattle.domain.specs.Facts.{Place, OfEquations};
ghost use Rattle.domain.specs.CellsInCode.{cell_sets_of};
ghost use Rattle.domain.specs.RelationsInCode.{relation_of, relations_of};
ghost use Rattle.domain.specs.ChainsInCode.{AreShort};
ghost use Rattle.domain.specs.FactInCode.{fact_in_code, rules_of};
ghost use Rattle.transfer.specs.Additions.{complemented, incremented, turned};
ghost use Rattle.transfer.specs.Outcomes.{ac_of, with_link};
ghost use Rattle.transfer.specs.Operations.{ac_after, link_after, moves_bits, relations_operated, chains_operated, operated, images_under, operated_under, part2, tested, cleared2, may_be};
ghost use Rattle.transfer.specs.Shaped.{HaveFewTerms, if_stays, images_from};

use crate::additions::{accumulator_with_rest, has_accumulator, names, put_accumulator};
use crate::fact_sizes::{NextFact, TestedFact};
use crate::skipping::put_part;
use crate::stores::put_begun_longer;
use bin_tape::Image;
use domain::{Location, Names, Relation, Rules, Step, SumFact, Term};
use instruct::{clears, complements, increments, moves_bits, operate1, reads_switches};
use word12::{Link, Word};
use wordset::{Links, WordSet};

/// Whether a word of group 2 has CLA or OSR, by which the accumulator changes.
fn changes_accumulator(word: Word) -> bool
    ensures { result ≡ (has_bit 7 word || has_bit 2 word) }
{
    clears(word) || reads_switches(word)
}

/// Whether a word of group 1 leaves no relation of the accumulator: with CLA, a rotation or BSW.
fn forgets_accumulator(word: Word) -> bool
    ensures { result ≡ (has_bit 7 word || moves_bits word) }
{
    clears(word) || moves_bits(word)
}

/// Lets a relation say what it says after CMA, and whether it says something then.
fn complement(relation: &mut Relation) -> bool
    requires { length (relation_of relation.old).sum < 4 }
    ensures { if_stays result (relation_of relation.new) ≡ complemented (relation_of relation.old) }
{
    if has_accumulator(&relation.sum) {
        let accumulator = Term::Holding(Location::Accumulator);
        relation.sum = accumulator_with_rest(Word::from_index(0o7777), &accumulator, &relation.sum);
        relation.set.complement();
        return true;
    }
    !names(&Location::Accumulator, &relation.sum)
}

/// Lets a relation say what it says after IAC, and whether it says something then.
fn increment(relation: &mut Relation) -> bool
    ensures { if_stays result (relation_of relation.new) ≡ incremented (relation_of relation.old) }
{
    if has_accumulator(&relation.sum) {
        relation.set.shift(Word::from_index(1));
        return true;
    }
    !names(&Location::Accumulator, &relation.sum)
}

/// What a relation becomes by CMA, where a word of group 1 has it; else the relation stays as it is.
fn complement_if(word: Word, relation: &mut Relation) -> bool
    requires { length (relation_of relation.old).sum < 4 }
    ensures { if_stays result (relation_of relation.new) ≡
        (if has_bit 5 word then complemented (relation_of relation.old) else relation_of relation.old ∷ []) }
{
    if complements(word) {
        return complement(relation);
    }
    true
}

/// Lets a relation say what it says after IAC, where a word of group 1 has it, and whether it says something then.
fn increment_if(word: Word, relation: &mut Relation) -> bool
    ensures { if_stays result (relation_of relation.new) ≡
        (if has_bit 0 word then incremented (relation_of relation.old) else relation_of relation.old ∷ []) }
{
    if increments(word) {
        return increment(relation);
    }
    true
}

/// Lets a relation say what it says after a word of group 1 without CLA, a rotation and BSW, and whether it says something then.
fn turn(word: Word, relation: &mut Relation) -> bool
    requires { length (relation_of relation.old).sum < 4 }
    ensures { if_stays result (relation_of relation.new) ≡ turned word (relation_of relation.old ∷ []) }
{
    if !complement_if(word, relation) {
        return false;
    }
    increment_if(word, relation)
}

/// Adds what a relation says after a word of group 1 without CLA, a rotation and BSW, if the rules keep it.
fn push_turned<const C: usize, const R: usize>(
    rules: &Rules,
    word: Word,
    relation: &Relation,
    place: &mut Relation,
    after: &mut SumFact<C, R>,
)
    requires terms { length (relation_of relation.now).sum < 4 }
    requires room { length (relations_of after.old.relations) < R }
    ensures fact { fact_in_code after.new ≡ record (fact_in_code after.old) {
      relations = (fact_in_code after.old).relations ++
          filter (λ r. is_kept (rules_of rules.now) r.sum r.set) (turned word (relation_of relation.now ∷ []));
    } }
    ensures cells { after.new.cells ≡ after.old.cells }
    ensures more { length (relations_of after.new.relations) ≤ length (relations_of after.old.relations) + 1 }
{
    place.copy_from(relation);
    if !turn(word, place) {
        return;
    }
    if place.is_kept(rules) {
        after.push_relation_copy(place);
    }
}

/// Adds what some relations say after a word of group 1 without CLA, a rotation and BSW, if the rules keep it.
fn push_each_turned<const C: usize, const R: usize>(
    rules: &Rules,
    word: Word,
    relations: &[Relation],
    after: &mut SumFact<C, R>,
)
    requires terms { HaveFewTerms (map relation_of relations.now) }
    requires room { length (relations_of after.old.relations) + length relations.now ≤ R }
    ensures fact { fact_in_code after.new ≡ record (fact_in_code after.old) {
      relations = (fact_in_code after.old).relations ++
          filter (λ r. is_kept (rules_of rules.now) r.sum r.set) (turned word (map relation_of relations.now));
    } }
    ensures cells { after.new.cells ≡ after.old.cells }
{
    let mut place = Relation::none();
    for relation in relations {
        push_turned(rules, word, relation, &mut place, after);
    }
}

/// Adds what some relations say after a word of group 1.
fn push_operated<const C: usize, const R: usize>(
    rules: &Rules,
    word: Word,
    relations: &[Relation],
    after: &mut SumFact<C, R>,
)
    requires terms { HaveFewTerms (map relation_of relations.now) }
    requires room { length (relations_of after.old.relations) + length relations.now ≤ R }
    ensures fact { fact_in_code after.new ≡ record (fact_in_code after.old) {
      relations = (fact_in_code after.old).relations ++ relations_operated (rules_of rules.now) word (map relation_of relations.now);
    } }
    ensures cells { after.new.cells ≡ after.old.cells }
{
    if forgets_accumulator(word) {
        after.push_relations_free_of(relations, &Names::One(Location::Accumulator));
        return;
    }
    push_each_turned(rules, word, relations, after);
}

/// Lets a fact have the chains of another after a word of group 1.
fn put_chains_operated<const C: usize, const R: usize, const D: usize, const S: usize>(
    rules: &Rules,
    word: Word,
    fact: &SumFact<D, S>,
    after: &mut SumFact<C, R>,
)
    requires short { AreShort (fact_in_code fact.now).chains }
    requires room { length fact.now.chains.items + length (relations_of fact.now.relations) ≤ 72 }
    ensures { fact_in_code after.new ≡ record (fact_in_code after.old) {
      chains = chains_operated (rules_of rules.now) word (fact_in_code fact.now);
    } }
{
    if clears(word) {
        after.clear_chains();
        return;
    }
    let step = Step::Operates(word);
    if moves_bits(word) {
        put_begun_longer(rules, &step, fact, after);
        return;
    }
    after.lengthen_chains(fact, &step);
}

/// Lets a fact be what another one is after a word of group 1, except for the words of the accumulator and the
/// link.
fn put_operated<const C: usize, const R: usize, const D: usize, const S: usize>(
    rules: &Rules,
    word: Word,
    fact: &SumFact<D, S>,
    after: &mut SumFact<C, R>,
)
    requires terms { HaveFewTerms (fact_in_code fact.now).relations }
    requires short { AreShort (fact_in_code fact.now).chains }
    requires chains { length fact.now.chains.items + length (relations_of fact.now.relations) ≤ 72 }
    requires cells { length (cell_sets_of fact.now.cells) ≤ C }
    requires room { length (relations_of fact.now.relations) ≤ R }
    ensures { fact_in_code after.new ≡ operated (rules_of rules.now) word (fact_in_code fact.now) }
{
    after.take_over(fact);
    push_operated(rules, word, fact.relations().as_slice(), after);
    put_chains_operated(rules, word, fact, after);
}

/// Adds what a word of group 1 makes of an accumulator and a link, if it leaves the link so.
fn add_image(word: Word, ac: Word, before: Link, link: Link, found: &mut WordSet)
    ensures { (v : ℕ) → words found.new v ≡
        (words found.old v || ((ac_after word ac before == v) && (link_after word ac before == link))) }
{
    let (image, after) = operate1(word, ac, before);
    if after == link {
        found.insert(image);
    }
}

/// What a word of group 1 makes of some accumulators with one link, where it leaves the link so.
#[inline(never)]
fn images_from(word: Word, set: &WordSet, before: Link, link: Link) -> WordSet
    ensures { words result ≡ images_from word link (words set.now) before }
{
    let mut found = WordSet::empty();
    for ac in set.iter() {
        add_image(word, ac, before, link, &mut found);
    }
    found
}

/// What a word of group 1 makes of some accumulators with one link: with CLA all of them become one before.
fn images_by(word: Word, set: &WordSet, before: Link, link: Link) -> WordSet
    ensures { words result ≡ images_from word link (words set.now) before }
{
    if clears(word) && !set.is_empty() {
        return images_from(word, &WordSet::one(Word::ZERO), before, link);
    }
    images_from(word, set, before, link)
}

/// What a word of group 1 makes of some accumulators with one link, where that is chosen, and else no word.
fn images_if(chosen: bool, word: Word, set: &WordSet, before: Link, link: Link) -> WordSet
    ensures { (v : ℕ) → words result v ≡ (chosen && images_from word link (words set.now) before v) }
{
    if chosen {
        images_by(word, set, before, link)
    } else {
        WordSet::empty()
    }
}

/// What a word of group 1 makes of some accumulators and links, where it leaves the link so.
fn images_under(word: Word, set: &WordSet, links: Links, link: Link) -> WordSet
    ensures { words result ≡ images_under word link (words set.now) (links_of links) }
{
    let high = images_if(links.contains(Link::SET), word, set, Link::SET, link);
    high.union(&images_if(links.contains(Link::CLEAR), word, set, Link::CLEAR, link))
}

/// Lets a fact be what another one is after a word of group 1 by the rules of sums, where the link is this one then.
pub fn put_operated_under<const C: usize, const R: usize, const D: usize, const S: usize>(
    word: Word,
    fact: &SumFact<D, S>,
    link: Link,
    after: &mut SumFact<C, R>,
)
    requires terms { HaveFewTerms (fact_in_code fact.now).relations }
    requires short { AreShort (fact_in_code fact.now).chains }
    requires chains { length fact.now.chains.items + length (relations_of fact.now.relations) ≤ 72 }
    requires cells { length (cell_sets_of fact.now.cells) < C }
    requires room { length (relations_of fact.now.relations) ≤ R }
    ensures { fact_in_code after.new ≡ operated_under word (fact_in_code fact.now) link }
{
    put_operated(&Rules::OfSums, word, fact, after);
    put_accumulator(
        &images_under(word, fact.accumulator(), fact.link(), link),
        after,
    );
    after.set_link(Links::one(link));
}

/// Lets a fact be what another one is after a word of group 1 by the rules of equations. `known` are the accumulator's words.
pub fn put_all_operated<const C: usize, const R: usize, const D: usize, const S: usize>(
    word: Word,
    known: &WordSet,
    fact: &SumFact<D, S>,
    after: &mut SumFact<C, R>,
)
    requires word { instruction_of Pdp8E word ≡ Operate1 }
    requires terms { HaveFewTerms (fact_in_code fact.now).relations }
    requires short { AreShort (fact_in_code fact.now).chains }
    requires chains { length fact.now.chains.items + length (relations_of fact.now.relations) ≤ 72 }
    requires cells { length (cell_sets_of fact.now.cells) < C }
    requires room { length (relations_of fact.now.relations) ≤ R }
    ensures { fact_in_code after.new ≡
        with_link (images (link_after word) (words known.now) (fact_in_code fact.now).link)
        (with_name Ac (images (ac_after word) (words known.now) (fact_in_code fact.now).link)
        (operated OfEquations word (fact_in_code fact.now))) }
{
    put_operated(&Rules::OfEquations, word, fact, after);
    let (images, links) = known.map_operate(word, fact.link());
    put_accumulator(&images, after);
    after.set_link(links);
}

/// Lets a fact be another one whose accumulator holds words of a set and whose link is this one.
fn put_with_part<const C: usize, const R: usize, const D: usize, const S: usize>(
    fact: &SumFact<D, S>,
    part: &WordSet,
    link: Link,
    after: &mut SumFact<C, R>,
)
    requires cells { length (cell_sets_of fact.now.cells) < C }
    requires room { length (relations_of fact.now.relations) ≤ R }
    ensures fact { fact_in_code after.new ≡ with_link (one link) (with_name Ac (words part.now) (fact_in_code fact.now)) }
    ensures cells { length (cell_sets_of after.new.cells) ≤ length (cell_sets_of fact.now.cells) + 1 }
{
    after.copy_from(fact);
    after.set_name(&Location::Accumulator, part);
    after.set_link(Links::one(link));
}

/// The words of the accumulator after CLA, where a word of group 2 has it.
fn cleared_words(word: Word, ac: &WordSet) -> WordSet
    ensures { words result ≡ (if has_bit 7 word then one 0 else words ac.now) }
{
    if clears(word) {
        return WordSet::one(Word::ZERO);
    }
    *ac
}

/// Lets a fact be another one after CLA and OSR of a word of group 2: the accumulator is 0, then any bits come in.
fn put_cleared<const C: usize, const R: usize, const D: usize, const S: usize>(
    word: Word,
    fact: &SumFact<D, S>,
    after: &mut SumFact<C, R>,
)
    requires cells { length (cell_sets_of fact.now.cells) ≤ C }
    requires room { length (relations_of fact.now.relations) ≤ R }
    ensures { fact_in_code after.new ≡ cleared2 word (fact_in_code fact.now) }
{
    if reads_switches(word) {
        let set = cleared_words(word, fact.accumulator());
        after.take_for_accumulator(fact, &set.or_any(Word::from_index(0o7777)));
        return;
    }
    if clears(word) {
        after.take_for_accumulator(fact, &WordSet::one(Word::ZERO));
        return;
    }
    after.copy_from(fact);
}

/// Lets a fact be another one of the states that come to a test, before the accumulator is changed: by the rules of sums it is
/// narrowed. `spare` is room for it.
fn put_tested<
    const C: usize,
    const R: usize,
    const P: usize,
    const Q: usize,
    const D: usize,
    const S: usize,
>(
    rules: &Rules,
    image: &Image,
    fact: &SumFact<D, S>,
    part: &WordSet,
    link: Link,
    spare: &mut SumFact<P, Q>,
    tested: &mut SumFact<C, R>,
)
    requires spare { length (cell_sets_of fact.now.cells) < P }
    requires same { length (relations_of fact.now.relations) ≤ Q }
    requires cells { length (cell_sets_of fact.now.cells) + 2 * length (relations_of fact.now.relations)
        + length fact.now.chains.items + 1 ≤ C }
    requires room { 2 * length (relations_of fact.now.relations) + length fact.now.chains.items ≤ R }
    ensures { fact_in_code tested.new ≡ asked_by (rules_of rules.now) (image_of image.now)
        (with_link (one link) (with_name Ac (words part.now) (fact_in_code fact.now))) }
{
    match rules {
        Rules::OfEquations => put_with_part(fact, part, link, tested),
        Rules::OfSums => {
            put_with_part(fact, part, link, spare);
            tested.narrow(image, spare);
        }
    }
}

/// Whether some state may satisfy a fact, as far as the rules ask.
fn may_be<const C: usize, const R: usize>(rules: &Rules, fact: &SumFact<C, R>) -> bool
    ensures { result ≡ may_be (rules_of rules.now) (fact_in_code fact.now) }
{
    match rules {
        Rules::OfEquations => true,
        Rules::OfSums => !fact.is_void(),
    }
}

/// Lets a fact be what another one is of the states that come to a test, after CLA and OSR, and whether there may be such states.
/// `spare` is room for the fact that is narrowed.
fn put_after_test<const D: usize, const S: usize>(
    rules: &Rules,
    image: &Image,
    word: Word,
    fact: &SumFact<D, S>,
    part: &WordSet,
    link: Link,
    spare: &mut TestedFact,
    after: &mut NextFact,
) -> bool
    requires cells { length (cell_sets_of fact.now.cells) + 2 * length (relations_of fact.now.relations)
        + length fact.now.chains.items + 1 ≤ 273 }
    requires relations { 2 * length (relations_of fact.now.relations) + length fact.now.chains.items ≤ 140 }
    ensures may { (pl : Place) → pl.image ≡ image_of image.now →
        result ≡ may_be (rules_of rules.now) (tested (rules_of rules.now) pl word (fact_in_code fact.now) (words part.now) link) }
    ensures fact { (pl : Place) → pl.image ≡ image_of image.now → fact_in_code after.new ≡
        cleared2 word (tested (rules_of rules.now) pl word (fact_in_code fact.now) (words part.now) link) }
{
    if changes_accumulator(word) {
        put_tested(rules, image, fact, part, link, after, spare);
        spare.is_within_room();
        put_cleared(word, spare, after);
        return may_be(rules, spare);
    }
    put_with_part(fact, part, link, after);
    may_be(rules, after)
}

/// Lets a fact be what another one is of the states that skip by a word of group 2, or that do not, where the link is this one;
/// and whether there may be such states. `known` are the accumulator's words, and `spare` is room for the fact that is narrowed.
pub fn put_branch<const D: usize, const S: usize>(
    rules: &Rules,
    image: &Image,
    word: Word,
    known: &WordSet,
    fact: &SumFact<D, S>,
    link: Link,
    skip: bool,
    spare: &mut TestedFact,
    after: &mut NextFact,
) -> bool
    requires cells { length (cell_sets_of fact.now.cells) + 2 * length (relations_of fact.now.relations)
        + length fact.now.chains.items + 1 ≤ 273 }
    requires relations { 2 * length (relations_of fact.now.relations) + length fact.now.chains.items ≤ 140 }
    ensures may { (pl : Place) → pl.image ≡ image_of image.now → pl.rules ≡ rules_of rules.now →
        words known.now ≡ ac_of pl (fact_in_code fact.now) →
        result ≡ ((fact_in_code fact.now).link link && (has_some (part2 pl word (fact_in_code fact.now) link skip) &&
        may_be pl.rules (tested pl.rules pl word (fact_in_code fact.now) (part2 pl word (fact_in_code fact.now) link skip) link))) }
    ensures fact { (pl : Place) → pl.image ≡ image_of image.now → pl.rules ≡ rules_of rules.now →
        words known.now ≡ ac_of pl (fact_in_code fact.now) → IsTrue result →
        fact_in_code after.new ≡ cleared2 word (tested pl.rules pl word (fact_in_code fact.now)
        (part2 pl word (fact_in_code fact.now) link skip) link) }
{
    if !fact.link().contains(link) {
        return false;
    }
    let mut place = WordSet::empty();
    let part = put_part(word, link, skip, known, &mut place);
    if part.is_empty() {
        return false;
    }
    put_after_test(rules, image, word, fact, part, link, spare, after)
}
