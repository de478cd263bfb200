//! What a kept fact and something else that is known say both.

use crate::fault::SearchFault;
use crate::incoming_fact::brief;
use crate::invariant::{Case, CellInvariant, Invariant, RelationInvariant};
use crate::joining::joined_offsets;
use crate::of_sums::candidates::add_pairs;
use crate::settings::SETTINGS;
use crate::sums::speaks_only_of;
use crate::table::InvariantMap;
use crate::widening::{Limits, to_thresholds};
use bin_tape::Image;
use domain::{Chain, Location, Sum, Summand};
use facts::{AllowedValues, Fact, KnownFact};
use std::alloc::Allocator;
use std::mem::replace;
use word12::Word;
use wordset::WordSet;

/// How facts are joined: the allocator, the tape's words, the cells that they speak of, the pointers among these, how sets are
/// filled and widened, and whether they are widened at all.
#[derive(Clone, Copy)]
pub(crate) struct Merge<'a, A: Allocator + Copy> {
    pub(crate) alloc: A,
    pub(crate) image: &'a Image,
    pub(crate) tracked: WordSet,
    pub(crate) pointers: &'a WordSet,
    pub(crate) thresholds: &'a WordSet,
    pub(crate) limits: &'a Limits,
    pub(crate) widens: bool,
}

/// Room for what a fact says before something is joined to it, and for what it says then.
#[derive(Drop)]
pub(crate) struct Sides<'a> {
    pub(crate) before: &'a Fact,
    pub(crate) after: &'a mut Fact,
}

impl<A: Allocator + Copy> Merge<'_, A> {
    /// A set, filled where it has too many runs.
    pub(crate) fn with_few_runs(&self, set: &WordSet) -> WordSet {
        self.limits.with_few_runs(set)
    }

    /// A set that grew out of another so often, on to the next thresholds once it grew more often than the delay.
    fn widened_after(&self, delay: u32, old: &WordSet, grown: &WordSet, growths: u32) -> WordSet {
        let smooth = self.with_few_runs(grown);
        if self.widens && growths > delay {
            return to_thresholds(old, &smooth, self.thresholds);
        }
        smooth
    }

    /// A set of a name that grew out of another so often.
    fn widened(&self, old: &WordSet, grown: &WordSet, growths: u32, counted: bool) -> WordSet {
        let delay = if counted {
            SETTINGS.counted_delay
        } else {
            SETTINGS.name_delay
        };
        self.widened_after(delay, old, grown, growths)
    }

    /// A set of a sum that grew out of another so often.
    fn widened_sum(&self, old: &WordSet, grown: &WordSet, growths: u32) -> WordSet {
        self.widened_after(SETTINGS.sum_delay, old, grown, growths)
    }
}

/// Whether two chains are one.
fn is_same_chain(a: &Chain, b: &Chain) -> bool {
    a.cell() == b.cell() && a.more() == b.more() && a.links() == b.links() && a.steps() == b.steps()
}

/// Whether a fact shows that a chain is true.
fn shows<F: KnownFact>(known: &F, chain: &Chain) -> bool {
    for other in known.chains() {
        if is_same_chain(other, chain) {
            return true;
        }
    }
    let mut cells = WordSet::all();
    known.put_set_of(&Location::Cell(chain.cell()), &mut cells);
    if cells.count() > SETTINGS.most_tried_words {
        return false;
    }
    let allowed = AllowedValues {
        accumulators: known.accumulator(),
        links: known.link(),
        chains: known.chains(),
    };
    for word in cells.iter() {
        if !allowed.permits_word(chain, word) {
            return false;
        }
    }
    true
}

/// The sum of one summand.
fn sum_of(summand: &Summand) -> Sum {
    let mut sum = Sum::zero();
    sum.push(*summand);
    sum
}

/// Puts what a fact says of a sum into a place for it; of three terms also by what it says of two of them and of the third one.
fn put_by_parts(fact: &Fact, image: &Image, sum: &Sum, place: &mut WordSet) {
    fact.put_said_of(image, sum, place);
    if sum.len() < 3 {
        return;
    }
    for summand in sum.summands() {
        let mut rest = WordSet::all();
        fact.put_said_of(image, &sum.without_term(&summand.term), &mut rest);
        let mut one = WordSet::all();
        fact.put_said_of(image, &sum_of(summand), &mut one);
        let (found, _) = rest.sums(&one);
        *place = place.meet(&found);
    }
}

/// Whether a fact has a relation of a sum.
fn has_relation(fact: &Fact, sum: &Sum) -> bool {
    for relation in fact.relations().as_slice() {
        if relation.sum.is_same(sum) {
            return true;
        }
    }
    false
}

/// Joins the words that a cell may hold to those of its line; tells whether they are others.
fn grow<A: Allocator + Copy, F: KnownFact>(
    line: &mut CellInvariant,
    known: &F,
    merge: &Merge<'_, A>,
) -> bool {
    let cell = line.told.cell;
    let mut set = WordSet::all();
    known.put_set_of(&Location::Cell(cell), &mut set);
    let mut old = WordSet::all();
    line.told.set.put(&mut old);
    if set.is_subset(&old) {
        return set != old;
    }
    line.growths = line.growths.saturating_add(1);
    let counted = merge.limits.counted.contains(cell);
    let wide = merge.widened(&old, &old.union(&set), line.growths, counted);
    line.told.set = brief(&wide);
    true
}

impl<A: Allocator + Copy> InvariantMap<A> {
    /// Lets something be known at an address in a case, or by an exit of an entry, of which it is told where it holds. Tells
    /// whether less is said there than before, or something for the first time. Where there are many facts, no more are
    /// distinguished by words.
    pub(crate) fn reach<F: KnownFact>(
        &mut self,
        key: Word,
        at: Word,
        case: &Case,
        known: &F,
        wanted: &[RelationInvariant],
        merge: &Merge<'_, A>,
        before: &mut Fact,
        after: &mut Fact,
    ) -> Result<bool, SearchFault> {
        let is_new = self.find(key, case).is_none();
        let mut case = *case;
        if is_new && self.row(key).len() >= SETTINGS.most_facts {
            case = case.without_words();
        }
        if let Some(kept) = self.find_mut(key, &case) {
            return kept.reach(known, wanted, merge, before, after);
        }
        let kept = Invariant::of(at, case, known, merge, after)?;
        self.keep(merge.alloc, key, kept)?;
        Ok(true)
    }
}

impl<A: Allocator + Copy> Invariant<A> {
    /// Joins what is known, unless all that is kept is known; it then waits. Tells whether less is said than before. What was
    /// joined very often is given up.
    fn reach<F: KnownFact>(
        &mut self,
        known: &F,
        wanted: &[RelationInvariant],
        merge: &Merge<'_, A>,
        before: &mut Fact,
        after: &mut Fact,
    ) -> Result<bool, SearchFault> {
        if self.covers(known, merge) {
            return Ok(false);
        }
        if self.joins >= SETTINGS.most_joins {
            return Err(SearchFault::Stuck(self.at));
        }
        self.joins = self.joins.saturating_add(1);
        self.put(before);
        let mut sides = Sides { before, after };
        self.join(known, wanted, merge, &mut sides)?;
        self.waits = true;
        Ok(true)
    }

    /// Joins something else that is known: what both say is left. The first of the lent rooms has what is kept. Relations may
    /// be given whose sums are wanted too.
    fn join<F: KnownFact>(
        &mut self,
        known: &F,
        wanted: &[RelationInvariant],
        merge: &Merge<'_, A>,
        sides: &mut Sides<'_>,
    ) -> Result<(), SearchFault> {
        self.join_registers(known, merge);
        let changed = self.join_cells(known, merge)?;
        let relations = replace(&mut self.relations, Vec::new(merge.alloc));
        let chains = replace(&mut self.chains, Vec::new(merge.alloc));
        self.put(sides.after);
        for relation in &relations {
            self.keep_relation(relation, known, merge, sides)?;
        }
        for relation in known.relations() {
            self.add_sum(&relation.sum, known, merge, sides)?;
        }
        for relation in wanted {
            self.add_sum(&relation.told.sum, known, merge, sides)?;
        }
        add_pairs(self, &changed, known, merge, sides)?;
        self.keep_chains(&chains, known, merge, sides.before)
    }

    /// Whether all that is kept is known: nothing is to be joined.
    fn covers<F: KnownFact>(&self, known: &F, merge: &Merge<'_, A>) -> bool {
        self.covers_registers(known)
            && self.covers_cells(known)
            && self.covers_relations(known, merge)
            && self.covers_chains(known)
    }

    /// Whether registers, sites and offsets have no others.
    fn covers_registers<F: KnownFact>(&self, known: &F) -> bool {
        let mut sites = WordSet::empty();
        known.sites().put(&mut sites);
        sites.is_subset(&self.sites)
            && known.accumulator().is_subset(&self.ac)
            && known.mq().is_subset(&self.mq)
            && known.link().is_subset(self.link)
            && known.offsets().is_subset(self.offsets)
    }

    /// Whether no cell has other words.
    fn covers_cells<F: KnownFact>(&self, known: &F) -> bool {
        for line in &self.cells {
            let mut set = WordSet::all();
            known.put_set_of(&Location::Cell(line.told.cell), &mut set);
            if !line.told.set.has_all(&set) {
                return false;
            }
        }
        true
    }

    /// Whether all relations are known.
    fn covers_relations<F: KnownFact>(&self, known: &F, merge: &Merge<'_, A>) -> bool {
        for relation in &self.relations {
            let mut set = WordSet::all();
            known.put_said_of(merge.image, &relation.told.sum, &mut set);
            if !relation.told.set.has_all(&set) {
                return false;
            }
        }
        true
    }

    /// Whether all chains are shown.
    fn covers_chains<F: KnownFact>(&self, known: &F) -> bool {
        for chain in &self.chains {
            if !shows(known, chain) {
                return false;
            }
        }
        true
    }

    /// Joins registers, sites and offsets.
    fn join_registers<F: KnownFact>(&mut self, known: &F, merge: &Merge<'_, A>) {
        let mut sites = WordSet::empty();
        known.sites().put(&mut sites);
        self.sites = self.sites.union(&sites);
        self.link = self.link.union(known.link());
        self.offsets = joined_offsets(self.offsets, known.offsets());
        if !known.accumulator().is_subset(&self.ac) {
            self.growths = self.growths.saturating_add(1);
            let grown = self.ac.union(known.accumulator());
            self.ac = merge.widened(&self.ac, &grown, self.growths, false);
        }
        if !known.mq().is_subset(&self.mq) {
            self.mq_growths = self.mq_growths.saturating_add(1);
            let grown = self.mq.union(known.mq());
            self.mq = merge.widened(&self.mq, &grown, self.mq_growths, false);
        }
    }

    /// Joins the words of cells, and gives the cells with other words than before. Of those that may hold any word nothing is
    /// said any more.
    fn join_cells<F: KnownFact>(
        &mut self,
        known: &F,
        merge: &Merge<'_, A>,
    ) -> Result<WordSet, SearchFault> {
        let mut changed = WordSet::empty();
        let all = WordSet::all();
        let lines = replace(&mut self.cells, Vec::new(merge.alloc));
        for line in &lines {
            let mut joined = *line;
            if grow(&mut joined, known, merge) {
                changed.insert(line.told.cell);
            }
            if !joined.told.set.has_all(&all) {
                let Ok(()) = self.cells.push(joined) else {
                    return Err(SearchFault::NoMemory);
                };
            }
        }
        Ok(changed)
    }

    /// Keeps what is left of a relation.
    fn keep_relation<F: KnownFact>(
        &mut self,
        relation: &RelationInvariant,
        known: &F,
        merge: &Merge<'_, A>,
        sides: &mut Sides<'_>,
    ) -> Result<(), SearchFault> {
        let sum = &relation.told.sum;
        let mut old = WordSet::all();
        relation.told.set.put(&mut old);
        let mut said = WordSet::all();
        known.put_said_of(merge.image, sum, &mut said);
        if said.is_subset(&old) {
            return self.relate(sum, &old, relation.growths, merge, sides.after);
        }
        let growths = relation.growths.saturating_add(1);
        let wide = merge.widened_sum(&old, &old.union(&said), growths);
        self.relate(sum, &wide, growths, merge, sides.after)
    }

    /// Adds what both sides say of a sum of tracked cells, if there is no relation of it and it says something. A relation that was
    /// kept before and is not kept any more was widened until it said nothing, and does not begin anew.
    pub(crate) fn add_sum<F: KnownFact>(
        &mut self,
        sum: &Sum,
        known: &F,
        merge: &Merge<'_, A>,
        sides: &mut Sides<'_>,
    ) -> Result<(), SearchFault> {
        if !speaks_only_of(&merge.tracked, sum) || self.relates(sum) {
            return Ok(());
        }
        if has_relation(sides.before, sum) {
            return Ok(());
        }
        let mut set = WordSet::all();
        put_by_parts(sides.before, merge.image, sum, &mut set);
        if set.is_all() {
            return Ok(());
        }
        let mut said = WordSet::all();
        known.put_said_of(merge.image, sum, &mut said);
        self.relate(sum, &set.union(&said), 0, merge, sides.after)
    }

    /// Keeps those of the chains before and of those known that both sides show.
    fn keep_chains<F: KnownFact>(
        &mut self,
        chains: &[Chain],
        known: &F,
        merge: &Merge<'_, A>,
        before: &Fact,
    ) -> Result<(), SearchFault> {
        for chain in chains {
            if shows(known, chain) {
                self.add_chain(chain)?;
            }
        }
        for chain in known.chains() {
            if shows(before, chain) {
                self.take_chains(&[*chain], merge)?;
            }
        }
        Ok(())
    }
}
