//! What is known at an address, item by item, and what of it is the same as on the line above.

use crate::cases::FactDifferences;
use crate::items::{Item, push_subject, write_item};
use crate::known_fact::{KnownFact, Subject};
use crate::writer::ReportWriter;
use bin_tape::Image;
use domain::{Chain, Relation, Rules};
use instruct::Profile;
use std::alloc::Allocator;
use word12::Word;
use wordset::WordSet;

/// Where facts stand: the tape, the rules by which they are read, the machine, and the sites of the routine in whose body
/// they are.
#[derive(Clone, Copy)]
pub(crate) struct FactContext<'a> {
    pub(crate) image: &'a Image,
    pub(crate) rules: Rules,
    pub(crate) profile: Profile,
    pub(crate) sites: WordSet,
}

/// A fact that is shown: where it stands, the fact on the line above, where one is near, and by what facts at its address
/// are distinguished, of which there is no item.
#[derive(Clone, Copy)]
pub(crate) struct ShownFact<'s, 'k, 'a> {
    pub(crate) setting: FactContext<'s>,
    pub(crate) known: &'k KnownFact,
    pub(crate) above: Option<&'a KnownFact>,
    pub(crate) apart: FactDifferences,
}

/// Whether a fact claims a relation.
fn has_relation(known: &KnownFact, relation: &Relation) -> bool {
    known.relations().iter().any(|other| other.sum.is_same(&relation.sum)
        && other.set.is_same(&relation.set))
}

/// Whether two chains are the same.
fn is_same_chain(chain: &Chain, other: &Chain) -> bool {
    chain.cell() == other.cell()
        && chain.more() == other.more()
        && chain.links() == other.links()
        && chain.steps() == other.steps()
}

/// Whether a return word may have been incremented by another offset than 0.
fn is_counted(offsets: &WordSet) -> bool {
    !offsets.is_subset(&WordSet::one(Word::ZERO))
}

impl ShownFact<'_, '_, '_> {
    /// Whether a subject has other words than the usual ones, or had them on the line above.
    fn is_unusual(&self, subject: &Subject, set: &WordSet, usual: &WordSet) -> bool {
        *set != *usual
            || self
                .above
                .is_some_and(|above| above.words_of(subject) != *usual)
    }

    /// Whether there is an item on a subject that has these words.
    fn is_told(&self, subject: &Subject, set: &WordSet) -> bool {
        if self.apart.is_by(subject) {
            return false;
        }
        match subject {
            Subject::Accumulator | Subject::Link | Subject::Cell(_) => true,
            Subject::Mq => self.is_unusual(subject, set, &WordSet::all()),
            Subject::Offsets => is_counted(set)
                || self.above.is_some_and(|above| is_counted(&above.offsets())),
            Subject::Sites => self.is_unusual(subject, set, &self.setting.sites),
        }
    }

    /// Writes the item on a subject, if there is one.
    fn write_subject<A: Allocator>(&self, writer: &mut ReportWriter<'_, A>, subject: &Subject) {
        let set = self.known.words_of(subject);
        if self.is_told(subject, &set) {
            let same = self
                .above
                .is_some_and(|above| above.words_of(subject) == set);
            write_item(writer, &Item::Words(subject, &set), same);
        }
    }

    /// Writes the items on the cells of which the fact tells.
    fn write_cells<A: Allocator>(&self, writer: &mut ReportWriter<'_, A>) {
        for cell in self.known.cells.iter() {
            self.write_subject(writer, &Subject::Cell(cell));
        }
    }

    /// Writes that a cell may hold any word, for each cell of which the fact above tells, and this one does not.
    fn write_lost_cells<A: Allocator>(&self, writer: &mut ReportWriter<'_, A>, above: &KnownFact) {
        for cell in above.cells.minus(&self.known.cells).iter() {
            let subject = Subject::Cell(cell);
            if !above.words_of(&subject).is_all() {
                write_item(writer, &Item::Words(&subject, &WordSet::all()), false);
            }
        }
    }

    /// Writes the item of an equation, with the words that all that is known leaves to the name on its left.
    fn write_equation<A: Allocator>(&self, writer: &mut ReportWriter<'_, A>, relation: &Relation) {
        let [first, ..] = relation.sum.summands() else {
            return;
        };
        let left = first.term.name();
        let set = self.known.narrowed(&self.setting, &left);
        let same = self.above.is_some_and(|above| {
            has_relation(above, relation) && above.narrowed(&self.setting, &left) == set
        });
        write_item(writer, &Item::Equation(relation, &set), same);
    }

    /// Writes the items of the relations that the fact claims.
    fn write_relations<A: Allocator>(&self, writer: &mut ReportWriter<'_, A>) {
        for relation in self.known.relations() {
            match self.setting.rules {
                Rules::OfEquations => self.write_equation(writer, relation),
                Rules::OfSums => {
                    let same = self
                        .above
                        .is_some_and(|above| has_relation(above, relation));
                    write_item(writer, &Item::Relation(relation), same);
                }
            }
        }
    }

    /// Writes the items of the chains that the fact claims.
    fn write_chains<A: Allocator>(&self, writer: &mut ReportWriter<'_, A>) {
        for chain in self.known.chains() {
            let same = self.above.is_some_and(|above| {
                above
                    .chains()
                    .iter()
                    .any(|other| is_same_chain(chain, other))
            });
            write_item(writer, &Item::Chain(self.setting.profile, chain), same);
        }
    }

    /// Writes an item on each sum of which the fact above claims something, and this one nothing.
    fn write_lost_sums<A: Allocator>(&self, writer: &mut ReportWriter<'_, A>, above: &KnownFact) {
        let relations = self.known.relations();
        for lost in above.relations() {
            if !relations
                .iter()
                .any(|relation| relation.sum.is_same(&lost.sum))
            {
                write_item(writer, &Item::LostSum(&lost.sum), false);
            }
        }
    }

    /// Writes an item on each cell from which AC came on the line above, and does not any more.
    fn write_lost_chains<A: Allocator>(&self, writer: &mut ReportWriter<'_, A>, above: &KnownFact) {
        for lost in above.chains() {
            if !self
                .known
                .chains()
                .iter()
                .any(|chain| chain.cell() == lost.cell())
            {
                write_item(writer, &Item::LostChain(lost.cell()), false);
            }
        }
    }

    /// Writes the items on what the fact claims: where one above is near, what differs from it, and in a page also what does not.
    fn write_claims<A: Allocator>(&self, writer: &mut ReportWriter<'_, A>) {
        self.write_subject(writer, &Subject::Accumulator);
        self.write_subject(writer, &Subject::Mq);
        self.write_subject(writer, &Subject::Link);
        self.write_cells(writer);
        if let Some(above) = self.above {
            self.write_lost_cells(writer, above);
        }
        self.write_relations(writer);
        self.write_chains(writer);
        if let Some(above) = self.above {
            self.write_lost_sums(writer, above);
            self.write_lost_chains(writer, above);
        }
    }

    /// Writes what the fact says as items.
    pub(crate) fn write<A: Allocator>(&self, writer: &mut ReportWriter<'_, A>) {
        self.write_claims(writer);
        self.write_subject(writer, &Subject::Offsets);
        self.write_subject(writer, &Subject::Sites);
    }

    /// Writes what holds after a return, in which the return word is not spoken of.
    pub(crate) fn write_exit<A: Allocator>(&self, writer: &mut ReportWriter<'_, A>) {
        self.write_subject(writer, &Subject::Sites);
        self.write_claims(writer);
    }
}

/// Writes what distinguishes a fact from others.
pub(crate) fn write_apart<A: Allocator>(
    writer: &mut ReportWriter<'_, A>,
    known: &KnownFact,
    apart: &FactDifferences,
) {
    let mut between = "";
    let subjects = apart.subjects();
    for subject in &subjects {
        if let Some(subject) = subject {
            writer.fill(between, &[]);
            let _ = push_subject(writer, subject, &known.words_of(subject));
            between = ", ";
        }
    }
}
