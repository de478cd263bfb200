//! Facts as they are kept: only as long as what they say.

ghost use Rattle.std.specs.Prelude.{◌≡◌, ◌<◌, length, true};
ghost use Rattle.domain.specs.CellsInCode.{cell_sets_of};
ghost use Rattle.domain.specs.FactInCode.{fact_in_code};
ghost use Rattle.domain.specs.RelationsInCode.{relations_of};

use crate::fault::SearchFault;
use crate::incoming_fact::brief;
use crate::sums::touches;
use bin_tape::Image;
use domain::{CellSet, Chain, Relation, ReturnOffsets, Sum};
use facts::{Fact, KnownFact, NarrowedFact};
use std::alloc::Allocator;
use word12::{Link, Word};
use wordset::{Links, WordSet};

/// The most cells of a fact.
const MOST_CELLS: usize = 64;

/// The most relations of a fact.
pub(crate) const MOST_RELATIONS: usize = 32;

/// The most chains of a fact.
const MOST_CHAINS: usize = 4;

/// A cell with the words that it may hold, and how often these grew.
#[derive(Clone, Copy)]
pub(crate) struct CellInvariant {
    pub(crate) told: CellSet,
    pub(crate) growths: u32,
}

/// A relation, and how often its set grew.
#[derive(Clone, Copy)]
pub(crate) struct RelationInvariant {
    pub(crate) told: Relation,
    pub(crate) growths: u32,
}

/// What distinguishes a fact from others at its address, as far as they are distinguished.
#[derive(Clone, Copy, PartialEq, Eq)]
pub(crate) struct Case {
    pub(crate) site: Option<Word>,
    pub(crate) offset: Option<usize>,
    pub(crate) link: Option<Link>,
    pub(crate) value: Option<Word>,
    pub(crate) ac: Option<Word>,
}

impl Case {
    /// That of the only fact at an address.
    pub(crate) const ONLY: Case = Case {
        site: None,
        offset: None,
        link: None,
        value: None,
        ac: None,
    };

    /// That of an exit by an offset.
    pub(crate) fn of_exit(offset: usize) -> Case {
        let mut case = Case::ONLY;
        case.offset = Some(offset);
        case
    }

    /// The case for all words of the cell and the accumulator, which is otherwise this one.
    pub(crate) fn without_words(&self) -> Case {
        let mut case = *self;
        case.value = None;
        case.ac = None;
        case
    }
}

/// A fact, or what holds at a return: of which instruction it is told (for an exit the return that was met first), and in which
/// case; whether it is still to be gone on from; and how often the words of the accumulator and of MQ grew, and it was joined.
#[derive(Drop)]
pub(crate) struct Invariant<A: Allocator> {
    pub(crate) at: Word,
    pub(crate) case: Case,
    pub(crate) waits: bool,
    pub(crate) sites: WordSet,
    pub(crate) ac: WordSet,
    pub(crate) mq: WordSet,
    pub(crate) link: Links,
    pub(crate) offsets: ReturnOffsets,
    pub(crate) growths: u32,
    pub(crate) mq_growths: u32,
    pub(crate) joins: u32,
    pub(crate) cells: Vec<CellInvariant, A>,
    pub(crate) relations: Vec<RelationInvariant, A>,
    pub(crate) chains: Vec<Chain, A>,
}

/// Lets a fact tell of a cell, if there is room.
fn track_if_room(fact: &mut Fact, cell: &CellSet) {
    if has_room_for_cell(fact) {
        fact.track_copy(cell);
    }
}

/// Whether a fact has room for one cell more.
#[tactic(auto, using(crate::proofs::RoomLemmas::cells_told))]
pub(crate) fn has_room_for_cell(fact: &Fact) -> bool
    ensures { result ≡ true → length (cell_sets_of fact.now.cells) < 64 }
{
    fact.told_cells().len() < MOST_CELLS
}

/// Lets a fact tell of a relation, if there is room.
pub(crate) fn relate_if_room(fact: &mut Fact, relation: &Relation) {
    if has_room_for_relation(fact) {
        fact.push_relations(&[*relation]);
    }
}

/// Whether a fact has room for one relation more.
fn has_room_for_relation(fact: &Fact) -> bool
    ensures { result ≡ true → length (relations_of fact.now.relations) < 32 }
{
    fact.relations().len() < MOST_RELATIONS
}

/// Lets a fact tell of some chains, if there is room.
fn put_chains(chains: &[Chain], fact: &mut Fact) {
    for chain in chains {
        add_chain_if_room(fact, chain);
    }
}

/// Lets a fact tell of a chain, if there is room.
fn add_chain_if_room(fact: &mut Fact, chain: &Chain) {
    if has_room_for_chain(fact) {
        fact.add_chain(chain);
    }
}

/// Whether a fact has room for one chain more.
#[tactic(auto, using(crate::proofs::RoomLemmas::chains_told))]
fn has_room_for_chain(fact: &Fact) -> bool
    ensures { result ≡ true → length (fact_in_code fact.now).chains < 72 }
{
    fact.chains().len() < MOST_CHAINS
}

/// Narrows a fact into room for it, if that is enough.
#[tactic(auto, using(crate::proofs::RoomLemmas::chains_kept))]
pub(crate) fn narrow(image: &Image, claimed: &Fact, fact: &mut NarrowedFact) -> bool {
    if claimed.chains().len() > MOST_CHAINS {
        return false;
    }
    claimed.is_within_room();
    fact.narrow(image, claimed);
    true
}

impl<A: Allocator + Copy> Invariant<A> {
    /// What is known at an address in a case, without cells, relations and chains.
    pub(crate) fn without_cells<F: KnownFact>(
        alloc: A,
        at: Word,
        case: Case,
        known: &F,
    ) -> Invariant<A> {
        let mut sites = WordSet::empty();
        known.sites().put(&mut sites);
        Invariant {
            at,
            case,
            waits: true,
            sites,
            ac: *known.accumulator(),
            mq: *known.mq(),
            link: known.link(),
            offsets: known.offsets(),
            growths: 0,
            mq_growths: 0,
            joins: 0,
            cells: Vec::new(alloc),
            relations: Vec::new(alloc),
            chains: Vec::new(alloc),
        }
    }
}

impl<A: Allocator> Invariant<A> {
    /// Adds the words of a cell, if they say something and there is room.
    pub(crate) fn track(&mut self, cell: Word, set: &WordSet) -> Result<(), SearchFault> {
        if set.is_all() || self.cells.len() >= MOST_CELLS {
            return Ok(());
        }
        let line = CellInvariant {
            told: CellSet {
                cell,
                set: brief(set),
            },
            growths: 0,
        };
        match self.cells.push(line) {
            Ok(()) => Ok(()),
            Err(_) => Err(SearchFault::NoMemory),
        }
    }

    /// What is told of a cell, if something is.
    pub(crate) fn line_of(&self, cell: Word) -> Option<&CellInvariant> {
        for line in &self.cells {
            if line.told.cell == cell {
                return Some(line);
            }
        }
        None
    }

    /// How many words a cell may hold.
    pub(crate) fn count_of(&self, cell: Word) -> usize {
        let mut set = WordSet::all();
        if let Some(line) = self.line_of(cell) {
            line.told.set.put(&mut set);
        }
        set.count()
    }

    /// Adds a relation, if there is room, whose set grew so often.
    pub(crate) fn push_relation(
        &mut self,
        told: Relation,
        growths: u32,
    ) -> Result<(), SearchFault> {
        if self.relations.len() >= MOST_RELATIONS {
            return Ok(());
        }
        match self.relations.push(RelationInvariant { told, growths }) {
            Ok(()) => Ok(()),
            Err(_) => Err(SearchFault::NoMemory),
        }
    }

    /// Whether there is a relation of a sum.
    pub(crate) fn relates(&self, sum: &Sum) -> bool {
        for relation in &self.relations {
            if relation.told.sum.is_same(sum) {
                return true;
            }
        }
        false
    }

    /// Adds a chain, if there is room and none on its cell.
    pub(crate) fn add_chain(&mut self, chain: &Chain) -> Result<(), SearchFault> {
        if self.chains.len() >= MOST_CHAINS {
            return Ok(());
        }
        for other in &self.chains {
            if other.cell() == chain.cell() {
                return Ok(());
            }
        }
        match self.chains.push(*chain) {
            Ok(()) => Ok(()),
            Err(_) => Err(SearchFault::NoMemory),
        }
    }

    /// Lets the lent fact say what is kept.
    pub(crate) fn put(&self, fact: &mut Fact) {
        self.put_written(&WordSet::all(), fact);
    }

    /// Lets the lent fact say what is kept of an exit of a routine that writes some cells: of relations those with the
    /// accumulator or one of these.
    pub(crate) fn put_written(&self, written: &WordSet, fact: &mut Fact) {
        fact.forget();
        fact.set_accumulator(&self.ac);
        fact.set_mq(&self.mq);
        fact.set_link(self.link);
        fact.set_sites(&self.sites);
        fact.set_offsets(self.offsets);
        for line in &self.cells {
            track_if_room(fact, &line.told);
        }
        for relation in &self.relations {
            if touches(written, &relation.told.sum) {
                relate_if_room(fact, &relation.told);
            }
        }
        put_chains(&self.chains, fact);
    }
}
