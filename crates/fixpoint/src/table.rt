//! What is known at addresses and at returns, and what is claimed of routines.

use crate::fault::SearchFault;
use crate::invariant::{Case, Invariant, RelationInvariant};
use certificate_lines::RoutineClaim;
use std::alloc::Allocator;
use std::collections::BTreeMap;
use std::mem::replace;
use word12::Word;
use wordset::WordSet;

/// Facts by address, or exits by entry: several where they are distinguished by cases.
#[derive(Drop)]
pub(crate) struct InvariantMap<A: Allocator> {
    rows: BTreeMap<usize, Vec<Invariant<A>, A>, A>,
}

/// What is claimed of routines, by entry.
#[derive(Drop)]
pub(crate) struct Routines<A: Allocator> {
    claims: BTreeMap<usize, RoutineClaim, A>,
}

/// Facts, exits, what is claimed of routines, and whether the text that says all this was too long to be read.
#[derive(Drop)]
pub(crate) struct Table<A: Allocator> {
    pub(crate) facts: InvariantMap<A>,
    pub(crate) exits: InvariantMap<A>,
    pub(crate) routines: Routines<A>,
    pub(crate) is_long: bool,
}

impl<A: Allocator + Copy> Table<A> {
    /// Nothing is known.
    pub(crate) fn new(alloc: A) -> Table<A> {
        Table {
            facts: InvariantMap::new(alloc),
            exits: InvariantMap::new(alloc),
            routines: Routines {
                claims: BTreeMap::new(alloc),
            },
            is_long: false,
        }
    }
}

impl<A: Allocator> Table<A> {
    /// Forgets all facts and exits.
    pub(crate) fn forget_facts(&mut self) {
        self.facts.rows.clear();
        self.exits.rows.clear();
    }

    /// Forgets all.
    pub(crate) fn forget(&mut self) {
        self.forget_facts();
        self.routines.forget();
    }
}

impl<A: Allocator + Copy> InvariantMap<A> {
    /// Nothing is kept.
    fn new(alloc: A) -> InvariantMap<A> {
        InvariantMap {
            rows: BTreeMap::new(alloc),
        }
    }

    /// Keeps one more at an address.
    pub(crate) fn keep(
        &mut self,
        alloc: A,
        at: Word,
        kept: Invariant<A>,
    ) -> Result<(), SearchFault> {
        if let Some(row) = self.rows.get_mut(&at.index()) {
            return match row.push(kept) {
                Ok(()) => Ok(()),
                Err(_) => Err(SearchFault::NoMemory),
            };
        }
        let mut row = Vec::new(alloc);
        let Ok(()) = row.push(kept) else {
            return Err(SearchFault::NoMemory);
        };
        match self.rows.insert(at.index(), row) {
            Ok(_) => Ok(()),
            Err(_) => Err(SearchFault::NoMemory),
        }
    }
}

impl<A: Allocator> InvariantMap<A> {
    /// All that is kept at an address.
    pub(crate) fn row(&self, at: Word) -> &[Invariant<A>] {
        match self.rows.get(&at.index()) {
            None => &[],
            Some(row) => row.as_slice(),
        }
    }

    /// What is kept at an address at a place.
    pub(crate) fn get(&self, at: Word, index: usize) -> Option<&Invariant<A>> {
        self.row(at).get(index)
    }

    /// What is kept at an address in a case.
    pub(crate) fn find(&self, at: Word, case: &Case) -> Option<&Invariant<A>> {
        for kept in self.row(at) {
            if kept.case == *case {
                return Some(kept);
            }
        }
        None
    }

    /// The relations of what is kept at an address in a case.
    pub(crate) fn relations_in(&self, at: Word, case: &Case) -> &[RelationInvariant] {
        match self.find(at, case) {
            None => &[],
            Some(kept) => kept.relations.as_slice(),
        }
    }

    /// The place of what is kept at an address in a case.
    fn place_of(&self, at: Word, case: &Case) -> Option<usize> {
        let mut index = 0usize;
        for kept in self.row(at) {
            if kept.case == *case {
                return Some(index);
            }
            index = index.saturating_add(1);
        }
        None
    }

    /// What is kept at an address in a case, to be changed.
    pub(crate) fn find_mut(&mut self, at: Word, case: &Case) -> Option<&mut Invariant<A>> {
        let index = self.place_of(at, case)?;
        match self.rows.get_mut(&at.index()) {
            None => None,
            Some(row) => row.get_mut(index),
        }
    }

    /// Whether something at an address waits at a place; it does not wait any more then.
    pub(crate) fn take_waiting(&mut self, at: Word, index: usize) -> bool {
        let Some(row) = self.rows.get_mut(&at.index()) else {
            return false;
        };
        let Some(kept) = row.get_mut(index) else {
            return false;
        };
        replace(&mut kept.waits, false)
    }

    /// All that is kept at an address waits.
    pub(crate) fn mark_waiting(&mut self, at: Word) {
        if let Some(row) = self.rows.get_mut(&at.index()) {
            for kept in row.as_mut_slice() {
                kept.waits = true;
            }
        }
    }

    /// The addresses at which something is kept.
    pub(crate) fn addresses(&self) -> WordSet {
        let mut found = WordSet::empty();
        for index in 0..4096usize {
            if self.rows.get(&index).is_some() {
                found.insert(Word::from_index(index));
            }
        }
        found
    }
}

/// What is claimed of a routine of which nothing is known.
fn unclaimed() -> RoutineClaim {
    RoutineClaim {
        rank: 0,
        sites: WordSet::empty(),
        writes: WordSet::empty(),
    }
}

impl<A: Allocator> Routines<A> {
    /// What is claimed of the routine of an entry.
    pub(crate) fn routine(&self, entry: Word) -> RoutineClaim {
        match self.claims.get(&entry.index()) {
            None => unclaimed(),
            Some(routine) => *routine,
        }
    }

    /// Forgets all that is claimed of routines.
    pub(crate) fn forget(&mut self) {
        self.claims.clear();
    }
}

impl<A: Allocator + Copy> Routines<A> {
    /// Claims something else of the routine of an entry.
    pub(crate) fn set_routine(
        &mut self,
        entry: Word,
        routine: RoutineClaim,
    ) -> Result<(), SearchFault> {
        match self.claims.insert(entry.index(), routine) {
            Ok(_) => Ok(()),
            Err(_) => Err(SearchFault::NoMemory),
        }
    }

    /// Claims more of a routine, and tells whether it is more.
    pub(crate) fn claim(
        &mut self,
        entry: Word,
        sites: &WordSet,
        writes: &WordSet,
    ) -> Result<bool, SearchFault> {
        let mut routine = self.routine(entry);
        if sites.is_subset(&routine.sites) && writes.is_subset(&routine.writes) {
            return Ok(false);
        }
        routine.sites = routine.sites.union(sites);
        routine.writes = routine.writes.union(writes);
        self.set_routine(entry, routine)?;
        Ok(true)
    }
}
