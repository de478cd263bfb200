//! How control goes through a program, as far as its words alone tell.

ghost use Rattle.std.specs.Prelude.{◌≡◌};

use crate::body::BodyTraversal;
use crate::tape::{Tape, Visit};
use declaration::Owner;
use instruct::Profile;
use tape_walk::{KnownCells, ProgramPoint};
use word12::Word;
use wordset::WordSet;

/// How often all bodies are gone through at most, until nothing new is found.
const MOST_ROUNDS: usize = 1024;

/// Each cell is met at most once for each of eight offsets.
const MOST_STEPS: usize = 8 * 4096;

/// What is found of a program's control: what is kept from one round through all bodies to the next,
/// and the last round.
#[derive(Clone, Copy, PartialEq, Eq)]
pub struct Map {
    pub start: Word,
    pub profile: Profile,
    /// The halts after which it goes on.
    pub(crate) pauses: WordSet,
    /// The entries, the offsets by which their routines may return by their words, and the cells that ISZ or DCA name, with
    /// pointers that are stepped.
    pub(crate) known: KnownCells,
    /// The words of tables that a JMS whose target is not known is taken to reach; and those that a JMP is.
    pub(crate) called: WordSet,
    pub(crate) jumped: WordSet,
    /// The cells in which runs were seen to halt, where another word may stand there.
    pub(crate) halted: WordSet,
    /// The cells to which routines were seen to jump, though they are main's.
    pub(crate) left: WordSet,
    /// The cells that cannot be entries, by what runs were seen to do.
    pub(crate) banned: WordSet,
    pub(crate) round: Round,
}

/// What is found on one round.
#[derive(Clone, Copy, PartialEq, Eq)]
pub(crate) struct Round {
    /// The cells of the bodies.
    pub(crate) code: WordSet,
    /// The cells of main's body.
    pub(crate) main: WordSet,
    /// The entries in which a DCA of their own routine stores, which names them.
    pub(crate) moves: WordSet,
    /// The cells of main to which routines jump.
    pub(crate) abandons: WordSet,
    /// The cells that some instruction names as its operand or its pointer.
    pub(crate) named: WordSet,
    /// The cells that hold a HLT.
    pub(crate) halts: WordSet,
    /// Whether some instruction stores through a pointer whose word is not known.
    pub(crate) stores_anywhere: bool,
    /// Where control goes to what cannot be in the body, or stands at an unsupported word.
    pub(crate) astray: WordSet,
    /// JMS and JMP words of which it is not known where they go.
    pub(crate) calls: WordSet,
    pub(crate) jumps: WordSet,
}

impl Round {
    /// Nothing is found yet.
    fn new() -> Round {
        Round {
            code: WordSet::empty(),
            main: WordSet::empty(),
            moves: WordSet::empty(),
            abandons: WordSet::empty(),
            named: WordSet::empty(),
            halts: WordSet::empty(),
            stores_anywhere: false,
            astray: WordSet::empty(),
            calls: WordSet::empty(),
            jumps: WordSet::empty(),
        }
    }
}

impl Map {
    /// What is found of a program that starts here.
    pub fn of(tape: &Tape<'_>, start: Word, profile: Profile) -> Map
        ensures start { result.start ≡ start }
        ensures profile { result.profile ≡ profile }
    {
        let mut map = Map {
            start,
            profile,
            pauses: WordSet::empty(),
            known: KnownCells::none(),
            called: WordSet::empty(),
            jumped: WordSet::empty(),
            halted: WordSet::empty(),
            left: WordSet::empty(),
            banned: WordSet::empty(),
            round: Round::new(),
        };
        map.settle(tape);
        map.try_halts(tape, &WordSet::empty());
        map.try_tables(tape);
        map.try_halts(tape, &WordSet::empty());
        // No round changes these, and so it needs no proof.
        map.start = start;
        map.profile = profile;
        map
    }

    /// Where control cannot be followed.
    pub fn unfollowed(&self) -> WordSet {
        let mut cells = self.round.astray;
        if self.called.is_empty() {
            cells = cells.union(&self.round.calls);
        }
        if self.jumped.is_empty() {
            cells = cells.union(&self.round.jumps);
        }
        cells
    }

    /// Whether some instruction stores through a pointer whose word is not known.
    pub fn stores_anywhere(&self) -> bool {
        self.round.stores_anywhere
    }

    /// Whether some code may be changed.
    pub fn changes_code(&self) -> bool {
        !self.round.code.meet(&self.known.stored).is_empty()
    }

    /// The offsets by which the routine of an entry may return: those that its words tell, and those by which runs were seen to.
    pub(crate) fn offsets(&self, tape: &Tape<'_>, entry: Word) -> WordSet {
        tape.offsets(entry)
            .union(&self.known.returns.offsets_of(entry))
    }

    /// Goes through all bodies until nothing new is found.
    pub(crate) fn settle(&mut self, tape: &Tape<'_>) {
        for _round in 0..MOST_ROUNDS {
            let before = *self;
            self.go_through(tape);
            if *self == before {
                return;
            }
        }
    }

    /// Goes through all bodies once.
    fn go_through(&mut self, tape: &Tape<'_>) {
        self.forget();
        self.follow_main(tape);
        let mut next = 0usize;
        while let Some(entry) = self.known.entries.first_from(next) {
            self.follow_routine(tape, entry);
            next = entry.index() + 1;
        }
    }

    /// Forgets the last round.
    pub(crate) fn forget(&mut self) {
        self.round = Round::new();
    }

    /// Follows main's body, and gives its cells.
    pub(crate) fn follow_main(&mut self, tape: &Tape<'_>) -> WordSet {
        let mut walk = BodyTraversal::new(Owner::Main);
        walk.meet(&ProgramPoint {
            at: self.start,
            offset: 0,
        });
        self.meet_visits(tape, &mut walk);
        let cells = self.follow(tape, &mut walk);
        self.round.main = cells;
        cells
    }

    /// Follows the body of an entry, and gives its cells. Those of bodies that were followed before
    /// cannot be in it.
    pub(crate) fn follow_routine(&mut self, tape: &Tape<'_>, entry: Word) -> WordSet {
        let mut walk = BodyTraversal::new(Owner::Routine(entry));
        let here = ProgramPoint {
            at: entry,
            offset: 0,
        };
        self.go(tape, &mut walk, &here, entry.increment());
        self.meet_visits(tape, &mut walk);
        let cells = self.follow(tape, &mut walk);
        if walk.is_open {
            self.known.returns.remove_cell(entry);
        }
        cells
    }

    /// Meets the cells of a body from which runs were seen to make steps.
    fn meet_visits(&self, tape: &Tape<'_>, walk: &mut BodyTraversal) {
        if let Some(visits) = tape.visits {
            self.meet_all(visits.places, walk);
        }
    }

    /// Meets the cells of these visits that the running routine's body may have.
    fn meet_all(&self, visits: &[Visit], walk: &mut BodyTraversal) {
        for visit in visits {
            if visit.entry == walk.owner.entry() && !self.known.entries.contains(visit.spot.at) {
                walk.meet(&visit.spot);
            }
        }
    }

    /// Goes on from all cells that are met, and gives them.
    fn follow(&mut self, tape: &Tape<'_>, walk: &mut BodyTraversal) -> WordSet {
        for _step in 0..MOST_STEPS {
            let Some(here) = walk.next() else {
                break;
            };
            self.visit(tape, walk, &here);
        }
        let cells = walk.cells();
        self.round.code = self.round.code.union(&cells);
        cells
    }
}
