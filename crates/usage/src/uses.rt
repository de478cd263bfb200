//! Which cells of a declaration are used, and how, by the facts of a certificate.

ghost use Rattle.std.specs.Prelude.{◌<◌, length};
ghost use Rattle.certificate_lines.specs.CertificateInCode.{claims};

use crate::words::{abandoned, halted, moved};
use bin_tape::Image;
use certificate::Certificate;
use declaration::Declaration;
use facts::{Fact, NarrowedFact, Place};
use judge::{Body, Case, Claims, place_of, put_asked, put_sites};
use std::alloc::Allocator;
use word12::Word;
use wordset::WordSet;

/// How an instruction uses a cell.
#[derive(Clone, Copy, PartialEq, Eq, Debug)]
pub enum Use {
    /// It stands there.
    Execute,
    /// It may write the cell, as ISZ, DCA and an indirect reference through an auto-index cell do.
    Write,
    /// It may read the cell, which is not its own routine's entry.
    Read,
    /// It may be a call of the routine whose entry the cell is.
    Call,
    /// It stands there and is a HLT.
    Halt,
    /// It is in a routine, and may jump there to abandon the open calls.
    Abandon,
    /// It stores in the cell, its own routine's entry, by its name.
    Move,
}

impl Use {
    /// The cells that a word at the address of a fact uses so.
    fn cells<D: Allocator>(
        self,
        place: &Place<'_, D>,
        fact: &NarrowedFact,
        at: Word,
        word: Word,
    ) -> WordSet {
        let mut cells = WordSet::empty();
        match self {
            Use::Execute => cells.insert(at),
            Use::Write => place.put_writes(fact, at, word, &mut cells),
            Use::Read => {
                place.put_reads(fact, at, word, &mut cells);
                if let Some(own) = place.routine {
                    cells = cells.minus(&WordSet::one(own));
                }
            }
            Use::Call => place.put_called(fact, at, word, &mut cells),
            Use::Halt => cells = halted(place, at, word),
            Use::Abandon => cells = abandoned(place, fact, at, word),
            Use::Move => cells = moved(place, at, word),
        }
        cells
    }
}

/// Room for a fact as it is claimed, and for the same fact as conditions are checked for it.
#[derive(Drop)]
struct Rooms {
    claimed: Fact,
    asked: NarrowedFact,
}

/// The cells that some possible word uses so at the address of a fact.
fn used_by<D: Allocator>(way: Use, place: &Place<'_, D>, fact: &NarrowedFact, at: Word) -> WordSet {
    let mut possible = WordSet::empty();
    place.put_possible(fact, at, &mut possible);
    let mut cells = WordSet::empty();
    for word in possible.iter() {
        cells = cells.union(&way.cells(place, fact, at, word));
    }
    cells
}

/// The cells that are used so by one of the facts at an address of a body. The line that is looked at first
/// becomes the one behind the fact.
fn used_at<A: Allocator, D: Allocator>(
    way: Use,
    case: &Case<'_, D, Certificate<A>>,
    body: &Body,
    at: Word,
    index: usize,
    near: &mut usize,
    rooms: &mut Rooms,
) -> WordSet
    requires { index < length ((claims case.now.claims.now).facts at) }
{
    let rules = case.claims.rules();
    *near = case.claims.put_fact(at, *near, index, &mut rooms.claimed);
    put_sites(&rules, &body.claim.sites, &mut rooms.claimed);
    if !put_asked(&rules, case.image, &rooms.claimed, &mut rooms.asked) {
        return WordSet::empty();
    }
    let place = place_of(case.image, case.declaration, &body.routine, rules);
    used_by(way, &place, &rooms.asked, at)
}

/// The cells that are used so by the facts at an address, if there are any.
fn used_from<A: Allocator, D: Allocator>(
    way: Use,
    case: &Case<'_, D, Certificate<A>>,
    at: Word,
    near: &mut usize,
    rooms: &mut Rooms,
) -> WordSet {
    let mut cells = WordSet::empty();
    let count = case.claims.count_facts(at, *near);
    let mut body = Body::main();
    if count == 0 || !case.finds_body(at, &mut body) {
        return cells;
    }
    for index in 0..count {
        cells = cells.union(&used_at(way, case, &body, at, index, near, rooms));
    }
    cells
}

/// The cells that some possible word uses so by the facts of a certificate for which conditions are checked: after a yes all
/// that instructions of the program's runs use so are among them.
pub fn used<A: Allocator, D: Allocator>(
    way: Use,
    image: &Image,
    declaration: &Declaration<D>,
    certificate: &Certificate<A>,
) -> WordSet {
    let case = Case {
        image,
        declaration,
        claims: certificate,
    };
    let mut rooms = Rooms {
        claimed: Fact::any(),
        asked: NarrowedFact::any(),
    };
    let mut near = 0usize;
    let mut cells = WordSet::empty();
    for index in 0..4096usize {
        let at = Word::from_index(index);
        cells = cells.union(&used_from(way, &case, at, &mut near, &mut rooms));
    }
    cells
}
