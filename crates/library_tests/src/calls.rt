//! Calls of the libraries that no command makes, each once.

use crate::fixtures::{
    HELLO, HELLO_CERTIFICATE, HELLO_DECLARED, HELLO_TAPE, HELLO_WORDS, PRINTED, SEVERAL, image,
    rounds, word,
};
use analyser::{GuessFault, Turns, guess_within};
use bin_tape::Image;
use certificate::Certificate;
use certificate_lines::Version;
use declaration::Declaration;
use domain::{Chain, Location, ReturnOffsets, Rules, Step, Sum, Summand, Term};
use facts::{Fact, Place};
use instruct::Profile;
use judge::{Claims, certify};
use pal_asm::{assemble, translate};
use pal_text::statements;
use peripherals::Start;
use proposer::{Verdict, propose};
use std::alloc::Global;
use std::test::Fail;
use transfer::NextFact;
use word12::{Link, Word};
use wordset::{Links, WordSet};

#[test]
fn a_part_has_lines_statements_and_tokens(rt: HostRuntime) -> Result<(), Fail> {
    let part = statements(rt.alloc(), b"TA\xffD 20\r\n$")?;
    assert_eq!(rt; part.statements.len(), 2);
    let tokens = part.tokens_of(part.statements[0]);
    assert_eq!(rt; tokens.len(), 3);
    assert_eq!(rt; part.bytes(tokens[0]), b"TA\xffD".as_slice());
    assert_eq!(rt; part.bytes(tokens[2]), b"20".as_slice());
    assert_eq!(rt; part.lines.len(), 2);
    assert_eq!(rt; part.line_bytes(part.lines[0]), b"TA\xffD 20".as_slice());
    Ok(())
}

#[test]
fn a_source_has_words_and_symbols(rt: HostRuntime) -> Result<(), Fail> {
    let program = assemble(rt.alloc(), &[HELLO], Profile::Pdp8I)?;
    let translation = translate(rt.alloc(), &[HELLO], Profile::Pdp8I)?;
    assert!(rt; *program.image() == image(&HELLO_WORDS));
    assert!(rt; *translation.image() == *program.image());
    let (symbols, same) = (program.symbols(), translation.symbols());
    assert!(rt; symbols.len() == 6 && same.len() == 6);
    assert!(rt; symbols.get(&pal_text::Name::new(b"LOOP")).copied() == Some(word(0o206)));
    assert!(rt; same.get(&pal_text::Name::new(b"LEFT")).copied() == Some(word(0o224)));
    Ok(())
}

/// What AC and MQ hold at a start, whether the link is set, and what each cell holds.
const STARTS: [(u16, bool, u16); 3] = [
    (0, false, 0),
    (0o1234, true, 0o7402),
    (0o7777, false, 0o5555),
];

/// That start.
fn start_with(registers: u16, is_set: bool, filled: u16) -> Start {
    let mut start = Start::zero();
    start.ac = word(registers);
    start.mq = word(registers);
    start.link = if is_set { Link::SET } else { Link::CLEAR };
    for address in 0..4096 {
        start.memory.set(Word::from_index(address), word(filled));
    }
    start
}

#[test]
fn a_certified_program_prints_the_same_from_any_start(rt: HostRuntime) -> Result<(), Fail> {
    let certified = certify(rt.alloc(), HELLO_TAPE, HELLO_DECLARED, HELLO_CERTIFICATE)?;
    assert!(rt; *certified.image() == image(&HELLO_WORDS));
    assert_eq!(rt; certified.declaration().start(), word(0o200));
    assert_eq!(rt; certified.certificate().version(), Version::One);
    for (registers, is_set, filled) in &STARTS {
        let start = start_with(*registers, *is_set, *filled);
        let world = certified.run(rt.alloc(), &start, &rounds())?;
        assert_eq!(rt; world.halted_at(), Some(word(0o212)));
        assert_eq!(rt; world.cpu().pc, word(0o213));
        assert!(rt; world.printed() == PRINTED.as_slice() && world.punched().is_empty());
    }
    Ok(())
}

/// The fault of a guess for some words within so many turns, and how many were spent.
fn guessed_within(
    heap: Global,
    words: &[u16],
    declared: &[u8],
    limit: u32,
) -> Option<(Option<GuessFault>, u32)> {
    let declared = Declaration::parse(heap, declared).ok()?;
    let mut turns = Turns::new(limit);
    let found = guess_within(heap, &image(words), &declared, &mut turns);
    Some((found.err(), turns.spent()))
}

/// CLA and HLT: a word each whose outcomes are requested.
const TWO_WORDS: &[u8] = b"start 200\nmain 200-201\nstop 201\n";

/// TAD 0300 and HLT: the first word reads what is not on the list, so its outcomes are not asked for.
const UNREAD: &[u8] = b"start 200\nmain 200-201\nstop 201\nread 301\n";

#[test]
fn a_turn_is_a_word_whose_outcomes_are_asked_for(rt: HostRuntime) {
    for limit in 0..2u32 {
        let spent = guessed_within(rt.alloc(), &[0o7200, 0o7402], TWO_WORDS, limit);
        assert_eq!(rt; spent, Some((Some(GuessFault::TurnsSpent), limit)));
    }
    let found = guessed_within(rt.alloc(), &[0o7200, 0o7402], TWO_WORDS, 2);
    assert_eq!(rt; found, Some((None, 2)));
    let stuck = guessed_within(rt.alloc(), &[0o1300, 0o7402], UNREAD, 0);
    assert_eq!(rt; stuck, Some((Some(GuessFault::Stuck(word(0o200))), 0)));
}

/// CLA; TAD 0206; DCA 0207; DCA I 0207; HLT; and behind a cell 0300: it clears cell 0300.
const CLEARING: [u16; 7] = [0o7200, 0o1206, 0o3207, 0o3607, 0o7402, 0o0000, 0o0300];

/// Whether a certificate is found for what is proposed within so many turns, how many variables it has,
/// and how many turns were spent.
fn proposed_within(heap: Global, limit: u32) -> Option<(bool, usize, u32)> {
    let mut turns = Turns::new(limit);
    let tape = image(&CLEARING);
    let found = propose(heap, &tape, word(0o200), Profile::Pdp8I, &mut turns).ok()?;
    let is_safe = matches!(&found.verdict, Verdict::Safe(_));
    let variables = found.declaration.variables().count();
    Some((is_safe, variables, turns.spent()))
}

#[test]
fn what_is_shown_stays_where_turns_run_out(rt: HostRuntime) {
    // Each of the five words takes a turn, first with all variables but 0206, then with 0207 and 0300. If too few
    // turns are left for these two, they are shown to be enough by the certificate for all.
    assert_eq!(rt; proposed_within(rt.alloc(), 10), Some((true, 2, 10)));
    assert_eq!(rt; proposed_within(rt.alloc(), 9), Some((true, 2, 9)));
    assert_eq!(rt; proposed_within(rt.alloc(), 5), Some((true, 2, 5)));
    assert_eq!(rt; proposed_within(rt.alloc(), 4), Some((false, 2, 4)));
}

/// Two facts, the first one with a tracked cell and an equation, and an exit of a routine.
const TEXT: &[u8] = b"PDP8-CERTIFICATE 2\n\
    routine 0214 rank 11 sites 0207 writes 0010,0224\n\
    fact 0206 ac 0305,0310-0314 mq 0000-7777 link 01 offsets -\n\
    cell 0010 0225-0231\n\
    equal 0010 0224 0231\n\
    fact 0215 ac 0000 mq 0001 link 1 offsets 02\n\
    exit 0214 3 ac 0001 mq 0000-7777 link 0\n\
    end\n";

/// What a cell may hold by a fact.
fn held(fact: &Fact, cell: u16) -> WordSet {
    let mut set = WordSet::empty();
    fact.put_set_of(&Location::Cell(word(cell)), &mut set);
    set
}

/// The only fact at an address.
fn only_fact(read: &Certificate<Global>, at: Word) -> Option<Fact> {
    let mut fact = Fact::any();
    if read.count_facts(at, 0) != 1 {
        return None;
    }
    let _line = read.put_fact(at, 0, 0, &mut fact);
    Some(fact)
}

/// Whether the fact at 0206 is told.
fn fact_is_told(read: &Certificate<Global>, at: Word) -> bool {
    let Some(fact) = only_fact(read, at) else {
        return false;
    };
    let registers = fact.accumulator().count() == 6 && fact.mq().is_all();
    let details = fact.cells().len() == 1 && fact.relations().len() == 1;
    registers && details && held(&fact, 0o10).count() == 5
}

/// Whether the routine and its exit are told.
fn routine_is_told(read: &Certificate<Global>, entry: Word) -> bool {
    let Some(routine) = read.routine(entry) else {
        return false;
    };
    if read.count_exits(entry, 1) != 0 || read.count_exits(entry, 3) != 1 {
        return false;
    }
    let mut exit = Fact::any();
    read.put_exit(entry, 3, 0, &mut exit);
    routine.rank == 9
        && routine.sites.only() == Some(word(0o207))
        && routine.writes.count() == 2
        && exit.accumulator().only() == Some(word(1))
}

#[test]
fn a_certificate_tells_its_lines(rt: HostRuntime) -> Result<(), Fail> {
    let read = Certificate::parse(rt.alloc(), TEXT)?;
    let (entry, at) = (word(0o214), word(0o206));
    assert!(rt; read.version() == Version::Two && read.next_claimed(0o207, 0) == Some(entry));
    assert!(rt; read.names(entry) && !read.names(at) && read.count_facts(entry, 0) == 0);
    assert!(rt; fact_is_told(&read, at) && routine_is_told(&read, entry));
    Ok(())
}

/// Whether the relations of the first fact are told.
fn relations_are_told(fact: &Fact) -> bool {
    let relations = fact.relations().as_slice();
    if relations.len() != 3 {
        return false;
    }
    let behind = Term::Behind {
        cell: word(0o11),
        more: word(0o7777),
    };
    relations[0].sum.len() == 2
        && relations[0].sum.get(1).coefficient == word(0o12)
        && relations[0].set.only() == Some(word(0o65))
        && relations[1].sum.len() == 3
        && relations[1].sum.get(1).coefficient == word(0o7777)
        && relations[2].sum.len() == 2
        && relations[2].sum.get(1).term == behind
}

/// Whether a chain is the one of the first fact.
fn chain_is_told(chain: &Chain) -> bool {
    chain.cell() == word(0o10)
        && chain.more() == word(3)
        && chain.links() == Links::one(Link::CLEAR)
        && chain.steps() == [Step::Operates(word(0o7006)), Step::Ands(word(0o77))].as_slice()
}

/// Whether both facts are told.
fn both_are_told(read: &Certificate<Global>, at: Word) -> bool {
    let (mut first, mut second) = (Fact::any(), Fact::any());
    if read.count_facts(at, 0) != 2 {
        return false;
    }
    let line = read.put_fact(at, 0, 0, &mut first);
    let _line = read.put_fact(at, line, 1, &mut second);
    let registers = first.sites().only() == Some(word(0o202))
        && first.offsets().contains(10)
        && held(&first, 0o10).count() == 5;
    let apart = second.sites().only() == Some(word(0o206))
        && second.link() == Links::both()
        && second.relations().len() == 0;
    let chained = first.chains().len() == 1 && chain_is_told(&first.chains()[0]);
    registers && apart && chained && relations_are_told(&first)
}

#[test]
fn several_facts_are_told_in_their_order(rt: HostRuntime) -> Result<(), Fail> {
    let read = Certificate::parse(rt.alloc(), SEVERAL)?;
    let (entry, at) = (word(0o214), word(0o215));
    assert!(rt; read.version() == Version::Three && both_are_told(&read, at));
    assert!(rt; read.next_offset(entry, 0) == Some(10) && read.next_offset(entry, 11).is_none());
    assert!(rt; read.count_exits(entry, 10) == 2);
    let mut exit = Fact::any();
    read.put_exit(entry, 10, 1, &mut exit);
    assert!(rt; exit.accumulator().only() == Some(word(1)) && exit.offsets().contains(63));
    Ok(())
}

/// The word in 0010 less that in 0224.
fn pointer_less_count() -> Sum {
    Sum::difference(Location::Cell(word(0o10)), Location::Cell(word(0o224)))
}

/// HELLO's fact at 0210, after it typed a letter: the pointer in 0010 and the count in 0224 go
/// together.
fn after_a_letter() -> Fact {
    let mut fact = Fact::any();
    // Only of a fact that forgot all is it said that there is room for cells.
    fact.forget();
    fact.set_accumulator(&WordSet::one(Word::ZERO));
    fact.set_link(Links::one(Link::CLEAR));
    fact.track(word(0o10), &WordSet::range(word(0o225), word(0o231)));
    fact.track(word(0o224), &WordSet::range(word(0o7773), word(0o7777)));
    fact.relate_one(&pointer_less_count(), word(0o232));
    fact
}

#[test]
fn a_fact_tells_what_it_was_told(rt: HostRuntime) {
    let mut fact = after_a_letter();
    assert!(rt; fact.accumulator().only() == Some(Word::ZERO) && fact.mq().is_all());
    assert_eq!(rt; fact.link(), Links::one(Link::CLEAR));
    assert!(rt; fact.cells().len() == 2 && !fact.cells().is_full());
    assert!(rt; fact.relations().len() == 1 && !fact.relations().is_full());
    assert_eq!(rt; held(&fact, 0o10).count(), 5);
    assert!(rt; held(&fact, 0o11).is_all() && fact.offsets().is_empty());
    fact.set_mq(&WordSet::range(word(3), word(5)));
    let mut offsets = ReturnOffsets::none();
    offsets.insert(7);
    fact.set_offsets(offsets);
    assert!(rt;
        fact.mq().count() == 3 && fact.offsets().contains(7) && !fact.offsets().contains(6)
    );
}

/// Ten times the word in 0224, and that in 0010.
fn pointer_and_tens() -> Sum {
    let mut sum = Sum::of_name(Location::Cell(word(0o10)));
    sum.push(Summand {
        coefficient: word(0o12),
        term: Term::Holding(Location::Cell(word(0o224))),
    });
    sum
}

#[test]
fn a_sum_is_known_from_its_parts(rt: HostRuntime) {
    let image = Image::empty();
    let mut fact = Fact::any();
    // Only of a fact that forgot all is it said that there is room for cells.
    fact.forget();
    fact.track(word(0o10), &WordSet::range(word(1), word(2)));
    fact.track(word(0o224), &WordSet::one(word(3)));
    let mut set = WordSet::empty();
    fact.put_said_of(&image, &pointer_and_tens(), &mut set);
    assert!(rt; set == WordSet::range(word(0o37), word(0o40)));
    fact.relate(&pointer_and_tens(), &WordSet::range(word(0o40), word(0o44)));
    fact.put_said_of(&image, &pointer_and_tens(), &mut set);
    assert!(rt; set == WordSet::one(word(0o40)));
    fact.put_narrowed(&image, &Location::Cell(word(0o10)), &mut set);
    assert!(rt; set.only() == Some(word(2)));
}

/// Whether what is known at a call and the exit that says AC and the link are 0 entail HELLO's fact behind the call, where
/// these cells were written.
fn returns_to_hello(declared: &Declaration<Global>, rules: Rules, written: &WordSet) -> bool {
    let image = Image::empty();
    let place = Place {
        image: &image,
        declaration: declared,
        routine: None,
        rules,
    };
    let mut call = after_a_letter();
    call.set_accumulator(&WordSet::range(word(0o305), word(0o317)));
    let mut exit = Fact::any();
    exit.set_accumulator(&WordSet::one(Word::ZERO));
    exit.set_link(Links::one(Link::CLEAR));
    exit.set_offsets(ReturnOffsets::all());
    call.is_within_room();
    exit.is_within_room();
    let mut after = NextFact::any();
    after.take_joined(&rules, &call, &exit, written);
    place.entails(&after, &after_a_letter())
}

#[test]
fn a_return_brings_the_exit_and_keeps_what_is_not_written(rt: HostRuntime) -> Result<(), Fail> {
    let declared = Declaration::parse(rt.alloc(), HELLO_DECLARED)?;
    let count = WordSet::one(word(0o224));
    for rules in &[Rules::OfEquations, Rules::OfSums] {
        assert!(rt; returns_to_hello(&declared, *rules, &WordSet::empty()));
        assert!(rt; !returns_to_hello(&declared, *rules, &count));
    }
    Ok(())
}
