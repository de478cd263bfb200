//! Calls that ask for memory, where a request is refused: the first, the second and so on, until a run ends without
//! a refusal. Each refusal is told, and nothing else is told in its place.

use crate::fixtures::{
    HELLO, HELLO_CERTIFICATE, HELLO_DECLARED, HELLO_TAPE, HELLO_WORDS, PRINTED, SEVERAL, image,
    rounds, word,
};
use analyser::{GuessFault, guess};
use certificate::Certificate;
use certificate_lines::CertificateFault;
use declaration::{Declaration, DeclarationFault};
use instruct::Profile;
use judge::{CertifyFault, certify};
use pal_asm::{AssembleFault, assemble};
use pal_text::{TextFault, statements};
use peripherals::{EventsFault, Start, events};
use policy::{Watched, watch};
use std::alloc::{Allocator, Global};
use std::test::Fail;
use testing::{MemorySource, Refusing};

/// A call.
#[derive(Clone, Copy)]
enum Call<'t> {
    Events(&'t [u8]),
    Statements(&'t [u8]),
    Source(&'t [&'t [u8]]),
    Declaration(&'t [u8]),
    Certificate(&'t [u8]),
    /// A certificate that is read in pieces.
    Pieces(&'t [u8]),
    /// HELLO, its declaration and its certificate.
    Certification,
    /// The guess of a certificate for HELLO.
    Guess,
    /// HELLO's run, which is watched.
    Watch,
    /// The run of HELLO after its certificate was accepted.
    Run,
}

/// How a call ends.
#[derive(Clone, Copy, PartialEq, Eq, Debug)]
enum Answer {
    Done,
    Fault,
    NoMemory,
    /// A refusal was answered by something else.
    Untold,
}

/// How a call ends that has this fault or none.
fn told<F: PartialEq + Copy>(fault: Option<F>, no_memory: F) -> Answer {
    match fault {
        None => Answer::Done,
        Some(fault) if fault == no_memory => Answer::NoMemory,
        Some(_) => Answer::Fault,
    }
}

fn fault_in_pieces<A: Allocator + Copy>(alloc: A, text: &[u8]) -> Option<CertificateFault> {
    let mut source = MemorySource::new(text).in_pieces(7);
    Certificate::read_from(alloc, &mut source).err()
}

/// How a certification ends. It is never inlined, so that the other calls, some of which need half of the stack themselves,
/// do not keep the judge's rooms on the stack as well.
#[inline(never)]
fn certification_answer<A: Allocator + Copy>(alloc: A) -> Answer {
    let fault = certify(alloc, HELLO_TAPE, HELLO_DECLARED, HELLO_CERTIFICATE).err();
    told(fault, CertifyFault::NoMemory)
}

fn guess_answer<A: Allocator + Copy>(alloc: A, heap: Global) -> Answer {
    let Ok(declared) = Declaration::parse(heap, HELLO_DECLARED) else {
        return Answer::Fault;
    };
    let fault = guess(alloc, &image(&HELLO_WORDS), &declared).err();
    told(fault, GuessFault::NoMemory)
}

fn watch_answer<A: Allocator + Copy>(alloc: A, heap: Global) -> Answer {
    let Ok(declared) = Declaration::parse(heap, HELLO_DECLARED) else {
        return Answer::Fault;
    };
    let tape = image(&HELLO_WORDS);
    match watch(alloc, &tape, &declared, &Start::zero(), &rounds()) {
        Ok(Watched::Clean) => Answer::Done,
        Ok(_) => Answer::Fault,
        Err(_) => Answer::NoMemory,
    }
}

fn run_answer<A: Allocator + Copy>(alloc: A, heap: Global) -> Answer {
    let Ok(certified) = certify(heap, HELLO_TAPE, HELLO_DECLARED, HELLO_CERTIFICATE) else {
        return Answer::Fault;
    };
    let Ok(world) = certified.run(alloc, &Start::zero(), &rounds()) else {
        return Answer::NoMemory;
    };
    if world.printed() == PRINTED.as_slice() {
        Answer::Done
    } else {
        Answer::Fault
    }
}

/// How a call ends that takes its memory from the first allocator. What it is given comes from the second.
fn answer_of<A: Allocator + Copy>(alloc: A, heap: Global, call: &Call<'_>) -> Answer {
    let no_source = AssembleFault::NoMemory;
    let no_lines = CertificateFault::NoMemory;
    match call {
        Call::Events(text) => told(events(alloc, text).err(), EventsFault::NoMemory),
        Call::Statements(source) => told(statements(alloc, source).err(), TextFault::NoMemory),
        Call::Source(parts) => told(assemble(alloc, parts, Profile::Pdp8I).err(), no_source),
        Call::Declaration(text) => told(
            Declaration::parse(alloc, text).err(),
            DeclarationFault::NoMemory,
        ),
        Call::Certificate(text) => told(Certificate::parse(alloc, text).err(), no_lines),
        Call::Pieces(text) => told(fault_in_pieces(alloc, text), no_lines),
        Call::Certification => certification_answer(alloc),
        Call::Guess => guess_answer(alloc, heap),
        Call::Watch => watch_answer(alloc, heap),
        Call::Run => run_answer(alloc, heap),
    }
}

/// How many requests a call makes where none is refused and how it ends then, if each refusal is told; else the
/// request of which the refusal is not told.
fn in_turn(heap: Global, call: &Call<'_>) -> (u64, Answer) {
    for count in 0..10_000u64 {
        let tight = Refusing::new(heap, count);
        let answer = answer_of(&tight, heap, call);
        if !tight.has_refused() {
            return (count, answer);
        }
        if answer != Answer::NoMemory {
            return (count, Answer::Untold);
        }
    }
    (0, Answer::Untold)
}

/// A text of events, a source with numbers of both kinds, and one of a hundred symbols.
const EVENTS: &[u8] = b"step 2\nkey 301\nstep 1000\nswitches 17\nstep 5000";

const NUMBERS: &[u8] = b"DECIMAL;-10;OCTAL;10;300 5;1 2+1;$";

const SYMBOLS: &[u8] =
    b"AA=1;AB=1;AC=1;AD=1;AE=1;AF=1;AG=1;AH=1;AJ=1;AK=1\nBA=1;BB=1;BC=1;BD=1;BE=1;BF=1;BG=1;BH=1;BJ=1;BK=1\n\
    CA=1;CB=1;CC=1;CD=1;CE=1;CF=1;CG=1;CH=1;CJ=1;CK=1\nDA=1;DB=1;DC=1;DD=1;DE=1;DF=1;DG=1;DH=1;DJ=1;DK=1\n\
    EA=1;EB=1;EC=1;ED=1;EE=1;EF=1;EG=1;EH=1;EJ=1;EK=1\nFA=1;FB=1;FC=1;FD=1;FE=1;FF=1;FG=1;FH=1;FJ=1;FK=1\n\
    GA=1;GB=1;GC=1;GD=1;GE=1;GF=1;GG=1;GH=1;GJ=1;GK=1\nHA=1;HB=1;HC=1;HD=1;HE=1;HF=1;HG=1;HH=1;HJ=1;HK=1\n\
    JA=1;JB=1;JC=1;JD=1;JE=1;JF=1;JG=1;JH=1;JJ=1;JK=1\nKA=1;KB=1;KC=1;KD=1;KE=1;KF=1;KG=1;KH=1;KJ=1;KK=1\n";

/// Lines that end by a return with the eighth channel, by a rubout and by a line feed.
const LINE_ENDS: &[u8] = b"*200\x8d\xff\x8aHLT\x8d\xff\x8a$\x8d\xff\x8a";

/// A declaration of seven routines.
const SUBS: &[u8] =
    b"start 200\nmain 200\nsub 300 body 301 returns 0\nsub 400 body 401 returns 0 1\n\
    sub 402 body 403 returns 0\nsub 404 body 405 returns\nsub 406 body 407 returns 0\n\
    sub 410 body 411 returns 0\nsub 412 body 413 returns 0\n";

/// Calls that are done where they get memory, and how often they ask at least.
const DONE: [(Call<'static>, u64); 22] = [
    (Call::Events(EVENTS), 3),
    (Call::Statements(b"*10;TAD 20;$"), 4),
    (Call::Statements(b"A=5\nPAUSE\n"), 4),
    (Call::Statements(b"TA\xffD"), 4),
    (Call::Statements(LINE_ENDS), 4),
    (Call::Statements(HELLO), 4),
    (Call::Statements(SYMBOLS), 4),
    (Call::Source(&[NUMBERS]), 2),
    (Call::Source(&[b"A=5\nPAUSE\n", b"TAD A\n$\n"]), 2),
    (Call::Source(&[HELLO]), 2),
    (Call::Source(&[b"*200\x8dHLT\x8d$\x8d"]), 2),
    (Call::Source(&[LINE_ENDS]), 2),
    (Call::Source(&[SYMBOLS]), 2),
    (Call::Declaration(SUBS), 1),
    (Call::Certificate(HELLO_CERTIFICATE), 1),
    (Call::Pieces(HELLO_CERTIFICATE), 1),
    (Call::Certificate(SEVERAL), 1),
    (Call::Pieces(SEVERAL), 1),
    (Call::Certification, 2),
    (Call::Guess, 21),
    (Call::Watch, 2),
    (Call::Run, 1),
];

/// A declaration and a certificate with a fault behind what is kept of them.
const BAD_SUB: &[u8] = b"start 200\nmain 200\nsub 300 body 301 returns 0\nmain 8\nsub 1";

const UNENDED: &[u8] = b"PDP8-CERTIFICATE 1\nroutine 0214 rank 00 sites 0207 writes -\nend";

/// Calls that have a fault where they get memory, for which they ask once at least: sources with one of each code.
const FAULTY: [Call<'static>; 13] = [
    Call::Events(b"step\nsteps"),
    Call::Statements(b"?"),
    Call::Statements(b"X,1\nX,2\nA=1;A=2\n8 ?\n"),
    Call::Source(&[b"TAD 600"]),
    Call::Source(&[b"X,1\nX,2"]),
    Call::Source(&[b"A=1;A=2"]),
    Call::Source(&[b"TAD Q"]),
    Call::Source(&[b"8"]),
    Call::Source(&[b"10000"]),
    Call::Source(&[b"PAUSE"]),
    Call::Declaration(BAD_SUB),
    Call::Certificate(UNENDED),
    Call::Pieces(UNENDED),
];

#[test]
fn each_refusal_is_told(rt: HostRuntime) {
    for (row, (call, least)) in DONE.iter().enumerate() {
        let (count, answer) = in_turn(rt.alloc(), call);
        assert!(rt; answer == Answer::Done && count >= *least, "row {row}");
    }
    for (row, call) in FAULTY.iter().enumerate() {
        let (count, answer) = in_turn(rt.alloc(), call);
        assert!(rt; answer == Answer::Fault && count > 0, "row {row}");
    }
}

/// A line that is not a routine's.
const NO_ROUTINE: &[u8] = b"PDP8-CERTIFICATE 1\nroutine 0214 rank 00 sites 0207 writes - \nend\n";

/// Calls that ask for memory just so often, and how they end. A part has a token and a statement, and a line where a byte is not
/// ignored.
const COUNTED: [(Call<'static>, u64, Answer); 13] = [
    (Call::Events(b"\nbad"), 0, Answer::Fault),
    (Call::Events(b"step 1000000\nstep"), 1, Answer::Fault),
    (Call::Statements(b""), 2, Answer::Done),
    (Call::Statements(b"\n"), 3, Answer::Done),
    (Call::Source(&[]), 0, Answer::Fault),
    (Call::Declaration(b"start 1\nmain 1"), 0, Answer::Done),
    (Call::Declaration(b"sub 1"), 0, Answer::Fault),
    (Call::Pieces(b"PDP8-CERTIFICATE 1\nend\n"), 0, Answer::Done),
    (Call::Pieces(b"PDP8-CERTIFICATE 2\n"), 0, Answer::Fault),
    (Call::Pieces(b"PDP8-CERTIFICATE 3\nend\n"), 0, Answer::Done),
    (Call::Pieces(b"PDP8-CERTIFICATE 4\n"), 0, Answer::Fault),
    (Call::Pieces(b""), 0, Answer::Fault),
    (Call::Pieces(NO_ROUTINE), 0, Answer::Fault),
];

#[test]
fn nothing_is_asked_for_that_is_not_kept(rt: HostRuntime) {
    for (row, (call, count, wanted)) in COUNTED.iter().enumerate() {
        let told = in_turn(rt.alloc(), call);
        assert!(rt; told == (*count, *wanted), "row {row}");
    }
}

/// What is told of a declaration where it gets memory, if it asks for some, and each refusal is told.
fn told_of(heap: Global, text: &[u8]) -> Option<DeclarationFault> {
    let (count, answer) = in_turn(heap, &Call::Declaration(text));
    if count == 0 || answer == Answer::Untold {
        return None;
    }
    Declaration::parse(heap, text).err()
}

/// An entry that indirect references step, and one whose body is main's too.
const INDEX_SUB: &[u8] = b"start 200\nmain 200\nsub 10 body 300 returns 0\n";

const SHARED_SUB: &[u8] = b"start 200\nmain 200\nsub 300 body 200 returns 0\n";

#[test]
fn each_refusal_before_a_fault_of_routines_is_told(rt: HostRuntime) -> Result<(), Fail> {
    let index = DeclarationFault::EntryInAutoIndex(word(0o10));
    assert_eq!(rt; told_of(rt.alloc(), INDEX_SUB), Some(index));
    let overlap = DeclarationFault::Overlap(word(0o200));
    assert_eq!(rt; told_of(rt.alloc(), SHARED_SUB), Some(overlap));
    let mut text = Vec::new(rt.alloc());
    for _ in 0..65 {
        text.extend_from_slice(b"sub 300 body 301 returns 0\n")?;
    }
    let many = told_of(rt.alloc(), &text);
    assert_eq!(rt; many, Some(DeclarationFault::TooMany));
    Ok(())
}
