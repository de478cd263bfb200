//! Exercises the machine and the tapes for as long as it is told, so that scripts can time it.
//!
//! `speed cpu ROUNDS` runs a loop of ISZ and JMP on the processor alone, `world ROUNDS` runs
//! it by events, a round being 33,558,529 instructions; `tapes TIMES` writes the fullest image and
//! reads it back; `facts TIMES` reads a certificate from standard input and works out the outcome of a TAD at
//! 0200 a thousand times so often, and asks whether it entails the fact at 0201; `judge TIMES
//! TAPE DECLARATION` reads a tape and a declaration of so many bytes and a certificate, one after
//! another from standard input, and judges them so often; `read TIMES` reads a certificate from standard
//! input so often; these print what came out, and no times.
//! `tape` writes the tape of that image to standard output. Without words
//! it does a little of the first three.
#![tactic(auto)]

mod judging;
mod knowing;
mod reading;

use bin_tape::{Image, read_tape, write_tape};
use certificate::Certificate;
use declaration::Declaration;
use instruct::Profile;
use peripherals::{Event, Panel, Seen, Start, World};
use processor::{Cpu, Outcome};
use std::alloc::Allocator;
use std::{env, io};
use streams::read_at_most;
use streams::standard::{StdReader, StdWriter};
use testing::memory::MemorySink;
use word12::Word;

/// Where the loop begins.
const START: u16 = 0o200;

/// The loop: three cells are incremented to 0, each of them once for 4096 times of the one before,
/// the last one from minus the rounds.
const LOOP: [(u16, u16); 8] = [
    (0o200, 0o7300), // CLA CLL
    (0o201, 0o2210), // ISZ 0210
    (0o202, 0o5201), // JMP 0201
    (0o203, 0o2211), // ISZ 0211
    (0o204, 0o5201), // JMP 0201
    (0o205, 0o2212), // ISZ 0212
    (0o206, 0o5201), // JMP 0201
    (0o207, 0o7402), // HLT
];

/// The cell that counts the rounds.
const ROUNDS: u16 = 0o212;

/// More steps than any number of rounds takes.
const MOST_STEPS: u64 = 1_000_000_000_000;

/// More bytes than any tape has.
const ROOM: usize = 65_536;

/// The word of a number, modulo 4096.
fn word(number: u16) -> Word {
    Word::from_index(usize::from(number % 4096))
}

/// A machine that is loaded with the loop.
fn loaded<A: Allocator + Copy>(alloc: A, rounds: u16) -> World<A> {
    let mut image = Image::empty();
    for (at, number) in LOOP {
        image.set(word(at), word(number));
    }
    image.set(word(ROUNDS), word(rounds).complement().increment());
    World::load(alloc, &image, word(START), &Start::zero(), Profile::Pdp8I)
}

/// Runs a processor beside idle devices until it halts, and counts the instructions.
#[inline(never)]
fn run_processor(cpu: &mut Cpu, panel: &mut Panel) -> u64 {
    let mut ran = 1u64;
    for _ in 0..MOST_STEPS {
        match cpu.step(panel) {
            Outcome::Ran => ran = ran.wrapping_add(1),
            Outcome::Halted | Outcome::Unsupported(_) => return ran,
        }
    }
    ran
}

/// Runs a world by events until it halts, and counts the instructions.
#[inline(never)]
fn run_world<A: Allocator>(world: &mut World<A>) -> u64 {
    let mut ran = 1u64;
    for _ in 0..MOST_STEPS {
        match world.apply(Event::Step) {
            Ok(Seen::Ran) => ran = ran.wrapping_add(1),
            _ => return ran,
        }
    }
    ran
}

/// Prints what a run came to.
fn report<R: Print>(rt: &R, name: &str, ran: u64, cpu: &Cpu) -> anyhow::Result<()> {
    let (pc, ac, link) = (cpu.pc, cpu.ac, cpu.link);
    let counted = cpu.memory.get(word(ROUNDS));
    println!(rt; "{name} instructions {ran} pc {pc} ac {ac} link {link} counted {counted}")?;
    Ok(())
}

fn time_processor<R: Print + AllocGlobal>(rt: &R, rounds: u16) -> anyhow::Result<()> {
    let world = loaded(rt.alloc(), rounds);
    let start = world.cpu();
    let mut cpu = Cpu {
        memory: start.memory.duplicate(),
        ac: start.ac,
        link: start.link,
        mq: start.mq,
        pc: start.pc,
        profile: start.profile,
    };
    let mut panel = Panel::IDLE;
    let ran = run_processor(&mut cpu, &mut panel);
    report(rt, "cpu", ran, &cpu)
}

fn time_world<R: Print + AllocGlobal>(rt: &R, rounds: u16) -> anyhow::Result<()> {
    let mut world = loaded(rt.alloc(), rounds);
    let ran = run_world(&mut world);
    report(rt, "world", ran, world.cpu())
}

/// An image with a word at each address.
fn fullest() -> Image {
    let mut image = Image::empty();
    for index in 0..4096 {
        let at = Word::from_index(index);
        image.set(at, at.complement());
    }
    image
}

/// Writes the fullest image and reads it back, so many times, and prints how often it came back.
fn time_tapes<R: Print + AllocGlobal>(rt: &R, times: u16) -> anyhow::Result<()> {
    let image = fullest();
    let mut same = 0u64;
    let mut frames = 0usize;
    for _ in 0..times {
        let mut sink = MemorySink::new(rt.alloc(), ROOM);
        write_tape(&image, &mut sink)?;
        frames = sink.bytes().len();
        if read_tape(sink.bytes())? == image {
            same = same.wrapping_add(1);
        }
    }
    println!(rt; "tapes frames {frames} times {times} same {same}")?;
    Ok(())
}

/// Writes the tape of the fullest image to standard output.
fn put_tape<R: Print>(rt: &R) -> anyhow::Result<()> {
    let mut out = StdWriter::new(io::writer(rt));
    write_tape(&fullest(), &mut out)?;
    Ok(())
}

/// More bytes than a tape, a declaration and a certificate have.
const MOST_INPUT: usize = 2_000_000;

/// A number among the words of the program; 0 where there is none.
fn number_at(words: &[String], at: usize) -> anyhow::Result<usize> {
    match words.get(at) {
        Some(number) => Ok(number.parse::<usize>()?),
        None => Ok(0),
    }
}

/// Judges what stands on standard input so many times, and prints how often the answer is yes.
fn time_judge(rt: &HostRuntime, times: u16, words: &[String]) -> anyhow::Result<()> {
    let mut source = StdReader::new(rt.reader());
    let bytes = read_at_most(rt.alloc(), &mut source, MOST_INPUT)?;
    let (tape, declaration) = (number_at(words, 3)?, number_at(words, 4)?);
    match judging::accepted_of(rt.alloc(), &bytes, tape, declaration, times)? {
        Some(accepted) => println!(rt; "judge times {times} accepted {accepted}")?,
        None => println!(rt; "judge without so many bytes")?,
    }
    Ok(())
}

/// Works out outcomes of the fact at 0200 of the certificate on standard input, and prints how many entail the one at 0201.
fn time_facts(rt: &HostRuntime, times: u16) -> anyhow::Result<()> {
    let mut source = StdReader::new(rt.reader());
    let bytes = read_at_most(rt.alloc(), &mut source, MOST_INPUT)?;
    let declared = Declaration::parse(rt.alloc(), b"start 200\nmain 200\nvar 10-110\n")?;
    let certificate = Certificate::parse(rt.alloc(), &bytes)?;
    let rounds = u32::from(times).wrapping_mul(1000);
    let image = Image::empty();
    let mut rooms = knowing::EntailmentWorkspace::boxed(rt.alloc())?;
    match knowing::entailed(&image, &declared, &certificate, rounds, &mut rooms) {
        Some(hits) => println!(rt; "facts outcomes {rounds} entailed {hits}")?,
        None => println!(rt; "facts without one at 0200 or 0201")?,
    }
    Ok(())
}

/// Reads the certificate on standard input so many times, and prints how often it is one.
fn time_read(rt: &HostRuntime, times: u16) -> anyhow::Result<()> {
    let mut source = StdReader::new(rt.reader());
    let bytes = read_at_most(rt.alloc(), &mut source, MOST_INPUT)?;
    let read = reading::read(rt.alloc(), &bytes, times);
    println!(rt; "read times {times} certificates {read}")?;
    Ok(())
}

fn main(rt: HostRuntime) -> anyhow::Result<()> {
    let words = env::args(&rt)?.collect::<Vec<String>>(rt.alloc())?;
    let number = match words.get(2) {
        Some(number) => number.parse::<u16>()?,
        None => 1,
    };
    match words.get(1).map(|word| word.as_str()) {
        Some("cpu") => time_processor(&rt, number),
        Some("world") => time_world(&rt, number),
        Some("tapes") => time_tapes(&rt, number),
        Some("facts") => time_facts(&rt, number),
        Some("judge") => time_judge(&rt, number, &words),
        Some("read") => time_read(&rt, number),
        Some("tape") => put_tape(&rt),
        _ => {
            time_processor(&rt, number)?;
            time_world(&rt, number)?;
            time_tapes(&rt, number)
        }
    }
}
