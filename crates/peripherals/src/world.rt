//! The world: the machine with its devices, driven by events.

ghost use Rattle.std.specs.Prelude.{ℕ, ◌≡◌, ◌<◌, None, IsTrue, IfOk, OnOk, OnErr, ◌||◌, []};
ghost use Rattle.processor.specs.Cells.{cell_of, AreWords};
ghost use Rattle.processor.specs.Fetch.{fetched};
ghost use Rattle.processor.specs.Steps.{state_of};
ghost use Rattle.peripherals.specs.declared.Event.{Event};
ghost use Rattle.peripherals.specs.Events.{Happens, IsLoaded, completed};
ghost use Rattle.peripherals.specs.Loading.{image_of, laid, loaded};
ghost use Rattle.peripherals.specs.EventOutcomes.{seen_of, puts_out};
ghost use Rattle.peripherals.specs.World.{view, profile_of, devices_of, prints, punches, does_print, does_punch, put_out};

use crate::devices::{Keyboard, Panel};
use crate::{Event, NoMemory, Seen, Start};
use bin_tape::Image;
use instruct::{DeviceOperation, Profile};
use processor::{Cpu, DecodedInstruction, Memory, Outcome};
use std::alloc::Allocator;
use word12::{Link, Word};

/// A machine with its teletype, its high-speed reader and punch, and its switches.
///
/// Contracts see it as `view` shows it: the state of the machine, the devices with all that they
/// have put out, and where the machine is halted.
#[derive(Drop)]
pub struct World<A: Allocator> {
    cpu: Cpu,
    panel: Panel,
    printed: Vec<u8, A>,
    punched: Vec<u8, A>,
    halted_at: Option<Word>,
}

/// The words of an image laid over a memory.
fn lay(image: &Image, start: &Memory) -> Memory
    ensures laid { cell_of result ≡ laid (image_of image.now) (cell_of start.now) }
    ensures words { AreWords (cell_of result) }
{
    let mut memory = start.duplicate();
    for index in 0..4096 {
        let at = Word::from_index(index);
        if let Some(word) = image.get(at) {
            memory.set(at, word);
        }
    }
    memory.are_words();
    memory
}

/// Shows that registers hold words.
fn are_registers(ac: Word, link: Link, mq: Word)
    ensures ac { ac < 4096 }
    ensures link { link < 2 }
    ensures mq { mq < 4096 }
{}

/// Puts out what an instruction prints or punches.
#[inline(always)]
fn put_out<A: Allocator>(
    printed: &mut Vec<u8, A>,
    punched: &mut Vec<u8, A>,
    instruction: &DecodedInstruction,
    ac: Word,
) -> Result<(), NoMemory>
    ensures printed { OnOk result
        (printed.new.items ≡ put_out (does_print instruction.now) ac printed.old.items) }
    ensures punched { OnOk result
        (punched.new.items ≡ put_out (does_punch instruction.now) ac punched.old.items) }
    ensures printed_kept { OnErr result (printed.new.items ≡ printed.old.items) }
    ensures punched_kept { OnErr result (punched.new.items ≡ punched.old.items) }
    ensures only { OnErr result (IsTrue (does_print instruction.now || does_punch instruction.now)) }
{
    match instruction {
        DecodedInstruction::Device(word) => put_out_by(printed, punched, *word, ac),
        _ => Ok(()),
    }
}

/// Puts out what a device word prints or punches.
fn put_out_by<A: Allocator>(
    printed: &mut Vec<u8, A>,
    punched: &mut Vec<u8, A>,
    word: Word,
    ac: Word,
) -> Result<(), NoMemory>
    ensures printed { OnOk result
        (printed.new.items ≡ put_out (prints word) ac printed.old.items) }
    ensures punched { OnOk result
        (punched.new.items ≡ put_out (punches word) ac punched.old.items) }
    ensures printed_kept { OnErr result (printed.new.items ≡ printed.old.items) }
    ensures punched_kept { OnErr result (punched.new.items ≡ punched.old.items) }
    ensures only { OnErr result (IsTrue (prints word || punches word)) }
{
    let byte = ac.low_byte();
    match DeviceOperation::of(word, Profile::Pdp8E) {
        Some(DeviceOperation::Print | DeviceOperation::ClearPrinterFlagAndPrint) => {
            printed.push(byte).map_err(|_| NoMemory)
        }
        Some(DeviceOperation::Punch | DeviceOperation::ClearPunchFlagAndPunch) => {
            punched.push(byte).map_err(|_| NoMemory)
        }
        _ => Ok(()),
    }
}

impl<A: Allocator> World<A> {
    /// A machine that is loaded with a tape: the image is laid over the start's memory, all flags
    /// are clear, the buffers and the switches are 0, nothing is under way, and the machine runs at
    /// an address. It takes no memory; the allocator is kept for what is printed and punched.
    pub fn load(alloc: A, image: &Image, pc: Word, start: &Start, profile: Profile) -> World<A>
    where
        A: Copy,
        ensures view { view result ≡ loaded (image_of image.now) pc start.now }
        // The instruction table's runs begin there.
        ensures start { IsLoaded (image_of image.now) pc (view result) }
        ensures profile { profile_of result ≡ profile }
    {
        are_registers(start.ac, start.link, start.mq);
        World {
            cpu: Cpu {
                memory: lay(image, &start.memory),
                ac: start.ac,
                link: start.link,
                mq: start.mq,
                pc,
                profile,
            },
            panel: Panel::IDLE,
            printed: Vec::new(alloc),
            punched: Vec::new(alloc),
            halted_at: None,
        }
    }

    /// A world of these parts, which has put out nothing. It takes no memory; the allocator is kept for
    /// what is printed and punched.
    pub fn of(alloc: A, cpu: Cpu, panel: Panel, halted_at: Option<Word>) -> World<A>
    where
        A: Copy,
        ensures state { (view result).state ≡ state_of cpu }
        ensures devices { (view result).devices ≡ devices_of panel [] [] }
        ensures halted { (view result).halted_at ≡ halted_at }
        ensures profile { profile_of result ≡ cpu.profile }
    {
        World {
            cpu,
            panel,
            printed: Vec::new(alloc),
            punched: Vec::new(alloc),
            halted_at,
        }
    }

    /// The devices, apart from what they have put out, and the switches.
    pub fn panel(&self) -> Panel
        ensures { let devices = (view self.now).devices in
            devices ≡ devices_of result devices.printer.output devices.punch.output }
    {
        self.panel
    }

    /// The processor, with its memory.
    pub fn cpu(&self) -> &Cpu
        ensures state { state_of result.now ≡ (view self.now).state }
        ensures profile { result.now.profile ≡ profile_of self.now }
    {
        &self.cpu
    }

    /// All bytes that were printed, in order.
    pub fn printed(&self) -> &[u8]
        ensures { result.now ≡ (view self.now).devices.printer.output }
    {
        &self.printed
    }

    /// All bytes that were punched, in order.
    pub fn punched(&self) -> &[u8]
        ensures { result.now ≡ (view self.now).devices.punch.output }
    {
        &self.punched
    }

    /// The address of the HLT at which the machine is halted; none while it runs.
    pub fn halted_at(&self) -> Option<Word>
        ensures { result ≡ (view self.now).halted_at }
    {
        self.halted_at
    }

    /// The reader waits for a frame.
    pub(crate) fn reader_waits(&self) -> bool
        ensures { result ≡ (view self.now).devices.reader.fetching }
    {
        self.panel.reader.fetching
    }

    /// A key was struck and has not been taken.
    pub(crate) fn key_is_there(&self) -> bool
        ensures { result ≡ (view self.now).devices.keyboard.flag }
    {
        self.panel.keyboard.flag
    }

    /// The printer and the punch get done.
    #[inline(always)]
    pub(crate) fn complete(&mut self)
        ensures done { view self.new ≡ completed (view self.old) }
        ensures profile { profile_of self.new ≡ profile_of self.old }
    {
        let _printed = self.panel.printer.finish();
        let _punched = self.panel.punch.finish();
    }

    /// Tries the instruction at the program counter of a machine that runs, as the processor fetches it.
    /// It does what `apply` does at a step.
    ///
    /// # Errors
    ///
    /// `NoMemory` as `apply`.
    #[inline(always)]
    pub fn step(&mut self, instruction: &DecodedInstruction) -> Result<Seen, NoMemory>
        requires runs { (view self.old).halted_at ≡ None }
        requires fetched { instruction.now ≡ fetched (profile_of self.old) (view self.old).state }
        ensures happens { OnOk result
            (Happens (profile_of self.old) (view self.old) Event.Step (view self.new)) }
        ensures seen { IfOk result (λ seen.
            seen ≡ seen_of (profile_of self.old) (view self.old) Event.Step) }
        ensures profile { profile_of self.new ≡ profile_of self.old }
        ensures unchanged { OnErr result (view self.new ≡ view self.old) }
        ensures only_output { OnErr result (IsTrue (puts_out (view self.old) Event.Step)) }
    {
        let at = self.cpu.pc;
        put_out(
            &mut self.printed,
            &mut self.punched,
            instruction,
            self.cpu.ac,
        )?;
        match self.cpu.execute(instruction, &mut self.panel) {
            Outcome::Ran => Ok(Seen::Ran),
            Outcome::Halted => {
                self.halted_at = Some(at);
                Ok(Seen::Halted)
            }
            Outcome::Unsupported(word) => Ok(Seen::Unsupported(word)),
        }
    }

    /// Applies one event.
    ///
    /// An event that is not enabled changes nothing. `Seen` tells what was done.
    ///
    /// # Errors
    ///
    /// `NoMemory` where the room for a byte that is printed or punched was refused; the world is
    /// then as it was, and the same step may be tried again.
    #[inline(always)]
    pub fn apply(&mut self, event: Event) -> Result<Seen, NoMemory>
        ensures happens { OnOk result
            (Happens (profile_of self.old) (view self.old) event (view self.new)) }
        ensures seen { IfOk result (λ seen.
            seen ≡ seen_of (profile_of self.old) (view self.old) event) }
        ensures profile { profile_of self.new ≡ profile_of self.old }
        ensures unchanged { OnErr result (view self.new ≡ view self.old) }
        // Only a step that prints or punches can be refused.
        ensures only_output { OnErr result (IsTrue (puts_out (view self.old) event)) }
    {
        match event {
            Event::Step if self.halted_at.is_none() => {
                let instruction = self.cpu.fetch();
                self.step(&instruction)
            }
            Event::Step => Ok(Seen::NotEnabled),
            Event::Key(byte) => {
                self.panel.keyboard = Keyboard {
                    flag: true,
                    buffer: byte,
                };
                Ok(Seen::Changed)
            }
            Event::PrinterDone => Ok(self.panel.printer.finish()),
            Event::ReaderDone(byte) => Ok(self.panel.reader.receive(byte)),
            Event::PunchDone => Ok(self.panel.punch.finish()),
            Event::Switches(word) => {
                self.panel.switches = word;
                Ok(Seen::Changed)
            }
            Event::Continue if self.halted_at.is_none() => Ok(Seen::NotEnabled),
            Event::Continue => {
                self.halted_at = None;
                Ok(Seen::Changed)
            }
        }
    }
}
