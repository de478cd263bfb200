//! The events of a run as they are kept, and their text.

use peripherals::{Event, NoMemory};
use std::alloc::Allocator;
use std::fmt::Write;

/// Some steps, and then an event that is no step.
#[derive(Clone, Copy)]
pub(crate) struct ScriptPart {
    pub(crate) steps: u32,
    pub(crate) event: Event,
}

/// Events in order, in which steps in a row are counted.
#[derive(Drop)]
pub(crate) struct Script<A: Allocator> {
    parts: Vec<ScriptPart, A>,
    /// The steps behind all parts.
    steps: u32,
}

/// How much a script has.
#[derive(Clone, Copy)]
pub(crate) struct ScriptLength {
    /// Its events.
    pub(crate) events: u32,
    /// The bytes of its text without the steps behind the last other event, or a few more.
    pub(crate) bytes: u32,
}

impl ScriptLength {
    /// Nothing.
    pub(crate) const NONE: ScriptLength = ScriptLength {
        events: 0,
        bytes: 0,
    };

    /// One more step.
    pub(crate) fn step(&mut self) {
        self.events = self.events.saturating_add(1);
    }

    /// One more event that is no step, behind so many steps, which were counted.
    pub(crate) fn add(&mut self, steps: u32, event: &Event) {
        self.events = self.events.saturating_add(1);
        let bytes = bytes_of_steps(steps).saturating_add(bytes_of(event));
        self.bytes = self.bytes.saturating_add(bytes);
    }

    /// Whether a script that is no longer than this has a text that is read again.
    pub(crate) fn is_short(&self) -> bool {
        self.events < MOST_EVENTS && self.bytes < MOST_BYTES
    }
}

/// Fewer bytes than are read of a text of events.
const MOST_BYTES: u32 = 65_000;

/// Fewer events than are read of a text.
const MOST_EVENTS: u32 = 990_000;

/// The bytes of the line of so many steps, or a few more.
fn bytes_of_steps(steps: u32) -> u32 {
    match steps {
        0 => 0,
        1..=9 => 7,
        10..=99 => 8,
        100..=999 => 9,
        _ => 13,
    }
}

/// The bytes of the line of an event.
fn bytes_of(event: &Event) -> u32 {
    match event {
        Event::Step => 5,
        Event::PunchDone => 6,
        Event::Key(_) | Event::PrinterDone => 8,
        Event::Continue => 9,
        Event::ReaderDone(_) => 11,
        Event::Switches(_) => 14,
    }
}

impl<A: Allocator> Script<A> {
    /// No event.
    pub(crate) fn new(alloc: A) -> Script<A> {
        Script {
            parts: Vec::new(alloc),
            steps: 0,
        }
    }

    /// All parts, without the steps after them.
    pub(crate) fn parts(&self) -> &[ScriptPart] {
        &self.parts
    }

    /// The steps behind all parts.
    pub(crate) fn last_steps(&self) -> u32 {
        self.steps
    }

    /// Adds a step.
    pub(crate) fn add_step(&mut self) {
        self.add_steps(1);
    }

    /// Adds so many steps.
    pub(crate) fn add_steps(&mut self, steps: u32) {
        self.steps = self.steps.saturating_add(steps);
    }

    /// Adds an event that is no step.
    pub(crate) fn add(&mut self, event: &Event) -> Result<(), NoMemory> {
        let part = ScriptPart {
            steps: self.steps,
            event: *event,
        };
        let Ok(()) = self.parts.push(part) else {
            return Err(NoMemory);
        };
        self.steps = 0;
        Ok(())
    }

    /// Adds all events of another script.
    pub(crate) fn append(&mut self, more: &Script<A>) -> Result<(), NoMemory> {
        for part in &more.parts {
            let steps = self.steps.saturating_add(part.steps);
            let event = part.event;
            let Ok(()) = self.parts.push(ScriptPart { steps, event }) else {
                return Err(NoMemory);
            };
            self.steps = 0;
        }
        self.steps = self.steps.saturating_add(more.steps);
        Ok(())
    }

    /// The text of the events.
    pub(crate) fn text(&self, alloc: A) -> Result<Vec<u8, A>, NoMemory> {
        let mut text = String::new(alloc);
        for part in &self.parts {
            write_steps(&mut text, part.steps)?;
            write_event(&mut text, part.event)?;
        }
        write_steps(&mut text, self.steps)?;
        Ok(text.into_bytes())
    }
}

/// Writes the line of some steps in a row, if there are any.
fn write_steps<A: Allocator>(text: &mut String<A>, steps: u32) -> Result<(), NoMemory> {
    match steps {
        0 => Ok(()),
        1 => writeln!(text, "step").map_err(|_| NoMemory),
        _ => writeln!(text, "step {steps}").map_err(|_| NoMemory),
    }
}

/// Writes the line of an event.
fn write_event<A: Allocator>(text: &mut String<A>, event: Event) -> Result<(), NoMemory> {
    let written = match event {
        Event::Step => writeln!(text, "step"),
        Event::Key(byte) => writeln!(text, "key {byte:03o}"),
        Event::PrinterDone => writeln!(text, "printer"),
        Event::ReaderDone(byte) => writeln!(text, "reader {byte:03o}"),
        Event::PunchDone => writeln!(text, "punch"),
        Event::Switches(word) => {
            let value = word.value();
            writeln!(text, "switches {value:04o}")
        }
        Event::Continue => writeln!(text, "continue"),
    };
    written.map_err(|_| NoMemory)
}
