//! The operator: what happens at the desk, round by round.

ghost use Rattle.std.specs.Prelude.{◌≡◌, None, Some, IfSome, drop, map};
ghost use Rattle.peripherals.specs.Operator.{due, due_after, first_due, frame_due, key_due, left_after, plan_of, round_due, struck_as};
ghost use Rattle.peripherals.specs.World.{view, profile_of};
ghost use Rattle.peripherals.specs.Events.{completed};
ghost use Rattle.peripherals.specs.declared.Event.TheVariants.{Step, PunchDone};

use crate::{Event, World};
use std::alloc::Allocator;
use word12::Word;

/// What an operator does at a machine: sets the switches, has a tape in the reader and strikes keys.
///
/// The events come in rounds: an instruction is tried, the printer and the punch get done, the reader
/// gets its next frame if it waits for one, and the next key is struck if the keyboard's flag is
/// clear.
#[derive(Clone, Copy, Debug)]
pub struct Operator<'t> {
    switches: Option<Word>,
    rounds: u32,
    frames: &'t [u8],
    keys: &'t [u8],
    mark: bool,
    last: Option<Event>,
}

impl<'t> Operator<'t> {
    /// An operator who lets so many rounds happen, and has these frames in the reader and these keys
    /// to strike; with `mark` each key has channel 8 set.
    pub fn new(
        switches: Option<Word>,
        rounds: u32,
        frames: &'t [u8],
        keys: &'t [u8],
        mark: bool,
    ) -> Operator<'t>
        ensures plan { plan_of result ≡ record {
          switches = switches;
          rounds = rounds;
          frames = frames.now;
          keys = map (struck_as mark) keys.now;
        } }
        ensures first { result.last ≡ None }
    {
        Operator {
            switches,
            rounds,
            frames,
            keys,
            mark,
            last: None,
        }
    }

    /// A round, where one is left.
    fn round_due(&self) -> Option<Event>
        ensures { result ≡ round_due self.now.rounds }
    {
        if self.rounds == 0 {
            None
        } else {
            Some(Event::Step)
        }
    }

    /// A key, where the keyboard's flag is clear; else a round.
    fn key_due<A: Allocator>(&self, world: &World<A>) -> Option<Event>
        ensures { result ≡ key_due (plan_of self.now).keys self.now.rounds
            (view world.now).devices.keyboard.flag }
    {
        match self.keys.first() {
            Some(key) if !world.key_is_there() => Some(Event::Key(struck_as(*key, self.mark))),
            _ => self.round_due(),
        }
    }

    /// A frame, where the reader waits for one; else a key or a round.
    fn frame_due<A: Allocator>(&self, world: &World<A>) -> Option<Event>
        ensures { result ≡ frame_due (plan_of self.now) (view world.now) self.now.frames.now }
    {
        match self.frames.first() {
            Some(frame) if world.reader_waits() => Some(Event::ReaderDone(*frame)),
            _ => self.key_due(world),
        }
    }

    /// The first event.
    fn first_due(&self) -> Option<Event>
        ensures { result ≡ first_due (plan_of self.now) self.now.switches }
    {
        match self.switches {
            Some(word) => Some(Event::Switches(word)),
            None => self.round_due(),
        }
    }

    /// The event that is due.
    fn due<A: Allocator>(&self, world: &World<A>) -> Option<Event>
        ensures { result ≡ due (plan_of self.now) (view world.now) self.now.last }
    {
        match self.last {
            None => self.first_due(),
            Some(Event::Step) => Some(Event::PrinterDone),
            Some(Event::PrinterDone) => Some(Event::PunchDone),
            Some(Event::PunchDone) => self.frame_due(world),
            Some(Event::ReaderDone(_)) => self.key_due(world),
            Some(Event::Key(_) | Event::Switches(_) | Event::Continue) => self.round_due(),
        }
    }

    /// The event that is due in a world; none if a round would begin and none is left. What it uses up
    /// is gone then.
    pub fn next<A: Allocator>(&mut self, world: &World<A>) -> Option<Event>
        ensures due { result ≡ due (plan_of self.old) (view world.now) self.old.last }
        ensures left { IfSome result (λ e. plan_of self.new ≡ left_after e (plan_of self.old)) }
        ensures last { IfSome result (λ e. self.new.last ≡ Some e) }
        // Where nothing is due nothing changes.
        ensures idle { result ≡ None → self.new ≡ self.old }
    {
        let event = self.due(world)?;
        self.use_up(&event);
        self.last = Some(event);
        Some(event)
    }

    /// After an instruction two events are due whatever it did, and both happen: the printer gets done,
    /// and the punch.
    #[inline(always)]
    pub fn complete<A: Allocator>(&mut self, world: &mut World<A>)
        requires stepped { self.old.last ≡ Some Step }
        ensures done { view world.new ≡ completed (view world.old) }
        ensures profile { profile_of world.new ≡ profile_of world.old }
        ensures left { plan_of self.new ≡ plan_of self.old }
        ensures last { self.new.last ≡ Some PunchDone }
    {
        world.complete();
        self.last = Some(Event::PunchDone);
    }

    /// What an event uses up is gone.
    fn use_up(&mut self, event: &Event)
        ensures { plan_of self.new ≡ left_after event.now (plan_of self.old) }
    {
        match event {
            Event::Step => self.rounds = self.rounds.saturating_sub(1),
            Event::ReaderDone(_) => self.frames = rest_of(self.frames),
            Event::Key(_) => self.keys = rest_of(self.keys),
            _ => {}
        }
    }
}

/// What comes after the first byte.
fn rest_of(bytes: &[u8]) -> &[u8]
    ensures { result.now ≡ drop 1 bytes.now }
{
    match bytes.split_first() {
        Some((_, rest)) => rest,
        None => bytes,
    }
}

/// The byte of a key, on a teletype that sets channel 8 or does not.
fn struck_as(key: u8, mark: bool) -> u8
    ensures { result ≡ struck_as mark key }
{
    if mark { 128 + key % 128 } else { key }
}
