//! The text of events.

ghost use Rattle.std.specs.Prelude.{◌≡◌, ◌≢◌, ◌⊎◌, ◌≤◌, ◌+◌, IfOk, IfErr, IsErrOf, OnOk, List, [], ◌∷◌, ◌++◌, length, replicate, vec_len};
ghost use Rattle.std.specs.Option.{option_map};
ghost use Rattle.peripherals.specs.declared.Event.{Event};
ghost use Rattle.peripherals.specs.declared.event_text.EventsFault.{EventsFault};
ghost use Rattle.peripherals.specs.declared.event_text.EventsFault.TheVariants.{NoMemory};
ghost use Rattle.peripherals.specs.declared.Event.TheVariants.{Step};
ghost use Rattle.streams.specs.Text.{decimal_between};
ghost use Rattle.peripherals.specs.EventText.{Spells, Fails, event_named, events_numbered, line_events, most_bytes, most_events};
ghost use Rattle.peripherals.specs.Repeated.{repeated, RefusesMore};

use crate::Event;
use std::alloc::Allocator;
use streams::taking::{LineTaker, take_lines};
use streams::text::{self, Words};
use thiserror::Error;

/// The most bytes of a text of events.
const MOST_BYTES: usize = 65_536;

/// The most events of a text, and of one line.
const MOST_EVENTS: u32 = 1_000_000;

/// Why a text of events is not read.
#[derive(Clone, Copy, PartialEq, Eq, Debug, Error)]
pub enum EventsFault {
    /// The line of this number, counted from 1, is none of the lines that there are.
    #[error("BadLine {0}")]
    BadLine(usize),
    /// The text has more than 65,536 bytes or more than 1,000,000 events.
    #[error("TooMany")]
    TooMany,
    /// A growth of the list was refused.
    #[error("NoMemory")]
    NoMemory,
}

/// One event, some times over.
#[derive(Clone, Copy)]
struct RepeatedEvent {
    event: Event,
    times: u32,
}

/// The events that a text lists, one line each: `step`, `step N` for so many steps (1 to 1000000,
/// decimal), `key OOO`, `printer`, `reader OOO`, `punch`, `switches OOOO` and `continue`, where a
/// byte is one to three octal digits up to 377 and a word one to four.
///
/// # Errors
///
/// `TooMany` first for a text of more than 65,536 bytes; then, by the first line at which one of
/// them is due, `BadLine` with the line's number, `TooMany` where the line brings more than
/// 1,000,000 events in all, or `NoMemory` where a growth was refused, in this order.
pub fn events<A: Allocator>(alloc: A, text: &[u8]) -> Result<Vec<Event, A>, EventsFault>
    ensures found { IfOk result (λ events. Spells text.now events.items) }
    ensures only { (events : List Event) → Spells text.now events
        → IfErr result (λ fault. fault ≡ NoMemory) }
    ensures refused { IfErr result (Fails text.now) }
    ensures exact { (fault : EventsFault) → Fails text.now fault → fault ≢ NoMemory
        → IsErrOf result fault ⊎ IsErrOf result NoMemory }
{
    if text.len() > MOST_BYTES {
        return Err(EventsFault::TooMany);
    }
    read_lines(alloc, text)
}

/// The events that a text lists which is not too long.
fn read_lines<A: Allocator>(alloc: A, text: &[u8]) -> Result<Vec<Event, A>, EventsFault>
    requires { length text.now ≤ most_bytes }
    ensures found { IfOk result (λ events. Spells text.now events.items) }
    ensures refused { IfErr result (Fails text.now) }
{
    let mut list = EventList {
        events: Vec::new(alloc),
    };
    match take_lines(&mut list, text) {
        Ok(()) => Ok(list.events),
        Err(fault) => Err(fault),
    }
}

/// The events of the lines so far.
#[derive(Drop)]
struct EventList<A: Allocator> {
    events: Vec<Event, A>,
}

impl<A: Allocator> EventList<A> {
    /// Appends an event some times over, where there are not too many then.
    fn append(&mut self, more: RepeatedEvent) -> Result<(), EventsFault>
        ensures appended { OnOk result
            (self.new.events.items ≡ self.old.events.items ++ repeated more) }
        ensures few { OnOk result (vec_len self.old.events + more.times ≤ most_events) }
        ensures refused { IfErr result (RefusesMore (vec_len self.old.events) more.times) }
    {
        let count = self.events.len().saturating_add(more.times as usize);
        if count > MOST_EVENTS as usize {
            return Err(EventsFault::TooMany);
        }
        self.events
            .resize(count, more.event)
            .map_err(|_| EventsFault::NoMemory)
    }
}

impl<A: Allocator> LineTaker for EventList<A> {
    ghost use Rattle.peripherals.specs.EventText.{LineFails};
    ghost use Rattle.peripherals.specs.Repeated.{Adds};

    type Fault = EventsFault;

    ghost takes = { λ old line new. Adds old.events.items line new.events.items };

    ghost refuses = { λ old number line fault _.
        LineFails old.events.items number line fault };

    fn take(&mut self, number: usize, line: &[u8]) -> Result<(), EventsFault> {
        match read_line(line) {
            Some(more) => self.append(more),
            None => Err(EventsFault::BadLine(number)),
        }
    }
}

/// The events of a line, if it is not bad.
fn read_line(line: &[u8]) -> Option<RepeatedEvent>
    ensures { option_map repeated result ≡ line_events line.now }
{
    let mut words = Words::of(line);
    let Some(name) = words.next() else {
        return Some(RepeatedEvent {
            event: Event::Step,
            times: 0,
        });
    };
    let Some(number) = words.next() else {
        return once(event_named(name));
    };
    match words.next() {
        None => events_numbered(name, number),
        Some(_) => None,
    }
}

/// One event, once.
fn once(event: Option<Event>) -> Option<RepeatedEvent>
    ensures { option_map repeated result ≡ option_map (λ e. e ∷ []) event }
{
    event.map(|event| RepeatedEvent { event, times: 1 })
}

/// The event of a line of one word.
fn event_named(name: &[u8]) -> Option<Event>
    ensures { result ≡ event_named name.now }
{
    if text::is(name, "step") {
        Some(Event::Step)
    } else if text::is(name, "printer") {
        Some(Event::PrinterDone)
    } else if text::is(name, "punch") {
        Some(Event::PunchDone)
    } else if text::is(name, "continue") {
        Some(Event::Continue)
    } else {
        None
    }
}

/// The events of a line of two words.
fn events_numbered(name: &[u8], number: &[u8]) -> Option<RepeatedEvent>
    ensures { option_map repeated result ≡ events_numbered name.now number.now }
{
    if text::is(name, "step") {
        steps(number)
    } else if text::is(name, "key") {
        once(text::octal_byte(number).map(Event::Key))
    } else if text::is(name, "reader") {
        once(text::octal_byte(number).map(Event::ReaderDone))
    } else if text::is(name, "switches") {
        once(text::octal_word(number).map(Event::Switches))
    } else {
        None
    }
}

/// So many steps, from 1 to 1000000.
fn steps(number: &[u8]) -> Option<RepeatedEvent>
    ensures { option_map repeated result
        ≡ option_map (λ n. replicate n Step) (decimal_between 1 most_events number.now) }
{
    let times = text::decimal_between(1, MOST_EVENTS, number)?;
    Some(RepeatedEvent {
        event: Event::Step,
        times,
    })
}
