//! Laws over the definitions alone. Each is the contract of a function that does nothing.

ghost use Rattle.peripherals.specs.Laws.{EachEventTextIsAnswered, EventsAreNoFault, EventsAreOne, EventsFaultIsOne, EventsLeadToOneWorld, IdleEventsChangeNothing, UnsupportedStepsChangeNothing};
ghost use Rattle.peripherals.specs.Runs.{EventsAreRuns};

/// Each list of events is a run of the instruction table, by some answers of the devices.
pub fn events_are_runs()
    ensures { EventsAreRuns }
{}

/// An event leads from a world to one world.
pub fn events_lead_to_one_world()
    ensures { EventsLeadToOneWorld }
{}

/// An event that is not enabled changes nothing, nor does a step at a word that is not supported.
pub fn idle_events_change_nothing()
    ensures idle { IdleEventsChangeNothing }
    ensures unsupported { UnsupportedStepsChangeNothing }
{}

/// Each text of events has one answer: it spells one list of events, or it has one fault, and not
/// both.
pub fn event_texts_have_one_answer()
    ensures events { EventsAreOne }
    ensures fault { EventsFaultIsOne }
    ensures either { EventsAreNoFault }
    ensures some { EachEventTextIsAnswered }
{}
