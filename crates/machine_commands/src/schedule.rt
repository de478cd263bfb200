//! What comes in a run: which event is due next.

ghost use Rattle.std.specs.Prelude.{ℕ, ◌≡◌, ◌+◌, ◌++◌, ◌<◌, ◌≤◌, Bool, true, false, not, None, Ok, List, [], ◌∷◌, IfOk, IfErr, IfSome, OnOk, is_err};
ghost use Rattle.instruct.specs.declared.Profile.{Profile};
ghost use Rattle.peripherals.specs.declared.Event.{Event};
ghost use Rattle.peripherals.specs.declared.Event.TheVariants.{Step, PrinterDone, PunchDone};
ghost use Rattle.peripherals.specs.Devices.{WorldState};
ghost use Rattle.peripherals.specs.Events.{completed};
ghost use Rattle.peripherals.specs.Operator.{plan_of};
ghost use Rattle.peripherals.specs.World.{view, profile_of};
ghost use Rattle.command_parts.specs.declared.status.Fault.TheVariants.{Device};
ghost use Rattle.command_parts.specs.declared.status.DeviceFault.TheVariants.{Read};
ghost use Rattle.machine_commands.specs.Follows.{goes_on};
ghost use Rattle.machine_commands.specs.Schedule.{Extent, ToStep};
ghost use Rattle.machine_commands.specs.SessionParts.{IsNext, steps_in};

use command_parts::status::Fault;
use peripherals::{Event, NoMemory, Operator, Seen, World};
use std::alloc::Allocator;

/// Says which event is due next.
pub(crate) trait Scheduler {
    /// These events come from here on in a world, all of them or the first ones.
    ghost brings: { Self → Profile → WorldState → Extent → List Event → Type 0 };

    /// How many events may come at most.
    ghost events_to_come: { Self → ℕ };

    /// How many instructions may come at most.
    ghost steps_to_come: { Self → ℕ };

    /// Whether a read of a frame or of a key failed.
    ghost unread: { Self → Bool };

    /// Whether the last event was an instruction.
    ghost stepped: { Self → Bool };

    /// The event that is due in a world, which counts as having come; none if the run is over.
    ///
    /// # Errors
    ///
    /// `Device` where a frame or a key was due and a read of it failed.
    fn next_event<A: Allocator>(&mut self, world: &World<A>) -> Result<Option<Event>, Fault>
        requires { unread self.old ≡ false }
        ensures over { result ≡ Ok None →
            (p : Profile) (extent : Extent) → brings self.old p (view world.now) extent [] }
        ensures due { IfOk result (λ due.
            IfSome due (IsNext brings self.old self.new (view world.now))) }
        ensures to_step { IfOk result (λ due. IfSome due (λ e. e ≡ Step →
            (p : Profile) → brings self.old p (view world.now) ToStep (Step ∷ []))) }
        ensures fewer { IfOk result (λ due. IfSome due (λ e. events_to_come self.new < events_to_come self.old)) }
        ensures steps { IfOk result (λ due.
            IfSome due (λ e. steps_in e + steps_to_come self.new ≤ steps_to_come self.old)) }
        ensures stepped { IfOk result (λ due.
            IfSome due (λ e. e ≡ Step → stepped self.new ≡ true)) }
        ensures faults { IfErr result (λ fault. fault ≡ Device Read) }
        ensures marks { unread self.new ≡ is_err result };

    /// After an instruction two events are due whatever it did, and both happen: the printer gets done,
    /// and the punch.
    fn complete_devices<A: Allocator>(&mut self, world: &mut World<A>)
        requires stepped { stepped self.old ≡ true }
        ensures done { view world.new ≡ completed (view world.old) }
        ensures profile { profile_of world.new ≡ profile_of world.old }
        ensures brings { (p : Profile) (extent : Extent) (es : List Event) →
            brings self.new p (completed (view world.old)) extent es →
            brings self.old p (view world.old) extent (PrinterDone ∷ PunchDone ∷ es) }
        ensures left { events_to_come self.new ≤ events_to_come self.old }
        ensures steps { steps_to_come self.new ≡ steps_to_come self.old }
        ensures marks { unread self.new ≡ unread self.old };
}

impl Scheduler for Operator<'_> {
    ghost use Rattle.peripherals.specs.Operator.{plan_of};
    ghost use Rattle.machine_commands.specs.Schedule.{Comes, operating};
    ghost use Rattle.machine_commands.specs.SessionParts.{events_left, has_stepped, place_of};

    ghost brings = { λ o p w extent events. Comes operating p extent (place_of o) w events };

    ghost events_to_come = { λ o. events_left (plan_of o) o.last };

    ghost steps_to_come = { λ o. o.rounds };

    ghost unread = { λ o. false };

    ghost stepped = { λ o. has_stepped o.last };

    fn next_event<A: Allocator>(&mut self, world: &World<A>) -> Result<Option<Event>, Fault> {
        Ok(self.next(world))
    }

    #[inline(always)]
    fn complete_devices<A: Allocator>(&mut self, world: &mut World<A>) {
        self.complete(world);
    }
}

/// Adds an event.
pub(crate) fn keep<A: Allocator>(events: &mut Vec<Event, A>, event: &Event) -> Result<(), NoMemory>
    ensures { OnOk result (events.new.items ≡ events.old.items ++ event.now ∷ []) }
{
    events.push(*event).map_err(|_| NoMemory)
}

/// Whether a run ends with what was seen: at a halt and at an unsupported word.
pub(crate) fn ends(seen: &Seen) -> bool
    ensures { result ≡ not (goes_on true seen.now) }
{
    matches!(seen, Seen::Halted | Seen::Unsupported(_))
}
