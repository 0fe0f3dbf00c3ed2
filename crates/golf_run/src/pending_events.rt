//! The events of a run that are still to come, from which batches of turns take their numbers.

ghost use Rattle.std.specs.Prelude.{◌≡◌, false};
ghost use Rattle.golf_machine.specs.Batches.{is_turn_next};
ghost use Rattle.golf_run_schedules.specs.Events.{events_left};
ghost use Rattle.golf_run.specs.PendingEvents.{pending_left, HasTakenCollection};

use golf_machine::Numbers;
use golf_run_schedules::{Event, Events};

/// The events of a run that are still to come.
#[derive(Debug, Drop)]
pub(crate) struct PendingEvents {
    events: Events,
}

impl Numbers for PendingEvents {
    ghost left = { pending_left };

    ghost given = { λ pending. pending.events.done };

    #[inline(always)]
    fn next(&mut self) -> Option<u64> {
        self.events.next_turn()
    }
}

impl PendingEvents {
    /// Returns all of these events.
    pub fn new(events: Events) -> PendingEvents
        ensures left { pending_left result ≡ events_left events }
        ensures done { result.events.done ≡ events.done }
    {
        PendingEvents { events }
    }

    /// Returns how many turns were given.
    pub fn turns_done(&self) -> u32
        ensures { result ≡ self.now.events.done }
    {
        self.events.turns_done()
    }

    /// Takes the collection that comes next. Returns false if no event is left.
    pub fn take_collection(&mut self) -> bool
        requires { is_turn_next (pending_left self.old) ≡ false }
        ensures left { HasTakenCollection result (pending_left self.old) (pending_left self.new) }
        ensures done { self.new.events.done ≡ self.old.events.done }
    {
        match self.events.next() {
            Some(Event::Collect) => true,
            Some(Event::Turn(_)) => unreachable!(),
            None => false,
        }
    }
}
