//! The events of a run, one after another.
//!
//! A collection that the run adds is an event of its own, after a turn.

ghost use Rattle.std.specs.Prelude.{◌≡◌, ◌+◌, ◌∷◌, ◌<◌, ◌≤◌, ℕ, [], false, MatchOption};
ghost use Rattle.golf_run_schedules.specs.Events.{event_of, events as events_of, events_left, is_due as is_due_of};
ghost use Rattle.golf_run_schedules.specs.Events.{turns_of, has_turn_next, EventsLeft, IsCalm};

use crate::schedule::Schedule;
use std::marker::Model;

/// The next event of a run.
#[derive(Clone, Copy, Debug, PartialEq, Eq)]
pub enum Event {
    /// A turn with this number of the schedule.
    Turn(u64),
    /// A collection that the run adds.
    Collect,
}

/// The events of a run that are still to come.
#[derive(Debug, Drop)]
pub struct Events {
    schedule: Schedule,
    turns: u32,
    done: u32,
    every: Option<u32>,
    is_collection_next: bool,
    // Up to the turn at this place, counted from 1, nothing but turns comes.
    calm: u32,
}

impl Model for Events {
    ghost Value = { EventsLeft };

    ghost view = { λ e. record { schedule = e.schedule; turns = e.turns; done = e.done; every = e.every; is_collection_next = e.is_collection_next } };

    ghost invariant = { λ e. IsCalm e.calm e.turns e.done e.every e.is_collection_next };
}

// Whether a collection is due after the turn at this place, counted from 1.
fn is_due(every: Option<u32>, turn: u32) -> bool
    ensures { result ≡ is_due_of every turn }
{
    match every {
        Some(n) => n != 0 && turn % n == 0,
        None => false,
    }
}

// The place of the last turn before the next added collection, or of the last turn at all.
fn calm_after(every: Option<u32>, done: u32, turns: u32) -> u32
    requires { done ≤ turns }
    ensures within { result ≤ turns }
    ensures calm { (k : ℕ) → done < k → k ≤ result → is_due_of every k ≡ false }
{
    match every {
        None | Some(0) => turns,
        Some(n) => {
            let ahead = n - 1 - done % n;
            if ahead < turns - done {
                done + ahead
            } else {
                turns
            }
        }
    }
}

impl Events {
    /// Returns the events of a run of `turns` turns, or of fewer if the schedule has fewer choices. With
    /// `every`, the run adds a collection after each turn whose place, from 1, is a multiple of `every`.
    pub fn new(schedule: Schedule, turns: u32, every: Option<u32>) -> Events
        ensures left { events_left result ≡ events_of schedule turns every }
        ensures none_done { result.done ≡ 0 }
    {
        Events {
            schedule,
            turns,
            done: 0,
            every,
            is_collection_next: false,
            calm: calm_after(every, 0, turns),
        }
    }

    /// Returns how many turns were given.
    pub fn turns_done(&self) -> u32
        ensures { result ≡ self.now.done }
    {
        self.done
    }

    /// Returns the number of the next turn, or `None` if a collection comes next, or nothing. Then nothing has changed.
    #[inline(always)]
    pub fn next_turn(&mut self) -> Option<u64>
        ensures { MatchOption result
            ((has_turn_next (events_left self.old) ≡ false) × (self.new ≡ self.old))
            (λ c. (events_left self.old ≡ event_of (Event.Turn c) ∷ events_left self.new) × (self.new.done ≡ self.old.done + 1)) }
    {
        if self.done < self.calm {
            let number = self.schedule.next_number(self.done)?;
            self.done += 1;
            return Some(number);
        }
        self.next_turn_of_all()
    }

    // The same, whatever comes after the turn.
    fn next_turn_of_all(&mut self) -> Option<u64>
        ensures { MatchOption result
            ((has_turn_next (events_left self.old) ≡ false) × (self.new ≡ self.old))
            (λ c. (events_left self.old ≡ event_of (Event.Turn c) ∷ events_left self.new) × (self.new.done ≡ self.old.done + 1)) }
    {
        if self.is_collection_next || self.done >= self.turns {
            return None;
        }
        let number = self.schedule.next_number(self.done)?;
        self.done += 1;
        self.is_collection_next = is_due(self.every, self.done);
        self.calm = if self.is_collection_next {
            0
        } else {
            calm_after(self.every, self.done, self.turns)
        };
        Some(number)
    }

    /// Returns the next event, or `None` if the turns or the choices are spent.
    pub fn next(&mut self) -> Option<Event>
        ensures { MatchOption result
            ((events_left self.old ≡ []) × (events_left self.new ≡ []) × (self.new.done ≡ self.old.done))
            (λ event. (events_left self.old ≡ event_of event ∷ events_left self.new) × (self.new.done ≡ self.old.done + turns_of event)) }
    {
        if self.is_collection_next {
            self.is_collection_next = false;
            return Some(Event::Collect);
        }
        match self.next_turn() {
            Some(number) => Some(Event::Turn(number)),
            None => None,
        }
    }
}
