//! The wait queues of all objects.
//!
//! The invariant: the queues are in rising order of object and side, and the tickets of each rise.

ghost use Rattle.std.specs.Prelude.{◌≡◌, ◌<◌, ◌≤◌, ◌+◌, ℕ, [], ◌∷◌, ◌++◌, true, length, IfOk, OnOk, slice_get};
ghost use Rattle.golf_theory.specs.Maps.{keys, Entry, Rises, rank};
ghost use Rattle.golf_theory.specs.Membership.{is_in};
ghost use Rattle.golf_model.specs.Waiters.{side_number};
ghost use Rattle.golf_state_goroutines.specs.Places.{plain_entries};
ghost use Rattle.golf_state_queues.specs.Lines.{spots};
ghost use Rattle.golf_state_queues.specs.WaitQueues.{WaitQueues, IsInOrder, key, held, wait_queues_of, wait_queue_at};
ghost use Rattle.golf_state_queues.specs.WaitQueues.{has_key, keys_of, leaves, standing, narrowed, AddsOnly};
ghost use Rattle.golf_state_queues.specs.WaitQueues.{TicketsBelow};
ghost use Rattle.golf_state_queues.specs.WaitQueues.{IsWithout, KeepsWaiters, StandsInAll};

use crate::holders::{TicketHolder, has_anyone, join, part};
use crate::line::Line;
use golf_base::{GoroutineId, Memory, ObjectId};
use golf_data::{Side, Wait};
use golf_state_goroutines::Roster;
use std::alloc::Global;
use std::marker::Model;

/// The queue of an object with a side.
#[derive(Debug, Drop)]
pub struct Queue {
    pub object: ObjectId,
    pub side: Side,
    pub holders: Line,
}

/// The wait queues: for each object and side the goroutines that entered the queue there, by rising ticket.
/// Each goroutine that waits there is among them. A goroutine that no longer waits there may be among them
/// too.
///
/// A queue is first looked for where its key was last, and then by a binary search. The first goroutine that enters a queue makes it. It stays until a
/// collection finds it empty.
#[derive(Debug, Drop)]
pub struct Queues {
    queues: Vec<Queue>,
    // where a goroutine last entered a queue whose key has this remainder; the queue may be elsewhere now
    guesses: [usize; 64],
}

impl Model for Queues {
    ghost Value = { WaitQueues };

    ghost view = { λ q. wait_queues_of q.queues.items };

    ghost invariant = { λ q. IsInOrder (wait_queues_of q.queues.items) };
}

/// Returns the number of a side, which orders the queues of one object.
pub fn side_number(side: Side) -> u8
    ensures { result ≡ side_number side }
{
    match side {
        Side::Receive => 0,
        Side::Send => 1,
        Side::Lock => 2,
        Side::Group => 3,
        Side::Read => 4,
        Side::Write => 5,
        Side::Cond => 6,
    }
}

// The key of a queue: rising in the object, then in the side.
#[inline(always)]
fn key_of(object: ObjectId, side: Side) -> u64
    ensures { result ≡ key object.0 side }
{
    u64::from(object.0) * 7 + u64::from(side_number(side))
}

// How many queues come before the key.
#[inline(always)]
fn rank_of(queues: &[Queue], key: u64) -> usize
    requires { Rises 0 (wait_queues_of queues.now) }
    ensures place { result ≡ rank key (wait_queues_of queues.now) }
    ensures within { result ≤ length queues.now }
{
    queues.partition_point(|queue| key_of(queue.object, queue.side) < key)
}

// Whether the queue at a place has the key.
#[inline(always)]
fn stands_at(queues: &[Queue], at: usize, key: u64) -> bool
    ensures { result ≡ has_key key (slice_get (wait_queues_of queues.now) at) }
{
    match queues.get(at) {
        Some(queue) => key_of(queue.object, queue.side) == key,
        None => false,
    }
}

// The place of the key: at the guess if the queue is there, else found by a binary search.
#[inline(always)]
fn place_of(queues: &[Queue], guesses: &[usize; 64], key: u64) -> usize
    requires { Rises 0 (wait_queues_of queues.now) }
    ensures place { result ≡ rank key (wait_queues_of queues.now) }
    ensures within { result ≤ length queues.now }
{
    let guess = guesses[(key % 64) as usize];
    if stands_at(queues, guess, key) {
        return guess;
    }
    rank_of(queues, key)
}

// Keeps in each queue the waiters whose goroutine is in the roster.
fn narrow_all(queues: &mut Vec<Queue>, roster: &Roster)
    ensures { wait_queues_of queues.new.items ≡ narrowed (keys (plain_entries roster.now.places)) (wait_queues_of queues.old.items) }
{
    for at in 0..queues.len() {
        queues[at].holders.narrow(roster);
    }
}

// Adds copies of these queues after the others.
fn add_copies(to: &mut Vec<Queue>, alloc: Global, queues: &[Queue]) -> Result<(), Memory>
    ensures { OnOk result (wait_queues_of to.new.items ≡ wait_queues_of to.old.items ++ wait_queues_of queues.now) }
{
    for queue in queues {
        to.push(Queue {
            object: queue.object,
            side: queue.side,
            holders: queue.holders.copy(alloc)?,
        })?;
    }
    Ok(())
}

impl Queues {
    /// Returns the wait queues without any queue. It takes no memory.
    pub fn new(alloc: Global) -> Queues
        ensures { result ≡ [] }
    {
        Queues {
            queues: Vec::new(alloc),
            guesses: [0; 64],
        }
    }

    /// Returns a copy of the wait queues, which is equal.
    pub fn copy(&self, alloc: Global) -> Result<Queues, Memory>
        ensures { IfOk result (λ copy. copy ≡ self.now) }
    {
        let mut queues = Vec::with_capacity(alloc, self.queues.len())?;
        add_copies(&mut queues, alloc, self.queues.as_slice())?;
        Ok(Queues {
            queues,
            guesses: self.guesses,
        })
    }

    /// Returns the entries of the wait queue of the object with that side. Entries that are gone may be
    /// among them, which the caller skips.
    #[inline(always)]
    pub fn holders(&self, object: ObjectId, side: Side) -> &[TicketHolder]
        ensures holders { held result.now ≡ wait_queue_at (key object.0 side) self.now }
        ensures rises { Rises 0 (wait_queue_at (key object.0 side) self.now) }
        ensures order { Rises 0 (spots result.now) }
    {
        let key = key_of(object, side);
        let at = place_of(self.queues.as_slice(), &self.guesses, key);
        if stands_at(self.queues.as_slice(), at, key) {
            self.queues[at].holders.as_slice()
        } else {
            &[]
        }
    }

    /// Puts the goroutine at the end of the wait queue of the object with that side. No waiter in the queue
    /// has this ticket. On `Err` every waiter with a smaller ticket is still in its queue.
    #[inline(always)]
    pub fn enter(
        &mut self,
        object: ObjectId,
        side: Side,
        ticket: u64,
        goroutine: GoroutineId,
    ) -> Result<(), Memory>
        requires below { TicketsBelow (ticket + 1) self.old }
        ensures joins { OnOk result (Entry (wait_queue_at (key object.0 side) self.new) ticket goroutine.0) }
        ensures again { OnOk result (KeepsWaiters (λ t g. (t ≡ ticket) × (g ≡ goroutine.0)) self.old self.new) }
        ensures kept { KeepsWaiters (λ t g. t < ticket) self.old self.new }
        ensures only { AddsOnly ticket goroutine.0 (key object.0 side ∷ []) self.old self.new }
        ensures below { TicketsBelow (ticket + 1) self.new }
    {
        let key = key_of(object, side);
        let at = place_of(self.queues.as_slice(), &self.guesses, key);
        self.guesses[(key % 64) as usize] = at;
        if stands_at(self.queues.as_slice(), at, key) {
            return join(&mut self.queues[at].holders, ticket, goroutine);
        }
        let mut holders = Line::new(*self.queues.allocator());
        join(&mut holders, ticket, goroutine)?;
        self.queues.insert(
            at,
            Queue {
                object,
                side,
                holders,
            },
        )?;
        Ok(())
    }

    /// Puts the goroutine at the end of the wait queue of each of these waits. On `Err` every waiter with a
    /// smaller ticket is still in its queue.
    pub fn enter_all(
        &mut self,
        waits: &[Wait],
        ticket: u64,
        goroutine: GoroutineId,
    ) -> Result<(), Memory>
        requires below { TicketsBelow (ticket + 1) self.old }
        ensures joins { OnOk result (StandsInAll ticket goroutine.0 waits.now self.new) }
        ensures kept { KeepsWaiters (λ t g. t < ticket) self.old self.new }
        ensures only { AddsOnly ticket goroutine.0 (keys_of waits.now) self.old self.new }
        ensures below { TicketsBelow (ticket + 1) self.new }
    {
        for wait in waits {
            self.enter(wait.object, wait.side, ticket, goroutine)?;
        }
        Ok(())
    }

    /// Removes the goroutine with this ticket from the wait queue of the object with that side, if it is
    /// there. All others keep their places. It takes no memory.
    #[inline(always)]
    pub fn leave(&mut self, object: ObjectId, side: Side, ticket: u64, goroutine: GoroutineId)
        ensures { IsWithout (leaves ticket goroutine.0 (key object.0 side ∷ [])) self.old self.new }
    {
        let key = key_of(object, side);
        let at = place_of(self.queues.as_slice(), &self.guesses, key);
        if stands_at(self.queues.as_slice(), at, key) {
            part(&mut self.queues[at].holders, ticket, goroutine);
        }
    }

    /// Removes the goroutine with this ticket from each wait queue of these waits that it is in. All others
    /// keep their places. It takes no memory.
    pub fn leave_all(&mut self, waits: &[Wait], ticket: u64, goroutine: GoroutineId)
        ensures { IsWithout (leaves ticket goroutine.0 (keys_of waits.now)) self.old self.new }
    {
        for wait in waits {
            self.leave(wait.object, wait.side, ticket, goroutine);
        }
    }

    /// Keeps in each queue the waiters whose goroutine is in the roster. It takes no memory.
    pub fn retain(&mut self, roster: &Roster)
        ensures queues { self.new ≡ narrowed (keys (plain_entries roster.now.places)) self.old }
        ensures kept { KeepsWaiters (λ t g. is_in g (keys (plain_entries roster.now.places)) ≡ true) self.old self.new }
        ensures below { (n : ℕ) → TicketsBelow n self.old → TicketsBelow n self.new }
    {
        narrow_all(&mut self.queues, roster);
    }

    /// Removes the empty queues. It takes no memory.
    pub fn drop_empty(&mut self)
        ensures queues { self.new ≡ standing self.old }
        ensures kept { KeepsWaiters (λ t g. Unit {0}) self.old self.new }
        ensures below { (n : ℕ) → TicketsBelow n self.old → TicketsBelow n self.new }
    {
        self.queues
            .retain(|queue| has_anyone(queue.holders.as_slice()));
    }
}
