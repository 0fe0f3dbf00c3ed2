//! The waiters of an object.
//!
//! A wait queue has every waiter, by rising ticket, and perhaps goroutines that no longer wait there. An
//! entry counts only if its goroutine waits there with the entry's ticket.

ghost use Rattle.std.specs.Prelude.{◌≡◌, ◌<◌, ◌≤◌, ◌+◌, ◌++◌, ◌==◌, ◌&&◌, ℕ, List, false, true, Some, None, length};
ghost use Rattle.std.specs.Prelude.{option_map};
ghost use Rattle.golf_data.specs.declared.goroutine.Side.{Side};
ghost use Rattle.golf_theory.specs.Maps.{Entry, Rises, find, keys};
ghost use Rattle.golf_theory.specs.Membership.{is_in};
ghost use Rattle.golf_model.specs.Waiters.{same_side, wait_for, waiter_of, first};
ghost use Rattle.golf_model.specs.Views.{GoroutineView};
ghost use Rattle.golf_blocks.specs.Blocks.{entries_in};
ghost use Rattle.golf_model.specs.Changes.{moved, moved_waits};
ghost use Rattle.golf_state_goroutines.specs.Places.{plain_entry, plain_entries};
ghost use Rattle.golf_state_queues.specs.WaitQueues.{held, key, wait_queue_at, narrowed, standing, IsWithout};
ghost use Rattle.golf_state_queues.specs.WaitQueues.{KeepsWaiters};
ghost use Rattle.golf_state_queues.specs.WaitQueues.{TicketsBelow};
ghost use Rattle.golf_state.specs.Seen.{sooner, waiter_by};
ghost use Rattle.golf_state.specs.Left.{leaves_in, leaves_where};
ghost use Rattle.golf_state.specs.Enqueued.{HasWaiters, has_queue};
ghost use Rattle.golf_state.specs.Waited.{waiting_of};

use golf_base::{Boxed, GoroutineId, List, ObjectId};
use golf_blocks::Block;
use golf_data::{Goroutine, Mode, Side, Wait, Waits};
use golf_state_goroutines::Roster;
use golf_state_queues::{Queues, TicketHolder, side_number};

/// A goroutine that waits on an object, with its first wait there, and its ticket.
#[derive(Clone, Copy, Debug, PartialEq, Eq)]
pub struct Waiting {
    pub goroutine: GoroutineId,
    pub wait: Wait,
    pub ticket: u64,
}

/// Returns whether the wait queue has all goroutines that wait on that side. For mutexes this holds until
/// memory runs out for a place in a queue. That can happen in `requeue`, which makes a goroutine wait for a
/// mutex without its own turn.
#[inline(always)]
pub fn has_queue(are_mutexes_enqueued: bool, side: Side) -> bool
    ensures { result ≡ has_queue are_mutexes_enqueued side }
{
    match side {
        Side::Lock => are_mutexes_enqueued,
        Side::Receive | Side::Send | Side::Group | Side::Read | Side::Write | Side::Cond => true,
    }
}

// Whether a wait is for the object, with that side.
#[inline(always)]
fn fits(wait: &Wait, object: ObjectId, side: Side) -> bool
    ensures { result ≡ (wait.now.object.0 == object.0 && same_side wait.now.side side) }
{
    wait.object.0 == object.0 && side_number(wait.side) == side_number(side)
}

/// Returns the first of these waits that is on the object with that side, or `None`.
#[inline(always)]
pub fn wait_for(waits: &[Wait], object: ObjectId, side: Side) -> Option<Wait>
    ensures { result ≡ wait_for object.0 side waits.now }
{
    for wait in waits {
        if fits(wait, object, side) {
            return Some(*wait);
        }
    }
    None
}

// The goroutine at a place as a waiter, if it waits on the object with that side.
fn waiter_in(place: &(u32, Boxed<Goroutine>), object: ObjectId, side: Side) -> Option<Waiting>
    ensures { result ≡ option_map waiting_of (waiter_of object.0 side (plain_entry place.now)) }
{
    match &place.1.get().mode {
        Mode::Running => None,
        Mode::Blocked { waits, ticket, .. } => {
            let wait = wait_for(waits.as_slice(), object, side)?;
            Some(Waiting {
                goroutine: GoroutineId(place.0),
                wait,
                ticket: *ticket,
            })
        }
    }
}

// The waiter with the smaller ticket; the first one if both are equal.
fn sooner(seen: Option<Waiting>, other: Option<Waiting>) -> Option<Waiting>
    ensures { result ≡ sooner seen other }
{
    match (seen, other) {
        (None, _) => other,
        (Some(_), None) => seen,
        (Some(a), Some(b)) => { if b.ticket < a.ticket { other } else { seen } }
    }
}

/// Returns the goroutine of an entry as a waiter, if it waits on the object with that side and the entry's
/// ticket.
#[inline(always)]
pub fn waiter_by(
    holder: TicketHolder,
    roster: &Roster,
    object: ObjectId,
    side: Side,
) -> Option<Waiting>
    ensures { result ≡ option_map waiting_of (waiter_by object.0 side (plain_entries roster.now.places) (holder.ticket, holder.goroutine.0)) }
{
    match &roster.get(holder.goroutine.0)?.mode {
        Mode::Running => None,
        Mode::Blocked { waits, ticket, .. } => {
            if *ticket != holder.ticket {
                return None;
            }
            let wait = wait_for(waits.as_slice(), object, side)?;
            Some(Waiting {
                goroutine: holder.goroutine,
                wait,
                ticket: *ticket,
            })
        }
    }
}

/// Returns the first waiter of the object on this side, or `None`, by the wait queue there.
#[inline(always)]
pub fn first_in_queue(
    queue: &[TicketHolder],
    roster: &Roster,
    object: ObjectId,
    side: Side,
) -> Option<Waiting>
    requires rises { Rises 0 (plain_entries roster.now.places) }
    requires order { Rises 0 (held queue.now) }
    requires all { HasWaiters object.0 side (plain_entries roster.now.places) (held queue.now) }
    ensures { result ≡ option_map waiting_of (first object.0 side (plain_entries roster.now.places)) }
{
    for holder in queue {
        if !holder.is_gone {
            match waiter_by(*holder, roster, object, side) {
                Some(waiting) => return Some(waiting),
                None => {}
            }
        }
    }
    None
}

/// Removes a goroutine in this mode from the wait queues that it is in. All others keep their places.
#[inline(always)]
pub fn leave_queues(queues: &mut Queues, g: GoroutineId, mode: &Mode)
    ensures { IsWithout (leaves_in g.0 mode.now) queues.old queues.new }
{
    match mode {
        Mode::Running => {}
        Mode::Blocked { waits, ticket, .. } => queues.leave_all(waits.as_slice(), *ticket, g),
    }
}

/// Removes the goroutine of this number from the wait queues that it is in, if it is there. All others keep
/// their places.
pub fn forget(queues: &mut Queues, roster: &Roster, g: GoroutineId)
    ensures { IsWithout (leaves_where g.0 (find g.0 (plain_entries roster.now.places))) queues.old queues.new }
{
    if let Some(goroutine) = roster.get(g.0) {
        leave_queues(queues, g, &goroutine.mode);
    }
}

/// Removes the empty wait queues. If fewer goroutines are there than there were, it first removes the
/// entries of those that are gone. It takes no memory.
pub fn narrow_queues(queues: &mut Queues, roster: &Roster, were: usize)
    ensures fewer { length roster.now.places < were → queues.new ≡ standing (narrowed (keys (plain_entries roster.now.places)) queues.old) }
    ensures as_many { were ≤ length roster.now.places → queues.new ≡ standing queues.old }
    ensures kept { KeepsWaiters (λ t g. is_in g (keys (plain_entries roster.now.places)) ≡ true) queues.old queues.new }
    ensures below { (n : ℕ) → TicketsBelow n queues.old → TicketsBelow n queues.new }
{
    if roster.count() < were {
        queues.retain(roster);
    }
    queues.drop_empty();
}

// The waiter with the smallest ticket among the goroutines of the places and `later`, which comes after
// them.
fn first_of(
    places: &[(u32, Boxed<Goroutine>)],
    object: ObjectId,
    side: Side,
    later: Option<Waiting>,
) -> Option<Waiting>
    ensures { (rest : List (ℕ × GoroutineView)) → later ≡ option_map waiting_of (first object.0 side rest) → result ≡ option_map waiting_of (first object.0 side (plain_entries places.now ++ rest)) }
{
    let mut best = later;
    let mut at = places.len();
    while at > 0 {
        at -= 1;
        best = sooner(waiter_in(&places[at], object, side), best);
    }
    best
}

/// Returns the first waiter of the object on this side, or `None`. It looks at all goroutines.
pub fn first_waiter(
    blocks: &[Block<Boxed<Goroutine>>],
    object: ObjectId,
    side: Side,
) -> Option<Waiting>
    ensures { result ≡ option_map waiting_of (first object.0 side (plain_entries (entries_in blocks.now))) }
{
    let mut best = None;
    let mut at = blocks.len();
    while at > 0 {
        at -= 1;
        best = first_of(blocks[at].entries.as_slice(), object, side, best);
    }
    best
}

/// Puts the goroutine at the end of the wait queue of the mutex, with a ticket that no waiter there has.
/// Returns whether the queues of mutexes still have all waiters, which is not so if memory ran out.
pub fn enter_for_mutex(
    queues: &mut Queues,
    are_mutexes_enqueued: bool,
    mutex: ObjectId,
    ticket: u64,
    g: GoroutineId,
) -> bool
    requires { TicketsBelow (ticket + 1) queues.old }
    ensures still { result ≡ true → are_mutexes_enqueued ≡ true }
    ensures joins { result ≡ true → Entry (wait_queue_at (key mutex.0 Side.Lock) queues.new) ticket g.0 }
    ensures kept { KeepsWaiters (λ t h. t < ticket) queues.old queues.new }
    ensures below { TicketsBelow (ticket + 1) queues.new }
{
    match queues.enter(mutex, Side::Lock, ticket, g) {
        Ok(()) => are_mutexes_enqueued,
        Err(_) => false,
    }
}

// The first wait becomes a wait for the mutex, and the others are removed.
fn move_waits(waits: &mut Waits, mutex: ObjectId)
    ensures { waits.new ≡ moved_waits mutex.0 waits.old }
{
    if let Some(wait) = waits.as_slice().first().copied() {
        waits.replace_all(Wait {
            object: mutex,
            side: Side::Lock,
            value: wait.value,
            target: wait.target,
            with_ok: wait.with_ok,
        });
    }
}

/// Lets a blocked goroutine wait for the mutex from now on, with this ticket.
pub fn move_mode(mode: &mut Mode, mutex: ObjectId, with_ticket: u64)
    ensures { mode.new ≡ moved mutex.0 with_ticket mode.old }
{
    match mode {
        Mode::Running => {}
        Mode::Blocked { waits, ticket, .. } => {
            move_waits(waits, mutex);
            *ticket = with_ticket;
        }
    }
}
