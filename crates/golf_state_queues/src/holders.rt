//! The entries of one wait queue, by rising ticket.
//!
//! An entry that is marked as gone keeps its ticket and its place, so the tickets still rise. `held` is
//! the list of the others: the goroutines that are in the queue.

ghost use Rattle.std.specs.Prelude.{◌≡◌, ◌<◌, ◌≤◌, ◌+◌, ◌-◌, ◌&&◌, false, true, not, drop, filter, length, slice_get, take};
ghost use Rattle.std.specs.Prelude.{IfSome, OnOk};
ghost use Rattle.golf_theory.specs.Maps.{keys, Entry, Rises, AllBelow, rank};
ghost use Rattle.golf_theory.specs.Membership.{is_in};
ghost use Rattle.golf_state_goroutines.specs.Places.{plain_entries};
ghost use Rattle.golf_state_queues.specs.Lines.{spots};
ghost use Rattle.golf_state_queues.specs.WaitQueues.{held, has_anyone, is_held_in, parted, AddsOnlyIn, KeepsIn};
ghost use Rattle.golf_state_queues.specs.WaitQueues.{IsLastBefore};

use crate::line::Line;
use golf_base::{GoroutineId, Memory};
use golf_state_goroutines::Roster;
use smallvec::SmallVec;

/// A goroutine that took a ticket.
#[derive(Clone, Copy, Debug)]
pub struct TicketHolder {
    pub ticket: u64,
    pub goroutine: GoroutineId,
    /// Whether it has left the queue.
    pub is_gone: bool,
}

impl TicketHolder {
    /// Returns the entry, marked as gone.
    pub fn gone(self) -> TicketHolder
        ensures { result ≡ record { ticket = self.ticket; goroutine = self.goroutine; is_gone = true } }
    {
        TicketHolder {
            ticket: self.ticket,
            goroutine: self.goroutine,
            is_gone: true,
        }
    }
}

impl Default for TicketHolder {
    // It fills a place that holds no entry.
    fn default() -> TicketHolder {
        TicketHolder {
            ticket: 0,
            goroutine: GoroutineId(0),
            is_gone: true,
        }
    }
}

// How many entries have a smaller ticket.
#[inline(always)]
fn rank_of(holders: &[TicketHolder], ticket: u64) -> usize
    requires { Rises 0 (spots holders.now) }
    ensures place { result ≡ rank ticket (spots holders.now) }
    ensures within { result ≤ length holders.now }
{
    holders.partition_point(|holder| holder.ticket < ticket)
}

/// Returns how many entries at the front are gone.
#[inline(always)]
pub fn start_of(holders: &[TicketHolder]) -> usize
    ensures within { result ≤ length holders.now }
    ensures same { held (drop result holders.now) ≡ held holders.now }
{
    let mut start = 0;
    while start < holders.len() && holders[start].is_gone {
        start += 1;
    }
    start
}

/// Returns the place behind the last entry that is not gone, or 0 if all are gone.
#[inline(always)]
pub fn end_of(holders: &[TicketHolder]) -> usize
    ensures within { result ≤ length holders.now }
    ensures same { held (take result holders.now) ≡ held holders.now }
    ensures last { 0 < result → IfSome (slice_get holders.now (result - 1)) (λ h. h.is_gone ≡ false) }
{
    let mut end = holders.len();
    while end > 0 && holders[end - 1].is_gone {
        end -= 1;
    }
    end
}

/// Puts the goroutine at the end of the queue. No waiter in the queue has this ticket. On `Err` every
/// waiter with a smaller ticket is still in the queue.
#[inline(always)]
pub fn join(holders: &mut Line, ticket: u64, goroutine: GoroutineId) -> Result<(), Memory>
    requires { Rises 0 (held holders.old) }
    ensures rises { Rises 0 (held holders.new) }
    ensures joins { OnOk result (Entry (held holders.new) ticket goroutine.0) }
    ensures kept { KeepsIn (λ t g. t < ticket) (held holders.old) (held holders.new) }
    ensures only { AddsOnlyIn ticket goroutine.0 (held holders.old) (held holders.new) }
    ensures below { AllBelow (ticket + 1) (held holders.new) }
{
    let at = rank_of(holders.as_slice(), ticket);
    holders.truncate(at);
    holders.push(TicketHolder {
        ticket,
        goroutine,
        is_gone: false,
    })?;
    Ok(())
}

// Whether the entry at a place is that goroutine with this ticket, and not gone.
#[inline(always)]
fn is_held_at(holders: &[TicketHolder], at: usize, ticket: u64, goroutine: GoroutineId) -> bool
    ensures { result ≡ is_held_in ticket goroutine.0 (slice_get holders.now at) }
{
    match holders.get(at) {
        Some(holder) => {
            !holder.is_gone && holder.goroutine.0 == goroutine.0 && holder.ticket == ticket
        }
        None => false,
    }
}

/// Removes the goroutine with this ticket from the queue, if it is there. All others keep their order.
#[inline(always)]
pub fn part(holders: &mut Line, ticket: u64, goroutine: GoroutineId)
    requires { Rises 0 (held holders.old) }
    ensures { held holders.new ≡ parted ticket goroutine.0 (held holders.old) }
{
    let at = rank_of(holders.as_slice(), ticket);
    if is_held_at(holders.as_slice(), at, ticket, goroutine) {
        holders.take_out(at);
    }
}

// Whether the goroutine is in the roster.
fn is_among(roster: &Roster, g: GoroutineId) -> bool
    ensures { result ≡ is_in g.0 (keys (plain_entries roster.now.places)) }
{
    roster.has(g.0)
}

/// Removes the first `count` entries from memory.
pub fn drop_front(holders: &mut SmallVec<TicketHolder, 1>, count: usize)
    requires { count ≤ length holders.old.items }
    ensures { holders.new.items ≡ drop count holders.old.items }
{
    let left = holders.len() - count;
    holders.as_mut_slice().rotate_left(count);
    holders.truncate(left);
}

/// Removes the entries that are marked as gone from memory.
pub fn drop_gone(holders: &mut SmallVec<TicketHolder, 1>)
    ensures { holders.new.items ≡ filter (λ h. not h.is_gone) holders.old.items }
{
    holders.retain(|holder| !holder.is_gone);
}

/// Keeps the entries whose goroutine is in the roster.
pub fn narrow(holders: &mut SmallVec<TicketHolder, 1>, roster: &Roster)
    ensures { holders.new.items ≡ filter (λ h. is_in h.goroutine.0 (keys (plain_entries roster.now.places))) holders.old.items }
{
    holders.retain(|holder| is_among(roster, holder.goroutine));
}

/// Returns the last waiter in the queue whose ticket is below this one, or `None`. It skips entries
/// that are gone.
pub fn last_before(holders: &[TicketHolder], ticket: u64) -> Option<TicketHolder>
    requires { Rises 0 (spots holders.now) }
    ensures { IsLastBefore ticket (held holders.now) result }
{
    let before = &holders[..rank_of(holders, ticket)];
    let end = end_of(before);
    if end == 0 {
        return None;
    }
    Some(before[end - 1])
}

/// Returns whether a goroutine is in the queue.
pub fn has_anyone(holders: &[TicketHolder]) -> bool
    ensures { result ≡ has_anyone (held holders.now) }
{
    end_of(holders) > 0
}
