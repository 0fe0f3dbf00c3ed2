//! A wait queue in memory.
//!
//! The invariant: the tickets rise, also those of entries that are marked as gone.

ghost use Rattle.std.specs.Prelude.{◌≡◌, ◌<◌, ◌≤◌, [], ◌∷◌, ◌++◌, ◌-◌, drop, length, remove, slice_set, take, IfOk, OnOk};
ghost use Rattle.std.specs.Prelude.{OnErr};
ghost use Rattle.golf_theory.specs.Maps.{AllBelow, Rises, keys};
ghost use Rattle.golf_state_goroutines.specs.Places.{plain_entries};
ghost use Rattle.golf_state_queues.specs.Lines.{spots};
ghost use Rattle.golf_state_queues.specs.WaitQueues.{among, held};

use crate::holders::{TicketHolder, drop_front, drop_gone, end_of, narrow, start_of};
use golf_base::Memory;
use golf_state_goroutines::Roster;
use smallvec::SmallVec;
use std::alloc::Global;
use std::marker::Model;

// A queue with so few entries closes up as soon as a goroutine leaves.
const FEW: usize = 8;

/// The entries of a wait queue, in its order. Some may be marked as gone.
///
/// A goroutine leaves a long queue by a mark, so no other entry is moved. The queue closes up when more
/// than half of its entries are gone. So one leave moves a few entries on average, however long the queue
/// is. After a leave neither the first entry nor the last one is gone.
#[derive(Debug, Drop)]
pub struct Line {
    // one entry lies in the queue itself
    entries: SmallVec<TicketHolder, 1>,
    // how many entries are skipped at the front
    front: u32,
    // how many entries are skipped or marked
    gone: u32,
}

impl Model for Line {
    ghost use Rattle.std.specs.Prelude.{List, drop};
    ghost use Rattle.golf_state_queues.specs.Lines.{IsLine};
    ghost use Rattle.golf_state_queues.specs.declared.holders.TicketHolder.{TicketHolder};

    ghost Value = { List TicketHolder };

    ghost view = { λ l. drop l.front l.entries.items };

    ghost invariant = { λ l. IsLine l.front l.entries.items };
}

// The difference of the two counts, or 0 if the second is larger.
fn less(count: u32, without: usize) -> u32
    ensures { result ≡ count - without }
{
    match u32::try_from(without) {
        Ok(without) => count.saturating_sub(without),
        Err(_) => 0,
    }
}

// Puts another entry at a place.
#[inline(always)]
fn set_at(entries: &mut SmallVec<TicketHolder, 1>, place: usize, holder: TicketHolder)
    requires { place < length entries.old.items }
    ensures { entries.new.items ≡ slice_set entries.old.items place holder }
{
    entries.as_mut_slice()[place] = holder;
}

impl Line {
    /// Returns the empty queue. It takes no memory, and neither does the first entry.
    #[inline(always)]
    pub fn new(alloc: Global) -> Line
        ensures { result ≡ [] }
    {
        Line {
            entries: SmallVec::new(alloc),
            front: 0,
            gone: 0,
        }
    }

    /// Returns a copy of the queue, which has the same entries. Only more than one entry take memory.
    pub fn copy(&self, alloc: Global) -> Result<Line, Memory>
        ensures { IfOk result (λ copy. copy ≡ self.now) }
    {
        let mut entries = SmallVec::new(alloc);
        entries.extend_from_slice(self.as_slice())?;
        Ok(Line {
            entries,
            front: 0,
            gone: self.gone.saturating_sub(self.front),
        })
    }

    /// Returns the entries.
    #[inline(always)]
    pub fn as_slice(&self) -> &[TicketHolder]
        ensures value { result.now ≡ self.now }
        ensures rises { Rises 0 (spots self.now) }
    {
        &self.entries.as_slice()[self.front as usize..]
    }

    /// Adds an entry at the end. On `Err` the queue is unchanged.
    #[inline(always)]
    pub fn push(&mut self, holder: TicketHolder) -> Result<(), Memory>
        requires { AllBelow holder.ticket (spots self.old) }
        ensures ok { OnOk result (self.new ≡ self.old ++ holder ∷ []) }
        ensures err { OnErr result (self.new ≡ self.old) }
    {
        self.entries.push(holder)?;
        Ok(())
    }

    /// Drops the entries from a place on.
    #[inline(always)]
    pub fn truncate(&mut self, at: usize)
        requires { at ≤ length self.old }
        ensures { self.new ≡ take at self.old }
    {
        let _count = self.entries.len();
        self.entries.truncate(self.front as usize + at);
    }

    // Removes the entry at a place. The entries behind it move up by one.
    #[inline(always)]
    fn move_up(&mut self, at: usize)
        requires { at < length self.old }
        ensures { self.new ≡ remove self.old at }
    {
        let _count = self.entries.len();
        self.entries.remove(self.front as usize + at);
    }

    // Marks the entry at a place as gone.
    #[inline(always)]
    fn mark(&mut self, at: usize)
        requires { at < length self.old }
        ensures { held self.new ≡ held (remove self.old at) }
    {
        let _count = self.entries.len();
        let place = self.front as usize + at;
        let holder = self.entries.as_slice()[place];
        set_at(&mut self.entries, place, holder.gone());
        self.gone = self.gone.saturating_add(1);
    }

    // Removes all entries that are gone from memory.
    fn close_up(&mut self)
        ensures { held self.new ≡ held self.old }
    {
        drop_front(&mut self.entries, self.front as usize);
        drop_gone(&mut self.entries);
        self.front = 0;
        self.gone = 0;
    }

    // Skips the entries at the front that are gone.
    #[inline(always)]
    fn skip_gone(&mut self)
        ensures { held self.new ≡ held self.old }
    {
        let start = self.front as usize + start_of(self.as_slice());
        if let Ok(front) = u32::try_from(start) {
            self.front = front;
        }
    }

    // Cuts off the entries at the end that are gone.
    #[inline(always)]
    fn cut_gone(&mut self)
        ensures { held self.new ≡ held self.old }
    {
        let count = self.as_slice().len();
        let end = end_of(self.as_slice());
        self.truncate(end);
        self.gone = less(self.gone, count - end);
    }

    // Closes the queue up if it is short or enough entries are gone. Else makes its first and last entries
    // ones that are not gone.
    fn tidy(&mut self)
        ensures { held self.new ≡ held self.old }
    {
        let count = self.entries.len();
        if count <= FEW || self.gone as usize > count / 2 {
            self.close_up();
        } else {
            self.skip_gone();
            self.cut_gone();
        }
    }

    /// Removes the entry at a place from the queue, by a mark if the queue is long.
    #[inline(always)]
    pub fn take_out(&mut self, at: usize)
        requires { at < length self.old }
        ensures { held self.new ≡ held (remove self.old at) }
    {
        if self.gone == 0 && self.entries.len() <= FEW {
            self.move_up(at);
        } else {
            self.mark(at);
            self.tidy();
        }
    }

    /// Keeps the waiters whose goroutine is in the roster.
    pub fn narrow(&mut self, roster: &Roster)
        ensures { held self.new ≡ among (keys (plain_entries roster.now.places)) (held self.old) }
    {
        drop_front(&mut self.entries, self.front as usize);
        drop_gone(&mut self.entries);
        narrow(&mut self.entries, roster);
        self.front = 0;
        self.gone = 0;
    }
}
