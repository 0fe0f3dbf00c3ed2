//! The finaliser queue: the finalisers that wait for their call.
//!
//! An entry is an object and the function to call with it. An entry leaves at the front, and no other entry
//! is moved.

ghost use Rattle.std.specs.Prelude.{◌≡◌, ◌≤◌, ◌++◌, [], List, drop, length, slice_get, IfOk, OnOk, OnErr};
ghost use Rattle.golf_data.specs.declared.goroutine.Queued.{Queued};
ghost use Rattle.golf_model.specs.Changes.{behind_first};

use golf_base::Memory;
use golf_data::Queued;
use std::alloc::Global;
use std::marker::Model;

/// The finalisers that wait for their call, the next one first.
///
/// Taking an entry only counts it, so it costs the same however long the queue is. The vector closes up
/// when entries are added and more were taken than are left.
#[derive(Debug, Drop)]
pub struct FinaliserQueue {
    entries: Vec<Queued>,
    taken: usize,
}

impl Model for FinaliserQueue {
    ghost Value = { List Queued };

    ghost view = { λ q. drop q.taken q.entries.items };

    ghost invariant = { λ q. q.taken ≤ length q.entries.items };
}

impl FinaliserQueue {
    /// Returns the empty queue. It takes no memory.
    pub fn new(alloc: Global) -> FinaliserQueue
        ensures { result ≡ [] }
    {
        FinaliserQueue {
            entries: Vec::new(alloc),
            taken: 0,
        }
    }

    /// Returns a copy of the queue, which is equal.
    pub fn copy(&self, alloc: Global) -> Result<FinaliserQueue, Memory>
        ensures { IfOk result (λ copy. copy ≡ self.now) }
    {
        let mut queue = FinaliserQueue::new(alloc);
        queue.add(self.as_slice())?;
        Ok(queue)
    }

    /// Returns the allocator of the queue's memory.
    pub fn allocator(&self) -> Global {
        *self.entries.allocator()
    }

    /// Returns the entries, the next one first.
    pub fn as_slice(&self) -> &[Queued]
        ensures { result.now ≡ self.now }
    {
        &self.entries.as_slice()[self.taken..]
    }

    /// Takes the next entry, or returns `None` if there is none. It takes no memory.
    pub fn take(&mut self) -> Option<Queued>
        ensures first { result ≡ slice_get self.old 0 }
        ensures rest { self.new ≡ behind_first self.old }
    {
        let next = self.entries.as_slice().get(self.taken).copied()?;
        self.taken += 1;
        Some(next)
    }

    // Removes the taken entries from memory, if they are more than those that are left.
    fn close_up(&mut self)
        ensures { self.new ≡ self.old }
    {
        let left = self.entries.len() - self.taken;
        if self.taken > left {
            self.entries.rotate_left(self.taken);
            self.entries.truncate(left);
            self.taken = 0;
        }
    }

    /// Adds entries after the others. On `Err` the queue is unchanged.
    pub fn add(&mut self, entries: &[Queued]) -> Result<(), Memory>
        ensures ok { OnOk result (self.new ≡ self.old ++ entries.now) }
        ensures err { OnErr result (self.new ≡ self.old) }
    {
        self.close_up();
        self.entries.extend_from_slice(entries)?;
        Ok(())
    }
}
