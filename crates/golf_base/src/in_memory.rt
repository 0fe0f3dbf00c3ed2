//! A source and a sink over memory, for tests. The caller chooses which of their calls fail and how
//! many bytes a call gives or takes.

ghost use Rattle.std.specs.Prelude.{◌≡◌, ◌<◌, ◌≤◌, ◌↔◌, [], IfOk, IsErr, OnOk, OnErr, length, drop, Some, Contains};
ghost use Rattle.std.specs.Io.{ReadsAtMost, WritesAtMost};
ghost use Rattle.std.specs.Io.KnownBytes.{ReadConsumes, WriteAppends};
ghost use Rattle.golf_base.specs.Causes.{HasCause};
ghost use Rattle.golf_base.specs.InMemory.{given, after_read, after_failed_read, taken, next_call, CallFails};
ghost use Rattle.golf_base.specs.InMemory.{after_write, after_failed_write};

use crate::streams::{Failed, Sink, Source, one_more};
use crate::{List, Memory};
use std::alloc::Global;
use std::marker::Model;

/// A source over a list of bytes.
#[derive(Drop)]
pub struct MemorySource {
    bytes: List<u8>,
    at: usize,
    most: u32,
    fail: List<u32>,
    calls: u32,
    failed: u64,
}

impl Model for MemorySource {
    ghost use Rattle.std.specs.Prelude.{◌<◌, ◌≤◌, length, drop};
    ghost use Rattle.golf_base.specs.InMemory.{Supply, supply_code};

    ghost Value = { Supply };

    ghost coded = { supply_code };

    ghost view = { λ s. record { left = drop s.at s.bytes; most = s.most; fail = s.fail; calls = s.calls; faults = s.failed } };

    ghost invariant = { λ s. (s.at ≤ length s.bytes) × (0 < s.most) };
}

impl MemorySource {
    /// Returns a source that gives at most `most` bytes a call. It fails exactly at the calls whose
    /// numbers, from 1, are in `fail`.
    pub fn new(bytes: List<u8>, most: u32, fail: List<u32>) -> MemorySource
        requires { 0 < most }
        ensures { result ≡ record { left = bytes; most = most; fail = fail; calls = 0; faults = 0 } }
    {
        MemorySource {
            bytes,
            at: 0,
            most,
            fail,
            calls: 0,
            failed: 0,
        }
    }
}

impl Source for MemorySource {
    ghost use Rattle.std.specs.Prelude.{Some};

    ghost left = { λ s. Some s.left };

    ghost faults = { λ s. s.faults };

    fn read(&mut self, into: &mut [u8]) -> Result<usize, Failed>
        requires { 0 < length into.old }
        ensures bound { ReadsAtMost result into.new }
        ensures bytes { ReadConsumes (Some self.old.left) (Some self.new.left) result into.new }
        ensures cause { HasCause self.old.faults self.new.faults result }

        // Which calls fail, and how many bytes a successful call gives.
        ensures fails { IsErr result ↔ Contains self.old.fail (next_call self.old.calls) }
        ensures count { IfOk result (λ n. n ≡ given self.old (length into.old)) }
        ensures ok { OnOk result (self.new ≡ after_read self.old (length into.old)) }
        ensures err { OnErr result (self.new ≡ after_failed_read self.old) }
    {
        self.calls = self.calls.saturating_add(1);
        if self.fail.as_slice().contains(&self.calls) {
            self.failed = one_more(self.failed);
            return Err(Failed);
        }
        let (_, rest) = self.bytes.as_slice().split_at(self.at);
        let count = rest.len().min(into.len()).min(self.most as usize);
        into[..count].copy_from_slice(&rest[..count]);
        self.at += count;
        Ok(count)
    }
}

/// A sink over a fixed room in memory, which `new` allocates.
#[derive(Drop)]
pub struct MemorySink {
    bytes: Vec<u8>,
    room: u32,
    most: u32,
    fail: List<u32>,
    calls: u32,
    failed: u64,
}

impl Model for MemorySink {
    ghost use Rattle.std.specs.Prelude.{◌<◌, ◌≤◌, vec_len, vec_capacity};
    ghost use Rattle.golf_base.specs.InMemory.{Store, store_code};

    ghost Value = { Store };

    ghost coded = { store_code };

    ghost view = { λ s. record { written = s.bytes.items; room = s.room; most = s.most; fail = s.fail; calls = s.calls; faults = s.failed } };

    ghost invariant = { λ s. (s.room ≤ vec_capacity s.bytes) × (0 < s.most) × (vec_len s.bytes ≤ s.room) };
}

impl MemorySink {
    /// Returns a sink with room for `room` bytes that takes at most `most` bytes a call. It fails
    /// at the calls whose numbers, from 1, are in `fail`. It also fails if no room is left for a
    /// piece that is not empty.
    pub fn new(alloc: Global, room: u32, most: u32, fail: List<u32>) -> Result<MemorySink, Memory>
        requires { 0 < most }
        ensures { IfOk result (λ s. s ≡ record { written = []; room = room; most = most; fail = fail; calls = 0; faults = 0 }) }
    {
        Ok(MemorySink {
            bytes: Vec::with_capacity(alloc, room as usize)?,
            room,
            most,
            fail,
            calls: 0,
            failed: 0,
        })
    }

    /// Returns the bytes that were written.
    pub fn written(&self) -> &[u8]
        ensures { result.now ≡ self.now.written }
    {
        self.bytes.as_slice()
    }
}

impl Sink for MemorySink {
    ghost use Rattle.std.specs.Prelude.{Some};

    ghost written = { λ s. Some s.written };

    ghost faults = { λ s. s.faults };

    fn write(&mut self, piece: &[u8]) -> Result<usize, Failed>
        ensures bound { WritesAtMost result piece.now }
        ensures some { IfOk result (λ n. 0 < length piece.now → 0 < n) }
        ensures bytes { WriteAppends (Some self.old.written) (Some self.new.written) result piece.now }
        ensures cause { HasCause self.old.faults self.new.faults result }

        // Which calls fail, and how many bytes a successful call takes.
        ensures fails { IsErr result ↔ CallFails self.old (length piece.now) }
        ensures count { IfOk result (λ n. n ≡ taken self.old (length piece.now)) }
        ensures ok { OnOk result (self.new ≡ after_write self.old piece.now) }
        ensures err { OnErr result (self.new ≡ after_failed_write self.old) }
    {
        self.calls = self.calls.saturating_add(1);
        let room = self.room as usize - self.bytes.len();
        let count = piece.len().min(room).min(self.most as usize);
        if self.fail.as_slice().contains(&self.calls) || (count == 0 && !piece.is_empty()) {
            self.failed = one_more(self.failed);
            return Err(Failed);
        }
        let _ = self.bytes.extend_from_slice(&piece[..count]);
        Ok(count)
    }
}
