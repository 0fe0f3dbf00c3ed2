//! Blocked goroutines that may be woken: the sleepers of a graph.
//!
//! The invariant: there is one row of waits and one row of references for each goroutine.

ghost use Rattle.std.specs.Prelude.{◌≡◌, ◌<◌, ◌++◌, ◌∷◌, [], OnErr, OnOk, Some, length, map, option_map, slice_get};

use golf_base::{GoroutineId, List, Memory};
use golf_rows::FlatRows;
use std::alloc::Global;
use std::marker::Model;

/// Blocked goroutines that may be woken. Each has the nodes that it waits on and the nodes that it
/// refers to. Contracts see the list of the sleepers.
#[derive(Debug)]
pub struct Sleepers {
    goroutines: List<GoroutineId>,
    waits: FlatRows,
    references: FlatRows,
}

impl Model for Sleepers {
    ghost use Rattle.std.specs.Prelude.{◌≡◌, List, length};
    ghost use Rattle.golf_model.specs.Sleepers.{Sleeper, sleepers_of};

    ghost Value = { List Sleeper };

    ghost view = { λ s. sleepers_of s.goroutines s.waits s.references };

    ghost invariant = { λ s. (length s.waits ≡ length s.goroutines) × (length s.references ≡ length s.goroutines) };
}

impl Drop for Sleepers {
    fn drop(self) {
        let Sleepers {
            goroutines: _,
            waits: _,
            references: _,
        } = self;
    }
}

impl Sleepers {
    /// Returns no sleepers. It takes no memory.
    pub fn new(alloc: Global) -> Sleepers
        ensures { result ≡ [] }
    {
        Sleepers {
            goroutines: List::new(alloc),
            waits: FlatRows::new(alloc),
            references: FlatRows::new(alloc),
        }
    }

    /// Returns how many sleepers there are.
    pub fn len(&self) -> usize
        ensures { result ≡ length self.now }
    {
        self.goroutines.len()
    }

    /// Adds a sleeper at the end. On `Err` the sleepers are unchanged.
    ///
    /// `Memory` also comes if all sleepers together wait on 2^32 nodes or more, or refer to 2^32
    /// nodes or more.
    pub fn push(
        &mut self,
        goroutine: GoroutineId,
        waits: &[u32],
        references: &[u32],
    ) -> Result<(), Memory>
        ensures ok { OnOk result (self.new
            ≡ self.old ++ record { goroutine = goroutine; waits = waits.now; references = references.now } ∷ []) }
        ensures err { OnErr result (self.new ≡ self.old) }
    {
        let count = self.goroutines.len();
        self.goroutines.push(goroutine)?;
        if self.waits.push(waits).is_err() {
            self.goroutines.truncate(count);
            return Err(Memory);
        }
        if self.references.push(references).is_err() {
            self.goroutines.truncate(count);
            self.waits.truncate(count);
            return Err(Memory);
        }
        Ok(())
    }

    /// Returns the goroutine of the sleeper at a place.
    pub fn goroutine(&self, at: usize) -> GoroutineId
        requires { at < length self.now }
        ensures { option_map (λ x. x.goroutine) (slice_get self.now at) ≡ Some result }
    {
        self.goroutines.as_slice()[at]
    }

    /// Returns the nodes that the sleeper at a place waits on.
    pub fn waits(&self, at: usize) -> &[u32]
        requires { at < length self.now }
        ensures { option_map (λ x. x.waits) (slice_get self.now at) ≡ Some result.now }
    {
        self.waits.row(at)
    }

    /// Returns for each sleeper the nodes that it waits on.
    pub fn all_waits(&self) -> &FlatRows
        ensures { result.now ≡ map (λ x. x.waits) self.now }
    {
        &self.waits
    }

    /// Returns the nodes that the sleeper at a place refers to.
    pub fn references(&self, at: usize) -> &[u32]
        requires { at < length self.now }
        ensures { option_map (λ x. x.references) (slice_get self.now at) ≡ Some result.now }
    {
        self.references.row(at)
    }
}
