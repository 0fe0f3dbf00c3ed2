//! The goroutines that can run. Goroutine 0 runs but cannot run if it has nothing to call.

ghost use Rattle.std.specs.Prelude.{◌≡◌, ◌≤◌, ◌<◌, ◌^◌, Some, drop, length, slice_get};

use crate::places::running_at;
use golf_base::GoroutineId;
use golf_state_goroutines::Roster;
use std::marker::Model;

/// The goroutines that can run, in rising order of number: all that run, or all except for the first.
#[derive(Drop)]
pub struct Runnable<'a> {
    roster: &'a Roster,
    skipped: usize,
}

impl<'a> Model for Runnable<'a> {
    ghost use Rattle.std.specs.Prelude.{◌≤◌, ◌^◌, ℕ, List, drop, length};

    ghost Value = { List ℕ };

    ghost view = { λ r. drop r.skipped r.roster.now.running };

    ghost invariant = { λ r. (r.skipped ≤ length r.roster.now.running) × (length r.roster.now.running ≤ 2 ^ 32) };
}

impl<'a> Runnable<'a> {
    /// Returns the goroutines that run, without the first `skipped` ones.
    #[inline(always)]
    pub(crate) fn new(roster: &'a Roster, skipped: usize) -> Runnable<'a>
        requires skipped { skipped ≤ length roster.now.running }
        requires few { length roster.now.running ≤ 2 ^ 32 }
        ensures { result ≡ drop skipped roster.now.running }
    {
        Runnable { roster, skipped }
    }

    /// Returns how many goroutines can run.
    #[inline(always)]
    pub fn count(&self) -> usize
        ensures { result ≡ length self.now }
    {
        self.roster.running_count() - self.skipped
    }

    /// Returns the goroutine at this place among those that can run.
    #[inline(always)]
    pub fn at(&self, place: usize) -> GoroutineId
        requires { place < length self.now }
        ensures { slice_get self.now place ≡ Some result.0 }
    {
        running_at(self.roster, place + self.skipped)
    }
}
