//! The places that are noted for the finishing scan.
//!
//! They are scanned at the end, in one thread.

ghost use Rattle.std.specs.Prelude.{◌≡◌, ◌<◌, ◌↔◌, ℕ, IfOk, IsTrue, length};
ghost use Rattle.golf_theory.specs.Membership.{In};
ghost use Rattle.golf_marks.specs.Flags.{IsSet};

use golf_base::Memory;
use std::alloc::Global;
use std::marker::Model;

/// A flag for each place, and whether any flag may be set.
#[derive(Drop)]
pub(crate) struct Notes {
    flags: Vec<bool>,
    some: bool,
}

impl Model for Notes {
    ghost use Rattle.std.specs.Prelude.{List, Bool, ℕ, ◌≡◌, false};
    ghost use Rattle.golf_marks.specs.Flags.{IsSet};

    ghost Value = { List Bool };

    ghost view = { λ n. n.flags.items };

    ghost invariant = { λ n. n.some ≡ false → (p : ℕ) → IsSet n.flags.items p → ⊥ };
}

impl Notes {
    /// Returns flags for `places` places, none of them set.
    pub(crate) fn new(alloc: Global, places: u32) -> Result<Notes, Memory>
        ensures { IfOk result (λ n. length n ≡ places) }
    {
        let flags = Vec::from_elem(alloc, false, places as usize)?;
        Ok(Notes { flags, some: false })
    }

    /// Returns whether no place is noted. It is true only if no flag is set.
    pub(crate) fn is_empty(&self) -> bool
        ensures { IsTrue result → (p : ℕ) → IsSet self.now p → ⊥ }
    {
        !self.some
    }

    /// Returns whether a place is noted.
    pub(crate) fn has(&self, place: u32) -> bool
        requires { place < length self.now }
        ensures { IsTrue result ↔ IsSet self.now place }
    {
        self.flags[place as usize]
    }

    /// Notes a place.
    pub(crate) fn add(&mut self, place: u32)
        requires { place < length self.old }
        ensures length { length self.new ≡ length self.old }
        ensures kept { (p : ℕ) → IsSet self.old p → IsSet self.new p }
        ensures noted { IsSet self.new place }
    {
        self.flags[place as usize] = true;
        self.some = true;
    }

    /// Notes these places. It leaves out numbers past the last place.
    pub(crate) fn add_all(&mut self, places: &[u32])
        ensures length { length self.new ≡ length self.old }
        ensures kept { (p : ℕ) → IsSet self.old p → IsSet self.new p }
        ensures noted { (p : ℕ) → p < length self.old → In p places.now → IsSet self.new p }
    {
        for place in places {
            if (*place as usize) < self.flags.len() {
                self.add(*place);
            }
        }
    }

    /// Notes all places that the other flags note.
    pub(crate) fn merge(&mut self, other: Notes)
        requires { length other ≡ length self.old }
        ensures length { length self.new ≡ length self.old }
        ensures kept { (p : ℕ) → IsSet self.old p → IsSet self.new p }
        ensures noted { (p : ℕ) → IsSet other p → IsSet self.new p }
    {
        if other.is_empty() {
            return;
        }
        let Notes { flags, some: _ } = other;
        set_all(&mut self.flags, &flags);
        self.some = true;
    }
}

// Sets each flag that is set in the other list.
fn set_all(flags: &mut Vec<bool>, others: &Vec<bool>)
    requires { length others.now.items ≡ length flags.old.items }
    ensures length { length flags.new.items ≡ length flags.old.items }
    ensures kept { (p : ℕ) → IsSet flags.old.items p → IsSet flags.new.items p }
    ensures set { (p : ℕ) → IsSet others.now.items p → IsSet flags.new.items p }
{
    for place in 0..others.len() {
        if others[place] {
            flags[place] = true;
        }
    }
}
