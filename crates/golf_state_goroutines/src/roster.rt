//! All goroutines of a running program.
//!
//! The invariant: the list of running goroutines has room for each goroutine.

ghost use Rattle.std.specs.Prelude.{◌≡◌, ◌++◌, ◌∷◌, [], map, length, IfOk, IsSome, Some, OnOk, OnErr, is_some, option_map};
ghost use Rattle.std.specs.Prelude.{slice_get};
ghost use Rattle.std.specs.Borrow.{sem};
ghost use Rattle.golf_theory.specs.Flags.{kept};
ghost use Rattle.golf_theory.specs.Maps.{find, keys, AllBelow};
ghost use Rattle.golf_blocks.specs.Blocks.{entries_in};
ghost use Rattle.golf_model.specs.Views.{goroutine_view};
ghost use Rattle.golf_state_goroutines.specs.Places.{plain_entries, running_of};
ghost use Rattle.golf_state_goroutines.specs.RunLists.{CanStart};
ghost use Rattle.golf_state_goroutines.specs.Goroutines.{added, parted, stopped, started, AllUnder, IsNone};
ghost use Rattle.golf_state_goroutines.specs.Loans.{LendsGoroutine};

use crate::places::{numbers, start_all};
use crate::run_list::RunList;
use golf_base::{Boxed, GoroutineId, List, Memory};
use golf_blocks::{Block, BlockMap};
use golf_data::Goroutine;
use std::alloc::Global;
use std::marker::Model;

/// All goroutines in rising order of number, and the numbers of those that run in rising order.
///
/// Each goroutine has a box of its own, so that a change of the others moves few bytes.
#[derive(Debug, Drop)]
pub struct Roster {
    places: BlockMap<Boxed<Goroutine>>,
    runs: RunList,
}

impl Model for Roster {
    ghost use Rattle.golf_state_goroutines.specs.Goroutines.{Goroutines};

    ghost Value = { Goroutines };

    ghost use Rattle.golf_state_goroutines.specs.Inside.{goroutines_of, IsRoster};

    ghost view = { goroutines_of };

    ghost invariant = { IsRoster };
}

// Adds a goroutine after the others, with room for it to run. On `Err` the goroutines are unchanged.
fn append(
    places: &mut BlockMap<Boxed<Goroutine>>,
    runs: &mut RunList,
    number: u32,
    goroutine: Boxed<Goroutine>,
) -> Result<(), Memory>
    requires below { AllBelow number (plain_entries places.old) }
    requires room { CanStart runs.old.keys places.old }
    ensures ok { OnOk result (places.new ≡ places.old ++ (number, goroutine) ∷ []) }
    ensures err { OnErr result (places.new ≡ places.old) }
    ensures numbers { runs.new.numbers ≡ runs.old.numbers }
    ensures room { CanStart runs.new.keys places.new }
{
    runs.close_if_crowded(places);
    runs.open(number / 256)?;
    places.put(number, goroutine)
}

impl Roster {
    /// Returns the roster without a goroutine. It takes no memory.
    pub fn new(alloc: Global) -> Roster
        ensures { result ≡ record { places = []; running = [] } }
    {
        Roster {
            places: BlockMap::new(alloc),
            runs: RunList::new(alloc),
        }
    }

    /// Returns how many goroutines there are.
    pub fn count(&self) -> usize
        ensures { result ≡ length self.now.places }
    {
        self.places.count()
    }

    /// Returns how many goroutines run.
    #[inline(always)]
    pub fn running_count(&self) -> usize
        ensures { result ≡ length self.now.running }
    {
        self.runs.count()
    }

    /// Returns the goroutine at this place among those that run, or `None`.
    #[inline(always)]
    pub fn running_at(&self, k: usize) -> Option<GoroutineId>
        ensures { option_map (λ g. g.0) result ≡ slice_get self.now.running k }
    {
        self.runs.at(k)
    }

    /// Returns the goroutine of this number, or `None`.
    #[inline(always)]
    pub fn get(&self, number: u32) -> Option<&Goroutine>
        ensures { option_map (λ r. goroutine_view r.now) result ≡ find number (plain_entries self.now.places) }
    {
        Some(self.places.get(number)?.get())
    }

    /// Returns whether there is a goroutine of this number.
    #[inline(always)]
    pub fn has(&self, number: u32) -> bool
        ensures { result ≡ is_some (find number (plain_entries self.now.places)) }
    {
        self.get(number).is_some()
    }

    /// Lends the goroutine of this number, which the caller may change.
    #[inline(always)]
    pub fn get_mut(&mut self, number: u32) -> &mut Goroutine
        requires { IsSome (find number (plain_entries self.old.places)) }
        ensures* writes_back { sem 𝓛 (LendsGoroutine self.entry number result) }
        ensures here { find number self.old.places ≡ Some result.now }
    {
        self.places.get_mut(number).get_mut()
    }

    /// Returns the blocks of the goroutines, in rising order of number.
    pub fn blocks(&self) -> &[Block<Boxed<Goroutine>>]
        ensures { entries_in result.now ≡ self.now.places }
    {
        self.places.blocks()
    }

    /// Returns the numbers of all goroutines in rising order. The only error is `Memory`.
    pub fn numbers(&self, alloc: Global) -> Result<List<GoroutineId>, Memory>
        ensures { IfOk result (λ gs. map (λ g. g.0) gs ≡ keys (plain_entries self.now.places)) }
    {
        numbers(alloc, self.places.blocks())
    }

    /// Adds a running goroutine, whose number is above all others. On `Err` the roster is unchanged.
    pub fn add(&mut self, place: (u32, Boxed<Goroutine>)) -> Result<(), Memory>
        requires below { AllBelow place.0 (plain_entries self.old.places) }
        requires under { AllUnder place.0 self.old.running }
        ensures ok { OnOk result (self.new ≡ added place self.old) }
        ensures err { OnErr result (self.new ≡ self.old) }
    {
        let (number, goroutine) = place;
        append(&mut self.places, &mut self.runs, number, goroutine)?;
        self.runs.start(number);
        Ok(())
    }

    /// Adds a goroutine that does not run, and whose number is above all others. On `Err` the roster is
    /// unchanged.
    pub fn add_blocked(&mut self, place: (u32, Boxed<Goroutine>)) -> Result<(), Memory>
        requires { AllBelow place.0 (plain_entries self.old.places) }
        ensures ok { OnOk result (self.new ≡ record self.old { places = self.old.places ++ place ∷ [] }) }
        ensures err { OnErr result (self.new ≡ self.old) }
    {
        let (number, goroutine) = place;
        append(&mut self.places, &mut self.runs, number, goroutine)
    }

    /// Removes the goroutine of this number, if it is there, also from the list of those that run. It takes
    /// no memory.
    pub fn take(&mut self, number: u32)
        ensures { self.new ≡ parted number self.old }
    {
        self.places.take(number);
        self.runs.stop(number);
    }

    /// Removes this number from the list of running goroutines, if it is there. It takes no memory.
    #[inline(always)]
    pub fn stop_running(&mut self, number: u32)
        ensures { self.new ≡ stopped number self.old }
    {
        self.runs.stop(number);
    }

    /// Adds this number to the list of running goroutines. The goroutine is there, and is not in that list.
    /// It takes no memory.
    #[inline(always)]
    pub fn start_running(&mut self, number: u32)
        requires there { IsSome (find number (plain_entries self.old.places)) }
        requires none { IsNone number self.old.running }
        ensures { self.new ≡ started number self.old }
    {
        self.runs.start(number);
    }

    /// Keeps the goroutines whose flag is true. The flags are in rising order of number. Afterwards those
    /// that are not blocked run. It takes no memory.
    pub fn retain(&mut self, stays: &[bool])
        requires { length stays.now ≡ length self.old.places }
        ensures places { self.new.places ≡ kept stays.now self.old.places }
        ensures running { self.new.running ≡ running_of (plain_entries self.new.places) }
    {
        self.places.retain(stays);
        self.runs.clear();
        start_all(&mut self.runs, self.places.blocks());
        self.runs.close(&self.places);
    }
}
