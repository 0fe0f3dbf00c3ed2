//! The places that one thread has marked so far, and the scan of one of them.
//!
//! The list of marked places is also the worklist: a place is scanned in the turn of its index.

ghost use Rattle.std.specs.Prelude.{◌≡◌, ◌+◌, ◌^◌, ◌<◌, ◌≤◌, ℕ, [], IfOk, length, slice_get};
ghost use Rattle.golf_theory.specs.Membership.{In, Every};
ghost use Rattle.golf_model.specs.Graph.{node_count, sleeper_count, Justifies};
ghost use Rattle.golf_marks.specs.Flags.{HasMarked};
ghost use Rattle.golf_mark.specs.Waiters.{IsWaiters};
ghost use Rattle.golf_mark.specs.UnderWay.{Gains, IsScanned, Working};

use crate::waiters::Waiters;
use golf_base::{List, Memory, Room};
use golf_marks::numbers_of;
use golf_model::{Graph, Marked};
use std::alloc::Global;
use std::marker::Model;

/// A bit for each place of a graph, and the marked places in the order of marking.
#[derive(Drop)]
pub(crate) struct Work {
    bits: Vec<bool>,
    order: Room<u32>,
}

impl Model for Work {
    ghost use Rattle.std.specs.Prelude.{length};
    ghost use Rattle.golf_mark.specs.UnderWay.{Working, IsWorking};

    ghost Value = { Working };

    ghost view = { λ w. record { places = length w.bits.items; order = w.order.items } };

    ghost invariant = { λ w. IsWorking w.bits.items w.order };
}

impl Work {
    ghost use Rattle.golf_mark.specs.UnderWay.{Gains};

    /// Returns the work before the first claim, with room for all places.
    pub(crate) fn new(alloc: Global, places: u32) -> Result<Work, Memory>
        ensures places { IfOk result (λ w. w.places ≡ places) }
        ensures order { IfOk result (λ w. w.order ≡ []) }
    {
        let bits = Vec::from_elem(alloc, false, places as usize)?;
        let mut order = Room::new(alloc);
        order.reserve(places as usize)?;
        Ok(Work { bits, order })
    }

    /// Returns the place at the index `turn` in the order of marking, or `None`.
    pub(crate) fn get(&self, turn: usize) -> Option<u32>
        ensures value { result ≡ slice_get self.now.order turn }
        ensures within { length self.now.order ≤ self.now.places }
    {
        self.order.as_slice().get(turn).copied()
    }

    /// Marks a place.
    fn claim(&mut self, place: u32)
        requires { place < self.old.places }
        ensures gains { Gains (λ p. p ≡ place) self.old self.new }
        ensures there { In place self.new.order }
    {
        if !self.bits[place as usize] {
            self.bits[place as usize] = true;
            self.order.push_ready(place);
        }
    }

    /// Marks these places.
    pub(crate) fn claim_all(&mut self, places: &[u32])
        requires { Every (λ p. p < self.old.places) places.now }
        ensures gains { Gains (λ p. In p places.now) self.old self.new }
        ensures there { (p : ℕ) → In p places.now → In p self.new.order }
    {
        for place in places {
            self.claim(*place);
        }
    }

    /// Marks these sleepers of a graph with `nodes` nodes.
    fn awaken(&mut self, nodes: u32, sleepers: &[u32])
        requires room { Every (λ s. nodes + s < self.old.places) sleepers.now }
        requires small { self.old.places < 2 ^ 32 }
        ensures gains { Gains (λ p. (s : ℕ) × (p ≡ nodes + s) × In s sleepers.now) self.old self.new }
        ensures there { (s : ℕ) → In s sleepers.now → In (nodes + s) self.new.order }
    {
        for sleeper in sleepers {
            self.claim(nodes + *sleeper);
        }
    }

    /// Writes the marked places on this sheet, and returns the marking.
    pub(crate) fn into_marked(self, sheet: Sheet) -> Marked
        requires places { length sheet.flags + length sheet.awake ≡ self.places }
        requires empty { sheet.numbers.items ≡ [] }
        requires room { length sheet.flags ≤ sheet.numbers.spare }
        requires small { self.places < 2 ^ 32 }
        ensures { HasMarked (length sheet.flags) (length sheet.awake) (λ p. In p self.order) result }
    {
        let Work { bits, order: _ } = self;
        let Sheet {
            flags,
            awake,
            numbers,
        } = sheet;
        let (of_nodes, of_sleepers) = bits.as_slice().split_at(flags.len());
        let order = numbers_of(of_nodes, numbers);
        Marked {
            flags: copied(flags, of_nodes),
            order,
            awake: copied(awake, of_sleepers),
        }
    }
}

/// The memory of a marking: a flag for each node and for each sleeper, and room for the numbers of the
/// marked nodes.
#[derive(Drop)]
pub(crate) struct Sheet {
    pub(crate) flags: List<bool>,
    pub(crate) awake: List<bool>,
    pub(crate) numbers: Room<u32>,
}

impl Sheet {
    ghost use Rattle.golf_mark.specs.Sheets.{IsBlank};

    /// Returns a sheet for a graph with this many nodes and sleepers.
    pub(crate) fn new(alloc: Global, nodes: u32, sleepers: u32) -> Result<Sheet, Memory>
        ensures { IfOk result (IsBlank nodes sleepers) }
    {
        let mut flags = List::new(alloc);
        flags.extend_with(nodes as usize, false)?;
        let mut awake = List::new(alloc);
        awake.extend_with(sleepers as usize, false)?;
        let mut numbers = Room::new(alloc);
        numbers.reserve(nodes as usize)?;
        Ok(Sheet {
            flags,
            awake,
            numbers,
        })
    }
}

// The list, with these flags instead of its own.
fn copied(mut list: List<bool>, flags: &[bool]) -> List<bool>
    requires { length list ≡ length flags.now }
    ensures { result ≡ flags.now }
{
    list.as_mut_slice().copy_from_slice(flags);
    list
}

/// Marks all places that a place justifies.
pub(crate) fn scan(graph: &Graph, waiters: &Waiters, work: &mut Work, place: u32)
    requires waiters { IsWaiters graph.now waiters.now }
    requires places { work.old.places ≡ node_count graph.now + sleeper_count graph.now }
    requires place { place < node_count graph.now + sleeper_count graph.now }
    ensures gains { Gains (Justifies graph.now place) work.old work.new }
    ensures scanned { IsScanned graph.now work.new.order place }
{
    let nodes = graph.nodes();
    if place < nodes {
        work.claim_all(graph.children(place));
        work.awaken(nodes, waiters.of(place));
    } else {
        work.claim_all(graph.references(place - nodes));
    }
}
