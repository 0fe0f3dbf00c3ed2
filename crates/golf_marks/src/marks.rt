//! The mark words and their seats.
//!
//! A seat is the ghost account of one thread: the places that it claimed, and the places that it knows as
//! marked.

ghost use Rattle.std.specs.Prelude.{◌^◌, ◌≡◌, ◌<◌, ◌≤◌, ◌+◌, ◌++◌, ◌∷◌, ℕ, [], length, IfOk, IsTrue, if◌then◌else◌};
ghost use Rattle.std.specs.Prelude.{◌⊎◌, false};
ghost use Rattle.golf_model.specs.Graph.{node_count, sleeper_count};
ghost use Rattle.golf_marks.specs.Places.{place_count, word_count};
ghost use Rattle.golf_marks.specs.Rule.{graph_of, Looks};

use crate::batch::Batch;
use crate::bits::{bit, mask};
use crate::close::{fill, numbers_of};
use crate::deal::deal;
use crate::rule::{Claim, Deal, Glance, Look, Plan, Ruled, View};
use atomic_table::{Seat, Table};
use golf_base::{List, Memory, Room};
use golf_model::{Graph, Marked};
use std::alloc::Global;
use std::snapshot::Snapshot;

/// One bit for each place of a graph, shared by threads through a `&`.
#[derive(Drop)]
pub struct Marks {
    pub(crate) table: Table<(), View, Plan, Ruled, Global>,
    flags: List<bool>,
    awake: List<bool>,
    order: Room<u32>,
    ghost sized: { table.shared.table_id.words ≡ word_count (graph_of table.shared.key) },
    ghost no_slots: { table.shared.table_id.slots ≡ 0 },
    ghost some_seat: { 0 < table.shared.key.seats },
    ghost flag_for_each: { length flags ≡ node_count (graph_of table.shared.key) },
    ghost awake_for_each: { length awake ≡ sleeper_count (graph_of table.shared.key) },
    ghost empty: { order.items ≡ [] },
    ghost room: { node_count (graph_of table.shared.key) ≤ order.spare },
    ghost small: { place_count (graph_of table.shared.key) < 2 ^ 32 },
}

/// The seat of one thread, with which it claims and looks. It has no bytes.
#[derive(Drop)]
pub struct MarkSeat {
    pub(crate) seat: Seat<(), View>,
    ghost live: { 0 < seat.me.0.parts },
    ghost no_slot: { seat.me.1 ≡ [] },
}

impl Marks {
    ghost use Rattle.golf_theory.specs.Membership.{In, Every};
    ghost use Rattle.golf_theory.specs.Counts.{times};
    ghost use Rattle.golf_model.specs.Graph.{Least};
    ghost use Rattle.golf_marks.specs.Batches.{batched};
    ghost use Rattle.golf_marks.specs.Flags.{HasMarked};
    ghost use Rattle.golf_marks.specs.Places.{IsJustified};
    ghost use Rattle.golf_marks.specs.Seats.{graph_in, seat_count, claimed, known, parts, claim_count, part_count, IsSeatOf, IsSameSeat, IsNewSeatOf};

    /// Returns mark words for a graph, none of them set, and `seats` seats. The only error is `Memory`.
    pub fn new(alloc: Global, graph: &Graph, seats: u32) -> Result<(Marks, List<MarkSeat>), Memory>
        requires { 0 < seats }
        ensures graph { IfOk result (λ r. graph_in r.0 ≡ graph.now) }
        ensures seat_count { IfOk result (λ r. seat_count r.0 ≡ seats) }
        ensures count { IfOk result (λ r. length r.1 ≡ seats) }
        ensures seats { IfOk result (λ r. Every (IsNewSeatOf r.0) r.1) }
    {
        let nodes = graph.nodes() as usize;
        let sleepers = graph.sleepers() as usize;
        let mut flags = List::new(alloc);
        flags.extend_with(nodes, false)?;
        let mut awake = List::new(alloc);
        awake.extend_with(sleepers, false)?;
        let mut order = Room::new(alloc);
        order.reserve(nodes)?;
        let words = Vec::from_elem(alloc, 0u64, (nodes + sleepers) / 64 + 1)?;
        let plan = Plan {
            graph: Snapshot::of(graph),
            seats,
        };
        let (table, first) = Table::of_words(alloc, words.as_slice(), &plan)?;
        let marks = Marks {
            table,
            flags,
            awake,
            order,
        };
        let list = deal(alloc, &marks, first, seats)?;
        Ok((marks, list))
    }

    // The bit of a place. A step names the place by a mask, and a load has no mask. So this is an exchange
    // that changes nothing.
    fn find_bit(&self, seat: &mut MarkSeat, place: u32) -> u64
        requires seat { IsSeatOf self.now seat.old }
        requires place { place < place_count (graph_in self.now) }
        ensures table { seat.new.seat.table_id ≡ seat.old.seat.table_id }
        ensures tells { Looks place seat.old.seat.me.0 result seat.new.seat.me.0 }
    {
        let at = place as usize;
        let own = mask(at);
        let found = self
            .table
            .shared
            .compare_exchange::<Look>(&mut seat.seat, at / 64, own, own);
        bit(found, at)
    }

    /// Marks the places of a batch, in one step. Each is a root, or a known place justifies it. Returns the
    /// places whose bits this step set. The others of the batch were marked before.
    #[inline(always)]
    pub fn claim(&self, seat: &mut MarkSeat, batch: &Batch) -> Batch
        requires seat { IsSeatOf self.now seat.old }
        requires some { 0 < length (batched batch.now) }
        requires places { Every (λ p. p < place_count (graph_in self.now)) (batched batch.now) }
        requires justified { Every (IsJustified (graph_in self.now) (known seat.old)) (batched batch.now) }
        ensures same { IsSameSeat seat.old seat.new }
        ensures part { (p : ℕ) → In p (batched result) → In p (batched batch.now) }
        ensures claimed { claimed seat.new ≡ claimed seat.old ++ batched result }
        ensures known { known seat.new ≡ known seat.old ++ batched batch.now }
        ensures once { (p : ℕ) → In p (batched result) → times p (claimed seat.old) ≡ 0 }
        ensures bounded { length (claimed seat.new) ≤ place_count (graph_in self.now) }
    {
        let was = self
            .table
            .shared
            .fetch_or::<Claim>(&mut seat.seat, batch.word as usize, batch.bits);
        batch.without(was)
    }

    /// Returns whether a place is marked. It is never false for a place that the seat knows or claimed.
    pub fn is_marked(&self, seat: &mut MarkSeat, place: u32) -> bool
        requires seat { IsSeatOf self.now seat.old }
        requires place { place < place_count (graph_in self.now) }
        ensures same { IsSameSeat seat.old seat.new }
        ensures claimed { claimed seat.new ≡ claimed seat.old }
        ensures known { known seat.new ≡ (if result then known seat.old ++ place ∷ [] else known seat.old) }
        ensures knew { In place (known seat.old) → IsTrue result }
        ensures unclaimed { result ≡ false → times place (claimed seat.old) ≡ 0 }
        ensures bounded { length (claimed seat.old) ≤ place_count (graph_in self.now) }
    {
        self.find_bit(seat, place) == 1
    }

    /// Returns the places of a batch that are not marked. The seat then knows all marked places in the same
    /// word. This step only loads, whereas `is_marked` and `claim` are steps that write.
    #[inline(always)]
    pub fn glance(&self, seat: &mut MarkSeat, batch: &Batch) -> Batch
        requires seat { IsSeatOf self.now seat.old }
        requires some { 0 < length (batched batch.now) }
        requires places { Every (λ p. p < place_count (graph_in self.now)) (batched batch.now) }
        ensures same { IsSameSeat seat.old seat.new }
        ensures part { (p : ℕ) → In p (batched result) → In p (batched batch.now) }
        ensures claimed { claimed seat.new ≡ claimed seat.old }
        ensures kept { (p : ℕ) → In p (known seat.old) → In p (known seat.new) }
        ensures there { (p : ℕ) → In p (batched batch.now) → In p (batched result) ⊎ In p (known seat.new) }
        ensures knew { (p : ℕ) → In p (batched result) → In p (known seat.old) → ⊥ }
        ensures unclaimed { (p : ℕ) → In p (batched result) → times p (claimed seat.old) ≡ 0 }
    {
        let found = self
            .table
            .shared
            .load::<Glance>(&mut seat.seat, batch.word as usize);
        batch.without(found)
    }

    /// Merges another seat into this one: its claimed places, its known places and its parts.
    pub fn join(&self, seat: &mut MarkSeat, other: MarkSeat)
        requires seat { IsSeatOf self.now seat.old }
        requires other { IsSeatOf self.now other }
        ensures seat { IsSeatOf self.now seat.new }
        ensures parts { parts seat.new ≡ parts seat.old + parts other }
        ensures claimed { claimed seat.new ≡ claimed seat.old ++ claimed other }
        ensures known { known seat.new ≡ known seat.old ++ known other }
    {
        let MarkSeat { seat: theirs } = other;
        self.table.shared.join_seat::<Deal>(&mut seat.seat, theirs);
    }

    // Merges all these seats into one.
    fn gather(&self, mut seats: List<MarkSeat>) -> MarkSeat
        requires seats { Every (IsSeatOf self.now) seats }
        requires some { 0 < part_count seats }
        ensures seat { IsSeatOf self.now result }
        ensures parts { parts result ≡ part_count seats }
        ensures claimed { (p : ℕ) → times p (claimed result) ≡ claim_count p seats }
        ensures known { (p : ℕ) → Every (λ s. In p (known s) → In p (known result)) seats }
    {
        let Some(mut seat) = seats.pop() else {
            unreachable!()
        };
        while let Some(other) = seats.pop() {
            self.join(&mut seat, other);
        }
        seat
    }

    /// Ends the marking, and returns the places that these seats claimed. Their parts add up to the number
    /// of all seats.
    pub fn close(self, seats: List<MarkSeat>) -> Marked
        requires seats { Every (IsSeatOf self) seats }
        requires all { part_count seats ≡ seat_count self }
        ensures marked { HasMarked (node_count (graph_in self)) (sleeper_count (graph_in self)) (λ p. 0 < claim_count p seats) result }
        ensures once { (p : ℕ) → claim_count p seats ≤ 1 }
        ensures known { (p : ℕ) → Every (λ s. In p (known s) → 0 < claim_count p seats) seats }
        ensures sound { (p : ℕ) → 0 < claim_count p seats → Least (graph_in self) p }
    {
        let MarkSeat { seat } = self.gather(seats);
        let Marks {
            table,
            flags,
            awake,
            order,
        } = self;
        let nodes = flags.len();
        let closed = table.close_with(seat);
        let flags = fill(&closed, 0, flags);
        let awake = fill(&closed, nodes, awake);
        closed.free();
        let order = numbers_of(flags.as_slice(), order);
        Marked {
            flags,
            order,
            awake,
        }
    }
}
