//! The scan of a marked place: it claims all places that the place justifies.
//!
//! A claim that sets the bit wins the place. Only its winner scans the place, or shares it.

ghost use Rattle.std.specs.Prelude.{◌^◌, ◌/◌, ◌≡◌, ◌+◌, ◌<◌, ◌⊎◌, ℕ, length};
ghost use Rattle.golf_theory.specs.Membership.{In, Every};
ghost use Rattle.golf_marks.specs.Batches.{batched};
ghost use Rattle.golf_marks.specs.Places.{place_count, IsJustified};
ghost use Rattle.golf_marks.specs.Seats.{graph_in, known};
ghost use Rattle.golf_mark.specs.ScannerState.{AreClaimable, IsScannerOf, Wins};
ghost use Rattle.golf_mark.specs.Waiters.{IsWaiters};
ghost use Rattle.golf_mark.specs.UnderWay.{IsScanned};

use crate::waiters::Waiters;
use crate::worklist::Worklist;
use golf_marks::{Batch, MarkSeat, Marks};
use golf_model::Graph;

/// A seat, and the places that its claims have won and that are neither scanned nor shared.
#[derive(Drop)]
pub(crate) struct Scanner {
    pub(crate) seat: MarkSeat,
    pub(crate) won: Worklist,
}

// Claims the places of a batch. It glances first, since a glance costs less if they are marked.
#[inline(always)]
fn claim_batch(marks: &Marks, scanner: &mut Scanner, batch: &Batch)
    requires fits { IsScannerOf marks.now scanner.old }
    requires some { 0 < length (batched batch.now) }
    requires claimable { AreClaimable marks.now scanner.old (batched batch.now) }
    ensures wins { Wins marks.now scanner.old scanner.new }
    ensures there { (p : ℕ) → In p (batched batch.now) → In p (known scanner.new.seat) }
{
    let missing = marks.glance(&mut scanner.seat, batch);
    if missing.is_empty() {
        return;
    }
    let won = marks.claim(&mut scanner.seat, &missing);
    scanner.won.push_all(won);
}

/// Claims a place.
pub(crate) fn claim(marks: &Marks, scanner: &mut Scanner, place: u32)
    requires fits { IsScannerOf marks.now scanner.old }
    requires place { place < place_count (graph_in marks.now) }
    requires justified { IsJustified (graph_in marks.now) (known scanner.old.seat) place }
    ensures wins { Wins marks.now scanner.old scanner.new }
    ensures there { In place (known scanner.new.seat) }
{
    claim_batch(marks, scanner, &Batch::of(place));
}

// Makes a batch ready for a place. If the place is in another word, the batch is claimed, and it is empty
// afterwards.
#[inline(always)]
fn make_ready(marks: &Marks, scanner: &mut Scanner, batch: &mut Batch, place: u32)
    requires fits { IsScannerOf marks.now scanner.old }
    requires some { 0 < length (batched batch.old) }
    requires claimable { AreClaimable marks.now scanner.old (batched batch.old) }
    ensures wins { Wins marks.now scanner.old scanner.new }
    ensures word { place / 64 ≡ batch.new.word }
    ensures part { (p : ℕ) → In p (batched batch.new) → In p (batched batch.old) }
    ensures there { (p : ℕ) → In p (batched batch.old) → In p (batched batch.new) ⊎ In p (known scanner.new.seat) }
{
    if !batch.is_beside(place) {
        claim_batch(marks, scanner, batch);
        batch.renew(place);
    }
}

/// Claims these places. Those that follow each other in one word are claimed in one step.
#[inline(always)]
pub(crate) fn claim_all(marks: &Marks, scanner: &mut Scanner, places: &[u32])
    requires fits { IsScannerOf marks.now scanner.old }
    requires places { Every (λ p. p < place_count (graph_in marks.now)) places.now }
    requires justified { Every (IsJustified (graph_in marks.now) (known scanner.old.seat)) places.now }
    ensures wins { Wins marks.now scanner.old scanner.new }
    ensures there { (p : ℕ) → In p places.now → In p (known scanner.new.seat) }
{
    let Some((first, rest)) = places.split_first() else {
        return;
    };
    let mut batch = Batch::of(*first);
    for place in rest {
        make_ready(marks, scanner, &mut batch, *place);
        batch.insert(*place);
    }
    claim_batch(marks, scanner, &batch);
}

// Claims these sleepers of a graph with `nodes` nodes.
fn awaken(marks: &Marks, scanner: &mut Scanner, nodes: u32, sleepers: &[u32])
    requires fits { IsScannerOf marks.now scanner.old }
    requires places { Every (λ s. nodes + s < place_count (graph_in marks.now)) sleepers.now }
    requires small { place_count (graph_in marks.now) < 2 ^ 32 }
    requires justified { Every (λ s. IsJustified (graph_in marks.now) (known scanner.old.seat) (nodes + s)) sleepers.now }
    ensures wins { Wins marks.now scanner.old scanner.new }
    ensures there { (s : ℕ) → In s sleepers.now → In (nodes + s) (known scanner.new.seat) }
{
    for sleeper in sleepers {
        claim(marks, scanner, nodes + *sleeper);
    }
}

/// Claims all places that a known place justifies.
#[inline(always)]
pub(crate) fn scan(
    marks: &Marks,
    graph: &Graph,
    waiters: &Waiters,
    scanner: &mut Scanner,
    place: u32,
)
    requires fits { IsScannerOf marks.now scanner.old }
    requires graph { graph_in marks.now ≡ graph.now }
    requires waiters { IsWaiters graph.now waiters.now }
    requires place { place < place_count graph.now }
    requires known { In place (known scanner.old.seat) }
    ensures wins { Wins marks.now scanner.old scanner.new }
    ensures scanned { IsScanned graph.now (known scanner.new.seat) place }
{
    let nodes = graph.nodes();
    if place < nodes {
        claim_all(marks, scanner, graph.children(place));
        awaken(marks, scanner, nodes, waiters.of(place));
    } else {
        claim_all(marks, scanner, graph.references(place - nodes));
    }
}
