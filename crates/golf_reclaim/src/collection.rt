//! A collection: it marks, reports, removes and frees, in one call.
//!
//! It takes all memory before it changes anything, so it happens whole or not at all.

ghost use Rattle.std.specs.Prelude.{◌≡◌, ◌-◌, ◌<◌, ◌≤◌, ◌^◌, IfOk, OnErr, OnOk};
ghost use Rattle.golf_model.specs.Collections.{real_collect};
ghost use Rattle.golf_model.specs.Presence.{IsWhole};
ghost use Rattle.golf_model.specs.Reports.{book_after, report};
ghost use Rattle.golf_reclaim.specs.Collected.{noted_by, report_of};
ghost use Rattle.golf_reclaim.specs.RunBook.{AreGone};
ghost use Rattle.golf_reclaim.specs.Promises.{AreStill, IsUnseen, LeavesExactly, MovesOnAfter};

use crate::ledger::Ledger;
use crate::markings::{find_dead, find_retained};
use crate::reported::entries;
use golf_base::{Gate, Memory};
use golf_data::Report;
use golf_snapshot::outside;
use golf_state::State;
use std::alloc::Global;
use std::thread::Threads;

/// The options of a collection.
#[derive(Clone, Copy, Debug, PartialEq, Eq)]
pub struct CollectOptions {
    /// How many markers there are, each in its own thread: 1 to 16.
    pub markers: u32,
    /// Whether the collection removes dead goroutines that the keep rule does not keep.
    pub recover: bool,
    /// Whether the code can give an object a finaliser.
    pub sets_finalisers: bool,
}

/// Collects: reports dead goroutines, and frees unreachable objects (package runtime, `SetFinalizer`;
/// profile). It does these steps:
///
/// - It finds the live objects and goroutines.
/// - It reports the dead goroutines that do not stay reported in the book.
/// - With `recover` it removes the dead goroutines that the keep rule does not keep.
/// - It queues the finalisers of objects that no root reaches.
/// - It frees the other objects that no root reaches.
///
/// A goroutine stays reported if the book has reported it more often than removed it. The clauses `report`
/// and `book` are about the state before the call. In every run no goroutine of that state was removed
/// before. Then report and book are those of the plain machine (`plain_report`, `plain_book`).
///
/// There are two markings by `options.markers` markers each: of the live places, and of the places that
/// stay. Each marker passes `live_gate` before each of its turns of the first marking, and `rest_gate` in
/// the second.
///
/// On `Err`, which is `Memory`, state and book are unchanged. That is also the answer if objects and
/// blocked goroutines together are too many for a `u32`.
pub fn collect<R: Threads + Sync, G: Gate + Sync, H: Gate + Sync>(
    rt: &R,
    alloc: Global,
    state: &mut State,
    book: &mut Ledger,
    options: CollectOptions,
    live_gate: &G,
    rest_gate: &H,
) -> Result<Report, Memory>
    requires whole { IsWhole state.old }
    requires count { book.old.collections < 2 ^ 32 - 1 }
    requires some { 0 < options.markers }
    requires few { options.markers ≤ 16 }
    ensures state { OnOk result (state.new ≡ real_collect state.old options.recover options.sets_finalisers) }
    ensures report { IfOk result (λ r. r ≡ report_of options.recover options.sets_finalisers book.old state.old) }
    ensures book { OnOk result (book.new ≡ noted_by options.recover options.sets_finalisers book.old state.old) }
    ensures plain_report { AreGone book.old state.old → IfOk result (λ r. r ≡ report options.recover options.sets_finalisers book.old state.old) }
    ensures plain_book { AreGone book.old state.old → OnOk result (book.new ≡ book_after options.recover options.sets_finalisers book.old state.old) }
    ensures err_state { OnErr result (state.new ≡ state.old) }
    ensures err_book { OnErr result (book.new ≡ book.old) }
    ensures still { IfOk result (λ r. AreStill r state.old) }
    ensures unseen { OnOk result (IsUnseen options.recover options.sets_finalisers state.old state.new) }
    ensures exactly { OnOk result (LeavesExactly options.recover options.sets_finalisers state.old state.new) }
    ensures moves_on { OnOk result (MovesOnAfter options.sets_finalisers state.old state.new) }
{
    let found = find_dead(rt, alloc, state, options, live_gate)?;
    let live = found.live;
    let gone = found.gone.as_slice();
    let rest = find_retained(rt, alloc, state, live, gone, options.markers, rest_gate)?;
    let goroutines = state.goroutines(alloc)?;
    let stays = outside(alloc, goroutines.as_slice(), gone)?;
    let new = book.unreported(alloc, found.dead.as_slice())?;
    let reported = entries(alloc, state, new.as_slice())?;
    book.note(alloc, state, &rest.marked, new.as_slice(), gone)?;
    state.retain_goroutines(stays.as_slice());
    state.retain_objects(rest.keep.as_slice());
    Ok(Report {
        number: book.collections(),
        marked: found.objects,
        reported,
        kept: (found.dead.len() - gone.len()) as u32,
        reclaimed: gone.len() as u32,
        objects: rest.objects,
    })
}
