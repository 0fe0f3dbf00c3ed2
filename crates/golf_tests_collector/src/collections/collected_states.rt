//! Collections of states that a code leads to.

ghost use Rattle.std.specs.Prelude.{◌≡◌, ◌<◌, ◌≤◌, ◌-◌, ◌||◌};
ghost use Rattle.golf_model.specs.Collections.{sets_finalisers as sets_finalisers_of};
ghost use Rattle.golf_model.specs.Futures.{Leads};

use golf_base::{Gate, Memory, OpenGate};
use golf_data::{Code, Report};
use golf_reclaim::{CollectOptions, Ledger, collect, sets_finalisers};
use golf_state::State;
use std::alloc::Global;
use std::thread::Threads;

/// How many collections a book of the tests has at most.
const MOST: u32 = 100;

/// Collects with two markers, and otherwise as `collect_by`.
pub fn collect_once<R: Threads + Sync>(
    rt: &R,
    alloc: Global,
    code: &Code,
    state: &mut State,
    book: &mut Ledger,
    recover: bool,
) -> Result<Report, Memory>
    requires { Leads code.now state.old }
    ensures { Leads code.now state.new }
{
    let options = CollectOptions {
        markers: 2,
        recover,
        sets_finalisers: sets_finalisers(code),
    };
    collect_by(rt, alloc, code, state, book, options, &OpenGate)
}

/// Collects a state that the code led to. The code leads to the state afterwards too. The gate is that of
/// the second marking. If the program has ended, or the book has counted `MOST` collections, the answer is
/// `Memory`.
pub fn collect_by<R: Threads + Sync, G: Gate + Sync>(
    rt: &R,
    alloc: Global,
    code: &Code,
    state: &mut State,
    book: &mut Ledger,
    options: CollectOptions,
    rest_gate: &G,
) -> Result<Report, Memory>
    requires leads { Leads code.now state.old }
    requires sets { options.sets_finalisers ≡ sets_finalisers_of code.now }
    requires some { 0 < options.markers }
    requires few { options.markers ≤ 16 }
    ensures { Leads code.now state.new }
{
    let free = book.collections() < MOST;
    let over = state.ending().is_some();
    if over || !free {
        return Err(Memory);
    }
    collect(rt, alloc, state, book, options, &OpenGate, rest_gate)
}
