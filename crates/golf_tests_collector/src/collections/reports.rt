//! Tests of the report of a collection, and of the number of its markers.

ghost use Rattle.std.specs.Prelude.{◌<◌, ◌≤◌};
ghost use Rattle.golf_model.specs.Futures.{Leads};

use crate::collections::collected_states::{collect_by, collect_once};
use crate::collections::programs::{RECEIVER, program, state_of};
use golf_base::{GoroutineId, Memory};
use golf_data::{Code, Entry, WaitKind};
use golf_reclaim::{CollectOptions, Ledger, sets_finalisers};
use golf_state::State;
use golf_tests_support::{CountingGate, TextFault};
use std::alloc::Global;
use std::test::Fail;
use std::thread::Threads;

// A goroutine receives from a channel that no other goroutine has.
fn stuck_receiver(alloc: Global) -> Result<Code, TextFault> {
    program(
        alloc,
        "Int(0); NewChan(Int(0)); Nil; Go(1, 2); Jump(4)",
        RECEIVER,
    )
}

#[test]
fn a_report_tells_where_a_goroutine_was_started_and_waits(rt: HostRuntime) -> Result<(), Fail> {
    let code = stuck_receiver(rt.alloc())?;
    let mut state = state_of(rt.alloc(), &code)?;
    let mut book = Ledger::new(rt.alloc());
    let report = collect_once(&rt, rt.alloc(), &code, &mut state, &mut book, false)?;
    let stuck = Entry {
        goroutine: GoroutineId(2),
        wait: WaitKind::Receive,
        line: 2,
        started: 4,
    };
    assert!(rt; report.reported.as_slice() == [stuck].as_slice());
    Ok(())
}

// How many goroutines a collection reports, keeps and reclaims.
#[derive(Clone, Copy)]
struct Counts {
    reported: usize,
    kept: u32,
    reclaimed: u32,
}

// Collects once, and returns the counts of the report.
fn counted<R: Threads + Sync>(
    rt: &R,
    alloc: Global,
    code: &Code,
    state: &mut State,
    book: &mut Ledger,
    recover: bool,
) -> Result<Counts, Memory>
    requires { Leads code.now state.old }
    ensures { Leads code.now state.new }
{
    let report = collect_once(rt, alloc, code, state, book, recover)?;
    Ok(Counts {
        reported: report.reported.len(),
        kept: report.kept,
        reclaimed: report.reclaimed,
    })
}

// Whether a receiver that was removed is reported again in another state, and removed silently after that.
fn is_reported_again<R: Threads + Sync>(
    rt: &R,
    alloc: Global,
    code: &Code,
) -> Result<bool, Memory> {
    let mut book = Ledger::new(alloc);
    let mut first = state_of(alloc, code)?;
    let mut second = state_of(alloc, code)?;
    let removed = counted(rt, alloc, code, &mut first, &mut book, true)?;
    let again = counted(rt, alloc, code, &mut second, &mut book, false)?;
    let silent = counted(rt, alloc, code, &mut second, &mut book, true)?;
    let removed = removed.reported == 1 && removed.reclaimed == 1;
    let again = again.reported == 1 && again.kept == 1;
    Ok(removed && again && silent.reported == 0 && silent.reclaimed == 1)
}

#[test]
fn a_removed_goroutine_that_is_there_again_is_reported_again(rt: HostRuntime) -> Result<(), Fail> {
    let code = stuck_receiver(rt.alloc())?;
    assert!(rt; is_reported_again(&rt, rt.alloc(), &code)?);
    Ok(())
}

// How often `markers` markers pass the gate of the second marking.
fn second_passes<R: Threads + Sync>(rt: &R, alloc: Global, markers: u32) -> Result<u64, Fail>
    requires some { 0 < markers }
    requires few { markers ≤ 16 }
{
    let code = stuck_receiver(alloc)?;
    let mut state = state_of(alloc, &code)?;
    let mut book = Ledger::new(alloc);
    let gate = CountingGate::new();
    let options = CollectOptions {
        markers,
        recover: true,
        sets_finalisers: sets_finalisers(&code),
    };
    let _ = collect_by(rt, alloc, &code, &mut state, &mut book, options, &gate)?;
    Ok(gate.passes())
}

#[test]
fn the_second_marking_has_as_many_markers_as_it_is_told(rt: HostRuntime) -> Result<(), Fail> {
    // Each marker passes the gate once more in its last turn, so 15 more markers are 15 more passes.
    let alone = second_passes(&rt, rt.alloc(), 1)?;
    let sixteen = second_passes(&rt, rt.alloc(), 16)?;
    assert!(rt;
        sixteen.checked_sub(alone) == Some(15),
        "{alone}, {sixteen}"
    );
    Ok(())
}
