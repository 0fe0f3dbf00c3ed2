//! Tests of the removed, queued and freed parts of a state, with recovery and without.

use crate::collections::collected_states::collect_once;
use crate::collections::programs::{HOLDER, RECEIVER, go_on, program, state_of};
use golf_base::{Memory, ObjectId};
use golf_data::{Code, Object, Report};
use golf_reclaim::Ledger;
use golf_state::State;
use golf_tests_support::{count_finalisers, count_goroutines};
use std::alloc::Global;
use std::process::Abort;
use std::test::Fail;
use std::thread::Threads;

// The counts of a report, and the state after it.
#[derive(Clone, Copy, PartialEq, Eq)]
struct After {
    marked: u32,
    reported: usize,
    kept: u32,
    reclaimed: u32,
    objects: u32,
    // How many objects there are, and whether the first object is a locked mutex.
    there: u32,
    locked: bool,
    // How many goroutines there are, goroutines 0 and 1 included.
    goroutines: usize,
    finalisers: usize,
    // How many entries the finaliser queue has, and the object of the first one.
    queued: usize,
    first: Option<ObjectId>,
}

// Two collections, with turns between them, of a state that the code leads to.
#[derive(Clone, Copy, PartialEq, Eq)]
struct Story {
    first: After,
    second: After,
}

fn is_locked(object: Option<&Object>) -> bool {
    match object {
        Some(Object::Mutex(locked)) => *locked,
        Some(_) | None => false,
    }
}

fn seen_after(state: &State, report: &Report) -> After {
    After {
        marked: report.marked,
        reported: report.reported.len(),
        kept: report.kept,
        reclaimed: report.reclaimed,
        objects: report.objects,
        there: state.heap().count(),
        locked: is_locked(state.heap().get(ObjectId(1))),
        goroutines: count_goroutines(state),
        finalisers: count_finalisers(state),
        queued: state.queue().len(),
        first: state.queue().first().map(|queued| queued.object),
    }
}

fn story_of<R: Threads + Sync>(
    rt: &R,
    alloc: Global,
    code: &Code,
    recover: bool,
) -> Result<Story, Memory> {
    let mut state = state_of(alloc, code)?;
    let mut book = Ledger::new(alloc);
    let report = collect_once(rt, alloc, code, &mut state, &mut book, recover)?;
    let first = seen_after(&state, &report);
    go_on(alloc, code, &mut state)?;
    let report = collect_once(rt, alloc, code, &mut state, &mut book, recover)?;
    let second = seen_after(&state, &report);
    Ok(Story { first, second })
}

// Fails the test unless a code leads to these stories, without recovery and with it.
fn tells<R: AllocGlobal + Abort + Threads + Sync>(
    rt: &R,
    code: &Code,
    without: Story,
    with: Story,
) -> Result<(), Fail> {
    let found_without = story_of(rt, rt.alloc(), code, false)?;
    let found_with = story_of(rt, rt.alloc(), code, true)?;
    assert!(rt; found_without == without && found_with == with);
    Ok(())
}

// The collection finds nothing, and only goroutines 0 and 1 are there.
const NOTHING: After = After {
    marked: 0,
    reported: 0,
    kept: 0,
    reclaimed: 0,
    objects: 0,
    there: 0,
    locked: false,
    goroutines: 2,
    finalisers: 0,
    queued: 0,
    first: None,
};

// The first collection reports `reported` goroutines and removes `reclaimed` of them. The state that it
// leaves stays the same.
fn at_once(reported: usize, reclaimed: u32, left: After) -> Story {
    Story {
        first: After {
            reported,
            reclaimed,
            ..left
        },
        second: left,
    }
}

// A goroutine receives from a channel that no other goroutine has, and holds a struct that has a finaliser.
const HOLDER_OF_A_FINALISED_OBJECT: &str = "
    Int(0); NewChan(Int(0)); Store(0); NewStruct(0); Store(1); Load(1); SetFinalizer(2); Load(0);
    Load(1); Go(1, 2); Nil; Store(0); Nil; Store(1); Jump(14)";

#[test]
fn a_dead_holder_of_a_finalised_object_is_kept(rt: HostRuntime) -> Result<(), Fail> {
    let code = program(rt.alloc(), HOLDER_OF_A_FINALISED_OBJECT, HOLDER)?;
    let left = After {
        kept: 1,
        objects: 2,
        there: 2,
        goroutines: 3,
        finalisers: 1,
        ..NOTHING
    };
    let kept = at_once(1, 0, left);
    tells(&rt, &code, kept, kept)
}

// A goroutine receives from a channel that no other goroutine has, and holds a struct that `main` has too.
// An instruction that is never reached may give the struct a finaliser.
const SHARER_WITH_A_FINALISER: &str = "
    Int(0); NewChan(Int(0)); Store(0); NewStruct(0); Store(1); Load(0); Load(1); Go(1, 2); Nil; Store(0);
    Load(1); Drop; Jump(10); Load(1); SetFinalizer(2)";

// The same, except that the instruction drops the struct.
const SHARER: &str = "
    Int(0); NewChan(Int(0)); Store(0); NewStruct(0); Store(1); Load(0); Load(1); Go(1, 2); Nil; Store(0);
    Load(1); Drop; Jump(10); Load(1); Drop";

#[test]
fn a_dead_goroutine_with_a_live_object_is_kept_where_finalisers_are_set(
    rt: HostRuntime,
) -> Result<(), Fail> {
    let code = program(rt.alloc(), SHARER_WITH_A_FINALISER, HOLDER)?;
    let left = After {
        marked: 1,
        kept: 1,
        objects: 2,
        there: 2,
        goroutines: 3,
        ..NOTHING
    };
    let kept = at_once(1, 0, left);
    tells(&rt, &code, kept, kept)
}

#[test]
fn it_is_removed_where_none_is_set(rt: HostRuntime) -> Result<(), Fail> {
    let code = program(rt.alloc(), SHARER, HOLDER)?;
    let kept = After {
        marked: 1,
        kept: 1,
        objects: 2,
        there: 2,
        goroutines: 3,
        ..NOTHING
    };
    let gone = After {
        marked: 1,
        objects: 1,
        there: 1,
        ..NOTHING
    };
    tells(&rt, &code, at_once(1, 0, kept), at_once(1, 1, gone))
}

// A struct with a finaliser, to which nothing refers, has the channel on which a goroutine waits.
const UNREACHABLE_HOLDER_OF_A_CHANNEL: &str = "
    Int(0); NewChan(Int(0)); Store(0); NewStruct(0); Store(1); Load(1); Load(0); SetField(0); Load(1);
    SetFinalizer(2); Load(0); Nil; Go(1, 2); Nil; Store(0); Nil; Store(1); Jump(17)";

#[test]
fn an_unreachable_finalised_object_keeps_a_waiter_alive(rt: HostRuntime) -> Result<(), Fail> {
    let code = program(rt.alloc(), UNREACHABLE_HOLDER_OF_A_CHANNEL, RECEIVER)?;
    let first = After {
        marked: 1,
        objects: 2,
        there: 2,
        goroutines: 3,
        queued: 1,
        first: Some(ObjectId(2)),
        ..NOTHING
    };
    let left = After {
        reported: 1,
        kept: 1,
        objects: 1,
        there: 1,
        goroutines: 3,
        ..NOTHING
    };
    let gone = After {
        reported: 1,
        reclaimed: 1,
        ..NOTHING
    };
    let without = Story {
        first,
        second: left,
    };
    let with = Story {
        first,
        second: gone,
    };
    tells(&rt, &code, without, with)
}

// Two goroutines each receive from a channel that only the other one has.
const CYCLE: &str = "
    Int(0); NewChan(Int(0)); Store(0); Int(0); NewChan(Int(0)); Store(1); Load(0); Load(1); Go(1, 2);
    Load(1); Load(0); Go(1, 2); Nil; Store(0); Nil; Store(1); Jump(16)";

#[test]
fn a_cycle_is_collected_twice(rt: HostRuntime) -> Result<(), Fail> {
    let code = program(rt.alloc(), CYCLE, RECEIVER)?;
    let kept = After {
        kept: 2,
        objects: 2,
        there: 2,
        goroutines: 4,
        ..NOTHING
    };
    tells(&rt, &code, at_once(2, 0, kept), at_once(2, 2, NOTHING))
}

// A goroutine locks a mutex that a global holds. Then it receives from a channel that no other goroutine
// has.
const HOLDER_OF_A_GLOBAL_MUTEX: &str = "
    NewMutex; StoreGlobal(0); Int(0); NewChan(Int(0)); LoadGlobal(0); Go(1, 2); Jump(6)";

// The instructions of that goroutine.
const LOCKER: &str = "Load(1); Lock; Nil; Store(1); Load(0); Receive; Return";

#[test]
fn a_removed_goroutines_mutex_stays_locked(rt: HostRuntime) -> Result<(), Fail> {
    let code = program(rt.alloc(), HOLDER_OF_A_GLOBAL_MUTEX, LOCKER)?;
    let kept = After {
        marked: 1,
        kept: 1,
        objects: 2,
        there: 2,
        locked: true,
        goroutines: 3,
        ..NOTHING
    };
    let gone = After {
        marked: 1,
        objects: 1,
        there: 1,
        locked: true,
        ..NOTHING
    };
    tells(&rt, &code, at_once(1, 0, kept), at_once(1, 1, gone))
}

// Two structs to which nothing refers have finalisers, and the later one got its finaliser first. A third
// struct has none.
const UNREACHABLE_STRUCTS: &str = "
    NewStruct(0); Store(0); NewStruct(0); Store(1); Load(1); SetFinalizer(2); Load(0); SetFinalizer(2);
    NewStruct(0); Store(0); Nil; Store(1); Nil; Store(0); Jump(14)";

#[test]
fn finalisers_are_queued_by_rising_number(rt: HostRuntime) -> Result<(), Fail> {
    let code = program(rt.alloc(), UNREACHABLE_STRUCTS, RECEIVER)?;
    let first = After {
        objects: 2,
        there: 2,
        queued: 2,
        first: Some(ObjectId(1)),
        ..NOTHING
    };
    let told = Story {
        first,
        second: NOTHING,
    };
    tells(&rt, &code, told, told)
}

// A goroutine waits for ever on its own channel. There are two structs with finalisers, and a third one
// without.
const LEFT_BEHIND: &str = "
    Int(0); NewChan(Int(0)); Nil; Go(1, 2); NewStruct(0); SetFinalizer(2); NewStruct(0); SetFinalizer(2);
    NewStruct(0); Drop; Jump(10)";

// The parts of a state and of a book that a collection with recovery can change.
#[derive(Clone, Copy, PartialEq, Eq)]
struct Standing {
    objects: u32,
    goroutines: usize,
    finalisers: usize,
    queued: usize,
    collections: u32,
    reported: usize,
    reclaimed: usize,
}

fn standing_of(state: &State, book: &Ledger) -> Standing {
    Standing {
        objects: state.heap().count(),
        goroutines: count_goroutines(state),
        finalisers: count_finalisers(state),
        queued: state.queue().len(),
        collections: book.collections(),
        reported: book.reported().len(),
        reclaimed: book.reclaimed().len(),
    }
}

// The parts before a collection that may get no memory, whether it got all, and the parts after it.
fn collected<R: Threads + Sync>(rt: &R, alloc: Global) -> Result<(Standing, bool, Standing), Fail> {
    let code = program(alloc, LEFT_BEHIND, RECEIVER)?;
    let mut state = state_of(alloc, &code)?;
    let mut book = Ledger::new(alloc);
    let before = standing_of(&state, &book);
    let got = collect_once(rt, alloc, &code, &mut state, &mut book, true);
    Ok((before, got.is_ok(), standing_of(&state, &book)))
}

// `rt try --test --fail-alloc N` refuses each growth in turn.
#[test]
fn a_refused_growth_changes_neither_state_nor_book(rt: HostRuntime) -> Result<(), Fail> {
    let (before, got, after) = collected(&rt, rt.alloc())?;
    let left = Standing {
        objects: 4,
        goroutines: 3,
        finalisers: 2,
        queued: 0,
        collections: 0,
        reported: 0,
        reclaimed: 0,
    };
    let gone = Standing {
        objects: 2,
        goroutines: 2,
        finalisers: 0,
        queued: 2,
        collections: 1,
        reported: 1,
        reclaimed: 1,
    };
    let wanted = if got { gone } else { left };
    assert!(rt; before == left && after == wanted);
    Ok(())
}
