//! Tests of the search over all schedules, on codes whose states can be counted by hand.

use crate::codes::{endless, leak, printers};
use golf_base::Memory;
use golf_data::Code;
use golf_explore::{Exploration, Explored};
use golf_tests_support::can_run;
use std::alloc::Global;
use std::test::Fail;

/// The result of a search of a code.
#[derive(Clone, Copy, Debug, PartialEq, Eq)]
enum Found {
    /// All schedules were searched, and there are this many states.
    States(u32),
    /// A leak after this many turns.
    Leak(usize),
    Nothing,
}

// What the result of a search says.
fn told_by(explored: Explored) -> Found {
    match explored {
        Explored::AllVisited(told) if told.panics || told.sleeps => Found::Nothing,
        Explored::AllVisited(told) => Found::States(told.states),
        Explored::Leak(numbers) => Found::Leak(numbers.len()),
        Explored::Finalisers => Found::Nothing,
        Explored::TooMany => Found::Nothing,
    }
}

// Searches up to `most` states.
fn search_of(alloc: Global, code: Code, most: u32) -> Result<Found, Memory> {
    if !can_run(&code) {
        return Ok(Found::Nothing);
    }
    let mut search = Exploration::new(alloc, &code, most)?;
    for _ in 0..u32::MAX {
        if let Some(explored) = search.step(alloc, &code)? {
            return Ok(told_by(explored));
        }
    }
    Ok(Found::Nothing)
}

#[test]
fn a_loop_has_one_state(rt: HostRuntime) -> Result<(), Fail> {
    let code = endless(rt.alloc())?;
    assert_eq!(rt; search_of(rt.alloc(), code, 2)?, Found::States(1));
    Ok(())
}

#[test]
fn the_nearest_leak_is_found(rt: HostRuntime) -> Result<(), Fail> {
    // `main` starts the receiver in three turns, and the receiver blocks in its sixth turn.
    let code = leak(rt.alloc())?;
    assert_eq!(rt; search_of(rt.alloc(), code, 1_000)?, Found::Leak(9));
    Ok(())
}

#[test]
fn a_search_ends_at_the_limit(rt: HostRuntime) -> Result<(), Fail> {
    let code = printers(rt.alloc())?;
    assert_eq!(rt; search_of(rt.alloc(), code, 5)?, Found::Nothing);
    Ok(())
}
