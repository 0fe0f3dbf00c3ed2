//! Tests of goroutines that send, receive, block, are woken, call, return and end.

use crate::codes::{NO_SENDER, ONE_CALL, ONE_COLLECTION, ONE_PANIC, ONE_VALUE, TWO_VALUES};
use crate::places_after_turns::{MAIN, OTHER};
use crate::runs::{Turns, blocking, can_run, comes_to, ends_after, first_sender, panicked, prints};
use golf_data::{Ending, PanicKind, Value, WaitKind};
use golf_machine::Turned;
use std::test::Fail;

#[test]
fn a_send_wakes_the_receiver(rt: HostRuntime) -> Result<(), Fail> {
    let rows = [(Turns(7, 0, 0), 1, OTHER), (Turns(10, 0, 0), 2, MAIN)];
    can_run(&rt, ONE_VALUE, rows.as_slice())
}

#[test]
fn a_receive_wakes_the_sender(rt: HostRuntime) -> Result<(), Fail> {
    let rows = [(Turns(5, 3, 0), 1, MAIN), (Turns(5, 3, 2), 2, MAIN)];
    can_run(&rt, ONE_VALUE, rows.as_slice())
}

#[test]
fn a_blocked_sender_waits_with_its_value(rt: HostRuntime) -> Result<(), Fail> {
    let how = blocking(rt.alloc(), ONE_VALUE, Turns(5, 3, 0))?;
    assert!(rt; how == Some((WaitKind::Send, 3, 5)));
    let sender = first_sender(rt.alloc(), ONE_VALUE, Turns(5, 3, 0))?;
    assert!(rt; sender == Some((OTHER, Value::Int(5))));
    Ok(())
}

#[test]
fn a_buffer_gives_its_values_in_order(rt: HostRuntime) -> Result<(), Fail> {
    prints(&rt, TWO_VALUES, Turns(5, 6, 5), "3 5\n")
}

#[test]
fn a_receive_without_a_sender_ends_asleep(rt: HostRuntime) -> Result<(), Fail> {
    ends_after(&rt, NO_SENDER, 3, Ending::Asleep)
}

#[test]
fn a_call_returns_to_its_caller(rt: HostRuntime) -> Result<(), Fail> {
    prints(&rt, ONE_CALL, Turns(4, 0, 0), "7\n")?;
    ends_after(&rt, ONE_CALL, 6, Ending::Returned)
}

#[test]
fn a_panic_in_a_call_ends_the_program(rt: HostRuntime) -> Result<(), Fail> {
    ends_after(&rt, ONE_PANIC, 6, panicked(PanicKind::ChanSize, 2))
}

#[test]
fn a_collection_is_asked_for(rt: HostRuntime) -> Result<(), Fail> {
    comes_to(&rt, ONE_COLLECTION, 2, Turned::WantsCollection)?;
    comes_to(&rt, ONE_COLLECTION, 3, Turned::Ended(Ending::Returned))
}
