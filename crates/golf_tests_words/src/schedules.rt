//! Tests of schedules and of the events of a run.

use golf_base::{List, Memory};
use golf_run_schedules::{Event, Events, Schedule};
use std::alloc::Global;
use std::test::Fail;

// Whether the events are exactly these.
fn are(events: Events, wanted: &[Event]) -> bool {
    let mut events = events;
    for event in wanted {
        if events.next() != Some(*event) {
            return false;
        }
    }
    events.next().is_none()
}

#[test]
fn rotate_gives_the_numbers_from_0(rt: HostRuntime) {
    let events = Events::new(Schedule::Rotate, 3, None);
    assert!(rt; are(events, &[Event::Turn(0), Event::Turn(1), Event::Turn(2)]));
}

// The members of the congruence were computed apart from this code, with whole numbers.
#[test]
fn seed_0_begins_with_167951807(rt: HostRuntime) {
    let events = Events::new(Schedule::Seed(0), 3, None);
    let wanted = [
        Event::Turn(167_951_807),
        Event::Turn(218_396_424),
        Event::Turn(1_299_921_937),
    ];
    assert!(rt; are(events, wanted.as_slice()));
}

// Whether a run by the choices 7 and 0, of this number of turns at most, has these events.
fn are_chosen(alloc: Global, turns: u32, wanted: &[Event]) -> Result<bool, Memory> {
    let mut list = List::new(alloc);
    list.extend_from_slice(&[7, 0])?;
    Ok(are(Events::new(Schedule::Choices(list), turns, None), wanted))
}

#[test]
fn choices_end_a_run_before_its_turns(rt: HostRuntime) -> Result<(), Fail> {
    let both = are_chosen(rt.alloc(), 5, &[Event::Turn(7), Event::Turn(0)])?;
    let one = are_chosen(rt.alloc(), 1, &[Event::Turn(7)])?;
    assert!(rt; both && one);
    Ok(())
}

#[test]
fn a_collection_stands_after_each_second_turn(rt: HostRuntime) {
    let wanted = [
        Event::Turn(0),
        Event::Turn(1),
        Event::Collect,
        Event::Turn(2),
        Event::Turn(3),
        Event::Collect,
        Event::Turn(4),
    ];
    assert!(rt; are(Events::new(Schedule::Rotate, 5, Some(2)), wanted.as_slice()));
}

#[test]
fn a_collection_may_stand_after_each_turn(rt: HostRuntime) {
    let wanted = [
        Event::Turn(0),
        Event::Collect,
        Event::Turn(1),
        Event::Collect,
    ];
    assert!(rt; are(Events::new(Schedule::Rotate, 2, Some(1)), wanted.as_slice()));
}
