//! Tests of how many turns returning and unwinding take. Expected values are from the Go specification
//! ("Handling panics", "Defer statements") and from the rules of this runtime.

use crate::codes::{DEFERRED_CALL, PANIC_IN_CALL, PLAIN_CALL};
use crate::runs::{ends_after, has_frames, panicked};
use golf_data::{Ending, PanicKind};
use std::test::Fail;

// A panic in a called function takes one turn, and then one for each of the two frames.
#[test]
fn a_panic_takes_a_turn_and_one_for_each_frame(rt: HostRuntime) -> Result<(), Fail> {
    has_frames(&rt, PANIC_IN_CALL, &[(4, 2), (5, 1)])?;
    ends_after(&rt, PANIC_IN_CALL, 6, panicked(PanicKind::Custom(1), 2))
}

// A return with a deferred call takes one turn. The call begins in one turn and returns in one. One more
// turn removes the frame.
#[test]
fn a_return_with_a_deferred_call_takes_a_turn_more(rt: HostRuntime) -> Result<(), Fail> {
    has_frames(&rt, DEFERRED_CALL, &[(3, 1), (4, 2), (5, 1)])?;
    ends_after(&rt, DEFERRED_CALL, 6, Ending::Returned)
}

// A return without a deferred call removes its frame in the same turn.
#[test]
fn a_return_without_a_deferred_call_takes_one_turn(rt: HostRuntime) -> Result<(), Fail> {
    has_frames(&rt, PLAIN_CALL, &[(2, 2), (3, 1)])?;
    ends_after(&rt, PLAIN_CALL, 4, Ending::Returned)
}
