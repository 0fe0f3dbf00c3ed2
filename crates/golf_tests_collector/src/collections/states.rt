//! A state for the tests of collections.

ghost use Rattle.std.specs.Prelude.{IfOk};
ghost use Rattle.golf_model.specs.Futures.{Numbered};
ghost use Rattle.golf_model.specs.Presence.{IsWhole};

use golf_base::{List, Memory};
use golf_data::{Channel, Object, Side, Value, Wait, WaitKind, Waits};
use golf_ring::Ring;
use golf_state::State;
use std::alloc::Global;

/// Returns a state in which goroutine 1 runs. Goroutine 2, started at line 3, is blocked at line 5 by a
/// receive from a channel to which nothing else refers.
pub fn stuck_state(alloc: Global) -> Result<State, Memory>
    ensures numbered { IfOk result Numbered }
    ensures whole { IfOk result IsWhole }
{
    let globals = List::new(alloc);
    let first = List::new(alloc);
    let mut state = State::new(alloc, globals, first, 1)?;
    let buffer = Ring::new(alloc);
    let channel = state.make(Object::Chan(Channel {
        capacity: 0,
        buffer,
        closed: false,
        zero: Value::Nil,
    }))?;
    let second = List::new(alloc);
    let g = state.spawn(second, 3)?;
    let wait = Wait {
        object: channel,
        side: Side::Receive,
        value: Value::Nil,
        target: None,
        with_ok: false,
    };
    state.block(g, WaitKind::Receive, 5, Waits::one(alloc, wait), 0, 0)?;
    Ok(state)
}
