//! Takes turns of the machine, one at a time.

ghost use Rattle.golf_model.specs.Futures.{Leads};

use crate::codes::can_run;
use golf_base::Memory;
use golf_data::Code;
use golf_machine::{Turned, turn};
use golf_state::State;
use std::alloc::Global;

/// Takes the turn of this number, and returns its result. `None` if the program has ended or the machine
/// cannot step its code.
pub fn take_turn(
    alloc: Global,
    code: &Code,
    state: &mut State,
    number: u64,
) -> Result<Option<Turned>, Memory>
    ensures { Leads code.now state.old → Leads code.now state.new }
{
    if state.ending().is_some() {
        return Ok(None);
    }
    if !can_run(code) {
        return Ok(None);
    }
    let turned = turn(alloc, code, state, number)?;
    Ok(Some(turned))
}
