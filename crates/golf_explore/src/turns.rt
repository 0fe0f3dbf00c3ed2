//! Takes turns, and drops the output of each.

ghost use Rattle.std.specs.Prelude.{◌≡◌, None, OnOk};
ghost use Rattle.golf_data.specs.Places.{HasPlaces};
ghost use Rattle.golf_model.specs.State.{ending};
ghost use Rattle.golf_explore_laws.specs.After.{after};

use golf_base::Memory;
use golf_data::Code;
use golf_machine::turn;
use golf_state::State;
use std::alloc::Global;

/// Takes a turn, and drops what it printed. On `Memory` the state is unchanged.
pub(crate) fn take(alloc: Global, code: &Code, state: &mut State, number: u64) -> Result<(), Memory>
    requires places { HasPlaces code.now }
    requires goes { ending state.old ≡ None }
    ensures { OnOk result (state.new ≡ after code.now state.old number) }
{
    turn(alloc, code, state, number)?;
    state.clear_output();
    Ok(())
}
