//! Turns in one batch, until the caller must act outside the machine.
//!
//! The caller must act after output, after a collection, and after the end of the program.

ghost use Rattle.std.specs.Prelude.{◌≡◌, None, IfOk, OnErr};
ghost use Rattle.golf_data.specs.Places.{HasPlaces};
ghost use Rattle.golf_model.specs.State.{ending};
ghost use Rattle.golf_machine.specs.Batches.{needs_outside, HasTaken, HasNoMemory};

use crate::inner_batches::go_on_inside;
use crate::numbers::Numbers;
use crate::turns::{Turned, turn};
use golf_base::Memory;
use golf_data::Code;
use golf_state::State;
use std::alloc::Global;

// Whether the caller must act after a turn.
#[inline(always)]
fn needs_outside(turned: Turned, printed: &[u8]) -> bool
    ensures { result ≡ needs_outside turned printed.now }
{
    match turned {
        Turned::Went => !printed.is_empty(),
        Turned::WantsCollection => true,
        Turned::Ended(_) => true,
    }
}

/// Takes turns until something was printed, the last turn was a collection, it ended the program, or no
/// turn comes next. Returns the result of the last turn if one of the first three stopped it, and else
/// `None`. On `Memory` the number of the last turn was given, and the state is the one before that turn.
pub fn take_turns<N: Numbers>(
    alloc: Global,
    code: &Code,
    state: &mut State,
    numbers: &mut N,
) -> Result<Option<Turned>, Memory>
    requires places { HasPlaces code.now }
    requires goes { ending state.old ≡ None }
    ensures ok { IfOk result (λ last. HasTaken last code.now state.old state.new (N.left numbers.old) (N.left numbers.new) (N.given numbers.old) (N.given numbers.new)) }
    ensures err { OnErr result (HasNoMemory code.now state.old state.new (N.left numbers.old) (N.left numbers.new) (N.given numbers.old) (N.given numbers.new)) }
{
    while let Some(number) = go_on_inside(code, state, numbers)? {
        let turned = turn(alloc, code, state, number)?;
        if needs_outside(turned, state.output()) {
            return Ok(Some(turned));
        }
    }
    Ok(None)
}
