//! Tells how far a search is.

ghost use Rattle.std.specs.Prelude.{◌≡◌, ℕ, ◌+◌, List, Option, IfOk, IfSome};
ghost use Rattle.golf_explore_command.specs.Progress.{progress_line as progress_line_of, states_told, ToldUntil};
ghost use Rattle.golf_explore_command.specs.Progress.{HasToldLines};

use golf_base::{List, Memory, Sink, write_all};
use golf_run::RunFault;
use golf_run_texts::list_of;
use std::alloc::Global;

/// A line tells of so many more states than the line before it.
const STRIDE: u64 = 10_000;

// The line that tells of so many states.
fn progress_line(alloc: Global, states: u64) -> Result<List<u8>, Memory>
    ensures { IfOk result (λ line. line ≡ progress_line_of states) }
{
    let text = format!(in alloc; "{states} states so far\n")?;
    list_of(alloc, text.as_bytes())
}

// The number of the line after `told` lines, and how many states it tells of. `None` if these are too many.
fn line_after(told: u64) -> Option<(u64, u64)>
    ensures { IfSome result (λ line. (line.0 ≡ told + 1) × (line.1 ≡ states_told line.0)) }
{
    let next = told.checked_add(1)?;
    let due = next.checked_mul(STRIDE)?;
    Some((next, due))
}

/// Writes the line after `told` lines, if it is asked for and the search has its states. Returns how many lines were
/// written by then.
pub(crate) fn tell_progress<E: Sink>(
    alloc: Global,
    shows: bool,
    told: u64,
    states: u64,
    err: &mut E,
) -> Result<u64, RunFault>
    ensures { (first : Option (List ℕ)) (faults : ℕ) → HasToldLines shows told first (E.written err.old) faults (E.faults err.old)
        → ToldUntil (λ n. HasToldLines shows n first (E.written err.new) faults (E.faults err.new)) shows result first (E.written err.new) faults (E.faults err.new) }
{
    if !shows {
        return Ok(told);
    }
    match line_after(told) {
        Some((next, due)) if due <= states => {
            let line = progress_line(alloc, due)?;
            write_all(err, line.as_slice())?;
            Ok(next)
        }
        _ => Ok(told),
    }
}
