//! From parts to functions: all walks, and the masks of live slots.
//!
//! The walk that makes the lines comes last, since it takes the parts out of their list.

ghost use Rattle.std.specs.Prelude.{◌≡◌, IfOk};
ghost use Rattle.golf_code_targets.specs.Walks.{lines_of as lines_of_of};
ghost use Rattle.golf_code_targets.specs.Functions.{IsFunction};

use crate::bodies::lines_of;
use crate::heights::most_of;
use crate::targets::targets_of;
use golf_base::{List, Memory};
use golf_code_layout::Emitted;
use golf_data::{CodeLine, Function};
use golf_live::live;
use std::alloc::Global;

fn body_of(alloc: Global, emitted: &mut List<Emitted>) -> Result<List<CodeLine>, Memory>
    ensures { IfOk result (λ lines. lines ≡ lines_of_of emitted.old) }
{
    let found = targets_of(alloc, emitted.as_slice())?;
    lines_of(alloc, found.as_slice(), emitted)
}

/// Returns the function with these parts as its code, and takes them out of their list. What is left
/// in the list means nothing. `gives` says which functions give a value.
///
/// # Errors
///
/// `Memory` also comes if a `u32` cannot count the instructions of the body or the operands at a
/// place. No body of a file that is read has that many instructions (`golf_code_places`).
pub fn function(
    alloc: Global,
    gives: &[bool],
    params: u32,
    slots: u32,
    line: u32,
    emitted: &mut List<Emitted>,
) -> Result<Function, Memory>
    ensures { IfOk result (λ f. IsFunction gives.now params slots line emitted.old f) }
{
    let depth = most_of(alloc, gives, emitted.as_slice())?;
    let body = body_of(alloc, emitted)?;
    let live = live(alloc, slots, body.as_slice())?;
    Ok(Function {
        params,
        slots,
        depth,
        line,
        body,
        live,
    })
}
