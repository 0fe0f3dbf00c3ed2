//! The functions that are made for `go` and `defer` of built-in calls.
//!
//! Each one pushes its parameters and does its operation. It gives no value.

ghost use Rattle.std.specs.Prelude.{◌≡◌, ◌++◌, ◌+◌, map, length, IfOk, OnOk};
ghost use Rattle.golf_code_layout.specs.Emission.{Adds};
ghost use Rattle.golf_code_of.specs.Files.{loads as loads_of, made_body as made_body_of};
ghost use Rattle.golf_code_of.specs.Files.{made_function as made_function_of};

use golf_base::{List, Memory};
use golf_check_types::GoType;
use golf_code_expressions::operation;
use golf_code_layout::{Emitted, op};
use golf_code_of::Making;
use golf_code_targets::function;
use golf_data::{Function, Instr};
use std::alloc::Global;

// Adds the code that pushes the parameters.
fn loads(
    emitted: &mut List<Emitted>,
    line: u32,
    parameters: &[Option<GoType>],
) -> Result<(), Memory>
    ensures { Adds result (loads_of line 0 parameters.now) emitted.old emitted.new }
{
    let mut slot = 0u32;
    for _ in parameters {
        op(emitted, line, Instr::Load(slot))?;
        slot = slot.checked_add(1).ok_or(Memory)?;
    }
    Ok(())
}

fn made_body(emitted: &mut List<Emitted>, making: &Making, count: u32) -> Result<(), Memory>
    requires { count ≡ length making.now.parameters }
    ensures { Adds result (made_body_of making.now) emitted.old emitted.new }
{
    loads(emitted, making.line, making.parameters.as_slice())?;
    operation(emitted, making.line, making.operation, count as usize)?;
    op(emitted, making.line, Instr::Return)
}

fn made_function(alloc: Global, gives: &[bool], making: &Making) -> Result<Function, Memory>
    ensures { IfOk result (λ f. f ≡ made_function_of gives.now making.now) }
{
    let Ok(count) = u32::try_from(making.parameters.len()) else {
        return Err(Memory);
    };
    let mut emitted = List::new(alloc);
    made_body(&mut emitted, making, count)?;
    function(alloc, gives, count, count, making.line, &mut emitted)
}

/// Adds the functions that are made to a list of functions.
pub fn made_functions(
    alloc: Global,
    gives: &[bool],
    makings: &[Making],
    functions: &mut List<Function>,
) -> Result<(), Memory>
    ensures { OnOk result (functions.new ≡ functions.old ++ map (made_function_of gives.now) makings.now) }
{
    for making in makings {
        let made = made_function(alloc, gives, making)?;
        functions.push(made)?;
    }
    Ok(())
}
