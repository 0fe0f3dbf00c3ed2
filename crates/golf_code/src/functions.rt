//! The code of the functions and methods of a file.
//!
//! A fact gives the slots of a function. Each body ends with a return, even if it cannot be reached.

ghost use Rattle.std.specs.Prelude.{◌≡◌, Some, IfOk};
ghost use Rattle.golf_code_layout.specs.Emission.{Adds};
ghost use Rattle.golf_code_of.specs.Files.{last_return as last_return_of};
ghost use Rattle.golf_code_facts.specs.Facts.{next, past_one, arguments_in, slots_in};
ghost use Rattle.golf_code_facts.specs.Files.{next_result, past_signature};
ghost use Rattle.golf_syntax_trees.specs.declared.declarations.Decl.TheVariants as decl_as;
ghost use Rattle.golf_code.specs.Steps.{WalksDeclaration};

use crate::walk::Walk;
use golf_base::{List, Memory};
use golf_check_types::{Fact, GoType, Signature};
use golf_code_expressions::{Draft, Facts, push, zero_value};
use golf_code_layout::{Emitted, op};
use golf_code_statements::body;
use golf_code_targets::function;
use golf_data::{Function, Instr};
use golf_syntax_trees::Func;

// Takes the fact of a function. Returns how many slots hold receiver and parameters, and how many slots there are.
fn take_slots(facts: &mut Facts) -> (u32, u32)
    ensures arguments { result.0 ≡ arguments_in (next facts.old) }
    ensures slots { result.1 ≡ slots_in (next facts.old) }
    ensures facts { facts.new ≡ past_one facts.old }
{
    match facts.take() {
        Some(
            Fact::Function {
                arguments,
                slots,
                ..
            },
        ) => (*arguments, *slots),
        _ => (0, 0),
    }
}

// Adds the return that ends a body.
fn last_return(
    emitted: &mut List<Emitted>,
    line: u32,
    result_type: &Option<GoType>,
) -> Result<(), Memory>
    ensures { Adds result (last_return_of line result_type.now) emitted.old emitted.new }
{
    match result_type {
        None => op(emitted, line, Instr::Return),
        Some(_) => {
            op(emitted, line, push(zero_value(result_type)))?;
            op(emitted, line, Instr::ReturnValue)
        }
    }
}

// Adds the return that ends the function with the next of these signatures.
fn next_return(
    emitted: &mut List<Emitted>,
    line: u32,
    signatures: &[Signature],
) -> Result<(), Memory>
    ensures { Adds result (last_return_of line (next_result signatures.now)) emitted.old emitted.new }
{
    match signatures {
        [] => op(emitted, line, Instr::Return),
        [signature, ..] => last_return(emitted, line, &signature.result),
    }
}

fn past(signatures: &[Signature]) -> &[Signature]
    ensures { result.now ≡ past_signature signatures.now }
{
    match signatures {
        [] => signatures,
        [_, others @ ..] => others,
    }
}

/// Walks over a function or method, which has the next signature, and returns its code.
pub fn own_function(walk: &mut Walk, func: &Func) -> Result<Function, Memory>
    ensures { IfOk result (λ own. WalksDeclaration (Some own) walk.old (decl_as.Func func.now) walk.new) }
{
    walk.writer.draft.emitted.clear();
    let (arguments, slots) = take_slots(&mut walk.writer.facts);
    body(&mut walk.writer, func.body.as_slice())?;
    next_return(&mut walk.writer.draft.emitted, func.line, walk.signatures)?;
    walk.signatures = past(walk.signatures);
    let Draft { alloc, emitted, .. } = &mut walk.writer.draft;
    function(*alloc, walk.gives, arguments, slots, func.line, emitted)
}
