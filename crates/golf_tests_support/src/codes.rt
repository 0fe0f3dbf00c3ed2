//! Codes made by hand, for tests.

ghost use Rattle.std.specs.Prelude.{IsTrue};
ghost use Rattle.golf_data.specs.Places.{HasPlaces};
ghost use Rattle.golf_tests_support.specs.Ready.{HasSmallPlaces};

use golf_base::{List, Memory};
use golf_data::{Code, CodeLine, Function, Instr, Value};
use golf_live::live;
use std::alloc::Global;

/// Returns these instructions, on the lines 1, 2 and so on.
pub fn lines(alloc: Global, instrs: Vec<Instr>) -> Result<List<CodeLine>, Memory> {
    let mut body = List::new(alloc);
    let mut line = 0u32;
    for instr in instrs {
        line = line.saturating_add(1);
        body.push(CodeLine { instr, line })?;
    }
    Ok(body)
}

/// Returns a function at line 1 with four slots and room for four operands. Its arguments take the first
/// slots. Its masks are those of its body.
pub fn function(alloc: Global, params: u32, body: List<CodeLine>) -> Result<Function, Memory> {
    let live = live(alloc, 4, body.as_slice())?;
    Ok(Function {
        params,
        slots: 4,
        depth: 4,
        line: 1,
        body,
        live,
    })
}

/// Returns a code without texts that has these functions and globals, and one struct type with these
/// fields. The first function is `main`, at line 1.
pub fn code(
    alloc: Global,
    functions: List<Function>,
    globals: &[Value],
    fields: &[Value],
) -> Result<Code, Memory> {
    let mut own_globals = List::new(alloc);
    own_globals.extend_from_slice(globals)?;
    let mut own_fields = List::new(alloc);
    own_fields.extend_from_slice(fields)?;
    let mut structs = List::new(alloc);
    structs.push(own_fields)?;
    Ok(Code {
        functions,
        globals: own_globals,
        structs,
        texts: List::new(alloc),
        main_line: 1,
    })
}

// Whether the body of a function has fewer than 2^32 instructions.
fn is_ready(function: &Function) -> bool
    ensures { IsTrue result → HasSmallPlaces function.now }
{
    function.body.len() < (1 << 32)
}

/// Returns whether the machine can step a code.
#[tactic(auto, using(crate::proofs::Readiness::ready_places))]
pub fn can_run(code: &Code) -> bool
    ensures { IsTrue result → HasPlaces code.now }
{
    let functions = code.functions.as_slice();
    functions.iter().all(|function| is_ready(function))
}
