//! Codes for the tests of collections, and the states that they lead to.

ghost use Rattle.std.specs.Prelude.{IfOk};
ghost use Rattle.golf_model.specs.Futures.{Leads};

use golf_base::{List, Memory};
use golf_data::{Code, Value};
use golf_machine::start;
use golf_state::State;
use golf_tests_support::{TextFault, code, function, instrs, lines, take_turn};
use std::alloc::Global;

/// How many turns lead to these states.
const TURNS: u64 = 200;

/// The instructions of a function that receives from its first argument.
pub const RECEIVER: &str = "Load(0); Receive; Return";

/// The instructions of a function that receives from its first argument, and then reads the second one.
pub const HOLDER: &str = "Load(0); Receive; Drop; Load(1); Drop; Return";

/// Returns the code of `main`, of function 1 with two arguments, and of function 2, which takes an object
/// and returns. These are the instructions of the first two. The code has one global, and one struct type
/// with a pointer.
pub fn program(alloc: Global, main: &str, other: &str) -> Result<Code, TextFault> {
    let mut functions = List::new(alloc);
    functions.push(function(alloc, 0, lines(alloc, instrs(alloc, main)?)?)?)?;
    functions.push(function(alloc, 2, lines(alloc, instrs(alloc, other)?)?)?)?;
    functions.push(function(alloc, 1, lines(alloc, instrs(alloc, "Return")?)?)?)?;
    Ok(code(alloc, functions, &[Value::Nil], &[Value::Nil])?)
}

/// Returns the state after turns with rising numbers, until the program has ended or the turns are spent.
pub fn state_of(alloc: Global, code: &Code) -> Result<State, Memory>
    ensures { IfOk result (Leads code.now) }
{
    let mut state = start(alloc, code)?;
    go_on(alloc, code, &mut state)?;
    Ok(state)
}

/// Takes turns with rising numbers, until the program has ended or the turns are spent.
pub fn go_on(alloc: Global, code: &Code, state: &mut State) -> Result<(), Memory>
    requires { Leads code.now state.old }
    ensures { Leads code.now state.new }
{
    for number in 0..TURNS {
        if take_turn(alloc, code, state, number)?.is_none() {
            return Ok(());
        }
    }
    Ok(())
}
