//! Codes of two functions with a global, a struct type and texts, and the results of their runs.

use golf_base::{List, Memory};
use golf_data::{Code, Ending, Function, Value};
use golf_machine::start;
use golf_state::State;
use golf_tests_support::{code, function, instrs, lines, take_turn};
use std::alloc::Global;
use std::test::Fail;

/// How many turns a run has.
const TURNS: u64 = 120;

// The texts: the empty one, `a` and `b`.
fn texts(alloc: Global) -> Result<List<List<u8>>, Memory> {
    let mut texts = List::new(alloc);
    for text in ["", "a", "b"] {
        let mut bytes = List::new(alloc);
        bytes.extend_from_slice(text.as_bytes())?;
        texts.push(bytes)?;
    }
    Ok(texts)
}

// A function with `params` arguments and these instructions.
fn function_of(alloc: Global, params: u32, text: &str) -> Result<Function, Fail> {
    let body = lines(alloc, instrs(alloc, text)?)?;
    Ok(function(alloc, params, body)?)
}

// The function `main`, and function 1, which has one argument.
fn functions(alloc: Global, main: &str, other: &str) -> Result<List<Function>, Fail> {
    let mut functions = List::new(alloc);
    functions.push(function_of(alloc, 0, main)?)?;
    functions.push(function_of(alloc, 1, other)?)?;
    Ok(functions)
}

/// Returns the code of `main` and of function 1, which has one argument. These are their instructions. The
/// code has one global, an integer, and one struct type, with an integer and a pointer.
pub fn program(alloc: Global, main: &str, other: &str) -> Result<Code, Fail> {
    let fields = [Value::Int(0), Value::Nil];
    let functions = functions(alloc, main, other)?;
    let mut program = code(alloc, functions, &[Value::Int(0)], fields.as_slice())?;
    program.texts = texts(alloc)?;
    Ok(program)
}

// Takes turns with rising numbers, until the program has ended or the turns are spent.
fn go_on(alloc: Global, code: &Code, state: &mut State) -> Result<(), Memory> {
    for number in 0..TURNS {
        take_turn(alloc, code, state, number)?;
    }
    Ok(())
}

// The state after a run of a code.
fn run(alloc: Global, code: &Code) -> Result<State, Memory> {
    let mut state = start(alloc, code)?;
    go_on(alloc, code, &mut state)?;
    Ok(state)
}

// Whether a state has this output and this ending.
fn is_at_end(state: &State, text: &str, ending: Ending) -> bool {
    state.output() == text.as_bytes() && state.ending() == Some(ending)
}

/// Returns whether a run of the code with these instructions of `main` and of function 1 prints this text
/// and ends so.
pub fn ends(
    alloc: Global,
    instructions: (&str, &str),
    text: &str,
    ending: Ending,
) -> Result<bool, Fail> {
    let (main, other) = instructions;
    let code = program(alloc, main, other)?;
    let state = run(alloc, &code)?;
    Ok(is_at_end(&state, text, ending))
}
