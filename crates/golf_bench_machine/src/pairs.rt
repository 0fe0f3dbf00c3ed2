//! A state in which many goroutines are blocked. Half of them are live.

ghost use Rattle.std.specs.Prelude.{IfOk};
ghost use Rattle.golf_model.specs.Futures.{Leads, Numbered};
ghost use Rattle.golf_model.specs.Presence.{IsWhole};

use golf_base::{List, Memory};
use golf_data::{Code, Instr, Value};
use golf_machine::start;
use golf_state::State;
use golf_tests_support::{code, function, lines, take_turn};
use std::alloc::Global;

// The instructions of `main`: it starts two goroutines for each pair, each of which receives from its own
// channel. The channel of the second one is in a list of structs that a global holds. Then `main` runs for
// ever.
fn starts(alloc: Global, pairs: u32) -> Result<Vec<Instr>, Memory> {
    let instrs = vec![in alloc;
        Instr::Int(i64::from(pairs)),
        Instr::Store(2),
        Instr::Int(0),
        Instr::Load(2),
        Instr::Less,
        Instr::JumpIfNot(29),
        Instr::Int(0),
        Instr::NewChan(Value::Int(0)),
        Instr::Go(1, 1),
        Instr::Int(0),
        Instr::NewChan(Value::Int(0)),
        Instr::Store(0),
        Instr::NewStruct(0),
        Instr::Store(1),
        Instr::Load(1),
        Instr::Load(0),
        Instr::SetField(0),
        Instr::Load(1),
        Instr::LoadGlobal(0),
        Instr::SetField(1),
        Instr::Load(1),
        Instr::StoreGlobal(0),
        Instr::Load(0),
        Instr::Go(1, 1),
        Instr::Load(2),
        Instr::Int(1),
        Instr::Sub,
        Instr::Store(2),
        Instr::Jump(2),
        Instr::Jump(29),
    ]?;
    Ok(instrs)
}

// The instructions of a function that receives from its argument.
fn receives(alloc: Global) -> Result<Vec<Instr>, Memory> {
    let instrs = vec![in alloc; Instr::Load(0), Instr::Receive, Instr::Return]?;
    Ok(instrs)
}

// The code that starts this many pairs of goroutines.
fn pairs_code(alloc: Global, pairs: u32) -> Result<Code, Memory> {
    let mut functions = List::new(alloc);
    functions.push(function(alloc, 0, lines(alloc, starts(alloc, pairs)?)?)?)?;
    functions.push(function(alloc, 1, lines(alloc, receives(alloc)?)?)?)?;
    code(alloc, functions, &[Value::Nil], &[Value::Nil, Value::Nil])
}

// The state after this many turns of the code.
fn lead(alloc: Global, code: &Code, turns: u64) -> Result<State, Memory>
    ensures { IfOk result (Leads code.now) }
{
    let mut state = start(alloc, code)?;
    for number in 0..turns {
        if take_turn(alloc, code, &mut state, number)?.is_none() {
            return Ok(state);
        }
    }
    Ok(state)
}

/// Returns the state in which this many pairs of goroutines are blocked. The second goroutine of each pair
/// is live, and `main` runs.
pub(crate) fn blocked_state(alloc: Global, pairs: u32) -> Result<State, Memory>
    ensures numbered { IfOk result Numbered }
    ensures whole { IfOk result IsWhole }
{
    let code = pairs_code(alloc, pairs)?;
    let state = lead(alloc, &code, u64::from(pairs) * 100 + 100)?;
    Ok(state)
}
