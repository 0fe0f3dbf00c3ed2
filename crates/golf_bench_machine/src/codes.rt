//! The codes that are measured.

use golf_base::{List, Memory};
use golf_data::{Code, Instr, Value};
use golf_tests_support::{code, function, lines};
use std::alloc::Global;

/// The work that a code repeats.
#[derive(Clone, Copy, Debug, PartialEq, Eq)]
pub(crate) enum Kind {
    /// One goroutine sums up the numbers below 1,000,000: loads, sums, comparisons, jumps.
    Loop,
    /// Two goroutines send to each other in turn, on two unbuffered channels.
    Channel,
    /// Two goroutines lock and unlock a mutex.
    Mutex,
}

// The code of two functions without arguments, with two globals.
fn program(alloc: Global, main: Vec<Instr>, other: Vec<Instr>) -> Result<Code, Memory> {
    let mut functions = List::new(alloc);
    functions.push(function(alloc, 0, lines(alloc, main)?)?)?;
    functions.push(function(alloc, 0, lines(alloc, other)?)?)?;
    code(alloc, functions, &[Value::Nil, Value::Nil], &[])
}

// for { for i := 0; i < 1000000; i++ { sum += i } }
fn looping(alloc: Global) -> Result<Code, Memory> {
    let main = vec![in alloc;
        Instr::Int(0),
        Instr::Store(0),
        Instr::Load(0),
        Instr::Int(1_000_000),
        Instr::Less,
        Instr::JumpIfNot(0),
        Instr::Load(1),
        Instr::Load(0),
        Instr::Add,
        Instr::Store(1),
        Instr::Load(0),
        Instr::Int(1),
        Instr::Add,
        Instr::Store(0),
        Instr::Jump(2),
    ]?;
    program(alloc, main, Vec::new(alloc))
}

// One goroutine sends on the first channel and receives from the second, and the other one does the
// opposite.
fn talking(alloc: Global) -> Result<Code, Memory> {
    let main = vec![in alloc;
        Instr::Int(0),
        Instr::NewChan(Value::Int(0)),
        Instr::StoreGlobal(0),
        Instr::Int(0),
        Instr::NewChan(Value::Int(0)),
        Instr::StoreGlobal(1),
        Instr::Go(1, 0),
        Instr::LoadGlobal(0),
        Instr::Int(1),
        Instr::Send,
        Instr::LoadGlobal(1),
        Instr::Receive,
        Instr::Drop,
        Instr::Jump(7),
    ]?;
    let other = vec![in alloc;
        Instr::LoadGlobal(0),
        Instr::Receive,
        Instr::Drop,
        Instr::LoadGlobal(1),
        Instr::Int(1),
        Instr::Send,
        Instr::Jump(0),
    ]?;
    program(alloc, main, other)
}

// Two goroutines lock and unlock the same mutex.
fn locking(alloc: Global) -> Result<Code, Memory> {
    let main = vec![in alloc;
        Instr::NewMutex,
        Instr::StoreGlobal(0),
        Instr::Go(1, 0),
        Instr::LoadGlobal(0),
        Instr::Lock,
        Instr::LoadGlobal(0),
        Instr::Unlock,
        Instr::Jump(3),
    ]?;
    let other = vec![in alloc;
        Instr::LoadGlobal(0),
        Instr::Lock,
        Instr::LoadGlobal(0),
        Instr::Unlock,
        Instr::Jump(0),
    ]?;
    program(alloc, main, other)
}

/// Returns the code of a kind.
pub(crate) fn code_of(alloc: Global, kind: Kind) -> Result<Code, Memory> {
    match kind {
        Kind::Loop => looping(alloc),
        Kind::Channel => talking(alloc),
        Kind::Mutex => locking(alloc),
    }
}
