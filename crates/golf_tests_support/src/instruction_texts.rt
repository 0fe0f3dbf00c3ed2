//! Reads instructions from a text.
//!
//! A text is cheaper to prove than a `vec!` of instructions, each of which may own memory.

use golf_base::{List, Memory};
use golf_data::{CaseKind, Instr, SelectCase, Value};
use std::alloc::{AllocError, Global};

/// The reason for which a text gives no instructions.
#[derive(Debug, Drop)]
pub enum TextFault {
    /// Out of memory.
    Memory,
    /// A word of the text is no instruction.
    NoInstruction,
}

impl From<Memory> for TextFault {
    fn from(_: Memory) -> Self {
        TextFault::Memory
    }
}

impl From<AllocError> for TextFault {
    fn from(_: AllocError) -> Self {
        TextFault::Memory
    }
}

// The instruction on values and variables of this name, or `None`.
fn of_values(name: &str) -> Option<Instr> {
    let found = match name {
        "Unit" => Instr::Unit,
        "Nil" => Instr::Nil,
        "Drop" => Instr::Drop,
        "Dup" => Instr::Dup,
        "Dup2" => Instr::Dup2,
        "Neg" => Instr::Neg,
        "Not" => Instr::Not,
        "Add" => Instr::Add,
        "Sub" => Instr::Sub,
        "Mul" => Instr::Mul,
        "Div" => Instr::Div,
        "Rem" => Instr::Rem,
        "Eq" => Instr::Eq,
        "Less" => Instr::Less,
        "AtMost" => Instr::AtMost,
        _ => return None,
    };
    Some(found)
}

// The instruction on objects and calls of this name, or `None`.
fn of_objects(name: &str) -> Option<Instr> {
    let found = match name {
        "Index" => Instr::Index,
        "SetIndex" => Instr::SetIndex,
        "Len" => Instr::Len,
        "Send" => Instr::Send,
        "Receive" => Instr::Receive,
        "ReceiveOk" => Instr::ReceiveOk,
        "Close" => Instr::Close,
        "Return" => Instr::Return,
        "ReturnValue" => Instr::ReturnValue,
        "Collect" => Instr::Collect,
        "ClearFinalizer" => Instr::ClearFinalizer,
        "Panic" => Instr::Panic,
        _ => return None,
    };
    Some(found)
}

// The instruction on mutexes, groups and conditions of this name, or `None`.
fn of_locks(name: &str) -> Option<Instr> {
    let found = match name {
        "NewMutex" => Instr::NewMutex,
        "NewGroup" => Instr::NewGroup,
        "NewRw" => Instr::NewRw,
        "NewCond" => Instr::NewCond,
        "Lock" => Instr::Lock,
        "Unlock" => Instr::Unlock,
        "GroupAdd" => Instr::GroupAdd,
        "GroupWait" => Instr::GroupWait,
        "RwLock" => Instr::RwLock,
        "RwUnlock" => Instr::RwUnlock,
        "ReadLock" => Instr::ReadLock,
        "ReadUnlock" => Instr::ReadUnlock,
        "CondMutex" => Instr::CondMutex,
        "CondWait" => Instr::CondWait,
        "CondSignal" => Instr::CondSignal,
        "CondBroadcast" => Instr::CondBroadcast,
        _ => return None,
    };
    Some(found)
}

// The instruction of this name with a number, or `None`.
fn with_number(name: &str, number: u32) -> Option<Instr> {
    let found = match name {
        "Text" => Instr::Text(number),
        "Load" => Instr::Load(number),
        "Store" => Instr::Store(number),
        "LoadGlobal" => Instr::LoadGlobal(number),
        "StoreGlobal" => Instr::StoreGlobal(number),
        "Jump" => Instr::Jump(number),
        "JumpIfNot" => Instr::JumpIfNot(number),
        "NewStruct" => Instr::NewStruct(number),
        "Field" => Instr::Field(number),
        "SetField" => Instr::SetField(number),
        "Print" => Instr::Print(number),
        "SetFinalizer" => Instr::SetFinalizer(number),
        _ => return None,
    };
    Some(found)
}

// The instruction of this name with a function and its number of arguments, or `None`.
fn with_function(name: &str, function: u32, count: u32) -> Option<Instr> {
    match name {
        "Call" => Some(Instr::Call(function, count)),
        "Go" => Some(Instr::Go(function, count)),
        "Defer" => Some(Instr::Defer(function, count)),
        _ => None,
    }
}

fn kind_of(name: &str) -> Option<CaseKind> {
    match name {
        "Send" => Some(CaseKind::Send),
        "Take" => Some(CaseKind::Take),
        "TakeOk" => Some(CaseKind::TakeOk),
        _ => None,
    }
}

fn number(text: &str) -> Option<u32> {
    text.parse::<u32>().ok()
}

// The case of a kind and a target.
fn case(text: &str) -> Option<SelectCase> {
    let (name, target) = text.split_once(' ')?;
    Some(SelectCase {
        kind: kind_of(name)?,
        target: number(target)?,
    })
}

// A `select` from its cases. Each is a kind and a target, and the last one may be `default`.
fn select(alloc: Global, inside: &str) -> Result<Option<Instr>, Memory> {
    let mut cases = List::new(alloc);
    let mut default = None;
    for text in inside.split(", ") {
        match (case(text), text.strip_prefix("default ")) {
            (Some(case), _) => cases.push(case)?,
            (None, Some(target)) => default = number(target),
            (None, None) => return Ok(None),
        }
    }
    Ok(Some(Instr::Select(cases, default)))
}

// The instruction of this name with numbers or an integer, or `None`.
fn with_numbers(name: &str, inside: &str) -> Option<Instr> {
    match (name, inside.split_once(", ")) {
        ("Int", _) => Some(Instr::Int(inside.parse::<i64>().ok()?)),
        (_, Some((function, count))) => with_function(name, number(function)?, number(count)?),
        (_, None) => with_number(name, number(inside)?),
    }
}

// The instruction of this name with the text in its brackets, or `None`.
fn with(alloc: Global, name: &str, inside: &str) -> Result<Option<Instr>, Memory> {
    match (name, inside) {
        ("Select", _) => select(alloc, inside),
        ("NewSlice", "Int(0)") => Ok(Some(Instr::NewSlice(Value::Int(0)))),
        ("NewChan", "Int(0)") => Ok(Some(Instr::NewChan(Value::Int(0)))),
        ("Bool", "true") => Ok(Some(Instr::Bool(true))),
        _ => Ok(with_numbers(name, inside)),
    }
}

// The instruction of this name without a number, or `None`.
fn alone(name: &str) -> Option<Instr> {
    if let Some(found) = of_values(name) {
        return Some(found);
    }
    if let Some(found) = of_objects(name) {
        return Some(found);
    }
    of_locks(name)
}

// The instruction that a word writes, or `None`.
fn instr(alloc: Global, word: &str) -> Result<Option<Instr>, Memory> {
    match word.split_once('(') {
        None => Ok(alone(word)),
        Some((name, rest)) => with(alloc, name, rest.strip_suffix(')').unwrap_or("")),
    }
}

/// Returns the instructions of a text. They are written as `Debug` writes them, with a semicolon between.
/// The cases of a `select` are written as `Select(Take 6, Send 8, default 9)`.
pub fn instrs(alloc: Global, text: &str) -> Result<Vec<Instr>, TextFault> {
    let mut found = Vec::new(alloc);
    if text.is_empty() {
        return Ok(found);
    }
    for word in text.split(';') {
        match instr(alloc, word.trim())? {
            Some(instr) => match found.push(instr) {
                Ok(()) => {}
                Err(fault) => return Err(AllocError::from(fault).into()),
            },
            None => return Err(TextFault::NoInstruction),
        }
    }
    Ok(found)
}
