//! Calls: the code after their arguments.
//!
//! A function of the file has its number plus one, since function 0 runs the initialisers. A method
//! takes its receiver as one more argument.

ghost use Rattle.std.specs.Prelude.{◌≡◌};
ghost use Rattle.golf_check_types.specs.Calls.{sets_finaliser as sets_finaliser_of};
ghost use Rattle.golf_code_of.specs.Calls.{operation as operation_of, calling as calling_of, finaliser as finaliser_of};
ghost use Rattle.golf_code_layout.specs.Emission.{Adds};

use crate::values::count;
use golf_base::{List, Memory};
use golf_check_types::{BuiltIn, Operand};
use golf_code_layout::{Emitted, op};
use golf_data::Instr;

// Adds the code of `Done`, which lowers a counter by one.
fn done(emitted: &mut List<Emitted>, line: u32) -> Result<(), Memory>
    ensures { Adds result (operation_of line BuiltIn.Done 0) emitted.old emitted.new }
{
    op(emitted, line, Instr::Int(-1))?;
    op(emitted, line, Instr::GroupAdd)
}

fn print(emitted: &mut List<Emitted>, line: u32, operands: usize) -> Result<(), Memory>
    ensures { Adds result (operation_of line BuiltIn.Print operands) emitted.old emitted.new }
{
    let operands = count(operands)?;
    op(emitted, line, Instr::Print(operands))
}

/// Adds the operation of a built-in call on its operands; `operands` is their number.
pub fn operation(
    emitted: &mut List<Emitted>,
    line: u32,
    built_in: BuiltIn,
    operands: usize,
) -> Result<(), Memory>
    ensures { Adds result (operation_of line built_in operands) emitted.old emitted.new }
{
    match built_in {
        BuiltIn::Length => op(emitted, line, Instr::Len),
        BuiltIn::Close => op(emitted, line, Instr::Close),
        BuiltIn::Panic => op(emitted, line, Instr::Panic),
        BuiltIn::Print => print(emitted, line, operands),
        BuiltIn::Collect => op(emitted, line, Instr::Collect),
        BuiltIn::SetFinalizer => Ok(()),
        BuiltIn::NewCondition => op(emitted, line, Instr::NewCond),
        BuiltIn::Lock => op(emitted, line, Instr::Lock),
        BuiltIn::Unlock => op(emitted, line, Instr::Unlock),
        BuiltIn::Add => op(emitted, line, Instr::GroupAdd),
        BuiltIn::Done => done(emitted, line),
        BuiltIn::WaitGroup => op(emitted, line, Instr::GroupWait),
        BuiltIn::WriteLock => op(emitted, line, Instr::RwLock),
        BuiltIn::WriteUnlock => op(emitted, line, Instr::RwUnlock),
        BuiltIn::ReadLock => op(emitted, line, Instr::ReadLock),
        BuiltIn::ReadUnlock => op(emitted, line, Instr::ReadUnlock),
        BuiltIn::WaitCondition => op(emitted, line, Instr::CondWait),
        BuiltIn::Signal => op(emitted, line, Instr::CondSignal),
        BuiltIn::Broadcast => op(emitted, line, Instr::CondBroadcast),
    }
}

fn call_function(
    emitted: &mut List<Emitted>,
    line: u32,
    number: u32,
    arguments: usize,
) -> Result<(), Memory>
    ensures { Adds result (calling_of line (Operand.Function number) arguments) emitted.old emitted.new }
{
    let number = number.checked_add(1).ok_or(Memory)?;
    let arguments = count(arguments)?;
    op(emitted, line, Instr::Call(number, arguments))
}

fn call_method(
    emitted: &mut List<Emitted>,
    line: u32,
    number: u32,
    arguments: usize,
) -> Result<(), Memory>
    ensures { Adds result (calling_of line (Operand.Method number) arguments) emitted.old emitted.new }
{
    let all = arguments.checked_add(1).ok_or(Memory)?;
    call_function(emitted, line, number, all)
}

/// Adds the call, after the code of receiver and arguments.
pub(crate) fn calling(
    emitted: &mut List<Emitted>,
    line: u32,
    callee: &Operand,
    arguments: usize,
) -> Result<(), Memory>
    ensures { Adds result (calling_of line callee.now arguments) emitted.old emitted.new }
{
    match callee {
        Operand::Function(number) => call_function(emitted, line, *number, arguments),
        Operand::Method(number) => call_method(emitted, line, *number, arguments),
        Operand::BuiltIn(built_in) => operation(emitted, line, *built_in, arguments),
        Operand::Value(_)
        | Operand::Outcome(_)
        | Operand::Constant(_, _)
        | Operand::Truth(_)
        | Operand::Variable(_, _)
        | Operand::Field(_, _)
        | Operand::Element(_)
        | Operand::Unknown
        | Operand::Nil
        | Operand::Blank
        | Operand::Nothing(_)
        | Operand::Package(_)
        | Operand::Struct(_)
        | Operand::TypeName => Ok(()),
    }
}

fn set_finaliser(emitted: &mut List<Emitted>, line: u32, number: u32) -> Result<(), Memory>
    ensures { Adds result (finaliser_of line (Operand.Function number)) emitted.old emitted.new }
{
    let number = number.checked_add(1).ok_or(Memory)?;
    op(emitted, line, Instr::SetFinalizer(number))
}

/// Returns whether a call sets a finaliser.
pub fn sets_finaliser(callee: &Operand) -> bool
    ensures { result ≡ sets_finaliser_of callee.now }
{
    match callee {
        Operand::BuiltIn(BuiltIn::SetFinalizer) => true,
        _ => false,
    }
}

/// Adds the instruction that makes a function the finaliser of the object on top, or takes its
/// finaliser away.
pub fn finaliser(emitted: &mut List<Emitted>, line: u32, function: &Operand) -> Result<(), Memory>
    ensures { Adds result (finaliser_of line function.now) emitted.old emitted.new }
{
    match function {
        Operand::Function(number) => set_finaliser(emitted, line, *number),
        _ => op(emitted, line, Instr::ClearFinalizer),
    }
}
