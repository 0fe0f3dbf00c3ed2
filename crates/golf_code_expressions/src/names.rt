//! The code of names, and of values that are made by the name of their type.
//!
//! The operand of a name, which its fact has, says what the name means. No scope is looked at.

ghost use Rattle.golf_code_of.specs.Expressions.{name as name_of, variable as variable_of, new_struct as new_struct_of};
ghost use Rattle.golf_code_of.specs.Expressions.{new_sync as new_sync_of};
ghost use Rattle.std.specs.Prelude.{◌≡◌};
ghost use Rattle.golf_check_types.specs.Expressions.{struct_of as struct_of_of};
ghost use Rattle.golf_code_of.specs.Values.{makes as makes_of};
ghost use Rattle.golf_code_facts.specs.Facts.{type_of_value, base_of as base_of_of};
ghost use Rattle.golf_code_facts.specs.Statements.{stores};
ghost use Rattle.golf_code_layout.specs.Emission.{Adds};

use crate::values::{constant, makes, push};
use golf_base::{List, Memory};
use golf_check_types::{Base, Operand, Where};
use golf_code_layout::{Emitted, op};
use golf_code_of::Tables;
use golf_data::Instr;

fn load(emitted: &mut List<Emitted>, line: u32, place: Where) -> Result<(), Memory>
    ensures { Adds result (variable_of line place).piece emitted.old emitted.new }
{
    match place {
        Where::Slot(slot) => op(emitted, line, Instr::Load(slot)),
        Where::Global(number) => op(emitted, line, Instr::LoadGlobal(number)),
    }
}

/// Adds the code that pushes the value of a name with this meaning.
pub fn name(
    tables: &Tables,
    line: u32,
    operand: &Operand,
    emitted: &mut List<Emitted>,
) -> Result<(), Memory>
    ensures { Adds result (name_of line tables.now operand.now).piece emitted.old emitted.new }
{
    match operand {
        Operand::Variable(place, _) => load(emitted, line, *place),
        Operand::Constant(number, _) => op(emitted, line, push(constant(tables, *number))),
        Operand::Truth(b) => op(emitted, line, Instr::Bool(*b)),
        Operand::Nil => op(emitted, line, Instr::Nil),
        Operand::Value(_)
        | Operand::Outcome(_)
        | Operand::Field(_, _)
        | Operand::Element(_)
        | Operand::Unknown
        | Operand::Blank
        | Operand::Nothing(_)
        | Operand::Function(_)
        | Operand::Method(_)
        | Operand::BuiltIn(_)
        | Operand::Package(_)
        | Operand::Struct(_)
        | Operand::TypeName => Ok(()),
    }
}

fn store_variable(emitted: &mut List<Emitted>, line: u32, place: Where) -> Result<(), Memory>
    ensures { Adds result (variable_of line place).store emitted.old emitted.new }
{
    match place {
        Where::Slot(slot) => op(emitted, line, Instr::Store(slot)),
        Where::Global(number) => op(emitted, line, Instr::StoreGlobal(number)),
    }
}

/// Adds the code that stores the top value under a name with this meaning, or drops it if the name
/// is `_`.
pub fn store(emitted: &mut List<Emitted>, line: u32, operand: &Operand) -> Result<(), Memory>
    ensures { (t : Tables) → Adds result (stores line t operand.now) emitted.old emitted.new }
{
    match operand {
        Operand::Variable(place, _) => store_variable(emitted, line, *place),
        Operand::Blank => op(emitted, line, Instr::Drop),
        Operand::Constant(_, _)
        | Operand::Truth(_)
        | Operand::Nil
        | Operand::Value(_)
        | Operand::Outcome(_)
        | Operand::Field(_, _)
        | Operand::Element(_)
        | Operand::Unknown
        | Operand::Nothing(_)
        | Operand::Function(_)
        | Operand::Method(_)
        | Operand::BuiltIn(_)
        | Operand::Package(_)
        | Operand::Struct(_)
        | Operand::TypeName => Ok(()),
    }
}

/// Returns the base of the type of a value, or `None` if it has none.
pub fn base_of(operand: &Operand) -> Option<Base>
    ensures { result ≡ base_of_of (type_of_value operand.now) }
{
    match operand {
        Operand::Value(Some(t)) => Some(t.base),
        _ => None,
    }
}

/// Returns the instruction that makes a slice or a channel of the type of a value.
pub fn makes_of_value(operand: &Operand) -> Instr
    ensures { result ≡ makes_of (type_of_value operand.now) }
{
    match operand {
        Operand::Value(t) => makes(t),
        _ => Instr::Nil,
    }
}

fn struct_of(base: Option<Base>) -> u32
    ensures { result ≡ struct_of_of base }
{
    match base {
        Some(Base::Pointer(number)) => number,
        _ => 0,
    }
}

/// Adds the code that makes a struct of the file.
pub fn new_struct(emitted: &mut List<Emitted>, line: u32, base: Option<Base>) -> Result<(), Memory>
    ensures { Adds result (new_struct_of line base).piece emitted.old emitted.new }
{
    op(emitted, line, Instr::NewStruct(struct_of(base)))
}

/// Adds the code that makes a mutex, a wait group, or a reader and writer mutex.
pub fn new_sync(emitted: &mut List<Emitted>, line: u32, base: Option<Base>) -> Result<(), Memory>
    ensures { Adds result (new_sync_of line base).piece emitted.old emitted.new }
{
    match base {
        None => Ok(()),
        Some(base) => match base {
            Base::Mutex => op(emitted, line, Instr::NewMutex),
            Base::Group => op(emitted, line, Instr::NewGroup),
            Base::ReadWriteMutex => op(emitted, line, Instr::NewRw),
            Base::Int | Base::Bool | Base::Text | Base::Unit | Base::Pointer(_) | Base::Condition =>
                Ok(()),
        },
    }
}
