//! The code of variables and returns.

ghost use Rattle.std.specs.Prelude.{◌≡◌};
ghost use Rattle.golf_check_types.specs.Types.{type_of};
ghost use Rattle.golf_code_of.specs.Values.{push as push_of, zero_value as zero_value_of};
ghost use Rattle.golf_code_facts.specs.Statements.{var_by, return_by};
ghost use Rattle.golf_code_simple.specs.SimpleClauses.{WritesSimple};

use crate::names::{define, store_next};
use golf_base::Memory;
use golf_check_types::{Base, Operand};
use golf_code_expressions::{Writer, base_zero, expression, push, zero_value};
use golf_code_layout::op;
use golf_data::Instr;
use golf_syntax_trees::{OwnedExpr, TypeExpr, Var, VarContent};

// Returns the instruction that pushes the zero value of a variable.
fn zero_of(operand: &Operand) -> Instr
    ensures { result ≡ push_of (zero_value_of (type_of operand.now)) }
{
    match operand {
        Operand::Value(t)
        | Operand::Outcome(t)
        | Operand::Variable(_, t)
        | Operand::Field(_, t)
        | Operand::Element(t) => push(zero_value(t)),
        Operand::Constant(_, base) => push(base_zero(*base)),
        Operand::Truth(_) => push(base_zero(Base::Bool)),
        Operand::Unknown
        | Operand::Nil
        | Operand::Blank
        | Operand::Nothing(_)
        | Operand::Function(_)
        | Operand::Method(_)
        | Operand::BuiltIn(_)
        | Operand::Package(_)
        | Operand::Struct(_)
        | Operand::TypeName => Instr::Nil,
    }
}

// Adds the code of `var n T`.
fn zero(writer: &mut Writer, line: u32, of_type: &TypeExpr) -> Result<(), Memory>
    ensures { WritesSimple result (var_by writer.old.draft.tables.now line (VarContent.Zero of_type.now) writer.old.facts) writer.old writer.new }
{
    let operand = writer.facts.operand();
    op(&mut writer.draft.emitted, line, zero_of(operand))?;
    store_next(writer, line)
}

/// Adds the code of a variable.
pub fn variable(writer: &mut Writer, var: &Var) -> Result<(), Memory>
    ensures { WritesSimple result (var_by writer.old.draft.tables.now var.now.line var.now.content writer.old.facts) writer.old writer.new }
{
    let line = var.line;
    match var.content.get() {
        VarContent::Zero(of_type) => zero(writer, line, of_type.get()),
        VarContent::Typed(_, e) => define(writer, line, e.get()),
        VarContent::Untyped(e) => define(writer, line, e.get()),
    }
}

/// Adds the code of a return.
pub fn returned(writer: &mut Writer, line: u32, e: &Option<OwnedExpr>) -> Result<(), Memory>
    ensures { WritesSimple result (return_by writer.old.draft.tables.now line e.now writer.old.facts) writer.old writer.new }
{
    match e {
        None => op(&mut writer.draft.emitted, line, Instr::Return),
        Some(e) => {
            expression(writer, line, e.get())?;
            op(&mut writer.draft.emitted, line, Instr::ReturnValue)
        }
    }
}
