//! The code of simple statements.

ghost use Rattle.std.specs.Prelude.{◌≡◌};
ghost use Rattle.golf_code_of.specs.Statements.{drops as drops_of, update_instr as update_instr_of};
ghost use Rattle.golf_code_layout.specs.Emission.{Adds};
ghost use Rattle.golf_code_facts.specs.Statements.{steps_by, simple_by, optional_by};
ghost use Rattle.golf_code_simple.specs.SimpleClauses.{WritesSimple};

use crate::names::{define, store_two};
use golf_base::{List, Memory};
use golf_check_types::Operand;
use golf_code_expressions::{Writer, expression, left_side, read, twice, write};
use golf_code_layout::{Emitted, op};
use golf_data::Instr;
use golf_syntax_trees::{Expr, OwnedSimple, Simple, SimpleKind, UpdateOperator};

// Drops the value that a call or receive leaves.
fn drops(emitted: &mut List<Emitted>, line: u32, operand: &Operand) -> Result<(), Memory>
    ensures { Adds result (drops_of line operand.now) emitted.old emitted.new }
{
    match operand {
        Operand::Nothing(_) => Ok(()),
        _ => op(emitted, line, Instr::Drop),
    }
}

fn action(writer: &mut Writer, line: u32, e: &Expr) -> Result<(), Memory>
    ensures { WritesSimple result (simple_by writer.old.draft.tables.now line (SimpleKind.Expression e.now) writer.old.facts) writer.old writer.new }
{
    let operand = writer.facts.operand();
    expression(writer, line, e)?;
    drops(&mut writer.draft.emitted, line, operand)
}

fn send(writer: &mut Writer, line: u32, channel: &Expr, e: &Expr) -> Result<(), Memory>
    ensures { WritesSimple result (simple_by writer.old.draft.tables.now line (SimpleKind.Send channel.now e.now) writer.old.facts) writer.old writer.new }
{
    expression(writer, line, channel)?;
    expression(writer, line, e)?;
    op(&mut writer.draft.emitted, line, Instr::Send)
}

fn step(writer: &mut Writer, line: u32, left: &Expr, instr: Instr) -> Result<(), Memory>
    ensures { WritesSimple result (steps_by writer.old.draft.tables.now line left.now instr writer.old.facts) writer.old writer.new }
{
    let found = left_side(writer, line, left)?;
    twice(&mut writer.draft.emitted, line, found)?;
    read(&mut writer.draft.emitted, line, found)?;
    op(&mut writer.draft.emitted, line, Instr::Int(1))?;
    op(&mut writer.draft.emitted, line, instr)?;
    write(&mut writer.draft.emitted, line, found)
}

fn assignment(writer: &mut Writer, line: u32, left: &Expr, e: &Expr) -> Result<(), Memory>
    ensures { WritesSimple result (simple_by writer.old.draft.tables.now line (SimpleKind.Assign left.now e.now) writer.old.facts) writer.old writer.new }
{
    let found = left_side(writer, line, left)?;
    expression(writer, line, e)?;
    write(&mut writer.draft.emitted, line, found)
}

fn update_instr(operator: UpdateOperator) -> Instr
    ensures { result ≡ update_instr_of operator }
{
    match operator {
        UpdateOperator::Add => Instr::Add,
        UpdateOperator::Subtract => Instr::Sub,
        UpdateOperator::Multiply => Instr::Mul,
        UpdateOperator::Divide => Instr::Div,
        UpdateOperator::Remainder => Instr::Rem,
    }
}

fn update(
    writer: &mut Writer,
    line: u32,
    left: &Expr,
    operator: UpdateOperator,
    e: &Expr,
) -> Result<(), Memory>
    ensures { WritesSimple result (simple_by writer.old.draft.tables.now line (SimpleKind.Update left.now operator e.now) writer.old.facts) writer.old writer.new }
{
    let found = left_side(writer, line, left)?;
    twice(&mut writer.draft.emitted, line, found)?;
    read(&mut writer.draft.emitted, line, found)?;
    expression(writer, line, e)?;
    op(&mut writer.draft.emitted, line, update_instr(operator))?;
    write(&mut writer.draft.emitted, line, found)
}

fn define_received(
    writer: &mut Writer,
    line: u32,
    first: &[u8],
    second: &[u8],
    e: &Expr,
) -> Result<(), Memory>
    ensures { WritesSimple result (simple_by writer.old.draft.tables.now line (SimpleKind.DefineReceived first.now second.now e.now) writer.old.facts) writer.old writer.new }
{
    expression(writer, line, e)?;
    op(&mut writer.draft.emitted, line, Instr::ReceiveOk)?;
    store_two(writer, line)
}

fn assign_received(
    writer: &mut Writer,
    line: u32,
    first: &[u8],
    second: &[u8],
    e: &Expr,
) -> Result<(), Memory>
    ensures { WritesSimple result (simple_by writer.old.draft.tables.now line (SimpleKind.AssignReceived first.now second.now e.now) writer.old.facts) writer.old writer.new }
{
    expression(writer, line, e)?;
    op(&mut writer.draft.emitted, line, Instr::ReceiveOk)?;
    store_two(writer, line)
}

/// Adds the code of a simple statement.
pub fn simple(writer: &mut Writer, simple: &Simple) -> Result<(), Memory>
    ensures { WritesSimple result (simple_by writer.old.draft.tables.now simple.now.line simple.now.kind writer.old.facts) writer.old writer.new }
{
    let line = simple.line;
    match simple.kind.get() {
        SimpleKind::Expression(e) => action(writer, line, e.get()),
        SimpleKind::Send(channel, e) => send(writer, line, channel.get(), e.get()),
        SimpleKind::Increment(left) => step(writer, line, left.get(), Instr::Add),
        SimpleKind::Decrement(left) => step(writer, line, left.get(), Instr::Sub),
        SimpleKind::Assign(left, e) => assignment(writer, line, left.get(), e.get()),
        SimpleKind::Update(left, operator, e) => {
            update(writer, line, left.get(), *operator, e.get())
        }
        SimpleKind::Define(_, e) => define(writer, line, e.get()),
        SimpleKind::DefineReceived(first, second, e) => {
            define_received(writer, line, first.as_slice(), second.as_slice(), e.get())
        }
        SimpleKind::AssignReceived(first, second, e) => {
            assign_received(writer, line, first.as_slice(), second.as_slice(), e.get())
        }
    }
}

/// Adds the code of a simple statement, if there is one.
pub fn optional(writer: &mut Writer, one: &Option<OwnedSimple>) -> Result<(), Memory>
    ensures { WritesSimple result (optional_by writer.old.draft.tables.now one.now writer.old.facts) writer.old writer.new }
{
    match one {
        None => Ok(()),
        Some(one) => simple(writer, one.get()),
    }
}
