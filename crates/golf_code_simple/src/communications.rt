//! The code of the communication of a clause of `select`: its operands, and its code once it is chosen.

ghost use Rattle.golf_code_facts.specs.Selects.{operands_by, takes_in};
ghost use Rattle.golf_code_expressions.specs.WriterClauses.{Extends};
ghost use Rattle.golf_code_simple.specs.SimpleClauses.{WritesSimple};

use crate::names::{store_next, store_two};
use golf_base::Memory;
use golf_code_expressions::{Writer, expression};
use golf_code_layout::op;
use golf_data::Instr;
use golf_syntax_trees::{Communication, Expr};

fn two_operands(writer: &mut Writer, line: u32, channel: &Expr, e: &Expr) -> Result<(), Memory>
    ensures { Extends result (operands_by writer.old.draft.tables.now (Communication.Send channel.now e.now) line writer.old.facts) writer.old writer.new }
{
    expression(writer, line, channel)?;
    expression(writer, line, e)
}

/// Adds the code that pushes the operands of a communication.
pub fn operands(writer: &mut Writer, line: u32, communication: &Communication) -> Result<(), Memory>
    ensures { Extends result (operands_by writer.old.draft.tables.now communication.now line writer.old.facts) writer.old writer.new }
{
    match communication {
        Communication::Send(channel, e) => two_operands(writer, line, channel.get(), e.get()),
        Communication::Receive(e) => expression(writer, line, e.get()),
        Communication::Define(_, e) => expression(writer, line, e.get()),
        Communication::Assign(_, e) => expression(writer, line, e.get()),
        Communication::DefineReceived(_, _, e) => expression(writer, line, e.get()),
    }
}

/// Skips the operands of a communication, and adds the code for the received values of a clause on this line.
pub fn communication(
    writer: &mut Writer,
    case_line: u32,
    communication: &Communication,
) -> Result<(), Memory>
    ensures { WritesSimple result (takes_in writer.old.draft.tables.now case_line communication.now writer.old.facts) writer.old writer.new }
{
    writer.facts.skip();
    match communication {
        Communication::Send(_, _) => {
            writer.facts.skip();
            Ok(())
        }
        Communication::Receive(_) => op(&mut writer.draft.emitted, case_line, Instr::Drop),
        Communication::Define(_, _) => store_next(writer, case_line),
        Communication::Assign(_, _) => store_next(writer, case_line),
        Communication::DefineReceived(_, _, _) => store_two(writer, case_line),
    }
}
