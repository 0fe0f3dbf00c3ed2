//! The code of statements that contain no other statement and need no function to be made.

ghost use Rattle.golf_code_facts.specs.Statements.{by_piece, simple_by, var_by, return_by, break_lay, continue_lay};
ghost use Rattle.golf_code_statements.specs.Lays.{around, Lays};

use crate::targets::Targets;
use golf_base::Memory;
use golf_code_expressions::Writer;
use golf_code_layout::exit;
use golf_code_simple::{returned, simple, variable};
use golf_syntax_trees::{OwnedExpr, Simple, Var};

/// Adds the code of a simple statement.
pub fn simple_at(writer: &mut Writer, targets: Targets, one: &Simple) -> Result<(), Memory>
    ensures { Lays result (by_piece (simple_by writer.old.draft.tables.now one.now.line one.now.kind) (around writer.old targets) writer.old.facts) writer.old writer.new }
{
    simple(writer, one)?;
    Ok(())
}

/// Adds the code of a variable.
pub fn variable_at(writer: &mut Writer, targets: Targets, var: &Var) -> Result<(), Memory>
    ensures { Lays result (by_piece (var_by writer.old.draft.tables.now var.now.line var.now.content) (around writer.old targets) writer.old.facts) writer.old writer.new }
{
    variable(writer, var)?;
    Ok(())
}

/// Adds the code of a return statement.
pub fn return_at(
    writer: &mut Writer,
    targets: Targets,
    line: u32,
    e: &Option<OwnedExpr>,
) -> Result<(), Memory>
    ensures { Lays result (by_piece (return_by writer.old.draft.tables.now line e.now) (around writer.old targets) writer.old.facts) writer.old writer.new }
{
    returned(writer, line, e)?;
    Ok(())
}

/// Adds the code of a break statement.
pub fn break_at(writer: &mut Writer, targets: Targets, line: u32) -> Result<(), Memory>
    ensures { Lays result (break_lay line (around writer.old targets) writer.old.facts) writer.old writer.new }
{
    exit(&mut writer.draft.emitted, line, targets.breaks)?;
    Ok(())
}

/// Adds the code of a continue statement.
pub fn continue_at(writer: &mut Writer, targets: Targets, line: u32) -> Result<(), Memory>
    ensures { Lays result (continue_lay line (around writer.old targets) writer.old.facts) writer.old writer.new }
{
    exit(&mut writer.draft.emitted, line, targets.continues)?;
    Ok(())
}
