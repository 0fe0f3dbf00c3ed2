//! The code of the initialisers of globals, which is part of function 0.
//!
//! A global without an initialiser has no code: it begins with its zero value.

ghost use Rattle.golf_code_facts.specs.Files.{initial_by};
ghost use Rattle.golf_syntax_trees.specs.declared.statements.VarContent.TheVariants as content_as;
ghost use Rattle.golf_code_simple.specs.SimpleClauses.{WritesSimple};

use golf_base::Memory;
use golf_code_expressions::{Writer, expression};
use golf_code_layout::op;
use golf_data::Instr;
use golf_syntax_trees::{Expr, VarContent};

// Adds the code that pushes a value and stores it in a global.
fn value(writer: &mut Writer, line: u32, global: u32, e: &Expr) -> Result<(), Memory>
    ensures { WritesSimple result (initial_by writer.old.draft.tables.now global line (content_as.Untyped e.now) writer.old.facts) writer.old writer.new }
{
    expression(writer, line, e)?;
    op(&mut writer.draft.emitted, line, Instr::StoreGlobal(global))
}

/// Adds the initialiser of a global, if it has one.
pub fn initial(
    writer: &mut Writer,
    line: u32,
    global: u32,
    content: &VarContent,
) -> Result<(), Memory>
    ensures { WritesSimple result (initial_by writer.old.draft.tables.now global line content.now writer.old.facts) writer.old writer.new }
{
    match content {
        VarContent::Zero(_) => Ok(()),
        VarContent::Typed(_, e) => value(writer, line, global, e.get()),
        VarContent::Untyped(e) => value(writer, line, global, e.get()),
    }
}
