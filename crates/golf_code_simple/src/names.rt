//! The code that stores values under names.

ghost use Rattle.golf_code_facts.specs.Statements.{stores_next, stores_two, past_two, defines_by};
ghost use Rattle.golf_code_expressions.specs.WriterClauses.{Writes};
ghost use Rattle.golf_code_simple.specs.SimpleClauses.{WritesSimple};

use golf_base::Memory;
use golf_code_expressions::{Writer, expression, store};
use golf_syntax_trees::Expr;

/// Adds the code that stores the top value under the name whose fact comes next.
pub fn store_next(writer: &mut Writer, line: u32) -> Result<(), Memory>
    ensures { WritesSimple result (stores_next line writer.old.draft.tables.now writer.old.facts) writer.old writer.new }
{
    let operand = writer.facts.operand();
    writer.facts.skip_one();
    store(&mut writer.draft.emitted, line, operand)
}

/// Adds the code that stores two values under the two names whose facts come next. The value of the
/// second is on top.
pub fn store_two(writer: &mut Writer, line: u32) -> Result<(), Memory>
    ensures { Writes result (stores_two line writer.old.draft.tables.now writer.old.facts) (past_two writer.old.facts) writer.old writer.new }
{
    let first = writer.facts.operand();
    writer.facts.skip_one();
    let second = writer.facts.operand();
    writer.facts.skip_one();
    store(&mut writer.draft.emitted, line, second)?;
    store(&mut writer.draft.emitted, line, first)
}

/// Adds the code of an expression, and the code that stores its value under a name.
pub fn define(writer: &mut Writer, line: u32, e: &Expr) -> Result<(), Memory>
    ensures { WritesSimple result (defines_by writer.old.draft.tables.now line e.now writer.old.facts) writer.old writer.new }
{
    expression(writer, line, e)?;
    store_next(writer, line)
}
