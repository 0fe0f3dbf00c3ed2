//! The code of a file: function 0, its functions and methods, and the functions that are made.
//!
//! The facts are used twice: once for the values of constants, and once for the code of all
//! declarations.

ghost use Rattle.std.specs.Prelude.{◌≡◌, IfOk};
ghost use Rattle.golf_code_of.specs.Files.{giving as giving_of, main_number as main_number_of};
ghost use Rattle.golf_code_facts.specs.Files.{tables_by, all_functions, file_by, code_by};

use crate::constants::tables;
use crate::made::made_functions;
use crate::numbers::{giving, main_line, main_number};
use crate::values::{struct_zeros, zero_values};
use crate::walk::{Walk, start, walk_decls};
use golf_base::{List, Memory};
use golf_check_types::{Fact, FileScope, Operand};
use golf_code_expressions::Facts;
use golf_code_layout::op;
use golf_code_of::Tables;
use golf_code_targets::function;
use golf_data::{Code, Function, Instr};
use golf_syntax_trees::Decl;
use std::alloc::Global;

// Returns function 0, the functions of the file, and the functions that are made.
fn functions(
    alloc: Global,
    tables: &Tables,
    file: &FileScope,
    line: u32,
    decls: &[Decl],
    facts: Facts,
) -> Result<List<Function>, Memory>
    ensures { IfOk result (λ fs. fs ≡ all_functions (giving_of file.now) (main_number_of file.now) line (file_by tables.now file.now decls.now facts.entry)) }
{
    let gives = giving(alloc, file)?;
    let gives = gives.as_slice();
    let mut functions = List::new(alloc);
    // Keeps the place of function 0, whose code is whole only when the walk ends.
    functions.push(function(alloc, gives, 0, 0, line, &mut List::new(alloc))?)?;
    let mut walk = start(alloc, tables, gives, file, facts)?;
    walk_decls(&mut walk, decls, &mut functions)?;
    let Walk {
        mut initials,
        writer,
        ..
    } = walk;
    op(&mut initials, line, Instr::Call(main_number(file)?, 0))?;
    op(&mut initials, line, Instr::Return)?;
    functions.set(0, function(alloc, gives, 0, 0, line, &mut initials)?);
    made_functions(alloc, gives, writer.draft.made.as_slice(), &mut functions)?;
    Ok(functions)
}

/// Returns the code of the declarations of a file, by the facts of all of them.
pub fn code(alloc: Global, file: &FileScope, decls: &[Decl], facts: &[Fact]) -> Result<Code, Memory>
    ensures { IfOk result (λ code. code ≡ code_by (tables_by decls.now facts.now) file.now decls.now facts.now) }
{
    let unknown = Operand::Unknown;
    let tables = tables(alloc, decls, Facts::new(facts, &unknown))?;
    let line = main_line(decls);
    let facts = Facts::new(facts, &unknown);
    Ok(Code {
        functions: functions(alloc, &tables, file, line, decls, facts)?,
        globals: zero_values(alloc, file.globals.as_slice())?,
        structs: struct_zeros(alloc, file.fields.as_slice())?,
        texts: tables.texts.list(alloc)?,
        main_line: line,
    })
}
