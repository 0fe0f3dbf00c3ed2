//! The comparison of the functions of a code with those of a file's own code. `golf_meaning` uses it.

ghost use Rattle.std.specs.Prelude.{◌↔◌, IfOk, IsTrue};
ghost use Rattle.golf_code_facts.specs.Files.{tables_by, file_by};
ghost use Rattle.golf_code.specs.Steps.{ended};
ghost use Rattle.golf_code.specs.Comparison.{HasSameBody, BeginAs};

use crate::constants::tables;
use crate::numbers::giving;
use crate::walk::{Walk, start, walk_decl};
use golf_base::Memory;
use golf_check_types::{Fact, FileScope, Operand};
use golf_code_expressions::Facts;
use golf_data::{Function, same_lines};
use golf_syntax_trees::Decl;
use std::alloc::Global;

/// Returns whether both functions have the same parameters, slots and body.
pub fn has_same_body(function: &Function, other: &Function) -> bool
    ensures { IsTrue result ↔ HasSameBody function.now other.now }
{
    function.params == other.params
        && function.slots == other.slots
        && same_lines(function.body.as_slice(), other.body.as_slice())
}

fn begin_as(walk: &mut Walk, decls: &[Decl], functions: &[Function]) -> Result<bool, Memory>
    ensures { IfOk result (λ same. IsTrue same ↔ BeginAs functions.now (ended walk.old decls.now).own) }
{
    let mut left = functions;
    for decl in decls {
        if let Some(own) = walk_decl(walk, decl)? {
            let [function, rest @ ..] = left else {
                return Ok(false);
            };
            if !has_same_body(function, &own) {
                return Ok(false);
            }
            left = rest;
        }
    }
    Ok(true)
}

/// Returns whether the first of these functions, in source order, have the same parameters, slots and bodies as the
/// functions and methods of the file, by the facts of all its declarations. Each made function is dropped once it is
/// compared.
pub fn begin_with_code(
    alloc: Global,
    file: &FileScope,
    decls: &[Decl],
    facts: &[Fact],
    functions: &[Function],
) -> Result<bool, Memory>
    ensures { IfOk result (λ same. IsTrue same ↔ BeginAs functions.now (file_by (tables_by decls.now facts.now) file.now decls.now facts.now).functions.own) }
{
    let unknown = Operand::Unknown;
    let tables = tables(alloc, decls, Facts::new(facts, &unknown))?;
    let gives = giving(alloc, file)?;
    let facts = Facts::new(facts, &unknown);
    let mut walk = start(alloc, &tables, gives.as_slice(), file, facts)?;
    begin_as(&mut walk, decls, functions)
}
