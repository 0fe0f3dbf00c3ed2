//! The table of the texts of a file.
//!
//! It begins with the empty text, which is the zero value of a string.

ghost use Rattle.std.specs.Prelude.{◌≡◌, flat_map, IfOk, OnOk};
ghost use Rattle.golf_code_of.specs.Texts.{decl_texts, texts_of, const_texts};
ghost use Rattle.golf_code_texts.specs.AddedTexts.{with_texts};

use crate::simple::content;
use crate::statements::stmts;
use golf_base::Memory;
use golf_code_of::TextTable;
use golf_syntax_trees::{Const, Decl};
use std::alloc::Global;

#[tactic(auto, using(crate::proofs::Walks::with_none, crate::proofs::Walks::with_one))]
fn constant(alloc: Global, table: &mut TextTable, value: &Const) -> Result<(), Memory>
    ensures { OnOk result (table.new ≡ with_texts table.old (const_texts value.now)) }
{
    match value {
        Const::Text(bytes) => table.add(alloc, bytes.as_slice()),
        Const::Integer(_) => Ok(()),
        Const::Negative(_) => Ok(()),
        Const::True => Ok(()),
        Const::False => Ok(()),
    }
}

#[tactic(auto, using(crate::proofs::Walks::with_none))]
fn decl(alloc: Global, table: &mut TextTable, decl: &Decl) -> Result<(), Memory>
    ensures { OnOk result (table.new ≡ with_texts table.old (decl_texts decl.now)) }
{
    match decl {
        Decl::Const(_, _, value) => constant(alloc, table, value),
        Decl::Var(var) => content(alloc, table, var.get().content.get()),
        Decl::Struct(_, _, _) => Ok(()),
        Decl::Func(func) => stmts(alloc, table, func.body.as_slice()),
    }
}

fn all_decls(alloc: Global, table: &mut TextTable, decls: &[Decl]) -> Result<(), Memory>
    ensures { OnOk result (table.new ≡ with_texts table.old (flat_map decl_texts decls.now)) }
{
    for x in decls {
        decl(alloc, table, x)?;
    }
    Ok(())
}

/// Returns the texts of a file: the empty text, and then each different text in the order in which
/// it is printed.
#[tactic(auto, using(crate::proofs::Walks::whole_table))]
pub fn texts_of_decls(alloc: Global, decls: &[Decl]) -> Result<TextTable, Memory>
    ensures { IfOk result (λ t. t ≡ texts_of decls.now) }
{
    let mut table = TextTable::new(alloc);
    table.add(alloc, b"".as_slice())?;
    all_decls(alloc, &mut table, decls)?;
    Ok(table)
}
