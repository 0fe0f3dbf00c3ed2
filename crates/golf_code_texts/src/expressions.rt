//! Adds the texts of expressions to a table.

ghost use Rattle.std.specs.Prelude.{◌≡◌, ◌++◌, None, flat_map, OnOk};
ghost use Rattle.golf_syntax_trees.specs.Spines.{left_of};
ghost use Rattle.golf_code_of.specs.Texts.{expr_texts, call_texts};
ghost use Rattle.golf_code_of.proofs.TextEquations.{element_texts};
ghost use Rattle.golf_code_texts.specs.AddedTexts.{with_texts};
ghost use Rattle.golf_code_texts.specs.Spines.{rest_texts};

use golf_base::Memory;
use golf_code_of::TextTable;
use golf_syntax_trees::{Element, Expr, spine};
use std::alloc::Global;

/// Adds the texts of an expression.
///
/// A loop follows the spine of left operands.
#[cycle(walking)]
pub fn expr(alloc: Global, table: &mut TextTable, e: &Expr) -> Result<(), Memory>
    ensures { OnOk result (table.new ≡ with_texts table.old (expr_texts e.now)) }
{
    let (mut waiting, innermost) = spine(alloc, e)?;
    whole(alloc, table, innermost)?;
    while let Some(node) = waiting.pop() {
        rest(alloc, table, node)?;
    }
    Ok(())
}

// Adds the texts of an expression without a left operand.
#[cycle(walking)]
#[tactic(auto, using(crate::proofs::Walks::expressions), unfolding(golf_syntax_trees::specs::Spines::left_of))]
fn whole(alloc: Global, table: &mut TextTable, e: &Expr) -> Result<(), Memory>
    requires { left_of e.now ≡ None }
    ensures { OnOk result (table.new ≡ with_texts table.old (expr_texts e.now)) }
{
    match e {
        Expr::Integer(_) => Ok(()),
        Expr::Text(bytes) => table.add(alloc, bytes.as_slice()),
        Expr::Name(_) => Ok(()),
        Expr::Parens(e) => expr(alloc, table, e.get()),
        Expr::StructLiteral(_, xs) => elements(alloc, table, xs.as_slice()),
        Expr::SyncLiteral(_) => Ok(()),
        Expr::SliceLiteral(_, xs) => exprs(alloc, table, xs.as_slice()),
        Expr::EmptyLiteral => Ok(()),
        Expr::Make(_) => Ok(()),
        Expr::MakeSized(_, e) => expr(alloc, table, e.get()),
        Expr::New(_) => Ok(()),
        Expr::NewSync(_) => Ok(()),
        Expr::Selector(_, _) => unreachable!(),
        Expr::Index(_, _) => unreachable!(),
        Expr::Call(_, _) => unreachable!(),
        Expr::Unary(_, e) => expr(alloc, table, e.get()),
        Expr::Binary(_, _, _) => unreachable!(),
    }
}

// Adds the texts of the parts after the left operand.
#[cycle(walking)]
#[tactic(auto, using(crate::proofs::Walks::with_none), unfolding(crate::specs::Spines::rest_texts))]
fn rest(alloc: Global, table: &mut TextTable, e: &Expr) -> Result<(), Memory>
    ensures { OnOk result (table.new ≡ with_texts table.old (rest_texts e.now)) }
{
    match e {
        Expr::Integer(_) => Ok(()),
        Expr::Text(_) => Ok(()),
        Expr::Name(_) => Ok(()),
        Expr::Parens(_) => Ok(()),
        Expr::StructLiteral(_, _) => Ok(()),
        Expr::SyncLiteral(_) => Ok(()),
        Expr::SliceLiteral(_, _) => Ok(()),
        Expr::EmptyLiteral => Ok(()),
        Expr::Make(_) => Ok(()),
        Expr::MakeSized(_, _) => Ok(()),
        Expr::New(_) => Ok(()),
        Expr::NewSync(_) => Ok(()),
        Expr::Selector(_, _) => Ok(()),
        Expr::Index(_, i) => expr(alloc, table, i.get()),
        Expr::Call(_, xs) => exprs(alloc, table, xs.as_slice()),
        Expr::Unary(_, _) => Ok(()),
        Expr::Binary(_, _, b) => expr(alloc, table, b.get()),
    }
}

/// Adds the texts of two expressions, one after another.
#[tactic(auto, using(crate::proofs::Walks::with_more))]
pub fn both(alloc: Global, table: &mut TextTable, a: &Expr, b: &Expr) -> Result<(), Memory>
    ensures { OnOk result (table.new ≡ with_texts table.old (expr_texts a.now ++ expr_texts b.now)) }
{
    expr(alloc, table, a)?;
    expr(alloc, table, b)
}

#[cycle(walking)]
fn exprs(alloc: Global, table: &mut TextTable, xs: &[Expr]) -> Result<(), Memory>
    ensures { OnOk result (table.new ≡ with_texts table.old (flat_map expr_texts xs.now)) }
{
    for x in xs {
        expr(alloc, table, x)?;
    }
    Ok(())
}

#[cycle(walking)]
fn elements(alloc: Global, table: &mut TextTable, xs: &[Element]) -> Result<(), Memory>
    ensures { OnOk result (table.new ≡ with_texts table.old (flat_map element_texts xs.now)) }
{
    for x in xs {
        expr(alloc, table, &x.value)?;
    }
    Ok(())
}

/// Adds the texts of a call.
#[tactic(auto, using(crate::proofs::Walks::with_more))]
pub fn call(alloc: Global, table: &mut TextTable, xs: &[Expr], f: &Expr) -> Result<(), Memory>
    ensures { OnOk result (table.new ≡ with_texts table.old (call_texts f.now xs.now)) }
{
    expr(alloc, table, f)?;
    exprs(alloc, table, xs)
}
