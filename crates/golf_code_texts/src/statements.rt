//! Adds the texts of statements to a table.

ghost use Rattle.std.specs.Prelude.{◌≡◌, flat_map, OnOk};
ghost use Rattle.golf_code_of.specs.Texts.{stmt_texts, optional_simple_texts, expr_texts, header_texts, comm_texts};
ghost use Rattle.golf_code_of.proofs.TextEquations.{clause_texts};
ghost use Rattle.golf_code_texts.specs.AddedTexts.{with_texts};

use crate::expressions::{call, expr};
use crate::simple::{communication, content, header, optional_expr, optional_simple, simple};
use golf_base::Memory;
use golf_code_of::TextTable;
use golf_syntax_trees::{Clause, Communication, Expr, Header, OwnedSimple, Stmt, behind_else};
use std::alloc::Global;

/// Adds the texts of statements.
#[cycle(walking)]
pub fn stmts(alloc: Global, table: &mut TextTable, body: &[Stmt]) -> Result<(), Memory>
    ensures { OnOk result (table.new ≡ with_texts table.old (flat_map stmt_texts body.now)) }
{
    for stmt in body {
        statement(alloc, table, stmt)?;
    }
    Ok(())
}

#[cycle(walking)]
fn tested(
    alloc: Global,
    table: &mut TextTable,
    body: &[Stmt],
    first: &Option<OwnedSimple>,
    test: &Expr,
) -> Result<(), Memory>
    ensures { OnOk result (table.new ≡ with_texts (with_texts (with_texts table.old (optional_simple_texts first.now)) (expr_texts test.now)) (flat_map stmt_texts body.now)) }
{
    optional_simple(alloc, table, first)?;
    expr(alloc, table, test)?;
    stmts(alloc, table, body)
}

#[cycle(walking)]
fn both_parts(
    alloc: Global,
    table: &mut TextTable,
    body: &[Stmt],
    otherwise: &Stmt,
    first: &Option<OwnedSimple>,
    test: &Expr,
) -> Result<(), Memory>
    ensures { OnOk result (table.new ≡ with_texts (with_texts (with_texts (with_texts table.old (optional_simple_texts first.now)) (expr_texts test.now)) (flat_map stmt_texts body.now)) (stmt_texts otherwise.now)) }
{
    tested(alloc, table, body, first, test)?;
    otherwise_at(alloc, table, otherwise)
}

// Adds the texts of the statement after `else`. A loop follows each `else if`, since nothing bounds
// their number.
#[cycle(walking)]
#[tactic(auto, using(crate::proofs::Walks::statements))]
fn otherwise_at(alloc: Global, table: &mut TextTable, otherwise: &Stmt) -> Result<(), Memory>
    ensures { OnOk result (table.new ≡ with_texts table.old (stmt_texts otherwise.now)) }
{
    let mut last = otherwise;
    'branches: while let Stmt::IfElse(_, first, test, body, _) = last {
        tested(alloc, table, body.as_slice(), first, test.get())?;
        last = behind_else(last);
    }
    statement(alloc, table, last)
}

#[cycle(walking)]
fn looped(alloc: Global, table: &mut TextTable, body: &[Stmt], head: &Header) -> Result<(), Memory>
    ensures { OnOk result (table.new ≡ with_texts (with_texts table.old (header_texts head.now)) (flat_map stmt_texts body.now)) }
{
    header(alloc, table, head)?;
    stmts(alloc, table, body)
}

#[cycle(walking)]
fn case(
    alloc: Global,
    table: &mut TextTable,
    body: &[Stmt],
    c: &Communication,
) -> Result<(), Memory>
    ensures { OnOk result (table.new ≡ with_texts (with_texts table.old (comm_texts c.now)) (flat_map stmt_texts body.now)) }
{
    communication(alloc, table, c)?;
    stmts(alloc, table, body)
}

#[cycle(walking)]
#[tactic(auto, using(crate::proofs::Walks::at_Case, crate::proofs::Walks::at_Default))]
fn clause(alloc: Global, table: &mut TextTable, clause: &Clause) -> Result<(), Memory>
    ensures { OnOk result (table.new ≡ with_texts table.old (clause_texts clause.now)) }
{
    match clause {
        Clause::Case(_, c, body) => case(alloc, table, body.as_slice(), c.get()),
        Clause::Default(_, body) => stmts(alloc, table, body.as_slice()),
    }
}

#[cycle(walking)]
fn clauses(alloc: Global, table: &mut TextTable, cs: &[Clause]) -> Result<(), Memory>
    ensures { OnOk result (table.new ≡ with_texts table.old (flat_map clause_texts cs.now)) }
{
    for c in cs {
        clause(alloc, table, c)?;
    }
    Ok(())
}

#[cycle(walking)]
#[tactic(auto, using(crate::proofs::Walks::statements))]
fn statement(alloc: Global, table: &mut TextTable, stmt: &Stmt) -> Result<(), Memory>
    ensures { OnOk result (table.new ≡ with_texts table.old (stmt_texts stmt.now)) }
{
    match stmt {
        Stmt::Var(v) => content(alloc, table, v.get().content.get()),
        Stmt::Simple(x) => simple(alloc, table, x.get().kind.get()),
        Stmt::Go(_, f, xs) => call(alloc, table, xs.as_slice(), f.get()),
        Stmt::Defer(_, f, xs) => call(alloc, table, xs.as_slice(), f.get()),
        Stmt::Return(_, e) => optional_expr(alloc, table, e),
        Stmt::Break(_) => Ok(()),
        Stmt::Continue(_) => Ok(()),
        Stmt::Block(_, body) => stmts(alloc, table, body.as_slice()),
        Stmt::If(_, first, test, body) => {
            tested(alloc, table, body.as_slice(), first, test.get())
        }
        Stmt::IfElse(_, first, test, body, otherwise) => {
            both_parts(
                alloc,
                table,
                body.as_slice(),
                otherwise.get(),
                first,
                test.get(),
            )
        }
        Stmt::For(_, head, body) => looped(alloc, table, body.as_slice(), head.get()),
        Stmt::Select(_, cs) => clauses(alloc, table, cs.as_slice()),
    }
}
