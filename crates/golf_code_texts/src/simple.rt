//! Adds the texts of the parts of statements that are no statements.

ghost use Rattle.std.specs.Prelude.{◌≡◌, ◌++◌, OnOk};
ghost use Rattle.golf_code_of.specs.Texts.{simple_texts, optional_simple_texts, optional_texts, expr_texts};
ghost use Rattle.golf_code_of.specs.Texts.{content_texts, header_texts, comm_texts};
ghost use Rattle.golf_code_texts.specs.AddedTexts.{with_texts};

use crate::expressions::{both, expr};
use golf_base::Memory;
use golf_code_of::TextTable;
use golf_syntax_trees::{Communication, Header, OwnedExpr, OwnedSimple, SimpleKind, VarContent};
use std::alloc::Global;

/// Adds the texts of a simple statement.
pub fn simple(alloc: Global, table: &mut TextTable, kind: &SimpleKind) -> Result<(), Memory>
    ensures { OnOk result (table.new ≡ with_texts table.old (simple_texts kind.now)) }
{
    match kind {
        SimpleKind::Expression(e) => expr(alloc, table, e.get()),
        SimpleKind::Send(c, e) => both(alloc, table, c.get(), e.get()),
        SimpleKind::Increment(p) => expr(alloc, table, p.get()),
        SimpleKind::Decrement(p) => expr(alloc, table, p.get()),
        SimpleKind::Assign(p, e) => both(alloc, table, p.get(), e.get()),
        SimpleKind::Update(p, _, e) => both(alloc, table, p.get(), e.get()),
        SimpleKind::Define(_, e) => expr(alloc, table, e.get()),
        SimpleKind::DefineReceived(_, _, e) => expr(alloc, table, e.get()),
        SimpleKind::AssignReceived(_, _, e) => expr(alloc, table, e.get()),
    }
}

/// Adds the texts of a simple statement, if there is one.
#[tactic(auto, using(crate::proofs::Walks::with_none))]
pub fn optional_simple(
    alloc: Global,
    table: &mut TextTable,
    x: &Option<OwnedSimple>,
) -> Result<(), Memory>
    ensures { OnOk result (table.new ≡ with_texts table.old (optional_simple_texts x.now)) }
{
    match x {
        None => Ok(()),
        Some(x) => simple(alloc, table, x.get().kind.get()),
    }
}

/// Adds the texts of an expression, if there is one.
#[tactic(auto, using(crate::proofs::Walks::with_none))]
pub fn optional_expr(
    alloc: Global,
    table: &mut TextTable,
    x: &Option<OwnedExpr>,
) -> Result<(), Memory>
    ensures { OnOk result (table.new ≡ with_texts table.old (optional_texts expr_texts x.now)) }
{
    match x {
        None => Ok(()),
        Some(e) => expr(alloc, table, e.get()),
    }
}

/// Adds the texts of the initial value of a variable.
#[tactic(auto, using(crate::proofs::Walks::with_none))]
pub fn content(alloc: Global, table: &mut TextTable, content: &VarContent) -> Result<(), Memory>
    ensures { OnOk result (table.new ≡ with_texts table.old (content_texts content.now)) }
{
    match content {
        VarContent::Zero(_) => Ok(()),
        VarContent::Typed(_, e) => expr(alloc, table, e.get()),
        VarContent::Untyped(e) => expr(alloc, table, e.get()),
    }
}

#[tactic(auto, using(crate::proofs::Walks::with_three))]
fn steps(
    alloc: Global,
    table: &mut TextTable,
    first: &Option<OwnedSimple>,
    test: &Option<OwnedExpr>,
    post: &Option<OwnedSimple>,
) -> Result<(), Memory>
    ensures { OnOk result (table.new ≡ with_texts table.old (optional_simple_texts first.now ++ (optional_texts expr_texts test.now ++ optional_simple_texts post.now))) }
{
    optional_simple(alloc, table, first)?;
    optional_expr(alloc, table, test)?;
    optional_simple(alloc, table, post)
}

/// Adds the texts of the header of a loop.
#[tactic(auto, using(crate::proofs::Walks::with_none))]
pub fn header(alloc: Global, table: &mut TextTable, header: &Header) -> Result<(), Memory>
    ensures { OnOk result (table.new ≡ with_texts table.old (header_texts header.now)) }
{
    match header {
        Header::Forever => Ok(()),
        Header::While(e) => expr(alloc, table, e.get()),
        Header::Steps(first, test, post) => steps(alloc, table, first, test, post),
        Header::Range(_, e) => expr(alloc, table, e.get()),
    }
}

/// Adds the texts of the communication of a case of a `select`.
pub fn communication(alloc: Global, table: &mut TextTable, c: &Communication) -> Result<(), Memory>
    ensures { OnOk result (table.new ≡ with_texts table.old (comm_texts c.now)) }
{
    match c {
        Communication::Send(c, e) => both(alloc, table, c.get(), e.get()),
        Communication::Receive(e) => expr(alloc, table, e.get()),
        Communication::Define(_, e) => expr(alloc, table, e.get()),
        Communication::Assign(_, e) => expr(alloc, table, e.get()),
        Communication::DefineReceived(_, _, e) => expr(alloc, table, e.get()),
    }
}
