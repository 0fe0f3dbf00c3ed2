//! The statements of a tree, each on a line of its own.

use crate::expressions::{tell_expr, tell_exprs};
use crate::page::Page;
use golf_syntax_trees::{Expr, SimpleKind, Stmt};

// Tells an expression that stands alone, or a definition of a variable.
fn tell_simple(page: &mut Page, kind: &SimpleKind) {
    match kind {
        SimpleKind::Expression(e) => {
            page.say("Expression ");
            tell_expr(page, e.get());
        }
        SimpleKind::Define(name, e) => {
            page.named("Define", name.as_slice());
            page.say(" ");
            tell_expr(page, e.get());
        }
        _ => page.say("Other"),
    }
}

// Tells a call that begins a goroutine.
fn tell_go(page: &mut Page, line: u32, f: &Expr, list: &[Expr]) {
    page.begin(1, line, "Go ");
    tell_expr(page, f);
    tell_exprs(page, list);
}

fn tell_stmt(page: &mut Page, stmt: &Stmt) {
    match stmt {
        Stmt::Simple(simple) => {
            page.begin(1, simple.get().line, "");
            tell_simple(page, simple.get().kind.get());
        }
        Stmt::Go(line, f, list) => tell_go(page, *line, f.get(), list.as_slice()),
        _ => page.say("  Other"),
    }
    page.say("\n");
}

/// Tells the statements of a function.
pub(crate) fn tell_stmts(page: &mut Page, body: &[Stmt]) {
    for stmt in body {
        tell_stmt(page, stmt);
    }
}
