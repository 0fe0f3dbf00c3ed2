//! The types and expressions of a tree. The walk recurs for each part, so a deep tree takes much stack.

use crate::page::Page;
use golf_syntax_trees::{Expr, TypeExpr};

/// Tells a type as it is written.
pub(crate) fn tell_type(page: &mut Page, written: &TypeExpr) {
    match written {
        TypeExpr::Named(name) => page.named("Named", name.as_slice()),
        TypeExpr::Chan(inner) => {
            page.say("Chan of ");
            tell_type(page, inner.get());
        }
        _ => page.say("Other"),
    }
}

/// Tells an expression: its form, and its parts in parentheses.
#[cycle(telling)]
pub(crate) fn tell_expr(page: &mut Page, e: &Expr) {
    match e {
        Expr::Integer(digits) => page.named("Integer", digits.as_slice()),
        Expr::Name(name) => page.named("Name", name.as_slice()),
        Expr::Make(made) => {
            page.say("Make ");
            tell_type(page, made.get());
        }
        Expr::Selector(left, name) => {
            page.say("Selector(");
            tell_expr(page, left.get());
            page.say(", ");
            page.bytes(name.as_slice());
            page.say(")");
        }
        Expr::Call(callee, arguments) => {
            page.say("Call ");
            tell_expr(page, callee.get());
            tell_exprs(page, arguments.as_slice());
        }
        Expr::Unary(operator, inner) => {
            page.show(operator);
            page.say("(");
            tell_expr(page, inner.get());
            page.say(")");
        }
        _ => page.say("Other"),
    }
}

/// Tells expressions in brackets.
#[cycle(telling)]
pub(crate) fn tell_exprs(page: &mut Page, list: &[Expr]) {
    page.say(" [");
    for e in list {
        page.say(" ");
        tell_expr(page, e);
    }
    page.say(" ]");
}
